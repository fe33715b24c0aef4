//! Laws about the frames of calls and replies. A law is a function that does nothing: its caller gets what
//! the contract of the law states.

ghost use Rattle.std.specs.Prelude.{List, ℕ, All, ◌<◌, ◌++◌, ◌^◌, decimal};
ghost use Rattle.envelope.specs.Envelope.{CallBytes, IsCall, IsReply, IsTextByte, ReplyBytes, frame, reply};
ghost use Rattle.envelope.specs.declared.taken.Taken.{Taken};
ghost use Rattle.envelope.specs.declared.taken_reply.TakenReply.{TakenReply};
ghost use Rattle.envelope.specs.Taken.{IsTaken, TakesFirst};
ghost use Rattle.envelope.specs.TakenReply.{IsTakenReply, TakesFirstReply};
ghost use Rattle.envelope.specs.Stream.{HasReading, HasOneReading, KeepsReading};

/// Every list of bytes has a reading: the frames of some calls, and after them one of three ends. At the end
/// there is no further byte, or there are bytes that break a rule of frames, or the start of an incomplete
/// frame.
pub fn some_reading()
    ensures { (bytes : List ℕ) → All (λ byte. byte < 256) bytes → HasReading bytes }
{}

/// No list of bytes has two readings.
pub fn one_reading()
    ensures { (bytes : List ℕ) → HasOneReading bytes }
{}

/// If more bytes are appended to a list of bytes, the calls that were read stay the same, and so does the
/// fault that was found.
pub fn longer_keeps()
    ensures { (bytes more : List ℕ) → KeepsReading bytes more }
{}

/// [`take_frame`](crate::take_frame) returns the call if the bytes begin with the frame of a call.
pub fn call_read_back()
    ensures { (call : CallBytes) (more : List ℕ) (taken : Taken) → IsCall call
        → TakesFirst (frame call ++ more) taken → IsTaken call taken }
{}

/// [`take_reply`](crate::take_reply) returns the reply if the bytes begin with the frame of a reply.
pub fn reply_read_back()
    ensures { (r : ReplyBytes) (more : List ℕ) (taken : TakenReply) → IsReply r
        → TakesFirstReply (reply r ++ more) taken → IsTakenReply r taken }
{}

/// The digits of a number below 2^64 are bytes that the text of a reply may have.
pub fn decimal_is_text()
    ensures { (n : ℕ) → n < 2 ^ 64 → All IsTextByte (decimal n) }
{}

//! The two kinds of frame, calls and replies, and the limits of their parts.

ghost use Rattle.std.specs.Prelude.{◌≡◌, ◌<◌, ◌≤◌, false, IsTrue};
ghost use Rattle.envelope.specs.Envelope.{is_status as is_status_number};
ghost use Rattle.envelope.specs.Grammar.{lead, least_text, most_text, most_body, least_byte, HasBadStatus};
ghost use Rattle.envelope.specs.Head.{most_frame, most_head};

use crate::limits::{
    MAX_BODY_BYTES, MAX_FRAME_BYTES, MAX_HEAD_BYTES, MAX_MESSAGE_BYTES, MAX_PATH_BYTES,
    MAX_REPLY_BYTES, MAX_REPLY_HEAD_BYTES, MAX_TEXT_BYTES,
};

/// The two kinds of frame. Both have the length of a text, the text, a flag, the length of a body, and the
/// body, in this order. A reply also begins with a status. So the same code reads both kinds.
#[derive(Clone, Copy)]
pub enum FrameKind {
    /// Frames of calls, which a client sends. The text is the path of the method, and the body is the request
    /// message.
    Calls,
    /// Frames of replies, which a server sends. A status comes before the length of the text. The text is the
    /// reason of a refusal, and the body is the response message.
    Replies,
}

/// The part of a frame that breaks a rule.
#[derive(Clone, Copy)]
pub enum Part {
    /// The status of a reply is not one of the ten status codes.
    Status,
    /// The length of the text is out of its range: 1 to 128 bytes in a call, 0 to 1,024 bytes in a reply. In
    /// a reply with status 0 it must be 0.
    TextLength,
    /// A byte of the text is out of its range: 0x21 to 0x7E in a call, 0x20 to 0x7E in a reply.
    Text,
    /// The flag is not 0, the only value that it may have.
    Flag,
    /// The length of the body is above its limit: 1,048,576 bytes in a call, and 4,194,304 bytes in a reply
    /// with status 0. In any other reply it must be 0.
    BodyLength,
    /// The input ends before this frame is complete.
    Missing,
}

impl FrameKind {
    /// Returns the number of bytes before the length of the text: 1 in a reply, for the status, and 0 in a
    /// call.
    pub(crate) fn lead(self) -> usize
        ensures value { result ≡ lead self }
        ensures small { result ≤ 1 }
    {
        match self {
            FrameKind::Calls => 0,
            FrameKind::Replies => 1,
        }
    }

    /// Returns the least length of a text in bytes: 1 for a path, 0 for the text of a reply.
    pub(crate) fn least_text(self) -> usize
        ensures { result ≡ least_text self }
    {
        match self {
            FrameKind::Calls => 1,
            FrameKind::Replies => 0,
        }
    }

    /// Returns the greatest length of the text in bytes. `first` is the first byte of the frame. In a reply
    /// this byte is the status, and with status 0 the text must be empty.
    pub(crate) fn most_text(self, first: u8) -> usize
        ensures { result ≡ most_text self first }
    {
        match self {
            FrameKind::Calls => MAX_PATH_BYTES,
            FrameKind::Replies if first == 0 => 0,
            FrameKind::Replies => MAX_TEXT_BYTES,
        }
    }

    /// Returns the greatest length of the body in bytes. `first` is the first byte of the frame. In a reply
    /// this byte is the status, and with a status other than 0 the body must be empty.
    pub(crate) fn most_body(self, first: u8) -> usize
        ensures { result ≡ most_body self first }
    {
        match self {
            FrameKind::Calls => MAX_MESSAGE_BYTES,
            FrameKind::Replies if first == 0 => MAX_BODY_BYTES,
            FrameKind::Replies => 0,
        }
    }

    /// Returns the least value of a byte in the text: 0x21 in a path, 0x20 in the text of a reply.
    pub(crate) fn least_byte(self) -> u8
        ensures { result ≡ least_byte self }
    {
        match self {
            FrameKind::Calls => 33,
            FrameKind::Replies => 32,
        }
    }

    /// Returns the greatest number of bytes before the body of a frame of this kind: [`MAX_HEAD_BYTES`] or
    /// [`MAX_REPLY_HEAD_BYTES`].
    pub fn most_head(self) -> usize
        ensures { result ≡ most_head self }
    {
        match self {
            FrameKind::Calls => MAX_HEAD_BYTES,
            FrameKind::Replies => MAX_REPLY_HEAD_BYTES,
        }
    }

    /// Returns the greatest number of bytes of a frame of this kind: [`MAX_FRAME_BYTES`] or
    /// [`MAX_REPLY_BYTES`].
    pub fn most_frame(self) -> usize
        ensures { result ≡ most_frame self }
    {
        match self {
            FrameKind::Calls => MAX_FRAME_BYTES,
            FrameKind::Replies => MAX_REPLY_BYTES,
        }
    }

    /// Returns true if a reply that begins with these bytes has a bad status: its first byte is not a status
    /// code. Returns false for calls, which have no status. Returns false if `bytes` is empty.
    pub(crate) fn has_bad_status(self, bytes: &[u8]) -> bool
        ensures bad { IsTrue result → HasBadStatus self bytes.now }
        ensures good { (result ≡ false) → HasBadStatus self bytes.now → ⊥ }
    {
        match self {
            FrameKind::Calls => false,
            FrameKind::Replies if bytes.is_empty() => false,
            FrameKind::Replies => !is_status(bytes[0]),
        }
    }
}

// Returns true if the number is one of the ten status codes.
fn is_status(number: u8) -> bool
    ensures { result ≡ is_status_number number }
{
    matches!(number, 0 | 3 | 5 | 6 | 8 | 9 | 10 | 11 | 12 | 13)
}

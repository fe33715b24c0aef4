//! Cuts a stream of bytes into frames.

ghost use Rattle.std.specs.Prelude.{◌≡◌, ℕ, ◌+◌, ◌^◌, ◌<◌, ◌≤◌, [], ◌++◌, length, take, slice_index, min, vec_len, vec_capacity, None, Some, IfOk, MatchOption, IsTrue, IsNone, IfSome, is_some, false};
ghost use Rattle.envelope.specs.Envelope.{IsCall, bytes_of, frame, IsReply, reply_bytes_of, reply};
ghost use Rattle.envelope.specs.Grammar.{BeginsFrame, IsFrame, IsUnbroken, IsUnfinished};
ghost use Rattle.envelope.specs.declared.kind.FrameKind.TheVariants.{Calls, Replies};
ghost use Rattle.envelope.specs.Head.{IsShort, IsWhole, most_frame};
ghost use Rattle.frames_core.specs.Holding.{IsBreakIn, IsFaultIn};
ghost use Rattle.frames_core.specs.Framer.{CutterState, begun, IsSettledAs, IsCutShortAs, cut_with};

use crate::prefix::{each_fits, take_prefix};
use envelope::{Call, Fault, FrameFault, Part, Reply, ReplyFault, call_of, reply_of};
use std::alloc::{AllocError, Global};
use std::marker::Model;

/// Cuts a stream of bytes, which comes in pieces of any size, into frames. The frames are calls if `F` is
/// [`FrameFault`], and replies if `F` is [`ReplyFault`].
///
/// `new` allocates one buffer for the longest frame, and no later call allocates. Appending to a buffer with
/// enough room cannot fail, so no other function returns an error for memory.
///
/// Contracts see a cutter as three values: the length in bytes of all frames that were discarded (`past`),
/// the bytes taken since then (`held`), and the fault of the stream (`fault`). Once a fault is known, it
/// never changes.
#[derive(Drop)]
pub struct Cutter<F: Fault> {
    buffer: Vec<u8>,
    past: u64,
    known: Option<F>,
    // True if the held bytes are a complete frame, so that its head need not be read again.
    whole: bool,
}

/// Cuts a stream into calls, for a server. Its buffer has room for
/// [`MAX_FRAME_BYTES`](envelope::MAX_FRAME_BYTES) bytes, the longest frame of a call.
pub type Framer = Cutter<FrameFault>;

/// Cuts a stream into replies, for a client. Its buffer has room for
/// [`MAX_REPLY_BYTES`](envelope::MAX_REPLY_BYTES) bytes, the longest frame of a reply.
pub type ReplyFramer = Cutter<ReplyFault>;

impl<F: Fault> Model for Cutter<F> {
    ghost use Rattle.std.specs.Prelude.{◌≤◌, vec_capacity};
    ghost use Rattle.frames_core.specs.Framer.{CutterState};
    ghost use Rattle.envelope.specs.Head.{most_frame};
    ghost use Rattle.frames_core.specs.Holding.{Holds, Marks};

    ghost Value = { CutterState F };

    ghost view = { λ f. record { past = f.past; held = f.buffer.items; fault = f.known } };

    ghost invariant = { λ f. (most_frame F.kind ≤ vec_capacity f.buffer)
        × Holds F.kind F.wrong_part F.place f.past f.buffer.items f.known
        × Marks F.kind f.buffer.items f.known f.whole };
}

impl<F: Fault> Cutter<F> {
    /// Makes a cutter for a new stream, and allocates all the memory that the cutter will need. Fails if
    /// memory is refused.
    pub fn new(alloc: Global) -> Result<Cutter<F>, AllocError>
        ensures empty { IfOk result (λ f. f ≡ begun) }
        ensures open { IfOk result (λ f. IsUnfinished F.kind f.held) }
    {
        let buffer = Vec::with_capacity(alloc, F::kind().most_frame())?;
        Ok(Cutter {
            buffer,
            past: 0,
            known: None,
            whole: false,
        })
    }

    /// Returns the number of bytes that were taken since the start of the stream.
    pub fn taken(&self) -> u64
        ensures value { result ≡ self.now.past + length self.now.held }
        ensures bounded { result < 2 ^ 63 }
    {
        self.past + self.buffer.len() as u64
    }

    /// Returns the fault of the stream, or `None` while no fault is known. The place in the fault is counted
    /// from the start of the stream.
    pub fn fault(&self) -> Option<F>
        ensures value { result ≡ self.now.fault }
        ensures exact { MatchOption result (IsUnbroken F.kind self.now.held)
            (λ f. IsFaultIn F.kind self.now.past self.now.held (F.wrong_part f) (F.place f)) }
    {
        self.known
    }

    // Returns the held bytes if they are a complete frame, otherwise `None`.
    #[inline(always)]
    fn whole_frame(&self) -> Option<&[u8]>
        ensures value { IfSome result (λ bytes. (bytes.now ≡ self.now.held) × IsUnbroken F.kind bytes.now
            × IsWhole F.kind bytes.now × (self.now.fault ≡ None)) }
        ensures frame { IsTrue (is_some result) → IsFrame F.kind self.now.held }
        ensures none { IsNone result → ¬ BeginsFrame F.kind self.now.held }
        ensures short { IsNone result → self.now.fault ≡ None → IsUnbroken F.kind self.now.held
            × IsShort F.kind self.now.held }
    {
        if !self.whole {
            return None;
        }
        let held = self.buffer.as_slice();
        each_fits(held);
        Some(held)
    }

    /// Discards the complete frame, so that the next frame can be taken. Does nothing if no frame is
    /// complete.
    #[inline(always)]
    pub fn next_frame(&mut self)
        ensures given_up { IsFrame F.kind self.old.held
            → self.new ≡ record { past = self.old.past + length self.old.held; held = []; fault = None } }
        ensures open { IsFrame F.kind self.old.held → IsUnfinished F.kind self.new.held }
        ensures kept { ¬ IsFrame F.kind self.old.held → self.new ≡ self.old }
    {
        if self.whole_frame().is_some() {
            self.past += self.buffer.len() as u64;
            self.buffer.clear();
            self.whole = false;
        }
    }

    /// Ends the input. If a frame has begun and is not complete, and no fault is known, the fault
    /// `EndOfInput` becomes known. Otherwise nothing changes.
    pub fn end(&mut self)
        ensures ends { IsCutShortAs F.kind self.old → self.new ≡ cut_with F.cut_at self.old }
        ensures kept { ¬ IsCutShortAs F.kind self.old → self.new ≡ self.old }
    {
        if self.known.is_none() && !self.buffer.is_empty() && self.whole_frame().is_none() {
            self.known = Some(F::of(Part::Missing, self.taken()));
        }
    }

    // Returns true if no more bytes are taken, because a frame is complete or a fault is known.
    #[inline(always)]
    fn is_settled(&self) -> bool
        ensures settled { IsTrue result → IsSettledAs F.kind self.now }
        ensures open { (result ≡ false) → (self.now.fault ≡ None) × IsUnbroken F.kind self.now.held
            × IsShort F.kind self.now.held }
    {
        self.known.is_some() || self.whole_frame().is_some()
    }

    /// Takes bytes of the piece up to the end of one frame, or up to the byte that makes a fault known. If
    /// the piece has neither, takes all of it. Returns the number of bytes that were taken. If a frame is
    /// complete or a fault is known before the call, takes no bytes.
    ///
    /// The stream must have fewer than 2^63 bytes: the bytes that were taken since its start, and the bytes
    /// of the piece.
    #[inline(always)]
    pub fn feed(&mut self, piece: &[u8]) -> usize
        requires room { self.old.past + length self.old.held + length piece.now < 2 ^ 63 }
        ensures within { result ≤ length piece.now }
        ensures past { self.new.past ≡ self.old.past }
        ensures held { self.new.held ≡ self.old.held ++ take result piece.now }
        // Takes the shortest prefix of the piece that completes a frame or makes a fault known. If there is
        // no such prefix, takes the whole piece.
        ensures least { (k : ℕ) → k < result → IsUnfinished F.kind (self.old.held ++ take k piece.now) }
        ensures all { result < length piece.now → IsSettledAs F.kind self.new }
        // A fault that becomes known comes from the bytes, and not from an end of the input.
        ensures known { self.old.fault ≡ None
            → IfSome self.new.fault (λ f. IsBreakIn F.kind self.new.past self.new.held (F.wrong_part f)
            (F.place f)) }
        // A prefix of a frame is shorter than the longest frame.
        ensures bounded { self.new.fault ≡ None → IsUnfinished F.kind self.new.held
            → length self.new.held < most_frame F.kind }
        // Nothing is taken while a frame is complete or after a fault.
        ensures settled { IsSettledAs F.kind self.old → result ≡ 0 }
        ensures idle { result ≡ 0 → self.new ≡ self.old }
    {
        if self.is_settled() {
            return 0;
        }
        let prefix = take_prefix(F::kind(), &mut self.buffer, piece);
        each_fits(self.buffer.as_slice());
        self.whole = prefix.whole;
        if let Some(flaw) = prefix.flaw {
            self.known = Some(F::of(flaw.part, self.past + flaw.at as u64));
        }
        prefix.count
    }
}

impl Cutter<FrameFault> {
    /// Returns the call whose frame is complete, borrowed from the buffer, or `None` if no frame is complete.
    pub fn frame(&self) -> Option<Call<'_>>
        ensures { MatchOption result (¬ BeginsFrame Calls self.now.held) (λ call. IsCall (bytes_of call)
            × (self.now.held ≡ frame (bytes_of call))) }
    {
        Some(call_of(self.whole_frame()?))
    }
}

impl Cutter<ReplyFault> {
    /// Returns the reply whose frame is complete, borrowed from the buffer, or `None` if no frame is
    /// complete.
    pub fn reply(&self) -> Option<Reply<'_>>
        ensures { MatchOption result (¬ BeginsFrame Replies self.now.held) (λ r. IsReply (reply_bytes_of r)
            × (self.now.held ≡ reply (reply_bytes_of r))) }
    {
        Some(reply_of(self.whole_frame()?))
    }
}

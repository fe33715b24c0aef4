//! One type for the framers of calls and of replies.

use super::parts::{FrameKind, call_fault_text, call_text, reply_fault_text, reply_text};
use frames_core::{Framer, ReplyFramer};
use std::alloc::{AllocError, Global};
use test_kit::RowFault;

// 2^40, which is more than the number of bytes of any row. A framer must not be fed a stream of 2^63 bytes or
// more, and this lower bound ensures it.
const MANY: u64 = 1_099_511_627_776;

/// A framer of calls or of replies.
pub(crate) enum AnyFramer {
    Calls(Framer),
    Replies(ReplyFramer),
}

// Written by hand and not derived: the proof of code that drops a framer then has one call for the drop.
impl Drop for AnyFramer {
    fn drop(self) {
        match self {
            AnyFramer::Calls(_framer) => {}
            AnyFramer::Replies(_framer) => {}
        }
    }
}

impl AnyFramer {
    pub(crate) fn new(alloc: Global, kind: FrameKind) -> Result<AnyFramer, AllocError> {
        Ok(match kind {
            FrameKind::Calls => AnyFramer::Calls(Framer::new(alloc)?),
            FrameKind::Replies => AnyFramer::Replies(ReplyFramer::new(alloc)?),
        })
    }

    /// Feeds a piece of a stream to the framer. Returns the number of bytes of the piece that the framer
    /// took.
    ///
    /// # Errors
    ///
    /// `NotRow` if the piece has 2^40 bytes or more, or if the framer has already taken 2^40 bytes or more.
    pub(crate) fn feed(&mut self, piece: &[u8]) -> Result<usize, RowFault> {
        if piece.len() as u64 >= MANY {
            return Err(RowFault::NotRow);
        }
        match self {
            AnyFramer::Calls(framer) if framer.taken() < MANY => Ok(framer.feed(piece)),
            AnyFramer::Replies(framer) if framer.taken() < MANY => Ok(framer.feed(piece)),
            _ => Err(RowFault::NotRow),
        }
    }

    /// Returns the number of bytes of the stream that the framer has taken.
    pub(crate) fn taken(&self) -> u64 {
        match self {
            AnyFramer::Calls(framer) => framer.taken(),
            AnyFramer::Replies(framer) => framer.taken(),
        }
    }

    pub(crate) fn next_frame(&mut self) {
        match self {
            AnyFramer::Calls(framer) => framer.next_frame(),
            AnyFramer::Replies(framer) => framer.next_frame(),
        }
    }

    pub(crate) fn end(&mut self) {
        match self {
            AnyFramer::Calls(framer) => framer.end(),
            AnyFramer::Replies(framer) => framer.end(),
        }
    }

    /// Returns the complete call or reply in the framer as a text, or `None` if the framer has no complete
    /// frame.
    pub(crate) fn frame_text(&self, alloc: Global) -> Result<Option<String>, RowFault> {
        match self {
            AnyFramer::Calls(framer) => match framer.frame() {
                Some(call) => Ok(Some(call_text(alloc, call)?)),
                None => Ok(None),
            },
            AnyFramer::Replies(framer) => match framer.reply() {
                Some(reply) => Ok(Some(reply_text(alloc, reply)?)),
                None => Ok(None),
            },
        }
    }

    /// Returns the text of the fault that the framer found, or `None` if it found no fault.
    pub(crate) fn fault_text(&self, alloc: Global) -> Result<Option<String>, RowFault> {
        match self {
            AnyFramer::Calls(framer) => match framer.fault() {
                Some(fault) => Ok(Some(call_fault_text(alloc, fault, 0)?)),
                None => Ok(None),
            },
            AnyFramer::Replies(framer) => match framer.fault() {
                Some(fault) => Ok(Some(reply_fault_text(alloc, fault, 0)?)),
                None => Ok(None),
            },
        }
    }
}

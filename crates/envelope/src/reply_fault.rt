//! The rules that a frame of a reply can break.

ghost use Rattle.std.specs.Prelude.{◌≡◌};
ghost use Rattle.envelope.specs.Texts.{reply_fault_words};
ghost use Rattle.envelope.specs.declared.kind.FrameKind.TheVariants.{Replies};
ghost use Rattle.envelope.specs.Faults.{reply_cut_at, reply_part, reply_place};
ghost use Rattle.envelope.specs.Replies.{reply_part_of};

use crate::fault::Fault;
use crate::kind::{FrameKind, Part};
use thiserror::Error;

/// The rules that a frame of a reply can break, in the order of the frame's parts. The last rule is about the
/// end of the input.
#[derive(Clone, Copy, Debug, PartialEq, Eq)]
pub enum ReplyWhy {
    /// The status is not one of the ten codes. The place of the fault is the first byte of the frame.
    BadStatus,
    /// The length of the text is above 1,024, or above 0 although the status is 0. The place of the fault is
    /// the first of the two length bytes.
    BadTextLength,
    /// A byte of the text is not from 0x20 to 0x7E. The place of the fault is that byte.
    BadText,
    /// The flag is not 0 (compression is not supported). The place of the fault is the flag.
    BadFlag,
    /// The length of the body is above 4,194,304, or above 0 although the status is not 0. The place of the
    /// fault is the first of the four length bytes.
    BadBodyLength,
    /// The input ends inside a frame. The place of the fault is the length of the input.
    EndOfInput,
}

impl ReplyWhy {
    /// Returns the text of the fault up to the number of the byte, such as `bad status at byte `.
    pub fn text(self) -> &'static str
        ensures { result.now ≡ reply_fault_words self }
    {
        match self {
            ReplyWhy::BadStatus => "bad status at byte ",
            ReplyWhy::BadTextLength => "bad text length at byte ",
            ReplyWhy::BadText => "bad text at byte ",
            ReplyWhy::BadFlag => "bad flag at byte ",
            ReplyWhy::BadBodyLength => "bad body length at byte ",
            ReplyWhy::EndOfInput => "end of input at byte ",
        }
    }

    /// Returns the rule that a reply's frame breaks in this part.
    pub(crate) fn of(part: Part) -> ReplyWhy
        ensures { reply_part_of result ≡ part }
    {
        match part {
            Part::Status => ReplyWhy::BadStatus,
            Part::TextLength => ReplyWhy::BadTextLength,
            Part::Text => ReplyWhy::BadText,
            Part::Flag => ReplyWhy::BadFlag,
            Part::BodyLength => ReplyWhy::BadBodyLength,
            Part::Missing => ReplyWhy::EndOfInput,
        }
    }
}

/// The fault of a malformed frame of a reply. The stream cannot be read past such a frame.
#[derive(Clone, Copy, Debug, PartialEq, Eq, Error)]
#[error("{}{}", self.why.text(), self.at)]
pub struct ReplyFault {
    /// The rule that the reply breaks.
    pub why: ReplyWhy,
    /// The place of the fault: the offset of a byte, counted from 0 at the start of the input. In a fault
    /// from [`take_reply`](crate::take_reply) the input is its argument.
    pub at: u64,
}

impl Fault for ReplyFault {
    ghost kind = { Replies };

    ghost wrong_part = { reply_part };

    ghost place = { reply_place };

    ghost cut_at = { reply_cut_at };

    fn kind() -> FrameKind {
        FrameKind::Replies
    }

    fn of(part: Part, at: u64) -> ReplyFault {
        ReplyFault {
            why: ReplyWhy::of(part),
            at,
        }
    }
}

//! The faults of a stream of frames, and the rules that a frame of a call can break.

ghost use Rattle.std.specs.Prelude.{◌≡◌, ℕ, ◌≤◌, length, All};
ghost use Rattle.envelope.specs.declared.kind.FrameKind.TheVariants.{Calls};
ghost use Rattle.envelope.specs.declared.kind.Part.TheVariants.{Missing};
ghost use Rattle.envelope.specs.Envelope.{IsTextByte};
ghost use Rattle.envelope.specs.Faults.{call_cut_at, part as part_of_fault, place};
ghost use Rattle.envelope.specs.Grammar.{HasPart};
ghost use Rattle.envelope.specs.Stream.{part_of};
ghost use Rattle.envelope.specs.Texts.{fault_words};

use crate::kind::{FrameKind, Part};
use thiserror::Error;

/// The fault that ends a stream of frames. In a stream of calls the fault is a [`FrameFault`], and in a
/// stream of replies a [`ReplyFault`](crate::ReplyFault).
pub trait Fault: Copy + Drop {
    ghost use Rattle.std.specs.Prelude.{ℕ};
    ghost use Rattle.envelope.specs.declared.kind.FrameKind.{FrameKind};
    ghost use Rattle.envelope.specs.declared.kind.Part.{Part};

    // The kind of the frames, the part that breaks a rule, the place of the break, and the fault of an input
    // that ends inside a frame.
    ghost kind: { FrameKind };

    ghost wrong_part: { Self → Part };

    ghost place: { Self → ℕ };

    ghost cut_at: { ℕ → Self };

    /// Returns the kind of frame that the fault is about: a call, which a client sends, or a reply, which a
    /// server sends.
    fn kind() -> FrameKind
        ensures { result ≡ kind };

    /// Makes the fault of a frame whose part `part` breaks a rule at the offset `at`. The part must be a part
    /// of this kind of frame.
    fn of(part: Part, at: u64) -> Self
        requires { HasPart kind part }
        ensures part { wrong_part result ≡ part }
        ensures place { place result ≡ at }
        ensures missing { part ≡ Missing → result ≡ cut_at at };
}

/// The rules that the frame of a call can break, in the order of the frame's parts. The last rule is about
/// the end of the input.
#[derive(Clone, Copy, Debug, PartialEq, Eq)]
pub enum FrameWhy {
    /// The two length bytes give the number 0 or a number above 128. The place of the fault is the first byte
    /// of the frame.
    BadPathLength,
    /// A byte of the path is not from 0x21 to 0x7E. The place of the fault is that byte.
    BadPath,
    /// The flag is not 0 (compression is not supported). The place of the fault is the flag.
    BadFlag,
    /// The four length bytes give a number above 1,048,576. The place of the fault is the first length byte.
    TooLong,
    /// The input ends inside a frame. The place of the fault is the length of the input.
    EndOfInput,
}

impl FrameWhy {
    /// Returns the text of the fault up to the number of the byte, such as `bad flag at byte `.
    pub fn text(self) -> &'static str
        ensures value { result.now ≡ fault_words self }
        ensures short { length result.now ≤ 120 }
        ensures printable { All IsTextByte result.now }
    {
        match self {
            FrameWhy::BadPathLength => "bad path length at byte ",
            FrameWhy::BadPath => "bad path at byte ",
            FrameWhy::BadFlag => "bad flag at byte ",
            FrameWhy::TooLong => "message too long at byte ",
            FrameWhy::EndOfInput => "end of input at byte ",
        }
    }

    /// Returns the rule that the frame of a call breaks in this part. The part must not be [`Part::Status`],
    /// since calls have no status.
    pub(crate) fn of(part: Part) -> FrameWhy
        requires { HasPart Calls part }
        ensures { part_of result ≡ part }
    {
        match part {
            Part::Status => unreachable!(),
            Part::TextLength => FrameWhy::BadPathLength,
            Part::Text => FrameWhy::BadPath,
            Part::Flag => FrameWhy::BadFlag,
            Part::BodyLength => FrameWhy::TooLong,
            Part::Missing => FrameWhy::EndOfInput,
        }
    }
}

/// The fault of a malformed frame of a call. The stream cannot be read past such a frame.
#[derive(Clone, Copy, Debug, PartialEq, Eq, Error)]
#[error("{}{}", self.why.text(), self.at)]
pub struct FrameFault {
    /// The rule that the frame breaks.
    pub why: FrameWhy,
    /// The place of the fault: the offset of a byte, counted from 0 at the start of the input. In a fault
    /// from [`take_frame`](crate::take_frame) the input is its argument.
    pub at: u64,
}

impl Fault for FrameFault {
    ghost kind = { Calls };

    ghost wrong_part = { part_of_fault };

    ghost place = { place };

    ghost cut_at = { call_cut_at };

    fn kind() -> FrameKind {
        FrameKind::Calls
    }

    fn of(part: Part, at: u64) -> FrameFault {
        FrameFault {
            why: FrameWhy::of(part),
            at,
        }
    }
}

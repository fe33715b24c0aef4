//! The reasons why calls are refused, and the replies that refuse them.

ghost use Rattle.std.specs.Prelude.{◌≡◌, ◌≤◌, List, ℕ, All, codes, length};
ghost use Rattle.envelope.specs.Envelope.{IsReply, IsTextByte, reply as reply_frame};
ghost use Rattle.csi_server.specs.Service.{refused_by};

use csi_types::{Code, Reason};
use envelope::{FixedFrame, refusal_frame, text_and_number};
use pbmessage::MALFORMED_MESSAGE;

/// The reason why a call is refused, which gives the status and the text of its reply.
#[derive(Clone, Copy, Debug, PartialEq, Eq)]
pub enum Refusal {
    /// The request is refused for this reason, with the reason's status code and text.
    For(Reason),
    /// The message is malformed in a field. The value is the offset of the field in bytes from the start of
    /// the message.
    Malformed(u64),
}

/// The outcome of a call: `Ok` means status 0, an error is the refusal of the call.
pub type CallResult = Result<(), Refusal>;

impl Refusal {
    /// Returns the frame of the reply that refuses the call.
    pub(crate) fn frame(self) -> FixedFrame
        ensures spelled { result ≡ reply_frame (refused_by self) }
        ensures formed { IsReply (refused_by self) }
    {
        match self {
            Refusal::For(reason) => reason_frame(reason),
            Refusal::Malformed(at) => malformed_frame(at),
        }
    }
}

fn reason_frame(reason: Reason) -> FixedFrame
    ensures spelled { result ≡ reply_frame (refused_by (Refusal.For reason)) }
    ensures formed { IsReply (refused_by (Refusal.For reason)) }
{
    refusal_frame(reason.code().number(), reason.text().as_bytes())
}

fn malformed_frame(at: u64) -> FixedFrame
    ensures spelled { result ≡ reply_frame (refused_by (Refusal.Malformed at)) }
    ensures formed { IsReply (refused_by (Refusal.Malformed at)) }
{
    refusal_frame(
        Code::InvalidArgument.number(),
        text_and_number(malformed_start(), at).bytes(),
    )
}

// Returns the text of the refusal of a malformed message, up to the offset of the field.
fn malformed_start() -> &'static [u8]
    ensures value { result.now ≡ codes "malformed message in the field at byte " }
    ensures short { length result.now ≤ 120 }
    ensures printable { All IsTextByte result.now }
{
    MALFORMED_MESSAGE.as_bytes()
}

impl From<Reason> for Refusal {
    ghost use Rattle.csi_server.specs.declared.refused.Refusal.TheVariants.{For};

    ghost from_gives = { λ reason refusal. refusal ≡ For reason };

    fn from(reason: Reason) -> Refusal {
        Refusal::For(reason)
    }
}

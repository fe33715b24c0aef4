//! Decodes and checks the message of a call.

ghost use Rattle.std.specs.Prelude.{◌≡◌, ℕ, List, None, Ok, IfOk, IfErr};
ghost use Rattle.csi_types.specs.Checks.{checked};
ghost use Rattle.csi_codec.specs.Reading.{read_request};
ghost use Rattle.csi_server.specs.Machine.{refused};
ghost use Rattle.csi_server.specs.Service.{refused_by, reply_of, HoldsBody};
ghost use Rattle.csi_server.specs.Requests.{IsUnread};

use crate::refused::{CallResult, Refusal};
use csi_checks::check;
use csi_codec::decode;
use csi_types::{Method, Reason, Request};
use pbmessage::DecodeFault;
use std::alloc::Global;

/// Decodes the request in a message and checks its arguments. Returns the refusal if the message is
/// malformed, a check fails, or memory is refused.
pub(crate) fn read_message(
    alloc: Global,
    method: Method,
    message: &[u8],
) -> Result<Request, Refusal>
    ensures ok { IfOk result (λ request. (read_request method message.now ≡ Ok request)
        × (checked request ≡ None)) }
    ensures err { IfErr result (λ why. IsUnread method message.now (refused_by why)) }
{
    let request = match decode(alloc, method, message) {
        Ok(request) => request,
        Err(DecodeFault::Malformed { at }) => return Err(Refusal::Malformed(at as u64)),
        Err(DecodeFault::NoMemory) => return Err(Refusal::from(Reason::OutOfMemory)),
    };
    match check(&request) {
        Ok(()) => Ok(request),
        Err(reason) => Err(Refusal::from(reason)),
    }
}

/// Returns the refusal of a call for this reason, as an error. Its reply has the reason's status code and
/// text.
pub(crate) fn refuse(reason: Reason) -> CallResult
    ensures answered { (buffer : List ℕ) → reply_of result buffer ≡ refused reason }
    ensures room { (buffer : List ℕ) → HoldsBody result buffer }
{
    Err(Refusal::from(reason))
}

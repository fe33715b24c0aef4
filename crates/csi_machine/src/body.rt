//! Appends the body of a reply, and limits its length.

ghost use Rattle.std.specs.Prelude.{◌≤◌, drop, length, take, Ok};
ghost use Rattle.std.specs.declared.alloc.AllocError.{AllocError as AnyError};
ghost use Rattle.csi_codec.specs.Methods.{response_bytes};
ghost use Rattle.csi_machine.specs.Verdicts.{within, Appended, IsReported};

use csi_codec::encode_response;
use csi_types::{Reason, Response};
use envelope::MAX_BODY_BYTES;
use std::alloc::AllocError;

/// The verdict on a request: its response was written, or the request is refused.
#[derive(Clone, Copy, Debug)]
pub enum Verdict {
    /// The request is done, and the body of its response is written.
    Done,
    /// The request is refused, for this reason. No body is written.
    Refused(Reason),
}

/// Checks the length of the body that begins at the offset `from`. A body of more than [`MAX_BODY_BYTES`] is
/// removed, and refused with [`Reason::ReplyTooLarge`].
pub(crate) fn limit_body(out: &mut Vec<u8>, from: usize) -> Verdict
    requires { from ≤ length out.old.items }
    ensures appended { Appended {E = AnyError} (take from out.old.items) out.new.items (Ok result) }
    ensures reported { IsReported {E = AnyError} (within (drop from out.old.items))
        (take from out.old.items) out.new.items (Ok result) }
{
    if out.len() - from > MAX_BODY_BYTES {
        out.truncate(from);
        return Verdict::Refused(Reason::ReplyTooLarge);
    }
    Verdict::Done
}

/// Appends the body of a response. A body of more than [`MAX_BODY_BYTES`] is refused with
/// [`Reason::ReplyTooLarge`], and `out` is unchanged.
///
/// # Errors
///
/// If memory is refused. `out` is unchanged.
pub fn append_body(response: &Response, out: &mut Vec<u8>) -> Result<Verdict, AllocError>
    ensures appended { Appended out.old.items out.new.items result }
    ensures reported { IsReported (within (response_bytes response.now)) out.old.items out.new.items result }
{
    let from = out.len();
    encode_response(response, out)?;
    Ok(limit_body(out, from))
}

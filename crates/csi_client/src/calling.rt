//! Makes the frame of a call.

ghost use Rattle.std.specs.Prelude.{◌≡◌, ◌≤◌, ◌++◌, OnOk, OnErr, length};
ghost use Rattle.envelope.specs.Envelope.{frame};
ghost use Rattle.envelope.specs.declared.limits.TheConstants.{MAX_MESSAGE_BYTES};
ghost use Rattle.csi_types.specs.Methods.{path_of};

use csi_types::Method;
use envelope::put_request;
use std::alloc::AllocError;

/// Appends the frame of a call of `method` with a request message of at most 1,048,576 bytes.
///
/// # Errors
///
/// If memory is refused. The vector is unchanged.
#[tactic(auto, using(crate::proofs::Paths::is_call))]
pub fn put_call(out: &mut Vec<u8>, method: Method, message: &[u8]) -> Result<(), AllocError>
    requires { length message.now ≤ MAX_MESSAGE_BYTES }
    ensures ok { OnOk result (out.new.items ≡ out.old.items ++ frame (record {
      path = path_of method;
      message = message.now;
    })) }
    ensures err { OnErr result (out.new.items ≡ out.old.items) }
{
    put_request(out, method.path().as_bytes(), message)
}

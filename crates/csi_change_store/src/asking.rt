//! Makes the frames of calls to a change store.

ghost use Rattle.std.specs.Prelude.{◌≡◌, ◌≢◌, ◌<◌, ◌≤◌, Err, IfErr, IfOk, IsErrOf, OnOk, length};
ghost use Rattle.envelope.specs.Envelope.{frame};
ghost use Rattle.envelope.specs.declared.limits.TheConstants.{MAX_MESSAGE_BYTES};
ghost use Rattle.csi_keeper.specs.declared.change.StoreFault.TheVariants.{Down, NoMemory, Refused};
ghost use Rattle.csi_change_store.specs.Asking.{lead_frame, make_frame, path_of, read_frame, token_bytes};

use csi_keeper::StoreFault;
use envelope::{MAX_MESSAGE_BYTES, put_request};
use pbwire::put_bytes;
use std::alloc::{AllocError, Global};

// The bytes of a message before its token if the token is long: one byte for the tag, and three for the
// length.
const TOKEN_HEAD_BYTES: usize = 1 + 3;

/// The greatest length in bytes of a token that fits a message.
pub(crate) const MAX_TOKEN_BYTES: usize = MAX_MESSAGE_BYTES - TOKEN_HEAD_BYTES;

/// The methods of a change store (docs/PROTOCOL.md, "The change store").
#[derive(Clone, Copy)]
pub(crate) enum ChangeStoreCall {
    /// Returns one page of the rows. The message has the token of the page, which is empty for the first
    /// page.
    Read,
    /// Makes the row of the table `meta` in a change store that has no row.
    Make,
    /// Makes a change of the State. The message has the kind of the change and its values.
    Commit,
    /// Succeeds if the change store was the leader at a moment after the call came.
    Lead,
}

impl ChangeStoreCall {
    fn path(self) -> &'static str
        ensures { result.now ≡ path_of self }
    {
        match self {
            ChangeStoreCall::Read => "/fomaheti.log.v1.Log/Read",
            ChangeStoreCall::Make => "/fomaheti.log.v1.Log/Make",
            ChangeStoreCall::Commit => "/fomaheti.log.v1.Log/Commit",
            ChangeStoreCall::Lead => "/fomaheti.log.v1.Log/Lead",
        }
    }
}

/// Makes the frame of a call with a message of at most 1,048,576 bytes.
///
/// # Errors
///
/// If memory is refused.
#[tactic(auto, using(crate::proofs::Paths::is_call))]
pub(crate) fn frame_of(
    alloc: Global,
    call: ChangeStoreCall,
    message: &[u8],
) -> Result<Vec<u8>, AllocError>
    requires { length message.now ≤ MAX_MESSAGE_BYTES }
    ensures { IfOk result (λ out. out.items ≡ frame (record { path = path_of call; message = message.now })) }
{
    let mut frame = Vec::new(alloc);
    put_request(&mut frame, call.path().as_bytes(), message)?;
    Ok(frame)
}

/// Makes the frame that requests a page of the rows. An empty token requests the first page. The token of
/// each later page is in the page before it.
///
/// # Errors
///
/// `NoMemory` if memory is refused, and `Refused` if the token is too long for a message.
#[tactic(auto, using(crate::proofs::Tokens::token_held, crate::proofs::Tokens::token_not_held))]
pub fn read_frame(alloc: Global, token: &[u8]) -> Result<Vec<u8>, StoreFault>
    ensures frame { IfOk result (λ frame. frame.items ≡ read_frame token.now) }
    ensures fault { result ≢ Err Down }
    ensures refused { IsErrOf result Refused → MAX_MESSAGE_BYTES < length (token_bytes token.now) }
    ensures memory { IsErrOf result NoMemory → length (token_bytes token.now) ≤ MAX_MESSAGE_BYTES }
    ensures fits { OnOk result (length (token_bytes token.now) ≤ MAX_MESSAGE_BYTES) }
{
    if token.len() > MAX_TOKEN_BYTES {
        return Err(StoreFault::Refused);
    }
    let mut message = Vec::new(alloc);
    put_bytes(&mut message, 1, token)?;
    Ok(frame_of(alloc, ChangeStoreCall::Read, message.as_slice())?)
}

/// Makes the frame that asks a change store without rows to make its row of the table `meta`.
///
/// # Errors
///
/// `NoMemory` if memory is refused.
pub fn make_frame(alloc: Global) -> Result<Vec<u8>, StoreFault>
    ensures frame { IfOk result (λ frame. frame.items ≡ make_frame) }
    ensures fault { IfErr result (λ fault. fault ≡ NoMemory) }
{
    Ok(frame_of(alloc, ChangeStoreCall::Make, &[])?)
}

/// Makes the frame that asks if the change store is the leader. A reply with status 0 means that it was the
/// leader at a moment after the frame came.
///
/// # Errors
///
/// `NoMemory` if memory is refused.
pub fn lead_frame(alloc: Global) -> Result<Vec<u8>, StoreFault>
    ensures frame { IfOk result (λ frame. frame.items ≡ lead_frame) }
    ensures fault { IfErr result (λ fault. fault ≡ NoMemory) }
{
    Ok(frame_of(alloc, ChangeStoreCall::Lead, &[])?)
}

//! Appends the frames of calls to a vector of bytes.

ghost use Rattle.std.specs.Prelude.{◌≡◌, ◌++◌, OnOk, OnErr};
ghost use Rattle.envelope.specs.Envelope.{IsCall, frame};

use std::alloc::AllocError;

/// Appends the frame of a call, which [`take_frame`](crate::take_frame) reads back.
///
/// The path must have 1 to 128 bytes, each from 0x21 to 0x7E, and the message at most 1,048,576 bytes. The
/// vector grows at most once.
///
/// # Errors
///
/// If memory is refused. The vector is unchanged.
#[tactic(auto, unfolding(crate::specs::Envelope::frame))]
pub fn put_request(out: &mut Vec<u8>, path: &[u8], message: &[u8]) -> Result<(), AllocError>
    requires { IsCall (record { path = path.now; message = message.now }) }
    ensures ok { OnOk result (out.new.items ≡ out.old.items ++ frame (record {
      path = path.now;
      message = message.now;
    })) }
    ensures err { OnErr result (out.new.items ≡ out.old.items) }
{
    out.reserve(7 + path.len() + message.len())?;
    out.extend_from_slice(&(path.len() as u16).to_be_bytes())?;
    out.extend_from_slice(path)?;
    out.extend_from_slice(&[0])?;
    out.extend_from_slice(&(message.len() as u32).to_be_bytes())?;
    out.extend_from_slice(message)
}

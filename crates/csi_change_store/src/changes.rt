//! Makes the frame of a call that requests a change (method `Commit`).

ghost use Rattle.std.specs.Prelude.{◌≡◌, ◌≢◌, ◌++◌, ◌∷◌, ◌<◌, ◌≤◌, [], Err, IfOk, IsErrOf, OnOk, length};
ghost use Rattle.envelope.specs.Envelope.{frame};
ghost use Rattle.envelope.specs.declared.limits.TheConstants.{MAX_MESSAGE_BYTES};
ghost use Rattle.pbwire.specs.Writing.{spellings};
ghost use Rattle.csi_keeper.specs.declared.change.StoreFault.TheVariants.{Down, NoMemory, Refused};
ghost use Rattle.std.specs.FinMap.{empty};
ghost use Rattle.csi_columns.specs.Encoding.{params_bytes};
ghost use Rattle.csi_change_store.specs.Asking.{asked_fields, attachment_fields, bytes_field, change_bytes, change_number, commit_frame, number_field, path_of, volume_fields};
ghost use Rattle.csi_change_store.specs.declared.asking.ChangeStoreCall.TheVariants.{Commit};

use crate::asking::{ChangeStoreCall, frame_of};
use csi_columns::{write_caps, write_params};
use csi_keeper::{Attachment, Change, StoreFault, Volume};
use csi_types::Map;
use envelope::MAX_MESSAGE_BYTES;
use pbwire::{put_bytes, put_varint};
use std::alloc::{AllocError, Global};
use std::slice;

// Appends the columns of a volume's row.
fn put_volume(alloc: Global, out: &mut Vec<u8>, volume: &Volume) -> Result<(), AllocError>
    ensures { OnOk result (out.new.items ≡ out.old.items ++ spellings (volume_fields volume.now)) }
{
    let caps = write_caps(alloc, volume.caps.as_slice())?;
    let params = write_params(alloc, &volume.params, &volume.mutable)?;
    put_varint(out, 1, volume.number)?;
    put_bytes(out, 2, volume.name.as_bytes())?;
    put_varint(out, 3, volume.bytes)?;
    put_bytes(out, 4, volume.pool.as_bytes())?;
    put_bytes(out, 5, caps.as_slice())?;
    put_bytes(out, 6, params.as_slice())
}

// Appends the columns of an attachment's row.
fn put_attachment(
    alloc: Global,
    out: &mut Vec<u8>,
    number: u64,
    attachment: &Attachment,
) -> Result<(), AllocError>
    ensures { OnOk result (out.new.items ≡ out.old.items
        ++ spellings (attachment_fields number attachment.now)) }
{
    let cap = write_caps(alloc, slice::from_ref(&attachment.cap))?;
    put_varint(out, 1, number)?;
    put_bytes(out, 2, attachment.node.as_bytes())?;
    put_bytes(out, 3, cap.as_slice())?;
    put_varint(out, 4, u64::from(attachment.readonly))
}

// Appends the number of a volume and its mutable parameters.
fn put_mutable(
    alloc: Global,
    out: &mut Vec<u8>,
    number: u64,
    mutable: &Map,
) -> Result<(), AllocError>
    ensures { OnOk result (out.new.items ≡ out.old.items
        ++ spellings (number_field 1 number ∷ bytes_field 2 (params_bytes empty mutable.now) ∷ [])) }
{
    let params = write_params(alloc, &Map::new(alloc), mutable)?;
    put_varint(out, 1, number)?;
    put_bytes(out, 2, params.as_slice())
}

// Appends the fields that encode a change, without the field number of its kind.
fn put_asked(alloc: Global, out: &mut Vec<u8>, change: &Change) -> Result<(), AllocError>
    ensures { OnOk result (out.new.items ≡ out.old.items ++ spellings (asked_fields change.now)) }
{
    match change {
        Change::AddVolume(volume) => put_volume(alloc, out, volume),
        Change::RemoveVolume(number) | Change::DetachAll(number) => put_varint(out, 1, *number),
        Change::Attach(number, attachment) => put_attachment(alloc, out, *number, attachment),
        Change::Detach(number, node) => {
            put_varint(out, 1, *number)?;
            put_bytes(out, 2, node.as_bytes())
        }
        Change::SetMutable(number, mutable) => put_mutable(alloc, out, *number, mutable),
    }
}

// Returns the number of the field that encodes this kind of change.
fn number_of(change: &Change) -> u32
    ensures { result ≡ change_number change.now }
{
    match change {
        Change::AddVolume(_) => 1,
        Change::RemoveVolume(_) => 2,
        Change::Attach(_, _) => 3,
        Change::Detach(_, _) => 4,
        Change::DetachAll(_) => 5,
        Change::SetMutable(_, _) => 6,
    }
}

// Makes the message that requests a change: one field, whose number is the kind of the change.
fn message_of(alloc: Global, change: &Change) -> Result<Vec<u8>, AllocError>
    ensures { IfOk result (λ message. message.items ≡ change_bytes change.now) }
{
    let mut asked = Vec::new(alloc);
    put_asked(alloc, &mut asked, change)?;
    let mut message = Vec::new(alloc);
    put_bytes(&mut message, number_of(change), asked.as_slice())?;
    Ok(message)
}

// Makes the frame around a message that requests a change. Fails with `Refused` if the message is too long.
fn frame_holding(alloc: Global, message: &[u8]) -> Result<Vec<u8>, StoreFault>
    ensures frame { IfOk result (λ out. out.items ≡ frame (record {
      path = path_of Commit;
      message = message.now;
    })) }
    ensures fault { result ≢ Err Down }
    ensures refused { IsErrOf result Refused → MAX_MESSAGE_BYTES < length message.now }
    ensures memory { IsErrOf result NoMemory → length message.now ≤ MAX_MESSAGE_BYTES }
    ensures fits { OnOk result (length message.now ≤ MAX_MESSAGE_BYTES) }
{
    if message.len() > MAX_MESSAGE_BYTES {
        return Err(StoreFault::Refused);
    }
    Ok(frame_of(alloc, ChangeStoreCall::Commit, message)?)
}

/// Makes the frame of a call that requests a change (method `Commit`).
///
/// # Errors
///
/// `NoMemory` if memory is refused, and `Refused` if the message would have more than 1,048,576 bytes. The
/// columns are encoded before the length of the message is known. So if the message is too long, the fault
/// may also be `NoMemory`.
pub(crate) fn commit_frame(alloc: Global, change: &Change) -> Result<Vec<u8>, StoreFault>
    ensures frame { IfOk result (λ frame. frame.items ≡ commit_frame change.now) }
    ensures fault { result ≢ Err Down }
    ensures refused { IsErrOf result Refused → MAX_MESSAGE_BYTES < length (change_bytes change.now) }
    ensures fits { OnOk result (length (change_bytes change.now) ≤ MAX_MESSAGE_BYTES) }
{
    let message = message_of(alloc, change)?;
    frame_holding(alloc, message.as_slice())
}

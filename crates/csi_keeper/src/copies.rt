//! Copies volumes, attachments and capability keys.

ghost use Rattle.std.specs.Prelude.{◌≡◌, IfOk};

use crate::capability::{CapKey, Kind};
use crate::volume::{Attachment, Volume};
use csi_types::{Items, copy_map};
use std::alloc::{AllocError, Global};

/// Returns a copy of a capability key. The copy shares no memory with `key`.
///
/// # Errors
///
/// If memory is refused.
pub fn copy_key(alloc: Global, key: &CapKey) -> Result<CapKey, AllocError>
    ensures { IfOk result (λ copy. copy ≡ key.now) }
{
    let kind = match &key.kind {
        Kind::Block => Kind::Block,
        Kind::Mount(fs_type) => Kind::Mount(fs_type.copy(alloc)?),
    };
    Ok(CapKey {
        kind,
        mode: key.mode,
    })
}

/// Returns a copy of a list of capability keys, in the same order. The copy shares no memory with `keys`.
///
/// # Errors
///
/// If memory is refused.
pub fn copy_keys(alloc: Global, keys: &Items<CapKey>) -> Result<Items<CapKey>, AllocError>
    ensures { IfOk result (λ copy. copy ≡ keys.now) }
{
    let mut copy = Items::new(alloc);
    for key in keys.as_slice() {
        copy.push(copy_key(alloc, key)?)?;
    }
    Ok(copy)
}

/// Returns a copy of a volume, with the same number. The copy owns all its parts: its texts, capabilities and
/// maps share no memory with `volume`.
///
/// # Errors
///
/// If memory is refused.
pub fn copy_volume(alloc: Global, volume: &Volume) -> Result<Volume, AllocError>
    ensures { IfOk result (λ copy. copy ≡ volume.now) }
{
    Ok(Volume {
        number: volume.number,
        name: volume.name.copy(alloc)?,
        bytes: volume.bytes,
        pool: volume.pool.copy(alloc)?,
        caps: copy_keys(alloc, &volume.caps)?,
        params: copy_map(alloc, &volume.params)?,
        mutable: copy_map(alloc, &volume.mutable)?,
    })
}

/// Returns a copy of an attachment. The copy shares no memory with `attachment`.
///
/// # Errors
///
/// If memory is refused.
pub fn copy_attachment(alloc: Global, attachment: &Attachment) -> Result<Attachment, AllocError>
    ensures { IfOk result (λ copy. copy ≡ attachment.now) }
{
    Ok(Attachment {
        node: attachment.node.copy(alloc)?,
        cap: copy_key(alloc, &attachment.cap)?,
        readonly: attachment.readonly,
    })
}

//! Copies texts, maps and capabilities.

ghost use Rattle.std.specs.Prelude.{◌≡◌, IfOk};

use crate::boxed::Boxed;
use crate::capability::{Access, Capability, Mount};
use crate::items::Items;
use crate::map::Map;
use crate::text::Text;
use std::alloc::{AllocError, Global};

/// Returns a `Text` with the bytes of `text`. Only a text of more than 16 bytes needs memory. Fails if this
/// memory is refused.
pub fn copy_text(alloc: Global, text: &str) -> Result<Text, AllocError>
    ensures { IfOk result (λ copy. copy ≡ text.now) }
{
    Text::from_str(alloc, text)
}

/// Copies a map with its keys and values. Fails if memory is refused.
pub fn copy_map(alloc: Global, map: &Map) -> Result<Map, AllocError>
    ensures { IfOk result (λ copy. copy ≡ map.now) }
{
    let mut copy = Map::new(alloc);
    // Most maps are empty.
    if map.is_empty() {
        return Ok(copy);
    }
    for (key, value) in map {
        copy.insert(key.copy(alloc)?, value.copy(alloc)?)?;
    }
    Ok(copy)
}

/// Copies a capability with its mount and the flags of the mount. Fails if memory is refused.
pub fn copy_capability(alloc: Global, capability: &Capability) -> Result<Capability, AllocError>
    ensures { IfOk result (λ copy. copy ≡ capability.now) }
{
    let access = match &capability.access {
        Access::Missing => Access::Missing,
        Access::Block => Access::Block,
        Access::Mount(mount) => Access::Mount(Boxed::new(alloc, copy_mount(alloc, mount.get())?)?),
    };
    Ok(Capability {
        access,
        mode: capability.mode,
    })
}

fn copy_mount(alloc: Global, mount: &Mount) -> Result<Mount, AllocError>
    ensures { IfOk result (λ copy. copy ≡ mount.now) }
{
    Ok(Mount {
        fs_type: mount.fs_type.copy(alloc)?,
        flags: copy_texts(alloc, &mount.flags)?,
        group: mount.group.copy(alloc)?,
    })
}

fn copy_texts(alloc: Global, texts: &Items<Text>) -> Result<Items<Text>, AllocError>
    ensures { IfOk result (λ copy. copy ≡ texts.now) }
{
    let mut copies = Items::new(alloc);
    for text in texts.as_slice() {
        copies.push(text.copy(alloc)?)?;
    }
    Ok(copies)
}

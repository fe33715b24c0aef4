//! The index of names in memory, which finds a volume by its name.
//!
//! The index does not copy each name. It looks a name up by its hash. The volume under this hash has the
//! name, or another name with the same hash. If several names have the same hash, at most one of them is
//! found by the hash, and the others are found by their texts.

ghost use Rattle.std.specs.Prelude.{◌≡◌, ◌≢◌, ◌↔◌, [], None, Some, IfOk, IsTrue, OnOk, OnErr};
ghost use Rattle.std.specs.BTreeMap.{is_at};
ghost use Rattle.std.specs.Map.{lookup};
ghost use Rattle.std.specs.Ordering.{nat_cmp};
ghost use Rattle.csi_maps.specs.Rows.{volumes_of, IsSetAt};
ghost use Rattle.csi_maps.specs.Stored.{as_volumes};
ghost use Rattle.csi_maps.specs.Naming.{named_by, HasSameNames, IsHashDropped, IsNamed, IsUnnamed};

use crate::hash::name_hash;
use crate::rows::{volume_at, volume_if_named};
use crate::stored::StoredVolume;
use csi_keeper::Volume;
use csi_types::{Text, copy_text};
use std::alloc::{AllocError, Global};
use std::collections::BTreeMap;

/// The index of names, which finds a volume by its name. It maps the hashes of names to volume numbers, and
/// contains a name itself only if another name had the same hash when the name was added.
#[derive(Drop)]
pub struct Names {
    // The number of a volume, by the hash of its name. Most names have a hash that no other name has.
    by_hash: BTreeMap<u64, u64>,
    // The number of each volume, by its name, if the hash of the name was taken when the name was added.
    by_text: BTreeMap<Text, u64>,
}

impl Names {
    /// Creates an index without names. It takes no memory.
    pub fn new(alloc: Global) -> Names
        ensures { (result.by_hash.entries ≡ []) × (result.by_text.entries ≡ []) }
    {
        Names {
            by_hash: BTreeMap::new(alloc),
            by_text: BTreeMap::new(alloc),
        }
    }
}

/// Copies the volume with this name, or returns `None` if the index finds no such volume. Takes O(log n) time
/// for n volumes.
///
/// # Errors
///
/// If memory is refused.
pub fn volume_named(
    alloc: Global,
    names: &Names,
    volumes: &BTreeMap<u64, StoredVolume>,
    name: &str,
) -> Result<Option<Volume>, AllocError>
    ensures { IfOk result (λ v.
        v ≡ named_by names.now (volumes_of (as_volumes volumes.now.entries)) name.now) }
{
    if let Some(number) = names.by_hash.get(&name_hash(name.as_bytes())) {
        if let Some(volume) = volume_if_named(alloc, volumes, *number, name)? {
            return Ok(Some(volume));
        }
    }
    if names.by_text.is_empty() {
        return Ok(None);
    }
    match names.by_text.get(&copy_text(alloc, name)?) {
        Some(number) => volume_at(alloc, volumes, *number),
        None => Ok(None),
    }
}

// Sets the number of a hash back to its earlier value.
fn put_back(by_hash: &mut BTreeMap<u64, u64>, hash: u64, number: u64)
    requires { lookup (is_at (nat_cmp hash)) by_hash.old.entries ≢ None }
    ensures { IsSetAt nat_cmp hash (Some number) by_hash.old.entries by_hash.new.entries }
{
    let Ok(_) = by_hash.insert(hash, number) else {
        unreachable!()
    };
}

/// Adds a name with the number of its volume. No volume may have the name already.
///
/// # Errors
///
/// If memory is refused. The index finds the same volumes as before.
pub fn set_name(
    alloc: Global,
    names: &mut Names,
    name: &Text,
    number: u64,
) -> Result<(), AllocError>
    ensures ok { OnOk result (IsNamed name.now number names.old names.new) }
    ensures err { OnErr result (HasSameNames names.old names.new) }
{
    let hash = name_hash(name.as_bytes());
    let Some(first) = names.by_hash.insert(hash, number)? else {
        return Ok(());
    };
    put_back(&mut names.by_hash, hash, first);
    names.by_text.insert(name.copy(alloc)?, number)?;
    Ok(())
}

fn leads_to(by_hash: &BTreeMap<u64, u64>, hash: u64, number: u64) -> bool
    ensures { IsTrue result ↔ (lookup (is_at (nat_cmp hash)) by_hash.now.entries ≡ Some number) }
{
    match by_hash.get(&hash) {
        Some(first) => *first == number,
        None => false,
    }
}

// Removes a hash if its number is `number`.
fn drop_hash(by_hash: &mut BTreeMap<u64, u64>, hash: u64, number: u64)
    ensures { IsHashDropped hash number by_hash.old.entries by_hash.new.entries }
{
    if !leads_to(by_hash, hash, number) {
        return;
    }
    by_hash.remove(&hash);
}

/// Removes the name of the volume with the number `number`. Each other name still leads to the number of its
/// volume.
pub fn drop_name(names: &mut Names, name: &Text, number: u64)
    ensures { IsUnnamed name.now number names.old names.new }
{
    drop_hash(&mut names.by_hash, name_hash(name.as_bytes()), number);
    names.by_text.remove(name);
}

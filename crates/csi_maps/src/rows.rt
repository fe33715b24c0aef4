//! The volumes in memory, in a map whose keys are their numbers.

ghost use Rattle.std.specs.Prelude.{◌≡◌, ℕ, IfErr, IfOk, OnOk, OnErr, is_some, map, filter, take};
ghost use Rattle.std.specs.BTreeMap.{values};
ghost use Rattle.std.specs.BTreeMap.Range.{entries_between};
ghost use Rattle.std.specs.Map.Iter.{ShowsInOrder, deref_pair};
ghost use Rattle.csi_maps.specs.declared.stored.StoredVolume.{StoredVolume as Stored};
ghost use Rattle.std.specs.FinMap.{get, insert, remove, entries};
ghost use Rattle.std.specs.Option.{option_map};
ghost use Rattle.std.specs.Ordering.{nat_cmp};
ghost use Rattle.std.specs.declared.ops.Bound.TheVariants.{Excluded, Unbounded};
ghost use Rattle.csi_types.specs.Maps.{same_text};
ghost use Rattle.csi_maps.specs.Rows.{volumes_of, nodes_in, listed_in};
ghost use Rattle.csi_maps.specs.Naming.{if_named};
ghost use Rattle.csi_maps.specs.Stored.{as_volume, as_volumes};
ghost use Rattle.csi_keeper.specs.State.{mutable_set};

use crate::compact::CompactMap;
use crate::stored::StoredVolume;
use crate::walk::walk_after;
use csi_keeper::{Attachment, CapKey, PageFold, Volume, copy_keys};
use csi_types::{Items, Text};
use std::alloc::{AllocError, AllocFailed, Global};
use std::collections::BTreeMap;
use std::collections::btree_map::Range;
use std::mem::replace;
use std::ops::Bound;

/// Copies the volume with this number, or returns `None` if no volume has it.
///
/// # Errors
///
/// If memory is refused.
#[tactic(auto, using(crate::specs::facts::Stored::get_stored))]
pub fn volume_at(
    alloc: Global,
    volumes: &BTreeMap<u64, StoredVolume>,
    number: u64,
) -> Result<Option<Volume>, AllocError>
    ensures { IfOk result (λ v. v ≡ get (volumes_of (as_volumes volumes.now.entries)) number) }
{
    match volumes.get(&number) {
        Some(volume) => Ok(Some(volume.copy(alloc, number)?)),
        None => Ok(None),
    }
}

/// Returns true if a volume has this number. Takes O(log n) time for n volumes, and copies nothing.
#[tactic(auto, using(crate::specs::facts::Stored::get_stored))]
pub fn has_volume(volumes: &BTreeMap<u64, StoredVolume>, number: u64) -> bool
    ensures { result ≡ is_some (get (volumes_of (as_volumes volumes.now.entries)) number) }
{
    volumes.contains_key(&number)
}

/// Copies the volume with this number if its name is `name`. Returns `None` if the volume has another name or
/// does not exist.
///
/// # Errors
///
/// If memory is refused.
#[tactic(auto, using(crate::specs::facts::Stored::get_stored))]
pub(crate) fn volume_if_named(
    alloc: Global,
    volumes: &BTreeMap<u64, StoredVolume>,
    number: u64,
    name: &str,
) -> Result<Option<Volume>, AllocError>
    ensures { IfOk result (λ v.
        v ≡ if_named name.now (get (volumes_of (as_volumes volumes.now.entries)) number)) }
{
    match volumes.get(&number) {
        Some(volume) if volume.name.as_str() == name => Ok(Some(volume.copy(alloc, number)?)),
        _ => Ok(None),
    }
}

/// Copies the capability keys of the volume with this number, or returns `None` if no volume has it.
///
/// # Errors
///
/// If memory is refused.
#[tactic(auto, using(crate::specs::facts::Stored::get_stored))]
pub fn caps_at(
    alloc: Global,
    volumes: &BTreeMap<u64, StoredVolume>,
    number: u64,
) -> Result<Option<Items<CapKey>>, AllocError>
    ensures { IfOk result (λ keys. keys ≡ option_map (λ v. v.caps)
        (get (volumes_of (as_volumes volumes.now.entries)) number)) }
{
    match volumes.get(&number) {
        Some(volume) => Ok(Some(copy_keys(alloc, &volume.caps)?)),
        None => Ok(None),
    }
}

fn is_in(volume: &StoredVolume, pool: &str) -> bool
    ensures { result ≡ same_text volume.now.pool pool.now }
{
    volume.pool.as_str() == pool
}

/// Returns the size in bytes of each volume of a pool, in rising order of the volumes' numbers. Looks through
/// all volumes.
///
/// # Errors
///
/// If memory is refused.
#[tactic(auto, using(crate::specs::facts::Stored::stored_are))]
pub fn sizes_of(
    alloc: Global,
    volumes: &BTreeMap<u64, StoredVolume>,
    pool: &str,
) -> Result<Vec<u64>, AllocError>
    ensures value { IfOk result (λ xs. xs.items
        ≡ map (λ v. v.bytes) (filter (λ v. same_text v.pool pool.now) (values volumes.now))) }
    ensures ordered { entries (volumes_of (as_volumes volumes.now.entries)) ≡ as_volumes volumes.now.entries }
{
    volumes
        .values()
        .filter(|v| is_in(v, pool))
        .map(|v| v.bytes)
        .collect(alloc)
}

#[tactic(auto, using(crate::specs::facts::Stored::stored_are))]
fn beyond(volumes: &BTreeMap<u64, StoredVolume>, after: u64) -> Range<'_, u64, StoredVolume>
    ensures rest { result ≡ entries_between nat_cmp (Excluded after) Unbounded volumes.now.entries }
    ensures runs { ShowsInOrder (deref_pair {K = ℕ} {X = Stored}) }
    ensures ordered { entries (volumes_of (as_volumes volumes.now.entries)) ≡ as_volumes volumes.now.entries }
{
    volumes.range((Bound::Excluded(after), Bound::Unbounded))
}

/// Copies the first `count` volumes whose numbers are greater than `after`, in rising order of the numbers.
/// If there are fewer such volumes, copies all of them.
///
/// # Errors
///
/// If memory is refused.
pub fn volumes_after(
    alloc: Global,
    volumes: &BTreeMap<u64, StoredVolume>,
    after: u64,
    count: u32,
) -> Result<Items<Volume>, AllocError>
    ensures value { IfOk result (λ vs. vs
        ≡ take count (map (λ e. as_volume e.0 e.1) (entries_between nat_cmp
        (Excluded after) Unbounded volumes.now.entries))) }
    ensures ordered { entries (volumes_of (as_volumes volumes.now.entries)) ≡ as_volumes volumes.now.entries }
{
    let rows = beyond(volumes, after);
    let mut copies = Items::with_room(alloc, volumes.len().min(count as usize))?;
    for (number, volume) in rows {
        if copies.len() >= count as usize {
            return Ok(copies);
        }
        copies.push(volume.copy(alloc, *number)?)?;
    }
    Ok(copies)
}

/// Returns a list of node ids, in byte order, for each of the first `count` volumes whose numbers are greater
/// than `after`. The lists are in rising order of the numbers.
///
/// # Errors
///
/// If memory is refused.
pub fn nodes_after(
    alloc: Global,
    volumes: &BTreeMap<u64, StoredVolume>,
    attachments: &BTreeMap<(u64, Text), Attachment>,
    after: u64,
    count: u32,
) -> Result<Items<Items<Text>>, AllocError>
    ensures value { IfOk result (λ xs. xs ≡ take count
        (map (λ e. nodes_in attachments.now.entries e.0)
        (entries_between nat_cmp (Excluded after) Unbounded volumes.now.entries))) }
    ensures ordered { entries (volumes_of (as_volumes volumes.now.entries)) ≡ as_volumes volumes.now.entries }
{
    let rows = beyond(volumes, after);
    let mut walk = walk_after(alloc, attachments, after);
    let mut nodes = Items::with_room(alloc, volumes.len().min(count as usize))?;
    for (number, _) in rows {
        if nodes.len() >= count as usize {
            return Ok(nodes);
        }
        walk.go_to(alloc, attachments, *number)?;
        nodes.push(replace(&mut walk.nodes, Items::new(alloc)))?;
    }
    Ok(nodes)
}

/// Passes the first `count` volumes whose numbers are greater than `after` to a fold, in rising order of the
/// numbers. Each volume is passed as a listing entry, with the ids of its nodes.
///
/// # Errors
///
/// If memory is refused to this call or to the fold. The fold keeps the entries that it has taken.
#[inline(always)]
pub fn fold_after<F: PageFold>(
    alloc: Global,
    volumes: &BTreeMap<u64, StoredVolume>,
    attachments: &BTreeMap<(u64, Text), Attachment>,
    after: u64,
    count: u32,
    fold: &mut F,
) -> Result<(), AllocError>
    ensures folded { OnOk result (F.folds fold.old (take count
        (map (λ e. listed_in attachments.now.entries (as_volume e.0 e.1))
        (entries_between nat_cmp (Excluded after) Unbounded volumes.now.entries))) fold.new) }
    ensures kept { F.keeps fold.old fold.new }
    ensures ordered { entries (volumes_of (as_volumes volumes.now.entries)) ≡ as_volumes volumes.now.entries }
{
    let rows = beyond(volumes, after);
    let mut walk = walk_after(alloc, attachments, after);
    let mut left = count;
    for (number, volume) in rows {
        if left == 0 {
            return Ok(());
        }
        left -= 1;
        walk.go_to(alloc, attachments, *number)?;
        fold.add(&volume.listed_at(*number, &walk.nodes))?;
    }
    Ok(())
}

/// Inserts a volume under its number. If the map has a volume with this number, that volume is replaced.
///
/// # Errors
///
/// If memory is refused. The map is unchanged, and the error contains the number and the volume.
#[tactic(auto, using(crate::specs::facts::Stored::one_stored))]
pub fn put_volume(
    volumes: &mut BTreeMap<u64, StoredVolume>,
    number: u64,
    volume: StoredVolume,
) -> Result<(), AllocFailed<(u64, StoredVolume)>>
    ensures ok { OnOk result (volumes_of (as_volumes volumes.new.entries)
        ≡ insert (volumes_of (as_volumes volumes.old.entries)) number (as_volume number volume)) }
    ensures err { OnErr result (volumes.new.entries ≡ volumes.old.entries) }
    ensures back { IfErr result (λ failed. failed.value ≡ (number, volume)) }
{
    volumes.insert(number, volume)?;
    Ok(())
}

/// Removes the volume with this number and returns it, or returns `None` if no volume has the number.
#[tactic(auto, using(crate::specs::facts::Stored::none_stored, crate::specs::facts::Stored::get_stored))]
pub fn remove_volume(volumes: &mut BTreeMap<u64, StoredVolume>, number: u64) -> Option<StoredVolume>
    ensures value { option_map (as_volume number) result
        ≡ get (volumes_of (as_volumes volumes.old.entries)) number }
    ensures rest { volumes_of (as_volumes volumes.new.entries)
        ≡ remove (volumes_of (as_volumes volumes.old.entries)) number }
{
    volumes.remove(&number)
}

/// Replaces the mutable parameters of the volume with this number. If no volume has it, nothing changes. The
/// call takes no memory.
#[tactic(auto, using(crate::proofs::RowChangeLemmas::one_mutable, crate::proofs::RowChangeLemmas::no_mutable))]
pub fn set_mutable(volumes: &mut BTreeMap<u64, StoredVolume>, number: u64, mutable: CompactMap)
    ensures { volumes_of (as_volumes volumes.new.entries)
        ≡ mutable_set (volumes_of (as_volumes volumes.old.entries)) number mutable
        (get (volumes_of (as_volumes volumes.old.entries)) number) }
{
    if let Some(volume) = volumes.get_mut(&number) {
        volume.mutable = mutable;
    }
}

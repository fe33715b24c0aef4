//! The attachments in memory, in a map whose keys are their places. A place is the pair of a volume's number
//! and a node's id.

ghost use Rattle.std.specs.Prelude.{◌≡◌, ◌+◌, ◌<◌, ◌^◌, ◌==◌, [], ◌∷◌, ◌++◌, if◌then◌else◌, ℕ, None, IfOk, IfErr, OnOk, OnErr, map, filter, not};
ghost use Rattle.std.specs.BTreeMap.Range.{entries_between};
ghost use Rattle.std.specs.Map.Iter.{ShowsInOrder, deref_pair};
ghost use Rattle.csi_keeper.specs.declared.volume.Attachment.{Attachment as Row};
ghost use Rattle.std.specs.FinMap.{get, insert, remove, entries, retain_keys};
ghost use Rattle.std.specs.declared.ops.Bound.TheVariants.{Included};
ghost use Rattle.csi_maps.specs.Rows.{places_of, place_end, nodes_in, removed_each, AreSpotted};
ghost use Rattle.csi_keeper.specs.State.{AttachmentKey, attachment_key_cmp};

use crate::nodes::{drop_spot, put_spot};
use csi_keeper::{Attachment, copy_attachment};
use csi_types::{Items, Text, copy_text};
use std::alloc::{AllocError, AllocFailed, Global};
use std::collections::btree_map::Range;
use std::collections::{BTreeMap, BTreeSet};
use std::ops::Bound;

// Returns the end of the range of places whose number is `number`.
fn end_of(alloc: Global, number: u64) -> Bound<(u64, Text)>
    ensures { result ≡ place_end number }
{
    if number == u64::MAX {
        return Bound::Unbounded;
    }
    Bound::Excluded((number + 1, Text::new(alloc)))
}

#[tactic(auto, using(crate::specs::facts::Listing::places_are))]
fn places_of_one(
    alloc: Global,
    attachments: &BTreeMap<(u64, Text), Attachment>,
    number: u64,
) -> Range<'_, (u64, Text), Attachment>
    ensures rest { result ≡ entries_between attachment_key_cmp (Included (number, []))
        (place_end number) attachments.now.entries }
    ensures runs { ShowsInOrder (deref_pair {K = AttachmentKey} {X = Row}) }
    ensures ordered { entries (places_of attachments.now.entries) ≡ attachments.now.entries }
{
    let first = Bound::Included((number, Text::new(alloc)));
    attachments.range((first, end_of(alloc, number)))
}

fn push_at(
    alloc: Global,
    copies: &mut Items<Attachment>,
    number: u64,
    place: &(u64, Text),
    attachment: &Attachment,
) -> Result<(), AllocError>
    ensures { OnOk result (copies.new ≡ copies.old
        ++ (if place.now.0 == number then attachment.now ∷ [] else [])) }
{
    if place.0 == number {
        copies.push(copy_attachment(alloc, attachment)?)?;
    }
    Ok(())
}

/// Copies the attachments of the volume with this number, in byte order of their nodes.
///
/// # Errors
///
/// If memory is refused.
pub fn attached_to(
    alloc: Global,
    attachments: &BTreeMap<(u64, Text), Attachment>,
    number: u64,
) -> Result<Items<Attachment>, AllocError>
    ensures value { IfOk result (λ xs. xs ≡ map (λ e. e.1)
        (filter (λ e. e.0.0 == number) (entries_between attachment_key_cmp (Included (number, []))
        (place_end number) attachments.now.entries))) }
    ensures ordered { entries (places_of attachments.now.entries) ≡ attachments.now.entries }
{
    let mut copies = Items::new(alloc);
    for (place, attachment) in places_of_one(alloc, attachments, number) {
        push_at(alloc, &mut copies, number, place, attachment)?;
    }
    Ok(copies)
}

/// Adds the node of the attachment at `place` to a list if the number of `place` is `number`.
///
/// # Errors
///
/// If memory is refused.
pub(crate) fn push_node(
    alloc: Global,
    nodes: &mut Items<Text>,
    number: u64,
    place: &(u64, Text),
    attachment: &Attachment,
) -> Result<(), AllocError>
    ensures { OnOk result (nodes.new ≡ nodes.old
        ++ (if place.now.0 == number then attachment.now.node ∷ [] else [])) }
{
    if place.0 == number {
        nodes.push(copy_text(alloc, attachment.node.as_str())?)?;
    }
    Ok(())
}

/// Copies the node ids of the attachments of the volume with this number, in byte order of the ids.
///
/// # Errors
///
/// If memory is refused.
pub(crate) fn nodes_of(
    alloc: Global,
    attachments: &BTreeMap<(u64, Text), Attachment>,
    number: u64,
) -> Result<Items<Text>, AllocError>
    ensures { IfOk result (λ xs. xs ≡ nodes_in attachments.now.entries number) }
{
    let mut nodes = Items::new(alloc);
    for (place, attachment) in places_of_one(alloc, attachments, number) {
        push_node(alloc, &mut nodes, number, place, attachment)?;
    }
    Ok(nodes)
}

// Adds an attachment at a place. If memory is refused, the map is unchanged, and the error contains the place
// and the attachment.
#[tactic(auto, using(crate::specs::facts::Trees::one_place))]
fn put_place(
    attachments: &mut BTreeMap<(u64, Text), Attachment>,
    place: (u64, Text),
    attachment: Attachment,
) -> Result<(), AllocFailed<((u64, Text), Attachment)>>
    ensures ok { OnOk result (places_of attachments.new.entries
        ≡ insert (places_of attachments.old.entries) place attachment) }
    ensures err { OnErr result (attachments.new.entries ≡ attachments.old.entries) }
    ensures back { IfErr result (λ failed. failed.value ≡ (place, attachment)) }
{
    attachments.insert(place, attachment)?;
    Ok(())
}

/// Adds a copy of an attachment to the volume with this number. Also adds the attachment's node and the
/// number to the index of nodes. If the volume was not attached to the node, an index that agreed with the
/// attachments before the call agrees with them after the call.
///
/// # Errors
///
/// If memory is refused. The attachments and the index are unchanged.
pub fn put_attachment(
    alloc: Global,
    attachments: &mut BTreeMap<(u64, Text), Attachment>,
    nodes: &mut BTreeMap<Text, BTreeSet<u64>>,
    number: u64,
    attachment: &Attachment,
) -> Result<(), AllocError>
    ensures ok { OnOk result (places_of attachments.new.entries
        ≡ insert (places_of attachments.old.entries) (number, attachment.now.node) attachment.now) }
    ensures err { OnErr result (attachments.new.entries ≡ attachments.old.entries) }
    ensures spotted { get (places_of attachments.old.entries) (number, attachment.now.node) ≡ None
        → AreSpotted attachments.old.entries nodes.old.entries
        → AreSpotted attachments.new.entries nodes.new.entries }
{
    let place = (number, copy_text(alloc, attachment.node.as_str())?);
    let copy = copy_attachment(alloc, attachment)?;
    put_spot(alloc, nodes, &attachment.node, number)?;
    if let Err(failed) = put_place(attachments, place, copy) {
        let (place, _) = failed.value;
        drop_spot(nodes, &(place.1, place.0));
        return Err(AllocError);
    }
    Ok(())
}

#[tactic(auto, using(crate::specs::facts::Trees::no_place))]
fn remove_place(attachments: &mut BTreeMap<(u64, Text), Attachment>, place: &(u64, Text))
    ensures { places_of attachments.new.entries ≡ remove (places_of attachments.old.entries) place.now }
{
    attachments.remove(place);
}

fn push_place(
    alloc: Global,
    copies: &mut Items<(u64, Text)>,
    number: u64,
    place: &(u64, Text),
) -> Result<(), AllocError>
    ensures { OnOk result (copies.new ≡ copies.old
        ++ (if place.now.0 == number then place.now ∷ [] else [])) }
{
    if place.0 == number {
        copies.push((number, copy_text(alloc, place.1.as_str())?))?;
    }
    Ok(())
}

/// Copies the places whose number is `number`, in byte order of their nodes.
fn places_to(
    alloc: Global,
    attachments: &BTreeMap<(u64, Text), Attachment>,
    number: u64,
) -> Result<Items<(u64, Text)>, AllocError>
    ensures value { IfOk result (λ xs. xs ≡ map (λ e. e.0)
        (filter (λ e. e.0.0 == number) (entries_between attachment_key_cmp (Included (number, []))
        (place_end number) attachments.now.entries))) }
    ensures ordered { entries (places_of attachments.now.entries) ≡ attachments.now.entries }
{
    let mut copies = Items::new(alloc);
    for (place, _) in places_of_one(alloc, attachments, number) {
        push_place(alloc, &mut copies, number, place)?;
    }
    Ok(copies)
}

/// Removes the attachment at a place, and removes the place from the index of nodes. If no attachment is at
/// the place, nothing changes.
pub fn remove_attachment(
    attachments: &mut BTreeMap<(u64, Text), Attachment>,
    nodes: &mut BTreeMap<Text, BTreeSet<u64>>,
    place: (u64, Text),
)
    ensures rows { places_of attachments.new.entries ≡ remove (places_of attachments.old.entries) place }
    ensures spotted { AreSpotted attachments.old.entries nodes.old.entries
        → AreSpotted attachments.new.entries nodes.new.entries }
{
    remove_place(attachments, &place);
    let (number, node) = place;
    drop_spot(nodes, &(node, number));
}

fn remove_each(
    attachments: &mut BTreeMap<(u64, Text), Attachment>,
    nodes: &mut BTreeMap<Text, BTreeSet<u64>>,
    places: Items<(u64, Text)>,
)
    ensures rows { places_of attachments.new.entries
        ≡ removed_each (places_of attachments.old.entries) places }
    ensures spotted { AreSpotted attachments.old.entries nodes.old.entries
        → AreSpotted attachments.new.entries nodes.new.entries }
{
    for place in places.into_vec() {
        remove_attachment(attachments, nodes, place);
    }
}

/// Removes all attachments of the volume with this number, and removes them from the index of nodes.
///
/// # Errors
///
/// If memory is refused. The attachments and the index are unchanged.
#[tactic(auto, using(crate::proofs::DetachLemmas::each_detached))]
pub fn remove_attachments(
    alloc: Global,
    attachments: &mut BTreeMap<(u64, Text), Attachment>,
    nodes: &mut BTreeMap<Text, BTreeSet<u64>>,
    number: u64,
) -> Result<(), AllocError>
    ensures ok { OnOk result (places_of attachments.new.entries
        ≡ retain_keys (places_of attachments.old.entries) (λ p. not (p.0 == number))) }
    ensures spotted { AreSpotted attachments.old.entries nodes.old.entries
        → AreSpotted attachments.new.entries nodes.new.entries }
    ensures err { OnErr result (attachments.new.entries ≡ attachments.old.entries) }
    ensures unchanged { OnErr result (nodes.new.entries ≡ nodes.old.entries) }
{
    let places = places_to(alloc, attachments, number)?;
    remove_each(attachments, nodes, places);
    Ok(())
}

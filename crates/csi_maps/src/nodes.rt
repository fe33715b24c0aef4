//! The index of nodes in memory: a map from the id of a node to the numbers of the volumes that are attached
//! to the node. A node without attached volumes has no entry. A spot is the pair of a node's id and a
//! volume's number.

ghost use Rattle.std.specs.List.Sorted.{IsStrictlySortedBy};
ghost use Rattle.std.specs.Ordering.{nat_cmp};
ghost use Rattle.std.specs.Prelude.{◌≡◌, true, false, length, IfOk, OnOk, OnErr};
ghost use Rattle.csi_maps.specs.Rows.{Spot, IsSpotSet, HasNoEmpty, has_spot, numbers_by};

use csi_types::{Items, Text, copy_text};
use std::alloc::{AllocError, Global};
use std::collections::{BTreeMap, BTreeSet};

/// Adds a spot to the index.
///
/// # Errors
///
/// If memory is refused. The index has the same spots as before.
pub(crate) fn put_spot(
    alloc: Global,
    nodes: &mut BTreeMap<Text, BTreeSet<u64>>,
    node: &Text,
    number: u64,
) -> Result<(), AllocError>
    ensures ok { OnOk result (IsSpotSet (node.now, number) true nodes.old.entries nodes.new.entries) }
    ensures err { OnErr result ((q : Spot) → has_spot nodes.new.entries q ≡ has_spot nodes.old.entries q) }
    ensures full { HasNoEmpty nodes.old.entries → HasNoEmpty nodes.new.entries }
{
    if let Some(numbers) = nodes.get_mut(node) {
        numbers.insert(number)?;
        return Ok(());
    }
    let mut numbers = BTreeSet::new(alloc);
    numbers.insert(number)?;
    nodes.insert(copy_text(alloc, node.as_str())?, numbers)?;
    Ok(())
}

/// Removes a spot from the index. If the node has no other spot, the entry of the node is removed too.
pub(crate) fn drop_spot(nodes: &mut BTreeMap<Text, BTreeSet<u64>>, spot: &(Text, u64))
    ensures gone { IsSpotSet spot.now false nodes.old.entries nodes.new.entries }
    ensures full { HasNoEmpty nodes.old.entries → HasNoEmpty nodes.new.entries }
{
    let Some(numbers) = nodes.get_mut(&spot.0) else {
        return;
    };
    numbers.remove(&spot.1);
    if numbers.is_empty() {
        nodes.remove(&spot.0);
    }
}

fn copies_of(alloc: Global, numbers: &BTreeSet<u64>) -> Result<Items<u64>, AllocError>
    ensures value { IfOk result (λ xs. xs ≡ numbers.now.keys) }
    ensures ordered { IsStrictlySortedBy nat_cmp numbers.now.keys }
{
    let mut copies = Items::with_room(alloc, numbers.len())?;
    for number in numbers {
        copies.push(*number)?;
    }
    Ok(copies)
}

/// Returns the numbers of the volumes that are attached to a node, in rising order. The list is empty if
/// the index does not contain the node.
///
/// # Errors
///
/// If memory is refused.
pub fn numbers_at(
    alloc: Global,
    nodes: &BTreeMap<Text, BTreeSet<u64>>,
    node: &str,
) -> Result<Items<u64>, AllocError>
    ensures value { IfOk result (λ xs. xs ≡ numbers_by nodes.now.entries node.now) }
    ensures ordered { OnOk result (IsStrictlySortedBy nat_cmp (numbers_by nodes.now.entries node.now)) }
{
    let node = copy_text(alloc, node)?;
    match nodes.get(&node) {
        Some(numbers) => copies_of(alloc, numbers),
        None => Ok(Items::new(alloc)),
    }
}

/// Returns the number of volumes that are attached to a node, or 0 if the index does not contain the node.
pub fn count_at(nodes: &BTreeMap<Text, BTreeSet<u64>>, node: &Text) -> u64
    ensures value { result ≡ length (numbers_by nodes.now.entries node.now) }
    ensures ordered { IsStrictlySortedBy nat_cmp (numbers_by nodes.now.entries node.now) }
{
    match nodes.get(node) {
        Some(numbers) => numbers.len() as u64,
        None => 0,
    }
}

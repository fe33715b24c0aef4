//! A table that proposes the places where a topology may be in a list.
//!
//! Comparing each topology of one list with each topology of another list takes too long for the longest
//! lists that a peer can send. So a table has, for the mark of each topology of a list, the place of the
//! topology in the list. The table only proposes places. The topology at each proposed place is compared. If
//! none is equal, the whole list is searched.

use crate::marks::mark_of_topology;
use csi_types::Map;
use std::hash::DefaultHasher;

// The number of slots for marks. It is more than twice the number of different topologies in a message of 1
// MiB.
const SLOTS: usize = 262_144;

// The number of slots that are tried for a mark, from the slot of the mark on.
const TRIED: usize = 256;

/// The number of slots of a table. A mark selects one of the first `SLOTS` slots, at which the tries begin.
/// If the tries begin at one of the last of these slots, they go on in the slots after them.
pub(crate) const TABLE_LENGTH: usize = SLOTS + TRIED;

/// The content of a free slot. No list has a place with this number.
pub(crate) const NO_PLACE: u32 = u32::MAX;

/// Returns the slot that is tried first for a topology.
pub(crate) fn first_slot(begun: DefaultHasher, topology: &Map) -> usize {
    (mark_of_topology(begun, topology) % SLOTS as u64) as usize
}

/// Returns the slots that are tried, beginning with the slot `first`. The result is empty if the table ends
/// before the last of these slots.
pub(crate) fn tried(table: &[u32], first: usize) -> &[u32] {
    table.get(first..first.saturating_add(TRIED)).unwrap_or(&[])
}

/// Writes the place into the first free slot of the slots that are tried. Does nothing if no slot is free.
pub(crate) fn note(table: &mut [u32], first: usize, place: usize) {
    for slot in first..first.saturating_add(TRIED) {
        if slot < table.len() && table[slot] == NO_PLACE {
            table[slot] = u32::try_from(place).unwrap_or(NO_PLACE);
            return;
        }
    }
}

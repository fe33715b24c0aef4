//! Compares the topologies of a requirement, ignoring the case of ASCII letters in keys.

ghost use Rattle.std.specs.Prelude.{◌≡◌, ◌++◌, All, not, false, true, nat_lt};
ghost use Rattle.std.specs.List.{list_any};
ghost use Rattle.csi_types.specs.Checks.{map_bytes, prefers_another};
ghost use Rattle.csi_types.specs.Topology.{has_alike_keys, same_topology};

use crate::marks::begun_by;
use crate::measures::is_large_map;
use crate::places::{NO_PLACE, TABLE_LENGTH, first_slot, note, tried};
use csi_types::{Items, MAX_MAP_BYTES, Map, Requirement, has_alike_keys, same_topology};
use std::hash::DefaultHasher;

// The greatest number of pairs of topologies that are compared without the table of `places.rt`.
const FEW_PAIRS: usize = 64;

/// Returns true if a topology of the requirement has more than 4,096 bytes.
pub(crate) fn has_large_term(requirement: &Requirement) -> bool
    ensures { result ≡ list_any (λ m. nat_lt MAX_MAP_BYTES (map_bytes m))
        (requirement.now.requisite ++ requirement.now.preferred) }
{
    is_any_large(requirement.requisite.as_slice()) || is_any_large(requirement.preferred.as_slice())
}

/// Returns true if a map of the list has more than 4,096 bytes.
pub(crate) fn is_any_large(maps: &[Map]) -> bool
    ensures { result ≡ list_any (λ m. nat_lt MAX_MAP_BYTES (map_bytes m)) maps.now }
{
    maps.iter().any(is_large_map)
}

/// Returns true if a topology of the requirement has two keys that differ at most in the case of ASCII
/// letters.
pub(crate) fn has_ambiguous_term(requirement: &Requirement) -> bool
    ensures { result ≡ list_any has_alike_keys (requirement.now.requisite ++ requirement.now.preferred) }
{
    is_any_ambiguous(&requirement.requisite) || is_any_ambiguous(&requirement.preferred)
}

fn is_any_ambiguous(topologies: &Items<Map>) -> bool
    ensures { result ≡ list_any has_alike_keys topologies.now }
{
    topologies.iter().any(|topology| has_alike_keys(topology))
}

/// Returns true if requisite topologies are given and a preferred topology is not among them. In each
/// topology, no two keys may differ only in the case of ASCII letters.
pub(crate) fn prefers_another(requirement: &Requirement) -> bool
    requires { list_any has_alike_keys (requirement.now.requisite ++ requirement.now.preferred) ≡ false }
    ensures { result ≡ prefers_another requirement.now }
{
    let requisite = requirement.requisite.as_slice();
    let preferred = requirement.preferred.as_slice();
    if requisite.is_empty() {
        return false;
    }
    if requisite.len().saturating_mul(preferred.len()) <= FEW_PAIRS {
        is_any_outside(&[], DefaultHasher::new(), requisite, preferred)
    } else {
        is_any_outside_many(requisite, preferred)
    }
}

// Returns true if one of `topologies` is not in a long `list`. The table is a large local variable, so the
// call is not inlined.
#[inline(never)]
fn is_any_outside_many(list: &[Map], topologies: &[Map]) -> bool
    requires list { All (λ m. has_alike_keys m ≡ false) list.now }
    requires all { All (λ m. has_alike_keys m ≡ false) topologies.now }
    ensures { result ≡ list_any (λ p. not (list_any (same_topology p) list.now)) topologies.now }
{
    let mut table = [NO_PLACE; TABLE_LENGTH];
    let begun = begun_by(list);
    note_all(&mut table, begun, list);
    is_any_outside(&table, begun, list, topologies)
}

// Notes the place of each topology of the list in the table. Of equal topologies, only the first is noted.
fn note_all(table: &mut [u32], begun: DefaultHasher, list: &[Map])
    requires list { All (λ m. has_alike_keys m ≡ false) list.now }
{
    for place in 0..list.len() {
        let first = first_slot(begun, &list[place]);
        if !is_proposed(tried(table, first), list, &list[place]) {
            note(table, first, place);
        }
    }
}

// Returns true if one of `topologies` is not in the list. The table proposes the places where each topology
// may be.
fn is_any_outside(table: &[u32], begun: DefaultHasher, list: &[Map], topologies: &[Map]) -> bool
    requires list { All (λ m. has_alike_keys m ≡ false) list.now }
    requires all { All (λ m. has_alike_keys m ≡ false) topologies.now }
    ensures { result ≡ list_any (λ p. not (list_any (same_topology p) list.now)) topologies.now }
{
    for topology in topologies {
        let places = tried(table, first_slot(begun, topology));
        if !is_proposed(places, list, topology) && !is_among(list, topology) {
            return true;
        }
    }
    false
}

fn is_proposed(places: &[u32], list: &[Map], topology: &Map) -> bool
    requires list { All (λ m. has_alike_keys m ≡ false) list.now }
    requires keys_differ { has_alike_keys topology.now ≡ false }
    ensures { result ≡ true → list_any (same_topology topology.now) list.now ≡ true }
{
    for place in places {
        if *place == NO_PLACE {
            return false;
        }
        if is_at(list, *place as usize, topology) {
            return true;
        }
    }
    false
}

fn is_at(list: &[Map], place: usize, topology: &Map) -> bool
    requires list { All (λ m. has_alike_keys m ≡ false) list.now }
    requires keys_differ { has_alike_keys topology.now ≡ false }
    ensures { result ≡ true → list_any (same_topology topology.now) list.now ≡ true }
{
    place < list.len() && same_topology(topology, &list[place])
}

fn is_among(list: &[Map], topology: &Map) -> bool
    requires list { All (λ m. has_alike_keys m ≡ false) list.now }
    requires keys_differ { has_alike_keys topology.now ≡ false }
    ensures { result ≡ list_any (same_topology topology.now) list.now }
{
    for candidate in list {
        if same_topology(topology, candidate) {
            return true;
        }
    }
    false
}

//! The topologies that a request asks for, and functions that compare topologies.
//!
//! Keys are compared without regard to the case of ASCII letters, values by their bytes. Two keys are *alike*
//! if they differ at most in the case of ASCII letters. No function here allocates. If a topology has at most
//! 4,096 bytes and no two keys that are alike, the time is little more than linear in the number of its
//! segments. Otherwise the result is right too, but all pairs of segments may be compared.

mod segments;

ghost use Rattle.std.specs.Prelude.{◌≡◌, ◌&&◌, IsPermutation, IsSorted, false, map, true, take};
ghost use Rattle.std.specs.FinMap.{entries};
ghost use Rattle.std.specs.List.{list_any};
ghost use Rattle.std.specs.Ordering.{nat_cmp, on};
ghost use Rattle.std.specs.Cmp.Lexicographic.{slice_cmp};
ghost use Rattle.csi_types.specs.Maps.{same_text};
ghost use Rattle.csi_types.specs.Segments.{entry_of, folded_key};
ghost use Rattle.csi_types.specs.Topology.{alike, some_two, has_alike_keys, is_within, same_topology};

use crate::items::Items;
use crate::limits::MAX_SEGMENTS;
use crate::map::Map;
use crate::text::Text;
use segments::{MOST_SEGMENTS, Segment, sort_segments};

// The greatest number of segments for which all pairs of segments are compared. More segments are sorted
// first.
const FEW_SEGMENTS: usize = 32;

/// `TopologyRequirement` (CSI specification, 'CreateVolume').
///
/// Each topology of the two lists is the map `segments`, field 1 of the message `Topology`.
#[derive(Debug, Drop)]
pub struct Requirement {
    /// `requisite`, field 1: the volume must be accessible from at least one of these topologies. An empty
    /// list requires nothing.
    pub requisite: Items<Map>,
    /// `preferred`, field 2, in the order of preference: the volume is created in the first of these
    /// topologies that a pool with room serves. If no pool with room serves any of them, the requisite
    /// topologies decide.
    pub preferred: Items<Map>,
}

/// Returns true if two keys of the topology differ at most in the case of ASCII letters.
pub fn has_alike_keys(topology: &Map) -> bool
    ensures { result ≡ has_alike_keys topology.now }
{
    if topology.len() <= FEW_SEGMENTS {
        has_alike_pair(topology)
    } else {
        has_alike_neighbours(topology)
    }
}

// Returns true if two keys of the topology differ at most in ASCII case. Compares each key with each key
// before it.
fn has_alike_pair(topology: &Map) -> bool
    ensures { result ≡ has_alike_keys topology.now }
{
    // The contract of `len` shows that the number of keys fits a `usize`.
    let _count = topology.len();
    topology.iter().enumerate().any(|(index, (key, _))| is_key_alike_before(topology, index, key))
}

// Returns true if one of the first `count` keys of the topology differs from `key` at most in ASCII case.
fn is_key_alike_before(topology: &Map, count: usize, key: &Text) -> bool
    ensures { result ≡ list_any (λ e. alike e.0 key.now) (take count (entries topology.now)) }
{
    topology
        .iter()
        .take(count)
        .any(|(earlier, _)| are_alike(earlier, key))
}

// Returns true if two keys of the topology differ at most in ASCII case. Sorts the segments by their keys and
// compares neighbours. If the topology has more than `MOST_SEGMENTS` segments, compares all pairs instead.
// The sorted segments are a large local variable, so the call is not inlined.
#[inline(never)]
fn has_alike_neighbours(topology: &Map) -> bool
    ensures { result ≡ has_alike_keys topology.now }
{
    let Some((key, value)) = topology.iter().next() else {
        return has_alike_pair(topology);
    };
    let mut room = [Segment { key, value }; MOST_SEGMENTS];
    let Some(segments) = room.get_mut(..topology.len()) else {
        return has_alike_pair(topology);
    };
    sort_segments(segments, topology);
    has_tied_neighbours(segments)
}

// Returns true if two of the sorted segments have keys that are alike. It is enough to compare neighbours.
fn has_tied_neighbours(segments: &[Segment<'_>]) -> bool
    requires { IsSorted (on folded_key (slice_cmp nat_cmp)) segments.now }
    ensures { result ≡ some_two (λ e f. alike e.0 f.0) (map entry_of segments.now) }
{
    !segments.is_sorted_by(|one, other| one < other)
}

/// Returns true if `outer` has each segment of `inner`: an equal value, under a key that differs at most in
/// the case of ASCII letters.
pub fn is_within(inner: &Map, outer: &Map) -> bool
    ensures { result ≡ is_within inner.now outer.now }
{
    // A pool has few segments. Looking for them one by one is faster than sorting the segments of `outer`.
    if inner.len() <= MAX_SEGMENTS || outer.len() <= FEW_SEGMENTS {
        is_within_few(inner, outer)
    } else {
        is_within_many(inner, outer)
    }
}

// Returns true if `outer` has each segment of `inner`. Compares each segment of `inner` with each segment of
// `outer`. Nearly all maps have their entries in a list, which takes few steps to go through.
fn is_within_few(inner: &Map, outer: &Map) -> bool
    ensures { result ≡ is_within inner.now outer.now }
{
    match inner.listed() {
        Some(segments) => segments
            .iter()
            .all(|(key, value)| has_segment(outer, key, value)),
        None => inner
            .iter()
            .all(|(key, value)| has_segment(outer, key, value)),
    }
}

// Returns true if `outer` has each segment of `inner`. Looks for each segment of `inner` among the sorted
// segments of `outer`. If `outer` has more than `MOST_SEGMENTS` segments, compares all pairs instead. The
// sorted segments are a large local variable, so the call is not inlined.
#[inline(never)]
fn is_within_many(inner: &Map, outer: &Map) -> bool
    ensures { result ≡ is_within inner.now outer.now }
{
    let Some((key, value)) = outer.iter().next() else {
        return is_within_few(inner, outer);
    };
    let mut room = [Segment { key, value }; MOST_SEGMENTS];
    let Some(segments) = room.get_mut(..outer.len()) else {
        return is_within_few(inner, outer);
    };
    sort_segments(segments, outer);
    let segments: &[Segment<'_>] = segments;
    inner
        .iter()
        .all(|(key, value)| is_found(outer, segments, key, value))
}

// Returns true if the topology has this segment. `segments` are the sorted segments of the topology. If
// bisection does not find the segment, all segments are compared. For if several keys are alike, bisection
// looks at one of them only.
fn is_found(topology: &Map, segments: &[Segment<'_>], key: &Text, value: &Text) -> bool
    requires { IsPermutation (entries topology.now) (map entry_of segments.now) }
    ensures { result ≡ list_any (λ f. alike key.now f.0 && same_text value.now f.1) (entries topology.now) }
{
    is_among(segments, key, value) || has_segment(topology, key, value)
}

// Returns true if bisection finds a segment with this key and value. If several keys are alike, bisection may
// miss such a segment.
fn is_among(segments: &[Segment<'_>], key: &Text, value: &Text) -> bool
    ensures { result ≡ true → list_any (λ f. alike key.now f.0 && same_text value.now f.1)
        (map entry_of segments.now) ≡ true }
{
    match segments.binary_search(&Segment { key, value }) {
        Ok(place) => value == segments[place].value,
        Err(_) => false,
    }
}

fn has_segment(topology: &Map, key: &Text, value: &Text) -> bool
    ensures { result ≡ list_any (λ f. alike key.now f.0 && same_text value.now f.1) (entries topology.now) }
{
    match topology.listed() {
        Some(segments) => segments
            .iter()
            .any(|(other, set)| are_alike(key, other) && value == set),
        None => topology
            .iter()
            .any(|(other, set)| are_alike(key, other) && value == set),
    }
}

/// Returns true if two topologies have the same segments. The case of ASCII letters in keys is ignored.
/// Neither `one` nor `other` may have two keys that differ only in the case of ASCII letters.
pub fn same_topology(one: &Map, other: &Map) -> bool
    requires keys_differ { has_alike_keys one.now ≡ false }
    requires other { has_alike_keys other.now ≡ false }
    ensures { result ≡ same_topology one.now other.now }
{
    is_within(one, other) && is_within(other, one)
}

fn are_alike(one: &Text, other: &Text) -> bool
    ensures { result ≡ alike one.now other.now }
{
    one.as_str().eq_ignore_ascii_case(other.as_str())
}

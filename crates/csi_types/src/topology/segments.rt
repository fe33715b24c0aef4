//! Sorts the segments of a topology by their keys, with ASCII letters in lower case.

ghost use Rattle.std.specs.Prelude.{◌≡◌, IsPermutation, IsSorted, length, map};
ghost use Rattle.std.specs.FinMap.{entries, len};
ghost use Rattle.std.specs.Ordering.{nat_cmp, on};
ghost use Rattle.std.specs.Cmp.Lexicographic.{slice_cmp};
ghost use Rattle.std.specs.Str.{str_to_ascii_lowercase};
ghost use Rattle.csi_types.specs.Segments.{entry_of, folded_key};

use crate::map::Map;
use crate::text::Text;
use std::cmp::Ordering;

/// The greatest number of segments of a map of 4,096 bytes. A map has the most segments if all values are
/// empty and the keys are as short as possible: 1 key of 0 bytes, 128 keys of 1 byte and 1,984 keys of 2
/// bytes.
pub(crate) const MOST_SEGMENTS: usize = 2_113;

/// A segment of a topology. Segments are ordered by their keys with ASCII letters in lower case. Their values
/// do not affect the order.
#[derive(Clone, Copy)]
pub(crate) struct Segment<'m> {
    /// The key in the topology. Its letters keep their case.
    pub key: &'m Text,
    /// The value that the topology has under this key.
    pub value: &'m Text,
}

impl<'m> PartialEq for Segment<'m> {
    ghost use Rattle.std.specs.Ordering.{on};
    ghost use Rattle.std.specs.Cmp.{on_per, partial_equiv_from_equiv};
    ghost use Rattle.std.specs.Cmp.Lexicographic.{nat_list_eq_equiv};
    ghost use Rattle.csi_types.specs.Maps.{same_text};
    ghost use Rattle.csi_types.specs.Segments.{folded_key};

    ghost eq = { on folded_key same_text };

    ghost laws = { on_per folded_key (partial_equiv_from_equiv nat_list_eq_equiv) };

    fn eq(&self, other: &Self) -> bool {
        self.key.as_str().eq_ignore_ascii_case(other.key.as_str())
    }
}

impl<'m> Eq for Segment<'m> {
    ghost use Rattle.std.specs.Cmp.{on_equiv};
    ghost use Rattle.std.specs.Cmp.Lexicographic.{nat_list_eq_equiv};
    ghost use Rattle.csi_types.specs.Segments.{folded_key};

    ghost laws = { on_equiv folded_key nat_list_eq_equiv };
}

impl<'m> PartialOrd for Segment<'m> {
    ghost use Rattle.std.specs.Prelude.{Some};
    ghost use Rattle.std.specs.Ordering.{on, nat_cmp};
    ghost use Rattle.std.specs.Cmp.{on_po};
    ghost use Rattle.std.specs.Cmp.Lexicographic.{slice_cmp, texts_po};
    ghost use Rattle.csi_types.specs.Segments.{folded_key};

    ghost partial_cmp = { λ x y. Some (on folded_key (slice_cmp nat_cmp) x y) };

    ghost laws = { on_po folded_key texts_po };

    fn partial_cmp(&self, other: &Self) -> Option<Ordering> {
        Some(self.cmp(other))
    }
}

impl<'m> Ord for Segment<'m> {
    ghost use Rattle.std.specs.Prelude.{refl};
    ghost use Rattle.std.specs.Ordering.{on, nat_cmp};
    ghost use Rattle.std.specs.Cmp.Lexicographic.{slice_cmp, on_texts, texts_ties};
    ghost use Rattle.csi_types.specs.Segments.{folded_key};

    ghost cmp = { on folded_key (slice_cmp nat_cmp) };

    ghost total = { on_texts folded_key };

    ghost matches_partial_cmp = { λ x y. refl };

    ghost matches_eq = { λ x y. texts_ties (folded_key x) (folded_key y) };

    fn cmp(&self, other: &Self) -> Ordering {
        compare_folded(self.key.as_bytes(), other.key.as_bytes())
    }
}

fn compare_folded(one: &[u8], other: &[u8]) -> Ordering
    ensures { result ≡ slice_cmp nat_cmp (str_to_ascii_lowercase one.now) (str_to_ascii_lowercase other.now) }
{
    let folded = one.iter().map(|byte| byte.to_ascii_lowercase());
    folded.cmp(other.iter().map(|byte| byte.to_ascii_lowercase()))
}

/// Fills `segments` with the segments of the topology, sorted by their keys with ASCII letters in lower case.
/// `segments` must be as long as the topology.
pub(crate) fn sort_segments<'m>(segments: &mut [Segment<'m>], topology: &'m Map)
    requires { length segments.old ≡ len topology.now }
    ensures all { IsPermutation (entries topology.now) (map entry_of segments.new) }
    ensures sorted { IsSorted (on folded_key (slice_cmp nat_cmp)) segments.new }
{
    put_segments(segments, topology);
    segments.sort_unstable();
}

// Fills `segments` with the segments of the topology, in byte order of their keys.
fn put_segments<'m>(segments: &mut [Segment<'m>], topology: &'m Map)
    requires { length segments.old ≡ len topology.now }
    ensures { map entry_of segments.new ≡ entries topology.now }
{
    let mut count = 0;
    for (key, value) in topology {
        segments[count] = Segment { key, value };
        count += 1;
    }
}

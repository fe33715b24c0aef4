//! Iterates over the entries of a map.

ghost use Rattle.std.specs.Prelude.{◌≡◌, ◌++◌, ◌&&◌, length};
ghost use Rattle.std.specs.Iterator.{at_most};
ghost use Rattle.std.specs.Map.Iter.{TakesFirst, deref_pair};
ghost use Rattle.std.specs.Slice.Iter.{iter_rest};
ghost use Rattle.std.specs.Cmp.Lexicographic.{pointwise};
ghost use Rattle.csi_types.specs.Maps.{same_text};

use crate::text::Text;
use std::collections::btree_map;
use std::marker::Model;
use std::slice;

/// An iterator over the entries of a map, in byte order of their keys. Contracts see the iterator as the list
/// of the entries that it has not returned yet.
#[derive(Drop)]
pub struct MapEntries<'a> {
    pub(super) listed: slice::Iter<'a, (Text, Text)>,
    pub(super) tree: btree_map::Iter<'a, Text, Text>,
}

impl<'a> Model for MapEntries<'a> {
    ghost use Rattle.std.specs.Prelude.{ℕ, List, ◌++◌};
    ghost use Rattle.std.specs.Slice.Iter.{iter_rest};

    ghost Value = { List (List ℕ × List ℕ) };

    ghost view = { λ a. iter_rest a.listed ++ a.tree };
}

impl<'a> Iterator for MapEntries<'a> {
    type Item = (&'a Text, &'a Text);

    ghost next_gives = { TakesFirst deref_pair };

    ghost remaining = { λ s. at_most (length s) };

    fn next(&mut self) -> Option<(&'a Text, &'a Text)> {
        match self.listed.next() {
            Some(entry) => Some((&entry.0, &entry.1)),
            None => self.tree.next(),
        }
    }
}

/// Returns true if the remaining entries of two iterators are equal, key by key and value by value.
pub(super) fn are_same(one: MapEntries<'_>, other: MapEntries<'_>) -> bool
    ensures { result ≡ pointwise (λ p q. same_text p.0 q.0 && same_text p.1 q.1) one.entry other.entry }
{
    let (mut ours, mut theirs) = (one, other);
    while let Some((key, value)) = ours.next() {
        match theirs.next() {
            Some((same_key, same_value)) if key == same_key && value == same_value => {}
            _ => return false,
        }
    }
    theirs.next().is_none()
}

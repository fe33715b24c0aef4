//! Maps of texts, which contracts see as finite maps.

mod entering;
mod entries;

ghost use Rattle.std.specs.Prelude.{◌≡◌, ◌==◌, ◌++◌, ◌∷◌, List, [], OnOk, OnErr, IfOk, IfSome, length};
ghost use Rattle.std.specs.Option.{option_copied};
ghost use Rattle.std.specs.FinMap as map;
ghost use Rattle.std.specs.Ordering.{nat_cmp};
ghost use Rattle.std.specs.Cmp.Lexicographic.{slice_cmp};

use crate::text::Text;
use entering::enter;
pub use entries::MapEntries;
use entries::are_same;
use std::alloc::{AllocError, Global};
use std::collections::BTreeMap;
use std::fmt;
use std::marker::Model;

/// A `map<string, string>` (Protocol Buffers language guide, 'Maps'). Its entries are in byte order of their
/// keys.
///
/// A map has a list and a tree. While keys are inserted in rising order, their entries go into the list. When
/// a key is not greater than all keys in the list, the entries of the list from this key on move to the tree.
/// From then on each new entry goes into the tree. So an entry moves at most once.
///
/// Most maps have one entry, and most longer maps are filled in rising order of their keys. A map with one
/// entry allocates room for this entry only.
pub struct Map {
    listed: Vec<(Text, Text)>,
    // The entries that are not in the list. Each key in the tree is above all keys in the list.
    tree: BTreeMap<Text, Text>,
}

impl Drop for Map {
    #[inline(always)]
    fn drop(self) {
        let Map {
            listed: _listed,
            tree: _tree,
        } = self;
    }
}

impl Model for Map {
    ghost use Rattle.std.specs.Prelude.{ℕ, List, ◌++◌};
    ghost use Rattle.std.specs.FinMap as map;
    ghost use Rattle.std.specs.Ordering.{nat_cmp};
    ghost use Rattle.std.specs.Cmp.Lexicographic.{slice_cmp};
    ghost use Rattle.std.specs.Coded.{coded_ℕ, coded_list};
    ghost use Rattle.csi_types.specs.Maps.{IsRising};

    ghost Value = { map.FinMap (slice_cmp nat_cmp) (List ℕ) };

    ghost coded = { map.code (coded_list coded_ℕ) (coded_list coded_ℕ) };

    ghost view = { λ a. map.from_sorted (a.listed.items ++ a.tree.entries) };

    ghost invariant = { λ a. IsRising (a.listed.items ++ a.tree.entries) };
}

impl Map {
    /// Makes an empty map. Takes no memory.
    pub fn new(alloc: Global) -> Self
        ensures { result ≡ map.empty }
    {
        Map {
            listed: Vec::new(alloc),
            tree: BTreeMap::new(alloc),
        }
    }

    /// Returns the number of entries in the map.
    pub fn len(&self) -> usize
        ensures { result ≡ map.len self.now }
    {
        self.listed.len() + self.tree.len()
    }

    /// Returns true if the map has no entry.
    pub fn is_empty(&self) -> bool
        ensures { result ≡ (map.len self.now == 0) }
    {
        self.len() == 0
    }

    /// Returns the value under `key`, or `None` if the map does not have the key.
    pub fn get(&self, key: &Text) -> Option<&Text>
        ensures { option_copied result ≡ map.get self.now key.now }
    {
        let place = self.listed.binary_search_by(
            |entry|
                ensures { result ≡ slice_cmp nat_cmp entry.now.0 key.entry.now }
            { entry.0.cmp(key) },
        );
        match place {
            Ok(place) => Some(&self.listed[place].1),
            Err(_) => self.tree.get(key),
        }
    }

    /// Sets the value under `key`. An earlier value under this key is replaced. If memory is refused, the
    /// call fails and the map is unchanged.
    pub fn insert(&mut self, key: Text, value: Text) -> Result<(), AllocError>
        ensures ok { OnOk result (self.new ≡ map.insert self.old key value) }
        ensures err { OnErr result (self.new ≡ self.old) }
    {
        enter(&mut self.listed, &mut self.tree, key, value)?;
        Ok(())
    }

    // Returns the entries as one list, or `None` if some entries are in the tree.
    #[inline(always)]
    pub(crate) fn listed(&self) -> Option<&[(Text, Text)]>
        ensures { IfSome result (λ listed. listed.now ≡ map.entries self.now) }
    {
        if self.tree.is_empty() {
            Some(self.listed.as_slice())
        } else {
            None
        }
    }

    /// Iterates over the entries in byte order of their keys.
    #[tactic(auto, using(crate::proofs::Maps::entries_of))]
    pub fn iter(&self) -> MapEntries<'_>
        ensures { result ≡ map.entries self.now }
    {
        MapEntries {
            listed: self.listed.iter(),
            tree: self.tree.iter(),
        }
    }
}

impl fmt::Debug for Map {
    fn fmt<W: fmt::Write>(&self, f: &mut fmt::Formatter<W>) -> fmt::Result {
        f.debug_map().entries(self).finish()
    }
}

impl<'a> IntoIterator for &'a Map {
    type Item = (&'a Text, &'a Text);

    type IntoIter = MapEntries<'a>;

    ghost into_iter_gives = { λ m it. it ≡ map.entries m.now };

    fn into_iter(self) -> MapEntries<'a> {
        self.iter()
    }
}

impl PartialEq for Map {
    ghost use Rattle.csi_types.specs.Maps.{same_map, same_map_per};

    ghost eq = { same_map };

    ghost laws = { same_map_per };

    fn eq(&self, other: &Self) -> bool {
        self.len() == other.len() && are_same(self.iter(), other.iter())
    }
}

impl Eq for Map {
    ghost use Rattle.csi_types.specs.Maps.{same_map_equiv};

    ghost laws = { same_map_equiv };
}

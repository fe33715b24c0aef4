//! A map that allocates no memory if it is empty.

ghost use Rattle.std.specs.Prelude.{◌≡◌, IfOk};

use csi_types::{Boxed, Map, copy_map};
use std::alloc::{AllocError, Global};
use std::marker::Model;

/// A map from texts to texts that takes 16 bytes itself. An empty map takes no other memory.
#[derive(Drop)]
pub struct CompactMap {
    // The entries, or `None` for an empty map.
    map: Option<Boxed<Map>>,
}

impl Model for CompactMap {
    ghost use Rattle.std.specs.Prelude.{ℕ, List};
    ghost use Rattle.std.specs.FinMap.{FinMap, code};
    ghost use Rattle.std.specs.Ordering.{nat_cmp};
    ghost use Rattle.std.specs.Cmp.Lexicographic.{slice_cmp};
    ghost use Rattle.std.specs.Coded.{coded_ℕ, coded_list};
    ghost use Rattle.csi_maps.specs.Compact.{or_empty};

    ghost Value = { FinMap (slice_cmp nat_cmp) (List ℕ) };

    ghost coded = { code (coded_list coded_ℕ) (coded_list coded_ℕ) };

    ghost view = { λ a. or_empty a.map };
}

impl CompactMap {
    /// Makes a compact map of a map. The entries are moved and not copied.
    ///
    /// # Errors
    ///
    /// If memory is refused. The map is dropped.
    pub fn new(alloc: Global, map: Map) -> Result<CompactMap, AllocError>
        ensures { IfOk result (λ compact. compact ≡ map) }
    {
        if map.is_empty() {
            return Ok(CompactMap { map: None });
        }
        Ok(CompactMap {
            map: Some(Boxed::new(alloc, map)?),
        })
    }

    /// Copies the compact map into an ordinary map.
    ///
    /// # Errors
    ///
    /// If memory is refused.
    pub(crate) fn copy(&self, alloc: Global) -> Result<Map, AllocError>
        ensures { IfOk result (λ copy. copy ≡ self.now) }
    {
        match &self.map {
            Some(map) => copy_map(alloc, map.get()),
            None => Ok(Map::new(alloc)),
        }
    }
}

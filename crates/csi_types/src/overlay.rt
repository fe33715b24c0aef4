//! Lays a map over another map, and tests that a map has all entries of another map.

ghost use Rattle.std.specs.Prelude.{◌≡◌, IfOk};
ghost use Rattle.std.specs.FinMap.{get};
ghost use Rattle.csi_types.specs.Overlays.{has_each, is_text, laid_over};

use crate::copies::copy_map;
use crate::map::Map;
use crate::text::Text;
use std::alloc::{AllocError, Global};

/// Returns a copy of `map` in which each key of `given` has its value in `given`. All other keys keep their
/// values. Fails if memory is refused.
pub fn laid_over(alloc: Global, map: &Map, given: &Map) -> Result<Map, AllocError>
    ensures { IfOk result (λ laid. laid ≡ laid_over map.now given.now) }
{
    let mut laid = copy_map(alloc, map)?;
    for (key, value) in given {
        laid.insert(key.copy(alloc)?, value.copy(alloc)?)?;
    }
    Ok(laid)
}

/// Returns true if `map` has each entry of `given`, with the same key and the same value.
pub fn has_each(map: &Map, given: &Map) -> bool
    ensures { result ≡ has_each map.now given.now }
{
    given.iter().all(|(key, value)| has_value(map, key, value))
}

fn has_value(map: &Map, key: &Text, value: &Text) -> bool
    ensures { result ≡ is_text value.now (get map.now key.now) }
{
    match map.get(key) {
        Some(own) => own == value,
        None => false,
    }
}

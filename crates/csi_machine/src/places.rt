//! The placement of each pool: the encoded context and topology of its volumes. A page of a listing encodes
//! the placement of a pool at the first volume of the pool on the page.

ghost use Rattle.std.specs.Prelude.{◌≡◌, ◌↔◌, IfOk, IfSome, IsTrue, find, option_copied};
ghost use Rattle.csi_types.specs.Maps.{same_text};
ghost use Rattle.csi_config.specs.declared.config.Config.{Config as AnyConfig};
ghost use Rattle.csi_machine.specs.Places.{ArePlaced, IsPlaced};

use csi_codec::Placement;
use csi_config::Config;
use csi_rules::{context_of, segments_at, topology_of};
use csi_types::{Map, Text, copy_text};
use std::alloc::{AllocError, Global};

/// A pool, and the encoded fields that are the same for all of its volumes.
#[derive(Drop)]
pub(crate) struct PoolPlacement {
    pub(crate) pool: Text,
    pub(crate) placement: Placement,
}

/// Encodes the context and topology that the configuration gives to each volume of a pool.
pub(crate) fn placement_of(
    alloc: Global,
    config: &Config,
    pool: &Text,
) -> Result<PoolPlacement, AllocError>
    ensures pool { IfOk result (λ place. place.pool ≡ pool.now) }
    ensures placed { IfOk result (λ place. IsPlaced config.now place) }
{
    let no_segments = Map::new(alloc);
    let context = context_of(alloc, pool)?;
    let topology = topology_of(alloc, segments_at(config, pool, &no_segments))?;
    Ok(PoolPlacement {
        pool: copy_text(alloc, pool.as_str())?,
        placement: Placement::new(alloc, context, topology)?,
    })
}

#[inline(always)]
fn is_of(place: &PoolPlacement, pool: &str) -> bool
    ensures { IsTrue result ↔ (place.now.pool ≡ pool.now) }
{
    place.pool.as_str() == pool
}

/// Returns the placement of a pool, or `None` if the page has no volume of the pool yet.
#[inline(always)]
pub(crate) fn placement_named<'a>(
    places: &'a [PoolPlacement],
    pool: &Text,
) -> Option<&'a PoolPlacement>
    ensures exact { option_copied result ≡ find (λ place. same_text place.pool pool.now) places.now }
    ensures pool { IfSome result (λ place. place.now.pool ≡ pool.now) }
    ensures placed { (config : AnyConfig) → ArePlaced config places.now
        → IfSome result (λ place. IsPlaced config place.now) }
{
    let pool = pool.as_str();
    for place in places {
        if is_of(place, pool) {
            return Some(place);
        }
    }
    None
}

//! Makes the parts of a reply that describe a volume.

ghost use Rattle.std.specs.Prelude.{◌≡◌, IfOk, codes};
ghost use Rattle.std.specs.Option.{option_copied};
ghost use Rattle.std.specs.FinMap.{empty, insert};
ghost use Rattle.csi_rules.specs.Info.{signed, topology_of, segments_at};
ghost use Rattle.csi_keeper.specs.Lookup.{pool_named};

use csi_config::{Config, Pool};
use csi_types::{Items, Map, Text, copy_map, copy_text};
use std::alloc::{AllocError, Global};

/// The one key of a volume's context. Its value is the name of the volume's pool.
pub const CONTEXT_KEY: &str = "pool";

/// Returns the context of a volume, which has one entry: the key is [`CONTEXT_KEY`], and the value is the
/// name of the volume's pool.
///
/// # Errors
///
/// If memory is refused.
pub fn context_of(alloc: Global, pool: &Text) -> Result<Map, AllocError>
    ensures { IfOk result (λ m. m ≡ insert empty (codes "pool") pool.now) }
{
    let mut context = Map::new(alloc);
    context.insert(
        copy_text(alloc, CONTEXT_KEY)?,
        copy_text(alloc, pool.as_str())?,
    )?;
    Ok(context)
}

/// Returns the topology of a volume: a list of one topology, which has the segments of the volume's pool. The
/// list is empty if the pool has no segments.
///
/// # Errors
///
/// If memory is refused.
pub fn topology_of(alloc: Global, segments: &Map) -> Result<Items<Map>, AllocError>
    ensures { IfOk result (λ ms. ms ≡ topology_of segments.now) }
{
    let mut terms = Items::new(alloc);
    if !segments.is_empty() {
        terms.push(copy_map(alloc, segments)?)?;
    }
    Ok(terms)
}

/// Returns the number of bytes as an `int64`, or 2^63 - 1 if the number is greater.
pub fn signed(bytes: u64) -> i64
    ensures { result ≡ signed bytes }
{
    bytes.min(i64::MAX as u64) as i64
}

fn pool_named<'a>(pools: &'a [Pool], name: &Text) -> Option<&'a Pool>
    ensures { option_copied result ≡ pool_named pools.now name.now }
{
    pools.iter().find(|pool| pool.name == *name)
}

/// Returns the segments of the first pool with this name. Returns `no_segments`, which must be empty, if the
/// configuration has no such pool.
pub fn segments_at<'a>(config: &'a Config, pool: &Text, no_segments: &'a Map) -> &'a Map
    requires { no_segments.now ≡ empty }
    ensures { result.now ≡ segments_at config.now pool.now }
{
    match pool_named(config.pools(), pool) {
        Some(pool) => &pool.segments,
        None => no_segments,
    }
}

//! The pools of a configuration, and the checks of their names, sizes and segments.

ghost use Rattle.std.specs.Prelude.{◌≡◌, ◌-◌, ◌^◌, min, take, None, OnOk, IfOk, IfErr, Some};
ghost use Rattle.std.specs.FinMap.{entries};
ghost use Rattle.std.specs.List.{list_all, list_any};
ghost use Rattle.csi_types.specs.Maps.{same_text};
ghost use Rattle.csi_config.specs.Faults.{all_bytes, breaks_pool, breaks_segment, is_pool_byte, is_pool_name, name_of, pool_bytes_fault, pool_names_fault, segments_fault};
ghost use Rattle.csi_config.specs.declared.fault.ConfigFault.TheVariants as Fault;

use crate::fault::{ConfigFault, PoolRule};
use crate::plugin::MAX_NAME_BYTES;
use crate::rule::{Ruled, check_rule};
use crate::sizes::is_whole;
use csi_types::{
    MAX_POOL_BYTES, MAX_POOLS, MAX_SEGMENTS, MAX_TEXT_BYTES, Map, Text, has_alike_keys,
};

/// A pool of storage. The bytes of each volume come from one pool.
#[derive(Debug, Drop)]
pub struct Pool {
    /// The name of the pool: 1 to 63 ASCII letters, digits, `-`, `_` and `.`.
    pub name: Text,
    /// The size in bytes: a positive multiple of 1 MiB. The sizes of all pools add up to at most 2^62.
    pub bytes: u64,
    /// The topology from which the pool's volumes are accessible, at most 8 segments (CSI specification,
    /// 'CreateVolume', `Topology`). A pool without segments is accessible from everywhere. Keys have 1 to 128
    /// bytes, and no two keys are equal ignoring the case of ASCII letters. Values have at most 128 bytes.
    pub segments: Map,
}

#[tactic(auto, unfolding(crate::specs::Faults::is_pool_byte))]
fn is_pool_byte(byte: u8) -> bool
    ensures { result ≡ is_pool_byte byte }
{
    byte.is_ascii_alphanumeric() || byte == b'-' || byte == b'_' || byte == b'.'
}

fn are_pool_bytes(name: &[u8]) -> bool
    ensures { result ≡ list_all is_pool_byte name.now }
{
    name.iter().all(|byte| is_pool_byte(*byte))
}

fn is_pool_name(name: &[u8]) -> bool
    ensures { result ≡ is_pool_name name.now }
{
    !name.is_empty() && name.len() <= MAX_NAME_BYTES && are_pool_bytes(name)
}

// Returns true if one of the first `count` pools has the name.
fn is_named_before(pools: &[Pool], count: usize, name: &Text) -> bool
    ensures { result ≡ list_any (λ p. same_text p.name name.now) (take count pools.now) }
{
    pools
        .iter()
        .take(count)
        .any(|earlier| earlier.name == *name)
}

// Returns true if a segment with this key and value breaks the rule. Returns false for a rule that is not
// about a single segment.
fn breaks_segment(rule: PoolRule, key: &Text, value: &Text) -> bool
    ensures { result ≡ breaks_segment rule (key.now, value.now) }
{
    match rule {
        PoolRule::KeyEmpty => key.is_empty(),
        PoolRule::KeyTooLong => key.len() > MAX_TEXT_BYTES,
        PoolRule::ValueTooLong => value.len() > MAX_TEXT_BYTES,
        _ => false,
    }
}

fn has_broken_segment(rule: PoolRule, segments: &Map) -> bool
    ensures { result ≡ list_any (breaks_segment rule) (entries segments.now) }
{
    segments
        .iter()
        .any(|(key, value)| breaks_segment(rule, key, value))
}

impl Ruled for Pool {
    type Rule = PoolRule;

    ghost breaks_rule = { breaks_pool };

    ghost name_of = { name_of };

    ghost fault_of = { Fault.Pool };

    fn breaks(rule: PoolRule, pools: &[Pool], count: usize, pool: &Pool) -> bool {
        match rule {
            PoolRule::Name => !is_pool_name(pool.name.as_bytes()),
            PoolRule::NameTwice => is_named_before(pools, count, &pool.name),
            PoolRule::Bytes => !is_whole(pool.bytes),
            PoolRule::Segments => pool.segments.len() > MAX_SEGMENTS,
            PoolRule::KeyEmpty | PoolRule::KeyTooLong | PoolRule::ValueTooLong => {
                has_broken_segment(rule, &pool.segments)
            }
            PoolRule::KeysAlike => has_alike_keys(&pool.segments),
        }
    }

    fn fault(self, rule: PoolRule) -> ConfigFault {
        ConfigFault::Pool {
            name: self.name,
            rule,
        }
    }
}

/// Checks the number of the pools and their names, and returns the pools.
///
/// # Errors
///
/// Returns a fault if there is no pool or more than 16 pools, or if a name is invalid or occurs twice.
#[tactic(auto, unfolding(crate::specs::Faults::pool_names_fault))]
pub(crate) fn check_names(pools: Vec<Pool>) -> Result<Vec<Pool>, ConfigFault>
    ensures unchanged { IfOk result (λ same. same.items ≡ pools.items) }
    ensures passed { OnOk result (pool_names_fault pools.items ≡ None) }
    ensures refused { IfErr result (λ fault. pool_names_fault pools.items ≡ Some fault) }
{
    if pools.is_empty() {
        return Err(ConfigFault::NoPool);
    }
    if pools.len() > MAX_POOLS {
        return Err(ConfigFault::TooManyPools);
    }
    let named = check_rule(PoolRule::Name, pools)?;
    check_rule(PoolRule::NameTwice, named)
}

// Returns the sum of the sizes of all pools in bytes, or 2^64 - 1 if the sum is greater.
fn all_bytes(pools: &[Pool]) -> u64
    ensures { result ≡ min (all_bytes pools.now) (2 ^ 64 - 1) }
{
    let mut sum: u64 = 0;
    for pool in pools {
        sum = sum.saturating_add(pool.bytes);
    }
    sum
}

/// Checks the size of each pool and the sum of the sizes, and returns the pools.
///
/// # Errors
///
/// Returns a fault if the size of a pool is not a positive multiple of 1 MiB, or the sizes add up to more
/// than 2^62 bytes.
#[tactic(auto, unfolding(crate::specs::Faults::pool_bytes_fault))]
pub(crate) fn check_bytes(pools: Vec<Pool>) -> Result<Vec<Pool>, ConfigFault>
    ensures unchanged { IfOk result (λ same. same.items ≡ pools.items) }
    ensures passed { OnOk result (pool_bytes_fault pools.items ≡ None) }
    ensures refused { IfErr result (λ fault. pool_bytes_fault pools.items ≡ Some fault) }
{
    let whole = check_rule(PoolRule::Bytes, pools)?;
    if all_bytes(whole.as_slice()) > MAX_POOL_BYTES {
        return Err(ConfigFault::AllBytes);
    }
    Ok(whole)
}

/// Checks the segments of each pool, and returns the pools.
///
/// # Errors
///
/// Returns a fault in these cases:
///
/// - a pool has more than 8 segments
/// - the key of a segment is empty
/// - a key or a value has more than 128 bytes
/// - two keys of a pool are equal, ignoring the case of ASCII letters
#[tactic(auto, unfolding(crate::specs::Faults::segments_fault))]
pub(crate) fn check_segments(pools: Vec<Pool>) -> Result<Vec<Pool>, ConfigFault>
    ensures unchanged { IfOk result (λ same. same.items ≡ pools.items) }
    ensures passed { OnOk result (segments_fault pools.items ≡ None) }
    ensures refused { IfErr result (λ fault. segments_fault pools.items ≡ Some fault) }
{
    let few = check_rule(PoolRule::Segments, pools)?;
    let keyed = check_rule(PoolRule::KeyEmpty, few)?;
    let short = check_rule(PoolRule::KeyTooLong, keyed)?;
    let measured = check_rule(PoolRule::ValueTooLong, short)?;
    check_rule(PoolRule::KeysAlike, measured)
}

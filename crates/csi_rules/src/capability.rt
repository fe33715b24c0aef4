//! Computes the capability keys of requests, and compares them with the keys of a volume.

ghost use Rattle.std.specs.Prelude.{◌≡◌, ◌∷◌, [], Some, IfOk};
ghost use Rattle.csi_keeper.specs.Capability.{key_of, wider_key, has_same, has_key, have_keys, ordered, keys_of};

use csi_keeper::{CapKey, cap_key, copy_key, has_key as is_had, wider_key};
use csi_types::{Capability, Items};
use std::alloc::{AllocError, Global};
use std::collections::BTreeSet;

// The greatest number of keys that are compared one by one. If there are more keys, they are put into a set
// first. The invariant says that the keys of a volume are sorted, but a `requires` cannot name the invariant.
// So each comparison builds the set.
const FEW_KEYS: usize = 4;

#[tactic(auto, using(crate::specs::facts::Capability::keys_more, crate::specs::facts::Capability::keys_same, crate::specs::facts::Capability::keys_none))]
fn key_set(alloc: Global, capabilities: &[Capability]) -> Result<BTreeSet<CapKey>, AllocError>
    ensures { IfOk result (λ set. set.keys ≡ keys_of capabilities.now) }
{
    let mut keys = BTreeSet::new(alloc);
    for capability in capabilities {
        if let Some(key) = cap_key(alloc, capability)? {
            keys.insert(key)?;
        }
    }
    Ok(keys)
}

fn listed(alloc: Global, set: BTreeSet<CapKey>) -> Result<Items<CapKey>, AllocError>
    ensures { IfOk result (λ keys. keys ≡ set.keys) }
{
    let mut keys = Items::new(alloc);
    for key in set {
        keys.push(key)?;
    }
    Ok(keys)
}

#[tactic(auto, using(crate::specs::facts::Capability::keys_of_one, crate::specs::facts::Capability::keys_of_unknown))]
fn key_alone(alloc: Global, capability: &Capability) -> Result<Items<CapKey>, AllocError>
    ensures { IfOk result (λ keys. keys ≡ keys_of (capability.now ∷ [])) }
{
    let mut alone = Items::new(alloc);
    if let Some(key) = cap_key(alloc, capability)? {
        alone.push(key)?;
    }
    Ok(alone)
}

/// Returns the keys of the capabilities, sorted and without duplicates, in O(n log n) time for n
/// capabilities. A capability without a key is skipped.
///
/// # Errors
///
/// If memory is refused.
pub fn keys_of(alloc: Global, capabilities: &[Capability]) -> Result<Items<CapKey>, AllocError>
    ensures { IfOk result (λ keys. keys ≡ keys_of capabilities.now) }
{
    // Most volumes have one capability.
    match capabilities {
        [capability] => key_alone(alloc, capability),
        _ => listed(alloc, key_set(alloc, capabilities)?),
    }
}

#[tactic(auto, using(crate::specs::facts::Capability::ordered_more, crate::specs::facts::Capability::keys_none))]
fn set_of(alloc: Global, keys: &[CapKey]) -> Result<BTreeSet<CapKey>, AllocError>
    ensures { IfOk result (λ set. set.keys ≡ ordered keys.now) }
{
    let mut set = BTreeSet::new(alloc);
    for key in keys {
        set.insert(copy_key(alloc, key)?)?;
    }
    Ok(set)
}

#[tactic(auto, using(crate::specs::facts::Capability::has_no_wider, crate::specs::facts::Capability::has_some))]
fn has_wider(keys: &BTreeSet<CapKey>, key: CapKey) -> bool
    ensures { result ≡ has_same keys.now.keys (wider_key key) }
{
    match wider_key(key) {
        Some(wider) => keys.contains(&wider),
        None => false,
    }
}

#[tactic(auto, using(crate::specs::facts::Capability::has_none, crate::specs::facts::Capability::has_some))]
fn has_key(
    alloc: Global,
    keys: &BTreeSet<CapKey>,
    capability: &Capability,
) -> Result<bool, AllocError>
    ensures { IfOk result (λ has. has ≡ has_key keys.now.keys (key_of capability.now)) }
{
    match cap_key(alloc, capability)? {
        Some(key) => Ok(keys.contains(&key) || has_wider(keys, key)),
        None => Ok(false),
    }
}

fn have_all(
    alloc: Global,
    keys: &BTreeSet<CapKey>,
    capabilities: &[Capability],
) -> Result<bool, AllocError>
    ensures { IfOk result (λ have. have ≡ have_keys keys.now.keys capabilities.now) }
{
    for capability in capabilities {
        if !has_key(alloc, keys, capability)? {
            return Ok(false);
        }
    }
    Ok(true)
}

// Returns true if `keys` has the key of the capability or its wider key. The keys are few, so they are
// compared one by one, without a set.
#[tactic(auto, using(crate::specs::facts::Capability::has_none))]
fn few_have_key(alloc: Global, keys: &[CapKey], capability: &Capability) -> Result<bool, AllocError>
    ensures { IfOk result (λ has. has ≡ has_key keys.now (key_of capability.now)) }
{
    match cap_key(alloc, capability)? {
        Some(key) => Ok(is_had(keys, &key)),
        None => Ok(false),
    }
}

fn few_have(alloc: Global, keys: &[CapKey], capabilities: &[Capability]) -> Result<bool, AllocError>
    ensures { IfOk result (λ have. have ≡ have_keys keys.now capabilities.now) }
{
    for capability in capabilities {
        if !few_have_key(alloc, keys, capability)? {
            return Ok(false);
        }
    }
    Ok(true)
}

/// Returns true if, for each capability, `keys` contains the capability's key or the wider key
/// (`csi_keeper::wider_key`). The keys may be in any order. Takes O((n + m) log m) time for n capabilities
/// and m keys.
///
/// # Errors
///
/// If memory is refused.
#[tactic(auto, using(crate::specs::facts::Capability::have_ordered))]
pub fn have_keys(
    alloc: Global,
    keys: &[CapKey],
    capabilities: &[Capability],
) -> Result<bool, AllocError>
    ensures { IfOk result (λ have. have ≡ have_keys keys.now capabilities.now) }
{
    if keys.len() <= FEW_KEYS {
        return few_have(alloc, keys, capabilities);
    }
    let keys = set_of(alloc, keys)?;
    have_all(alloc, &keys, capabilities)
}

//! Decodes capabilities and parameters, but only from canonical bytes. Bytes are canonical if encoding the
//! decoded value gives the same bytes. For all other bytes the functions return `None`, even if a decoder
//! would accept the bytes.

ghost use Rattle.std.specs.Prelude.{◌≡◌, ◌^◌, ◌-◌, ◌∷◌, [], min, Some, Ok, IfOk, IfSome, OnErr, OnOk, bytes_eq, map};
ghost use Rattle.std.specs.List.{list_all};
ghost use Rattle.csi_types.specs.Checks.{map_bytes};
ghost use Rattle.csi_types.specs.declared.method.Method.TheVariants.{CreateVolume as Creating};
ghost use Rattle.csi_codec.specs.Reading.{read_request};
ghost use Rattle.csi_keeper.specs.Capability.{is_supported_key};
ghost use Rattle.csi_columns.specs.Encoding.{caps_bytes, params_bytes, FitCaps, FitParams};
ghost use Rattle.csi_sql.specs.Folding.{FailsForMemory};
ghost use Rattle.csi_constraints.specs.Values.{if_passes};
ghost use Rattle.csi_constraints.specs.Coding.{MeansMessage, are_keys, are_params, is_small, each_key, is_before, key_in, keys_in, message_in, only, params_in, rise};

use csi_codec::decode_create;
use csi_columns::{write_caps, write_params};
use csi_keeper::{CapKey, cap_key, supported};
use csi_sql::FIRST_FORMAT;
use csi_types::{Capability, CreateVolume, Items, MAX_MAP_BYTES, Map, map_bytes};
use pbmessage::DecodeFault;
use sqlite::{Error, ErrorCode};
use std::alloc::{AllocError, Global};
use std::cmp::Ordering;

// ---- decoding

fn message_in(alloc: Global, bytes: &[u8]) -> Result<Option<CreateVolume>, Error>
    ensures value { IfOk result (λ message. message ≡ message_in bytes.now) }
    ensures memory { FailsForMemory result }
    ensures error_only_if { OnErr result (MeansMessage bytes.now) }
{
    match decode_create(alloc, bytes) {
        Ok(message) => Ok(Some(message)),
        Err(DecodeFault::Malformed { .. }) => Ok(None),
        Err(DecodeFault::NoMemory) => Err(Error::SqliteFailure(ErrorCode::OutOfMemory)),
    }
}

fn each_key(alloc: Global, capabilities: &[Capability]) -> Result<Option<Items<CapKey>>, Error>
    ensures value { IfOk result (λ keys. keys ≡ each_key capabilities.now) }
    ensures memory { FailsForMemory result }
{
    let mut keys = Items::new(alloc);
    for capability in capabilities {
        let Some(key) = cap_key(alloc, capability)? else {
            return Ok(None);
        };
        keys.push(key)?;
    }
    Ok(Some(keys))
}

// ---- comparing with the canonical bytes

fn are_caps(alloc: Global, keys: &[CapKey], bytes: &[u8]) -> Result<bool, AllocError>
    ensures value { IfOk result (λ same. same ≡ bytes_eq (caps_bytes keys.now) bytes.now) }
    ensures fits { OnOk result (FitCaps keys.now) }
{
    Ok(write_caps(alloc, keys)?.as_slice() == bytes)
}

fn are_params_of(
    alloc: Global,
    params: &Map,
    mutable: &Map,
    bytes: &[u8],
) -> Result<bool, AllocError>
    ensures value { IfOk result (λ same. same ≡ bytes_eq (params_bytes params.now mutable.now) bytes.now) }
    ensures fits { OnOk result (FitParams params.now mutable.now) }
{
    Ok(write_params(alloc, params, mutable)?.as_slice() == bytes)
}

// ---- decoding canonical bytes

/// Decodes capability keys. Returns `None` if `bytes` are not the canonical bytes of capabilities.
///
/// # Errors
///
/// If memory is refused.
pub(crate) fn keys_in(alloc: Global, bytes: &[u8]) -> Result<Option<Items<CapKey>>, Error>
    ensures value { IfOk result (λ keys. keys ≡ keys_in bytes.now) }
    ensures fits { IfOk result (λ keys. IfSome keys FitCaps) }
    ensures memory { FailsForMemory result }
    ensures error_only_if { OnErr result (MeansMessage bytes.now) }
{
    match message_in(alloc, bytes)? {
        Some(message) => keys_of(alloc, message.capabilities.as_slice(), bytes),
        None => Ok(None),
    }
}

// Returns the keys of the capabilities, or `None` if `bytes` are not the canonical bytes of these keys.
fn keys_of(
    alloc: Global,
    capabilities: &[Capability],
    bytes: &[u8],
) -> Result<Option<Items<CapKey>>, Error>
    ensures value { IfOk result (λ keys. keys
        ≡ if_passes (λ ks. bytes_eq (caps_bytes ks) bytes.now) (each_key capabilities.now)) }
    ensures fits { IfOk result (λ keys. IfSome keys FitCaps) }
    ensures memory { FailsForMemory result }
{
    let Some(keys) = each_key(alloc, capabilities)? else {
        return Ok(None);
    };
    if are_caps(alloc, keys.as_slice(), bytes)? {
        Ok(Some(keys))
    } else {
        Ok(None)
    }
}

// Returns the only key of a list, or `None` if the list has no key or several.
fn only(keys: Items<CapKey>) -> Option<CapKey>
    ensures { result ≡ only keys }
{
    let mut keys = keys.into_vec();
    if keys.len() == 1 { keys.pop() } else { None }
}

/// Decodes one capability key. Returns `None` if `bytes` are not the canonical bytes of exactly one key.
///
/// # Errors
///
/// If memory is refused.
pub(crate) fn key_in(alloc: Global, bytes: &[u8]) -> Result<Option<CapKey>, Error>
    ensures value { IfOk result (λ key. key ≡ key_in bytes.now) }
    ensures fits { IfOk result (λ key. IfSome key (λ k. FitCaps (k ∷ []))) }
    ensures memory { FailsForMemory result }
    ensures error_only_if { OnErr result (MeansMessage bytes.now) }
{
    match keys_in(alloc, bytes)? {
        Some(keys) => Ok(only(keys)),
        None => Ok(None),
    }
}

/// Decodes parameters and mutable parameters. Returns `None` if `bytes` are not the canonical bytes of such
/// parameters.
///
/// # Errors
///
/// If memory is refused.
pub(crate) fn params_in(alloc: Global, bytes: &[u8]) -> Result<Option<(Map, Map)>, Error>
    ensures value { IfOk result (λ params. params ≡ params_in bytes.now) }
    ensures fits { IfOk result (λ params. IfSome params (λ ms. FitParams ms.0 ms.1)) }
    ensures memory { FailsForMemory result }
    ensures error_only_if { OnErr result (MeansMessage bytes.now) }
{
    let Some(message) = message_in(alloc, bytes)? else {
        return Ok(None);
    };
    let CreateVolume {
        parameters,
        mutable,
        ..
    } = message;
    if are_params_of(alloc, &parameters, &mutable, bytes)? {
        Ok(Some((parameters, mutable)))
    } else {
        Ok(None)
    }
}

// ---- constraints on the decoded values

fn is_before(one: &CapKey, next: &CapKey) -> bool
    ensures { result ≡ is_before one.now next.now }
{
    matches!(one.cmp(next), Ordering::Less)
}

fn rise(keys: &[CapKey]) -> bool
    ensures { result ≡ rise keys.now }
{
    for at in 1..keys.len() {
        if !is_before(&keys[at - 1], &keys[at]) {
            return false;
        }
    }
    true
}

fn all_supported(keys: &[CapKey]) -> bool
    ensures { result ≡ list_all is_supported_key keys.now }
{
    keys.iter().all(|key| supported(key))
}

/// Returns true if the list has at least one key, the keys rise without duplicates, and each key is
/// supported.
pub(crate) fn are_keys(keys: &[CapKey]) -> bool
    ensures { result ≡ are_keys keys.now }
{
    !keys.is_empty() && rise(keys) && all_supported(keys)
}

fn is_small(map: &Map) -> bool
    ensures { result ≡ is_small map.now }
{
    map_bytes(map) <= MAX_MAP_BYTES
}

/// Returns true if the parameters and the mutable parameters have at most 4,096 bytes each. In tables of
/// format 1 no parameters may be mutable.
pub(crate) fn are_params(format: u32, params: &Map, mutable: &Map) -> bool
    ensures { result ≡ are_params format (params.now, mutable.now) }
{
    is_small(params) && is_small(mutable) && (format != FIRST_FORMAT || mutable.is_empty())
}

//! Decodes the capabilities and parameters in a column. The functions also fail if memory is refused.

ghost use Rattle.std.specs.Prelude.{◌≡◌, ◌≢◌, List, Some, Ok, IfOk, IsErrOf, map};
ghost use Rattle.csi_types.specs.Maps.{TextMap};
ghost use Rattle.csi_types.specs.declared.method.Method.TheVariants.{CreateVolume as Creating};
ghost use Rattle.csi_types.specs.declared.requests.CreateVolume.{CreateVolume as Message};
ghost use Rattle.csi_types.specs.declared.requests.Request.TheVariants.{Create};
ghost use Rattle.csi_codec.specs.Reading.{read_request};
ghost use Rattle.csi_keeper.specs.Capability.{key_of};
ghost use Rattle.csi_keeper.specs.declared.capability.CapKey.{CapKey as Key};
ghost use Rattle.csi_columns.specs.Encoding.{caps_bytes, params_bytes, AreKnown, FitCaps, FitParams};
ghost use Rattle.csi_tables.specs.Reading.{AreKeysOf, AreParamsOf};
ghost use Rattle.csi_tables.specs.declared.fault.TablesFault.TheVariants.{Refused};

use crate::fault::TablesError;
use csi_codec::decode_create;
use csi_columns::laws::read_back;
use csi_keeper::{CapKey, cap_key};
use csi_types::{Capability, CreateVolume, Items, Map};
use std::alloc::Global;

fn read(alloc: Global, bytes: &[u8]) -> Result<CreateVolume, TablesError>
    ensures ok { IfOk result (λ message. read_request Creating bytes.now ≡ Ok (Create message)) }
    ensures refused { IsErrOf result Refused → (m : Message)
        → read_request Creating bytes.now ≢ Ok (Create m) }
{
    Ok(decode_create(alloc, bytes)?)
}

fn keys_of(alloc: Global, capabilities: &[Capability]) -> Result<Items<CapKey>, TablesError>
    ensures ok { IfOk result (λ keys. map Some keys ≡ map key_of capabilities.now) }
    ensures refused { IsErrOf result Refused → (ks : List Key) → map Some ks ≢ map key_of capabilities.now }
{
    let mut keys = Items::with_room(alloc, capabilities.len())?;
    for capability in capabilities {
        let Some(key) = cap_key(alloc, capability)? else {
            return Err(TablesError::refused());
        };
        keys.push(key)?;
    }
    Ok(keys)
}

/// Decodes the capability keys in the bytes of the column `caps`. Fails with `Refused` if the bytes are not
/// an encoding of capability keys.
pub(crate) fn read_caps(alloc: Global, bytes: &[u8]) -> Result<Items<CapKey>, TablesError>
    ensures ok { IfOk result (λ keys. (ks : List Key) → FitCaps ks → bytes.now ≡ caps_bytes ks → keys ≡ ks) }
    ensures refused { IsErrOf result Refused → (ks : List Key) → FitCaps ks → AreKnown ks
        → bytes.now ≢ caps_bytes ks }
    ensures exact { IfOk result (λ keys. AreKeysOf bytes.now keys) }
    ensures unread { IsErrOf result Refused → (ks : List Key) → AreKeysOf bytes.now ks → ⊥ }
{
    read_back();
    let message = read(alloc, bytes)?;
    keys_of(alloc, message.capabilities.as_slice())
}

/// Decodes the parameters and the mutable parameters in the bytes of the column `params`. Fails with
/// `Refused` if the bytes are not an encoding of parameters.
pub(crate) fn read_params(alloc: Global, bytes: &[u8]) -> Result<(Map, Map), TablesError>
    ensures ok { IfOk result (λ read. (p m : TextMap) → FitParams p m → bytes.now ≡ params_bytes p m
        → read ≡ (p, m)) }
    ensures refused { IsErrOf result Refused → (p m : TextMap) → FitParams p m
        → bytes.now ≢ params_bytes p m }
    ensures exact { IfOk result (λ read. AreParamsOf bytes.now read) }
    ensures unread { IsErrOf result Refused → (params : TextMap × TextMap) → AreParamsOf bytes.now params
        → ⊥ }
{
    read_back();
    if bytes.is_empty() {
        return Ok((Map::new(alloc), Map::new(alloc)));
    }
    let message = read(alloc, bytes)?;
    Ok((message.parameters, message.mutable))
}

//! Plans ValidateVolumeCapabilities: confirms capabilities and parameters of a volume (CSI specification,
//! 'ValidateVolumeCapabilities').

ghost use Rattle.std.specs.Prelude.{◌≡◌, ◌&&◌, ◌||◌, ◌==◌, Ok, None, IfOk, IfSome};
ghost use Rattle.std.specs.FinMap.{len};
ghost use Rattle.csi_types.specs.Maps.{same_map};
ghost use Rattle.csi_types.specs.declared.reason.Reason.TheVariants.{VolumeNotFound};
ghost use Rattle.csi_keeper.specs.Capability.{have_keys};
ghost use Rattle.csi_keeper.specs.State.{IsBounded};
ghost use Rattle.csi_rules.specs.Finding.{Finds};
ghost use Rattle.csi_rules.specs.Ids.{number_of_id};
ghost use Rattle.csi_machine.specs.Plan.{refuse};
ghost use Rattle.csi_machine.specs.Validate.{confirm, deny, validate_volume, validate};

use crate::plan::{Plan, Planning, refuse, respond};
use crate::response::PlannedResponse;
use csi_keeper::{Keeper, Volume};
use csi_rules::{have_keys, volume_of};
use csi_types::{
    Capability, Confirmed, Items, Map, Reason, Response, Text, Validate, copy_capability, copy_map,
    copy_text,
};
use std::alloc::{AllocError, Global};

fn copy_capabilities(
    alloc: Global,
    capabilities: &Items<Capability>,
) -> Result<Items<Capability>, AllocError>
    ensures { IfOk result (λ copy. copy ≡ capabilities.now) }
{
    let mut copies = Items::new(alloc);
    for capability in capabilities.as_slice() {
        copies.push(copy_capability(alloc, capability)?)?;
    }
    Ok(copies)
}

fn confirm(alloc: Global, request: &Validate) -> Result<Plan, AllocError>
    ensures none { IfOk result (λ p. p.change ≡ None) }
    ensures value { IfOk result (λ p. p ≡ confirm request.now) }
{
    let confirmed = Confirmed {
        context: Map::new(alloc),
        capabilities: copy_capabilities(alloc, &request.capabilities)?,
        parameters: copy_map(alloc, &request.parameters)?,
    };
    Ok(respond(PlannedResponse::of(
        alloc,
        Response::Validate {
            confirmed: Some(confirmed),
            message: Text::new(alloc),
        },
    )?))
}

fn deny(alloc: Global) -> Result<Plan, AllocError>
    ensures none { IfOk result (λ p. p.change ≡ None) }
    ensures value { IfOk result (λ p. p ≡ deny) }
{
    let message = copy_text(alloc, "capabilities or parameters are not supported")?;
    Ok(respond(PlannedResponse::of(
        alloc,
        Response::Validate {
            confirmed: None,
            message,
        },
    )?))
}

fn is_valid(alloc: Global, volume: &Volume, request: &Validate) -> Result<bool, AllocError>
    ensures { IfOk result (λ is. is ≡ (have_keys volume.now.caps request.now.capabilities &&
        (len request.now.parameters == 0 || same_map volume.now.params request.now.parameters))) }
{
    let have = have_keys(
        alloc,
        volume.caps.as_slice(),
        request.capabilities.as_slice(),
    )?;
    Ok(have && (request.parameters.is_empty() || volume.params == request.parameters))
}

fn validate_volume(alloc: Global, request: &Validate, volume: &Volume) -> Result<Plan, AllocError>
    ensures value { IfOk result (λ p. p ≡ validate_volume request.now volume.now) }
    ensures none { IfOk result (λ p. p.change ≡ None) }
{
    if is_valid(alloc, volume, request)? {
        confirm(alloc, request)
    } else {
        deny(alloc)
    }
}

/// Plans ValidateVolumeCapabilities, by reads of the keeper alone.
///
/// The answer confirms the capabilities and the parameters of the request if both of these hold:
///
/// - the volume has the key of each capability, or the wider key (`csi_keeper::wider_key`)
/// - the parameters of the request are empty or equal the parameters of the volume
///
/// The request is refused if no volume has the id. The plan changes nothing. If the id does not have the form
/// of a volume id, the keeper is not called.
///
/// # Errors
///
/// Returns the fault of the keeper, or `StoreFault::NoMemory` if memory is refused.
#[tactic(auto, using(csi_keeper::specs::facts::Reads::quiet_same, csi_keeper::specs::facts::Reads::quiet_then))]
pub(crate) fn plan_validate<K: Keeper>(
    alloc: Global,
    keeper: &mut K,
    request: &Validate,
) -> Planning
    ensures none { IfOk result (λ p. p.change ≡ None) }
    ensures bounded { IfOk result (λ p. IfSome p.change IsBounded) }
    ensures finds { Finds (K.model keeper.old) (K.model keeper.new) result
        (λ s p. p ≡ validate s request.now) }
    ensures asks_nothing { number_of_id request.now.volume_id ≡ None → (keeper.new ≡ keeper.old)
        × (result ≡ Ok (refuse VolumeNotFound)) }
{
    let Some((_, volume)) = volume_of(alloc, keeper, &request.volume_id)? else {
        return Ok(refuse(Reason::VolumeNotFound));
    };
    Ok(validate_volume(alloc, request, &volume)?)
}

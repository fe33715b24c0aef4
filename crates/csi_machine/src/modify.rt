//! Plans ControllerModifyVolume: changes the mutable parameters of a volume (CSI specification,
//! 'ControllerModifyVolume').

ghost use Rattle.std.specs.Prelude.{◌≡◌, nat_lt, Ok, None, IfOk, IfSome};
ghost use Rattle.csi_types.specs.Checks.{map_bytes};
ghost use Rattle.csi_types.specs.declared.reason.Reason.TheVariants.{VolumeNotFound};
ghost use Rattle.csi_keeper.specs.State.{IsBounded};
ghost use Rattle.csi_rules.specs.Finding.{Finds};
ghost use Rattle.csi_rules.specs.Ids.{number_of_id};
ghost use Rattle.csi_machine.specs.Modify.{modify_own, modify};
ghost use Rattle.csi_machine.specs.Plan.{refuse};

use crate::plan::{Plan, Planning, make, refuse, respond};
use crate::response::PlannedResponse;
use csi_keeper::{Change, Keeper};
use csi_rules::volume_of;
use csi_types::{MAX_MAP_BYTES, Map, Modify, Reason, has_each, laid_over, map_bytes};
use std::alloc::{AllocError, Global};

fn is_large(map: &Map) -> bool
    ensures { result ≡ nat_lt MAX_MAP_BYTES (map_bytes map.now) }
{
    map_bytes(map) > MAX_MAP_BYTES
}

// Plans ControllerModifyVolume for a volume whose mutable parameters are `own`. If the volume already has
// each given parameter, the plan changes nothing.
fn modify_own(alloc: Global, number: u64, own: &Map, given: &Map) -> Result<Plan, AllocError>
    ensures bounded { IfOk result (λ p. IfSome p.change IsBounded) }
    ensures value { IfOk result (λ p. p ≡ modify_own number own.now given.now) }
{
    let laid = laid_over(alloc, own, given)?;
    if is_large(&laid) {
        return Ok(refuse(Reason::MutableTooLarge));
    }
    if has_each(own, given) {
        return Ok(respond(PlannedResponse::modified()));
    }
    make(
        alloc,
        PlannedResponse::modified(),
        Change::SetMutable(number, laid),
    )
}

/// Plans ControllerModifyVolume, by reads of the keeper alone.
///
/// Each given parameter is added to the volume's mutable parameters, or replaces the value under its key. It
/// does not matter if the volume is published. The request is refused if no volume has the id, or if the
/// result has more than 4,096 bytes. If the volume already has each given parameter, nothing changes. If the
/// id does not have the form of a volume id, the keeper is not called.
///
/// # Errors
///
/// Returns the fault of the keeper, or `StoreFault::NoMemory` if memory is refused.
#[tactic(auto, using(csi_keeper::specs::facts::Reads::quiet_same, csi_keeper::specs::facts::Reads::quiet_then))]
pub(crate) fn plan_modify<K: Keeper>(alloc: Global, keeper: &mut K, request: &Modify) -> Planning
    ensures bounded { IfOk result (λ p. IfSome p.change IsBounded) }
    ensures finds { Finds (K.model keeper.old) (K.model keeper.new) result (λ s p. p ≡ modify s request.now) }
    ensures asks_nothing { number_of_id request.now.volume_id ≡ None → (keeper.new ≡ keeper.old)
        × (result ≡ Ok (refuse VolumeNotFound)) }
{
    let Some((number, volume)) = volume_of(alloc, keeper, &request.volume_id)? else {
        return Ok(refuse(Reason::VolumeNotFound));
    };
    Ok(modify_own(alloc, number, &volume.mutable, &request.mutable)?)
}

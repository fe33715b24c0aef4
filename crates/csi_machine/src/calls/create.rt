//! Plans CreateVolume: an existing volume, a new volume or a refusal (CSI specification, 'CreateVolume').

ghost use Rattle.std.specs.Prelude.{◌≡◌, Some, None, IfOk, IfSome, map};
ghost use Rattle.std.specs.Option.{option_copied};
ghost use Rattle.csi_rules.specs.Finding.{Finds};
ghost use Rattle.csi_rules.specs.Choice.{room_value, rooms};
ghost use Rattle.csi_keeper.specs.State.{IsBounded};
ghost use Rattle.std.specs.FinMap.{empty};
ghost use Rattle.csi_machine.specs.Creation.{plan_of};
ghost use Rattle.csi_machine.specs.calls.Create.{is_compatible, again, made, place_in, place, fresh, create};

use crate::creation::Creation;
use csi_config::laws::sizes_whole;
use csi_config::{Config, Pool};
use csi_keeper::{Keeper, StoreFault, Volume};
use csi_rules::{
    Room, choose, count, has_size, have_keys, is_reachable, keys_of, read_rooms, segments_at, size,
};
use csi_types::{
    CreateVolume, MAX_NUMBER, MAX_VOLUMES, Map, Reason, copy_map, copy_text, has_each,
};
use std::alloc::{AllocError, Global};

// Returns true if an existing volume, whose pool has these segments, is compatible with the request: the pool
// serves a requisite topology if one is given, the size is within the range, the volume has each capability,
// its parameters are equal, and it has each mutable parameter of the request.
fn is_compatible(
    alloc: Global,
    segments: &Map,
    volume: &Volume,
    request: &CreateVolume,
) -> Result<bool, AllocError>
    ensures { IfOk result (λ is. is ≡ is_compatible segments.now volume.now request.now) }
{
    let have = have_keys(
        alloc,
        volume.caps.as_slice(),
        request.capabilities.as_slice(),
    )?;
    Ok(
        is_reachable(segments, &request.topology)
            && has_size(volume.bytes, &request.range)
            && have
            && volume.params == request.parameters
            && has_each(&volume.mutable, &request.mutable),
    )
}

// Plans CreateVolume if a volume with this name exists.
fn again<'a>(
    alloc: Global,
    config: &'a Config,
    no_segments: &'a Map,
    request: &CreateVolume,
    volume: Volume,
) -> Result<Creation<'a>, AllocError>
    requires { no_segments.now ≡ empty }
    ensures value { IfOk result (λ creation. plan_of creation ≡ again config.now request.now volume) }
    ensures none { IfOk result (λ creation. (plan_of creation).change ≡ None) }
{
    let segments = segments_at(config, &volume.pool, no_segments);
    if !is_compatible(alloc, segments, &volume, request)? {
        return Ok(Creation::Refused(Reason::VolumeNotCompatible));
    }
    Ok(Creation::Existing(volume, segments))
}

fn made(
    alloc: Global,
    request: &CreateVolume,
    number: u64,
    bytes: u64,
    pool: &Pool,
) -> Result<Volume, AllocError>
    ensures { IfOk result (λ volume. volume ≡ made request.now number bytes pool.now) }
{
    Ok(Volume {
        number,
        name: copy_text(alloc, request.name.as_str())?,
        bytes,
        pool: copy_text(alloc, pool.name.as_str())?,
        caps: keys_of(alloc, request.capabilities.as_slice())?,
        params: copy_map(alloc, &request.parameters)?,
        mutable: copy_map(alloc, &request.mutable)?,
    })
}

fn place_in<'a>(
    alloc: Global,
    request: &CreateVolume,
    number: u64,
    bytes: u64,
    pool: Option<&'a Pool>,
) -> Result<Creation<'a>, AllocError>
    ensures { IfOk result (λ creation. plan_of creation
        ≡ place_in request.now number bytes (option_copied pool.entry)) }
{
    let Some(pool) = pool else {
        return Ok(Creation::Refused(Reason::NoRoom));
    };
    let volume = made(alloc, request, number, bytes, pool)?;
    Ok(Creation::Made(volume, &pool.segments))
}

fn place<'a>(
    alloc: Global,
    rooms: &[Room<'a>],
    next: u64,
    request: &CreateVolume,
    bytes: u64,
) -> Result<Creation<'a>, AllocError>
    ensures { IfOk result (λ creation. plan_of creation
        ≡ place (map room_value rooms.now) next request.now (Some bytes)) }
{
    if count(rooms) >= MAX_VOLUMES {
        return Ok(Creation::Refused(Reason::TooManyVolumes));
    }
    if next >= MAX_NUMBER {
        return Ok(Creation::Refused(Reason::NumbersUsedUp));
    }
    let pool = choose(alloc, rooms, &request.topology, bytes);
    place_in(alloc, request, next, bytes, pool)
}

// Plans CreateVolume if no volume has this name.
#[tactic(auto, using(crate::proofs::CreateLemmas::fresh_bounded))]
fn fresh<'a>(
    alloc: Global,
    config: &Config,
    rooms: &[Room<'a>],
    next: u64,
    request: &CreateVolume,
) -> Result<Creation<'a>, AllocError>
    ensures bounded { IfOk result (λ creation. IfSome (plan_of creation).change IsBounded) }
    ensures value { IfOk result (λ creation. plan_of creation
        ≡ fresh config.now (map room_value rooms.now) next request.now) }
{
    sizes_whole(config);
    match size(config.sizes(), &request.range) {
        Some(bytes) => place(alloc, rooms, next, request, bytes),
        None => Ok(Creation::Refused(Reason::OutOfRange)),
    }
}

fn create_fresh<'a, K: Keeper>(
    alloc: Global,
    config: &'a Config,
    keeper: &mut K,
    request: &CreateVolume,
) -> Result<Creation<'a>, StoreFault>
    ensures bounded { IfOk result (λ creation. IfSome (plan_of creation).change IsBounded) }
    ensures finds { Finds (K.model keeper.old) (K.model keeper.new) result
        (λ s creation. plan_of creation ≡ fresh config.now (rooms config.now s) s.next request.now) }
{
    let rooms = read_rooms(alloc, config, keeper)?;
    let next = keeper.next_number()?;
    Ok(fresh(alloc, config, &rooms, next, request)?)
}

/// Plans CreateVolume, by reads of the keeper alone. `no_segments` must be an empty map. It is used as the
/// segments of a pool that the configuration lacks.
///
/// If a volume with this name exists and is compatible with the request, the answer is that volume. If it
/// exists and is not compatible, the request is refused. If no volume has the name, the plan creates a volume
/// in the chosen pool.
///
/// A new volume is refused in the first of these cases that applies: the size is out of range, there are
/// 100,000 volumes, the numbers are used up, or no pool has room.
///
/// # Errors
///
/// Returns the fault of the keeper, or `StoreFault::NoMemory` if memory is refused.
pub(crate) fn create<'a, K: Keeper>(
    alloc: Global,
    config: &'a Config,
    no_segments: &'a Map,
    keeper: &mut K,
    request: &CreateVolume,
) -> Result<Creation<'a>, StoreFault>
    requires { no_segments.now ≡ empty }
    ensures bounded { IfOk result (λ creation. IfSome (plan_of creation).change IsBounded) }
    ensures finds { Finds (K.model keeper.old) (K.model keeper.new) result
        (λ s creation. plan_of creation ≡ create config.now s request.now) }
{
    if let Some(volume) = keeper.by_name(alloc, request.name.as_str())? {
        return Ok(again(alloc, config, no_segments, request, volume)?);
    }
    create_fresh(alloc, config, keeper, request)
}

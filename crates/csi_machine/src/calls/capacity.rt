//! Plans GetCapacity: how many bytes new volumes can take (CSI specification, 'GetCapacity').

ghost use Rattle.std.specs.Prelude.{◌≡◌, ◌≤◌, ◌^◌, None, IfOk, map, sum_by};
ghost use Rattle.std.specs.List.{list_all};
ghost use Rattle.csi_types.specs.Checks.{is_supported};
ghost use Rattle.csi_rules.specs.Choice.{room_value, free};
ghost use Rattle.csi_keeper.specs.State.{up_to_u64};
ghost use Rattle.csi_machine.specs.calls.Capacity.{is_served, served, greatest, report_capacity, capacity_of, capacity};

use crate::plan::{Plan, Planning, respond};
use crate::planned::Planned;
use crate::response::PlannedResponse;
use csi_config::Config;
use csi_config::laws::{pool_bytes_whole, sizes_whole};
use csi_keeper::Keeper;
use csi_rules::{Room, read_rooms, serves};
use csi_types::{Capability, GetCapacity, Map, Response, is_supported};
use std::alloc::{AllocError, Global};

fn all_supported(capabilities: &[Capability]) -> bool
    ensures { result ≡ list_all is_supported capabilities.now }
{
    capabilities
        .iter()
        .all(|capability| is_supported(capability))
}

fn is_served(topology: &Option<Map>, room: &Room<'_>) -> bool
    ensures { result ≡ is_served topology.now (room_value room.now) }
{
    match topology {
        Some(term) => serves(&room.pool.segments, term),
        None => true,
    }
}

// Returns two numbers for the pools that serve the topology, or for all pools if it is `None`: the sum of
// their free bytes (at most 2^64 - 1), and the greatest number of free bytes in one pool.
fn free_in(rooms: &[Room<'_>], topology: &Option<Map>) -> (u64, u64)
    ensures sum { result.0 ≡ up_to_u64 (sum_by free (served (map room_value rooms.now) topology.now)) }
    ensures greatest { result.1 ≡ greatest (map free (served (map room_value rooms.now) topology.now)) }
{
    let mut sum: u64 = 0;
    let mut greatest: u64 = 0;
    for room in rooms {
        if is_served(topology, room) {
            let free = room.free();
            sum = sum.saturating_add(free);
            greatest = greatest.max(free);
        }
    }
    (sum, greatest)
}

fn report_capacity(alloc: Global, available: u64, maximum: u64) -> Result<Plan, AllocError>
    requires available { available ≤ 2 ^ 62 }
    requires maximum { maximum ≤ 2 ^ 62 }
    ensures { IfOk result (λ p. p ≡ report_capacity available maximum) }
{
    Ok(respond(PlannedResponse::of(
        alloc,
        Response::Capacity {
            available: available as i64,
            maximum: Some(maximum as i64),
        },
    )?))
}

#[tactic(auto, using(crate::proofs::CapacityLemmas::sum_small, crate::proofs::CapacityLemmas::served_reported))]
fn capacity_of(
    alloc: Global,
    config: &Config,
    rooms: &[Room<'_>],
    request: &GetCapacity,
) -> Result<Plan, AllocError>
    requires { sum_by free (map room_value rooms.now) ≤ 2 ^ 62 }
    ensures value { IfOk result (λ p. p ≡ capacity_of config.now (map room_value rooms.now) request.now) }
    ensures none { IfOk result (λ p. p.change ≡ None) }
{
    sizes_whole(config);
    if !all_supported(request.capabilities.as_slice()) {
        return report_capacity(alloc, 0, 0);
    }
    let (sum, greatest) = free_in(rooms, &request.topology);
    report_capacity(alloc, sum, config.sizes().greatest_bytes.min(greatest))
}

/// Plans GetCapacity. The answer is the free bytes of the pools that serve the topology, and the greatest
/// size that a volume can have in one of them. Without a topology, all pools count. Both numbers are 0 if a
/// capability is not supported.
impl Planned for GetCapacity {
    ghost planned = { capacity };

    ghost names_none = { λ r. ⊥ };

    fn plan<K: Keeper>(&self, alloc: Global, config: &Config, keeper: &mut K) -> Planning {
        pool_bytes_whole(config);
        let rooms = read_rooms(alloc, config, keeper)?;
        Ok(capacity_of(alloc, config, &rooms, self)?)
    }
}

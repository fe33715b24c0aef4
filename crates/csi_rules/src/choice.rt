//! Chooses the pool of a new volume.

ghost use Rattle.std.specs.Prelude.{◌≡◌, ◌&&◌, nat_le, Some, [], ◌∷◌, find, map, IfOk};
ghost use Rattle.std.specs.FinMap.{empty};
ghost use Rattle.std.specs.Option.{option_map};
ghost use Rattle.csi_rules.specs.Finding.{Finds};
ghost use Rattle.csi_rules.specs.Choice.{room_value, free, rooms, choice, count};
ghost use Rattle.csi_keeper.specs.Keeper.{Reads};
ghost use Rattle.csi_keeper.specs.State.{up_to_u64, used};
ghost use Rattle.csi_rules.specs.Topology.{serves, or_empty, terms};

use crate::topology::serves;
use csi_config::{Config, Pool};
use csi_keeper::{Keeper, StoreFault, Usage};
use csi_types::{Map, Requirement};
use std::alloc::Global;

/// A pool, with the number and the bytes of its volumes.
#[derive(Drop)]
pub struct Room<'a> {
    pub pool: &'a Pool,
    pub used: Usage,
}

impl Room<'_> {
    /// Returns the bytes of the pool that no volume uses, or 0 if its volumes use more bytes than the pool
    /// has.
    pub fn free(&self) -> u64
        ensures { result ≡ free (room_value self.now) }
    {
        self.pool.bytes.saturating_sub(self.used.bytes)
    }
}

// Reads the number and the bytes of a pool's volumes from the keeper.
#[inline(always)]
fn read_room<'a, K: Keeper>(keeper: &mut K, pool: &'a Pool) -> Result<Room<'a>, StoreFault>
    ensures pool { IfOk result (λ r. r.pool.now ≡ pool.now) }
    ensures reads { Reads (K.model keeper.old) (K.model keeper.new) result
        (λ s r. room_value r ≡ (pool.now, used s pool.now.name)) }
{
    let used = keeper.used_in(&pool.name)?;
    Ok(Room { pool, used })
}

/// Reads the number and the bytes of each pool's volumes from the keeper. The pools are in the order of the
/// configuration. Fails if the keeper fails or memory is refused.
#[tactic(auto, using(csi_keeper::specs::facts::Reads::quiet_same, csi_keeper::specs::facts::Reads::quiet_then))]
#[inline(always)]
pub fn read_rooms<'a, K: Keeper>(
    alloc: Global,
    config: &'a Config,
    keeper: &mut K,
) -> Result<Vec<Room<'a>>, StoreFault>
    ensures pools { IfOk result (λ rs. map (λ r. r.pool.now) rs.items ≡ config.now.pools) }
    ensures finds { Finds (K.model keeper.old) (K.model keeper.new) result
        (λ s rs. map room_value rs.items ≡ rooms config.now s) }
{
    let mut rooms = Vec::new(alloc);
    for pool in config.pools() {
        rooms.push(read_room(keeper, pool)?)?;
    }
    Ok(rooms)
}

/// Returns the number of volumes in all pools together, or 2^64 - 1 if there are more.
pub fn count(rooms: &[Room<'_>]) -> u64
    ensures { result ≡ up_to_u64 (count (map room_value rooms.now)) }
{
    let mut count: u64 = 0;
    for room in rooms {
        count = count.saturating_add(room.used.volumes);
    }
    count
}

fn fits(room: &Room<'_>, term: &Map, size: u64) -> bool
    ensures { result ≡ (serves (room_value room.now).0.segments term.now
        && nat_le size (free (room_value room.now))) }
{
    serves(&room.pool.segments, term) && size <= room.free()
}

// Returns the first pool in the order of the configuration that serves the term and has `size` free bytes, or
// `None` if no pool does.
fn first_for<'a>(rooms: &[Room<'a>], term: &Map, size: u64) -> Option<&'a Pool>
    ensures { option_map (λ p. p.now) result
        ≡ option_map (λ r. r.pool.now) (find
        (λ r. serves r.pool.now.segments term.now && nat_le size (free (room_value r))) rooms.now) }
{
    let room = rooms.iter().find(|room| fits(room, term, size))?;
    Some(room.pool)
}

#[tactic(auto, using(crate::specs::facts::Choice::choice_of_one))]
fn pool_for<'a>(rooms: &[Room<'a>], term: &Map, size: u64) -> Option<&'a Pool>
    ensures { option_map (λ p. p.now) result ≡ choice (map room_value rooms.now) (term.now ∷ []) size }
{
    first_for(rooms, term, size)
}

fn pool_among<'a>(rooms: &[Room<'a>], terms: &[Map], size: u64) -> Option<&'a Pool>
    ensures { option_map (λ p. p.now) result ≡ choice (map room_value rooms.now) terms.now size }
{
    for term in terms {
        if let Some(pool) = pool_for(rooms, term, size) {
            return Some(pool);
        }
    }
    None
}

fn pool_anywhere<'a>(alloc: Global, rooms: &[Room<'a>], size: u64) -> Option<&'a Pool>
    ensures { option_map (λ p. p.now) result ≡ choice (map room_value rooms.now) (empty ∷ []) size }
{
    let anywhere = Map::new(alloc);
    pool_for(rooms, &anywhere, size)
}

#[tactic(auto, using(crate::specs::facts::Choice::or_empty_none, crate::specs::facts::Choice::or_empty_some))]
fn pool_requisite<'a>(
    alloc: Global,
    rooms: &[Room<'a>],
    requisite: &[Map],
    size: u64,
) -> Option<&'a Pool>
    ensures { option_map (λ p. p.now) result
        ≡ choice (map room_value rooms.now) (or_empty requisite.now) size }
{
    if requisite.is_empty() {
        pool_anywhere(alloc, rooms, size)
    } else {
        pool_among(rooms, requisite, size)
    }
}

#[tactic(auto, using(crate::specs::facts::Choice::choice_first, crate::specs::facts::Choice::choice_second))]
fn pool_by<'a>(
    alloc: Global,
    rooms: &[Room<'a>],
    wanted: &Requirement,
    size: u64,
) -> Option<&'a Pool>
    ensures { option_map (λ p. p.now) result
        ≡ choice (map room_value rooms.now) (terms (Some wanted.now)) size }
{
    if let Some(pool) = pool_among(rooms, wanted.preferred.as_slice(), size) {
        return Some(pool);
    }
    pool_requisite(alloc, rooms, wanted.requisite.as_slice(), size)
}

/// Chooses the pool of a new volume of `size` bytes. The preferred topologies are tried first and then the
/// requisite topologies, both in the order of the request. For each topology, the pools are tried in the
/// order of the configuration. The first pool that serves the topology and has room is chosen.
///
/// If the request has no requisite topology, and no pool is found for a preferred topology, the first pool of
/// the configuration that has room is chosen. Returns `None` if no pool is found in this way.
pub fn choose<'a>(
    alloc: Global,
    rooms: &[Room<'a>],
    topology: &Option<Requirement>,
    size: u64,
) -> Option<&'a Pool>
    ensures { option_map (λ p. p.now) result ≡ choice (map room_value rooms.now) (terms topology.now) size }
{
    match topology {
        Some(wanted) => pool_by(alloc, rooms, wanted, size),
        None => pool_anywhere(alloc, rooms, size),
    }
}

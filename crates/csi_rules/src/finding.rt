//! Finds the volume that a request names.

ghost use Rattle.std.specs.Prelude.{◌≡◌, Ok, None};
ghost use Rattle.csi_rules.specs.Finding.{Finds, caps_at, number_at, volume_at};
ghost use Rattle.csi_rules.specs.Ids.{number_of_id};

use crate::ids::number_of_id;
use csi_keeper::{CapKey, Keeper, StoreFault, Volume};
use csi_types::{Items, Text};
use std::alloc::Global;

/// Returns the number of the volume with this id, and the volume, or `None` if no volume has the id. If `id`
/// does not have the form of a volume id, the keeper is not called.
///
/// # Errors
///
/// Returns the error of the keeper.
#[tactic(auto, using(csi_keeper::specs::facts::Reads::quiet_same, csi_keeper::specs::facts::Reads::quiet_then))]
pub fn volume_of<K: Keeper>(
    alloc: Global,
    keeper: &mut K,
    id: &Text,
) -> Result<Option<(u64, Volume)>, StoreFault>
    ensures asks_nothing { number_of_id id.now ≡ None → (keeper.new ≡ keeper.old) × (result ≡ Ok None) }
    ensures finds { Finds (K.model keeper.old) (K.model keeper.new) result
        (λ s found. found ≡ volume_at s (number_of_id id.now)) }
{
    let Some(number) = number_of_id(id.as_str()) else {
        return Ok(None);
    };
    match keeper.by_number(alloc, number)? {
        Some(volume) => Ok(Some((number, volume))),
        None => Ok(None),
    }
}

/// Returns the number and the capability keys of the volume with this id, or `None` if no volume has the id.
/// If `id` does not have the form of a volume id, the keeper is not called.
///
/// # Errors
///
/// Returns the error of the keeper.
#[tactic(auto, using(csi_keeper::specs::facts::Reads::quiet_same, csi_keeper::specs::facts::Reads::quiet_then))]
pub fn caps_of<K: Keeper>(
    alloc: Global,
    keeper: &mut K,
    id: &Text,
) -> Result<Option<(u64, Items<CapKey>)>, StoreFault>
    ensures asks_nothing { number_of_id id.now ≡ None → (keeper.new ≡ keeper.old) × (result ≡ Ok None) }
    ensures finds { Finds (K.model keeper.old) (K.model keeper.new) result
        (λ s found. found ≡ caps_at s (number_of_id id.now)) }
{
    let Some(number) = number_of_id(id.as_str()) else {
        return Ok(None);
    };
    match keeper.caps_of(alloc, number)? {
        Some(caps) => Ok(Some((number, caps))),
        None => Ok(None),
    }
}

/// Returns the number of the volume with this id, without copying the volume, or `None` if no volume has the
/// id. If `id` does not have the form of a volume id, the keeper is not called.
///
/// # Errors
///
/// Returns the error of the keeper.
#[tactic(auto, using(csi_keeper::specs::facts::Reads::quiet_same, csi_keeper::specs::facts::Reads::quiet_then, crate::specs::facts::Finding::number_has, crate::specs::facts::Finding::number_none))]
pub fn existing_number<K: Keeper>(keeper: &mut K, id: &Text) -> Result<Option<u64>, StoreFault>
    ensures asks_nothing { number_of_id id.now ≡ None → (keeper.new ≡ keeper.old) × (result ≡ Ok None) }
    ensures finds { Finds (K.model keeper.old) (K.model keeper.new) result
        (λ s found. found ≡ number_at s (number_of_id id.now)) }
{
    let Some(number) = number_of_id(id.as_str()) else {
        return Ok(None);
    };
    if keeper.has_volume(number)? {
        return Ok(Some(number));
    }
    Ok(None)
}

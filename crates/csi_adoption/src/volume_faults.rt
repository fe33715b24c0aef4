//! Finds the faults of volumes and of their pools.

ghost use Rattle.std.specs.Prelude.{◌≡◌, option_copied};
ghost use Rattle.csi_adoption.specs.Faults.{Says, Reports, full_pool, next_fault, number_faults, pool_fault, size_faults, volume_fault};
ghost use Rattle.csi_adoption.specs.Seen.{sums_of, reported_volumes};

use crate::fault::AdoptFault;
use crate::seen::VolumesSeen;
use csi_config::{Config, Pool};
use csi_constraints::{BrokenConstraint, RowName, TextSum, VolumeConstraint};
use csi_rules::is_overcommitted;
use csi_types::copy_text;
use std::alloc::Global;

/// Checks that no volume broke a constraint. `found` names the first row that broke it, or is `None`. If
/// there is such a row, the call fails. The fault has the constraint and the number in the row, or 0 if this
/// value is not an integer.
pub(crate) fn check_volume(
    found: &Option<RowName>,
    constraint: VolumeConstraint,
) -> Result<(), AdoptFault>
    ensures { Reports (volume_fault constraint found.now) result }
{
    match found {
        Some(name) => Err(AdoptFault::Broken(BrokenConstraint::Volume {
            number: name.number.unwrap_or(0),
            constraint,
        })),
        None => Ok(()),
    }
}

// Returns the first pool whose size is below the sum of the sizes of its volumes, or `None`.
fn full_pool<'a>(pools: &'a [Pool], bytes: &[TextSum]) -> Option<&'a Pool>
    ensures { option_copied result ≡ full_pool pools.now (sums_of bytes.now) }
{
    for (pool, bytes) in pools.iter().zip(bytes.iter()) {
        if is_overcommitted(pool, bytes.sum) {
            return Some(pool);
        }
    }
    None
}

// Checks that the volumes of each pool have at most as many bytes as the pool.
fn check_pools(alloc: Global, pools: &[Pool], bytes: &[TextSum]) -> Result<(), AdoptFault>
    ensures { Says (pool_fault pools.now (sums_of bytes.now)) result }
{
    match full_pool(pools, bytes) {
        Some(pool) => Err(AdoptFault::Broken(BrokenConstraint::Pool {
            name: copy_text(alloc, pool.name.as_str())?,
        })),
        None => Ok(()),
    }
}

// Checks the next number. The argument is 0 if the row of `meta` has a next number that is not between 1 and
// 2^62.
fn check_next(next: u64) -> Result<(), AdoptFault>
    ensures { Reports (next_fault next) result }
{
    if next == 0 {
        return Err(AdoptFault::Broken(BrokenConstraint::Next));
    }
    Ok(())
}

/// Checks the next number, and that no volume's number or name broke a constraint. `next` is 0 if the next
/// number in `meta` is out of range. The error is the first fault.
pub(crate) fn check_numbers(next: u64, seen: &VolumesSeen) -> Result<(), AdoptFault>
    ensures { Reports (number_faults next (reported_volumes seen.now)) result }
{
    check_next(next)?;
    check_volume(&seen.number, VolumeConstraint::Number)?;
    check_volume(&seen.name, VolumeConstraint::Name)
}

/// Checks that no volume's pool or size broke a constraint, and that the sizes of a pool's volumes add up to
/// at most the size of the pool. The error is the first fault, or [`AdoptFault::NoMemory`].
pub(crate) fn check_sizes(
    alloc: Global,
    config: &Config,
    seen: &VolumesSeen,
) -> Result<(), AdoptFault>
    ensures { Says (size_faults config.now (reported_volumes seen.now)) result }
{
    check_volume(&seen.pool, VolumeConstraint::Pool)?;
    check_volume(&seen.bytes, VolumeConstraint::Bytes)?;
    check_pools(alloc, config.pools(), seen.pool_bytes.as_slice())
}

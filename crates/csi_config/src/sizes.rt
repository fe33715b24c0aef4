//! The default size and the greatest size of a volume.

ghost use Rattle.std.specs.Prelude.{◌≡◌, None, OnOk, IfErr, Some};
ghost use Rattle.csi_config.specs.Faults.{broken_sizes, is_whole, sizes_fault};

use crate::fault::{ConfigFault, SizeRule};
use csi_types::MAX_POOL_BYTES;

/// The granularity of sizes in bytes: 1 MiB. The size of each volume and each pool is a multiple of 1 MiB.
pub const GRANULE_BYTES: u64 = 1_048_576;

const _: () = prove!(GRANULE_BYTES == 1_048_576);

/// The default size and the greatest size of a volume. Both are positive multiples of 1 MiB.
#[derive(Clone, Copy, Debug)]
pub struct Sizes {
    /// The size in bytes of a volume that is created without a required size and without a smaller limit.
    pub default_bytes: u64,
    /// The greatest size of a volume in bytes: at least the default size, and at most 2^62.
    pub greatest_bytes: u64,
}

/// Returns true if a size in bytes is a positive multiple of 1 MiB.
pub fn is_whole(bytes: u64) -> bool
    ensures { result ≡ is_whole bytes }
{
    bytes > 0 && bytes % GRANULE_BYTES == 0
}

fn broken_rule(sizes: &Sizes) -> Option<SizeRule>
    ensures { result ≡ broken_sizes sizes.now }
{
    if !is_whole(sizes.default_bytes) {
        Some(SizeRule::Default)
    } else if !is_whole(sizes.greatest_bytes) {
        Some(SizeRule::Greatest)
    } else if sizes.default_bytes > sizes.greatest_bytes {
        Some(SizeRule::Order)
    } else if sizes.greatest_bytes > MAX_POOL_BYTES {
        Some(SizeRule::Limit)
    } else {
        None
    }
}

/// Checks the default size and the greatest size of a volume.
///
/// # Errors
///
/// Returns the first rule that the sizes break, in the order of [`SizeRule`].
#[tactic(auto, unfolding(crate::specs::Faults::sizes_fault))]
pub(crate) fn check_sizes(sizes: &Sizes) -> Result<(), ConfigFault>
    ensures passed { OnOk result (sizes_fault sizes.now ≡ None) }
    ensures refused { IfErr result (λ fault. sizes_fault sizes.now ≡ Some fault) }
{
    match broken_rule(sizes) {
        Some(rule) => Err(ConfigFault::Sizes(rule)),
        None => Ok(()),
    }
}

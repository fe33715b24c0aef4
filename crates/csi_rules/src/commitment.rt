//! Finds pools that are too small for their volumes.

ghost use Rattle.std.specs.Prelude.{◌≡◌};
ghost use Rattle.csi_rules.specs.Commitment.{is_overcommitted};

use csi_config::Pool;

/// Returns true if the pool is smaller than its volumes, which have `sum` bytes together.
pub fn is_overcommitted(pool: &Pool, sum: u64) -> bool
    ensures { result ≡ is_overcommitted pool.now sum }
{
    sum > pool.bytes
}

//! The constraints on the number, the size, the name and the pool of a row of volumes.

ghost use Rattle.std.specs.Prelude.{◌≡◌};
ghost use Rattle.csi_constraints.specs.Volumes.{is_in_pools, is_name, is_named, is_numbered, is_pool, is_sized};

use crate::cells::as_utf8;
use crate::trial::RowTest;
use csi_config::{Config, Pool, is_whole};
use csi_sql::values::{number_at, text_at};
use csi_types::name_reason;
use sqlite::Row;

/// Tests that the number of a volume is at least 1 and below the next number.
#[derive(Clone, Copy)]
pub struct IsNumbered {
    /// The next number in the table `meta`. If this field is 0, no number passes the test.
    pub next: u64,
}

impl RowTest for IsNumbered {
    ghost accepts = { λ test row. is_numbered test.next row };

    fn test(&self, row: &Row) -> bool {
        match number_at(row, 0) {
            Some(number) => 1 <= number && number < self.next,
            None => false,
        }
    }
}

fn is_name(name: &[u8]) -> bool
    ensures { result ≡ is_name name.now }
{
    match as_utf8(name) {
        Some(name) => name_reason(name).is_none(),
        None => false,
    }
}

/// Tests that CreateVolume accepts the name of a volume (`csi_types::name_reason`).
#[derive(Clone, Copy)]
pub struct IsNamed;

impl RowTest for IsNamed {
    ghost accepts = { λ _ row. is_named row };

    fn test(&self, row: &Row) -> bool {
        match text_at(row, 1) {
            Some(name) => is_name(name),
            None => false,
        }
    }
}

/// Tests that the size of a volume is a positive multiple of 1 MiB.
#[derive(Clone, Copy)]
pub struct IsSized;

impl RowTest for IsSized {
    ghost accepts = { λ _ row. is_sized row };

    fn test(&self, row: &Row) -> bool {
        match number_at(row, 2) {
            Some(bytes) => is_whole(bytes),
            None => false,
        }
    }
}

fn is_pool(pools: &[Pool], name: &[u8]) -> bool
    ensures { result ≡ is_pool pools.now name.now }
{
    pools.iter().any(|pool| pool.name.as_bytes() == name)
}

/// Tests that the configuration has the pool of a volume.
#[derive(Clone, Copy)]
pub struct IsInPools<'a> {
    /// The configuration whose pools are allowed.
    pub config: &'a Config,
}

impl RowTest for IsInPools<'_> {
    ghost accepts = { λ test row. is_in_pools test.config.now.pools row };

    fn test(&self, row: &Row) -> bool {
        match text_at(row, 3) {
            Some(name) => is_pool(self.config.pools(), name),
            None => false,
        }
    }
}

//! The constraints on columns that encode capabilities or parameters.

ghost use Rattle.std.specs.Prelude.{◌≡◌, IfOk, IfSome, OnErr, ◌∷◌, []};
ghost use Rattle.csi_columns.specs.Encoding.{FitCaps, FitParams};
ghost use Rattle.csi_sql.specs.Folding.{FailsForMemory};
ghost use Rattle.csi_constraints.specs.Coded.{SaysMessage, has_cap, has_caps, has_params, key_at, keys_at, params_at};

use crate::coding::{are_keys, are_params, key_in, keys_in, params_in};
use crate::trial::RowTrial;
use csi_keeper::{CapKey, supported};
use csi_sql::values::blob_at;
use csi_types::{Items, Map};
use sqlite::{Error, Row};
use std::alloc::Global;

/// Decodes the capability keys in column `at`, counted from 0. Returns `None` if the value in the column is
/// not the canonical bytes of capabilities. Fails if memory is refused.
pub(crate) fn keys_at(alloc: Global, row: &Row, at: usize) -> Result<Option<Items<CapKey>>, Error>
    ensures value { IfOk result (λ keys. keys ≡ keys_at at row.now) }
    ensures fits { IfOk result (λ keys. IfSome keys FitCaps) }
    ensures memory { FailsForMemory result }
    ensures error_only_if { OnErr result (SaysMessage at row.now) }
{
    match blob_at(row, at) {
        Some(bytes) => keys_in(alloc, bytes),
        None => Ok(None),
    }
}

/// Decodes the capability key in column `at`, counted from 0. Returns `None` if the value in the column is
/// not the canonical bytes of exactly one key. Fails if memory is refused.
pub(crate) fn key_at(alloc: Global, row: &Row, at: usize) -> Result<Option<CapKey>, Error>
    ensures value { IfOk result (λ key. key ≡ key_at at row.now) }
    ensures fits { IfOk result (λ key. IfSome key (λ k. FitCaps (k ∷ []))) }
    ensures memory { FailsForMemory result }
    ensures error_only_if { OnErr result (SaysMessage at row.now) }
{
    match blob_at(row, at) {
        Some(bytes) => key_in(alloc, bytes),
        None => Ok(None),
    }
}

fn params_at(alloc: Global, row: &Row, at: usize) -> Result<Option<(Map, Map)>, Error>
    ensures value { IfOk result (λ params. params ≡ params_at at row.now) }
    ensures fits { IfOk result (λ params. IfSome params (λ ms. FitParams ms.0 ms.1)) }
    ensures memory { FailsForMemory result }
    ensures error_only_if { OnErr result (SaysMessage at row.now) }
{
    match blob_at(row, at) {
        Some(bytes) => params_in(alloc, bytes),
        None => Ok(None),
    }
}

/// Tests that `caps` of a volume is the canonical bytes of at least one capability, that the capability keys
/// rise without duplicates, and that each is supported.
#[derive(Clone, Copy)]
pub struct HasCaps {
    /// The allocator of the decoded capabilities.
    pub alloc: Global,
}

impl RowTrial for HasCaps {
    ghost accepts = { λ _ row. has_caps row };

    ghost knows = { λ _ row. IfSome (keys_at 4 row) FitCaps };

    ghost takes_memory = { λ _ row. SaysMessage 4 row };

    fn try_test(&self, row: &Row) -> Result<bool, Error> {
        match keys_at(self.alloc, row, 4)? {
            Some(keys) => Ok(are_keys(keys.as_slice())),
            None => Ok(false),
        }
    }
}

/// Tests that `params` of a volume is the canonical bytes of parameters and mutable parameters, each of at
/// most 4,096 bytes. In tables of format 1 no parameters are mutable.
#[derive(Clone, Copy)]
pub struct HasParams {
    /// The allocator of the decoded parameters.
    pub alloc: Global,
    /// The number of the tables' format, from the table `meta`.
    pub format: u32,
}

impl RowTrial for HasParams {
    ghost accepts = { λ test row. has_params test.format row };

    ghost knows = { λ _ row. IfSome (params_at 5 row) (λ ms. FitParams ms.0 ms.1) };

    ghost takes_memory = { λ _ row. SaysMessage 5 row };

    fn try_test(&self, row: &Row) -> Result<bool, Error> {
        match params_at(self.alloc, row, 5)? {
            Some((params, mutable)) => Ok(are_params(self.format, &params, &mutable)),
            None => Ok(false),
        }
    }
}

/// Tests that `cap` of an attachment is the canonical bytes of exactly one supported capability.
#[derive(Clone, Copy)]
pub struct HasCap {
    /// The allocator of the decoded capability.
    pub alloc: Global,
}

impl RowTrial for HasCap {
    ghost accepts = { λ _ row. has_cap row };

    ghost knows = { λ _ row. IfSome (key_at 3 row) (λ key. FitCaps (key ∷ [])) };

    ghost takes_memory = { λ _ row. SaysMessage 3 row };

    fn try_test(&self, row: &Row) -> Result<bool, Error> {
        match key_at(self.alloc, row, 3)? {
            Some(key) => Ok(supported(&key)),
            None => Ok(false),
        }
    }
}

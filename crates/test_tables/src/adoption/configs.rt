//! The configurations to which rows of the tests refer by name.

use csi_config::Config;
use std::alloc::Global;
use test_kit::{RowFault, config_with};

/// Returns the configuration with this name, or fails with [`RowFault::NotRow`] if no configuration has the
/// name. `sample` has the pools p1 of 10 MiB and p2 of 4 MiB. In `small` p1 has 1 MiB, and in `renamed` p1 is
/// named p7.
pub(crate) fn config_named(alloc: Global, name: &str) -> Result<Config, RowFault> {
    match name {
        "sample" => config_with(alloc, &["p1", "10485760", "p2", "4194304"]),
        "small" => config_with(alloc, &["p1", "1048576", "p2", "4194304"]),
        "renamed" => config_with(alloc, &["p7", "10485760", "p2", "4194304"]),
        _ => Err(RowFault::NotRow),
    }
}

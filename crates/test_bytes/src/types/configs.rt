//! Answers rows about configurations. Unless a row gives other values, the plugin is `x` in version 1, both
//! sizes are 1 MiB, the only pool is `p` of 1 MiB without segments, and there are no nodes.

use crate::shown::{displayed, in_rust};
use csi_config::{Config, ConfigFault, Pool, Sizes};
use csi_types::{Map, copy_text};
use std::alloc::Global;
use test_kit::{RowFault, map_of, nodes_of, number_at, plugin_of, pools_of};

const MEBIBYTE: u64 = 1_048_576;

/// Returns the text of the fault of a configuration, or `faultless`. The words give one part of the
/// configuration, which `kind` names: `plugin`, `sizes`, `pools`, `segments` or `nodes`.
pub(crate) fn config_answer(alloc: Global, kind: &str, words: &[&str]) -> Result<String, RowFault> {
    match config_of(alloc, kind, words)? {
        Ok(_) => displayed(alloc, &"faultless"),
        Err(fault) => displayed(alloc, &fault),
    }
}

fn config_of(
    alloc: Global,
    kind: &str,
    words: &[&str],
) -> Result<Result<Config, ConfigFault>, RowFault> {
    let plugin = match kind {
        "plugin" => plugin_of(alloc, words)?,
        _ => plugin_of(alloc, &["x", "1"])?,
    };
    let sizes = match kind {
        "sizes" => Sizes {
            default_bytes: number_at(words, 0)?,
            greatest_bytes: number_at(words, 1)?,
        },
        _ => Sizes {
            default_bytes: MEBIBYTE,
            greatest_bytes: MEBIBYTE,
        },
    };
    let pools = match kind {
        "pools" => pools_of(alloc, words)?,
        "segments" => one_pool(alloc, MEBIBYTE, map_of(alloc, words)?)?,
        _ => one_pool(alloc, MEBIBYTE, Map::new(alloc))?,
    };
    let nodes = match kind {
        "nodes" => nodes_of(alloc, words)?,
        "plugin" | "sizes" | "pools" | "segments" => Vec::new(alloc),
        _ => return Err(RowFault::NotRow),
    };
    Ok(Config::new(plugin, sizes, pools, nodes))
}

// Makes a list of one pool, `p`.
fn one_pool(alloc: Global, bytes: u64, segments: Map) -> Result<Vec<Pool>, RowFault> {
    let mut pools = Vec::new(alloc);
    pools.push(Pool {
        name: copy_text(alloc, "p")?,
        bytes,
        segments,
    })?;
    Ok(pools)
}

/// Returns the sample configuration as a Rust expression.
pub(crate) fn sample_answer(alloc: Global) -> Result<String, RowFault> {
    in_rust(alloc, &Config::sample(alloc)?)
}

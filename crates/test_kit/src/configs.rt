//! Parses the parts of configurations from words.

use crate::fault::RowFault;
use crate::parts::number_at;
use crate::texts::text_at;
use csi_config::{Config, Node, Plugin, Pool, Sizes};
use csi_types::Map;
use std::alloc::Global;

const MEBIBYTE: u64 = 1_048_576;

/// Parses the words `NAME VERSION` as a plugin.
///
/// # Errors
///
/// If a word is missing or not a text, or memory is refused.
pub fn plugin_of(alloc: Global, words: &[&str]) -> Result<Plugin, RowFault> {
    Ok(Plugin {
        name: text_at(alloc, words, 0)?,
        version: text_at(alloc, words, 1)?,
    })
}

/// Parses the words `NAME BYTES ..` as pools without segments. A single word, or no word, gives no pools.
///
/// # Errors
///
/// If a word is missing, a word is not a text or not a number, or memory is refused.
pub fn pools_of(alloc: Global, words: &[&str]) -> Result<Vec<Pool>, RowFault> {
    let mut pools = Vec::new(alloc);
    if words.len() > 1 {
        for pair in words.chunks(2) {
            pools.push(Pool {
                name: text_at(alloc, pair, 0)?,
                bytes: number_at(pair, 1)?,
                segments: Map::new(alloc),
            })?;
        }
    }
    Ok(pools)
}

/// Parses the words `ID VOLUMES ..` as nodes, each with its greatest number of volumes.
///
/// # Errors
///
/// If a word is missing, a word is not a text or not a number, or memory is refused.
pub fn nodes_of(alloc: Global, words: &[&str]) -> Result<Vec<Node>, RowFault> {
    let mut nodes = Vec::new(alloc);
    for pair in words.chunks(2) {
        nodes.push(Node {
            id: text_at(alloc, pair, 0)?,
            max_volumes: number_at(pair, 1)?,
        })?;
    }
    Ok(nodes)
}

/// Makes a configuration for tests. Its pools are the words `NAME BYTES ..`, and its nodes are n1, n2 and n3
/// for two volumes each. A volume has 1 MiB by default and 8 MiB at most.
///
/// # Errors
///
/// If the words are not pools, a configuration cannot have these pools, or memory is refused.
pub fn config_with(alloc: Global, words: &[&str]) -> Result<Config, RowFault> {
    let plugin = plugin_of(alloc, &["rows.example.org", "1"])?;
    let sizes = Sizes {
        default_bytes: MEBIBYTE,
        greatest_bytes: 8 * MEBIBYTE,
    };
    let pools = pools_of(alloc, words)?;
    let nodes = nodes_of(alloc, &["n1", "2", "n2", "2", "n3", "2"])?;
    match Config::new(plugin, sizes, pools, nodes) {
        Ok(config) => Ok(config),
        Err(_) => Err(RowFault::Refused("no configuration")),
    }
}

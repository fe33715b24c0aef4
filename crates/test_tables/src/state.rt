//! Writes the State of a keeper as a text.

use csi_config::Config;
use csi_keeper::{Keeper, PageWithNodes, Volume};
use csi_types::{Items, Text};
use std::alloc::Global;
use std::fmt::Write;
use test_kit::RowFault;

// The greatest number of volumes that the text shows. No test row makes more volumes.
const MOST_VOLUMES: u32 = 100;

/// Returns the State of a keeper as a text: the next number, the volumes, and the bytes and the number of
/// volumes of each pool. Each volume is shown with its number, name, size, pool, mutable parameters and
/// nodes.
pub(crate) fn state_text<K: Keeper>(
    alloc: Global,
    config: &Config,
    keeper: &mut K,
) -> Result<String, RowFault> {
    let next = keeper.next_number()?;
    let mut text = format!(in alloc; "next {next}")?;
    put_volumes(&mut text, alloc, keeper)?;
    put_pools(&mut text, config, keeper)?;
    Ok(text)
}

fn put_volumes<K: Keeper>(
    text: &mut String,
    alloc: Global,
    keeper: &mut K,
) -> Result<(), RowFault> {
    let PageWithNodes { volumes, nodes } = keeper.page_with_nodes(alloc, 0, MOST_VOLUMES)?;
    put_each(text, volumes.as_slice(), nodes.as_slice())
}

fn put_each(text: &mut String, volumes: &[Volume], nodes: &[Items<Text>]) -> Result<(), RowFault> {
    for (volume, nodes) in volumes.iter().zip(nodes.iter()) {
        put_volume(text, volume, nodes)?;
    }
    Ok(())
}

fn put_pools<K: Keeper>(
    text: &mut String,
    config: &Config,
    keeper: &mut K,
) -> Result<(), RowFault> {
    for pool in config.pools() {
        let used = keeper.used_in(&pool.name)?;
        write!(text, "; {} {} in {}", pool.name, used.bytes, used.volumes)?;
    }
    Ok(())
}

fn put_volume(text: &mut String, volume: &Volume, nodes: &Items<Text>) -> Result<(), RowFault> {
    write!(
        text,
        "; {} '{}' {} {}",
        volume.number, volume.name, volume.bytes, volume.pool
    )?;
    for (key, value) in &volume.mutable {
        write!(text, " {key}:={value}")?;
    }
    for node in nodes.iter() {
        write!(text, " at {node}")?;
    }
    Ok(())
}

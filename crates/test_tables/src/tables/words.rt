//! Writes the answers of a keeper as texts.

use csi_keeper::{Attachment, CapKey, Kind, Volume};
use csi_types::{Items, Map, Text};
use std::alloc::Global;
use std::fmt::Write;
use test_kit::RowFault;

fn put_key(text: &mut String, key: &CapKey) -> Result<(), RowFault> {
    match &key.kind {
        Kind::Block => write!(text, " block")?,
        Kind::Mount(name) => write!(text, " mount {}", name.as_str())?,
    }
    write!(text, " {}", key.mode)?;
    Ok(())
}

fn put_keys(text: &mut String, keys: &Items<CapKey>) -> Result<(), RowFault> {
    for key in keys {
        put_key(text, key)?;
    }
    Ok(())
}

fn put_params(text: &mut String, params: &Map, sign: &str) -> Result<(), RowFault> {
    for (key, value) in params {
        write!(text, " {}{sign}{}", key.as_str(), value.as_str())?;
    }
    Ok(())
}

/// Returns volumes as a text: the number, name, bytes, pool and capabilities of each, the parameters as
/// `key=value`, and the mutable parameters as `key:=value`.
pub(crate) fn volumes_in_words(alloc: Global, volumes: &[Volume]) -> Result<String, RowFault> {
    let mut text = String::from_str(alloc, "volumes")?;
    for volume in volumes {
        let name = volume.name.as_str();
        let pool = volume.pool.as_str();
        write!(text, "; {} {name} {} {pool}", volume.number, volume.bytes)?;
        put_keys(&mut text, &volume.caps)?;
        put_params(&mut text, &volume.params, "=")?;
        put_params(&mut text, &volume.mutable, ":=")?;
    }
    Ok(text)
}

/// Returns attachments as a text: the node and the capability of each, and `readonly` if it is read-only.
pub(crate) fn attachments_in_words(
    alloc: Global,
    attachments: &[Attachment],
) -> Result<String, RowFault> {
    let mut text = String::from_str(alloc, "attachments")?;
    for attachment in attachments {
        write!(text, "; {}", attachment.node.as_str())?;
        put_key(&mut text, &attachment.cap)?;
        if attachment.readonly {
            write!(text, " readonly")?;
        }
    }
    Ok(text)
}

/// Returns numbers as a text: `numbers`, and each number after a space.
pub(crate) fn numbers_in_words(alloc: Global, numbers: &[u64]) -> Result<String, RowFault> {
    let mut text = String::from_str(alloc, "numbers")?;
    for number in numbers {
        write!(text, " {number}")?;
    }
    Ok(text)
}

fn put_nodes(text: &mut String, nodes: &Items<Text>) -> Result<(), RowFault> {
    for node in nodes {
        write!(text, " {}", node.as_str())?;
    }
    Ok(())
}

/// Returns the nodes of each volume of a page as a text. A semicolon comes before the nodes of each volume.
pub(crate) fn nodes_in_words(alloc: Global, nodes: &[Items<Text>]) -> Result<String, RowFault> {
    let mut text = String::from_str(alloc, "nodes")?;
    for nodes in nodes {
        write!(text, ";")?;
        put_nodes(&mut text, nodes)?;
    }
    Ok(text)
}

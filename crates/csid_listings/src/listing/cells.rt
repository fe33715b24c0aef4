//! Makes the row of a volume in a listing for people: its capabilities, parameters and nodes as words.

use command_line::{MODE_NAMES, or_dash, put_next, put_word, size_text, word};
use csi_keeper::{CapKey, Kind, Volume};
use csi_rules::ID_PREFIX;
use csi_types::{Items, Map, Text};
use std::alloc::{AllocError, Global};

/// Returns the name of the access mode with this number, 1 to 7 (CSI specification, 'CreateVolume'). Returns
/// `UNKNOWN` for any other number.
pub(crate) fn mode_name(mode: u8) -> &'static str {
    match MODE_NAMES.get(usize::from(mode)) {
        Some(name) => name,
        None => MODE_NAMES[0],
    }
}

// Returns a capability as one word: `block:MODE` for a block device, and `FILESYSTEM:MODE` for a mount, or
// `mount:MODE` if the mount names no file system.
fn capability(alloc: Global, key: &CapKey) -> Result<String, AllocError> {
    let mode = mode_name(key.mode);
    match &key.kind {
        Kind::Block => format!(in alloc; "block:{mode}"),
        Kind::Mount(kind) if kind.is_empty() => format!(in alloc; "mount:{mode}"),
        Kind::Mount(kind) => {
            let kind = word(alloc, kind.as_str())?;
            format!(in alloc; "{kind}:{mode}")
        }
    }
}

fn capabilities(alloc: Global, keys: &Items<CapKey>) -> Result<String, AllocError> {
    let mut cell = String::new(alloc);
    for key in keys {
        put_next(&mut cell, ",", capability(alloc, key)?.as_str())?;
    }
    or_dash(cell)
}

fn pairs(alloc: Global, map: &Map) -> Result<String, AllocError> {
    let mut cell = String::new(alloc);
    for (key, value) in map {
        put_next(&mut cell, ",", "")?;
        put_word(&mut cell, key.as_str())?;
        cell.push('=')?;
        put_word(&mut cell, value.as_str())?;
    }
    or_dash(cell)
}

fn words(alloc: Global, texts: &Items<Text>) -> Result<String, AllocError> {
    let mut cell = String::new(alloc);
    for text in texts {
        put_next(&mut cell, ",", "")?;
        put_word(&mut cell, text.as_str())?;
    }
    or_dash(cell)
}

/// The headings of the columns in a table of volumes.
pub(crate) const HEADINGS: [&str; 8] = [
    "ID",
    "NAME",
    "POOL",
    "SIZE",
    "CAPABILITIES",
    "PARAMETERS",
    "MUTABLE",
    "NODES",
];

/// Makes the row of a volume in the table, with one word for each of [`HEADINGS`]. `nodes` are the ids of the
/// nodes that the volume is published to.
///
/// # Errors
///
/// If memory is refused.
pub(crate) fn row(
    alloc: Global,
    volume: &Volume,
    nodes: &Items<Text>,
) -> Result<Vec<String>, AllocError> {
    let mut row = Vec::new(alloc);
    row.push(format!(in alloc; "{ID_PREFIX}{}", volume.number)?)?;
    row.push(word(alloc, volume.name.as_str())?)?;
    row.push(word(alloc, volume.pool.as_str())?)?;
    row.push(size_text(alloc, volume.bytes)?)?;
    row.push(capabilities(alloc, &volume.caps)?)?;
    row.push(pairs(alloc, &volume.params)?)?;
    row.push(pairs(alloc, &volume.mutable)?)?;
    row.push(words(alloc, nodes)?)?;
    Ok(row)
}

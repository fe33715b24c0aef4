//! Writes the parts of a listing's entry as words of a line. An absent part is `-`.

use crate::sizes::size_text;
use command_line::{or_dash, put_next, put_word, word};
use csi_types::{Items, Map, Text, VolumeInfo};
use std::alloc::{AllocError, Global};

// The key in a volume's context under which `csid` puts the name of the pool.
const POOL: &str = "pool";

/// Returns the pairs of a map as one word, with commas between them, or `-` if the map is empty.
///
/// # Errors
///
/// If memory is refused.
pub(crate) fn pairs_word(alloc: Global, pairs: &Map) -> Result<String, AllocError> {
    let mut out = String::new(alloc);
    for (key, value) in pairs {
        put_next(&mut out, ",", "")?;
        put_word(&mut out, key.as_str())?;
        out.push('=')?;
        put_word(&mut out, value.as_str())?;
    }
    or_dash(out)
}

/// Returns topologies as one word, with semicolons between them, or `-` if there are none.
///
/// # Errors
///
/// If memory is refused.
pub(crate) fn topologies_word(
    alloc: Global,
    topologies: &Items<Map>,
) -> Result<String, AllocError> {
    let mut out = String::new(alloc);
    for segments in topologies {
        let word = pairs_word(alloc, segments)?;
        put_next(&mut out, ";", word.as_str())?;
    }
    or_dash(out)
}

/// Returns the ids of the nodes that a volume is published to as one word, with commas between them, or `-`
/// if there are none.
///
/// # Errors
///
/// If memory is refused.
pub(crate) fn nodes_word(alloc: Global, nodes: Option<&Items<Text>>) -> Result<String, AllocError> {
    let mut out = String::new(alloc);
    let Some(nodes) = nodes else {
        return or_dash(out);
    };
    for node in nodes {
        put_next(&mut out, ",", "")?;
        put_word(&mut out, node.as_str())?;
    }
    or_dash(out)
}

/// Returns the id of a volume as a word, or `-` without a volume.
///
/// # Errors
///
/// If memory is refused.
pub(crate) fn id_word(alloc: Global, volume: Option<&VolumeInfo>) -> Result<String, AllocError> {
    match volume {
        Some(volume) => word(alloc, volume.id.as_str()),
        None => word(alloc, ""),
    }
}

/// Returns the size of a volume with a unit, such as `1.5 GiB` ([`size_text`]), or `-` without a volume.
///
/// # Errors
///
/// If memory is refused.
pub(crate) fn size_word(alloc: Global, volume: Option<&VolumeInfo>) -> Result<String, AllocError> {
    match volume {
        Some(volume) => size_text(alloc, volume.bytes),
        None => word(alloc, ""),
    }
}

/// Returns the topologies of a volume as one word, with semicolons between them, or `-` if there are none.
///
/// # Errors
///
/// If memory is refused.
pub(crate) fn topology_word(
    alloc: Global,
    volume: Option<&VolumeInfo>,
) -> Result<String, AllocError> {
    match volume {
        Some(volume) => topologies_word(alloc, &volume.topology),
        None => word(alloc, ""),
    }
}

// Returns the value under a key, or an empty text if the map does not have the key.
fn value_of<'m>(pairs: &'m Map, wanted: &str) -> &'m str {
    for (key, value) in pairs {
        if key.as_str() == wanted {
            return value.as_str();
        }
    }
    ""
}

/// Returns the name of a volume's pool from its context, or an empty text if the context does not name it.
pub(crate) fn pool_of(volume: &VolumeInfo) -> &str {
    value_of(&volume.context, POOL)
}

/// Returns the name of a volume's pool as a word, or `-` if the context does not name it or there is no
/// volume.
///
/// # Errors
///
/// If memory is refused.
pub(crate) fn pool_word(alloc: Global, volume: Option<&VolumeInfo>) -> Result<String, AllocError> {
    match volume {
        Some(volume) => word(alloc, pool_of(volume)),
        None => word(alloc, ""),
    }
}

/// Returns the context of a volume as one word, with commas between its pairs, or `-` if the context is
/// empty.
///
/// # Errors
///
/// If memory is refused.
pub(crate) fn context_word(
    alloc: Global,
    volume: Option<&VolumeInfo>,
) -> Result<String, AllocError> {
    match volume {
        Some(volume) => pairs_word(alloc, &volume.context),
        None => word(alloc, ""),
    }
}

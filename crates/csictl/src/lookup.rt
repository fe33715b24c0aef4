//! Looks a volume up before `csictl unpublish` and `csictl delete` change it. The reply of the server is OK
//! even if there is nothing to change (docs/MACHINE.md, "DeleteVolume", "ControllerUnpublishVolume").

use crate::failure::Failure;
use crate::line::SocketLine;
use crate::pages::{Walked, first_entry};
use crate::words::pool_of;
use clap::ArgMatches;
use csi_client::ReceivedReply;
use csi_rules::number_of_id;
use csi_types::{Entry, Method, Text};
use std::alloc::{AllocError, Global};

// Returns the token of the page that begins with this volume if it exists: the volume's number minus 1, in
// decimal. For volume 1, and for a text that is not an id, returns the empty token, whose page begins with
// the first volume.
fn token_before(alloc: Global, id: &str) -> Result<Text, AllocError> {
    let before = number_of_id(id).unwrap_or(0).saturating_sub(1);
    if before == 0 {
        return Ok(Text::new(alloc));
    }
    Ok(Text::from_string(format!(in alloc; "{before}")?))
}

/// Returns the failure that no volume has this id, or [`Failure::NoMemory`] if memory is refused. If the text
/// does not have the form of an id, it may be a name, so the line also shows the form of ids.
pub(crate) fn no_volume(alloc: Global, id: &str) -> Failure {
    let Ok(text) = String::from_str(alloc, id) else {
        return Failure::NoMemory;
    };
    if number_of_id(id).is_some() {
        Failure::NoVolume(text)
    } else {
        Failure::NotAnId(text)
    }
}

/// Returns the entry of the volume with this id, or `None` if there is no such entry.
pub(crate) fn entry_of<'e>(entries: &'e [Entry], id: &str) -> Option<&'e Entry> {
    for entry in entries {
        if has_id(entry, id) {
            return Some(entry);
        }
    }
    None
}

/// Returns true if the entry's volume has this id, and false if the entry has no volume.
pub(crate) fn has_id(entry: &Entry, id: &str) -> bool {
    match &entry.volume {
        Some(volume) => volume.id.as_str() == id,
        None => false,
    }
}

/// Returns true if the volume's context names this pool.
pub(crate) fn is_in(entry: &Entry, pool: &str) -> bool {
    match &entry.volume {
        Some(volume) => pool_of(volume) == pool,
        None => false,
    }
}

/// Returns true if the volume is published to this node.
pub(crate) fn is_at(entry: &Entry, node: &str) -> bool {
    let Some(nodes) = &entry.nodes else {
        return false;
    };
    for one in nodes {
        if one.as_str() == node {
            return true;
        }
    }
    false
}

// Returns true if the volume is published to a node.
fn is_published(entry: &Entry) -> bool {
    match &entry.nodes {
        Some(nodes) => !nodes.is_empty(),
        None => false,
    }
}

// Checks that a volume is published to the node, or to at least one node if `node` is `None`.
fn check_published(
    alloc: Global,
    entry: &Entry,
    id: &str,
    node: Option<&str>,
) -> Result<(), Failure> {
    match node {
        Some(node) if !is_at(entry, node) => Err(Failure::NotAtNode {
            volume: String::from_str(alloc, id)?,
            node: String::from_str(alloc, node)?,
        }),
        None if !is_published(entry) => Err(Failure::NotPublished(String::from_str(alloc, id)?)),
        _ => Ok(()),
    }
}

// Checks that the entries contain the volume and, if an attachment is to be removed, the attachment.
fn check(
    alloc: Global,
    method: Method,
    arguments: &ArgMatches<'_>,
    entries: &[Entry],
) -> Result<(), Failure> {
    let id = arguments.get_str("volume").unwrap_or("");
    let Some(entry) = entry_of(entries, id) else {
        return Err(no_volume(alloc, id));
    };
    if method == Method::ControllerUnpublishVolume {
        return check_published(alloc, entry, id, arguments.get_str("node"));
    }
    Ok(())
}

/// Checks by a page of one entry that there is something to remove, and returns `None`. DeleteVolume needs
/// the volume. ControllerUnpublishVolume also needs an attachment of the volume: to the node in the
/// arguments, or to any node if they name none. If the server refuses the page for another reason than its
/// token, returns the refusal.
///
/// # Errors
///
/// If there is nothing to remove, the call is not answered, the reply is malformed or not a page, or memory
/// is refused.
pub(crate) fn look_up(
    alloc: Global,
    method: Method,
    arguments: &ArgMatches<'_>,
    line: &mut SocketLine<'_>,
) -> Result<Option<ReceivedReply>, Failure> {
    let id = arguments.get_str("volume").unwrap_or("");
    let token = token_before(alloc, id)?;
    let mut entries: Vec<Entry> = Vec::new(alloc);
    match first_entry(alloc, token, line, &mut entries)? {
        Walked::All => {
            check(alloc, method, arguments, entries.as_slice())?;
            Ok(None)
        }
        // The server refuses the token only if no volume has been given this number yet (docs/MACHINE.md, "A
        // walk over pages").
        Walked::Outdated(_) => Err(no_volume(alloc, id)),
        Walked::Refused(reply) => Ok(Some(reply)),
    }
}

//! Runs `csictl volumes`, `csictl nodes`, `csictl pools` and `csictl volume`.

use crate::call::show;
use crate::configuration::Configuration;
use crate::failure::{Ended, Failure};
use crate::groups::{GroupedBy, Groups};
use crate::line::SocketLine;
use crate::lookup::{entry_of, has_id, is_at, is_in, no_volume};
use crate::pages::{Walked, walk};
use crate::patience::Patience;
use crate::reply::{self, entries_line, entry_line, write};
use crate::socket;
use crate::words::{context_word, id_word, nodes_word, pool_word, size_word, topology_word};
use clap::ArgMatches;
use command_line::Table;
use csi_client::ReceivedReply;
use csi_types::{Entry, Method};
use std::alloc::{AllocError, Global};

/// What a listing shows: volumes, nodes, pools or one volume.
#[derive(Clone, Copy)]
pub(crate) enum What {
    Volumes,
    Nodes,
    Pools,
    Volume,
}

// Removes the entries that the options do not select. `--id` selects a volume by its id, `--node` by a node
// that it is published to, and `--pool` by its pool. If several options are given, a volume must match each.
fn select(arguments: &ArgMatches<'_>, entries: &mut Vec<Entry>) {
    if let Some(id) = arguments.get_str("id") {
        entries.retain(|entry| has_id(entry, id));
    }
    if let Some(node) = arguments.get_str("node") {
        entries.retain(|entry| is_at(entry, node));
    }
    if let Some(pool) = arguments.get_str("pool") {
        entries.retain(|entry| is_in(entry, pool));
    }
}

fn volume_row(alloc: Global, entry: &Entry) -> Result<Vec<String>, AllocError> {
    let volume = entry.volume.as_ref();
    let mut row = Vec::new(alloc);
    row.push(id_word(alloc, volume)?)?;
    row.push(size_word(alloc, volume)?)?;
    row.push(topology_word(alloc, volume)?)?;
    row.push(nodes_word(alloc, entry.nodes.as_ref())?)?;
    row.push(pool_word(alloc, volume)?)?;
    Ok(row)
}

fn volumes_text(alloc: Global, entries: &[Entry]) -> Result<String, AllocError> {
    let mut table = Table::with_headings(alloc, &["ID", "SIZE", "TOPOLOGY", "NODES", "POOL"])?;
    for entry in entries {
        table.add(volume_row(alloc, entry)?)?;
    }
    table.text(alloc)
}

// Returns all fields of an entry, each on a line.
fn entry_text(alloc: Global, entry: &Entry) -> Result<String, AllocError> {
    let volume = entry.volume.as_ref();
    let mut table = Table::new(alloc);
    table.add_pair(alloc, "ID", id_word(alloc, volume)?)?;
    table.add_pair(alloc, "SIZE", size_word(alloc, volume)?)?;
    table.add_pair(alloc, "TOPOLOGY", topology_word(alloc, volume)?)?;
    table.add_pair(alloc, "NODES", nodes_word(alloc, entry.nodes.as_ref())?)?;
    table.add_pair(alloc, "POOL", pool_word(alloc, volume)?)?;
    table.add_pair(alloc, "CONTEXT", context_word(alloc, volume)?)?;
    table.text(alloc)
}

fn volume_text(
    alloc: Global,
    entries: &[Entry],
    id: &str,
    is_json: bool,
) -> Result<String, Failure> {
    match entry_of(entries, id) {
        Some(entry) if is_json => Ok(entry_line(alloc, entry)?),
        Some(entry) => Ok(entry_text(alloc, entry)?),
        None => Err(no_volume(alloc, id)),
    }
}

// Returns the volumes that the options select, as a table or, with `--json`, as one line of JSON.
fn volumes_shown(
    alloc: Global,
    arguments: &ArgMatches<'_>,
    entries: Vec<Entry>,
) -> Result<String, AllocError> {
    let mut entries = entries;
    select(arguments, &mut entries);
    if arguments.get_flag("json") {
        entries_line(alloc, entries.as_slice())
    } else {
        volumes_text(alloc, entries.as_slice())
    }
}

// Checks that the configuration has the pool in `--pool` and the node in `--node`. Checks nothing if neither
// option is given, or if the server does not return its configuration.
fn check_filter(
    alloc: Global,
    arguments: &ArgMatches<'_>,
    line: &mut SocketLine<'_>,
) -> Result<(), Failure> {
    let pool = arguments.get_str("pool");
    let node = arguments.get_str("node");
    if pool.is_none() && node.is_none() {
        return Ok(());
    }
    match Configuration::ask(alloc, line)? {
        Some(configuration) => configuration.check(alloc, pool, node),
        None => Ok(()),
    }
}

// Shows the refusal of a page of ListVolumes.
fn refused(
    rt: &HostRuntime,
    arguments: &ArgMatches<'_>,
    reply: &ReceivedReply,
) -> Result<Ended, Failure> {
    let is_json = arguments.get_flag("json");
    show(rt, Method::ListVolumes, &reply.as_reply(), is_json)
}

// Shows the volumes that the options select. For [`What::Volume`], shows the one volume with the id in the
// arguments.
fn list_volumes(
    rt: &HostRuntime,
    what: What,
    arguments: &ArgMatches<'_>,
    line: &mut SocketLine<'_>,
) -> Result<Ended, Failure> {
    let mut entries: Vec<Entry> = Vec::new(rt.alloc());
    if let Walked::Refused(reply) | Walked::Outdated(reply) = walk(
        rt.alloc(),
        line,
        &mut entries,
    )? {
        return refused(rt, arguments, &reply);
    }
    let text = match what {
        What::Volume => {
            let id = arguments.get_str("volume").unwrap_or("");
            volume_text(
                rt.alloc(),
                entries.as_slice(),
                id,
                arguments.get_flag("json"),
            )?
        }
        _ => volumes_shown(rt.alloc(), arguments, entries)?,
    };
    write(rt, text.as_bytes())?;
    Ok(Ended::Done)
}

// Shows the nodes or the pools. If the server returns its configuration, nodes and pools without volumes are
// shown too.
fn list_groups(
    rt: &HostRuntime,
    by: GroupedBy,
    arguments: &ArgMatches<'_>,
    line: &mut SocketLine<'_>,
) -> Result<Ended, Failure> {
    let alloc = rt.alloc();
    let configuration = Configuration::ask(alloc, line)?;
    let mut groups = Groups::new(alloc, by, true, configuration.as_ref())?;
    if let Walked::Refused(reply) | Walked::Outdated(reply) = walk(alloc, line, &mut groups)? {
        return refused(rt, arguments, &reply);
    }
    let text = if arguments.get_flag("json") {
        reply::line(alloc, &groups.object(alloc)?)?
    } else {
        groups.text(alloc)?
    };
    write(rt, text.as_bytes())?;
    Ok(Ended::Done)
}

/// Reads all pages of ListVolumes over one connection, and prints what `what` names: the volumes, the nodes,
/// the pools or one volume. If the server refuses a page, prints the refusal.
///
/// # Errors
///
/// - the socket is not found, or an argument is malformed
/// - a call is not answered
/// - a reply is malformed, or is not a page or a configuration
/// - the pages have no end
/// - for [`What::Volume`]: no volume has the id in the arguments
/// - for [`What::Volumes`]: the configuration does not have the pool or the node in the arguments
/// - writing fails, or memory is refused
pub(crate) fn run(
    rt: &HostRuntime,
    what: What,
    arguments: &ArgMatches<'_>,
) -> Result<Ended, Failure> {
    let patience = Patience::of(arguments)?;
    let path = socket::find(rt, arguments)?;
    let mut line = SocketLine::new(rt, path.as_str(), patience, true);
    match what {
        What::Nodes => list_groups(rt, GroupedBy::Node, arguments, &mut line),
        What::Pools => list_groups(rt, GroupedBy::Pool, arguments, &mut line),
        What::Volume => list_volumes(rt, what, arguments, &mut line),
        What::Volumes => {
            check_filter(rt.alloc(), arguments, &mut line)?;
            list_volumes(rt, what, arguments, &mut line)
        }
    }
}

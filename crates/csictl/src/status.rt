//! Runs `csictl status`: shows the server's name and version, whether it is ready, how many volumes it has,
//! and the use of its pools and nodes.

use crate::call::show;
use crate::configuration::Configuration;
use crate::failure::{Ended, Failure};
use crate::groups::{GroupedBy, Groups};
use crate::json::put;
use crate::line::SocketLine;
use crate::message::call_without_fields;
use crate::pages::{Taker, Walked, walk};
use crate::patience::Patience;
use crate::reply::{line, write};
use crate::sizes::size_text;
use crate::socket;
use clap::ArgMatches;
use command_line::{Table, word};
use csi_client::ReceivedReply;
use csi_codec::decode_response;
use csi_types::{Entry, Method, Response, Text};
use serde_json::{Map, Value};
use std::alloc::{AllocError, Global};

// The calls that return the name and the version of the server, and if it is ready.
const SERVER_CALLS: [Method; 2] = [Method::GetPluginInfo, Method::Probe];

// The server's name, version and readiness, the sums over its volumes, and the use of its pools and nodes.
#[derive(Drop)]
struct Status {
    // The name and the version of the plugin, from GetPluginInfo.
    name: Text,
    version: Text,
    is_ready: bool,
    volumes: u64,
    // The sum of the sizes of the volumes, in bytes.
    bytes: i64,
    // The number of attachments: pairs of a volume and a node that the volume is published to.
    attachments: u64,
    // The use of the pools and nodes, or `None` if the server does not return its configuration.
    places: Option<Places>,
}

// The sums of the volumes of each pool, and of each node.
#[derive(Drop)]
struct Places {
    pools: Groups,
    nodes: Groups,
}

// The status of the server, or the call that was refused and its reply.
#[derive(Drop)]
enum Outcome {
    Status(Status),
    Refused(Method, ReceivedReply),
}

impl Places {
    fn new(alloc: Global, configuration: &Configuration) -> Result<Places, AllocError> {
        let pools = Groups::new(alloc, GroupedBy::Pool, false, Some(configuration))?;
        let nodes = Groups::new(alloc, GroupedBy::Node, false, Some(configuration))?;
        Ok(Places { pools, nodes })
    }

    fn restart(&mut self) {
        self.pools.restart();
        self.nodes.restart();
    }

    fn count(&mut self, alloc: Global, entry: &Entry) -> Result<(), AllocError> {
        self.pools.count(alloc, entry)?;
        self.nodes.count(alloc, entry)
    }

    // Returns a table of the pools and a table of the nodes as one text. Each table comes after an empty
    // line.
    fn text(&self, alloc: Global) -> Result<String, AllocError> {
        let pools = self.pools.text(alloc)?;
        let nodes = self.nodes.text(alloc)?;
        format!(in alloc; "\n{pools}\n{nodes}")
    }
}

impl Taker for Status {
    fn restart(&mut self) {
        self.volumes = 0;
        self.bytes = 0;
        self.attachments = 0;
        if let Some(places) = &mut self.places {
            places.restart();
        }
    }

    fn take_entry(&mut self, alloc: Global, entry: Entry) -> Result<(), AllocError> {
        self.volumes = self.volumes.saturating_add(1);
        if let Some(volume) = &entry.volume {
            self.bytes = self.bytes.saturating_add(volume.bytes);
        }
        if let Some(nodes) = &entry.nodes {
            self.attachments = self.attachments.saturating_add(nodes.len() as u64);
        }
        match &mut self.places {
            Some(places) => places.count(alloc, &entry),
            None => Ok(()),
        }
    }
}

impl Status {
    fn new(alloc: Global) -> Status {
        Status {
            name: Text::new(alloc),
            version: Text::new(alloc),
            is_ready: false,
            volumes: 0,
            bytes: 0,
            attachments: 0,
            places: None,
        }
    }

    // Takes the values of a response to GetPluginInfo or Probe. If the response to Probe does not have the
    // field `ready`, the server is ready (CSI specification, 'Probe').
    fn take(&mut self, response: Response) -> Result<(), Failure> {
        match response {
            Response::PluginInfo { name, version } => {
                self.name = name;
                self.version = version;
                Ok(())
            }
            Response::Probe(ready) => {
                self.is_ready = ready.unwrap_or(true);
                Ok(())
            }
            _ => Err(Failure::BadBody),
        }
    }

    // Returns the lines with the server's name, version and readiness, and the lines with the sums over all
    // volumes.
    fn sums_text(&self, alloc: Global) -> Result<String, AllocError> {
        let name = word(alloc, self.name.as_str())?;
        let version = word(alloc, self.version.as_str())?;
        let mut table = Table::new(alloc);
        table.add_pair(alloc, "PLUGIN", format!(in alloc; "{name} {version}")?)?;
        table.add_pair(alloc, "READY", format!(in alloc; "{}", self.is_ready)?)?;
        table.add_pair(alloc, "VOLUMES", format!(in alloc; "{}", self.volumes)?)?;
        table.add_pair(alloc, "SIZE", size_text(alloc, self.bytes)?)?;
        table.add_pair(
            alloc,
            "ATTACHMENTS",
            format!(in alloc; "{}", self.attachments)?,
        )?;
        table.text(alloc)
    }

    fn text(&self, alloc: Global) -> Result<String, AllocError> {
        let mut text = self.sums_text(alloc)?;
        if let Some(places) = &self.places {
            text.push_str(places.text(alloc)?.as_str())?;
        }
        Ok(text)
    }

    // Makes a JSON object with the server's name, version and readiness, and the sums over all volumes.
    fn sums(&self, alloc: Global) -> Result<Map<String, Value>, AllocError> {
        let mut object = Map::new(alloc);
        let name = Value::try_from_str(alloc, self.name.as_str())?;
        put(alloc, &mut object, "name", name)?;
        let version = Value::try_from_str(alloc, self.version.as_str())?;
        put(alloc, &mut object, "vendorVersion", version)?;
        put(alloc, &mut object, "ready", Value::from(self.is_ready))?;
        put(alloc, &mut object, "volumes", Value::from(self.volumes))?;
        put(alloc, &mut object, "bytes", Value::from(self.bytes))?;
        let attachments = Value::from(self.attachments);
        put(alloc, &mut object, "attachments", attachments)?;
        Ok(object)
    }

    fn json_line(&self, alloc: Global) -> Result<String, AllocError> {
        let mut object = self.sums(alloc)?;
        if let Some(places) = &self.places {
            put(alloc, &mut object, "pools", places.pools.array(alloc)?)?;
            put(alloc, &mut object, "nodes", places.nodes.array(alloc)?)?;
        }
        line(alloc, &Value::Object(object))
    }
}

// Calls GetPluginInfo and Probe. Returns the first refusal, or `None` if both calls are answered OK.
fn ask_server(
    alloc: Global,
    status: &mut Status,
    line: &mut SocketLine<'_>,
) -> Result<Option<(Method, ReceivedReply)>, Failure> {
    for method in SERVER_CALLS {
        let frame = call_without_fields(alloc, method)?;
        let reply = line.call(&frame)?;
        if reply.status != 0 {
            return Ok(Some((method, reply)));
        }
        status.take(decode_response(alloc, method, reply.body.as_slice())?)?;
    }
    Ok(None)
}

// Makes all calls of `csictl status` over one connection. If the call for the configuration is refused, the
// status has no pools and no nodes, and the command is not refused.
fn ask(alloc: Global, line: &mut SocketLine<'_>) -> Result<Outcome, Failure> {
    let mut status = Status::new(alloc);
    if let Some((method, reply)) = ask_server(alloc, &mut status, line)? {
        return Ok(Outcome::Refused(method, reply));
    }
    if let Some(configuration) = Configuration::ask(alloc, line)? {
        status.places = Some(Places::new(alloc, &configuration)?);
    }
    match walk(alloc, line, &mut status)? {
        Walked::All => Ok(Outcome::Status(status)),
        Walked::Refused(reply) | Walked::Outdated(reply) => {
            Ok(Outcome::Refused(Method::ListVolumes, reply))
        }
    }
}

/// Asks a server for its name, version, readiness, configuration and volumes over one connection, and shows
/// them. If GetPluginInfo, Probe or ListVolumes is refused, shows the refusal.
///
/// # Errors
///
/// If the socket is not found, an argument or a reply is malformed, a call is not answered, the pages have no
/// end, writing fails, or memory is refused.
pub(crate) fn run(rt: &HostRuntime, arguments: &ArgMatches<'_>) -> Result<Ended, Failure> {
    let patience = Patience::of(arguments)?;
    let path = socket::find(rt, arguments)?;
    let is_json = arguments.get_flag("json");
    let mut line = SocketLine::new(rt, path.as_str(), patience, true);
    let status = match ask(rt.alloc(), &mut line)? {
        Outcome::Refused(method, reply) => return show(rt, method, &reply.as_reply(), is_json),
        Outcome::Status(status) => status,
    };
    let text = if is_json {
        status.json_line(rt.alloc())?
    } else {
        status.text(rt.alloc())?
    };
    write(rt, text.as_bytes())?;
    Ok(Ended::Done)
}

//! Asks the server for its configuration: the pools and nodes, and how much each can hold. Only a front with
//! `--config` answers this call, on its control socket.

ghost use Rattle.std.specs.Prelude.{◌≡◌};
ghost use Rattle.csictl.specs.Configuration.{configuration_path};

use crate::failure::Failure;
use crate::line::SocketLine;
use csi_types::{Items, Map, Text};
use envelope::put_request;
use serde_json::Value;
use std::alloc::{AllocError, Global};

/// A pool or a node of the configuration.
#[derive(Drop)]
pub(crate) struct Place {
    /// The name of the pool, or the id of the node.
    pub(crate) name: Text,
    /// The topology of the pool. It is empty for a pool without segments, and for a node.
    pub(crate) topology: Items<Map>,
    /// The size of the pool in bytes, or the greatest number of volumes that the node can have.
    pub(crate) most: i64,
}

/// The pools and nodes of a configuration, in the order of the reply.
#[derive(Drop)]
pub(crate) struct Configuration {
    pub(crate) pools: Vec<Place>,
    pub(crate) nodes: Vec<Place>,
}

// The keys in the JSON object: the key of a list of places, and the keys of the name and the limit of each
// place.
#[derive(Clone, Copy)]
struct Keys {
    list: &'static str,
    name: &'static str,
    most: &'static str,
}

const POOLS: Keys = Keys {
    list: "pools",
    name: "name",
    most: "bytes",
};

const NODES: Keys = Keys {
    list: "nodes",
    name: "id",
    most: "maxVolumes",
};

fn text_of<'v>(value: &'v Value, key: &str) -> Option<&'v str> {
    match value.get(key) {
        Some(text) => text.as_str(),
        None => None,
    }
}

fn number_of(value: &Value, key: &str) -> Option<i64> {
    match value.get(key) {
        Some(number) => number.as_i64(),
        None => None,
    }
}

fn list_of<'v>(value: &'v Value, key: &str) -> Option<&'v Vec<Value>> {
    match value.get(key) {
        Some(list) => list.as_array(),
        None => None,
    }
}

// Reads segments from a JSON object. Each value of the object must be a text.
fn segments_of(alloc: Global, value: &Value) -> Result<Map, Failure> {
    let mut segments = Map::new(alloc);
    let Some(object) = value.as_object() else {
        return Err(Failure::BadBody);
    };
    for (key, value) in object {
        let Some(value) = value.as_str() else {
            return Err(Failure::BadBody);
        };
        let key = Text::from_str(alloc, key.as_str())?;
        segments.insert(key, Text::from_str(alloc, value)?)?;
    }
    Ok(segments)
}

// Returns a list with one topology, the segments of the place. The list is empty if the place has no
// segments.
fn topology_of(alloc: Global, value: &Value) -> Result<Items<Map>, Failure> {
    let mut topology = Vec::new(alloc);
    if let Some(segments) = value.get("segments") {
        let segments = segments_of(alloc, segments)?;
        if !segments.is_empty() && topology.push(segments).is_err() {
            return Err(Failure::NoMemory);
        }
    }
    Ok(Items::from_vec(topology))
}

fn place_of(alloc: Global, value: &Value, keys: Keys) -> Result<Place, Failure> {
    let Some(name) = text_of(value, keys.name) else {
        return Err(Failure::BadBody);
    };
    let Some(most) = number_of(value, keys.most) else {
        return Err(Failure::BadBody);
    };
    Ok(Place {
        name: Text::from_str(alloc, name)?,
        topology: topology_of(alloc, value)?,
        most,
    })
}

fn places_of(alloc: Global, value: &Value, keys: Keys) -> Result<Vec<Place>, Failure> {
    let Some(list) = list_of(value, keys.list) else {
        return Err(Failure::BadBody);
    };
    let mut places = Vec::new(alloc);
    for value in list {
        let place = place_of(alloc, value, keys)?;
        if places.push(place).is_err() {
            return Err(Failure::NoMemory);
        }
    }
    Ok(places)
}

// Parses the configuration in the body of a reply, which is a JSON object.
fn configuration_of(alloc: Global, body: &[u8]) -> Result<Configuration, Failure> {
    let Ok(text) = str::from_utf8(body) else {
        return Err(Failure::BadBody);
    };
    let value = match Value::from_str(alloc, text) {
        Ok(value) => value,
        Err(error) if error.is_memory() => return Err(Failure::NoMemory),
        Err(_) => return Err(Failure::BadBody),
    };
    Ok(Configuration {
        pools: places_of(alloc, &value, POOLS)?,
        nodes: places_of(alloc, &value, NODES)?,
    })
}

// Returns the path of the method GetConfiguration. The front answers its calls without asking `csid`
// (docs/DEPLOY.md, "The control socket").
fn path() -> &'static str
    ensures { result.now ≡ configuration_path }
{
    "/fomaheti.v1.Front/GetConfiguration"
}

// Makes the frame of a call of GetConfiguration, whose message is empty.
#[tactic(auto, using(crate::proofs::Paths::is_call))]
fn frame(alloc: Global) -> Result<Vec<u8>, AllocError> {
    let mut frame = Vec::new(alloc);
    put_request(&mut frame, path().as_bytes(), &[])?;
    Ok(frame)
}

fn has(places: &[Place], name: &str) -> bool {
    for place in places {
        if place.name.as_str() == name {
            return true;
        }
    }
    false
}

impl Configuration {
    /// Asks the server for its configuration. Returns `None` if the server refuses the call: `csid` does, and
    /// so does a front without `--config`.
    ///
    /// # Errors
    ///
    /// If the call has no reply, the reply is malformed or not a configuration, or memory is refused.
    pub(crate) fn ask(
        alloc: Global,
        line: &mut SocketLine<'_>,
    ) -> Result<Option<Configuration>, Failure> {
        let frame = frame(alloc)?;
        let reply = line.call(&frame)?;
        if reply.status != 0 {
            return Ok(None);
        }
        Ok(Some(configuration_of(alloc, reply.body.as_slice())?))
    }

    /// Checks that the configuration has the pool and the node, if they are given.
    ///
    /// # Errors
    ///
    /// Returns [`Failure::NoPool`] or [`Failure::NoNode`] for the first of the two that the configuration
    /// does not have, and [`Failure::NoMemory`] if memory is refused.
    pub(crate) fn check(
        &self,
        alloc: Global,
        pool: Option<&str>,
        node: Option<&str>,
    ) -> Result<(), Failure> {
        if let Some(pool) = pool {
            if !has(self.pools.as_slice(), pool) {
                return Err(Failure::NoPool(String::from_str(alloc, pool)?));
            }
        }
        match node {
            Some(node) if !has(self.nodes.as_slice(), node) => {
                Err(Failure::NoNode(String::from_str(alloc, node)?))
            }
            _ => Ok(()),
        }
    }
}

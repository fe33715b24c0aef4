//! Writes replies as JSON, in the mapping of proto3. Each field that `csi_codec` decodes is written, even if
//! it has its default value. Only a oneof without a member is not written.

use command_line::MODE_NAMES;
use csi_types::{
    Access, Capability, Confirmed, Entry, Items, Map as TextMap, Response, Text, VolumeInfo,
};
use envelope::Reply;
use serde_json::{Map, Value, json};
use std::alloc::{AllocError, Global};

type Json = Result<Value, AllocError>;

// The names of the values of two enumerations. The index of a name is its value (CSI specification,
// 'GetPluginCapabilities', 'ControllerGetCapabilities').
const SERVICES: [&str; 4] = [
    "UNKNOWN",
    "CONTROLLER_SERVICE",
    "VOLUME_ACCESSIBILITY_CONSTRAINTS",
    "GROUP_CONTROLLER_SERVICE",
];

const CALLS: [&str; 15] = [
    "UNKNOWN",
    "CREATE_DELETE_VOLUME",
    "PUBLISH_UNPUBLISH_VOLUME",
    "LIST_VOLUMES",
    "GET_CAPACITY",
    "CREATE_DELETE_SNAPSHOT",
    "LIST_SNAPSHOTS",
    "CLONE_VOLUME",
    "PUBLISH_READONLY",
    "EXPAND_VOLUME",
    "LIST_VOLUMES_PUBLISHED_NODES",
    "VOLUME_CONDITION",
    "GET_VOLUME",
    "SINGLE_NODE_MULTI_WRITER",
    "MODIFY_VOLUME",
];

// Returns the name of a number of an enumeration, or the number itself if it has no name.
fn named(alloc: Global, names: &[&str], number: i32) -> Json {
    match usize::try_from(number).ok().and_then(|at| names.get(at)) {
        Some(name) => Value::try_from_str(alloc, name),
        None => Ok(Value::from(number)),
    }
}

// Returns an `int64` in JSON, which is a text of decimal digits.
fn int64(alloc: Global, number: i64) -> Json {
    Ok(Value::from(format!(in alloc; "{number}")?))
}

/// Adds a member with this key and value to a JSON object.
///
/// # Errors
///
/// If memory is refused.
pub(crate) fn put(
    alloc: Global,
    object: &mut Map<String, Value>,
    key: &str,
    value: Value,
) -> Result<(), AllocError> {
    object.insert(String::from_str(alloc, key)?, value)?;
    Ok(())
}

fn texts(alloc: Global, texts: &Items<Text>) -> Json {
    let mut array = Vec::new(alloc);
    for text in texts {
        array.push(Value::try_from_str(alloc, text.as_str())?)?;
    }
    Ok(Value::Array(array))
}

fn object(alloc: Global, map: &TextMap) -> Json {
    let mut object = Map::new(alloc);
    for (key, value) in map {
        let value = Value::try_from_str(alloc, value.as_str())?;
        object.insert(String::from_str(alloc, key.as_str())?, value)?;
    }
    Ok(Value::Object(object))
}

/// Returns topologies as a JSON array. Each topology is an object with its `segments`.
pub(crate) fn topologies(alloc: Global, topologies: &Items<TextMap>) -> Json {
    let mut array = Vec::new(alloc);
    for segments in topologies {
        array.push(json!(in alloc; {"segments": object(alloc, segments)?})?)?;
    }
    Ok(Value::Array(array))
}

fn volume(alloc: Global, volume: Option<&VolumeInfo>) -> Json {
    let Some(volume) = volume else {
        return Ok(Value::Null);
    };
    json!(in alloc; {
        "capacityBytes": int64(alloc, volume.bytes)?,
        "volumeId": volume.id.as_str(),
        "volumeContext": object(alloc, &volume.context)?,
        "accessibleTopology": topologies(alloc, &volume.topology)?,
    })
}

fn status(alloc: Global, nodes: Option<&Items<Text>>) -> Json {
    match nodes {
        Some(nodes) => json!(in alloc; {"publishedNodeIds": texts(alloc, nodes)?}),
        None => Ok(Value::Null),
    }
}

/// Returns an entry of a listing as a JSON object: a volume, and the nodes that it is published to. A volume
/// or nodes that the entry lacks are `null`.
pub(crate) fn entry(alloc: Global, entry: &Entry) -> Json {
    json!(in alloc; {
        "volume": volume(alloc, entry.volume.as_ref())?,
        "status": status(alloc, entry.nodes.as_ref())?,
    })
}

/// Returns a JSON object of these entries and the token of the next page. The token is empty after the last
/// page.
pub(crate) fn listing(alloc: Global, entries: Vec<Value>, token: &str) -> Json {
    json!(in alloc; {"entries": entries, "nextToken": token})
}

fn entries(alloc: Global, entries: &Items<Entry>, token: &Text) -> Json {
    let mut array = Vec::new(alloc);
    for one in entries {
        array.push(entry(alloc, one)?)?;
    }
    listing(alloc, array, token.as_str())
}

fn capability(alloc: Global, capability: &Capability) -> Json {
    let mode = match capability.mode {
        Some(mode) => json!(in alloc; {"mode": named(alloc, &MODE_NAMES, mode)?})?,
        None => Value::Null,
    };
    match &capability.access {
        Access::Missing => json!(in alloc; {"accessMode": mode}),
        Access::Block => json!(in alloc; {"block": {}, "accessMode": mode}),
        Access::Mount(mount) => json!(in alloc; {
            "mount": {
                "fsType": mount.get().fs_type.as_str(),
                "mountFlags": texts(alloc, &mount.get().flags)?,
                "volumeMountGroup": mount.get().group.as_str(),
            },
            "accessMode": mode,
        }),
    }
}

fn confirmed(alloc: Global, confirmed: &Confirmed) -> Json {
    let mut array = Vec::new(alloc);
    for one in &confirmed.capabilities {
        array.push(capability(alloc, one)?)?;
    }
    json!(in alloc; {
        "volumeContext": object(alloc, &confirmed.context)?,
        "volumeCapabilities": array,
        "parameters": object(alloc, &confirmed.parameters)?,
    })
}

fn validated(alloc: Global, found: Option<&Confirmed>, message: &Text) -> Json {
    let found = match found {
        Some(found) => confirmed(alloc, found)?,
        None => Value::Null,
    };
    json!(in alloc; {"confirmed": found, "message": message.as_str()})
}

// Returns capabilities as a JSON object. Each capability is an object with the key `field`. Its value is
// `null`, or an object whose `type` is a name in `names` or, for a number without a name, the number.
fn capabilities(alloc: Global, field: &str, names: &[&str], types: &Items<Option<i32>>) -> Json {
    let mut array = Vec::new(alloc);
    for number in types {
        let value = match number {
            Some(number) => json!(in alloc; {"type": named(alloc, names, *number)?})?,
            None => Value::Null,
        };
        array.push(json!(in alloc; {(field): value})?)?;
    }
    json!(in alloc; {"capabilities": array})
}

fn capacity(alloc: Global, available: i64, maximum: Option<i64>) -> Json {
    let maximum = match maximum {
        Some(maximum) => int64(alloc, maximum)?,
        None => Value::Null,
    };
    json!(in alloc; {"availableCapacity": int64(alloc, available)?, "maximumVolumeSize": maximum})
}

fn ready(alloc: Global, ready: Option<bool>) -> Json {
    let ready = match ready {
        Some(ready) => Value::from(ready),
        None => Value::Null,
    };
    json!(in alloc; {"ready": ready})
}

/// Returns a response as a JSON object. The keys are the names of the fields in the CSI specification, in the
/// mapping of proto3, such as `volumeId`.
pub(crate) fn response(alloc: Global, response: &Response) -> Json {
    match response {
        Response::PluginInfo { name, version } => {
            json!(in alloc; {"name": name.as_str(), "vendorVersion": version.as_str()})
        }
        Response::PluginCapabilities(types) => capabilities(alloc, "service", &SERVICES, types),
        Response::Probe(value) => ready(alloc, *value),
        Response::ControllerCapabilities(types) => capabilities(alloc, "rpc", &CALLS, types),
        Response::Create(info) => json!(in alloc; {"volume": volume(alloc, info.as_ref())?}),
        Response::Delete | Response::Unpublish | Response::Modify => json!(in alloc; {}),
        Response::Publish(context) => {
            json!(in alloc; {"publishContext": object(alloc, context)?})
        }
        Response::Validate { confirmed, message } => {
            validated(alloc, confirmed.as_ref(), message)
        }
        Response::List {
            entries: listed,
            token,
        } => entries(alloc, listed, token),
        Response::Capacity { available, maximum } => capacity(alloc, *available, *maximum),
    }
}

/// Returns a refusal as a `google.rpc.Status` in JSON, with the status of the reply as `code` and its text as
/// `message`. The text of a reply has only ASCII characters.
pub(crate) fn refusal(alloc: Global, reply: &Reply<'_>) -> Json {
    let message = str::from_utf8(reply.text).unwrap_or("");
    json!(in alloc; {"code": reply.status, "message": message})
}

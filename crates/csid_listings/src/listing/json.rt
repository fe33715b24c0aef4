//! Writes a listing for programs: one JSON document, with a line for each volume.

use super::cells::mode_name;
use super::output::Output;
use super::sums::{Counted, Sums};
use super::{TablesCopy, Visit};
use csi_keeper::{CapKey, Kind, Volume};
use csi_rules::ID_PREFIX;
use csi_types::{Items, Map as TextMap, Text};
use csid_settings::{Chosen, Failure};
use serde_json::{Map, Value, json};
use sqlite::Alter;
use std::alloc::{AllocError, Global};

type Json = Result<Value, AllocError>;

fn capability(alloc: Global, key: &CapKey) -> Json {
    let mode = mode_name(key.mode);
    match &key.kind {
        Kind::Block => json!(in alloc; {"access": "block", "mode": mode}),
        Kind::Mount(kind) => {
            json!(in alloc; {"access": "mount", "fsType": kind.as_str(), "mode": mode})
        }
    }
}

fn capabilities(alloc: Global, keys: &Items<CapKey>) -> Json {
    let mut array = Vec::new(alloc);
    for key in keys {
        array.push(capability(alloc, key)?)?;
    }
    Ok(Value::Array(array))
}

fn object(alloc: Global, map: &TextMap) -> Json {
    let mut object = Map::new(alloc);
    for (key, value) in map {
        let value = Value::try_from_str(alloc, value.as_str())?;
        object.insert(String::from_str(alloc, key.as_str())?, value)?;
    }
    Ok(Value::Object(object))
}

fn texts(alloc: Global, texts: &Items<Text>) -> Json {
    let mut array = Vec::new(alloc);
    for text in texts {
        array.push(Value::try_from_str(alloc, text.as_str())?)?;
    }
    Ok(Value::Array(array))
}

fn volume_value(alloc: Global, volume: &Volume, nodes: &Items<Text>) -> Json {
    let id = format!(in alloc; "{ID_PREFIX}{}", volume.number)?;
    json!(in alloc; {
        "id": id.as_str(),
        "name": volume.name.as_str(),
        "pool": volume.pool.as_str(),
        "bytes": volume.bytes,
        "capabilities": capabilities(alloc, &volume.caps)?,
        "parameters": object(alloc, &volume.params)?,
        "mutableParameters": object(alloc, &volume.mutable)?,
        "nodes": texts(alloc, nodes)?,
    })
}

fn sum_values(alloc: Global, key: &'static str, sums: &Sums) -> Json {
    let mut array = Vec::new(alloc);
    for (name, sum) in sums {
        let mut object = Map::new(alloc);
        object.insert(
            String::from_str(alloc, key)?,
            Value::try_from_str(alloc, name.as_str())?,
        )?;
        object.insert(
            String::from_str(alloc, "volumes")?,
            Value::from(sum.volumes),
        )?;
        object.insert(String::from_str(alloc, "bytes")?, Value::from(sum.bytes))?;
        array.push(Value::Object(object))?;
    }
    Ok(Value::Array(array))
}

// Writes each volume on a line of its own.
#[derive(Drop)]
struct Lines<'a> {
    alloc: Global,
    output: Output<'a>,
    counted: Counted,
    has_one: bool,
}

impl Visit for Lines<'_> {
    fn visit(&mut self, volume: &Volume, nodes: &Items<Text>) -> Result<(), Failure> {
        self.counted.add(self.alloc, volume, nodes)?;
        let value = volume_value(self.alloc, volume, nodes)?;
        self.output.push(if self.has_one { ",\n" } else { "\n" })?;
        self.has_one = true;
        self.output.push(value.to_string(self.alloc)?.as_str())
    }
}

/// Writes a JSON object of three lists on standard output: the `volumes` that pass the filter, and their sums
/// for each of the `pools` and the `nodes` that have such volumes.
///
/// # Errors
///
/// If the volumes cannot be read, standard output cannot be written, or memory is refused. The beginning of
/// the object may then have been written.
pub(crate) fn write<S: Alter + Drop>(
    rt: &HostRuntime,
    tables: &mut TablesCopy<'_, S>,
    chosen: &Chosen<'_>,
) -> Result<(), Failure> {
    let alloc = rt.alloc();
    let mut lines = Lines {
        alloc,
        output: Output::new(rt),
        counted: Counted::new(alloc),
        has_one: false,
    };
    lines.output.push("{\"volumes\":[")?;
    tables.each(chosen, &mut lines)?;
    let Lines {
        mut output,
        counted,
        ..
    } = lines;
    let pools = sum_values(alloc, "name", &counted.pools)?.to_string(alloc)?;
    let nodes = sum_values(alloc, "id", &counted.nodes)?.to_string(alloc)?;
    let end = format!(in alloc; "\n],\n\"pools\":{pools},\n\"nodes\":{nodes}}}\n")?;
    output.push(end.as_str())?;
    output.flush()
}

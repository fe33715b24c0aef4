//! Groups volumes by node or by pool, for `csictl nodes`, `csictl pools` and `csictl status`.

use crate::configuration::{Configuration, Place};
use crate::json::{put, topologies};
use crate::pages::Taker;
use crate::sizes::size_text;
use crate::words::{pool_of, topologies_word};
use command_line::{Table, or_dash, put_next, word};
use csi_types::{Entry, Items, Map as Segments, Text, VolumeInfo};
use serde_json::{Map, Value};
use std::alloc::{AllocError, Global};

/// What the volumes are grouped by.
#[derive(Clone, Copy, PartialEq, Eq)]
pub(crate) enum GroupedBy {
    Node,
    Pool,
}

// The sums of the volumes that are published to one node or are in one pool. A pool that the configuration
// does not have has one group for each topology of its volumes.
#[derive(Drop)]
struct Group {
    // The id of the node or the name of the pool. It is empty for volumes whose context names no pool.
    name: Text,
    // The topologies of the pool, as one word and as a JSON array. For a node, the word is `-` and the array
    // is empty.
    topology: String,
    topology_value: Value,
    // The size of the pool in bytes, or the greatest number of volumes of the node. `None` without a
    // configuration, and for a pool or node that the configuration does not have.
    most: Option<i64>,
    volumes: u64,
    bytes: i64,
    ids: Vec<Text>,
}

/// Volumes in groups. The groups of the configuration come first, in its order, if a configuration is known.
/// Other groups follow in the order in which their first volumes were counted.
#[derive(Drop)]
pub(crate) struct Groups {
    by: GroupedBy,
    // True if a configuration is known.
    is_configured: bool,
    // True if the ids of the volumes are kept.
    are_ids_kept: bool,
    groups: Vec<Group>,
}

fn size_or_dash(alloc: Global, bytes: Option<i64>) -> Result<String, AllocError> {
    match bytes {
        Some(bytes) => size_text(alloc, bytes),
        None => word(alloc, ""),
    }
}

impl Group {
    fn new(
        alloc: Global,
        name: &str,
        topology: &Items<Segments>,
        most: Option<i64>,
    ) -> Result<Group, AllocError> {
        Ok(Group {
            name: Text::from_str(alloc, name)?,
            topology: topologies_word(alloc, topology)?,
            topology_value: topologies(alloc, topology)?,
            most,
            volumes: 0,
            bytes: 0,
            ids: Vec::new(alloc),
        })
    }

    // Returns true if a volume of this pool or node with this topology counts in the group. In a group of the
    // configuration, volumes count with any topology.
    fn is_of(&self, name: &str, topology: &str) -> bool {
        self.name.as_str() == name && (self.most.is_some() || self.topology.as_str() == topology)
    }

    // Adds a volume to the sums, and keeps its id if `is_id_kept` is true. Without a volume, adds a volume of
    // 0 bytes with an empty id.
    fn count(
        &mut self,
        alloc: Global,
        volume: Option<&VolumeInfo>,
        is_id_kept: bool,
    ) -> Result<(), AllocError> {
        let (id, bytes) = match volume {
            Some(volume) => (volume.id.as_str(), volume.bytes),
            None => ("", 0),
        };
        self.volumes = self.volumes.saturating_add(1);
        self.bytes = self.bytes.saturating_add(bytes);
        if is_id_kept {
            self.ids.push(Text::from_str(alloc, id)?)?;
        }
        Ok(())
    }

    fn clear(&mut self) {
        self.volumes = 0;
        self.bytes = 0;
        self.ids.clear();
    }

    // Returns the free bytes of a pool: its size minus the sizes of its volumes. The result is negative if
    // the volumes have more bytes. Returns `None` if the size of the pool is not known.
    fn free(&self) -> Option<i64> {
        match self.most {
            Some(most) => Some(most.saturating_sub(self.bytes)),
            None => None,
        }
    }

    // Returns the kept ids of the volumes with commas between them, or `-` if there are none.
    fn ids_word(&self, alloc: Global) -> Result<String, AllocError> {
        let mut out = String::new(alloc);
        for id in &self.ids {
            let id = word(alloc, id.as_str())?;
            put_next(&mut out, ",", id.as_str())?;
        }
        or_dash(out)
    }

    // Returns the greatest number of volumes of a node, or `-` if it is not known.
    fn most_word(&self, alloc: Global) -> Result<String, AllocError> {
        match self.most {
            Some(most) => format!(in alloc; "{most}"),
            None => word(alloc, ""),
        }
    }

    // Makes the row of a node: its id and the number of its volumes. If a configuration is known, the
    // greatest number of volumes follows. If `has_ids` is true, the ids of the volumes follow.
    fn node_row(
        &self,
        alloc: Global,
        is_configured: bool,
        has_ids: bool,
    ) -> Result<Vec<String>, AllocError> {
        let mut row = Vec::new(alloc);
        row.push(word(alloc, self.name.as_str())?)?;
        row.push(format!(in alloc; "{}", self.volumes)?)?;
        if is_configured {
            row.push(self.most_word(alloc)?)?;
        }
        if has_ids {
            row.push(self.ids_word(alloc)?)?;
        }
        Ok(row)
    }

    // Makes the row of a pool: its name, its topology, the number of its volumes and the sum of their sizes.
    // If a configuration is known, the free bytes and the size of the pool follow.
    fn pool_row(&self, alloc: Global, is_configured: bool) -> Result<Vec<String>, AllocError> {
        let mut row = Vec::new(alloc);
        row.push(word(alloc, self.name.as_str())?)?;
        row.push(self.topology.clone()?)?;
        row.push(format!(in alloc; "{}", self.volumes)?)?;
        row.push(size_text(alloc, self.bytes)?)?;
        if is_configured {
            row.push(size_or_dash(alloc, self.free())?)?;
            row.push(size_or_dash(alloc, self.most)?)?;
        }
        Ok(row)
    }

    fn ids_value(&self, alloc: Global) -> Result<Value, AllocError> {
        let mut array = Vec::new(alloc);
        for id in &self.ids {
            array.push(Value::try_from_str(alloc, id.as_str())?)?;
        }
        Ok(Value::Array(array))
    }

    // Makes a JSON object with the members that nodes and pools share: the id of the node or the name of the
    // pool, the number of volumes, and the sum of their bytes. The argument `name` is the key of the first
    // member.
    fn sums(&self, alloc: Global, name: &str) -> Result<Map<String, Value>, AllocError> {
        let mut object = Map::new(alloc);
        let text = Value::try_from_str(alloc, self.name.as_str())?;
        put(alloc, &mut object, name, text)?;
        put(alloc, &mut object, "volumes", Value::from(self.volumes))?;
        put(alloc, &mut object, "bytes", Value::from(self.bytes))?;
        Ok(object)
    }

    fn node_value(&self, alloc: Global, has_ids: bool) -> Result<Value, AllocError> {
        let mut object = self.sums(alloc, "id")?;
        if has_ids {
            put(alloc, &mut object, "volumeIds", self.ids_value(alloc)?)?;
        }
        if let Some(most) = self.most {
            put(alloc, &mut object, "maxVolumes", Value::from(most))?;
        }
        Ok(Value::Object(object))
    }

    fn pool_value(&self, alloc: Global) -> Result<Value, AllocError> {
        let mut object = self.sums(alloc, "name")?;
        let topology = self.topology_value.clone()?;
        put(alloc, &mut object, "accessibleTopology", topology)?;
        if let Some(free) = self.free() {
            put(alloc, &mut object, "freeBytes", Value::from(free))?;
        }
        if let Some(most) = self.most {
            put(alloc, &mut object, "sizeBytes", Value::from(most))?;
        }
        Ok(Value::Object(object))
    }
}

impl Taker for Groups {
    fn restart(&mut self) {
        self.groups.retain(|group| group.most.is_some());
        for group in self.groups.iter_mut() {
            group.clear();
        }
    }

    fn take_entry(&mut self, alloc: Global, entry: Entry) -> Result<(), AllocError> {
        self.count(alloc, &entry)
    }
}

impl Groups {
    /// Makes a group without volumes for each node of the configuration, or for each pool if `by` is
    /// [`GroupedBy::Pool`]. Without a configuration, there are no groups yet. If `are_ids_kept` is true, the
    /// groups keep the ids of their volumes, and a listing of nodes shows them.
    ///
    /// # Errors
    ///
    /// If memory is refused.
    pub(crate) fn new(
        alloc: Global,
        by: GroupedBy,
        are_ids_kept: bool,
        configuration: Option<&Configuration>,
    ) -> Result<Groups, AllocError> {
        let mut groups = Groups {
            by,
            is_configured: configuration.is_some(),
            are_ids_kept,
            groups: Vec::new(alloc),
        };
        if let Some(configuration) = configuration {
            groups.add_places(
                alloc,
                match by {
                    GroupedBy::Node => configuration.nodes.as_slice(),
                    GroupedBy::Pool => configuration.pools.as_slice(),
                },
            )?;
        }
        Ok(groups)
    }

    fn add_places(&mut self, alloc: Global, places: &[Place]) -> Result<(), AllocError> {
        for place in places {
            let name = place.name.as_str();
            let group = Group::new(alloc, name, &place.topology, Some(place.most))?;
            self.groups.push(group)?;
        }
        Ok(())
    }

    // Counts a volume in its group, and returns true. If the group does not exist, only returns false.
    fn is_counted(
        &mut self,
        alloc: Global,
        name: &str,
        topology: &str,
        volume: Option<&VolumeInfo>,
    ) -> Result<bool, AllocError> {
        let is_id_kept = self.are_ids_kept;
        for group in self.groups.iter_mut() {
            if group.is_of(name, topology) {
                group.count(alloc, volume, is_id_kept)?;
                return Ok(true);
            }
        }
        Ok(false)
    }

    // Counts a volume in its group. If the group does not exist, makes it first.
    fn add(
        &mut self,
        alloc: Global,
        name: &str,
        topology: &Items<Segments>,
        volume: Option<&VolumeInfo>,
    ) -> Result<(), AllocError> {
        let word = topologies_word(alloc, topology)?;
        if self.is_counted(alloc, name, word.as_str(), volume)? {
            return Ok(());
        }
        let mut group = Group::new(alloc, name, topology, None)?;
        group.count(alloc, volume, self.are_ids_kept)?;
        Ok(self.groups.push(group)?)
    }

    // Counts a volume in the group of each of its nodes.
    fn add_by_node(&mut self, alloc: Global, entry: &Entry) -> Result<(), AllocError> {
        let Some(nodes) = &entry.nodes else {
            return Ok(());
        };
        let topology = Items::new(alloc);
        for node in nodes {
            self.add(alloc, node.as_str(), &topology, entry.volume.as_ref())?;
        }
        Ok(())
    }

    /// Counts a volume in the group of each of its nodes, or in the group of its pool. Volumes whose context
    /// names no pool are grouped by their topology alone. An entry without a volume does not count in a pool.
    ///
    /// # Errors
    ///
    /// If memory is refused.
    pub(crate) fn count(&mut self, alloc: Global, entry: &Entry) -> Result<(), AllocError> {
        if self.by == GroupedBy::Node {
            return self.add_by_node(alloc, entry);
        }
        match &entry.volume {
            Some(volume) => self.add(alloc, pool_of(volume), &volume.topology, Some(volume)),
            None => Ok(()),
        }
    }

    // Returns the headings of the table.
    fn headings(&self) -> &'static [&'static str] {
        match (self.by, self.is_configured, self.are_ids_kept) {
            (GroupedBy::Node, false, true) => &["NODE", "VOLUMES", "IDS"],
            (GroupedBy::Node, false, false) => &["NODE", "VOLUMES"],
            (GroupedBy::Node, true, true) => &["NODE", "VOLUMES", "MAXIMUM", "IDS"],
            (GroupedBy::Node, true, false) => &["NODE", "VOLUMES", "MAXIMUM"],
            (GroupedBy::Pool, false, _) => &["POOL", "TOPOLOGY", "VOLUMES", "SIZE"],
            (GroupedBy::Pool, true, _) => {
                &["POOL", "TOPOLOGY", "VOLUMES", "USED", "FREE", "SIZE"]
            }
        }
    }

    fn row(&self, alloc: Global, group: &Group) -> Result<Vec<String>, AllocError> {
        match self.by {
            GroupedBy::Node => group.node_row(alloc, self.is_configured, self.are_ids_kept),
            GroupedBy::Pool => group.pool_row(alloc, self.is_configured),
        }
    }

    /// Returns a table as a text, with a line of headings and a line for each group.
    ///
    /// # Errors
    ///
    /// If memory is refused.
    pub(crate) fn text(&self, alloc: Global) -> Result<String, AllocError> {
        let mut table = Table::with_headings(alloc, self.headings())?;
        for group in &self.groups {
            table.add(self.row(alloc, group)?)?;
        }
        table.text(alloc)
    }

    /// Returns the groups as a JSON array.
    ///
    /// # Errors
    ///
    /// If memory is refused.
    pub(crate) fn array(&self, alloc: Global) -> Result<Value, AllocError> {
        let mut array = Vec::new(alloc);
        for group in &self.groups {
            array.push(match self.by {
                GroupedBy::Node => group.node_value(alloc, self.are_ids_kept)?,
                GroupedBy::Pool => group.pool_value(alloc)?,
            })?;
        }
        Ok(Value::Array(array))
    }

    /// Returns a JSON object with one member, the array of the groups. Its key is `nodes` or `pools`.
    ///
    /// # Errors
    ///
    /// If memory is refused.
    pub(crate) fn object(&self, alloc: Global) -> Result<Value, AllocError> {
        let key = match self.by {
            GroupedBy::Node => "nodes",
            GroupedBy::Pool => "pools",
        };
        let mut object = Map::new(alloc);
        put(alloc, &mut object, key, self.array(alloc)?)?;
        Ok(Value::Object(object))
    }
}

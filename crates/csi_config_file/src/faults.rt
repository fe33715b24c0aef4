//! Finds the faults of all parts of a configuration at once.

ghost use Rattle.std.specs.Prelude.{◌≡◌};
ghost use Rattle.std.specs.FinMap.{entries};
ghost use Rattle.std.specs.List.{list_any};
ghost use Rattle.csi_config.specs.Faults.{breaks_segment};
ghost use Rattle.csi_config_file.specs.Faults.{pool_breaks};

use crate::config_file::{ConfigError, Key, KeyRule, Keys, Section, element};
use csi_config::{
    Config, ConfigFault, GRANULE_BYTES, Node, NodeRule, Plugin, Pool, PoolRule, SizeRule, Sizes,
    is_whole,
};
use csi_types::{
    MAX_NODES, MAX_POOL_BYTES, MAX_POOLS, MAX_SEGMENTS, MAX_TEXT_BYTES, MAX_VOLUMES, Map, Text,
    has_alike_keys,
};
use std::alloc::{AllocError, Global};
use std::collections::BTreeSet;
use toml::{Table, Value};

const FAULTLESS_SIZES: Sizes = Sizes {
    default_bytes: GRANULE_BYTES,
    greatest_bytes: GRANULE_BYTES,
};

// The rules for the default size and the greatest size, in the order of [`SizeRule`].
const SIZE_RULES: [SizeRule; 4] = [
    SizeRule::Default,
    SizeRule::Greatest,
    SizeRule::Order,
    SizeRule::Limit,
];

// The rules for the size and the segments of a pool, in the order of [`PoolRule`].
const POOL_RULES: [PoolRule; 6] = [
    PoolRule::Bytes,
    PoolRule::Segments,
    PoolRule::KeyEmpty,
    PoolRule::KeyTooLong,
    PoolRule::ValueTooLong,
    PoolRule::KeysAlike,
];

// Returns true if the sizes break the rule. A size is `None` if it cannot be read. It then breaks no rule.
fn sizes_break(rule: SizeRule, default_bytes: Option<u64>, greatest_bytes: Option<u64>) -> bool {
    match rule {
        SizeRule::Default => default_bytes.is_some_and(|bytes| !is_whole(bytes)),
        SizeRule::Greatest => greatest_bytes.is_some_and(|bytes| !is_whole(bytes)),
        SizeRule::Order => match (default_bytes, greatest_bytes) {
            (Some(default_bytes), Some(greatest_bytes)) => default_bytes > greatest_bytes,
            _ => false,
        },
        SizeRule::Limit => greatest_bytes.is_some_and(|bytes| bytes > MAX_POOL_BYTES),
    }
}

// Returns true if a segment with this key and value breaks the rule. Returns false for a rule that is not
// about a single segment.
fn breaks_segment(rule: PoolRule, key: &Text, value: &Text) -> bool
    ensures { result ≡ breaks_segment rule (key.now, value.now) }
{
    match rule {
        PoolRule::KeyEmpty => key.is_empty(),
        PoolRule::KeyTooLong => key.len() > MAX_TEXT_BYTES,
        PoolRule::ValueTooLong => value.len() > MAX_TEXT_BYTES,
        _ => false,
    }
}

fn has_broken_segment(rule: PoolRule, segments: &Map) -> bool
    ensures { result ≡ list_any (breaks_segment rule) (entries segments.now) }
{
    segments
        .iter()
        .any(|(key, value)| breaks_segment(rule, key, value))
}

// Returns true if a pool breaks a rule for its size or its segments. Returns false for a rule for its name.
fn pool_breaks(rule: PoolRule, pool: &Pool) -> bool
    ensures { result ≡ pool_breaks rule pool.now }
{
    match rule {
        PoolRule::Name | PoolRule::NameTwice => false,
        PoolRule::Bytes => !is_whole(pool.bytes),
        PoolRule::Segments => pool.segments.len() > MAX_SEGMENTS,
        PoolRule::KeyEmpty | PoolRule::KeyTooLong | PoolRule::ValueTooLong => {
            has_broken_segment(rule, &pool.segments)
        }
        PoolRule::KeysAlike => has_alike_keys(&pool.segments),
    }
}

// Returns the number of a pool or node as a text. Faults contain it if the name or id cannot be read.
fn number_text(alloc: Global, number: usize) -> Result<Text, AllocError> {
    Ok(Text::from_string(format!(in alloc; "{number}")?))
}

// The faults that were found so far, and the allocator of their texts.
#[derive(Drop)]
struct Faults {
    alloc: Global,
    found: Vec<ConfigError>,
}

impl Faults {
    fn push(&mut self, fault: ConfigFault) -> Result<(), AllocError> {
        self.found.push(ConfigError::Fault(fault))?;
        Ok(())
    }

    // Returns the value that was read. If reading found a fault of the document, adds the fault to the list
    // and returns `None`. Fails if memory was refused.
    fn keep<T: Drop>(&mut self, read: Result<T, ConfigError>) -> Result<Option<T>, AllocError> {
        match read {
            Ok(part) => Ok(Some(part)),
            Err(ConfigError::NoMemory) => Err(AllocError),
            Err(error) => {
                self.found.push(error)?;
                Ok(None)
            }
        }
    }

    // Makes a valid plugin, so that `judge` finds only the faults of other parts.
    fn plugin(&self) -> Result<Plugin, AllocError> {
        Ok(Plugin {
            name: Text::from_str(self.alloc, "a")?,
            version: Text::from_str(self.alloc, "1")?,
        })
    }

    // Makes a valid pool, so that `judge` finds only the faults of other parts.
    fn pool(&self) -> Result<Pool, AllocError> {
        Ok(Pool {
            name: Text::from_str(self.alloc, "a")?,
            bytes: GRANULE_BYTES,
            segments: Map::new(self.alloc),
        })
    }

    // Makes a configuration of these parts, and adds its first fault. The caller has made all parts valid
    // except one, so the fault is in this one part.
    fn judge(&mut self, plugin: Plugin, pool: Pool, node: Option<Node>) -> Result<(), AllocError> {
        let mut pools = Vec::new(self.alloc);
        pools.push(pool)?;
        let mut nodes = Vec::new(self.alloc);
        if let Some(node) = node {
            nodes.push(node)?;
        }
        if let Err(fault) = Config::new(plugin, FAULTLESS_SIZES, pools, nodes) {
            self.push(fault)?;
        }
        Ok(())
    }

    fn judge_plugin(&mut self, plugin: Plugin) -> Result<(), AllocError> {
        let pool = self.pool()?;
        self.judge(plugin, pool, None)
    }

    fn judge_pool(&mut self, pool: Pool) -> Result<(), AllocError> {
        let plugin = self.plugin()?;
        self.judge(plugin, pool, None)
    }

    fn judge_node(&mut self, node: Node) -> Result<(), AllocError> {
        let plugin = self.plugin()?;
        let pool = self.pool()?;
        self.judge(plugin, pool, Some(node))
    }

    // Adds the faults of the plugin's name and version.
    fn add_plugin(&mut self, top: &Keys<'_>) -> Result<(), AllocError> {
        let name = self.keep(top.text(self.alloc, Key::Name))?;
        let version = self.keep(top.text(self.alloc, Key::VendorVersion))?;
        if let Some(name) = name {
            let mut plugin = self.plugin()?;
            plugin.name = name;
            self.judge_plugin(plugin)?;
        }
        if let Some(version) = version {
            let mut plugin = self.plugin()?;
            plugin.version = version;
            self.judge_plugin(plugin)?;
        }
        Ok(())
    }

    // Adds each rule that the default size and the greatest size break.
    fn add_sizes(&mut self, top: &Keys<'_>) -> Result<(), AllocError> {
        let default_bytes = self.keep(top.count(Key::DefaultBytes))?;
        let greatest_bytes = self.keep(top.count(Key::GreatestBytes))?;
        for rule in SIZE_RULES {
            if sizes_break(rule, default_bytes, greatest_bytes) {
                self.push(ConfigFault::Sizes(rule))?;
            }
        }
        Ok(())
    }

    // Adds the faults of a pool's name: that it is invalid, and that an earlier pool has it. `names` has the
    // names of the earlier pools, and the call adds this one.
    fn add_pool_name(&mut self, name: Text, names: &mut BTreeSet<Text>) -> Result<(), AllocError> {
        let mut pool = self.pool()?;
        pool.name = name.copy(self.alloc)?;
        self.judge_pool(pool)?;
        if !names.insert(name.copy(self.alloc)?)? {
            let rule = PoolRule::NameTwice;
            self.push(ConfigFault::Pool { name, rule })?;
        }
        Ok(())
    }

    // Adds each rule for its size and its segments that a pool breaks.
    fn add_pool_rules(&mut self, pool: &Pool) -> Result<(), AllocError> {
        for rule in POOL_RULES {
            if pool_breaks(rule, pool) {
                let name = pool.name.copy(self.alloc)?;
                self.push(ConfigFault::Pool { name, rule })?;
            }
        }
        Ok(())
    }

    // Adds the faults of one pool: the faults of its keys, the faults of its name, and each rule for its size
    // and its segments that it breaks. `number` is the number of the pool, counted from 1. `names` has the
    // names of the earlier pools, and the call adds the pool's name. Returns the bytes of the pool, or 0 if
    // they cannot be read.
    fn add_pool(
        &mut self,
        number: usize,
        keys: &Keys<'_>,
        names: &mut BTreeSet<Text>,
    ) -> Result<u64, AllocError> {
        let mut pool = self.pool()?;
        pool.name = number_text(self.alloc, number)?;
        let name = self.keep(keys.text(self.alloc, Key::Name))?;
        let bytes = self.keep(keys.count(Key::Bytes))?;
        if let Some(segments) = self.keep(keys.segments(self.alloc))? {
            pool.segments = segments;
        }
        if let Some(bytes) = bytes {
            pool.bytes = bytes;
        }
        if let Some(name) = name {
            pool.name = name.copy(self.alloc)?;
            self.add_pool_name(name, names)?;
        }
        self.add_pool_rules(&pool)?;
        Ok(bytes.unwrap_or(0))
    }

    fn add_each_pool(&mut self, array: &[Value]) -> Result<(), AllocError> {
        let mut names = BTreeSet::new(self.alloc);
        let mut sum: u64 = 0;
        for (index, value) in array.iter().enumerate() {
            let number = index.saturating_add(1);
            let Some(keys) = self.keep(element(value, Key::Pool, Section::Pool(number)))? else {
                return Ok(());
            };
            sum = sum.saturating_add(self.add_pool(number, &keys, &mut names)?);
        }
        if sum > MAX_POOL_BYTES {
            self.push(ConfigFault::AllBytes)?;
        }
        Ok(())
    }

    // Adds the fault of the number of pools, the faults of each pool, and the fault of the sum of their
    // sizes.
    fn add_pools(&mut self, top: &Keys<'_>) -> Result<(), AllocError> {
        if let Some(pools) = self.keep(top.value(Key::Pool))? {
            let Some(array) = pools.as_array() else {
                self.found.push(top.error(Key::Pool, KeyRule::Tables))?;
                return Ok(());
            };
            if array.is_empty() {
                self.push(ConfigFault::NoPool)?;
            }
            if array.len() > MAX_POOLS {
                self.push(ConfigFault::TooManyPools)?;
            }
            return self.add_each_pool(array.as_slice());
        }
        Ok(())
    }

    // Adds the faults of a node's id: that it is invalid, and that an earlier node has it. `ids` has the ids
    // of the earlier nodes, and the call adds this one.
    fn add_node_id(&mut self, id: Text, ids: &mut BTreeSet<Text>) -> Result<(), AllocError> {
        self.judge_node(Node {
            id: id.copy(self.alloc)?,
            max_volumes: 1,
        })?;
        if !ids.insert(id.copy(self.alloc)?)? {
            let rule = NodeRule::IdTwice;
            self.push(ConfigFault::Node { id, rule })?;
        }
        Ok(())
    }

    // Adds the faults of one node. `number` is the number of the node, counted from 1. `ids` has the ids of
    // the earlier nodes, and the call adds the node's id.
    fn add_node(
        &mut self,
        number: usize,
        keys: &Keys<'_>,
        ids: &mut BTreeSet<Text>,
    ) -> Result<(), AllocError> {
        let mut shown = number_text(self.alloc, number)?;
        let id = self.keep(keys.text(self.alloc, Key::Id))?;
        let max_volumes = self.keep(keys.count(Key::MaxVolumes))?;
        if let Some(id) = id {
            shown = id.copy(self.alloc)?;
            self.add_node_id(id, ids)?;
        }
        if max_volumes.is_some_and(|most| most == 0 || most > MAX_VOLUMES) {
            let rule = NodeRule::Volumes;
            self.push(ConfigFault::Node { id: shown, rule })?;
        }
        Ok(())
    }

    fn add_each_node(&mut self, array: &[Value]) -> Result<(), AllocError> {
        let mut ids = BTreeSet::new(self.alloc);
        for (index, value) in array.iter().enumerate() {
            let number = index.saturating_add(1);
            let Some(keys) = self.keep(element(value, Key::Node, Section::Node(number)))? else {
                return Ok(());
            };
            self.add_node(number, &keys, &mut ids)?;
        }
        Ok(())
    }

    // Adds the fault of the number of nodes, then the faults of each node.
    fn add_nodes(&mut self, top: &Keys<'_>) -> Result<(), AllocError> {
        let Some(nodes) = top.find(Key::Node) else {
            return Ok(());
        };
        let Some(array) = nodes.as_array() else {
            self.found.push(top.error(Key::Node, KeyRule::Tables))?;
            return Ok(());
        };
        if array.len() > MAX_NODES {
            self.push(ConfigFault::TooManyNodes)?;
        }
        self.add_each_node(array.as_slice())
    }

    // Adds the faults of a document, part by part.
    fn add_all(&mut self, table: &Table) -> Result<(), AllocError> {
        let top = Keys::top_table(table);
        self.add_plugin(&top)?;
        self.add_sizes(&top)?;
        self.add_pools(&top)?;
        self.add_nodes(&top)
    }
}

/// Returns the faults of a document that [`read_config`](crate::read_config) refuses: the faults of keys, of
/// each pool and each node, and of all pools or all nodes together. Each rule that a pool or a node breaks is
/// one fault. If an element of `pool` or `node` is not a table, the elements after it are not judged. The
/// list is empty if the document has no fault, or if the bytes are not a TOML document.
///
/// # Errors
///
/// If memory is refused.
///
/// # Not promised
///
/// No contract says which faults are found. Tests show them. Only `read_config` decides if a document is
/// refused.
pub fn config_faults(alloc: Global, bytes: &[u8]) -> Result<Vec<ConfigError>, AllocError> {
    let mut faults = Faults {
        alloc,
        found: Vec::new(alloc),
    };
    match toml::table_from_slice(alloc, bytes) {
        Ok(table) => faults.add_all(&table)?,
        Err(error) if error.span().is_none() => return Err(AllocError),
        Err(_) => {}
    }
    let Faults { found, .. } = faults;
    Ok(found)
}

//! Reads a configuration from a TOML document (TOML 1.0).
//!
//! The document is read key by key and not by a derived reader, because a derived reader has no contract
//! about the value, and its messages describe faults poorly.

ghost use Rattle.std.specs.Prelude.{◌≡◌, IfOk, OnOk, Some, None, if◌then◌else◌, option_and_then, option_map};
ghost use Rattle.std.specs.FinMap.{insert};
ghost use Rattle.toml.specs.Data.{as_array, get_member};
ghost use Rattle.toml.specs.View.{items_view, members_view, table_view, view};
ghost use Rattle.csi_config_file.specs.ConfigFile.{IsOfDocument, IsOfText, IsRead};
ghost use Rattle.csi_config_file.specs.Document.{count_at, each, key_text, node_at, node_in, nodes_in, plugin_in, pool_at, pool_in, pools_in, sizes_in, table_in, text_at, texts_of, value_at, with_texts};
ghost use Rattle.csi_config_file.specs.declared.config_file.ConfigError.TheVariants as error;
ghost use Rattle.csi_config_file.specs.declared.config_file.Key.TheVariants as key_of;
ghost use Rattle.csi_config_file.specs.declared.config_file.Section.TheVariants as section_of;

use csi_config::{Config, ConfigFault, Node, Plugin, Pool, Sizes};
use csi_types::{Map, Text};
use std::alloc::{AllocError, AllocFailed, Global};
use std::fmt;
use thiserror::Error;
use toml::{Table, Value};

/// A part of a configuration file. Its `Display` is a prefix for messages, such as `pool 1: `. The prefix of
/// [`Section::Top`] is empty.
#[derive(Clone, Copy, Debug)]
pub enum Section {
    /// The top of the document: the keys outside the tables of `pool` and `node`.
    Top,
    /// A table of the array `pool`. The value is the table's number, counted from 1.
    Pool(usize),
    /// A table of the array `node`. The value is the table's number, counted from 1.
    Node(usize),
}

impl fmt::Display for Section {
    fn fmt<W: fmt::Write>(&self, f: &mut fmt::Formatter<W>) -> fmt::Result {
        match self {
            Section::Top => Ok(()),
            Section::Pool(number) => write!(f, "pool {number}: "),
            Section::Node(number) => write!(f, "node {number}: "),
        }
    }
}

/// A key of a configuration file. Its `Display` is the spelling of the key in the file, such as
/// `vendor_version`.
#[derive(Clone, Copy, Debug)]
pub enum Key {
    /// `name`, the name of the plugin or of a pool.
    Name,
    /// `vendor_version`, the version of the plugin, which GetPluginInfo returns.
    VendorVersion,
    /// `default_bytes`, the size in bytes of a volume that is created without a required size and without a
    /// smaller limit.
    DefaultBytes,
    /// `greatest_bytes`, the greatest size of a volume in bytes.
    GreatestBytes,
    /// `[[pool]]`, the array of pools, with one table for each pool.
    Pool,
    /// `bytes`, the size of a pool in bytes.
    Bytes,
    /// `segments`, the topology of a pool: a table of texts.
    Segments,
    /// `[[node]]`, the array of nodes, with one table for each node.
    Node,
    /// `id`, the id of a node, which publish requests contain.
    Id,
    /// `max_volumes`, the greatest number of volumes that can be published to a node.
    MaxVolumes,
}

impl Key {
    // Returns the spelling of the key in the file.
    pub(crate) fn text(self) -> &'static str
        ensures { result.now ≡ key_text self }
    {
        match self {
            Key::Name => "name",
            Key::VendorVersion => "vendor_version",
            Key::DefaultBytes => "default_bytes",
            Key::GreatestBytes => "greatest_bytes",
            Key::Pool => "pool",
            Key::Bytes => "bytes",
            Key::Segments => "segments",
            Key::Node => "node",
            Key::Id => "id",
            Key::MaxVolumes => "max_volumes",
        }
    }
}

impl fmt::Display for Key {
    fn fmt<W: fmt::Write>(&self, f: &mut fmt::Formatter<W>) -> fmt::Result {
        f.write_str(self.text())
    }
}

/// The rule that a key or its value breaks. Its `Display` follows the key in a message, such as `is missing`.
#[derive(Clone, Copy, Debug, Error)]
pub enum KeyRule {
    /// The key is required, but the section does not have it.
    #[error("is missing")]
    Missing,
    /// The value of the key is not a string.
    #[error("is no text")]
    Text,
    /// The value of the key is not an integer from 0 to 2^63 - 1.
    #[error("is no number from 0 to 2^63 - 1")]
    Count,
    /// The value of the key is not an array of tables.
    #[error("is no array of tables")]
    Tables,
    /// The value of the key is not a table of strings.
    #[error("is no table of texts")]
    Texts,
}

/// The reason why no configuration was read from a document. Its `Display` is one line of text. If the
/// document has a fault, the text names the faulty line, key or item of the document, or the broken rule.
#[derive(Debug, Drop, Error)]
pub enum ConfigError {
    /// The bytes are not UTF-8, or not a TOML document.
    #[error("line {line}: it is no TOML in UTF-8")]
    NotToml {
        /// The line of the first fault, counted from 1.
        line: usize,
    },
    /// A key is missing, or its value has the wrong type or is below 0.
    #[error("{section}the key '{key}' {rule}")]
    Key {
        /// The part of the document that has or lacks the key.
        section: Section,
        /// The key that breaks the rule.
        key: Key,
        /// The rule that the key or its value breaks.
        rule: KeyRule,
    },
    /// All keys were read, but the configuration breaks a rule.
    #[error("{0}")]
    Fault(ConfigFault),
    /// Memory was refused while the document was read.
    #[error("out of memory")]
    NoMemory,
}

impl From<AllocError> for ConfigError {
    ghost use Rattle.std.specs.Prelude.{◌≡◌};
    ghost use Rattle.csi_config_file.specs.declared.config_file.ConfigError.TheVariants.{NoMemory};

    ghost from_gives = { λ _ e. e ≡ NoMemory };

    fn from(_: AllocError) -> ConfigError {
        ConfigError::NoMemory
    }
}

impl<T: Drop> From<AllocFailed<T>> for ConfigError {
    ghost use Rattle.std.specs.Prelude.{◌≡◌};
    ghost use Rattle.csi_config_file.specs.declared.config_file.ConfigError.TheVariants.{NoMemory};

    ghost from_gives = { λ _ e. e ≡ NoMemory };

    fn from(_: AllocFailed<T>) -> ConfigError {
        ConfigError::NoMemory
    }
}

fn insert_segment(
    alloc: Global,
    segments: &mut Map,
    key: &str,
    value: &str,
) -> Result<(), AllocError>
    ensures { OnOk result (segments.new ≡ insert segments.old key.now value.now) }
{
    let key = Text::from_str(alloc, key)?;
    segments.insert(key, Text::from_str(alloc, value)?)
}

// Adds the texts of a table to `texts`. Returns false if the table has a value that is not a text.
fn insert_texts(alloc: Global, table: &Table, texts: &mut Map) -> Result<bool, AllocError>
    ensures { IfOk result (λ all. with_texts texts.old (table_view table.now)
        ≡ (if all then Some texts.new else None)) }
{
    for (key, value) in table {
        let Some(text) = value.as_str() else {
            return Ok(false);
        };
        insert_segment(alloc, texts, key.as_str(), text)?;
    }
    Ok(true)
}

// Reads the keys of one table: the top of the document, a pool or a node.
#[derive(Clone, Copy)]
pub(crate) struct Keys<'a> {
    pub(crate) section: Section,
    pub(crate) table: &'a Table,
}

impl<'a> Keys<'a> {
    pub(crate) fn top_table(table: &'a Table) -> Keys<'a>
        ensures section { result.section ≡ section_of.Top }
        ensures table { table_view result.table.now ≡ table_view table.now }
    {
        Keys {
            section: Section::Top,
            table,
        }
    }

    pub(crate) fn error(&self, key: Key, rule: KeyRule) -> ConfigError
        ensures { result ≡ error.Key self.now.section key rule }
    {
        ConfigError::Key {
            section: self.section,
            key,
            rule,
        }
    }

    // Returns the value of a key, or `None` if the table lacks the key.
    pub(crate) fn find(&self, key: Key) -> Option<&'a Value>
        ensures { option_map (λ value. view value.now) result
            ≡ get_member (key_text key) (table_view self.now.table.now) }
    {
        self.table.get(key.text())
    }

    // Returns the array under a key, or `None` if the table lacks the key or its value is not an array.
    pub(crate) fn array(&self, key: Key) -> Option<&'a [Value]>
        ensures { option_map (λ array. items_view array.now) result
            ≡ option_and_then as_array (get_member (key_text key) (table_view self.now.table.now)) }
    {
        match self.find(key)?.as_array() {
            Some(array) => Some(array.as_slice()),
            None => None,
        }
    }

    pub(crate) fn value(&self, key: Key) -> Result<&'a Value, ConfigError>
        ensures { IsRead (λ value. view value.now)
            (value_at self.now.section (table_view self.now.table.now) key) result }
    {
        match self.find(key) {
            Some(value) => Ok(value),
            None => Err(self.error(key, KeyRule::Missing)),
        }
    }

    pub(crate) fn text(&self, alloc: Global, key: Key) -> Result<Text, ConfigError>
        ensures { IsRead (λ read. read) (text_at self.now.section
            (table_view self.now.table.now) key) result }
    {
        match self.value(key)?.as_str() {
            Some(text) => Ok(Text::from_str(alloc, text)?),
            None => Err(self.error(key, KeyRule::Text)),
        }
    }

    pub(crate) fn count(&self, key: Key) -> Result<u64, ConfigError>
        ensures { IsRead (λ read. read) (count_at self.now.section
            (table_view self.now.table.now) key) result }
    {
        match self.value(key)?.as_integer() {
            Some(number) if number >= 0 => Ok(number as u64),
            _ => Err(self.error(key, KeyRule::Count)),
        }
    }

    // Reads the segments of a pool. If the table lacks the key `segments`, the pool has no segments.
    pub(crate) fn segments(&self, alloc: Global) -> Result<Map, ConfigError>
        ensures { IsRead (λ read. read) (texts_of self.now.section
            (get_member (key_text key_of.Segments) (table_view self.now.table.now))) result }
    {
        let mut segments = Map::new(alloc);
        let Some(value) = self.find(Key::Segments) else {
            return Ok(segments);
        };
        match value.as_table() {
            Some(table) if insert_texts(alloc, table, &mut segments)? => Ok(segments),
            _ => Err(self.error(Key::Segments, KeyRule::Texts)),
        }
    }
}

// Returns a reader of the keys of one element of an array of tables. Fails with `KeyRule::Tables` if the
// element is not a table.
pub(crate) fn element<'a>(
    value: &'a Value,
    key: Key,
    section: Section,
) -> Result<Keys<'a>, ConfigError>
    ensures table { IsRead (λ keys. table_view keys.table.now) (table_in key (view value.now)) result }
    ensures section { IfOk result (λ keys. keys.section ≡ section) }
{
    match value.as_table() {
        Some(table) => Ok(Keys { section, table }),
        None => Err(ConfigError::Key {
            section: Section::Top,
            key,
            rule: KeyRule::Tables,
        }),
    }
}

fn pool(alloc: Global, keys: Keys<'_>) -> Result<Pool, ConfigError>
    ensures { IsRead (λ read. read) (pool_in keys.entry.section (table_view keys.entry.table.now)) result }
{
    Ok(Pool {
        name: keys.text(alloc, Key::Name)?,
        bytes: keys.count(Key::Bytes)?,
        segments: keys.segments(alloc)?,
    })
}

fn node(alloc: Global, keys: Keys<'_>) -> Result<Node, ConfigError>
    ensures { IsRead (λ read. read) (node_in keys.entry.section (table_view keys.entry.table.now)) result }
{
    Ok(Node {
        id: keys.text(alloc, Key::Id)?,
        max_volumes: keys.count(Key::MaxVolumes)?,
    })
}

// Reads a pool from an element of the array `pool`. `number` is the number of the element, counted from 1.
fn pool_at(alloc: Global, value: &Value, number: usize) -> Result<Pool, ConfigError>
    ensures { IsRead (λ pool. pool) (pool_at number (view value.now)) result }
{
    pool(alloc, element(value, Key::Pool, Section::Pool(number))?)
}

fn pools_of(alloc: Global, array: &[Value]) -> Result<Vec<Pool>, ConfigError>
    ensures { IsRead (λ pools. pools.items) (each pool_at 1 (items_view array.now)) result }
{
    let mut pools = Vec::new(alloc);
    for (index, value) in array.iter().enumerate() {
        pools.push(pool_at(alloc, value, index.saturating_add(1))?)?;
    }
    Ok(pools)
}

fn pools(alloc: Global, table: &Table) -> Result<Vec<Pool>, ConfigError>
    ensures { IsRead (λ pools. pools.items) (pools_in (table_view table.now)) result }
{
    let top = Keys::top_table(table);
    match top.value(Key::Pool)?.as_array() {
        Some(array) => pools_of(alloc, array.as_slice()),
        None => Err(top.error(Key::Pool, KeyRule::Tables)),
    }
}

// Reads a node from an element of the array `node`. `number` is the number of the element, counted from 1.
fn node_at(alloc: Global, value: &Value, number: usize) -> Result<Node, ConfigError>
    ensures { IsRead (λ node. node) (node_at number (view value.now)) result }
{
    node(alloc, element(value, Key::Node, Section::Node(number))?)
}

fn nodes_of(alloc: Global, array: &[Value]) -> Result<Vec<Node>, ConfigError>
    ensures { IsRead (λ nodes. nodes.items) (each node_at 1 (items_view array.now)) result }
{
    let mut nodes = Vec::new(alloc);
    for (index, value) in array.iter().enumerate() {
        nodes.push(node_at(alloc, value, index.saturating_add(1))?)?;
    }
    Ok(nodes)
}

// Reads the nodes of the document. If the document has no key `node`, the list is empty.
fn nodes(alloc: Global, table: &Table) -> Result<Vec<Node>, ConfigError>
    ensures { IsRead (λ nodes. nodes.items)
        (nodes_in (get_member (key_text key_of.Node) (table_view table.now))) result }
{
    let top = Keys::top_table(table);
    let Some(value) = top.find(Key::Node) else {
        return Ok(Vec::new(alloc));
    };
    match value.as_array() {
        Some(array) => nodes_of(alloc, array.as_slice()),
        None => Err(top.error(Key::Node, KeyRule::Tables)),
    }
}

fn plugin(alloc: Global, table: &Table) -> Result<Plugin, ConfigError>
    ensures { IsRead (λ read. read) (plugin_in (table_view table.now)) result }
{
    let top = Keys::top_table(table);
    Ok(Plugin {
        name: top.text(alloc, Key::Name)?,
        version: top.text(alloc, Key::VendorVersion)?,
    })
}

fn sizes(table: &Table) -> Result<Sizes, ConfigError>
    ensures { IsRead (λ read. read) (sizes_in (table_view table.now)) result }
{
    let top = Keys::top_table(table);
    Ok(Sizes {
        default_bytes: top.count(Key::DefaultBytes)?,
        greatest_bytes: top.count(Key::GreatestBytes)?,
    })
}

fn config(alloc: Global, table: &Table) -> Result<Config, ConfigError>
    ensures { IsOfDocument (table_view table.now) result }
{
    let plugin = plugin(alloc, table)?;
    let sizes = sizes(table)?;
    let pools = pools(alloc, table)?;
    let nodes = nodes(alloc, table)?;
    Config::new(plugin, sizes, pools, nodes).map_err(ConfigError::Fault)
}

// Returns the number of the line in which the byte after `before` is, counted from 1.
fn line_of(before: &[u8]) -> usize {
    before
        .iter()
        .filter(|byte| **byte == b'\n')
        .count()
        .saturating_add(1)
}

/// Reads a configuration from a TOML document. The document has the keys `name`, `vendor_version`,
/// `default_bytes` and `greatest_bytes`, the array of tables `pool` (keys `name`, `bytes` and optionally
/// `segments`), and optionally the array of tables `node` (keys `id` and `max_volumes`). Other keys are
/// ignored.
///
/// # Errors
///
/// - [`ConfigError::NotToml`] if the bytes are not UTF-8 or not a TOML document.
/// - [`ConfigError::Key`] if a key is missing, or its value has the wrong type or is below 0. The error has
///   the first key with such a fault, in the order above.
/// - [`ConfigError::Fault`] if the configuration that was read breaks a rule. The error has the first fault
///   that [`Config::new`] finds.
/// - [`ConfigError::NoMemory`] if memory is refused. The document may then have a fault too.
///
/// # Not promised
///
/// The contract does not say which line [`ConfigError::NotToml`] contains. Tests show it.
pub fn read_config(alloc: Global, bytes: &[u8]) -> Result<Config, ConfigError>
    ensures { IsOfText bytes.now result }
{
    match toml::table_from_slice(alloc, bytes) {
        Ok(table) => config(alloc, &table),
        Err(error) => match error.span() {
            Some(span) => Err(ConfigError::NotToml {
                line: line_of(bytes.get(..span.start).unwrap_or(bytes)),
            }),
            None => Err(ConfigError::NoMemory),
        },
    }
}

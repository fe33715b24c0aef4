//! Finds keys of a configuration file that are not known.

ghost use Rattle.std.specs.Prelude.{◌≡◌, ◌++◌, [], map, IfOk, OnOk, IsUtf8};
ghost use Rattle.toml.specs.Parse.{parse_document};
ghost use Rattle.toml.specs.Data.{as_table};
ghost use Rattle.toml.specs.View.{items_view, table_view, view};
ghost use Rattle.csi_config_file.specs.Unknown.{is_known, known_in, of_table, of_tables, place_of, unknown_if, unknown_in, unknown_of};
ghost use Rattle.csi_config_file.specs.declared.config_file.Section.TheVariants as section_of;

use crate::config_file::{Key, Keys, Section};
use std::alloc::{AllocError, Global};
use std::fmt;
use toml::{Table, Value};

// Returns the keys that a table in this section may have.
fn known_in(section: Section) -> &'static [Key]
    ensures { result.now ≡ known_in section }
{
    match section {
        Section::Top => &[
            Key::Name,
            Key::VendorVersion,
            Key::DefaultBytes,
            Key::GreatestBytes,
            Key::Pool,
            Key::Node,
        ],
        Section::Pool(_) => &[Key::Name, Key::Bytes, Key::Segments],
        Section::Node(_) => &[Key::Id, Key::MaxVolumes],
    }
}

/// A key that is not known in its section of the document. [`read_config`](crate::read_config) ignores the
/// key. The `Display` names the key and its section.
#[derive(Debug, Drop)]
pub struct UnknownKey {
    /// The part of the document that contains the key.
    pub section: Section,
    /// The spelling of the key in the file.
    pub key: String,
}

impl fmt::Display for UnknownKey {
    fn fmt<W: fmt::Write>(&self, f: &mut fmt::Formatter<W>) -> fmt::Result {
        let section = self.section;
        let key = self.key.as_str();
        write!(f, "{section}the key '{key}' is not known")
    }
}

fn is_known(known: &[Key], key: &str) -> bool
    ensures { result ≡ is_known known.now key.now }
{
    known.iter().any(|one| one.text() == key)
}

// Adds to `found` the keys of a table that are not in `known`.
fn add_unknown(
    alloc: Global,
    found: &mut Vec<UnknownKey>,
    section: Section,
    table: &Table,
    known: &[Key],
) -> Result<(), AllocError>
    ensures { OnOk result (map place_of found.new.items
        ≡ map place_of found.old.items ++ unknown_of section known.now (table_view table.now)) }
{
    for (key, _) in table {
        if !is_known(known, key.as_str()) {
            let key = String::from_str(alloc, key.as_str())?;
            found.push(UnknownKey { section, key })?;
        }
    }
    Ok(())
}

// Adds to `found` the unknown keys of an element of an array, if the element is a table.
fn add_of_table(
    alloc: Global,
    found: &mut Vec<UnknownKey>,
    section: Section,
    value: &Value,
) -> Result<(), AllocError>
    ensures { OnOk result (map place_of found.new.items
        ≡ map place_of found.old.items ++ of_table section (as_table (view value.now))) }
{
    match value.as_table() {
        Some(table) => add_unknown(alloc, found, section, table, known_in(section)),
        None => Ok(()),
    }
}

// Adds to `found` the unknown keys of each pool. `array` is the value of the key `pool`.
fn add_of_pools(
    alloc: Global,
    found: &mut Vec<UnknownKey>,
    array: &[Value],
) -> Result<(), AllocError>
    ensures { OnOk result (map place_of found.new.items
        ≡ map place_of found.old.items ++ of_tables section_of.Pool 1 (items_view array.now)) }
{
    for (index, value) in array.iter().enumerate() {
        add_of_table(alloc, found, Section::Pool(index.saturating_add(1)), value)?;
    }
    Ok(())
}

// Adds to `found` the unknown keys of each node. `array` is the value of the key `node`.
fn add_of_nodes(
    alloc: Global,
    found: &mut Vec<UnknownKey>,
    array: &[Value],
) -> Result<(), AllocError>
    ensures { OnOk result (map place_of found.new.items
        ≡ map place_of found.old.items ++ of_tables section_of.Node 1 (items_view array.now)) }
{
    for (index, value) in array.iter().enumerate() {
        add_of_table(alloc, found, Section::Node(index.saturating_add(1)), value)?;
    }
    Ok(())
}

fn add_all(alloc: Global, found: &mut Vec<UnknownKey>, top: &Table) -> Result<(), AllocError>
    ensures { OnOk result (map place_of found.new.items
        ≡ map place_of found.old.items ++ unknown_in (table_view top.now)) }
{
    let keys = Keys::top_table(top);
    add_unknown(alloc, found, Section::Top, top, known_in(Section::Top))?;
    if let Some(array) = keys.array(Key::Pool) {
        add_of_pools(alloc, found, array)?;
    }
    if let Some(array) = keys.array(Key::Node) {
        add_of_nodes(alloc, found, array)?;
    }
    Ok(())
}

/// Returns the unknown keys of a configuration file: first the keys at the top of the document, then the keys
/// of the pools, then the keys of the nodes. The list is empty if the bytes are not a TOML document.
///
/// # Errors
///
/// If memory is refused.
pub fn unknown_keys(alloc: Global, bytes: &[u8]) -> Result<Vec<UnknownKey>, AllocError>
    ensures found { IfOk result (λ found. IsUtf8 bytes.now
        → map place_of found.items ≡ unknown_if (parse_document bytes.now)) }
    ensures none { IfOk result (λ found. ¬ IsUtf8 bytes.now → found.items ≡ []) }
{
    let mut found = Vec::new(alloc);
    match toml::table_from_slice(alloc, bytes) {
        Ok(top) => add_all(alloc, &mut found, &top)?,
        Err(error) if error.span().is_none() => return Err(AllocError),
        Err(_) => {}
    }
    Ok(found)
}

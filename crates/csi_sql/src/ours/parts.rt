//! Compares the parts of a table's schema with the expected parts.

ghost use Rattle.std.specs.Prelude.{◌≡◌, ◌↔◌, [], ◌∷◌, IsTrue};
ghost use Rattle.sqlite_value.specs.Keys.{plain};
ghost use Rattle.csi_sql.specs.Ours.{HasKeys, IsBare, plain_column, unique_index};

use sqlite_items::Items;
use sqlite_schema::schema::{Column, Index, Kind, Stamps, Table};
use sqlite_value::keys::{Collation, Order};
use sqlite_value::value::Value;

fn is_named(name: &[u8], wanted: &[u8]) -> bool
    ensures { IsTrue result ↔ name.now ≡ wanted.now }
{
    name == wanted
}

pub(super) fn are_places(places: &[usize], wanted: &[usize]) -> bool
    ensures { IsTrue result ↔ places.now ≡ wanted.now }
{
    places == wanted
}

/// Returns true if this is the index that SQL makes for a UNIQUE or a PRIMARY KEY over these columns.
pub(super) fn is_index(index: &Index, name: &[u8], tree: u32, table: u32, columns: &[usize]) -> bool
    ensures true_only_if { IsTrue result → index.now ≡ unique_index name.now tree table columns.now }
    ensures true_if { index.now ≡ unique_index name.now tree table columns.now → IsTrue result }
{
    is_named(index.name.as_slice(), name)
        & are_places(index.columns.as_slice(), columns)
        & (index.tree == tree)
        & (index.table == table)
        & (index.order.digits == 0)
        & index.is_unique
}

pub(super) fn is_column(column: &Column, name: &[u8], kind: Kind, not_null: bool) -> bool
    ensures true_only_if { IsTrue result → column.now ≡ plain_column name.now kind not_null }
    ensures true_if { column.now ≡ plain_column name.now kind not_null → IsTrue result }
{
    is_named(column.name.as_slice(), name)
        & (column.kind == kind)
        & (column.not_null == not_null)
        & !column.is_strict
        & matches!(column.default, Value::Null)
        & (column.collation == Collation::Binary)
}

// Returns true if there is exactly one key, and the key is over these columns.
fn is_one_key(uniques: &Items<Items<usize>>, places: &[usize]) -> bool
    ensures true_only_if { IsTrue result → uniques.now ≡ places.now ∷ [] }
    ensures true_if { uniques.now ≡ places.now ∷ [] → IsTrue result }
{
    let [one] = uniques.as_slice() else {
        return false;
    };
    are_places(one.as_slice(), places)
}

// Returns true if there is exactly one index, and it is ascending in each of its columns.
fn is_one_ascending(orders: &Items<Order>) -> bool
    ensures true_only_if { IsTrue result → orders.now ≡ plain ∷ [] }
    ensures true_if { orders.now ≡ plain ∷ [] → IsTrue result }
{
    let [one] = orders.as_slice() else {
        return false;
    };
    one.digits == 0
}

/// Returns true if the table has the primary key `primary`, exactly one index, and no CHECK. The index must
/// be unique, over the columns `unique`, and ascending.
pub(super) fn has_keys(table: &Table, primary: &[usize], unique: &[usize]) -> bool
    ensures true_only_if { IsTrue result → HasKeys primary.now unique.now table.now }
    ensures true_if { HasKeys primary.now unique.now table.now → IsTrue result }
{
    are_places(table.primary.as_slice(), primary)
        & is_one_key(&table.uniques, unique)
        & is_one_ascending(&table.orders)
        & table.checks.roots.is_empty()
}

fn is_no_stamp(stamps: &Stamps) -> bool
    ensures true_only_if { IsTrue result → stamps.now ≡ record { places = []; terms = []; formats = [] } }
    ensures true_if { stamps.now ≡ record { places = []; terms = []; formats = [] } → IsTrue result }
{
    stamps.places.is_empty() & stamps.terms.roots.is_empty() & stamps.formats.is_empty()
}

/// Returns true if the table has this name and tree. It must have no foreign key, no AUTOINCREMENT, and no
/// default that is computed.
pub(super) fn is_bare(table: &Table, name: &[u8], tree: u32) -> bool
    ensures true_only_if { IsTrue result → IsBare name.now tree table.now }
    ensures true_if { IsBare name.now tree table.now → IsTrue result }
{
    is_named(table.name.as_slice(), name)
        & (table.tree == tree)
        & table.references.is_empty()
        & table.computed.is_empty()
        & is_no_stamp(&table.stamps)
        & !table.is_counted
}

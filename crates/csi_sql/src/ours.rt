//! Compares a schema with the schema of the three tables that this crate makes.

mod key_check;
mod parts;
mod tables;

ghost use Rattle.std.specs.Prelude.{◌≡◌, IsTrue};
ghost use Rattle.csi_sql.specs.Ours.{our_indexes, our_tables};
ghost use Rattle.csi_sql.specs.Tables.{schema as our_schema};

use parts::is_index;
use sqlite_schema::schema::{Index, Schema, Table};
use tables::{is_attachments, is_meta, is_volumes};

fn are_tables(tables: &[Table]) -> bool
    ensures true_only_if { IsTrue result → tables.now ≡ our_tables }
    ensures true_if { tables.now ≡ our_tables → IsTrue result }
{
    let [first, second, third] = tables else {
        return false;
    };
    is_meta(first) & is_volumes(second) & is_attachments(third)
}

fn are_indexes(indexes: &[Index]) -> bool
    ensures true_only_if { IsTrue result → indexes.now ≡ our_indexes }
    ensures true_if { indexes.now ≡ our_indexes → IsTrue result }
{
    let [names, places] = indexes else {
        return false;
    };
    is_index(names, b"sqlite_autoindex_volumes_1", 2, 1, &[2])
        & is_index(places, b"sqlite_autoindex_attachments_1", 4, 3, &[1, 2])
}

/// Returns true if a schema is exactly the schema that `make_tables` makes.
///
/// These parts must agree, in the same order and in the same trees:
///
/// - the name, type, default and NOT NULL of each column
/// - the name, the keys and the CHECK of each table
/// - the name and the columns of each index
///
/// A further table, index or view makes the schemas differ.
#[tactic(auto, using(crate::proofs::OursLemmas::is_ours, crate::proofs::OursLemmas::has_ours))]
pub fn is_our_schema(schema: &Schema) -> bool
    ensures true_only_if { IsTrue result → schema.now ≡ our_schema }
    ensures true_if { schema.now ≡ our_schema → IsTrue result }
{
    are_tables(schema.tables.as_slice())
        & are_indexes(schema.indexes.as_slice())
        & schema.views.is_empty()
}

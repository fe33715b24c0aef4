//! Compares the schema of each of the three tables with the expected schema.

ghost use Rattle.std.specs.Prelude.{◌≡◌, IsTrue};
ghost use Rattle.csi_sql.specs.Tables.{attachments, meta, volumes};

use super::key_check::is_key_check;
use super::parts::{are_places, has_keys, is_bare, is_column};
use sqlite_schema::schema::{Column, Kind, Table};

fn are_meta_columns(columns: &[Column]) -> bool
    ensures true_only_if { IsTrue result → columns.now ≡ meta.columns }
    ensures true_if { columns.now ≡ meta.columns → IsTrue result }
{
    let [key, format, next] = columns else {
        return false;
    };
    is_column(key, b"k", Kind::Integer, false)
        & is_column(format, b"format_no", Kind::Integer, true)
        & is_column(next, b"next_number", Kind::Integer, true)
}

fn are_volumes_columns(columns: &[Column]) -> bool
    ensures true_only_if { IsTrue result → columns.now ≡ volumes.columns }
    ensures true_if { columns.now ≡ volumes.columns → IsTrue result }
{
    let [number, name, bytes, pool, caps, params] = columns else {
        return false;
    };
    is_column(number, b"number", Kind::Integer, false)
        & is_column(name, b"name", Kind::Text, true)
        & is_column(bytes, b"bytes", Kind::Integer, true)
        & is_column(pool, b"pool", Kind::Text, true)
        & is_column(caps, b"caps", Kind::Any, true)
        & is_column(params, b"params", Kind::Any, true)
}

fn are_attachments_columns(columns: &[Column]) -> bool
    ensures true_only_if { IsTrue result → columns.now ≡ attachments.columns }
    ensures true_if { columns.now ≡ attachments.columns → IsTrue result }
{
    let [number, node, cap, readonly] = columns else {
        return false;
    };
    is_column(number, b"number", Kind::Integer, true)
        & is_column(node, b"node", Kind::Text, true)
        & is_column(cap, b"cap", Kind::Any, true)
        & is_column(readonly, b"readonly", Kind::Integer, true)
}

pub(super) fn is_meta(table: &Table) -> bool
    ensures true_only_if { IsTrue result → table.now ≡ meta }
    ensures true_if { table.now ≡ meta → IsTrue result }
{
    is_bare(table, b"meta", 0)
        & are_meta_columns(table.columns.as_slice())
        & (table.key == Some(0))
        & are_places(table.primary.as_slice(), &[0])
        & table.uniques.is_empty()
        & table.orders.is_empty()
        & is_key_check(&table.checks)
}

pub(super) fn is_volumes(table: &Table) -> bool
    ensures true_only_if { IsTrue result → table.now ≡ record volumes { tree = 1 } }
    ensures true_if { table.now ≡ record volumes { tree = 1 } → IsTrue result }
{
    is_bare(table, b"volumes", 1)
        & are_volumes_columns(table.columns.as_slice())
        & (table.key == Some(0))
        & has_keys(table, &[0], &[2])
}

pub(super) fn is_attachments(table: &Table) -> bool
    ensures true_only_if { IsTrue result → table.now ≡ record attachments { tree = 3 } }
    ensures true_if { table.now ≡ record attachments { tree = 3 } → IsTrue result }
{
    is_bare(table, b"attachments", 3)
        & are_attachments_columns(table.columns.as_slice())
        & table.key.is_none()
        & has_keys(table, &[1, 2], &[1, 2])
}

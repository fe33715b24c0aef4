//! The statements that add and delete rows of attachments.

ghost use Rattle.std.specs.Prelude.{◌≡◌, ◌<◌, ◌^◌};
ghost use Rattle.csi_sql.specs.Transactions.{RunsOver};
ghost use Rattle.csi_sql.specs.Deletes.{Drops, is_of, is_place};
ghost use Rattle.csi_sql.specs.Refusing.{RefusesAttachment, RefusesDetaching, RefusesDetachingAll};
ghost use Rattle.csi_sql.specs.Effects.{AddsAttachment};
ghost use Rattle.csi_sql.specs.Rows.{attachment_row, seen_attachment};
ghost use Rattle.csi_sql.specs.Tables.{schema};

use crate::statements::Changed;
use crate::values::{flag, integer};
use sqlite::types::ValueRef;
use sqlite::{Alter, Transaction};

/// Adds the row of an attachment: the number of the volume (below 2^63), the node, the capability as given,
/// and the read-only flag. If the volume is already attached at the node, the statement is refused.
pub fn insert_attachment<S: Alter>(
    tx: &mut Transaction<'_, S>,
    volume: u64,
    node: &str,
    cap: &[u8],
    readonly: bool,
) -> Changed
    requires { volume < 2 ^ 63 }
    ensures same_reference { tx.new.conn.ghost_name ≡ tx.old.conn.ghost_name }
    ensures runs { let row = attachment_row volume node.now cap.now readonly in
        RunsOver S.Store tx.old.conn.now tx.new.conn.now schema (AddsAttachment row)
        (RefusesAttachment row) result }
{
    tx.execute(
        "INSERT INTO attachments (number, node, cap, readonly) VALUES (?1, ?2, ?3, ?4)",
        &[
            integer(volume),
            ValueRef::Text(node.as_bytes()),
            ValueRef::Blob(cap),
            flag(readonly),
        ],
    )
    .and(Ok(()))
}

/// Deletes the row of the attachment of the volume with this number (below 2^63) at a node. Changes nothing
/// if there is no such row.
pub fn delete_attachment<S: Alter>(tx: &mut Transaction<'_, S>, volume: u64, node: &str) -> Changed
    requires { volume < 2 ^ 63 }
    ensures same_reference { tx.new.conn.ghost_name ≡ tx.old.conn.ghost_name }
    ensures runs { RunsOver S.Store tx.old.conn.now tx.new.conn.now
        schema (Drops 3 seen_attachment (is_place volume node.now))
        (RefusesDetaching volume node.now) result }
{
    tx.execute(
        "DELETE FROM attachments WHERE number = ?1 AND node = ?2",
        &[integer(volume), ValueRef::Text(node.as_bytes())],
    )
    .and(Ok(()))
}

/// Deletes the rows of all attachments of the volume with this number (below 2^63).
pub fn delete_attachments<S: Alter>(tx: &mut Transaction<'_, S>, volume: u64) -> Changed
    requires { volume < 2 ^ 63 }
    ensures same_reference { tx.new.conn.ghost_name ≡ tx.old.conn.ghost_name }
    ensures runs { RunsOver S.Store tx.old.conn.now tx.new.conn.now schema
        (Drops 3 seen_attachment (is_of volume)) (RefusesDetachingAll volume) result }
{
    tx.execute(
        "DELETE FROM attachments WHERE number = ?1",
        &[integer(volume)],
    )
    .and(Ok(()))
}

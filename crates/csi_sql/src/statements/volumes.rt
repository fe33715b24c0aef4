//! The statements that add, change and delete rows of volumes.

ghost use Rattle.std.specs.Prelude.{◌≡◌, ◌<◌, ◌^◌};
ghost use Rattle.csi_sql.specs.Transactions.{RunsOver};
ghost use Rattle.csi_sql.specs.Deletes.{Drops, is_numbered};
ghost use Rattle.csi_sql.specs.Refusing.{RefusesParams, RefusesRemoval, RefusesVolume};
ghost use Rattle.csi_sql.specs.Borrowed.{borrowed_row};
ghost use Rattle.csi_sql.specs.Effects.{AddsVolume};
ghost use Rattle.csi_sql.specs.Rows.{seen_volume};
ghost use Rattle.csi_sql.specs.Tables.{schema};
ghost use Rattle.csi_sql.specs.Updates.{SetsParams};

use crate::statements::Changed;
use crate::values::integer;
use sqlite::types::ValueRef;
use sqlite::{Alter, Transaction};

/// The row of a volume that an INSERT adds.
#[derive(Clone, Copy)]
pub struct VolumeRow<'a> {
    /// The number of the volume, below 2^63. The INSERT is refused if another volume has this number.
    pub number: u64,
    /// The name of the volume. The INSERT is refused if another volume has this name.
    pub name: &'a str,
    /// The size of the volume in bytes, below 2^63.
    pub bytes: u64,
    /// The name of the pool that the volume takes its bytes from.
    pub pool: &'a str,
    /// The encoded capabilities, stored as given.
    pub caps: &'a [u8],
    /// The encoded parameters, stored as given.
    pub params: &'a [u8],
}

/// Adds the row of a volume. The statement is refused if another row has the number or the name.
pub fn insert_volume<S: Alter>(tx: &mut Transaction<'_, S>, row: &VolumeRow<'_>) -> Changed
    requires number { row.now.number < 2 ^ 63 }
    requires bytes { row.now.bytes < 2 ^ 63 }
    ensures same_reference { tx.new.conn.ghost_name ≡ tx.old.conn.ghost_name }
    ensures runs { RunsOver S.Store tx.old.conn.now tx.new.conn.now schema (AddsVolume (borrowed_row row.now))
        (RefusesVolume (borrowed_row row.now)) result }
{
    tx.execute(
        "INSERT INTO volumes (number, name, bytes, pool, caps, params) VALUES (?1, ?2, ?3, ?4, ?5, ?6)",
        &[
            integer(row.number),
            ValueRef::Text(row.name.as_bytes()),
            integer(row.bytes),
            ValueRef::Text(row.pool.as_bytes()),
            ValueRef::Blob(row.caps),
            ValueRef::Blob(row.params),
        ],
    )
    .and(Ok(()))
}

/// Sets `params` in the row of the volume with this number, which must be below 2^63. Changes nothing if
/// there is no such row.
pub fn update_params<S: Alter>(tx: &mut Transaction<'_, S>, volume: u64, params: &[u8]) -> Changed
    requires { volume < 2 ^ 63 }
    ensures same_reference { tx.new.conn.ghost_name ≡ tx.old.conn.ghost_name }
    ensures runs { RunsOver S.Store tx.old.conn.now tx.new.conn.now schema (SetsParams volume params.now)
        (RefusesParams volume params.now) result }
{
    tx.execute(
        "UPDATE volumes SET params = ?2 WHERE number = ?1",
        &[integer(volume), ValueRef::Blob(params)],
    )
    .and(Ok(()))
}

/// Deletes the row of the volume with this number (below 2^63), but not its attachments. Changes nothing if
/// there is no such row.
pub fn delete_volume<S: Alter>(tx: &mut Transaction<'_, S>, volume: u64) -> Changed
    requires { volume < 2 ^ 63 }
    ensures same_reference { tx.new.conn.ghost_name ≡ tx.old.conn.ghost_name }
    ensures runs { RunsOver S.Store tx.old.conn.now tx.new.conn.now schema
        (Drops 1 seen_volume (is_numbered volume)) (RefusesRemoval volume) result }
{
    tx.execute("DELETE FROM volumes WHERE number = ?1", &[integer(volume)])
        .and(Ok(()))
}

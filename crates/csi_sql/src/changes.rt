//! Makes each change of the tables in one transaction.
//!
//! If a change fails, the error is the error of the statement that failed, or of the commit. The tables are
//! then unchanged.

ghost use Rattle.std.specs.Prelude.{◌≡◌, ◌+◌, ◌<◌, ◌^◌};
ghost use Rattle.csi_sql.specs.Transactions.{CommitsOver};
ghost use Rattle.csi_sql.specs.Deletes.{Drops, is_numbered, is_of, is_place};
ghost use Rattle.csi_sql.specs.Refusing.{RefusesAttachment, RefusesDetaching, RefusesDetachingAll, RefusesFormat, RefusesNumbered, RefusesParams, RefusesRemoval};
ghost use Rattle.csi_sql.specs.Effects.{AddsAttachment, AddsNumbered, SetsFormat};
ghost use Rattle.csi_sql.specs.Rows.{attachment_row, seen_attachment, seen_volume, volume_row};
ghost use Rattle.csi_sql.specs.Tables.{schema};
ghost use Rattle.csi_sql.specs.Updates.{SetsParams};

use crate::idle_connection::IdleConnection;
use crate::statements::attachments::{delete_attachment, delete_attachments, insert_attachment};
use crate::statements::meta::{set_next, update_format};
use crate::statements::volumes::{VolumeRow, delete_volume, insert_volume, update_params};
use sqlite::{Alter, Error};

/// Adds the row of a volume, and sets the next number to the volume's number plus 1.
///
/// The number must be below 2^62 and the size below 2^63 bytes. `caps` and `params` are stored as given. The
/// change is refused if another row has the number or the name.
pub fn add_volume<S: Alter>(
    conn: &mut IdleConnection<S>,
    volume: u64,
    name: &str,
    bytes: u64,
    pool: &str,
    caps: &[u8],
    params: &[u8],
) -> Result<(), Error>
    requires volume { volume < 2 ^ 62 }
    requires bytes { bytes < 2 ^ 63 }
    ensures { let row = volume_row volume name.now bytes pool.now caps.now params.now in
        CommitsOver S.Store conn.old conn.new schema (AddsNumbered row (volume + 1))
        (RefusesNumbered row (volume + 1)) result }
{
    let mut tx = conn.0.transaction();
    let row = VolumeRow {
        number: volume,
        name,
        bytes,
        pool,
        caps,
        params,
    };
    insert_volume(&mut tx, &row)?;
    set_next(&mut tx, volume + 1)?;
    tx.commit()
}

/// Sets `params` in the row of the volume with this number, which must be below 2^63. `params` is stored as
/// given. Changes nothing if there is no such row.
pub fn set_params<S: Alter>(
    conn: &mut IdleConnection<S>,
    volume: u64,
    params: &[u8],
) -> Result<(), Error>
    requires volume { volume < 2 ^ 63 }
    ensures { CommitsOver S.Store conn.old conn.new schema (SetsParams volume params.now)
        (RefusesParams volume params.now) result }
{
    let mut tx = conn.0.transaction();
    update_params(&mut tx, volume, params)?;
    tx.commit()
}

/// Deletes the row of the volume with this number (below 2^63), but not its attachments. Changes nothing if
/// there is no such row.
pub fn remove_volume<S: Alter>(conn: &mut IdleConnection<S>, volume: u64) -> Result<(), Error>
    requires volume { volume < 2 ^ 63 }
    ensures { CommitsOver S.Store conn.old conn.new schema (Drops 1 seen_volume (is_numbered volume))
        (RefusesRemoval volume) result }
{
    let mut tx = conn.0.transaction();
    delete_volume(&mut tx, volume)?;
    tx.commit()
}

/// Sets the format to [`LATEST_FORMAT`](crate::LATEST_FORMAT). The next number, the volumes and the
/// attachments are unchanged.
pub fn set_format<S: Alter>(conn: &mut IdleConnection<S>) -> Result<(), Error>
    ensures { CommitsOver S.Store conn.old conn.new schema SetsFormat RefusesFormat result }
{
    let mut tx = conn.0.transaction();
    update_format(&mut tx)?;
    tx.commit()
}

/// Adds an attachment of the volume with this number (below 2^63) at a node. `cap` is stored as given. If the
/// volume is already attached at the node, the change is refused.
pub fn attach<S: Alter>(
    conn: &mut IdleConnection<S>,
    volume: u64,
    node: &str,
    cap: &[u8],
    readonly: bool,
) -> Result<(), Error>
    requires volume { volume < 2 ^ 63 }
    ensures { let row = attachment_row volume node.now cap.now readonly in
        CommitsOver S.Store conn.old conn.new schema (AddsAttachment row) (RefusesAttachment row) result }
{
    let mut tx = conn.0.transaction();
    insert_attachment(&mut tx, volume, node, cap, readonly)?;
    tx.commit()
}

/// Deletes the attachment of the volume with this number (below 2^63) at a node. Changes nothing if there is
/// no such attachment.
pub fn detach<S: Alter>(conn: &mut IdleConnection<S>, volume: u64, node: &str) -> Result<(), Error>
    requires volume { volume < 2 ^ 63 }
    ensures { CommitsOver S.Store conn.old conn.new schema
        (Drops 3 seen_attachment (is_place volume node.now)) (RefusesDetaching volume node.now) result }
{
    let mut tx = conn.0.transaction();
    delete_attachment(&mut tx, volume, node)?;
    tx.commit()
}

/// Deletes all attachments of the volume with this number (below 2^63).
pub fn detach_all<S: Alter>(conn: &mut IdleConnection<S>, volume: u64) -> Result<(), Error>
    requires volume { volume < 2 ^ 63 }
    ensures { CommitsOver S.Store conn.old conn.new schema (Drops 3 seen_attachment (is_of volume))
        (RefusesDetachingAll volume) result }
{
    let mut tx = conn.0.transaction();
    delete_attachments(&mut tx, volume)?;
    tx.commit()
}

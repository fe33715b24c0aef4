//! Scans of the tables. Each scan is a query with a fixed text, whose rows go to a fold.

ghost use Rattle.std.specs.Prelude.{◌≡◌, IsPermutation, map};
ghost use Rattle.sqlite.specs.Held.{state};
ghost use Rattle.sqlite.specs.State.{HasCleanDisk};
ghost use Rattle.csi_sql.specs.Rows.{seen_attachment, seen_meta, seen_volume};
ghost use Rattle.csi_sql.specs.Tables.{schema as our_schema};
ghost use Rattle.csi_constraints.specs.ScanFailing.{HasTooMany};
ghost use Rattle.csi_sql.specs.Folding.{FoldsOver};
ghost use Rattle.csi_constraints.specs.Scans.{IsInOrder, keyed_attachment, owners};

use csi_sql::{Fold, IdleConnection, each_row};
use sqlite::{Alter, Error};

/// Passes each row of the table `meta` to a fold, in any order. The columns are `k`, `format_no` and
/// `next_number`.
///
/// # Errors
///
/// If the rows cannot be read, or the fold returns an error.
pub fn scan_meta<S: Alter, F: Fold>(conn: &mut IdleConnection<S>, fold: &mut F) -> Result<(), Error>
    requires has_schema { HasCleanDisk (state S.Store conn.old) → conn.old.schema ≡ our_schema }
    ensures { FoldsOver S.Store conn.old conn.new F.folds fold.old fold.new
        (IsPermutation (map seen_meta ((state S.Store conn.old).now.trees 0)))
        (HasTooMany S.Store conn.old) result }
{
    each_row(conn, "SELECT k, format_no, next_number FROM meta", fold)
}

/// Passes each row of volumes to a fold, ordered by number. The columns are number, name, bytes, pool, caps
/// and params.
///
/// # Errors
///
/// If the rows cannot be read, or the fold returns an error.
pub fn scan_volumes<S: Alter, F: Fold>(
    conn: &mut IdleConnection<S>,
    fold: &mut F,
) -> Result<(), Error>
    requires has_schema { HasCleanDisk (state S.Store conn.old) → conn.old.schema ≡ our_schema }
    ensures { FoldsOver S.Store conn.old conn.new F.folds fold.old fold.new
        (IsInOrder (map seen_volume ((state S.Store conn.old).now.trees 1)))
        (HasTooMany S.Store conn.old) result }
{
    each_row(
        conn,
        "SELECT number, name, bytes, pool, caps, params FROM volumes ORDER BY number",
        fold,
    )
}

/// Passes each row of attachments to a fold, ordered by rowid. The columns are rowid, number, node, cap and
/// readonly.
///
/// # Errors
///
/// If the rows cannot be read, or the fold returns an error.
pub fn scan_attachments<S: Alter, F: Fold>(
    conn: &mut IdleConnection<S>,
    fold: &mut F,
) -> Result<(), Error>
    requires has_schema { HasCleanDisk (state S.Store conn.old) → conn.old.schema ≡ our_schema }
    ensures { FoldsOver S.Store conn.old conn.new F.folds fold.old fold.new
        (IsInOrder (map keyed_attachment ((state S.Store conn.old).now.trees 3)))
        (HasTooMany S.Store conn.old) result }
{
    each_row(
        conn,
        "SELECT rowid, number, node, cap, readonly FROM attachments ORDER BY rowid",
        fold,
    )
}

/// Passes each attachment to a fold, together with the caps of its volume. The attachments are ordered by
/// number. The columns are number, node, cap, readonly and the caps of the volume. The last column is NULL if
/// no volume has the number.
///
/// # Errors
///
/// If the rows cannot be read, or the fold returns an error.
pub fn scan_owners<S: Alter, F: Fold>(
    conn: &mut IdleConnection<S>,
    fold: &mut F,
) -> Result<(), Error>
    requires has_schema { HasCleanDisk (state S.Store conn.old) → conn.old.schema ≡ our_schema }
    ensures { FoldsOver S.Store conn.old conn.new F.folds fold.old fold.new
        (IsInOrder (owners ((state S.Store conn.old).now.trees 3) ((state S.Store conn.old).now.trees 1)))
        (HasTooMany S.Store conn.old) result }
{
    each_row(
        conn,
        "SELECT a.number, a.node, a.cap, a.readonly, v.caps FROM attachments AS a LEFT JOIN volumes AS v ON v.number = a.number ORDER BY a.number",
        fold,
    )
}

/// Passes each attachment to a fold, ordered by number, so that attachments of one volume are consecutive.
/// The columns are number, node, cap and readonly.
///
/// # Errors
///
/// If the rows cannot be read, or the fold returns an error.
pub fn scan_places<S: Alter, F: Fold>(
    conn: &mut IdleConnection<S>,
    fold: &mut F,
) -> Result<(), Error>
    requires has_schema { HasCleanDisk (state S.Store conn.old) → conn.old.schema ≡ our_schema }
    ensures { FoldsOver S.Store conn.old conn.new F.folds fold.old fold.new
        (IsInOrder (map seen_attachment ((state S.Store conn.old).now.trees 3)))
        (HasTooMany S.Store conn.old) result }
{
    each_row(
        conn,
        "SELECT number, node, cap, readonly FROM attachments ORDER BY number",
        fold,
    )
}

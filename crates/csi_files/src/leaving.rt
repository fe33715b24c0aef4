//! Closes the files of a connection, or returns them in a state that a stop could leave.

ghost use Rattle.std.specs.Prelude.{◌≡◌, false, IfErr, IfOk, IsTrue};
ghost use Rattle.sqlite.specs.Files.{file_state};
ghost use Rattle.sqlite_wal.specs.Reads.{AreClean};
ghost use Rattle.csi_files.specs.Leaving.{HoldsCommit, IsLeft, IsUncopied};

use crate::copying::{cause_of, copy_wal, store_error};
use sqlite::{Connection, Error, FileStore, Files};
use sqlite_disk::Disk;
use sqlite_store::name_fault;
use sqlite_trees::error::StoreError;
use sqlite_trees::store::Store;
use std::alloc::Global;

/// Returns the files of a connection without reading or writing them. The last commit may be in the WAL
/// alone. Changes that were not committed are lost.
///
/// The next opening finds a database that a stop at this moment could have left.
pub fn leave<D: Disk + Drop>(conn: Connection<FileStore<D>>) -> Files<D>
    ensures { IsLeft D.Disk conn result }
{
    conn.into_store().close()
}

// Returns the files of a connection without reading or writing them, and true if the store was open. A store
// that meets a fault shuts itself, and keeps the last commit.
fn leave_open<D: Disk + Drop>(conn: Connection<FileStore<D>>) -> (Files<D>, bool)
    ensures left { IsLeft D.Disk conn result.0 }
    ensures open { AreClean D.Disk result.0.log result.0.db → IsTrue result.1
        → IsTrue (file_state conn).is_open }
{
    let store = conn.into_store();
    let is_open = !store.is_broken();
    (store.close(), is_open)
}

/// Closes a connection and copies the WAL into the database file, which is then complete without the WAL.
/// `seed` is the seed of the random salts in the next header of the WAL.
///
/// # Errors
///
/// If a fault has shut the store, a sync of a file has failed before, or copying the WAL fails. The error
/// contains the files. Their last commit is in the WAL, in the database file or in both.
pub(crate) fn close<D: Disk + Drop>(
    alloc: Global,
    conn: Connection<FileStore<D>>,
    seed: u64,
) -> Result<Files<D>, (Error, Files<D>)>
    ensures copied { IfOk result (λ files. AreClean D.Disk files.log files.db
        → HoldsCommit D.Disk conn files) }
    ensures usable { IfOk result (λ files. IsTrue (D.Disk.is_usable files.log)
        × IsTrue (D.Disk.is_usable files.db)) }
    ensures left { IfOk result (IsLeft D.Disk conn) }
    ensures uncopied { IfErr result (λ e. IsUncopied D.Disk conn e.0 e.1) }
{
    let (files, is_open) = leave_open(conn);
    if !is_open {
        return Err((store_error(StoreError::Broken), files));
    }
    if !files.may_be_used() {
        return Err((store_error(StoreError::Broken), files));
    }
    let before = files.tally();
    match copy_wal(alloc, files, seed) {
        Ok(files) => Ok(files),
        Err((error, left)) => {
            let cause = cause_of(error, name_fault(before, left.tally()));
            Err((store_error(cause), left))
        }
    }
}

/// Closes a connection and copies the WAL into the database file. If [`close`] would fail, returns the files
/// without an error: the last commit is in the WAL, in the database file or in both. `seed` is the seed of
/// the random salts in the next header of the WAL.
pub(crate) fn close_or_leave<D: Disk + Drop>(
    alloc: Global,
    conn: Connection<FileStore<D>>,
    seed: u64,
) -> Files<D>
    ensures { IsLeft D.Disk conn result }
{
    match close(alloc, conn, seed) {
        Ok(files) => files,
        Err((_error, files)) => files,
    }
}

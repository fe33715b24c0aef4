//! Copies the WAL into the database file, after the store over both files has returned them.

ghost use Rattle.std.specs.Prelude.{◌≡◌, ◌<◌, false, length, IfErr, IfOk, IsTrue, OnOk};
ghost use Rattle.sqlite_wal.specs.Log.{AreUsable, image, state};
ghost use Rattle.sqlite_wal.specs.Reads.{AreClean, OnlyReads};
ghost use Rattle.sqlite_wal.specs.Recovery.{IsIgnored};
ghost use Rattle.sqlite.specs.State as of_store;
ghost use Rattle.csi_files.specs.Copying.{CopiesLog, IsMoved, KeepsPages, LeavesLog, cause_of};

use sqlite::{Error, ErrorCode};
use sqlite_disk::{Disk, Files};
use sqlite_trees::error::StoreError;
use sqlite_wal as wal;
use sqlite_wal::{Log, probe_page_size};
use std::alloc::{AllocFailed, Global};
use std::io;

// The size in bytes of a WAL's header and of the header of its first frame. Recovery ignores a shorter WAL.
const LEAST_WAL_BYTES: usize = 32 + 24;

// Returns true if the WAL is long enough for the header of a WAL and of a frame.
fn has_wal<D: Disk>(pair: &mut Files<D>) -> io::Result<bool>
    requires log { IsTrue (D.Disk.is_usable pair.old.log) }
    requires db { IsTrue (D.Disk.is_usable pair.old.db) }
    ensures short { IfOk result (λ is. is ≡ false → AreClean D.Disk pair.new.log pair.new.db
        → IsIgnored (D.Disk.seen pair.new.log)) }
    ensures log { OnlyReads D.Disk pair.old.log pair.new.log }
    ensures db { OnlyReads D.Disk pair.old.db pair.new.db }
{
    let len = pair.log.len()?;
    Ok(len >= LEAST_WAL_BYTES)
}

// Recovers the WAL, copies its committed frames into the database file, and cuts the WAL to 41 bytes. A WAL
// of 41 bytes has no frame, so recovery ignores it.
fn copy_frames<D: Disk>(log: &mut Log<D>) -> Result<(), wal::Error>
    requires { AreUsable log.old }
    ensures keeps { CopiesLog log.old log.new }
    ensures short { OnOk result (length (image log.new).log ≡ 41) }
    ensures ready { OnOk result (IsTrue (state log.new).is_ready) }
{
    log.recover()?;
    log.finish()
}

// Copies the committed frames of a log into the database file, and returns the files of the log. The WAL then
// has 41 bytes.
fn copy_log<D: Disk>(mut log: Log<D>) -> Result<Files<D>, (wal::Error, Files<D>)>
    requires { AreUsable log }
    ensures moved { IfOk result (λ pair. LeavesLog log pair) }
    ensures ignored { IfOk result (λ pair. IsIgnored (D.Disk.seen pair.log)) }
    ensures usable { IfOk result (λ pair. IsTrue (D.Disk.is_usable pair.log)
        × IsTrue (D.Disk.is_usable pair.db)) }
    ensures kept { IfErr result (λ e. LeavesLog log e.1) }
{
    match copy_frames(&mut log) {
        Ok(()) => Ok(log.into_files()),
        Err(error) => Err((error, log.into_files())),
    }
}

// Copies a WAL of at least `LEAST_WAL_BYTES` bytes into the database file.
fn copy_long<D: Disk>(
    alloc: Global,
    mut pair: Files<D>,
    seed: u64,
) -> Result<Files<D>, (wal::Error, Files<D>)>
    requires log { IsTrue (D.Disk.is_usable pair.log) }
    requires db { IsTrue (D.Disk.is_usable pair.db) }
    ensures moved { IfOk result (IsMoved D.Disk pair) }
    ensures kept { IfErr result (λ e. KeepsPages D.Disk pair e.1) }
{
    let found = match probe_page_size(&mut pair) {
        Ok(found) => found,
        Err(error) => return Err((wal::Error::Io(error), pair)),
    };
    let Some(size) = found else {
        return Err((wal::Error::Corrupt, pair));
    };
    match Log::new(alloc, pair, size, seed) {
        Ok(log) => copy_log(log),
        Err(AllocFailed { value }) => Err((wal::Error::OutOfMemory, value)),
    }
}

/// Copies the committed frames of the WAL into the database file. The database file is then complete without
/// the WAL. If the WAL is shorter than its header and the header of one frame, both files are unchanged.
/// `seed` is the seed of the random salts in the next header of the WAL.
///
/// # Errors
///
/// If the files have no valid page size, memory is refused, or the disk fails. After an error or a crash
/// during the copy, recovery finds a content of the database that it could also have found before the copy.
pub(crate) fn copy_wal<D: Disk>(
    alloc: Global,
    mut pair: Files<D>,
    seed: u64,
) -> Result<Files<D>, (wal::Error, Files<D>)>
    requires log { IsTrue (D.Disk.is_usable pair.log) }
    requires db { IsTrue (D.Disk.is_usable pair.db) }
    ensures moved { IfOk result (IsMoved D.Disk pair) }
    ensures kept { IfErr result (λ e. KeepsPages D.Disk pair e.1) }
{
    match has_wal(&mut pair) {
        Ok(true) => copy_long(alloc, pair, seed),
        Ok(false) => Ok(pair),
        Err(error) => Err((wal::Error::Io(error), pair)),
    }
}

/// Converts an error of copying the WAL to a [`StoreError`]. An I/O error of the disk becomes `fault`.
/// Refused memory and a full disk keep their own errors, and each other error becomes `Io`.
pub(crate) fn cause_of(error: wal::Error, fault: StoreError) -> StoreError
    ensures { result ≡ cause_of error fault }
{
    match error {
        wal::Error::Io(_) => fault,
        wal::Error::OutOfMemory => StoreError::OutOfMemory,
        wal::Error::Full => StoreError::Full,
        _ => StoreError::Io,
    }
}

/// Converts a failure of the store to SQLite's error code for it.
pub(crate) fn store_error(cause: StoreError) -> Error
    ensures { result ≡ of_store.store_error cause }
{
    Error::SqliteFailure(match cause {
        StoreError::OutOfMemory => ErrorCode::OutOfMemory,
        StoreError::Io => ErrorCode::SystemIoFailure,
        StoreError::Corrupt => ErrorCode::DatabaseCorrupt,
        StoreError::Full => ErrorCode::DiskFull,
        StoreError::Broken => ErrorCode::Closed,
        StoreError::Unstorable => ErrorCode::TooBig,
    })
}

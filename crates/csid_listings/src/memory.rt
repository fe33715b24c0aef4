//! Opens databases whose files are in memory.

ghost use Rattle.std.specs.Prelude.{◌≡◌, false, length, IfErr, IfOk, IsTrue};
ghost use Rattle.sqlite.specs.Files.{file_state};
ghost use Rattle.sqlite_disk.specs.Memory.{memory_bytes, memory_is_usable};
ghost use Rattle.csi_sql.specs.Tables.{no_schema};
ghost use Rattle.csid_settings.specs.Statuses.{IsOrNoMemory};

use crate::tables::{adoption_failure, database_failure};
use csi_adoption::AdoptFault;
use csid_settings::Failure;
use sqlite::{Connection, Error, ErrorCode, FileStore, Files, Options};
use sqlite_disk::{Disk, Memory};
use std::alloc::Global;

// The seed for the WAL of a database in memory. No other program sees the files, so the seed need not be
// random.
const SEED: u64 = 1;

// Makes a file in memory with these bytes.
fn in_memory(alloc: Global, bytes: &[u8]) -> Result<Memory, Failure>
    ensures usable { IfOk result (λ file. IsTrue (memory_is_usable file)) }
    ensures bytes { IfOk result (λ file. memory_bytes file ≡ bytes.now) }
    ensures failure { IfErr result (λ failure. IsOrNoMemory 4 failure) }
{
    let mut file = Memory::new(alloc);
    match file.write_at(0, bytes) {
        Ok(()) => Ok(file),
        Err(_) => Err(Failure::NoMemory),
    }
}

/// Makes a database file and its WAL in memory, with the bytes `db` and `wal`.
///
/// # Errors
///
/// If memory is refused.
pub fn files_of(alloc: Global, wal: &[u8], db: &[u8]) -> Result<Files<Memory>, Failure>
    ensures usable { IfOk result (λ files. IsTrue (memory_is_usable files.log)
        × IsTrue (memory_is_usable files.db)) }
    ensures bytes { IfOk result (λ files. (memory_bytes files.log ≡ wal.now)
        × (memory_bytes files.db ≡ db.now)) }
    ensures failure { IfErr result (λ failure. IsOrNoMemory 4 failure) }
{
    let log = in_memory(alloc, wal)?;
    Ok(Files {
        log,
        db: in_memory(alloc, db)?,
    })
}

/// Returns true if memory for a file in memory was refused. SQLite reports this as a failure of the disk, and
/// files in memory have no other failure.
pub fn is_no_memory(error: &Error) -> bool {
    matches!(error, Error::SqliteFailure(ErrorCode::SystemIoFailure))
}

/// Returns the failure for a database in memory that cannot be opened or read. It is [`Failure::NoMemory`] if
/// memory was refused. Otherwise its line has `path` as the name of the database.
pub fn memory_failure(alloc: Global, path: &str, error: &Error) -> Failure
    ensures { IsOrNoMemory 4 result }
{
    if is_no_memory(error) {
        return Failure::NoMemory;
    }
    database_failure(alloc, path, error)
}

/// Returns the failure for tables of a database in memory that were not adopted. It is [`Failure::NoMemory`]
/// if memory was refused.
pub(crate) fn memory_adoption_failure(alloc: Global, path: &str, fault: &AdoptFault) -> Failure
    ensures { IsOrNoMemory 4 result }
{
    match fault {
        AdoptFault::Store(error) if is_no_memory(error) => Failure::NoMemory,
        _ => adoption_failure(alloc, path, fault),
    }
}

/// Opens a connection to the database in a file and its WAL. If both files are empty, the database is empty.
/// The line about a failure has `path` as the name of the database.
///
/// # Errors
///
/// If the files are not a database, or memory is refused.
pub fn open(
    alloc: Global,
    path: &str,
    files: Files<Memory>,
) -> Result<Connection<FileStore<Memory>>, Failure>
    requires usable { IsTrue (memory_is_usable files.log) × IsTrue (memory_is_usable files.db) }
    ensures idle { IfOk result (λ conn. conn.in_transaction ≡ false) }
    ensures blank { length (memory_bytes files.db) ≡ 0
        → IfOk result (λ conn. (file_state conn).now.schema ≡ no_schema) }
    ensures failure { IfErr result (λ failure. IsOrNoMemory 4 failure) }
{
    match Connection::open_files(alloc, files, Options::new(SEED)) {
        Ok(conn) => Ok(conn),
        Err((error, _)) => Err(memory_failure(alloc, path, &error)),
    }
}

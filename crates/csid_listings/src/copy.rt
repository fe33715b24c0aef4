//! Copies a file of tables into memory. The file is only read.

ghost use Rattle.std.specs.Prelude.{◌≡◌, ◌↔◌, ℕ, List, ⊤, false, IfErr, IfOk, IfSome, IsTrue};
ghost use Rattle.sqlite_disk.specs.Memory.{memory_bytes, memory_is_usable};
ghost use Rattle.csid_listings.specs.Copying.{IsOfOneMoment, header_in};
ghost use Rattle.csid_settings.specs.Statuses.{IsOrNoMemory};

use crate::check::check_over;
use crate::listing::list_over;
use crate::memory::{files_of, open};
use crate::tables::database_failure;
use csi_config::Config;
use csid_console::Console;
use csid_settings::{Chosen, Failure};
use sqlite::{Alter, Connection, Error, ErrorCode, FileStore, Files};
use sqlite_disk::Memory;
use std::alloc::Global;
use std::fs::{self, File};
use std::io::{self, ErrorKind, Read};

// The greatest number of tries to copy a file while another process writes it.
const TRIES: usize = 10;

// The length in bytes of the header of a WAL (sqlite.org/fileformat2.html, section 4.1).
const WAL_HEADER_BYTES: usize = 32;

const IS_WRITTEN: &str = "it is written all the time";

/// Reported for a file without tables.
pub(crate) const NO_TABLES: &str = "it has no tables, and none are made";

// Returns the failure for a file that cannot be read.
fn read_failure(alloc: Global, path: &str, error: &io::Error) -> Failure
    ensures { IsOrNoMemory 4 result }
{
    match error.kind() {
        ErrorKind::OutOfMemory => Failure::NoMemory,
        _ => Failure::of_tables(alloc, path, error),
    }
}

// Reads the bytes of a file. A missing file has no bytes.
fn bytes_of(rt: &HostRuntime, path: &str) -> Result<Vec<u8>, Failure>
    ensures { IfErr result (λ failure. IsOrNoMemory 4 failure) }
{
    match fs::read(rt, path) {
        Ok(bytes) => Ok(bytes),
        Err(error) if error.kind() == ErrorKind::NotFound => Ok(Vec::new(rt.alloc())),
        Err(error) => Err(read_failure(rt.alloc(), path, &error)),
    }
}

// Reads the header of a WAL: its first 32 bytes, or all bytes of a shorter file. A missing file has no bytes.
fn header_of(rt: &HostRuntime, path: &str) -> Result<Vec<u8>, Failure>
    ensures { IfErr result (λ failure. IsOrNoMemory 4 failure) }
{
    let mut header = Vec::new(rt.alloc());
    let file = match File::open(rt, path) {
        Ok(file) => file,
        Err(error) if error.kind() == ErrorKind::NotFound => return Ok(header),
        Err(error) => return Err(read_failure(rt.alloc(), path, &error)),
    };
    match file.take(WAL_HEADER_BYTES as u64).read_to_end(&mut header) {
        Ok(_) => Ok(header),
        Err(error) => Err(read_failure(rt.alloc(), path, &error)),
    }
}

// Returns the path of the file to which the links at `path` lead. SQLite keeps the WAL and the journal next
// to this file.
fn real_path(rt: &HostRuntime, path: &str) -> Result<String, Failure>
    ensures { IfErr result (λ failure. IsOrNoMemory 4 failure) }
{
    match fs::canonicalize(rt, path) {
        Ok(real) => Ok(String::from_str(rt.alloc(), real.as_str())?),
        Err(error) => Err(read_failure(rt.alloc(), path, &error)),
    }
}

// Returns the path of a file that SQLite keeps next to a database file: the path of the database file,
// followed by `end`.
fn path_with(alloc: Global, real: &str, end: &str) -> Result<String, Failure>
    ensures { IfErr result (λ failure. IsOrNoMemory 4 failure) }
{
    Ok(format!(in alloc; "{real}{end}")?)
}

/// Reads a database file and its WAL for a copy, while another process may write both.
trait DatabaseReads {
    // Holds if the whole database file was read and had these bytes.
    ghost database: { Self → Self → List ℕ → Type 0 } = { λ _ _ _. ⊤ };
    // Holds if the whole WAL was read and had these bytes.
    ghost wal: { Self → Self → List ℕ → Type 0 } = { λ _ _ _. ⊤ };
    // Holds if the header of the WAL was read and had these bytes.
    ghost wal_header: { Self → Self → List ℕ → Type 0 } = { λ _ _ _. ⊤ };

    /// Returns the bytes of the database file, or no bytes if there is no such file. Fails if the file cannot
    /// be read or memory is refused.
    fn read_database(&mut self) -> Result<Vec<u8>, Failure>
        ensures read { IfOk result (λ bytes. database self.old self.new bytes.items) }
        ensures failure { IfErr result (λ failure. IsOrNoMemory 4 failure) };

    /// Returns the bytes of the WAL, or no bytes if there is no such file. Fails if the WAL cannot be read or
    /// memory is refused.
    fn read_wal(&mut self) -> Result<Vec<u8>, Failure>
        ensures read { IfOk result (λ bytes. wal self.old self.new bytes.items) }
        ensures failure { IfErr result (λ failure. IsOrNoMemory 4 failure) };

    /// Returns the first 32 bytes of the WAL, or all its bytes if it is shorter. A missing WAL has no bytes.
    /// Fails if the WAL cannot be read or memory is refused.
    fn read_wal_header(&mut self) -> Result<Vec<u8>, Failure>
        ensures read { IfOk result (λ bytes. wal_header self.old self.new bytes.items) }
        ensures failure { IfErr result (λ failure. IsOrNoMemory 4 failure) };
}

/// Reads the database file at a path, and its WAL.
#[derive(Clone, Copy, Drop)]
struct PathReads<'a> {
    rt: &'a HostRuntime,
    path: &'a str,
    wal_path: &'a str,
}

impl DatabaseReads for PathReads<'_> {
    fn read_database(&mut self) -> Result<Vec<u8>, Failure> {
        bytes_of(self.rt, self.path)
    }

    fn read_wal(&mut self) -> Result<Vec<u8>, Failure> {
        bytes_of(self.rt, self.wal_path)
    }

    fn read_wal_header(&mut self) -> Result<Vec<u8>, Failure> {
        header_of(self.rt, self.wal_path)
    }
}

// Returns true if a WAL begins with this header.
fn has_header(wal: &[u8], header: &[u8]) -> bool
    ensures { IsTrue result ↔ (header.now ≡ header_in wal.now) }
{
    header == wal.split_at(WAL_HEADER_BYTES.min(wal.len())).0
}

// Reads the database file, its WAL, the database file again, and last the header of the WAL. Returns `None`
// if the database file or the header of the WAL has changed meanwhile, since the bytes may then be of
// different moments. A process that starts a WAL again writes a new header before it overwrites or cuts off
// any frame.
fn copied_once<F: DatabaseReads>(
    alloc: Global,
    files: &mut F,
) -> Result<Option<Files<Memory>>, Failure>
    ensures usable { IfOk result (λ found. IfSome found (λ copy. IsTrue (memory_is_usable copy.log)
        × IsTrue (memory_is_usable copy.db))) }
    ensures moment { IfOk result (λ found. IfSome found (λ copy.
        IsOfOneMoment F.database F.wal F.wal_header files.old files.new
        (memory_bytes copy.log) (memory_bytes copy.db))) }
    ensures failure { IfErr result (λ failure. IsOrNoMemory 4 failure) }
{
    let database = files.read_database()?;
    let wal = files.read_wal()?;
    let again = files.read_database()?;
    let header = files.read_wal_header()?;
    if again.as_slice() != database.as_slice() {
        return Ok(None);
    }
    if !has_header(wal.as_slice(), header.as_slice()) {
        return Ok(None);
    }
    Ok(Some(files_of(alloc, wal.as_slice(), database.as_slice())?))
}

// Returns a copy of a database file and its WAL as they were at one moment. Fails if the database file or the
// header of the WAL changed during each of ten tries.
fn copied<F: DatabaseReads>(
    alloc: Global,
    path: &str,
    files: &mut F,
) -> Result<Files<Memory>, Failure>
    ensures usable { IfOk result (λ copy. IsTrue (memory_is_usable copy.log)
        × IsTrue (memory_is_usable copy.db)) }
    ensures moment { IfOk result (λ copy. (from : F)
        × IsOfOneMoment F.database F.wal F.wal_header from files.new
        (memory_bytes copy.log) (memory_bytes copy.db)) }
    ensures failure { IfErr result (λ failure. IsOrNoMemory 4 failure) }
{
    for _ in 0..TRIES {
        if let Some(copy) = copied_once(alloc, files)? {
            return Ok(copy);
        }
    }
    Err(Failure::of_tables(alloc, path, &IS_WRITTEN))
}

// Returns true if a journal has changes to roll back, which only SQLite can do. An opening of the file
// refuses such a journal too.
fn is_hot(journal: &[u8]) -> bool {
    journal.first().is_some_and(|first| *first != 0)
}

/// Copies a database file and its WAL into memory, and opens a connection to the copy.
///
/// # Errors
///
/// - the file does not exist, cannot be read, or is not a database
/// - another process writes the file during each try to copy it
/// - a journal with changes to roll back is next to the file
/// - memory is refused
pub(crate) fn open_copy(
    rt: &HostRuntime,
    path: &str,
) -> Result<Connection<FileStore<Memory>>, Failure>
    ensures idle { IfOk result (λ conn. conn.in_transaction ≡ false) }
    ensures failure { IfErr result (λ failure. IsOrNoMemory 4 failure) }
{
    let real = real_path(rt, path)?;
    let journal = path_with(rt.alloc(), real.as_str(), "-journal")?;
    if is_hot(bytes_of(rt, journal.as_str())?.as_slice()) {
        let error = Error::SqliteFailure(ErrorCode::CannotOpen);
        return Err(database_failure(rt.alloc(), path, &error));
    }
    let wal = path_with(rt.alloc(), real.as_str(), "-wal")?;
    let mut reads = PathReads {
        rt,
        path: real.as_str(),
        wal_path: wal.as_str(),
    };
    let copy = copied(rt.alloc(), path, &mut reads)?;
    open(rt.alloc(), path, copy)
}

/// A task over the copy of tables.
#[derive(Clone, Copy)]
pub(crate) enum CopyTask<'a> {
    /// Check that the tables can be served under a configuration.
    Check(&'a Config),
    /// List the chosen volumes, in JSON if the flag is true.
    List(&'a Chosen<'a>, bool),
}

// Does a task over the tables on a connection. The inner result is the result of the task. Fails if there are
// no tables.
fn over_tables<S: Alter + Drop>(
    console: &Console<'_>,
    path: &str,
    conn: Connection<S>,
    task: CopyTask<'_>,
) -> Result<Result<(), Failure>, Failure>
    requires { conn.in_transaction ≡ false }
    ensures failure { IfErr result (λ failure. IsOrNoMemory 4 failure) }
{
    if conn.schema().tables.is_empty() {
        return Err(Failure::of_tables(console.rt.alloc(), path, &NO_TABLES));
    }
    Ok(match task {
        CopyTask::Check(config) => check_over(console, path, conn, config),
        CopyTask::List(chosen, is_json) => list_over(console, path, conn, chosen, is_json),
    })
}

/// Copies the tables in a file and its WAL into memory, does a task over the copy, and returns the result of
/// the task. The files are only read: the function takes no lock, and makes and changes no file.
///
/// # Errors
///
/// - the file does not exist, cannot be read, is not a database, or has no tables
/// - another process writes the file during each try to copy it
/// - a journal with changes to roll back is next to the file
/// - memory is refused
pub(crate) fn over_tables_copy(
    console: &Console<'_>,
    path: &str,
    task: CopyTask<'_>,
) -> Result<Result<(), Failure>, Failure>
    ensures failure { IfErr result (λ failure. IsOrNoMemory 4 failure) }
{
    let conn = open_copy(console.rt, path)?;
    over_tables(console, path, conn, task)
}

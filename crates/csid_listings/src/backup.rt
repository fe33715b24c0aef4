//! Runs `csid --copy-tables`: copies the tables in a file, as they were committed at one moment, into a new
//! file.

ghost use Rattle.std.specs.Prelude.{IfErr};
ghost use Rattle.csid_settings.specs.Statuses.{IsOrNoMemory};

use crate::check::{adopted, report};
use crate::content::Content;
use crate::copy::{NO_TABLES, open_copy};
use crate::memory::{files_of, memory_failure, open};
use csi_config::Config;
use csid_console::Console;
use csid_settings::Failure;
use sqlite::{Connection, Error, FileStore, Files};
use sqlite_disk::Disk;
use std::fs::{self, File, OpenOptions};
use std::io::{self, ErrorKind, Write};
use std::os::unix::fs::OpenOptionsExt;

// The mode of a copy: only its owner may read and write it.
const OWNER: u32 = 0o600;

const EXISTS: &str = "it exists already, and is not replaced";

// Closes a database and returns its files. The database file then contains all pages.
fn closed<D: Disk + Drop>(conn: Connection<FileStore<D>>) -> Result<Files<D>, Error> {
    match conn.close_files() {
        Ok(files) => Ok(files),
        Err((error, store)) => {
            drop(store.close());
            Err(error)
        }
    }
}

// Returns the bytes of a single file that contains everything in a file of tables and its WAL.
fn whole_bytes(rt: &HostRuntime, path: &str) -> Result<Vec<u8>, Failure>
    ensures { IfErr result (λ failure. IsOrNoMemory 4 failure) }
{
    let conn = open_copy(rt, path)?;
    if conn.schema().tables.is_empty() {
        return Err(Failure::of_tables(rt.alloc(), path, &NO_TABLES));
    }
    match closed(conn) {
        Ok(files) => Ok(Vec::from_slice(rt.alloc(), files.db.bytes())?),
        Err(error) => Err(memory_failure(rt.alloc(), path, &error)),
    }
}

// Checks the tables in the bytes of a file under a configuration, and returns their counts.
fn judged(
    console: &Console<'_>,
    path: &str,
    bytes: &[u8],
    config: &Config,
) -> Result<Content, Failure> {
    let files = files_of(console.rt.alloc(), &[], bytes)?;
    let conn = open(console.rt.alloc(), path, files)?;
    adopted(console, path, conn, config)
}

// Writes a new file, and waits until its bytes are on the disk. Fails if a file exists at `path`.
fn write_new(rt: &HostRuntime, path: &str, bytes: &[u8]) -> io::Result<()> {
    let mut file = OpenOptions::new()
        .write(true)
        .create_new(true)
        .mode(OWNER)
        .open(rt, path)?;
    file.write_all(bytes)?;
    file.sync_all()
}

// Returns the folder of a path, or `.` if the path has no slash.
fn folder_of(path: &str) -> &str {
    match path.rsplit_once('/') {
        Some(("", _)) => "/",
        Some((folder, _)) => folder,
        None => ".",
    }
}

// Gives the file at `from` the name `to`. Fails if a file has this name. If the file system makes no hard
// link, renames the file, which replaces a file at `to`.
fn give_name(rt: &HostRuntime, from: &str, to: &str) -> io::Result<()> {
    match fs::hard_link(rt, from, to) {
        Ok(()) => fs::remove_file(rt, from),
        Err(error) if error.kind() == ErrorKind::AlreadyExists => Err(error),
        Err(_) => fs::rename(rt, from, to),
    }
}

// Gives a new file its name, and waits until the disk has the name. If the name cannot be given, the file is
// removed.
fn put_in_place(rt: &HostRuntime, from: &str, to: &str) -> io::Result<()> {
    if let Err(error) = give_name(rt, from, to) {
        let _ = fs::remove_file(rt, from);
        return Err(error);
    }
    File::open(rt, folder_of(to))?.sync_all()
}

// Returns the failure if a copy could not be written.
fn write_failure(rt: &HostRuntime, path: &str, error: &io::Error) -> Failure
    ensures { IsOrNoMemory 4 result }
{
    match error.kind() {
        ErrorKind::OutOfMemory => Failure::NoMemory,
        _ => Failure::of_tables(rt.alloc(), path, error),
    }
}

// Writes a copy as `TO.new` and then gives it the name `TO`. After a failure, removes `TO.new` unless it
// existed before. If only the sync of the folder fails, the copy stays at `TO`.
fn write_copy(rt: &HostRuntime, to: &str, bytes: &[u8]) -> Result<(), Failure>
    ensures { IfErr result (λ failure. IsOrNoMemory 4 failure) }
{
    let new = format!(in rt.alloc(); "{to}.new")?;
    if let Err(error) = write_new(rt, new.as_str(), bytes) {
        if error.kind() != ErrorKind::AlreadyExists {
            let _ = fs::remove_file(rt, new.as_str());
        }
        return Err(write_failure(rt, new.as_str(), &error));
    }
    match put_in_place(rt, new.as_str(), to) {
        Ok(()) => Ok(()),
        Err(error) => Err(write_failure(rt, to, &error)),
    }
}

/// Copies the tables in the file at `path` into a new file at `to`, and writes their counts on standard
/// output. The copy has the tables as they were committed at one moment, and needs no WAL. It is checked
/// under the configuration before the new file gets the name `to`. The file at `path` is only read, and a
/// server may have it open. On a file system without hard links, a file that another process makes at `to`
/// during the copy is replaced.
///
/// # Errors
///
/// If a file exists at `to` or at the path `to` with `.new` at its end, the system does not report if a file
/// exists at `to`, the tables cannot be read or are refused, the copy or the counts cannot be written, or
/// memory is refused. If only the counts cannot be written, the copy is complete.
pub fn copy_tables(
    console: &Console<'_>,
    path: &str,
    to: &str,
    config: &Config,
) -> Result<(), Failure> {
    if !matches!(fs::exists(console.rt, to), Ok(false)) {
        return Err(Failure::of_tables(console.rt.alloc(), to, &EXISTS));
    }
    let bytes = whole_bytes(console.rt, path)?;
    let content = judged(console, path, bytes.as_slice(), config)?;
    write_copy(console.rt, to, bytes.as_slice())?;
    report(console.rt, &content)
}

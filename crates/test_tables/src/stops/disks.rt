//! The two files of a database in memory, which stop after a number of calls.

ghost use Rattle.std.specs.Prelude.{◌≡◌, false, IfOk};

use super::troubled::Trouble;
use crate::database::run;
use crate::files::disks::TestDisk;
use sqlite::{Alter, Connection, Error as SqlError, ErrorCode, FileStore, Options};
use sqlite_disk::{Crash, Disk, Files, Memory};
use std::alloc::Global;
use std::fmt;
use test_kit::RowFault;

// The seed of the salts in the log. No answer depends on the seed.
const SEED: u64 = 7;

/// The numbers of calls for two files that never stop: more calls than any run makes.
pub(crate) const NEVER: (u64, u64) = (u64::MAX, u64::MAX);

/// The file or files that stop.
#[derive(Clone, Copy)]
pub(crate) enum Which {
    /// The log stops.
    Log,
    /// The database file stops.
    Database,
    /// Both files stop, each after [`Stop::calls`] calls of its own.
    Both,
}

/// The time of a stop, and what happens to the writes before it.
#[derive(Clone, Copy)]
pub(crate) struct Stop {
    /// The log, the database file, or both.
    pub(crate) which: Which,
    /// The number of calls before the stop, or with [`Trouble::Fills`] the number of writes.
    pub(crate) calls: u64,
    /// True if the connection is closed at the end. If false, it is dropped.
    pub(crate) closes: bool,
    /// True if unsynchronised writes are lost. If false, they are kept.
    pub(crate) loses: bool,
    /// The trouble of the files in a run of `csi_files`. If it is `None`, `csi_files` is not run: the tables
    /// are adopted on a connection to files that stop.
    pub(crate) trouble: Option<Trouble>,
}

impl Stop {
    /// Returns the numbers of calls after which the log and the database file stop. A file that never stops
    /// has the number `u64::MAX`.
    pub(crate) fn calls_of_each(self) -> (u64, u64) {
        match self.which {
            Which::Log => (self.calls, u64::MAX),
            Which::Database => (u64::MAX, self.calls),
            Which::Both => (self.calls, self.calls),
        }
    }
}

impl fmt::Display for Stop {
    fn fmt<W: fmt::Write>(&self, f: &mut fmt::Formatter<W>) -> fmt::Result {
        let which = match self.which {
            Which::Log => "log",
            Which::Database => "database",
            Which::Both => "both",
        };
        let closes = if self.closes { ", closed" } else { "" };
        let loses = if self.loses {
            ", unsynchronised lost"
        } else {
            ""
        };
        write!(
            f,
            "stop of {which} behind {} calls{closes}{loses}",
            self.calls
        )
    }
}

/// Makes an empty log and an empty database file in memory.
pub(crate) fn new_files(alloc: Global) -> Files<Memory> {
    Files {
        log: Memory::new(alloc),
        db: Memory::new(alloc),
    }
}

// Makes disks over files. The log stops after `calls.0` calls, and the database file after `calls.1` calls.
fn fused<D: TestDisk>(files: Files<Memory>, calls: (u64, u64)) -> Files<D> {
    Files {
        log: D::over(files.log, calls.0, u64::MAX, None),
        db: D::over(files.db, calls.1, u64::MAX, None),
    }
}

/// Makes an empty log that stops after `calls.0` calls, and an empty database file that stops after `calls.1`
/// calls.
pub(crate) fn new_disks<D: TestDisk>(alloc: Global, calls: (u64, u64)) -> Files<D> {
    fused(new_files(alloc), calls)
}

// Returns a copy of a file, with all bytes synchronised.
fn copied(alloc: Global, file: &Memory) -> Result<Memory, RowFault> {
    let mut copy = Memory::new(alloc);
    // A file in memory fails only if memory is refused.
    if copy.write_at(0, file.bytes()).is_err() || copy.sync().is_err() {
        return Err(RowFault::NoMemory);
    }
    Ok(copy)
}

/// Returns copies of a log and a database file, with all bytes synchronised.
pub(crate) fn copied_files(
    alloc: Global,
    log: &Memory,
    db: &Memory,
) -> Result<Files<Memory>, RowFault> {
    let log = copied(alloc, log)?;
    Ok(Files {
        log,
        db: copied(alloc, db)?,
    })
}

/// Returns copies of files, with all bytes synchronised. The copy of the log stops after `calls.0` calls, and
/// the copy of the database file after `calls.1` calls.
pub(crate) fn copies<D: TestDisk>(
    alloc: Global,
    files: &Files<Memory>,
    calls: (u64, u64),
) -> Result<Files<D>, RowFault> {
    Ok(fused(copied_files(alloc, &files.log, &files.db)?, calls))
}

/// Returns true if two pairs of files have the same bytes.
pub(crate) fn are_same(one: &Files<Memory>, other: &Files<Memory>) -> bool {
    one.log.bytes() == other.log.bytes() && one.db.bytes() == other.db.bytes()
}

/// Returns true if one of the files has stopped.
pub(crate) fn has_stopped<D: TestDisk>(disks: &mut Files<D>) -> bool {
    !disks.may_be_used() || disks.log.len().is_err() || disks.db.len().is_err()
}

/// Returns copies of the files that the next start finds. If `loses` is true, they lack the unsynchronised
/// writes.
pub(crate) fn left_of<D: TestDisk>(
    alloc: Global,
    disks: &mut Files<D>,
    loses: bool,
) -> Result<Files<Memory>, RowFault> {
    if loses {
        disks.log.crash();
        disks.db.crash();
    }
    copied_files(alloc, disks.log.memory(), disks.db.memory())
}

// Opens the database in two files, or returns the files and the error if the database cannot be opened.
fn open<D: Disk + Drop>(
    alloc: Global,
    files: Files<D>,
) -> Result<Connection<FileStore<D>>, (SqlError, Files<D>)>
    ensures { IfOk result (λ conn. conn.in_transaction ≡ false) }
{
    if !files.may_be_used() {
        return Err((SqlError::SqliteFailure(ErrorCode::SystemIoFailure), files));
    }
    match Connection::open_files(alloc, files, Options::new(SEED)) {
        Ok(conn) => Ok(conn),
        Err((error, left)) => Err((error, left.into_files())),
    }
}

/// Sets the format of the tables to 1, in which volumes have no mutable parameters.
pub(crate) fn make_older<S: Alter>(conn: &mut Connection<S>) -> Result<(), RowFault> {
    run(conn, "UPDATE meta SET format_no = 1")
}

// Ends a connection and returns its files. If `closes` is true, the files are closed, otherwise they are as a
// stop leaves them.
fn end<D: Disk + Drop>(conn: Connection<FileStore<D>>, closes: bool) -> Files<D> {
    if !closes {
        return conn.into_store().close();
    }
    match conn.close_files() {
        Ok(files) => files,
        Err((_, store)) => store.close(),
    }
}

/// A task that runs on a connection to a database, on any disk.
pub(crate) trait Task {
    /// Runs the task on a connection that has no open transaction. Returns the connection, so that the
    /// caller can close or drop it.
    fn run<S: Alter + Drop>(&mut self, conn: Connection<S>) -> Connection<S>
        requires { conn.in_transaction ≡ false };
}

/// Opens the database in the files and runs a task on it. Returns the files, and the error if the database
/// cannot be opened. If `closes` is true, the files are closed. Otherwise they have the bytes that a stop of
/// the program leaves.
pub(crate) fn over<D: Disk + Drop, T: Task>(
    alloc: Global,
    files: Files<D>,
    closes: bool,
    task: &mut T,
) -> (Files<D>, Result<(), SqlError>) {
    match open(alloc, files) {
        Ok(conn) => (end(task.run(conn), closes), Ok(())),
        Err((error, files)) => (files, Err(error)),
    }
}

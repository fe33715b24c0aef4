//! The parts of a run of calls over tables in files: its inputs, its report and its failures.

ghost use Rattle.std.specs.Prelude.{◌≡◌, option_map};
ghost use Rattle.csi_files.specs.Leaving.{files_of};

use csi_adoption::{AdoptFault, Content};
use csi_config::Config;
use csi_keeper::StoreFault;
use csi_server::RunEnd;
use sqlite::{Error, Files, Leftover};
use sqlite_disk::Disk;
use std::alloc::Global;

/// The observer of a run. The run reports to it each step before the first call. After the last call, the run
/// reports the first error of the database, if there was one.
pub trait Observer {
    /// Called after new tables were made, in a database that had no table.
    fn made(&self);

    /// Called after the tables were adopted, with the counts of their rows. No call was read yet.
    fn adopted(&self, content: &Content);

    /// Called if a copy of the volumes was tried and memory has no room for it. Each read is then answered
    /// from the file. Not called if the options forbid a copy.
    fn uncopied(&self);

    /// Called if the database refused any call: after the last call, or after a failed copy of the volumes.
    /// `cause` is the first error of the database, such as a full disk.
    fn refused(&self, cause: &Error);

    /// Returns true if the process has memory for its calls and for the next opening of the tables, which
    /// takes `opening` bytes. A run calls this function at these times:
    ///
    /// - before each page of volumes that it copies into memory. If the result is false, the volumes are not
    ///   copied.
    /// - before a change that adds rows or sets parameters, unless `opening` is less than 256 KiB above its
    ///   value at the last such call that returned true. If the result is false, the change fails as if
    ///   memory were refused.
    ///
    /// An implementation must count limits at which the process is killed, such as the memory limit of a
    /// Linux control group. It need not count limits at which an allocation fails.
    fn has_room(&self, opening: usize) -> bool;
}

/// The options of a run over tables: how it opens the tables, and from where it answers reads.
#[derive(Clone, Copy)]
pub struct RunOptions {
    /// If true, a database without tables is refused. If false, it gets new tables.
    pub is_existing: bool,
    /// If true, reads are answered from the file. If false, the volumes are copied into memory if memory has
    /// room for them, and reads are then answered from the copy.
    pub is_low_memory: bool,
    /// The memory in bytes that an opening of the tables takes, since an opening reads each table whole.
    /// While reads are answered from the file, this memory is held for the next opening, as far as the system
    /// gives it. A call that adds rows or sets parameters then first holds memory for the bytes that it adds,
    /// and fails if this memory is refused. While reads are answered from a copy, no memory is held. In both
    /// cases, such a call fails if the observer has no room ([`Observer::has_room`]).
    pub reserve: usize,
}

/// The inputs of a run of calls over tables in files: memory, configuration, options and observer.
#[derive(Clone, Copy)]
pub struct Run<'a, O> {
    /// The allocator of all memory that the run needs.
    pub alloc: Global,
    /// The configuration under which tables are adopted and calls are answered.
    pub config: &'a Config,
    /// How the run opens tables and answers reads.
    pub options: RunOptions,
    /// The observer, to which the run reports its steps.
    pub observer: &'a O,
}

/// The report of a run of calls: why the run ended, how it answered reads, and how many calls the store
/// refused.
#[derive(Clone, Copy)]
pub struct RunReport {
    /// The reason why the run ended, as the server reports it.
    pub end: RunEnd,
    /// The number of calls that the store refused, at most 2^64 - 1. This includes calls that were refused
    /// because the store was down.
    pub refusals: u64,
    /// True if the store was down at the end: a change had failed. Each later call that read or changed the
    /// store was refused.
    pub is_down: bool,
    /// True if reads were answered from a copy of the volumes in memory, false if the file answered them.
    pub is_copied: bool,
    /// True if the database had no tables and got new ones.
    pub is_new: bool,
}

/// The result of a run that closed its files: the report of the run, and the files.
#[derive(Drop)]
pub struct Closed<D: Disk> {
    /// The report of the calls that were served.
    pub report: RunReport,
    /// The files after the run. The database file contains all committed changes, and is complete without its
    /// WAL.
    pub files: Files<D>,
}

/// The reason why an open database was refused and no call was served.
#[derive(Drop)]
pub enum Refusal {
    /// The database has no tables, and the options required existing tables.
    Blank,
    /// The tables were not adopted, because of this fault.
    NotAdopted(AdoptFault),
    /// The store refused a read while the volumes were copied into memory. The fault is never `NoMemory`: if
    /// memory is refused, the run goes on without a copy.
    NotCopied(StoreFault),
}

/// The step at which a run over files failed. Each variant has the reason, or the report of the calls that
/// were served. Each variant except `NoFiles` also contains the files.
pub enum RunFailure<D: Disk> {
    /// The path was refused, or the operating system gave no files or no random seed. No call was read.
    NoFiles(Error),
    /// The files were not opened. No call was read.
    NotOpened(Error, Leftover<D>),
    /// The database was refused. No call was read, and no volume has changed.
    Refused(Refusal, Files<D>),
    /// Calls were served, but the store refused some of them. The WAL was copied into the database file if
    /// the disk and memory allowed it. The committed changes are in the WAL, in the database file or in both.
    Left(RunReport, Files<D>),
    /// Calls were served, but copying the WAL into the database file failed with this error. The error is
    /// `Closed` if the copy was not tried, since an earlier fault had shut the store or a sync had failed.
    /// The committed changes are in the WAL, in the database file or in both.
    NotClosed(RunReport, Error, Files<D>),
}

// Written by hand and not derived: the proof of code that drops a failure then has one call for the drop, and
// no branch for each part.
impl<D: Disk + Drop> Drop for RunFailure<D> {
    fn drop(self) {
        match self {
            RunFailure::NoFiles(_) => {}
            RunFailure::NotOpened(_, _left) => {}
            RunFailure::Refused(_refusal, _files) => {}
            RunFailure::Left(_, _files) => {}
            RunFailure::NotClosed(_, _, _files) => {}
        }
    }
}

impl<D: Disk + Drop> RunFailure<D> {
    /// Returns the files after the run without reading or writing them, or `None` for `NoFiles`.
    pub fn into_files(self) -> Option<Files<D>>
        ensures { option_map (λ files. (files.log, files.db)) result ≡ files_of self }
    {
        match self {
            RunFailure::NoFiles(_) => None,
            RunFailure::NotOpened(_, left) => Some(left.into_files()),
            RunFailure::Refused(_refusal, files) => Some(files),
            RunFailure::Left(_, files) => Some(files),
            RunFailure::NotClosed(_, _, files) => Some(files),
        }
    }
}

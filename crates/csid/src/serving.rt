//! Serves calls over the tables in a file. `csi_files` opens, adopts, serves and closes the tables. This
//! module gives each failure of a run a text and an exit status.

ghost use Rattle.std.specs.Prelude.{◌≡◌, None, Some};
ghost use Rattle.std.specs.Fmt.{option_append};
ghost use Rattle.csid.specs.Serving.{IsServed, Says};
ghost use Rattle.csid_settings.specs.Statuses.{IsOrNoMemory};

use crate::existing::{FileFault, opening_limits};
use crate::room::MemoryGauge;
use crate::tables::prepare;
use csi_adoption::Content;
use csi_config::Config;
use csi_files::{Closed, FilesAt, Observer, Refusal, Run, RunFailure, RunOptions, RunReport};
use csid_listings::{adoption_failure, database_failure, store_failure};
use csid_settings::{Failure, TablesFile};
use sqlite::{Error, Start};
use sqlite_disk::Disk;
use std::alloc::Global;
use std::io::{Read, Write};

/// The failure of a run over tables. If the calls were served, the failure has their report.
#[derive(Drop)]
pub(crate) struct TablesFailure {
    /// The reason why the tables cannot be opened or their file was not closed.
    pub(crate) cause: Failure,
    /// The report of the calls, if they were served but the file was not closed. The committed changes are
    /// then in the WAL next to the file, in the file, or in both.
    pub(crate) report: Option<RunReport>,
}

impl TablesFailure {
    // Makes the failure of a run in which no call was read.
    fn unserved(cause: Failure) -> TablesFailure
        ensures { (result.cause ≡ cause) × (result.report ≡ None) }
    {
        TablesFailure {
            cause,
            report: None,
        }
    }
}

// Returns the program's failure for a database that was refused.
fn refusal_failure(alloc: Global, path: &str, refusal: &Refusal) -> Failure
    ensures { IsOrNoMemory 4 result }
{
    match refusal {
        Refusal::Blank => Failure::of_tables(alloc, path, &FileFault::Blank),
        Refusal::NotAdopted(fault) => adoption_failure(alloc, path, fault),
        Refusal::NotCopied(fault) => store_failure(alloc, path, *fault),
    }
}

// Converts the result of a run over the files at a path: to its report, or to a failure with a text and a
// status. If the store refused a call, the result is the report too.
fn outcome_of<D: Disk + Drop>(
    alloc: Global,
    path: &str,
    outcome: Result<Closed<D>, RunFailure<D>>,
) -> Result<RunReport, TablesFailure>
    ensures { Says outcome result }
{
    let failure = match outcome {
        Ok(closed) => return Ok(closed.report),
        Err(failure) => failure,
    };
    match &failure {
        RunFailure::NoFiles(error) | RunFailure::NotOpened(error, _) => Err(TablesFailure::unserved(
            database_failure(alloc, path, error),
        )),
        RunFailure::Refused(refusal, _) => Err(TablesFailure::unserved(refusal_failure(
            alloc, path, refusal,
        ))),
        RunFailure::Left(report, _) => Ok(*report),
        RunFailure::NotClosed(report, error, _) => Err(TablesFailure {
            cause: database_failure(alloc, path, error),
            report: Some(*report),
        }),
    }
}

/// The inputs of a run of calls over the tables in a file.
#[derive(Clone, Copy)]
pub(crate) struct TablesRun<'a, O> {
    /// The operating system, which opens the files.
    pub(crate) rt: HostRuntime,
    /// The configuration under which calls are answered.
    pub(crate) config: &'a Config,
    /// The path of the file of tables, and how the file is opened.
    pub(crate) file: TablesFile<'a>,
    /// The observer, which reports how the calls are served.
    pub(crate) observer: &'a O,
}

impl<O: Observer> TablesRun<'_, O> {
    /// Serves the calls in `sent`, and then the calls from the reader. A missing file is made, unless the
    /// options require an existing file. If the store refused calls, the result is still `Ok`, and the report
    /// has the number of these calls. `start` stands for the content of the file and its WAL in the contract,
    /// which holds for any content.
    ///
    /// # Errors
    ///
    /// - the tables cannot be opened, or memory is refused. No call was served.
    /// - the file cannot be closed after the calls. The failure contains the report of the calls.
    pub(crate) fn serve_file<S: Start, R: Read, W: Write>(
        &self,
        start: S,
        sent: &[u8],
        reader: &mut R,
        writer: &mut W,
    ) -> Result<RunReport, TablesFailure>
        ensures { IsServed S.Start self.now.config.now self.now.file
            (option_append (Some sent.now) (R.remaining reader.old))
            (W.contents writer.old) (W.contents writer.new) result }
    {
        let TablesFile {
            path,
            is_existing,
            is_low_memory,
        } = self.file;
        if let Err(cause) = prepare(&self.rt, &self.file) {
            return Err(TablesFailure::unserved(cause));
        }
        let limits = opening_limits(&self.rt, path, is_low_memory);
        let run = Run {
            alloc: self.rt.alloc(),
            config: self.config,
            options: RunOptions {
                is_existing,
                is_low_memory,
                reserve: limits.bytes,
            },
            observer: self.observer,
        };
        let at = FilesAt {
            rt: self.rt,
            path,
            start,
            cache_pages: limits.cache_pages,
        };
        let outcome = run.serve_path(at, &mut sent.chain(reader), writer);
        outcome_of(self.rt.alloc(), path, outcome)
    }
}

/// An observer that reports nothing. It asks the gauge if there is room, as the observer of a socket does.
#[derive(Clone, Copy)]
pub(crate) struct SilentObserver<'a> {
    /// The gauge of this process's memory, which answers `has_room`.
    pub(crate) gauge: &'a MemoryGauge,
}

impl Observer for SilentObserver<'_> {
    fn made(&self) {}

    fn adopted(&self, _content: &Content) {}

    fn uncopied(&self) {}

    fn refused(&self, _cause: &Error) {}

    fn has_room(&self, opening: usize) -> bool {
        self.gauge.has_room(opening)
    }
}

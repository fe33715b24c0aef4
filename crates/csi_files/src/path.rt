//! Opens the files at a path, and serves calls over them.

ghost use Rattle.std.specs.Prelude.{◌≡◌, false, true, IfErr, IfOk, IsTrue};
ghost use Rattle.sqlite_std_file.specs.File.{IsFresh, file_is_usable};
ghost use Rattle.sqlite_wal.specs.Files.{image_at};
ghost use Rattle.sqlite_wal.specs.Reads.{AreClean};
ghost use Rattle.csi_server.specs.Serving.{Serves, Writes};
ghost use Rattle.csi_server.specs.Volumes.{seen, volumes};
ghost use Rattle.csi_files.specs.Files.{HasAlone, files_model};
ghost use Rattle.csi_files.specs.Path.{IsNotGiven, IsNotServedAt, NotSeeded, no_file_error, open_error, over_calls};
ghost use Rattle.csi_files.specs.Serving.{AllServed, HasRefusedNone, IsAsked, LeavesAfter};
ghost use Rattle.csi_files.specs.Starting.{StartsThen, start_model};
ghost use Rattle.csi_files.specs.Streams.{streams};

use crate::run::{Closed, Observer, Run, RunFailure};
use sqlite::{Error, ErrorCode, FileFrom, Files, Options, Start};
use sqlite_std_file::{OpenError, open};
use std::hash::{BuildHasher, RandomState};
use std::io::{ErrorKind, Read, Write};

const NO_MEMORY: Error = Error::SqliteFailure(ErrorCode::OutOfMemory);

const CANNOT_OPEN: Error = Error::SqliteFailure(ErrorCode::CannotOpen);

const BUSY: Error = Error::SqliteFailure(ErrorCode::DatabaseBusy);

/// The files at a path that a run opens.
///
/// The contracts rest on two assumptions, like the contract of `sqlite_std_file::open`: the operating system
/// gives the files at the path, and no other program writes to these files.
pub struct FilesAt<'a, S> {
    /// The operating system, which opens the files and gives the random seed.
    pub rt: HostRuntime,
    /// The path of the database file. The WAL is next to this file, with `-wal` at the end of its name.
    /// A path that is `:memory:` or begins with `file:` is refused, since SQLite would not take it as the
    /// name of a file.
    pub path: &'a str,
    /// The contents of the files before the run. The contracts of a run hold for any contents.
    pub start: S,
    /// The greatest number of pages of the database file that are kept in memory.
    ///
    /// An opening looks up each row in the index of names, and reads the pages of the index in random order.
    /// If the index has more pages than this number, the opening reads a page again for nearly each row.
    pub cache_pages: usize,
}

// Converts the operating system's failure to open the files to SQLite's error for it.
fn open_error(cause: OpenError) -> Error
    ensures { result ≡ open_error cause }
{
    match cause {
        OpenError::OutOfMemory => NO_MEMORY,
        OpenError::Busy => BUSY,
        OpenError::Io(error) if error.kind() == ErrorKind::OutOfMemory => NO_MEMORY,
        OpenError::Io(_) | OpenError::HotJournal => CANNOT_OPEN,
    }
}

// Opens the files at a path, and creates missing files. A path that is `:memory:` or begins with `file:` is
// refused, since SQLite would not take it as the name of a file.
fn files_at<S: Start>(rt: &HostRuntime, path: &str, start: S) -> Result<Files<FileFrom<S>>, Error>
    ensures usable { IfOk result (λ files. IsTrue (file_is_usable S.Start files.log)
        × IsTrue (file_is_usable S.Start files.db)) }
    ensures fresh { IfOk result (λ files. IsFresh true files.log × IsFresh false files.db) }
    ensures failed { IfErr result (IsNotGiven path.now) }
{
    if path == ":memory:" || path.starts_with("file:") {
        return Err(CANNOT_OPEN);
    }
    match open(rt, path, start) {
        Ok(files) => Ok(files),
        Err(cause) => Err(open_error(cause)),
    }
}

// Returns the options of an opening, with a random seed. The seed makes the frames of a new WAL differ from
// the frames of an old WAL.
fn opening(rt: &HostRuntime, cache_pages: usize) -> Result<Options, Error>
    ensures { IfErr result (λ e. e ≡ no_file_error NotSeeded) }
{
    match RandomState::new(rt) {
        Ok(state) => Ok(Options {
            cache_pages,
            ..Options::new(state.hash_one(&0u8))
        }),
        Err(_) => Err(CANNOT_OPEN),
    }
}

impl<O: Observer> Run<'_, O> {
    /// Serves the volume machine over the database file at a path and its WAL. Makes a database if the files
    /// hold none yet, opens the files, adopts their tables, serves calls, and closes the files.
    /// [`create_and_serve`](Run::create_and_serve) does the same over two given files, and states more about
    /// the run.
    ///
    /// # Errors
    ///
    /// - `NoFiles`: the path is refused, or the operating system gives no files or no random seed. No call
    ///   was read.
    /// - `NotOpened` or `Refused`: the files were not opened, or their database was refused. No call was
    ///   read.
    /// - `Left`: the store refused a call.
    /// - `NotClosed`: after the calls, copying the WAL into the database file failed, or the files cannot be
    ///   used after an earlier fault.
    ///
    /// # Not promised
    ///
    /// The contract does not say what the program around the run, or its sockets, do.
    pub fn serve_path<S: Start, R: Read, W: Write>(
        &self,
        at: FilesAt<'_, S>,
        reader: &mut R,
        writer: &mut W,
    ) -> Result<Closed<FileFrom<S>>, RunFailure<FileFrom<S>>>
        ensures served { IfOk result (λ r. Serves (volumes self.now.config.now)
            (start_model (image_at S.Start) r.report.is_new)
            (seen self.now.config.now (files_model over_calls r.files r.report.refusals r.report.is_down))
            (R.remaining reader.old) (R.remaining reader.new) (W.contents writer.old)
            (W.contents writer.new) r.report.end) }
        ensures after { IfOk result (λ r. StartsThen self.now.config.now (image_at S.Start)
            (streams (R.remaining reader.old) (R.remaining reader.new)
            (W.contents writer.old) (W.contents writer.new)) r.report
            (AreClean over_calls r.files.log r.files.db)
            (LeavesAfter over_calls self.now.config.now r.files)) }
        ensures usable { IfOk result (λ r. IsTrue (over_calls.is_usable r.files.log)
            × IsTrue (over_calls.is_usable r.files.db)) }
        ensures alone { IfOk result (λ r. HasAlone over_calls r.files) }
        ensures writes { AllServed over_calls (λ report. Writes (R.remaining reader.old)
            (R.remaining reader.new) (W.contents writer.old) (W.contents writer.new) report.end) result }
        ensures none_refused { IfOk result (λ r. HasRefusedNone r.report) }
        ensures uncopied { AllServed over_calls (λ report. IsTrue self.now.options.is_low_memory
            → report.is_copied ≡ false) result }
        ensures existing { IsAsked over_calls self.now.options.is_existing result }
        ensures not_served { IfErr result (IsNotServedAt S.Start self.now.config.now
            (streams (R.remaining reader.old) (R.remaining reader.new)
            (W.contents writer.old) (W.contents writer.new))) }
    {
        let FilesAt {
            rt,
            path,
            start,
            cache_pages,
        } = at;
        let files = match files_at(&rt, path, start) {
            Ok(files) => files,
            Err(error) => return Err(RunFailure::NoFiles(error)),
        };
        match opening(&rt, cache_pages) {
            Ok(opening) => self.create_and_serve(files, opening, reader, writer),
            Err(error) => Err(RunFailure::NoFiles(error)),
        }
    }
}

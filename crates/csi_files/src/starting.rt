//! Serves calls over two files. If the files hold no database yet, makes one first.

ghost use Rattle.std.specs.Prelude.{◌≡◌, false, IfErr, IfOk, IsTrue};
ghost use Rattle.sqlite_wal.specs.Reads.{AreClean};
ghost use Rattle.sqlite.specs.Files.{image_of};
ghost use Rattle.csi_server.specs.Serving.{Serves, Writes};
ghost use Rattle.csi_server.specs.Volumes.{seen, volumes};
ghost use Rattle.csi_files.specs.Files.{HasAlone, files_model};
ghost use Rattle.csi_files.specs.Serving.{AllServed, HasRefusedNone, IsAsked, LeavesAfter};
ghost use Rattle.csi_files.specs.Making.{IsLaidOut};
ghost use Rattle.csi_files.specs.Starting.{IsLeftUnmade, IsNotStarted, StartsThen, code_of, start_model};
ghost use Rattle.csi_files.specs.Streams.{streams};

use crate::making::{NotLaidOut, lay_out};
use crate::run::{Closed, Observer, Run, RunFailure};
use sqlite::{Connection, Error, ErrorCode, Files, Leftover, Options};
use sqlite_disk::Disk;
use sqlite_pages as pages;
use sqlite_store::name_fault;
use sqlite_trees::error::StoreError;
use std::alloc::Global;
use std::io::{Read, Write};

// Returns SQLite's error code for a database that could not be made. `fault` names the failure of the disk,
// if the disk failed.
fn code_of(why: NotLaidOut, fault: StoreError) -> ErrorCode
    ensures { result ≡ code_of why fault }
{
    match why {
        NotLaidOut::Emptied => ErrorCode::CannotOpen,
        NotLaidOut::Failed(pages::Error::Corrupt) => ErrorCode::DatabaseCorrupt,
        NotLaidOut::Failed(pages::Error::Full) => ErrorCode::DiskFull,
        NotLaidOut::Failed(pages::Error::OutOfMemory) => ErrorCode::OutOfMemory,
        NotLaidOut::Failed(pages::Error::Io) => match fault {
            StoreError::Full => ErrorCode::DiskFull,
            StoreError::Corrupt => ErrorCode::DatabaseCorrupt,
            _ => ErrorCode::SystemIoFailure,
        },
    }
}

// Makes a database in files that hold none yet, and converts its failure to SQLite's error.
fn made<D: Disk + Drop>(
    alloc: Global,
    files: Files<D>,
    seed: u64,
) -> Result<Files<D>, (Error, Leftover<D>)>
    requires log { IsTrue (D.Disk.is_usable files.log) }
    requires db { IsTrue (D.Disk.is_usable files.db) }
    ensures laid_out { IfOk result (IsLaidOut D.Disk files) }
    ensures unmade { IfErr result (λ e. IsLeftUnmade files e.0 e.1) }
{
    let before = files.tally();
    match lay_out(alloc, files, seed) {
        Ok(laid) => Ok(laid),
        Err((why, left)) => {
            let code = code_of(why, name_fault(before, left.tally()));
            Err((Error::SqliteFailure(code), Leftover::Files(left)))
        }
    }
}

impl<O: Observer> Run<'_, O> {
    /// Serves the volume machine over a database file and its WAL. Makes a database if the files hold none
    /// yet, opens the files, adopts their tables, serves calls, and closes the files.
    ///
    /// The run depends only on the State that the files have before it (`HasState`). The clause `serves` of
    /// `csi_server::serve` states which bytes are read and written, how the run ends and which calls it
    /// counts. After the run the files have the State after these calls. A first run starts from the first
    /// State, also if a stop interrupted the making of the database (`MayStart`). Files without tables get
    /// new tables and the first State, unless the options require existing tables. Reads are answered from a
    /// copy of the volumes in memory. If the options forbid a copy, or memory has no room for it, they are
    /// answered from the file.
    ///
    /// These promises hold while the disks return the bytes that were written to them (`AreClean`). Over any
    /// disk, one reply is written for each call that was read, in the order of the calls, until a write fails
    /// (`writes`). After `Ok` the store has refused no call.
    ///
    /// # Errors
    ///
    /// `NotOpened` means that the files were not opened, and `Refused` that their database was refused. No
    /// call was read and no reply written, and the next run starts from the State from which this run would
    /// have started. `Left` means that the store refused a call. `NotClosed` means that copying the WAL into
    /// the database file failed, or that the files cannot be used after an earlier fault. After `Left` or
    /// `NotClosed`, calls were served as after `Ok`. The files have the State after the calls, or the State
    /// that a refused call would have made.
    ///
    /// # Not promised
    ///
    /// The disk may return other bytes than were written. Memory may be refused, so a run need not return
    /// `Ok`; tests exclude a body that always returns `NotOpened`. A run may also leave out the copy of the
    /// volumes although memory has room for it.
    ///
    /// The contract does not cover a stop while this program repairs a file in which an earlier release was
    /// stopped. It also does not exclude that such a file is refused because of its WAL. Tests cover such a
    /// stop and the opening of such a file. If an opening fails while it reads the schema, the clauses speak
    /// of the trees that the store reads, and not of bytes.
    pub fn create_and_serve<D: Disk + Drop, R: Read, W: Write>(
        &self,
        files: Files<D>,
        opening: Options,
        reader: &mut R,
        writer: &mut W,
    ) -> Result<Closed<D>, RunFailure<D>>
        requires log { IsTrue (D.Disk.is_usable files.log) }
        requires db { IsTrue (D.Disk.is_usable files.db) }
        ensures served { IfOk result (λ r. Serves (volumes self.now.config.now)
            (start_model (image_of D.Disk files) r.report.is_new)
            (seen self.now.config.now (files_model D.Disk r.files r.report.refusals r.report.is_down))
            (R.remaining reader.old) (R.remaining reader.new) (W.contents writer.old)
            (W.contents writer.new) r.report.end) }
        ensures after { IfOk result (λ r. StartsThen self.now.config.now (image_of D.Disk files)
            (streams (R.remaining reader.old) (R.remaining reader.new)
            (W.contents writer.old) (W.contents writer.new)) r.report
            (AreClean D.Disk r.files.log r.files.db) (LeavesAfter D.Disk self.now.config.now r.files)) }
        ensures usable { IfOk result (λ r. IsTrue (D.Disk.is_usable r.files.log)
            × IsTrue (D.Disk.is_usable r.files.db)) }
        ensures alone { IfOk result (λ r. HasAlone D.Disk r.files) }
        ensures writes { AllServed D.Disk (λ report. Writes (R.remaining reader.old) (R.remaining reader.new)
            (W.contents writer.old) (W.contents writer.new) report.end) result }
        ensures none_refused { IfOk result (λ r. HasRefusedNone r.report) }
        ensures uncopied { AllServed D.Disk (λ report. IsTrue self.now.options.is_low_memory
            → report.is_copied ≡ false) result }
        ensures existing { IsAsked D.Disk self.now.options.is_existing result }
        ensures not_served { IfErr result (IsNotStarted D.Disk self.now.config.now files
            (streams (R.remaining reader.old) (R.remaining reader.new)
            (W.contents writer.old) (W.contents writer.new))) }
    {
        let seed = opening.seed;
        let laid = match made(self.alloc, files, seed) {
            Ok(laid) => laid,
            Err((error, left)) => return Err(RunFailure::NotOpened(error, left)),
        };
        match Connection::open_files(self.alloc, laid, opening) {
            Ok(conn) => self.adopt_and_serve(conn, seed, reader, writer),
            Err((error, left)) => Err(RunFailure::NotOpened(error, left)),
        }
    }
}

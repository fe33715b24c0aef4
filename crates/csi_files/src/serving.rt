//! Serves calls over an open database file and its WAL, and closes both.

ghost use Rattle.std.specs.Prelude.{◌≡◌, ◌↔◌, false, IfErr, IfOk, IsTrue};
ghost use Rattle.sqlite.specs.Files.{file_state};
ghost use Rattle.sqlite.specs.State.{HasCleanDisk};
ghost use Rattle.sqlite_wal.specs.Reads.{AreClean};
ghost use Rattle.sqlite_wal.specs.Recovery.{Image};
ghost use Rattle.csi_sql.specs.Tables.{no_schema};
ghost use Rattle.csi_server.specs.Serving.{Serves, Writes};
ghost use Rattle.csi_server.specs.Volumes.{seen, volumes};
ghost use Rattle.csi_files.specs.Files.{HasAlone, files_model, image_model};
ghost use Rattle.csi_files.specs.Leaving.{IsFinished, IsUnfinished};
ghost use Rattle.csi_files.specs.Starting.{EndsClean};
ghost use Rattle.csi_files.specs.Serving.{AllServed, HasRefusedNone, IsAsked, IsNotServed, LeavesAfter, Opens, ServesThen};
ghost use Rattle.csi_files.specs.Streams.{streams};

use crate::adopted::{adopt_tables, serve_adopted};
use crate::leaving::{close, close_or_leave, leave};
use crate::run::{Closed, Observer, Run, RunFailure, RunReport};
use csi_server::laws::{kept, pending};
use csi_tables::Tables;
use csi_tables::laws::one_state;
use sqlite::{Connection, FileStore};
use sqlite_disk::Disk;
use std::alloc::Global;
use std::io::{Read, Write};

// Closes the connection after calls. If the store refused some calls, the result is `Left`, even if the WAL
// was copied.
fn finish<D: Disk + Drop>(
    alloc: Global,
    report: RunReport,
    conn: Connection<FileStore<D>>,
    seed: u64,
) -> Result<Closed<D>, RunFailure<D>>
    ensures finished { IfOk result (IsFinished D.Disk report conn) }
    ensures none_refused { IfOk result (λ r. HasRefusedNone r.report) }
    ensures unfinished { IfErr result (IsUnfinished D.Disk report conn) }
{
    if report.is_down | (report.refusals > 0) {
        return Err(RunFailure::Left(report, close_or_leave(alloc, conn, seed)));
    }
    match close(alloc, conn, seed) {
        Ok(files) => Ok(Closed { report, files }),
        Err((error, files)) => Err(RunFailure::NotClosed(report, error, files)),
    }
}

impl<O: Observer> Run<'_, O> {
    /// Serves the volume machine over the database of two open files: adopts their tables, serves calls, and
    /// closes the files.
    ///
    /// A database without tables gets new tables, unless the options require existing tables. Reads are
    /// answered from a copy of the volumes in memory. If the options forbid a copy, or memory has no room for
    /// it, they are answered from the file. A change is committed to the file before its call is answered.
    ///
    /// The contract holds for any bytes that the files had when they were opened (`Opens`). `seed` is the
    /// seed of the random salts in the next header of the WAL.
    ///
    /// # Errors
    ///
    /// - `Refused`: the database is refused. No call was read.
    /// - `Left`: the store refused a call.
    /// - `NotClosed`: after the calls, copying the WAL into the database file failed, or the files cannot be
    ///   used after an earlier fault.
    pub fn adopt_and_serve<D: Disk + Drop, R: Read, W: Write>(
        &self,
        conn: Connection<FileStore<D>>,
        seed: u64,
        reader: &mut R,
        writer: &mut W,
    ) -> Result<Closed<D>, RunFailure<D>>
        requires { conn.in_transaction ≡ false }
        ensures served { IfOk result (λ r. (was : Image) → Opens D.Disk was conn
            → Serves (volumes self.now.config.now) (image_model was r.report.is_new)
            (seen self.now.config.now (files_model D.Disk r.files r.report.refusals r.report.is_down))
            (R.remaining reader.old) (R.remaining reader.new) (W.contents writer.old)
            (W.contents writer.new) r.report.end) }
        ensures usable { IfOk result (λ r. IsTrue (D.Disk.is_usable r.files.log)
            × IsTrue (D.Disk.is_usable r.files.db)) }
        ensures alone { IfOk result (λ r. HasAlone D.Disk r.files) }
        ensures writes { AllServed D.Disk (λ report. Writes (R.remaining reader.old) (R.remaining reader.new)
            (W.contents writer.old) (W.contents writer.new) report.end) result }
        ensures none_refused { IfOk result (λ r. HasRefusedNone r.report) }
        ensures uncopied { AllServed D.Disk (λ report. IsTrue self.now.options.is_low_memory
            → report.is_copied ≡ false) result }
        ensures existing { IsAsked D.Disk self.now.options.is_existing result }
        ensures blank { AllServed D.Disk (λ report. IsTrue report.is_new ↔ (conn.schema ≡ no_schema))
            result }
        ensures after { IfOk result (λ r. (was : Image) → Opens D.Disk was conn
            → ServesThen self.now.config.now was
            (streams (R.remaining reader.old) (R.remaining reader.new)
            (W.contents writer.old) (W.contents writer.new)) r.report
            (AreClean D.Disk r.files.log r.files.db) (LeavesAfter D.Disk self.now.config.now r.files)) }
        ensures clean { IfOk result (λ r. AreClean D.Disk r.files.log r.files.db
            → HasCleanDisk (file_state conn)) }
        ensures not_served_clean { IfErr result (λ e. EndsClean e → HasCleanDisk (file_state conn)) }
        ensures not_served { IfErr result (λ e. (was : Image) → Opens D.Disk was conn
            → IsNotServed D.Disk self.now.config.now was
            (streams (R.remaining reader.old) (R.remaining reader.new)
            (W.contents writer.old) (W.contents writer.new)) (λ _ _. ⊥) e) }
    {
        one_state();
        kept(self.config);
        pending::<Tables<FileStore<D>>>(self.config);
        let (tables, is_new) = match adopt_tables(self, conn) {
            Ok(adopted) => adopted,
            Err((refusal, conn)) => return Err(RunFailure::Refused(refusal, leave(conn))),
        };
        match serve_adopted(self, tables, is_new, reader, writer) {
            Ok((report, conn)) => finish(self.alloc, report, conn, seed),
            Err((refusal, conn)) => Err(RunFailure::Refused(refusal, leave(conn))),
        }
    }
}

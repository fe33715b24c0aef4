//! Serves calls over the tables on a connection.

ghost use Rattle.std.specs.Prelude.{◌≡◌, ◌≤◌, ◌↔◌, false, IfErr, IfOk, IsTrue, OnErr};
ghost use Rattle.csi_sql.specs.Tables.{no_schema};
ghost use Rattle.csi_tables.specs.Keeping.{connection_of, is_down, refusals};
ghost use Rattle.csi_adoption.specs.Adopting.{IsAdopted};
ghost use Rattle.csi_files.specs.Adopted.{IsCopied, IsRefusedBack, IsSourceOf, IsUncopied, IsUnserved, ServesTables};
ghost use Rattle.csi_files.specs.Streams.{streams};

use crate::reserve::{Reserved, room};
use crate::run::{Observer, Refusal, Run, RunReport};
use csi_adoption::{AdoptError, adopt_and_count, is_blank};
use csi_keeper::{Keeper, StoreFault};
use csi_memory::MemKeeper;
use csi_server::serve;
use csi_tables::Tables;
use csi_through::{KeeperChanges, NotCopied, Through};
use sqlite::{Alter, Connection};
use std::io::{Read, Write};

/// Adopts the tables on a connection: checks them and makes a keeper over them. Returns the keeper, and true
/// if the tables are new. A database without tables gets new tables, unless the options require existing
/// tables.
///
/// # Errors
///
/// Returns the reason why the database is refused, and the connection to the database.
pub(crate) fn adopt_tables<S: Alter + Drop, O: Observer>(
    run: &Run<'_, O>,
    conn: Connection<S>,
) -> Result<(Tables<S>, bool), (Refusal, Connection<S>)>
    requires { conn.in_transaction ≡ false }
    ensures adopted { IfOk result (λ r. IsAdopted S.Store run.now.config.now conn r.0) }
    ensures new { IfOk result (λ r. IsTrue r.1 ↔ (conn.schema ≡ no_schema)) }
    ensures existing { IfOk result (λ r. IsTrue run.now.options.is_existing → r.1 ≡ false) }
    ensures unserved { IfErr result (λ e. IsUnserved S.Store run.now.config.now conn
        run.now.options.is_existing e.0 e.1) }
{
    let is_new = is_blank(conn.schema());
    if is_new & run.options.is_existing {
        return Err((Refusal::Blank, conn));
    }
    match adopt_and_count(run.alloc, conn, run.config) {
        Ok((tables, content)) => {
            if is_new {
                run.observer.made();
            }
            run.observer.adopted(&content);
            Ok((tables, is_new))
        }
        Err(AdoptError { fault, conn }) => Err((Refusal::NotAdopted(fault), conn)),
    }
}

// A copy in memory of the volumes in the tables. A change is made in the tables first, then in the copy.
type Copied<'a, S, O> = Through<MemKeeper, KeeperChanges<Reserved<'a, S, O>>>;

// The source of the answers to calls: the copy in memory, or the file.
#[derive(Drop)]
enum Source<'a, S: Alter, O> {
    Copy(Copied<'a, S, O>),
    File(Reserved<'a, S, O>),
}

// Copies the volumes in the tables into memory. While the copy is made, 4 MiB of memory are held back for
// calls. If they are refused, fails with `NoMemory`.
fn copy_tables<'a, S: Alter + Drop, O: Observer>(
    run: &Run<'a, O>,
    tables: Tables<S>,
) -> Result<Copied<'a, S, O>, NotCopied<Tables<S>>>
    requires up { is_down S.Store tables ≡ false }
    ensures opens { IfOk result (IsCopied S.Store tables) }
    ensures uncopied { IfErr result (λ e. IsUncopied S.Store tables e.keeper e.fault) }
{
    let Ok(room) = room(run.alloc) else {
        return Err(NotCopied {
            fault: StoreFault::NoMemory,
            keeper: tables,
        });
    };
    let reserved = Reserved::for_copy(run.alloc, tables, run.options.reserve, run.observer);
    let copied = Through::over(run.alloc, reserved);
    drop(room);
    match copied {
        Ok(through) => Ok(through),
        Err(NotCopied { fault, keeper }) => Err(NotCopied {
            fault,
            keeper: keeper.into_tables(),
        }),
    }
}

// Returns the source of answers. It is a copy in memory if the options allow a copy and memory has room for
// it, otherwise the file. Fails if the database refuses a read for the copy.
fn source_of<'a, S: Alter + Drop, O: Observer>(
    run: &Run<'a, O>,
    tables: Tables<S>,
) -> Result<Source<'a, S, O>, (Refusal, Connection<S>)>
    requires fresh { (refusals S.Store tables ≡ 0) × (is_down S.Store tables ≡ false) }
    ensures source { IfOk result (IsSourceOf S.Store tables run.now.options.is_low_memory) }
    ensures refused { IfErr result (λ e. IsRefusedBack S.Store tables e.0 e.1) }
{
    let reserve = run.options.reserve;
    if run.options.is_low_memory {
        return Ok(Source::File(Reserved::new(run.alloc, tables, reserve, run.observer)));
    }
    let NotCopied { fault, keeper } = match copy_tables(run, tables) {
        Ok(through) => return Ok(Source::Copy(through)),
        Err(error) => error,
    };
    match fault {
        StoreFault::NoMemory => {
            run.observer.uncopied();
            Ok(Source::File(Reserved::new(run.alloc, keeper, reserve, run.observer)))
        }
        StoreFault::Refused | StoreFault::Down => {
            Err((Refusal::NotCopied(fault), give_back(run, keeper)))
        }
    }
}

// Returns the connection of tables, and reports to the observer the cause of the first call that the database
// refused.
fn give_back<S: Alter, O: Observer>(run: &Run<'_, O>, tables: Tables<S>) -> Connection<S>
    ensures { result ≡ connection_of S.Store tables }
{
    if let Some(cause) = tables.cause() {
        run.observer.refused(&cause);
    }
    tables.into_connection()
}

/// Serves calls over adopted tables, and returns the report of the run and the connection. `is_new` is copied
/// into the report.
///
/// # Errors
///
/// If the database refuses a read while the volumes are copied into memory. No call was read, and the error
/// contains the connection.
pub(crate) fn serve_adopted<S: Alter + Drop, O: Observer, R: Read, W: Write>(
    run: &Run<'_, O>,
    tables: Tables<S>,
    is_new: bool,
    reader: &mut R,
    writer: &mut W,
) -> Result<(RunReport, Connection<S>), (Refusal, Connection<S>)>
    requires fresh { (refusals S.Store tables ≡ 0) × (is_down S.Store tables ≡ false) }
    ensures served { IfOk result (λ r. ServesTables S.Store tables run.now.config.now r.1 r.0
        (streams (R.remaining reader.old) (R.remaining reader.new)
        (W.contents writer.old) (W.contents writer.new))) }
    ensures uncopied { IfOk result (λ r. IsTrue run.now.options.is_low_memory → r.0.is_copied ≡ false) }
    ensures new { IfOk result (λ r. r.0.is_new ≡ is_new) }
    ensures refused { IfErr result (λ e. IsRefusedBack S.Store tables e.0 e.1) }
    ensures unread { OnErr result (reader.new ≡ reader.old) }
    ensures unwritten { OnErr result (writer.new ≡ writer.old) }
{
    match source_of(run, tables) {
        Ok(Source::Copy(mut through)) => {
            let end = serve(run.alloc, run.config, &mut through, reader, writer);
            let report = RunReport {
                end,
                refusals: through.refusals(),
                is_down: through.is_down(),
                is_copied: true,
                is_new,
            };
            let reserved = through.into_change_store().into_keeper();
            Ok((report, give_back(run, reserved.into_tables())))
        }
        Ok(Source::File(mut reserved)) => {
            let end = serve(run.alloc, run.config, &mut reserved, reader, writer);
            let report = RunReport {
                end,
                refusals: reserved.refusals(),
                is_down: reserved.is_down(),
                is_copied: false,
                is_new,
            };
            Ok((report, give_back(run, reserved.into_tables())))
        }
        Err(refused) => Err(refused),
    }
}

//! Checks the tables on a connection, and makes a keeper over them.

ghost use Rattle.std.specs.Prelude.{◌≡◌, ◌≢◌, ◌↔◌, false, true, Some, IfErr, IfOk, IsTrue, OnErr, OnOk};
ghost use Rattle.sqlite.specs.Held.{state};
ghost use Rattle.sqlite.specs.State.{HasCleanDisk, KeepsCommit, Survives};
ghost use Rattle.csi_sql.specs.Tables.{no_schema, schema as our_schema};
ghost use Rattle.csi_sql.specs.declared.formats.TheConstants.{FIRST_FORMAT};
ghost use Rattle.csi_sql.specs.Failing.{FailsOver};
ghost use Rattle.csi_sql.specs.Refusing.{RefusesFormat};
ghost use Rattle.csi_sql.specs.Effects.{Changes, Leaves, SetsFormat};
ghost use Rattle.csi_sql.specs.Transactions.{IsUndone};
ghost use Rattle.sqlite.specs.Tree.{Trees};
ghost use Rattle.sqlite_catalog.specs.Listing.{IsSound};
ghost use Rattle.csi_keeper.specs.Invariant.{IsInvariant};
ghost use Rattle.csi_keeper.specs.State.{State, first_state};
ghost use Rattle.csi_tables.specs.Holding.{IsEitherRows};
ghost use Rattle.csi_adoption.specs.Faults.{is_failure};
ghost use Rattle.csi_adoption.specs.Adopting.{FoundState, IsAdopted, IsFound, IsNotRefused, IsTaken, IsUnadopted, LeavesLatest};
ghost use Rattle.csi_adoption.specs.Failing.{JudgingFails, ScanFails, ReportsOpen, ReportsShut};
ghost use Rattle.csi_adoption.specs.Scanning.{Scans};
ghost use Rattle.csi_adoption.specs.declared.meta.Meta.{Meta as Row};
ghost use Rattle.csi_adoption.specs.Judging.{AreJudged, ArePassed, IsFaultOf, IsMetaFault, JudgesAfter, JudgesJoined, JudgesRows, JudgesSeen, SeesRow, TablesAreSeen};

use crate::attachment_faults::check_attachment;
use crate::attachment_laws::{attachments_found, attachments_pass, owners_pass, places_pass};
use crate::attachments::{see_apart, see_attachments, see_owners};
use crate::content::{Content, content_of};
use crate::fault::{AdoptFault, Foreign};
use crate::laws::{meta_pass, totals_found, volumes_found, volumes_pass};
use crate::meta::{Meta, judge_meta, see_meta};
use crate::seen::{AttachmentsSeen, VolumesSeen};
use crate::table_faults::{check_counts, check_tables};
use crate::volumes::{see_volumes, totals_of};
use csi_config::Config;
use csi_config::laws::{node_volumes_few, pool_bytes_whole};
use csi_constraints::AttachmentConstraint;
use csi_keeper::Totals;
use csi_keeper::laws::first;
use csi_sql::changes::set_format;
use csi_sql::{FIRST_FORMAT, IdleConnection, is_our_schema};
use csi_tables::laws::{latest, one_state};
use csi_tables::{MakeFault, Tables};
use sqlite::{Alter, Connection, Error};
use sqlite_schema::schema::Schema;
use std::alloc::Global;

/// The reason why tables were not adopted, and the connection to their database.
#[derive(Drop)]
pub struct AdoptError<S: Alter> {
    /// The first rule that the database breaks, or the failure of a read or a write, or the lack of memory.
    pub fault: AdoptFault,
    /// The connection to the database. No transaction is open on the connection.
    pub conn: Connection<S>,
}

/// Returns true if a database has no table, no index and no view.
pub fn is_blank(schema: &Schema) -> bool
    ensures { IsTrue result ↔ (schema.now ≡ no_schema) }
{
    schema.tables.is_empty() & schema.indexes.is_empty() & schema.views.is_empty()
}

/// The results of the scans over volumes and attachments.
#[derive(Drop)]
pub(crate) struct TablesSeen {
    pub(crate) volumes: VolumesSeen,
    pub(crate) attachments: AttachmentsSeen,
}

fn see_tables<S: Alter>(
    alloc: Global,
    conn: &mut IdleConnection<S>,
    config: &Config,
    meta: Meta,
) -> Result<TablesSeen, Error>
    requires has_schema { HasCleanDisk (state S.Store conn.old) → conn.old.schema ≡ our_schema }
    ensures scans { Scans S.Store conn.old conn.new result }
    ensures failed { ScanFails S.Store conn.old conn.new result }
    ensures seen { HasCleanDisk (state S.Store conn.new)
        → IfOk result (λ tables. TablesAreSeen config.now meta (state S.Store conn.old).now.trees tables) }
{
    let volumes = see_volumes(alloc, conn, config, meta)?;
    let attachments = see_attachments(alloc, conn, config)?;
    Ok(TablesSeen {
        volumes,
        attachments,
    })
}

// Checks the attachments together with their volumes and with one another. Each table was checked alone
// before, so each attachment is at a node of the configuration, and a volume has at most one attachment to
// each node.
fn judge_joined<S: Alter>(
    alloc: Global,
    conn: &mut IdleConnection<S>,
    config: &Config,
    tables: &TablesSeen,
) -> Result<(), AdoptFault>
    requires has_schema { HasCleanDisk (state S.Store conn.old) → conn.old.schema ≡ our_schema }
    ensures scans { Scans S.Store conn.old conn.new result }
    ensures failed { JudgingFails S.Store conn.old conn.new result }
    ensures open { ReportsOpen S.Store conn.new result }
    ensures judged { HasCleanDisk (state S.Store conn.new) → (row : Row)
        → JudgesJoined config.now (state S.Store conn.old).now.trees row tables.now result }
{
    check_attachment(
        alloc,
        &see_owners(alloc, conn)?,
        AttachmentConstraint::Owner,
    )?;
    check_counts(
        alloc,
        config,
        &see_apart(alloc, conn)?,
        &tables.attachments,
        &tables.volumes,
    )?;
    Ok(())
}

// Checks the results of the scans over each table, and then scans the joins of the two tables.
fn judge_seen<S: Alter>(
    alloc: Global,
    conn: &mut IdleConnection<S>,
    config: &Config,
    meta: Meta,
    tables: &TablesSeen,
) -> Result<(), AdoptFault>
    requires has_schema { HasCleanDisk (state S.Store conn.old) → conn.old.schema ≡ our_schema }
    ensures scans { Scans S.Store conn.old conn.new result }
    ensures failed { JudgingFails S.Store conn.old conn.new result }
    ensures open { IsTrue (state S.Store conn.old).is_open → ReportsOpen S.Store conn.new result }
    ensures judged { HasCleanDisk (state S.Store conn.new)
        → JudgesSeen config.now (state S.Store conn.old).now.trees meta tables.now result }
{
    check_tables(
        alloc,
        config,
        meta.next,
        &tables.volumes,
        &tables.attachments,
    )?;
    judge_joined(alloc, conn, config, tables)
}

// Checks the rows of volumes and attachments, constraint by constraint. If they pass, sets `content` to their
// counts and the next number, and returns the results of the scan over volumes. The results of the scans are
// large, so they are passed by reference to the functions that may fail.
fn judge_after<S: Alter>(
    alloc: Global,
    conn: &mut IdleConnection<S>,
    config: &Config,
    meta: Meta,
    content: &mut Content,
) -> Result<VolumesSeen, AdoptFault>
    requires has_schema { HasCleanDisk (state S.Store conn.old) → conn.old.schema ≡ our_schema }
    ensures scans { Scans S.Store conn.old conn.new result }
    ensures failed { JudgingFails S.Store conn.old conn.new result }
    ensures open { ReportsOpen S.Store conn.new result }
    ensures judged { HasCleanDisk (state S.Store conn.new)
        → JudgesAfter config.now (state S.Store conn.old).now.trees meta result }
{
    let tables = see_tables(alloc, conn, config, meta)?;
    judge_seen(alloc, conn, config, meta, &tables)?;
    *content = content_of(&tables, meta);
    let TablesSeen { volumes, .. } = tables;
    Ok(volumes)
}

#[tactic(auto, using(crate::proofs::FaultLemmas::error_fails))]
fn see_row<S: Alter>(conn: &mut IdleConnection<S>) -> Result<Meta, AdoptFault>
    requires has_schema { HasCleanDisk (state S.Store conn.old) → conn.old.schema ≡ our_schema }
    ensures scans { Scans S.Store conn.old conn.new result }
    ensures failed { JudgingFails S.Store conn.old conn.new result }
    ensures open { ReportsOpen S.Store conn.new result }
    ensures seen { HasCleanDisk (state S.Store conn.new) → SeesRow (state S.Store conn.old).now.trees result }
{
    let rows = see_meta(conn)?;
    judge_meta(rows)
}

// Checks all rows, beginning with the row of `meta`. If they pass, sets `content` to their counts and the
// next number, and returns the results of the scan over volumes.
fn judge_rows<S: Alter>(
    alloc: Global,
    conn: &mut IdleConnection<S>,
    config: &Config,
    content: &mut Content,
) -> Result<VolumesSeen, AdoptFault>
    requires has_schema { HasCleanDisk (state S.Store conn.old) → conn.old.schema ≡ our_schema }
    ensures scans { Scans S.Store conn.old conn.new result }
    ensures failed { JudgingFails S.Store conn.old conn.new result }
    ensures open { ReportsOpen S.Store conn.new result }
    ensures judged { HasCleanDisk (state S.Store conn.new)
        → JudgesRows config.now (state S.Store conn.old).now.trees result }
{
    let meta = see_row(conn)?;
    judge_after(alloc, conn, config, meta, content)
}

// Calls the laws about rows, so that its caller has their facts with one call. Rows that break no constraint
// are the rows of a State that meets every constraint. The rows of such a State break no constraint.
#[inline(always)]
fn rows_report(config: &Config)
    ensures found { (db : Trees) (seen : VolumesSeen) → IsSound our_schema db → ArePassed config.now db seen
        → FoundState config.now db seen }
    ensures no_meta_fault { (db : Trees) (s : State) → IsEitherRows s db → IsInvariant config.now s
        → (fault : AdoptFault) → IsMetaFault db fault → ⊥ }
    ensures no_fault { (db : Trees) (s : State) → IsEitherRows s db → IsInvariant config.now s
        → (fault : AdoptFault)
        → AreJudged config.now db (Some fault) → ⊥ }
    ensures new { IsInvariant config.now (first_state 1) }
{
    volumes_found();
    attachments_found();
    totals_found();
    volumes_pass();
    meta_pass();
    attachments_pass();
    owners_pass();
    places_pass();
    pool_bytes_whole(config);
    node_volumes_few(config);
    first(config);
}

/// The results of a successful check: the format of the tables, and the totals of the pools.
#[derive(Drop)]
struct Judged {
    format: u32,
    totals: Totals,
}

// Checks the schema and the rows. Returns the format of the tables and the totals of the pools.
fn judge<S: Alter>(
    alloc: Global,
    conn: &mut IdleConnection<S>,
    config: &Config,
    content: &mut Content,
) -> Result<Judged, AdoptFault>
    ensures scans { Scans S.Store conn.old conn.new result }
    ensures failed { JudgingFails S.Store conn.old conn.new result }
    ensures shut { ReportsShut S.Store conn.new result }
    ensures found { HasCleanDisk (state S.Store conn.new) → IfOk result
        (λ judged. IsFound config.now (state S.Store conn.old).now judged.format judged.totals) }
    ensures first { HasCleanDisk (state S.Store conn.new) → IfErr result
        (λ fault. is_failure fault ≡ false → IsFaultOf config.now (state S.Store conn.old).now fault) }
    ensures other { HasCleanDisk (state S.Store conn.new) → (state S.Store conn.old).now.schema ≢ our_schema
        → IfErr result
        (λ fault. fault ≡ AdoptFault.Foreign Foreign.Schema) }
    ensures sound { HasCleanDisk (state S.Store conn.new)
        → IfErr result (IsNotRefused config.now (state S.Store conn.old).now) }
{
    rows_report(config);
    if !is_our_schema(conn.schema()) {
        return Err(AdoptFault::Foreign(Foreign::Schema));
    }
    let volumes = judge_rows(alloc, conn, config, content)?;
    let totals = totals_of(
        alloc,
        config.pools(),
        volumes.pool_volumes.as_slice(),
        volumes.pool_bytes.as_slice(),
    )?;
    Ok(Judged {
        format: volumes.format,
        totals,
    })
}

// Upgrades tables of the first format to the latest format, in one statement. Does nothing for other formats.
fn upgrade<S: Alter>(conn: &mut IdleConnection<S>, format: u32) -> Result<(), Error>
    ensures stays { format ≢ FIRST_FORMAT → conn.new ≡ conn.old }
    ensures error_only_if { format ≢ FIRST_FORMAT → OnErr result ⊥ }
    ensures ok { HasCleanDisk (state S.Store conn.new)
        → OnOk result (format ≡ FIRST_FORMAT
        → Changes SetsFormat (state S.Store conn.old) (state S.Store conn.new)) }
    ensures err { HasCleanDisk (state S.Store conn.new)
        → OnErr result (IsUndone (state S.Store conn.old) (state S.Store conn.new)) }
    ensures failed { HasCleanDisk (state S.Store conn.new)
        → FailsOver our_schema RefusesFormat (state S.Store conn.old) (state S.Store conn.new) result }
    ensures survives { Survives (state S.Store conn.old) (state S.Store conn.new)
        (λ db. (format ≡ FIRST_FORMAT) × Leaves SetsFormat (state S.Store conn.old) db) }
{
    if format != FIRST_FORMAT {
        return Ok(());
    }
    set_format(conn)
}

// Checks tables and upgrades them to the latest format. The upgrade is the last step that can fail.
fn judge_and_upgrade<S: Alter>(
    alloc: Global,
    conn: &mut IdleConnection<S>,
    config: &Config,
    content: &mut Content,
) -> Result<Totals, AdoptFault>
    ensures taken { HasCleanDisk (state S.Store conn.new)
        → IfOk result (IsTaken config.now (state S.Store conn.old) (state S.Store conn.new)) }
    ensures failed { JudgingFails S.Store conn.old conn.new result }
    ensures shut { ReportsShut S.Store conn.new result }
    ensures kept { HasCleanDisk (state S.Store conn.new)
        → OnErr result (KeepsCommit (state S.Store conn.old) (state S.Store conn.new)) }
    ensures first { HasCleanDisk (state S.Store conn.new) → IfErr result
        (λ fault. is_failure fault ≡ false → IsFaultOf config.now (state S.Store conn.old).now fault) }
    ensures other { HasCleanDisk (state S.Store conn.new) → (state S.Store conn.old).now.schema ≢ our_schema
        → IfErr result
        (λ fault. fault ≡ AdoptFault.Foreign Foreign.Schema) }
    ensures sound { HasCleanDisk (state S.Store conn.new)
        → IfErr result (IsNotRefused config.now (state S.Store conn.old).now) }
    ensures survives { Survives (state S.Store conn.old) (state S.Store conn.new)
        (λ db. LeavesLatest config.now (state S.Store conn.old) db
        × IfErr result (λ fault. is_failure fault ≡ true)) }
{
    latest();
    let judged = judge(alloc, conn, config, content)?;
    upgrade(conn, judged.format)?;
    Ok(judged.totals)
}

// Begins a transaction and rolls it back, so that reads see the last commit. No transaction may be open
// before the call, so no change is lost.
fn roll_back<S: Alter>(conn: &mut Connection<S>)
    requires { conn.old.in_transaction ≡ false }
    ensures idle { conn.new.in_transaction ≡ false }
    ensures undone { HasCleanDisk (state S.Store conn.new)
        → IsUndone (state S.Store conn.old) (state S.Store conn.new) }
    ensures survives { Survives (state S.Store conn.old) (state S.Store conn.new) (λ _. ⊥) }
{
    conn.transaction().rollback();
}

// Checks the tables of a database, makes a keeper over them, and sets `content` to the counts of their rows
// and the next number. A database without tables gets new tables, and `content` is unchanged.
fn adopt_into<S: Alter>(
    alloc: Global,
    mut conn: Connection<S>,
    config: &Config,
    content: &mut Content,
) -> Result<Tables<S>, AdoptError<S>>
    requires idle { conn.in_transaction ≡ false }
    ensures adopted { IfOk result (λ tables. IsAdopted S.Store config.now conn tables) }
    ensures unadopted { IfErr result (λ error. IsUnadopted S.Store config.now conn error.fault error.conn) }
{
    rows_report(config);
    one_state();
    conn.set_step_limit(None);
    roll_back(&mut conn);
    if is_blank(conn.schema()) {
        return match Tables::make(alloc, conn) {
            Ok(tables) => Ok(tables),
            Err(MakeFault { error, conn }) => Err(AdoptError {
                fault: AdoptFault::from(error),
                conn,
            }),
        };
    }
    let mut conn = IdleConnection::new(conn);
    match judge_and_upgrade(alloc, &mut conn, config, content) {
        Ok(totals) => Ok(Tables::over(conn, totals)),
        Err(fault) => {
            let conn = conn.into_connection();
            Err(AdoptError { fault, conn })
        }
    }
}

/// Checks the tables of a database, and makes a keeper over them. A database without tables gets new tables,
/// with no volume and 1 as the next number.
///
/// The tables of the last commit are checked. They must be exactly the tables that this program makes. Each
/// value must have the type of its column, and the rows must meet every constraint of the configuration
/// (docs/TABLES.md, "What is judged when a file is opened"). After `Ok` there is one State whose rows were
/// committed. This State meets the constraints, the keeper has it, and a stop leaves only this State. Rows
/// are read one by one and not kept, so the memory does not grow with their number. The call removes a limit
/// on the connection's steps.
///
/// # Errors
///
/// The error contains the connection and one of these faults. The last commit is unchanged. But if making or
/// upgrading the tables failed, a stop may leave the new or upgraded tables.
///
/// - The first rule that the tables break, with the row that a scan finds first. This fault is not possible
///   if the connection is open and the rows are the rows of a State that meets every constraint. If a fault
///   has shut the connection, no row is checked, and the fault may be
///   [`Foreign::Schema`](crate::Foreign::Schema).
/// - A failure of the database: the disk failed, a fault shut the connection, or the database refused a
///   statement. This fault says nothing about the rows.
/// - A lack of memory, which says nothing about the rows either.
///
/// # Not promised
///
/// The contract does not say when the database or memory fails, and does not fix the displayed texts. Cases
/// of `test_tables` show the faults and their texts. If the rowids of a file do not rise, the fault is that
/// the database failed. `sqlite` opens no file with such rowids.
pub fn adopt<S: Alter>(
    alloc: Global,
    conn: Connection<S>,
    config: &Config,
) -> Result<Tables<S>, AdoptError<S>>
    requires idle { conn.in_transaction ≡ false }
    ensures adopted { IfOk result (λ tables. IsAdopted S.Store config.now conn tables) }
    ensures unadopted { IfErr result (λ error. IsUnadopted S.Store config.now conn error.fault error.conn) }
{
    let mut content = Content::NEW;
    adopt_into(alloc, conn, config, &mut content)
}

/// Checks the tables of a database, and makes a keeper over them, like [`adopt`]. Also returns the next
/// number and the counts of volumes and attachments, which the checks find without a further read. A database
/// without tables gets new tables.
///
/// # Errors
///
/// The first rule that the tables break, with the row that a scan finds first, or a failure of the database
/// or of memory. The last commit is unchanged, and the error contains the connection. [`adopt`] says what a
/// stop may leave.
///
/// # Not promised
///
/// The contract does not say that the counts are right. Tests of the line that `csid` prints at its start
/// show that they are.
pub fn adopt_and_count<S: Alter>(
    alloc: Global,
    conn: Connection<S>,
    config: &Config,
) -> Result<(Tables<S>, Content), AdoptError<S>>
    requires idle { conn.in_transaction ≡ false }
    ensures adopted { IfOk result (λ r. IsAdopted S.Store config.now conn r.0) }
    ensures unadopted { IfErr result (λ error. IsUnadopted S.Store config.now conn error.fault error.conn) }
{
    let mut content = Content::NEW;
    match adopt_into(alloc, conn, config, &mut content) {
        Ok(tables) => Ok((tables, content)),
        Err(error) => Err(error),
    }
}

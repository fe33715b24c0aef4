//! Serves calls over the volumes of a change store. A change store is another program, which listens at a
//! socket.

ghost use Rattle.std.specs.Prelude.{◌≡◌, false, IfErr, IfOk, IsTrue, OnOk};
ghost use Rattle.csi_change_store.specs.Items.{seen_notes};
ghost use Rattle.csid.specs.Leading.{IsUsable, Leads};
ghost use Rattle.csid.specs.Reading.{AreTaken, IsAgreed, IsCopied, IsReadFrom, MakesMeta, ChecksMeta};
ghost use Rattle.csid_settings.specs.Statuses.{IsOrNoMemory};

use crate::timed::{Deadline, TimedStream};
use csi_adoption::{AdoptFault, Foreign};
use csi_change_store::laws::gives_rows;
use csi_change_store::{
    Channel, PagesRead, Peer, ReadFault, RemoteChangeStore, RowsFault, lead_frame, make_frame,
    read_rows,
};
use csi_client::{Received, ReceivedReply};
use csi_config::Config;
use csi_memory::MemKeeper;
use csi_tables::Tables;
use csi_tables::laws::one_state;
use csi_through::Through;
use csid_connections::Leadership;
use csid_console::Console;
use csid_listings::{
    adoption_failure, files_of, is_no_memory, keeper_over, memory_failure, open, read_content,
    report_content, store_failure,
};
use csid_settings::Failure;
use sqlite::{Alter, Connection};
use std::alloc::Global;
use std::cell::Cell;
use std::rc::Rc;
use std::{io, str};

/// Wraps a [`Peer`], the program at the other end of a connection. Gives each exchange of a frame and its
/// reply a deadline, and records that an exchange was made. Frames and replies pass through unchanged.
pub(crate) struct TrackedPeer<P> {
    peer: P,
    deadline: Rc<Deadline>,
    // True if a frame was sent to the change store since the last reply to a client.
    is_asked: Rc<Cell<bool>>,
}

impl<P: Drop> Drop for TrackedPeer<P> {
    fn drop(self) {
        let TrackedPeer {
            peer: _peer,
            deadline: _deadline,
            is_asked: _is_asked,
        } = self;
    }
}

impl<P: Peer> Peer for TrackedPeer<P> {
    ghost model = { λ noted. P.model noted.peer };

    ghost exchanged = { λ old new. P.exchanged old.peer new.peer };

    fn exchange(&mut self, alloc: Global, frame: &[u8]) -> Received {
        self.is_asked.set(true);
        self.deadline.begin_exchange();
        self.peer.exchange(alloc, frame)
    }
}

/// The connection to a change store: its socket, with a deadline for each exchange.
pub(crate) type ChangeStorePeer = TrackedPeer<Channel<TimedStream, TimedStream>>;

/// A keeper over a change store. It has a copy of the store's volumes in memory. The change store makes each
/// change before the copy gets it.
pub(crate) type Remote = Through<MemKeeper, RemoteChangeStore<ChangeStorePeer>>;

/// An open change store, whose volumes were read into memory.
pub(crate) struct OpenChangeStore {
    /// The keeper over which calls are answered.
    pub(crate) keeper: Remote,
    /// A handle of the connection to the change store. It serves to ask the change store if it leads.
    /// `keeper` has other handles of the same connection.
    pub(crate) stream: TimedStream,
    /// True if a frame was sent to the change store since the last reply to a client.
    pub(crate) is_asked: Rc<Cell<bool>>,
    /// True if a reply to a client was held back because the change store did not answer that it leads. The
    /// volumes are then read again for the next client.
    pub(crate) is_cut: bool,
}

impl Drop for OpenChangeStore {
    fn drop(self) {
        let OpenChangeStore {
            keeper: _keeper,
            stream: _stream,
            is_asked: _is_asked,
            is_cut: _,
        } = self;
    }
}

impl OpenChangeStore {
    /// Returns true if calls may be answered from the copy in memory. These conditions must hold, and the
    /// change store is asked only if the first three do:
    ///
    /// - the copy has each change
    /// - no change failed
    /// - no reply was held back
    /// - the change store answers that it leads
    pub(crate) fn is_usable(&self, alloc: Global) -> bool
        ensures { IsTrue result → IsUsable self.now }
    {
        let has_all = self.keeper.is_current() && !self.keeper.is_down();
        has_all && !self.is_cut && leads(alloc, &self.stream)
    }
}

// Returns true if a change store replied with the status OK, and false for any other reply or without a
// reply.
fn is_agreed(received: Received) -> bool
    ensures { IsTrue result → IsAgreed received }
{
    matches!(received, Received::Reply(reply) if reply.status == 0)
}

// Returns true if a change store answers that it leads, and false if it does not or memory for the request is
// refused.
fn is_leading<P: Peer>(alloc: Global, change_store: &mut P) -> bool
    ensures { IsTrue result → Leads P.exchanged change_store.old change_store.new }
{
    let Ok(frame) = lead_frame(alloc) else {
        return false;
    };
    is_agreed(change_store.exchange(alloc, frame.as_slice()))
}

/// Asks the change store at the other end of a connection if it leads, and returns true if it answers yes.
/// Returns false if it answers no, if no reply comes within 30 seconds, or if memory is refused.
///
/// After the answer yes, no other change store has made a change since the rows were read over this
/// connection, since a change store that stops leading closes its connections. A copy that has each change of
/// this program is then current.
pub(crate) fn leads(alloc: Global, stream: &TimedStream) -> bool {
    stream.deadline().begin_exchange();
    is_leading(alloc, &mut Channel::new(stream, stream))
}

/// Confirms before each reply to a client that the change store leads. Asks the change store only if no frame
/// was sent to it since the last reply.
#[derive(Clone, Copy, Drop)]
pub(crate) struct ChangeStoreLeadership<'a> {
    pub(crate) stream: &'a TimedStream,
    /// True if a frame was sent to the change store since the last reply to a client.
    pub(crate) is_asked: &'a Rc<Cell<bool>>,
    pub(crate) alloc: Global,
}

impl Leadership for ChangeStoreLeadership<'_> {
    // A change store makes a change only while it leads, so the change store is not asked again after the
    // frame of a change: if it did not make the change, the reply is a refusal. If no frame was sent since
    // the last reply, the change store is asked: another change store may have led since, and made changes
    // that the copy lacks.
    fn holds(&mut self) -> bool {
        self.is_asked.replace(false) || leads(self.alloc, self.stream)
    }
}

// Returns the program's failure for an error of the connection to a change store.
fn change_store_failure(alloc: Global, path: &str, error: &io::Error) -> Failure
    ensures { IsOrNoMemory 4 result }
{
    match error.kind() {
        io::ErrorKind::OutOfMemory => Failure::NoMemory,
        _ => Failure::of_tables(alloc, path, error),
    }
}

// Returns the program's failure for rows of a change store that the database in memory refuses.
fn rows_failure(alloc: Global, path: &str, fault: &RowsFault) -> Failure
    ensures { IsOrNoMemory 4 result }
{
    match fault {
        RowsFault::NoMemory => Failure::NoMemory,
        RowsFault::Refused(error) | RowsFault::Row(_, error) if is_no_memory(error) => {
            Failure::NoMemory
        }
        _ => Failure::of_tables(alloc, path, fault),
    }
}

// Returns the program's failure for a reply that refuses a request. The line has the text of the reply, or a
// fixed text if the text of the reply is not UTF-8.
fn refusal_failure(alloc: Global, path: &str, reply: &ReceivedReply) -> Failure
    ensures { IsOrNoMemory 4 result }
{
    match str::from_utf8(reply.text.as_slice()) {
        Ok(text) => Failure::of_tables(alloc, path, &text),
        Err(_) => Failure::of_tables(alloc, path, &"the change store refused to tell its rows"),
    }
}

// Returns the program's failure if no reply with status OK was received.
fn received_failure(alloc: Global, path: &str, received: &Received) -> Failure
    ensures { IsOrNoMemory 4 result }
{
    match received {
        Received::Reply(reply) => refusal_failure(alloc, path, reply),
        Received::NoMemory => Failure::NoMemory,
        Received::Nothing => Failure::of_tables(alloc, path, &"closed without a reply"),
        Received::Malformed(fault) => Failure::of_tables(alloc, path, fault),
        Received::Failed => Failure::of_tables(alloc, path, &"no reply came"),
    }
}

// Returns the program's failure for rows that could not be read.
fn pages_failure(alloc: Global, path: &str, fault: &ReadFault) -> Failure
    ensures { IsOrNoMemory 4 result }
{
    match fault {
        ReadFault::Unasked(fault) => store_failure(alloc, path, *fault),
        ReadFault::Unanswered(received) => received_failure(alloc, path, received),
        ReadFault::Rows(fault) => rows_failure(alloc, path, fault),
        ReadFault::Endless => Failure::of_tables(alloc, path, &"its pages never end"),
        ReadFault::Database(error) => memory_failure(alloc, path, error),
    }
}

// Fails unless a change store replied OK.
fn agreed(alloc: Global, path: &str, received: Received) -> Result<(), Failure>
    ensures agreed { OnOk result (IsAgreed received) }
    ensures failure { IfErr result (λ failure. IsOrNoMemory 4 failure) }
{
    match received {
        Received::Reply(reply) if reply.status == 0 => Ok(()),
        received => Err(received_failure(alloc, path, &received)),
    }
}

// Asks a change store without rows to add the row of the table `meta` that new tables have.
fn make_meta<P: Peer>(alloc: Global, path: &str, change_store: &mut P) -> Result<(), Failure>
    ensures made { OnOk result (MakesMeta P.exchanged change_store.old change_store.new) }
    ensures failure { IfErr result (λ failure. IsOrNoMemory 4 failure) }
{
    match make_frame(alloc) {
        Ok(frame) => agreed(alloc, path, change_store.exchange(alloc, frame.as_slice())),
        Err(fault) => Err(store_failure(alloc, path, fault)),
    }
}

// Fails unless the row of the table `meta` has format 2, the format of change stores. A change store without
// any row gets a row of `meta`. Rows without a row of `meta` are refused.
fn check_or_make_meta<P: Peer>(
    alloc: Global,
    path: &str,
    change_store: &mut P,
    notes: &PagesRead,
) -> Result<(), Failure>
    ensures settled { OnOk result (ChecksMeta P.exchanged change_store.old change_store.new
        (seen_notes notes.now)) }
    ensures failure { IfErr result (λ failure. IsOrNoMemory 4 failure) }
{
    match notes.format {
        Some(1) => Err(Failure::of_tables(
            alloc,
            path,
            &"its rows have format 1, and a change store has those of format 2",
        )),
        Some(2) => Ok(()),
        None if !notes.has_rows => make_meta(alloc, path, change_store),
        format => Err(adoption_failure(alloc, path, &format_fault(format))),
    }
}

// Returns the fault for rows whose format is neither 1 nor 2. `None` means that there is no row of `meta`.
fn format_fault(format: Option<u64>) -> AdoptFault {
    match format {
        Some(format) if format != 0 => AdoptFault::Newer {
            format: i64::try_from(format).unwrap_or(i64::MAX),
        },
        _ => AdoptFault::Foreign(Foreign::Meta),
    }
}

// Makes tables on a connection to a new database, fills them with the rows of a change store, and checks them
// like tables in a file.
fn read_tables<P: Peer, S: Alter + Drop>(
    rt: &HostRuntime,
    config: &Config,
    path: &str,
    change_store: &mut P,
    mut conn: Connection<S>,
) -> Result<Tables<S>, Failure>
    requires { conn.in_transaction ≡ false }
    ensures taken { IfOk result (AreTaken S.Store config.now conn P.exchanged change_store.old
        change_store.new) }
    ensures failure { IfErr result (λ failure. IsOrNoMemory 4 failure) }
{
    gives_rows();
    one_state();
    let notes = match read_rows(rt.alloc(), change_store, &mut conn) {
        Ok(notes) => notes,
        Err(fault) => return Err(pages_failure(rt.alloc(), path, &fault)),
    };
    check_or_make_meta(rt.alloc(), path, change_store, &notes)?;
    keeper_over(rt, path, conn, config)
}

// Reads all rows of a change store into a new database, checks them, copies the volumes into memory, and
// reports the numbers of volumes and attachments. The database is dropped afterwards.
fn read_change_store<P: Peer + Drop, S: Alter + Drop>(
    console: &Console<'_>,
    config: &Config,
    path: &str,
    mut change_store: P,
    conn: Connection<S>,
) -> Result<Through<MemKeeper, RemoteChangeStore<P>>, Failure>
    requires { conn.in_transaction ≡ false }
    ensures copied { IfOk result (IsCopied S.Store config.now conn P.exchanged change_store) }
    ensures failure { IfErr result (λ failure. IsOrNoMemory 4 failure) }
{
    let rt = console.rt;
    let mut tables = read_tables(rt, config, path, &mut change_store, conn)?;
    match Through::copied(
        rt.alloc(),
        &mut tables,
        RemoteChangeStore::new(change_store),
    ) {
        Ok(keeper) => {
            report_content(console, path, read_content(&mut tables.into_connection()));
            Ok(keeper)
        }
        Err(fault) => Err(store_failure(rt.alloc(), path, fault)),
    }
}

// Reads and checks all rows of a change store, and copies the volumes into memory. The new database is in
// files in memory, since adding a row to such files takes O(log n) steps. In the store of rows of the
// `sqlite` crate, adding a row takes O(n) steps.
fn read_over_memory<P: Peer + Drop>(
    console: &Console<'_>,
    config: &Config,
    path: &str,
    change_store: P,
) -> Result<Through<MemKeeper, RemoteChangeStore<P>>, Failure>
    ensures read { IfOk result (IsReadFrom config.now P.exchanged change_store) }
    ensures failure { IfErr result (λ failure. IsOrNoMemory 4 failure) }
{
    let alloc = console.rt.alloc();
    let conn = open(alloc, path, files_of(alloc, &[], &[])?)?;
    read_change_store(console, config, path, change_store, conn)
}

// Connects to a change store, and begins the time of the opening. Returns the connection, and a peer over the
// connection that records its exchanges.
fn reach(
    rt: &HostRuntime,
    path: &str,
    is_asked: &Rc<Cell<bool>>,
) -> io::Result<(TimedStream, ChangeStorePeer)> {
    let deadline = Rc::new(rt.alloc(), Deadline::new(rt)?)?;
    let stream = TimedStream::connect(rt, path, deadline.clone()?)?;
    let peer = TrackedPeer {
        peer: Channel::new(stream.try_clone()?, stream.try_clone()?),
        deadline,
        is_asked: is_asked.clone()?,
    };
    Ok((stream, peer))
}

/// Connects to a change store, reads and checks its rows, and reports the numbers of its volumes and
/// attachments.
///
/// # Errors
///
/// If the change store cannot be reached, does not reply in time or refuses a request, its rows are refused,
/// the clock cannot be read, or memory is refused.
pub(crate) fn open_change_store(
    console: &Console<'_>,
    config: &Config,
    path: &str,
) -> Result<OpenChangeStore, Failure>
    ensures usable { IfOk result IsUsable }
    ensures failure { IfErr result (λ failure. IsOrNoMemory 4 failure) }
{
    let rt = console.rt;
    let Ok(is_asked) = Rc::new(rt.alloc(), Cell::new(false)) else {
        return Err(Failure::NoMemory);
    };
    let (stream, peer) = match reach(rt, path, &is_asked) {
        Ok(reached) => reached,
        Err(error) => return Err(change_store_failure(rt.alloc(), path, &error)),
    };
    let keeper = read_over_memory(console, config, path, peer)?;
    stream.deadline().end_rows();
    Ok(OpenChangeStore {
        keeper,
        stream,
        is_asked,
        is_cut: false,
    })
}

//! Runs `csid serve`, which answers the calls of connections to a Unix socket.

ghost use Rattle.std.specs.Prelude.{IfErr, IfOk};
ghost use Rattle.csid.specs.Leading.{IsUsable};
ghost use Rattle.csid_settings.specs.Statuses.{IsOrNoMemory};

use crate::change_store::{ChangeStoreLeadership, OpenChangeStore, open_change_store};
use crate::first::serve_first;
use crate::room::MemoryGauge;
use crate::run::FIRST_NUMBER;
use crate::serving::{TablesFailure, TablesRun};
use crate::tables::{NEW_TABLES, check_file};
use csi_adoption::Content;
use csi_config::Config;
use csi_files::{Observer, RunReport};
use csi_keeper::Keeper;
use csi_memory::MemKeeper;
use csi_server::{RunEnd, serve};
use csid_connections::{
    Always, GuardedWriter, Leadership, Pending, Start, Turn, Waiting, has_gone, report_ending,
};
use csid_console::{Console, Ending};
use csid_settings::{Endpoint, Failure, Serving, TablesFile, Volumes, group_number, outcome};
use sqlite::{Error, Unknown};
use std::alloc::Global;
use std::cell::Cell;
use std::fs::{self, Permissions};
use std::io::{self, ErrorKind, Read, Write};
use std::os::unix::fs::{PermissionsExt, chown};
use std::os::unix::net::UnixListener;
use std::time::Instant;

// The mode of the socket's file if only the owner may connect, and the mode if a group may connect too.
const OWNER: u32 = 0o600;

const OWNER_AND_GROUP: u32 = 0o660;

// Returns the program's failure for an error of the socket at this path.
fn of_socket(alloc: Global, path: &str, error: &io::Error) -> Failure
    ensures { IsOrNoMemory 7 result }
{
    match error.kind() {
        ErrorKind::OutOfMemory => Failure::NoMemory,
        ErrorKind::AddrInUse => Failure::of_socket(alloc, path, &"a file exists there already"),
        _ => Failure::of_socket(alloc, path, error),
    }
}

// Sets the mode and the group of the socket's file, under any umask. The group gets its rights last.
fn restrict(rt: &HostRuntime, path: &str, group: Option<u32>) -> io::Result<()> {
    fs::set_permissions(rt, path, Permissions::from_mode(OWNER))?;
    if group.is_none() {
        return Ok(());
    }
    chown(rt, path, None, group)?;
    fs::set_permissions(rt, path, Permissions::from_mode(OWNER_AND_GROUP))
}

// Binds a socket for its owner and a group. If the mode or the group cannot be set, removes the socket's file
// again.
fn bind(rt: &HostRuntime, path: &str, group: Option<u32>) -> io::Result<UnixListener> {
    let listener = UnixListener::bind(rt, path)?;
    match restrict(rt, path, group) {
        Ok(()) => Ok(listener),
        Err(error) => {
            let _ = fs::remove_file(rt, path);
            Err(error)
        }
    }
}

// Binds a socket at the path, to which the owner and this group may connect. If `group` is `None`, only the
// owner may connect.
fn listen(rt: &HostRuntime, path: &str, group: Option<&str>) -> Result<UnixListener, Failure>
    ensures { IfErr result (λ failure. IsOrNoMemory 7 failure) }
{
    if path.is_empty() {
        // For an empty path, the system would choose an address.
        return Err(Failure::NoSocketPath);
    }
    let group = match group {
        Some(name) => Some(group_number(rt, name)?),
        None => None,
    };
    match bind(rt, path, group) {
        Ok(listener) => Ok(listener),
        Err(error) => Err(of_socket(rt.alloc(), path, &error)),
    }
}

// Reports the failure with which the calls of a connection ended, if there is one.
fn report_outcome(console: &Console<'_>, ending: Ending, now: Instant, end: RunEnd) {
    if let Err(failure) = outcome(Endpoint::Connection, end) {
        console.report_end(ending, now, &failure);
    }
}

// Reports how a connection ended. `ending` is the reason if the server ended the turn of the connection. The
// reason is reported if the turn ended in a read. It is also reported if the turn ended in a write because
// another connection was waiting. `is_cut` is true if a reply was held back. Nothing is reported if the calls
// ended without a fault, or if the clock cannot be read.
fn report_end(console: &Console<'_>, ending: Option<Ending>, is_cut: bool, end: RunEnd) {
    let Ok(now) = Instant::now(console.rt) else {
        return;
    };
    match (end, ending) {
        (RunEnd::ReadFailed, Some(ending)) => report_ending(console, ending, now),
        (RunEnd::WriteFailed, _) if is_cut => console.say(
            &"the change store does not lead any more",
        ),
        (RunEnd::WriteFailed, Some(Ending::Preempted)) => {
            report_ending(console, Ending::Preempted, now)
        }
        (RunEnd::Malformed(_), _) => report_outcome(console, Ending::Malformed, now, end),
        _ => report_outcome(console, Ending::Failed, now, end),
    }
}

/// The parts of a server that all its connections share.
#[derive(Clone, Copy)]
pub(crate) struct Service<'a> {
    /// The console, to which errors are reported that no reply shows.
    pub(crate) console: &'a Console<'a>,
    /// The configuration under which calls are answered.
    pub(crate) config: &'a Config,
    serving: &'a Serving<'a>,
    gauge: &'a MemoryGauge,
}

/// Begins the turn of a connection, in which its calls are answered. After an error, reports the error and
/// returns `None`.
pub(crate) fn turn_of<'a>(
    console: &'a Console<'a>,
    waiting: &'a mut Waiting,
    peer: Pending,
) -> Option<Turn<'a>> {
    match Turn::new(console, peer, waiting) {
        Ok(turn) => Some(turn),
        Err(error) => {
            console.say_of("a connection's time cannot be limited", &error);
            None
        }
    }
}

// Answers the calls of one connection over a keeper. Returns true if a reply was held back because the change
// store did not answer that it leads.
fn serve_one<K: Keeper, L: Leadership + Drop>(
    service: &Service<'_>,
    waiting: &mut Waiting,
    keeper: &mut K,
    peer: Pending,
    lead: L,
) -> bool {
    let Some(turn) = turn_of(service.console, waiting, peer) else {
        return false;
    };
    let mut reader = turn.peer.first.sent.as_slice().chain(turn.reader());
    let mut writer = GuardedWriter::new(lead, turn.writer());
    let end = serve(
        service.console.rt.alloc(),
        service.config,
        keeper,
        &mut reader,
        &mut writer,
    );
    report_end(service.console, turn.ending.get(), writer.is_cut(), end);
    writer.is_cut()
}

// Answers a connection that has sent no call: its first frame is malformed, or its stream has ended before a
// complete frame. The tables are not opened.
fn refuse_peer(service: &Service<'_>, waiting: &mut Waiting, peer: Pending) {
    match MemKeeper::new(service.console.rt.alloc(), FIRST_NUMBER) {
        Ok(mut keeper) => {
            serve_one(service, waiting, &mut keeper, peer, Always);
        }
        Err(_) => service.console.say(&Failure::NoMemory),
    }
}

// Reported if the keeper of a connection went down.
const IS_DOWN: &str =
    "a change was refused, by the database or for memory; from then on the connection was answered that the store is down";

// Reported if the copy in memory lacks a change that the file or the change store has.
const IS_BEHIND: &str =
    "there was no memory for a change that was made; from then on the connection was answered that the store refused its calls";

// Reported if reads of a connection were refused.
const NO_READ: &str = "the database refused a read";

// Reported if there is no memory for a copy of the volumes.
const NO_COPY: &str =
    "there was no memory for a copy of the volumes: each read of the connection goes to the file";

/// Reports how the calls of a connection are served over a file.
#[derive(Clone, Copy)]
pub(crate) struct Announcer<'a> {
    console: &'a Console<'a>,
    path: &'a str,
    gauge: &'a MemoryGauge,
}

impl<'a> Announcer<'a> {
    /// Makes the announcer of a server for the file at this path.
    pub(crate) fn new(service: &Service<'a>, path: &'a str) -> Announcer<'a> {
        Announcer {
            console: service.console,
            path,
            gauge: service.gauge,
        }
    }
}

impl Observer for Announcer<'_> {
    fn made(&self) {
        self.console.say_of(self.path, &NEW_TABLES);
    }

    fn adopted(&self, _content: &Content) {}

    fn uncopied(&self) {
        self.console.say_of(self.path, &NO_COPY);
    }

    fn refused(&self, cause: &Error) {
        match format!(in self.console.rt.alloc(); "the database refused a call: {cause}") {
            Ok(line) => self.console.say_of(self.path, &line),
            Err(_) => self.console.say(&Failure::NoMemory),
        }
    }

    fn has_room(&self, opening: usize) -> bool {
        self.gauge.has_room(opening)
    }
}

// Reports that the store refused calls, if it refused any. The replies to the calls do not say the cause.
fn report_calls(console: &Console<'_>, path: &str, report: &RunReport) {
    if report.is_down {
        console.say_of(path, &IS_DOWN);
    } else if report.refusals > 0 {
        let what = if report.is_copied { IS_BEHIND } else { NO_READ };
        console.say_of(path, &what);
    }
}

/// Reports how the calls of a connection over tables ended, and the failure of the tables if there is one.
pub(crate) fn report_run(
    console: &Console<'_>,
    path: &str,
    ending: Option<Ending>,
    ended: Result<RunReport, TablesFailure>,
) {
    let (report, cause) = match ended {
        Ok(report) => (Some(report), None),
        Err(TablesFailure { cause, report }) => (report, Some(cause)),
    };
    if let Some(report) = report {
        report_end(console, ending, false, report.end);
        report_calls(console, path, &report);
    }
    if let Some(cause) = cause {
        console.say(&cause);
    }
}

/// The change store of a server: the open connection to it, and the last error that was reported.
struct KnownChangeStore {
    /// The open change store, or `None` if it could not be opened.
    open: Option<OpenChangeStore>,
    /// The last error that was reported for the change store. It is empty after the change store was opened.
    reported: String,
}

impl Drop for KnownChangeStore {
    fn drop(self) {
        let KnownChangeStore {
            open: _open,
            reported: _reported,
        } = self;
    }
}

// Reports why the change store cannot be opened, unless the last report says the same. While another program
// leads, each connection fails in the same way.
fn report_unavailable(console: &Console<'_>, reported: &mut String, failure: &Failure) {
    let Ok(text) = format!(in console.rt.alloc(); "{failure}") else {
        console.say(failure);
        return;
    };
    if text.as_str() != reported.as_str() {
        console.say(failure);
        *reported = text;
    }
}

// Returns the open change store if calls may be answered over it. Otherwise connects to the change store and
// reads its rows.
fn existing_change_store(
    console: &Console<'_>,
    config: &Config,
    path: &str,
    change_store: Option<OpenChangeStore>,
) -> Result<OpenChangeStore, Failure>
    ensures { IfOk result IsUsable }
{
    if let Some(open) = change_store {
        if open.is_usable(console.rt.alloc()) {
            return Ok(open);
        }
    }
    open_change_store(console, config, path)
}

// Answers the calls of a connection over an open change store, and returns the change store. Reports if a
// change was refused, or if the copy in memory lacks a change.
fn serve_open(
    service: &Service<'_>,
    waiting: &mut Waiting,
    path: &str,
    mut store: OpenChangeStore,
    peer: Pending,
) -> OpenChangeStore
    requires { IsUsable store }
{
    // Frames that were sent for earlier clients do not count: before the first reply to this client, a frame
    // must be sent to the change store.
    store.is_asked.set(false);
    let leading = ChangeStoreLeadership {
        stream: &store.stream,
        is_asked: &store.is_asked,
        alloc: service.console.rt.alloc(),
    };
    store.is_cut = serve_one(service, waiting, &mut store.keeper, peer, leading);
    if store.keeper.is_down() {
        service.console.say_of(
            path,
            &"a change was refused by the change store, or nobody knows of it, or there was no memory; from then on the connection was answered that the store is down",
        );
    } else if !store.keeper.is_current() {
        service.console.say_of(path, &IS_BEHIND);
    }
    store
}

// Answers the calls of one connection over the change store. If the change store cannot be opened, closes the
// connection without a reply; the next connection tries again.
fn serve_over_change_store(
    service: &Service<'_>,
    waiting: &mut Waiting,
    path: &str,
    change_store: &mut KnownChangeStore,
    peer: Pending,
) {
    let console = service.console;
    match existing_change_store(console, service.config, path, change_store.open.take()) {
        Ok(open) => {
            change_store.reported.clear();
            change_store.open = Some(serve_open(service, waiting, path, open, peer));
        }
        Err(failure) => report_unavailable(console, &mut change_store.reported, &failure),
    }
}

// Reports that a peer had closed its connection before its turn, if it had sent any bytes.
fn report_gone(console: &Console<'_>, peer: &Pending) {
    if peer.first.sent.is_empty() {
        return;
    }
    if let Ok(now) = Instant::now(console.rt) {
        report_ending(console, Ending::Gone, now);
    }
}

// Opens the tables in a file and serves the calls of a connection: first the calls in `sent`, then the calls
// from the reader. Reports errors that no reply shows.
fn serve_tables<'a, R: Read, W: Write>(
    service: &Service<'a>,
    file: TablesFile<'a>,
    sent: &[u8],
    ending: &Cell<Option<Ending>>,
    reader: &mut R,
    writer: &mut W,
) {
    let announcer = Announcer::new(service, file.path);
    let run = TablesRun {
        rt: *service.console.rt,
        config: service.config,
        file,
        observer: &announcer,
    };
    let ended = run.serve_file(Unknown, sent, reader, writer);
    report_run(service.console, file.path, ending.get(), ended);
}

/// Returns the connection if the volumes are needed to serve it. If the peer has closed the connection, it is
/// only reported: the peer may have given up its call while another connection was served. If the connection
/// has sent no call, it is answered here.
pub(crate) fn with_call(
    service: &Service<'_>,
    waiting: &mut Waiting,
    peer: Pending,
) -> Option<Pending> {
    if has_gone(&peer.stream) {
        report_gone(service.console, &peer);
        return None;
    }
    if matches!(peer.first.start, Some(Start::NoCall)) {
        refuse_peer(service, waiting, peer);
        return None;
    }
    Some(peer)
}

// Answers the calls of one connection. If the peer is gone or has sent no call, the volumes are not opened.
fn serve_peer(
    service: &Service<'_>,
    waiting: &mut Waiting,
    change_store: &mut KnownChangeStore,
    peer: Pending,
) {
    let Some(peer) = with_call(service, waiting, peer) else {
        return;
    };
    let file = match service.serving.volumes {
        Volumes::ChangeStore(path) => {
            return serve_over_change_store(service, waiting, path, change_store, peer);
        }
        Volumes::Tables(file) => file,
    };
    let Some(turn) = turn_of(service.console, waiting, peer) else {
        return;
    };
    let sent = turn.peer.first.sent.as_slice();
    serve_tables(
        service,
        file,
        sent,
        &turn.ending,
        &mut turn.reader(),
        &mut turn.writer(),
    );
}

// Opens the change store at the start of the server, if the volumes are in a change store. If the opening
// fails, reports the error, and the first connection tries again.
fn first_change_store(service: &Service<'_>) -> KnownChangeStore {
    let console = service.console;
    let mut change_store = KnownChangeStore {
        open: None,
        reported: String::new(console.rt.alloc()),
    };
    if let Volumes::ChangeStore(path) = service.serving.volumes {
        match open_change_store(console, service.config, path) {
            Ok(open) => change_store.open = Some(open),
            Err(failure) => report_unavailable(console, &mut change_store.reported, &failure),
        }
    }
    change_store
}

// Binds the socket of a server, and makes the queue of the connections to it. Fails if the socket cannot be
// bound, the system refuses to poll the socket, or memory is refused.
fn waiting_at(rt: &HostRuntime, serving: &Serving<'_>) -> Result<Waiting, Failure>
    ensures { IfErr result (λ failure. IsOrNoMemory 7 failure) }
{
    let listener = listen(rt, serving.socket, serving.group)?;
    match Waiting::new(rt, listener, serving.connections, serving.idle) {
        Ok(waiting) => Ok(waiting),
        Err(error) => Err(of_socket(rt.alloc(), serving.socket, &error)),
    }
}

// Returns the next connection to serve, or `None` after the last connection.
fn next_peer(service: &Service<'_>, waiting: &mut Waiting) -> Result<Option<Pending>, Failure>
    ensures { IfErr result (λ failure. IsOrNoMemory 7 failure) }
{
    match waiting.next(service.console) {
        Ok(next) => Ok(next),
        Err(error) => Err(of_socket(service.console.rt.alloc(), service.serving.socket, &error)),
    }
}

/// Answers the calls of connections to a socket, one connection after the other. Returns after it has
/// accepted `serving.connections` connections, and has served or closed each of them.
///
/// # Errors
///
/// If the file of tables or the group is refused, the socket cannot be bound or accepts no connection, the
/// system refuses to wait for connections, the clock cannot be read, or memory is refused. A failure of one
/// connection is only reported, and so is a failure to open the tables or the change store.
pub(crate) fn serve_socket<'a>(
    console: &'a Console<'a>,
    config: &'a Config,
    gauge: &'a MemoryGauge,
    serving: &'a Serving<'a>,
) -> Result<(), Failure> {
    if let Volumes::Tables(file) = &serving.volumes {
        check_file(console.rt, file)?;
    }
    // The socket is bound before the tables are opened, so that a second server at the same socket does not
    // open the file of the first.
    let mut waiting = waiting_at(console.rt, serving)?;
    let service = Service {
        console,
        config,
        serving,
        gauge,
    };
    let mut change_store = first_change_store(&service);
    if let Volumes::Tables(file) = serving.volumes {
        serve_first(&service, &mut waiting, file);
    }
    let mut failed = None;
    for _ in 0..serving.connections {
        match next_peer(&service, &mut waiting) {
            Ok(Some(peer)) => serve_peer(&service, &mut waiting, &mut change_store, peer),
            Ok(None) => break,
            Err(failure) => {
                failed = Some(failure);
                break;
            }
        }
    }
    console.finish();
    match failed {
        None => Ok(()),
        Some(failure) => Err(failure),
    }
}

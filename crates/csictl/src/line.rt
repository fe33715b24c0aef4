//! Sends calls to the server of a socket, over a new connection for each try or over one connection for
//! several calls.

ghost use Rattle.std.specs.Prelude.{◌≡◌, ⊤};

use crate::connection::Connection;
use crate::failure::Failure;
use crate::patience::Patience;
use command_line::say;
use csi_client::{Exchanges, Line, Received, ReceivedReply, call_again, pause_millis, receive};
use envelope::ReplyFault;
use frames_core::send;
use std::io::{self, ErrorKind};
use std::thread;
use std::time::{Clock, Duration};
use thiserror::Error;

/// The reason why a try was not answered.
#[derive(Debug, Drop, Error)]
pub(crate) enum Unanswered {
    #[error("closed without a reply")]
    Closed,
    #[error("{0}")]
    CutShort(ReplyFault),
    #[error("a read failed")]
    ReadFailed,
    #[error("no reply within the time of --timeout")]
    TimedOut,
    #[error("{0}")]
    Failed(io::Error),
}

/// The socket of a server, and the connection to it that is kept from call to call.
#[derive(Drop)]
struct Wire<'a> {
    rt: &'a HostRuntime,
    path: &'a str,
    // The time limit of one try, or `None` for no limit.
    timeout: Option<Duration>,
    // True if a connection is kept for the next call after the server has answered on it.
    is_kept: bool,
    kept: Option<Connection<'a>>,
    // True if the last connection was to an HTTP/2 server.
    is_http2: bool,
}

impl<'a> Wire<'a> {
    // Begins the time of a try. Returns the connection that was kept, or makes a new one.
    fn connection(&mut self) -> io::Result<Connection<'a>> {
        match self.kept.take() {
            Some(mut connection) => {
                connection.begin(self.timeout)?;
                Ok(connection)
            }
            None => Connection::new(self.rt, self.path, self.timeout),
        }
    }

    // Sends a call on a connection and receives its reply. If the connection is not kept, ends its sending
    // side after the call.
    fn ask(&self, connection: &mut Connection<'_>, frame: &[u8]) -> io::Result<Received> {
        send(connection, frame)?;
        if !self.is_kept {
            connection.end_writing()?;
        }
        match receive(self.rt.alloc(), connection) {
            Received::Failed if connection.is_late => Err(io::Error::from(ErrorKind::TimedOut)),
            received => Ok(received),
        }
    }

    // Sends a call on the kept connection or a new one, and receives its reply. Keeps the connection if
    // `is_kept` is true and a reply came.
    fn converse_once(&mut self, frame: &[u8]) -> io::Result<Received> {
        let mut connection = self.connection()?;
        let received = self.ask(&mut connection, frame)?;
        self.is_http2 = connection.is_http2;
        if self.is_kept && matches!(received, Received::Reply(_)) {
            self.kept = Some(connection);
        } else {
            drop(connection);
        }
        Ok(received)
    }

    // Sends a call on the kept connection or a new one, and receives its reply. If the write or the read
    // fails on the kept connection, sends the call on a new connection: the server closed the kept one before
    // it read the call, as `csid` does for another connection.
    fn converse(&mut self, frame: &[u8]) -> io::Result<Received> {
        let was_kept = self.kept.is_some();
        match self.converse_once(frame) {
            Ok(Received::Failed) if was_kept => self.converse_once(frame),
            Err(error) if was_kept && error.kind() == ErrorKind::BrokenPipe => {
                self.converse_once(frame)
            }
            exchanged => exchanged,
        }
    }
}

/// A client of the server at a Unix socket. It sends a call again until it has a reply or no tries are left.
#[derive(Drop)]
pub(crate) struct SocketLine<'a> {
    wire: Wire<'a>,
    patience: Patience,
    exchanges: Exchanges,
    // The reason why the last try was not answered.
    unanswered: Option<Unanswered>,
}

impl<'a> SocketLine<'a> {
    /// Makes a client of the server at the socket with this path. If `is_kept` is true, calls share one
    /// connection, until a try has no reply. Otherwise each try has its own connection.
    pub(crate) fn new(
        rt: &'a HostRuntime,
        path: &'a str,
        patience: Patience,
        is_kept: bool,
    ) -> SocketLine<'a> {
        let wire = Wire {
            rt,
            path,
            timeout: patience.timeout,
            is_kept,
            kept: None,
            is_http2: false,
        };
        SocketLine {
            wire,
            patience,
            exchanges: Exchanges::none(),
            unanswered: None,
        }
    }

    // Returns the failure for the last try, which was not answered.
    fn failure(&self) -> Failure {
        let alloc = self.wire.rt.alloc();
        match &self.unanswered {
            Some(why) => Failure::named(alloc, self.wire.path, why),
            None => Failure::named(alloc, self.wire.path, &Unanswered::Closed),
        }
    }

    // Returns the failure for a malformed reply, or [`Failure::OtherSocket`] if the server speaks HTTP/2.
    fn malformed(&self, fault: ReplyFault) -> Failure {
        if !self.wire.is_http2 {
            return Failure::Malformed(fault);
        }
        match String::from_str(self.wire.rt.alloc(), self.wire.path) {
            Ok(path) => Failure::OtherSocket(path),
            Err(_) => Failure::NoMemory,
        }
    }

    // Forgets the tries of the last call, before a new call begins.
    fn begin(&mut self)
        ensures { self.new.exchanges.made ≡ 0 }
    {
        self.exchanges = Exchanges::none();
        self.unanswered = None;
    }

    /// Sends a call and returns its reply. Sends it again while it has no complete reply and tries are left.
    /// Before each further try, reports why the last try was not answered, and waits 50 ms to 2 s.
    ///
    /// # Errors
    ///
    /// If no try has a complete reply, the reply is malformed, the server speaks HTTP/2, or memory is
    /// refused.
    pub(crate) fn call(&mut self, frame: &[u8]) -> Result<ReceivedReply, Failure> {
        let tries = self.patience.tries;
        self.begin();
        match call_again(self, frame, tries) {
            Received::Reply(reply) => Ok(reply),
            Received::Malformed(fault) => Err(self.malformed(fault)),
            Received::NoMemory => Err(Failure::NoMemory),
            Received::Nothing | Received::Failed => Err(self.failure()),
        }
    }

    // Reports why the last try was not answered, and waits before the next try, for 50 ms to 2 s
    // ([`pause_millis`]).
    fn report_and_wait(&self, why: &Unanswered) {
        let rt = self.wire.rt;
        let tried = u32::try_from(self.exchanges.made).unwrap_or(u32::MAX);
        let turn = tried.saturating_add(1);
        match format!(in rt.alloc();
            "{}: {why}: try {turn} of {}",
            self.wire.path, self.patience.tries
        ) {
            Ok(text) => say(rt, "csictl", &text),
            Err(_) => say(rt, "csictl", &"out of memory"),
        }
        let chance = rt.monotonic().map_or(0, |time| time.subsec_nanos());
        thread::sleep(rt, Duration::from_millis(pause_millis(tried, chance)));
    }
}

// Returns the outcome of an exchange, and the reason if it was not answered.
fn outcome(exchanged: io::Result<Received>) -> (Received, Option<Unanswered>) {
    let error = match exchanged {
        Ok(Received::Nothing) => return (Received::Nothing, Some(Unanswered::Closed)),
        Ok(Received::Malformed(fault)) => {
            return (
                Received::Malformed(fault),
                Some(Unanswered::CutShort(fault)),
            );
        }
        Ok(Received::Failed) => return (Received::Failed, Some(Unanswered::ReadFailed)),
        Ok(received) => return (received, None),
        Err(error) => error,
    };
    match error.kind() {
        ErrorKind::OutOfMemory => (Received::NoMemory, None),
        ErrorKind::TimedOut => (Received::Failed, Some(Unanswered::TimedOut)),
        _ => (Received::Failed, Some(Unanswered::Failed(error))),
    }
}

impl Line for SocketLine<'_> {
    ghost exchanges = { λ line. line.exchanges.made };

    ghost unanswered = { λ line. line.exchanges.unanswered };

    // No contract says what a socket carries.
    ghost exchanged = { λ old new frame received. ⊤ };

    fn exchange(&mut self, frame: &[u8]) -> Received {
        if let Some(why) = &self.unanswered {
            self.report_and_wait(why);
        }
        let (received, why) = outcome(self.wire.converse(frame));
        self.unanswered = why;
        self.exchanges.count(&received);
        received
    }
}

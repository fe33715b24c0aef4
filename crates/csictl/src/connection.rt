//! A connection to a server. Its reads and writes fail when the time of a try is over. For each try that
//! waits longer than 3 seconds, it writes one line on standard error.

use crate::http2::begins_http2;
use command_line::say;
use mio::net::UnixStream;
use mio::{Events, Interest, Poll, Token};
use std::io::{self, ErrorKind, Read, Write};
use std::net::Shutdown;
use std::thread;
use std::time::{Duration, Instant};

// The greatest number of tries of one read or write, and the greatest number of tries to connect. It bounds
// the loops, and no try of a call reaches it.
const MAX_WAITS: u64 = 1 << 32;

// The number of milliseconds between two tries to connect, if the server has no room for another connection.
const ASK_AGAIN: u64 = 10;

// The number of seconds without a reply after which a line reports that the try waits.
const LONG_SECONDS: u64 = 3;

// The token of the connection, which is the only source of events.
const ONLY: Token = Token(0);

// Returns the time from now until a moment: zero if the moment has passed, and `None` if there is no moment.
fn until(moment: Option<Instant>, now: Instant) -> Option<Duration> {
    moment.map(|moment| moment.saturating_duration_since(now))
}

// Returns true if no time is left. `None` means a time without an end.
fn is_there(left: Option<Duration>) -> bool {
    match left {
        Some(left) => left.is_zero(),
        None => false,
    }
}

// Returns the shorter of two times. `None` means a time without an end.
fn sooner(first: Option<Duration>, second: Option<Duration>) -> Option<Duration> {
    match (first, second) {
        (Some(first), Some(second)) => Some(first.min(second)),
        (Some(first), None) => Some(first),
        (None, second) => second,
    }
}

/// The clock of a try. It knows when the try times out, and when to report that the try waits.
#[derive(Drop)]
struct Waiting<'a> {
    rt: &'a HostRuntime,
    // The time at which the try times out, or `None` if it has no time limit.
    end: Option<Instant>,
    // The time at which to report that the try waits, or `None` after the report.
    report: Option<Instant>,
    // The line that reports the wait.
    line: String,
}

impl<'a> Waiting<'a> {
    fn new(rt: &'a HostRuntime, path: &str, timeout: Option<Duration>) -> io::Result<Waiting<'a>> {
        let line = format!(in rt.alloc();
            "{path}: no reply for 3 s, still waiting: csid serves one connection at a time, and a front keeps it until it had no call for a second (use its control socket); --timeout bounds the wait"
        )?;
        let mut waiting = Waiting {
            rt,
            end: None,
            report: None,
            line,
        };
        waiting.begin(timeout)?;
        Ok(waiting)
    }

    // Starts the clock of a try, which times out after `timeout`.
    fn begin(&mut self, timeout: Option<Duration>) -> io::Result<()> {
        let now = Instant::now(self.rt)?;
        self.end = match timeout {
            Some(timeout) => now.checked_add(timeout),
            None => None,
        };
        self.report = now.checked_add(Duration::from_secs(LONG_SECONDS));
        Ok(())
    }

    // Returns how long the next wait may take: until the try times out or is to report that it waits, or
    // `None` if neither will happen. If the report is due, makes it first. Fails with `TimedOut` after the
    // try has timed out.
    fn left(&mut self) -> io::Result<Option<Duration>> {
        let now = Instant::now(self.rt)?;
        let end = until(self.end, now);
        if is_there(end) {
            return Err(io::Error::from(ErrorKind::TimedOut));
        }
        let report = until(self.report, now);
        if is_there(report) {
            say(self.rt, "csictl", &self.line);
            self.report = None;
            return Ok(end);
        }
        Ok(sooner(end, report))
    }
}

/// A connection to a server, for one call at a time.
#[derive(Drop)]
pub(crate) struct Connection<'a> {
    waiting: Waiting<'a>,
    stream: UnixStream,
    poll: Poll,
    events: Events,
    // True after the first read that did not fail.
    has_begun: bool,
    /// True if the first bytes that were read are the bytes of an HTTP/2 server.
    pub(crate) is_http2: bool,
    /// True if a read or a write of the last call timed out.
    pub(crate) is_late: bool,
}

// Connects to a server. While the server has no room for another connection, tries again every 10 ms until
// the try times out.
fn connect(waiting: &mut Waiting<'_>, path: &str) -> io::Result<UnixStream> {
    for turn in 0..MAX_WAITS {
        match UnixStream::connect(waiting.rt, path) {
            Err(error) if error.kind() == ErrorKind::WouldBlock => {
                let pause = Duration::from_millis(ASK_AGAIN);
                let left = waiting.left()?.unwrap_or(pause);
                thread::sleep(waiting.rt, left.min(pause));
            }
            result => return result,
        }
    }
    Err(io::Error::from(ErrorKind::TimedOut))
}

// Makes a poll, and registers a connection with it.
fn watch(rt: &HostRuntime, stream: &mut UnixStream) -> io::Result<Poll> {
    let poll = Poll::new(rt)?;
    let interests = Interest::READABLE | Interest::WRITABLE;
    poll.registry().register(stream, ONLY, interests)?;
    Ok(poll)
}

impl<'a> Connection<'a> {
    /// Connects to the server of the socket at `path`. Connecting and the first call fail with `TimedOut` if
    /// together they take longer than `timeout`. `None` means no limit.
    ///
    /// # Errors
    ///
    /// If no program listens at `path`, connecting takes longer than `timeout`, the system refuses the
    /// connection or to poll it, the clock cannot be read, or memory is refused.
    pub(crate) fn new(
        rt: &'a HostRuntime,
        path: &str,
        timeout: Option<Duration>,
    ) -> io::Result<Connection<'a>> {
        let mut waiting = Waiting::new(rt, path, timeout)?;
        let mut stream = connect(&mut waiting, path)?;
        let poll = watch(rt, &mut stream)?;
        Ok(Connection {
            waiting,
            stream,
            poll,
            events: Events::with_capacity(rt.alloc(), 1)?,
            has_begun: false,
            is_http2: false,
            is_late: false,
        })
    }

    /// Begins another call on the connection. The call fails with `TimedOut` after `timeout`. `None` means no
    /// limit.
    ///
    /// # Errors
    ///
    /// If the clock cannot be read.
    pub(crate) fn begin(&mut self, timeout: Option<Duration>) -> io::Result<()> {
        self.is_late = false;
        self.waiting.begin(timeout)
    }

    /// Ends the sending side of the connection, so that the server reads the end of the calls.
    pub(crate) fn end_writing(&self) -> io::Result<()> {
        self.stream.shutdown(Shutdown::Write)
    }

    // Waits until the connection can be read or written, the try times out, or it is time to report that the
    // try waits. Fails with `TimedOut` if the try had timed out before the wait.
    fn wait(&mut self) -> io::Result<()> {
        let left = match self.waiting.left() {
            Ok(left) => left,
            Err(error) => {
                self.is_late = error.kind() == ErrorKind::TimedOut;
                return Err(error);
            }
        };
        self.poll.poll(&mut self.events, left)
    }

    // After the first read of the connection, notes if its `count` bytes are the first bytes of an HTTP/2
    // server. After later reads, does nothing.
    fn look_at(&mut self, bytes: &[u8], count: usize) {
        if !self.has_begun {
            self.has_begun = true;
            self.is_http2 = begins_http2(bytes, count);
        }
    }
}

// Returns true if the read or write that failed with this error can be tried again after a wait.
fn is_to_wait(error: &io::Error) -> bool {
    matches!(error.kind(), ErrorKind::WouldBlock | ErrorKind::Interrupted)
}

impl Read for Connection<'_> {
    fn read(&mut self, buf: &mut [u8]) -> io::Result<usize> {
        for turn in 0..MAX_WAITS {
            match self.stream.read(buf) {
                Err(error) if is_to_wait(&error) => self.wait()?,
                Ok(count) => {
                    self.look_at(buf, count);
                    return Ok(count);
                }
                failed => return failed,
            }
        }
        Err(io::Error::from(ErrorKind::TimedOut))
    }
}

impl Write for Connection<'_> {
    fn write(&mut self, buf: &[u8]) -> io::Result<usize> {
        for turn in 0..MAX_WAITS {
            match self.stream.write(buf) {
                Err(error) if is_to_wait(&error) => self.wait()?,
                done => return done,
            }
        }
        Err(io::Error::from(ErrorKind::TimedOut))
    }

    fn flush(&mut self) -> io::Result<()> {
        Ok(())
    }
}

//! The turn of a connection: its calls are read and its replies written. While the connection blocks, the
//! queue is polled.
//!
//! If another connection is ready, the connection that is served is closed as soon as all calls that have
//! come from it are answered, or between two calls after 60 seconds of its turn. Until then, its peer may
//! delay a call or a reply only for a short time.

ghost use Rattle.std.specs.Prelude.{◌≡◌, Bool, true, false, Some, ⊤, OnOk};
ghost use Rattle.std.specs.Io.{ReadsAtMost, WritesAtMost};
ghost use Rattle.std.specs.Io.KnownBytes.{Keeps, ReadConsumes, WriteAppends};
ghost use Rattle.csid_console.specs.declared.ready.Way.{Way};
ghost use Rattle.csid_connections.specs.Calling.{GoesOnCall, IsBetweenCalls, is_never};
ghost use Rattle.csid_connections.specs.declared.clock.Since.{Since};

use crate::clock::CallClock;
use crate::limits::{TURN_SECONDS, WANTED_SECONDS, least};
use crate::pending::Pending;
use crate::waiting::Waiting;
use csid_console::{Console, Ending, Way, is_ready};
use std::cell::{Cell, RefCell};
use std::io::{self, ErrorKind, Read, Write};
use std::os::fd::AsRawFd;
use std::os::unix::net::UnixStream;
use std::time::{Duration, Instant};

/// A connection that is read and written without blocking for long.
trait Stream {
    // The effect of a call of `is_ready`, and its result.
    ghost found: { Self → Way → Bool → Type 0 } = { λ _ _ _. ⊤ };

    /// Returns true if a read or a write would end at once, even with an error.
    fn is_ready(&self, way: Way) -> bool
        ensures { found self.now way result };

    /// Makes each later read and write of the stream end at once.
    fn stop_blocking(&self) -> io::Result<()>;

    /// Registers the stream, so that a wait of the queue also ends when the stream can be written.
    fn watch_both(&self, waiting: &Waiting) -> io::Result<()>;
}

impl Stream for UnixStream {
    fn is_ready(&self, way: Way) -> bool {
        is_ready(self.as_raw_fd(), way)
    }

    fn stop_blocking(&self) -> io::Result<()> {
        self.set_nonblocking(true)
    }

    fn watch_both(&self, waiting: &Waiting) -> io::Result<()> {
        waiting.watch_both(self)
    }
}

// Returns true if the read or write moved no bytes and can be tried again.
fn may_wait(error: &io::Error) -> bool {
    matches!(error.kind(), ErrorKind::WouldBlock | ErrorKind::Interrupted)
}

// Returns the time this number of seconds after `now`, or `now` if the clock has no such time.
fn later(now: Instant, seconds: u64) -> Instant {
    now.checked_add(Duration::from_secs(seconds)).unwrap_or(now)
}

// The state of a turn: the queue, and the times that bound the current call and the turn.
#[derive(Drop)]
struct Steps<'a> {
    console: &'a Console<'a>,
    waiting: &'a mut Waiting,
    // The clock of the current call or reply.
    clock: CallClock,
    // The time after which the turn ends between two calls, if another connection is ready.
    until: Instant,
    // The time when the queue is polled again, even if no read blocks. Otherwise a peer that sends a byte
    // from time to time would keep the queue from being polled.
    poll_at: Instant,
    // True if a read or a write may block, for a second at most.
    is_blocking: bool,
    // The reason why the turn ended, or `None` while it goes on.
    ending: Option<Ending>,
}

impl Steps<'_> {
    // Polls the queue. As soon as another connection is ready, reads and writes no longer block. An error of
    // the socket is ignored here; it is reported between two connections.
    fn look<S: Stream>(&mut self, stream: &S, now: Instant) -> io::Result<()>
        ensures { self.new.clock ≡ self.old.clock }
    {
        let _ = self.waiting.look(self.console, now);
        if self.is_blocking && self.waiting.has_ready() {
            self.is_blocking = false;
            stream.stop_blocking()?;
        }
        Ok(())
    }

    // Ends the turn for this reason. Returns the error for the read or write in which the turn ends.
    fn end(&mut self, ending: Ending) -> io::Error
        ensures clock { self.new.clock ≡ self.old.clock }
        ensures ending { self.new.ending ≡ Some ending }
    {
        self.ending = Some(ending);
        io::Error::from(ErrorKind::TimedOut)
    }

    // Returns how long the peer may still delay a read or a write, where `None` means any time, or the reason
    // why the turn ends. If reads block, the peer has already been silent for a second in the read itself.
    fn patience(&mut self, now: Instant) -> Result<Option<Duration>, Ending>
        ensures { GoesOnCall self.old.clock self.new.clock }
    {
        let blocked = Duration::from_secs(if self.is_blocking { WANTED_SECONDS } else { 0 });
        let idle = self.clock.left_of_idle(self.waiting.idle(), blocked, now)?;
        let longest = least(idle, self.clock.left_of_call(now)?);
        match self.waiting.ready_since() {
            Some(since) => Ok(least(longest, Some(self.clock.left_for_others(since, now)?))),
            None => Ok(longest),
        }
    }

    // Polls the queue until the stream is ready, or fails if the time of the peer is over.
    fn wait<S: Stream>(&mut self, stream: &S, way: Way) -> io::Result<()>
        ensures ready { OnOk result (S.found stream.now way true) }
        ensures call { GoesOnCall self.old.clock self.new.clock }
    {
        for _ in 0..u64::MAX {
            let now = Instant::now(self.console.rt)?;
            self.look(stream, now)?;
            if stream.is_ready(way) {
                return Ok(());
            }
            match self.patience(now) {
                Ok(longest) => self.waiting.wait(self.console, now, longest)?,
                Err(ending) => return Err(self.end(ending)),
            }
        }
        Err(io::Error::from(ErrorKind::TimedOut))
    }

    // Waits until the stream can be written. The first wait begins the time of the reply.
    fn wait_to_write<S: Stream>(&mut self, stream: &S) -> io::Result<()>
        ensures ready { OnOk result (S.found stream.now Way.Write true) }
        ensures reply { OnOk result (self.new.clock.is_reply ≡ true) }
    {
        if self.clock.begin_reply() {
            stream.watch_both(self.waiting)?;
        }
        self.wait(stream, Way::Write)
    }

    // Ends the turn between two calls if its time is over and another connection is ready. If no other
    // connection is ready, the queue is polled again a second later.
    fn end_between_calls(&mut self, now: Instant) -> io::Result<()>
        ensures { self.new.clock ≡ self.old.clock }
    {
        if now < self.until {
            return Ok(());
        }
        let _ = self.waiting.look(self.console, now);
        if self.waiting.has_ready() {
            return Err(self.end(Ending::Preempted));
        }
        self.until = later(now, WANTED_SECONDS);
        Ok(())
    }

    // Ends the turn during a call if the time of the call is over. Otherwise polls the queue if reads may
    // block, at most once a second.
    fn go_on_in_call<S: Stream>(&mut self, stream: &S, now: Instant) -> io::Result<()>
        ensures { GoesOnCall self.old.clock self.new.clock }
    {
        if let Err(ending) = self.clock.left_of_call(now) {
            return Err(self.end(ending));
        }
        if !self.is_blocking || now < self.poll_at {
            return Ok(());
        }
        self.poll_at = later(now, WANTED_SECONDS);
        self.look(stream, now)
    }

    // Checks the time of the turn and of the call before a read.
    fn begin_read<S: Stream>(&mut self, stream: &S) -> io::Result<()>
        ensures { GoesOnCall self.old.clock self.new.clock }
    {
        let now = Instant::now(self.console.rt)?;
        if self.clock.is_between_calls() {
            self.end_between_calls(now)
        } else {
            self.go_on_in_call(stream, now)
        }
    }

    // Reads the next bytes, and waits for them if necessary. Returns 0 at the end of the stream. Fails if the
    // server ends the turn, or the stream or the clock cannot be read.
    fn read<S: Stream, R: Read>(
        &mut self,
        stream: &S,
        reader: &mut R,
        buf: &mut [u8],
    ) -> io::Result<usize>
        ensures bound { ReadsAtMost result buf.new }
        ensures bytes { ReadConsumes (R.remaining reader.old) (R.remaining reader.new) result buf.new }
        ensures begun { OnOk result (is_never self.new.clock.begun ≡ false) }
        ensures active { OnOk result (self.new.clock.active ≡ Since.Now) }
        ensures call { is_never self.old.clock.begun ≡ false → GoesOnCall self.old.clock self.new.clock }
    {
        self.begin_read(stream)?;
        for _ in 0..u64::MAX {
            match reader.read(buf) {
                Err(error) if may_wait(&error) => self.wait(stream, Way::Read)?,
                Ok(count) => {
                    self.clock.note_bytes();
                    return Ok(count);
                }
                Err(error) => return Err(error),
            }
        }
        Err(io::Error::from(ErrorKind::TimedOut))
    }

    // Writes as many bytes as the stream takes, and waits until it takes bytes if necessary. Fails if the
    // server ends the turn, the stream cannot be written, or the clock cannot be read.
    fn write<S: Stream, W: Write>(
        &mut self,
        stream: &S,
        writer: &mut W,
        buf: &[u8],
    ) -> io::Result<usize>
        ensures bound { WritesAtMost result buf.now }
        ensures bytes { WriteAppends (W.contents writer.old) (W.contents writer.new) result buf.now }
        ensures active { OnOk result (self.new.clock.active ≡ Since.Now) }
    {
        for _ in 0..u64::MAX {
            match writer.write(buf) {
                Err(error) if may_wait(&error) => self.wait_to_write(stream)?,
                answer => {
                    self.clock.note_taken();
                    return answer;
                }
            }
        }
        Err(io::Error::from(ErrorKind::TimedOut))
    }

    // Ends the time of a reply that was written completely.
    fn end_reply(&mut self)
        ensures { IsBetweenCalls self.new.clock }
    {
        self.clock.end_reply();
    }
}

/// The turn of a connection. It bounds how long reads and writes wait for the peer.
#[derive(Drop)]
pub struct Turn<'a> {
    /// The connection, with the bytes that it sent while it was in the queue.
    pub peer: Pending,
    steps: RefCell<Steps<'a>>,
    /// The reason why the server ended the turn. `None` while the turn goes on, and if the peer or an error
    /// of the stream ended it.
    pub ending: Cell<Option<Ending>>,
}

impl<'a> Turn<'a> {
    /// Begins the turn of a connection that was in the queue, and the time of the turn. While no other
    /// connection is ready, a read or a write of the stream may block for up to a second, and then the queue
    /// is polled.
    ///
    /// # Errors
    ///
    /// If the system refuses a setting of the stream, or the clock cannot be read.
    pub fn new(
        console: &'a Console<'a>,
        peer: Pending,
        waiting: &'a mut Waiting,
    ) -> io::Result<Turn<'a>> {
        let is_blocking = !waiting.has_ready();
        peer.stream.set_nonblocking(!is_blocking)?;
        let second = Some(Duration::from_secs(WANTED_SECONDS));
        peer.stream.set_read_timeout(second)?;
        peer.stream.set_write_timeout(second)?;
        let now = Instant::now(console.rt)?;
        let steps = Steps {
            console,
            waiting,
            clock: CallClock::new(peer.first.spent()),
            until: later(now, TURN_SECONDS),
            poll_at: later(now, WANTED_SECONDS),
            is_blocking,
            ending: None,
        };
        Ok(Turn {
            peer,
            steps: RefCell::new(steps),
            ending: Cell::new(None),
        })
    }

    /// Returns a reader of the connection's calls. This turn bounds how long its reads wait.
    pub fn reader(&self) -> TurnReader<'_, 'a, &UnixStream> {
        TurnReader {
            turn: self,
            stream: &self.peer.stream,
        }
    }

    /// Returns a writer of the connection's replies. This turn bounds how long its writes wait.
    pub fn writer(&self) -> TurnWriter<'_, 'a, &UnixStream> {
        TurnWriter {
            turn: self,
            stream: &self.peer.stream,
        }
    }
}

/// Reads the calls of a connection. Returns the bytes of the stream without a gap, also after a wait.
#[derive(Drop)]
pub struct TurnReader<'t, 'a, R> {
    turn: &'t Turn<'a>,
    stream: R,
}

impl<R: Read> Read for TurnReader<'_, '_, R> {
    ghost remaining = { λ it. R.remaining it.stream };

    fn read(&mut self, buf: &mut [u8]) -> io::Result<usize> {
        let Ok(mut steps) = self.turn.steps.try_borrow_mut() else {
            return Err(io::Error::from(ErrorKind::Other));
        };
        let answer = steps.read(&self.turn.peer.stream, &mut self.stream, buf);
        self.turn.ending.set(steps.ending);
        answer
    }
}

/// Writes the replies of a connection to its stream. A write may wait until the stream takes bytes, and
/// returns the number of bytes that were taken. A flush ends a reply.
#[derive(Drop)]
pub struct TurnWriter<'t, 'a, W> {
    turn: &'t Turn<'a>,
    stream: W,
}

impl<W: Write> Write for TurnWriter<'_, '_, W> {
    ghost contents = { λ it. W.contents it.stream };

    fn write(&mut self, buf: &[u8]) -> io::Result<usize> {
        let Ok(mut steps) = self.turn.steps.try_borrow_mut() else {
            return Err(io::Error::from(ErrorKind::Other));
        };
        let answer = steps.write(&self.turn.peer.stream, &mut self.stream, buf);
        self.turn.ending.set(steps.ending);
        answer
    }

    fn flush(&mut self) -> io::Result<()> {
        let Ok(mut steps) = self.turn.steps.try_borrow_mut() else {
            return Err(io::Error::from(ErrorKind::Other));
        };
        steps.end_reply();
        self.stream.flush()
    }
}

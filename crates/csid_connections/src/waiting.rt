//! The queue of connections that wait to be served. A look at the queue reads from all of its connections, so
//! a connection that sends nothing delays no other connection.

ghost use Rattle.std.specs.Prelude.{◌≡◌, ◌≤◌, ◌-◌, ◌+◌, ◌*◌, ℕ, None, false, true, IfOk, IfSome, [], length, slice_index_or};
ghost use Rattle.std.specs.List.{list_any, position};
ghost use Rattle.csid_connections.specs.Waiting.{ComesIn, Ends, GivesNext, GoesOn, IsNew, IsSilence};
ghost use Rattle.csid_connections.specs.Waiting.{Looks, LooksAt, StayFew, TakesIn, TakesOut, TurnsOver};
ghost use Rattle.csid_connections.specs.Waiting.{closed, has_no_call, is_full, is_ready, without};

use crate::limits::{CALL_SECONDS, least};
use crate::pending::{PeerInput, Pending, Start};
use csid_console::{Console, Ending};
use mio::unix::SourceFd;
use mio::{Events, Interest, Poll, Token};
use std::alloc::Global;
use std::collections::VecDeque;
use std::fmt::{self, Display};
use std::io::{self, ErrorKind};
use std::os::fd::{AsRawFd, RawFd};
use std::os::unix::net::{UnixListener, UnixStream};
use std::time::{Duration, Instant};

// The greatest number of connections in the queue. If one more connection comes, the oldest connection that
// was read and is not ready is closed. If there is no such connection, no further connection is accepted.
const MOST: usize = 256;

// The greatest number of connections that one call of `look` accepts, so that the call soon reads from the
// connections of the queue.
const AT_ONCE: usize = 64;

// The token of every source. A look reads from all connections, so it does not matter which source is ready.
const ANY: Token = Token(0);

/// The queue of connections that wait to be served, at most 256 of them, and the socket at which they come.
pub struct Waiting {
    listener: UnixListener,
    poll: Poll,
    events: Events,
    pending: VecDeque<Pending>,
    // The number of connections that will still be accepted.
    left: u32,
    // The time for which a peer may send or take nothing, or `None` for any time.
    idle: Option<Duration>,
    // True if a connection or bytes came at the last look, or connections were closed to make room.
    is_stirring: bool,
}

impl Drop for Waiting {
    fn drop(self) {
        let Waiting {
            listener: _listener,
            poll: _poll,
            events: _events,
            pending: _pending,
            left: _,
            idle: _,
            is_stirring: _,
        } = self;
    }
}

// Makes a wait end when bytes or connections come from this source.
fn watch(poll: &Poll, source: RawFd) -> io::Result<()> {
    poll.registry()
        .register(&mut SourceFd(&source), ANY, Interest::READABLE)
}

// Displays the line about a connection that was closed for this reason.
#[derive(Clone, Copy)]
struct Ended(Ending);

impl Display for Ended {
    fn fmt<W: fmt::Write>(&self, f: &mut fmt::Formatter<W>) -> fmt::Result {
        match self.0 {
            Ending::Idle => f.write_str("a connection that sent nothing was closed"),
            Ending::Slow => write!(
                f,
                "a connection that sent no whole call in {CALL_SECONDS} seconds was closed"
            ),
            Ending::Gone => f.write_str("a connection whose peer had gone was closed"),
            Ending::Crowded => f.write_str(
                "a connection that had sent no call was closed, as too many wait",
            ),
            Ending::Malformed => f.write_str("a connection that sent a malformed frame was closed"),
            Ending::Preempted => {
                f.write_str("a connection that kept another one waiting was closed")
            }
            Ending::Failed => f.write_str("a read of a connection failed"),
        }
    }
}

/// Writes a line about a connection that was closed, with the reason.
pub fn report_ending(console: &Console<'_>, ending: Ending, now: Instant) {
    console.report_end(ending, now, &Ended(ending));
}

impl Waiting {
    /// Makes an empty queue of the connections to `listener`. The queue accepts `connections` connections in
    /// all, and closes a connection after `idle` seconds without bytes. `None` means no limit.
    ///
    /// # Errors
    ///
    /// If the system refuses to make the socket non-blocking or to poll it, or memory is refused.
    pub fn new(
        rt: &HostRuntime,
        listener: UnixListener,
        connections: u32,
        idle: Option<u32>,
    ) -> io::Result<Waiting>
        ensures { IfOk result (λ waiting. (waiting.pending.items ≡ []) × (waiting.left ≡ connections)) }
    {
        listener.set_nonblocking(true)?;
        let poll = Poll::new(rt)?;
        watch(&poll, listener.as_raw_fd())?;
        Ok(Waiting {
            listener,
            poll,
            events: Events::with_capacity(rt.alloc(), AT_ONCE)?,
            pending: VecDeque::new(rt.alloc()),
            left: connections,
            idle: idle.map(|seconds| Duration::from_secs(u64::from(seconds))),
            is_stirring: false,
        })
    }

    /// Returns the time for which a peer may send or take nothing, or `None` for any time.
    pub fn idle(&self) -> Option<Duration>
        ensures { result ≡ self.now.idle }
    {
        self.idle
    }

    /// Returns true if a connection in the queue is ready. A connection is ready if its first frame is
    /// complete, 4,096 bytes of the frame have come, or it is known that its bytes are no call.
    pub fn has_ready(&self) -> bool
        ensures { result ≡ list_any is_ready self.now.pending.items }
    {
        self.pending.iter().any(|one| one.first.is_known())
    }

    /// Returns the time at which a connection of the queue became ready. If several are ready, returns the
    /// earliest of these times. Returns `None` if no connection is ready.
    pub fn ready_since(&self) -> Option<Instant> {
        let mut earliest = None;
        for one in self.pending.iter() {
            if one.first.is_known() {
                let since = one.first.since();
                earliest = Some(earliest.map_or(since, |found: Instant| found.min(since)));
            }
        }
        earliest
    }

    // Returns the time for which a connection in the queue may send nothing, or `None` for any time. After
    // the last connection was accepted, this time is at most ten seconds, so that the program ends.
    fn silence(&self) -> Option<Duration>
        ensures { IsSilence self.now.idle self.now.left result }
    {
        if self.left > 0 {
            return self.idle;
        }
        least(self.idle, Some(Duration::from_secs(CALL_SECONDS)))
    }

    /// Registers a connection that was in the queue, so that a wait also ends when this connection can be
    /// written.
    ///
    /// # Errors
    ///
    /// If the system refuses to register the connection.
    pub fn watch_both(&self, stream: &UnixStream) -> io::Result<()> {
        let source = stream.as_raw_fd();
        let both = Interest::READABLE | Interest::WRITABLE;
        self.poll
            .registry()
            .reregister(&mut SourceFd(&source), ANY, both)
    }

    // Makes the entry of a connection that was accepted at the time `now`.
    fn begin(&self, alloc: Global, stream: UnixStream, now: Instant) -> io::Result<Pending>
        ensures { IfOk result (IsNew now) }
    {
        stream.set_nonblocking(true)?;
        watch(&self.poll, stream.as_raw_fd())?;
        Ok(Pending::new(alloc, stream, now))
    }

    // Returns the index of the oldest connection that was read and is not ready, or `None` if there is none.
    fn oldest(&self) -> Option<usize>
        ensures { result ≡ position has_no_call self.now.pending.items }
    {
        self.pending
            .iter()
            .position(|it| matches!(it.first.start, Some(Start::Open)))
    }

    // Closes the oldest connection that was read and is not ready, and reports it. If there is no such
    // connection, does nothing.
    fn close_oldest(&mut self, console: &Console<'_>, now: Instant)
        ensures closed { self.new.pending.items
            ≡ without (position has_no_call self.old.pending.items) self.old.pending.items }
        ensures others { (self.new.left ≡ self.old.left) × (self.new.idle ≡ self.old.idle) }
    {
        if let Some(place) = self.oldest() {
            let _ = self.pending.remove(place);
            report_ending(console, Ending::Crowded, now);
        }
    }

    // Returns true if the queue is full and has no connection that can be closed for a new one.
    fn is_full(&self) -> bool
        ensures { result ≡ is_full self.now.pending.items }
    {
        self.pending.len() >= MOST && self.oldest().is_none()
    }

    // Adds a connection to the queue. If 256 connections wait, first closes the oldest connection that was
    // read and is not ready. If the system refuses to watch the new connection, reports the error and closes
    // the new connection.
    fn admit(&mut self, console: &Console<'_>, stream: UnixStream, now: Instant)
        ensures bounded { is_full self.old.pending.items ≡ false
            → StayFew self.old.pending.items self.new.pending.items }
        ensures comes { ComesIn now self.old.pending.items self.new.pending.items }
        ensures others { (self.new.left ≡ self.old.left - 1) × (self.new.idle ≡ self.old.idle) }
    {
        self.left = self.left.saturating_sub(1);
        self.is_stirring = true;
        if self.pending.len() >= MOST {
            self.close_oldest(console, now);
        }
        match self.begin(console.rt.alloc(), stream, now) {
            Ok(one) => {
                let _ = self.pending.push_back(one);
            }
            Err(error) => console.say_of("a connection cannot be waited for", &error),
        }
    }

    // Makes room after the system refused a new connection, for example for lack of descriptors. Closes the
    // oldest connections that were read and are not ready, at most half of the queue, rounded up. Returns the
    // error if the queue is empty.
    fn make_room(&mut self, console: &Console<'_>, error: io::Error, now: Instant) -> io::Result<()>
        ensures bounded { length self.new.pending.items ≤ length self.old.pending.items }
        ensures room { (n : ℕ) × (n * 2 ≤ length self.old.pending.items + 1)
            × (self.new.pending.items ≡ closed n self.old.pending.items) }
        ensures others { (self.new.left ≡ self.old.left) × (self.new.idle ≡ self.old.idle) }
    {
        if self.pending.is_empty() {
            return Err(error);
        }
        console.say_of("no further connection can be taken", &error);
        self.is_stirring = true;
        let half = self.pending.len() - self.pending.len() / 2;
        for turn in 0..half {
            self.close_oldest(console, now);
        }
        Ok(())
    }

    // Accepts connections that have come, at most `AT_ONCE` of them. Accepts none while the queue is full, or
    // after the last connection that the queue may accept.
    fn accept_some(&mut self, console: &Console<'_>, now: Instant) -> io::Result<()>
        ensures bounded { StayFew self.old.pending.items self.new.pending.items }
        ensures takes { TakesIn now self.old.pending.items self.new.pending.items
            self.old.left self.new.left }
        ensures others { self.new.idle ≡ self.old.idle }
    {
        for _ in 0..AT_ONCE {
            if self.left == 0 || self.is_full() {
                return Ok(());
            }
            match self.listener.accept() {
                Ok((stream, _)) => self.admit(console, stream, now),
                Err(error) if error.kind() == ErrorKind::WouldBlock => return Ok(()),
                Err(error) => return self.make_room(console, error, now),
            }
        }
        Ok(())
    }

    // Reads from a connection. Returns the reason why it is closed, or `None` if it stays in the queue.
    fn ending_of(&mut self, one: &mut Pending, now: Instant) -> Option<Ending>
        ensures others { (self.new.pending ≡ self.old.pending) × (self.new.left ≡ self.old.left)
            × (self.new.idle ≡ self.old.idle) }
        ensures goes { result ≡ None → GoesOn self.old.idle self.old.left now one.old one.new }
        ensures ends { IfSome result (λ ending. (is_ready one.old ≡ false)
            × Ends self.old.idle self.old.left now one.new.first ending) }
    {
        match one.receive(now) {
            PeerInput::Something => {
                self.is_stirring = true;
                None
            }
            PeerInput::Lost => Some(Ending::Failed),
            PeerInput::Nothing if one.first.is_known() => None,
            PeerInput::Nothing => one.first.patience(self.silence(), now).err(),
        }
    }

    // Reads from the first connection of the queue. Then makes it the last connection and returns `None`, or
    // closes it and returns the reason. Returns `None` if the queue is empty.
    fn look_at_first(&mut self, now: Instant) -> Option<Ending>
        ensures turns { TurnsOver self.old.idle self.old.left now
            self.old.pending.items self.new.pending.items }
        ensures bounded { length self.new.pending.items ≤ length self.old.pending.items }
        ensures others { (self.new.left ≡ self.old.left) × (self.new.idle ≡ self.old.idle) }
    {
        let mut one = self.pending.pop_front()?;
        match self.ending_of(&mut one, now) {
            Some(ending) => Some(ending),
            None => {
                self.pending.push_back_reserved(one);
                None
            }
        }
    }

    // Reads from each connection of the queue, the oldest first. Closes and reports the connections that
    // failed, were silent for too long, or did not complete their first call in time.
    fn receive_all(&mut self, console: &Console<'_>, now: Instant)
        ensures looks { LooksAt self.old.idle self.old.left now
            self.old.pending.items self.new.pending.items }
        ensures bounded { length self.new.pending.items ≤ length self.old.pending.items }
        ensures others { (self.new.left ≡ self.old.left) × (self.new.idle ≡ self.old.idle) }
    {
        let count = self.pending.len();
        for turn in 0..count {
            if let Some(ending) = self.look_at_first(now) {
                report_ending(console, ending, now);
            }
        }
    }

    // Returns the index of the oldest connection that is ready, or `None` if no connection is ready.
    fn first_ready(&self) -> Option<usize>
        ensures place { result ≡ position is_ready self.now.pending.items }
        ensures ready { IfSome result (λ place. (d : Pending)
            → is_ready (slice_index_or self.now.pending.items place d) ≡ true) }
    {
        self.pending.iter().position(|it| it.first.is_known())
    }

    /// Removes the oldest connection that is ready ([`Waiting::has_ready`]) from the queue and returns it. If
    /// no connection is ready, returns `None`.
    pub fn pop_ready(&mut self) -> Option<Pending>
        ensures taken { TakesOut (position is_ready self.old.pending.items)
            self.old.pending.items self.new.pending.items result }
        ensures ready { IfSome result (λ one. is_ready one ≡ true) }
        ensures bounded { length self.new.pending.items ≤ length self.old.pending.items }
        ensures none { result ≡ None → self.new.pending ≡ self.old.pending }
        ensures others { (self.new.left ≡ self.old.left) × (self.new.idle ≡ self.old.idle) }
    {
        let place = self.first_ready()?;
        self.pending.remove(place)
    }

    // Returns the time until a connection of the queue must be closed, or `None` for any time.
    fn patience(&self, now: Instant) -> Option<Duration> {
        let mut longest = None;
        for one in self.pending.iter() {
            if !one.first.is_known() {
                let left = one
                    .first
                    .patience(self.silence(), now)
                    .unwrap_or(Some(Duration::ZERO));
                longest = least(longest, left);
            }
        }
        longest
    }

    /// Accepts connections, and reads from each connection of the queue. Closes and reports the connections
    /// that failed, were silent for too long, or did not complete their first call in time. Also makes the
    /// console write its counts of ended connections if they are due.
    ///
    /// # Errors
    ///
    /// If the system refuses a new connection while the queue is empty.
    pub fn look(&mut self, console: &Console<'_>, now: Instant) -> io::Result<()>
        ensures bounded { StayFew self.old.pending.items self.new.pending.items }
        ensures looks { Looks self.old.idle now self.old.pending.items self.new.pending.items
            self.old.left self.new.left }
        ensures others { self.new.idle ≡ self.old.idle }
    {
        self.is_stirring = false;
        console.finish_second(now);
        let accepted = self.accept_some(console, now);
        self.receive_all(console, now);
        accepted
    }

    /// Waits for the first of these events: a connection or bytes come, a connection of the queue must be
    /// closed, the console must write its counts of ended connections, or the time `longest` is over. `None`
    /// means no time limit. Returns at once if a connection or bytes came at the last look, or if the last
    /// look closed connections to make room.
    ///
    /// # Errors
    ///
    /// If the system refuses to wait.
    pub fn wait(
        &mut self,
        console: &Console<'_>,
        now: Instant,
        longest: Option<Duration>,
    ) -> io::Result<()>
        ensures { (self.new.pending ≡ self.old.pending) × (self.new.left ≡ self.old.left)
            × (self.new.idle ≡ self.old.idle) }
    {
        if self.is_stirring {
            return Ok(());
        }
        let own = least(self.patience(now), console.patience(now));
        self.poll.poll(&mut self.events, least(longest, own))
    }

    /// Waits until a connection of the queue is ready ([`Waiting::has_ready`]), and returns the oldest ready
    /// connection. Returns `None` if no more connections are accepted and the queue is empty.
    ///
    /// # Errors
    ///
    /// If the system refuses a new connection while the queue is empty, refuses to wait, or cannot read the
    /// clock.
    pub fn next(&mut self, console: &Console<'_>) -> io::Result<Option<Pending>>
        ensures ready { IfOk result (λ next. IfSome next (λ one. is_ready one ≡ true)) }
        ensures bounded { StayFew self.old.pending.items self.new.pending.items }
        ensures next { IfOk result (GivesNext self.old.idle
            self.old.pending.items self.new.pending.items self.old.left self.new.left) }
    {
        for _ in 0..u64::MAX {
            let now = Instant::now(console.rt)?;
            self.look(console, now)?;
            if let Some(ready) = self.pop_ready() {
                return Ok(Some(ready));
            }
            if self.left == 0 && self.pending.is_empty() {
                return Ok(None);
            }
            self.wait(console, now, None)?;
        }
        Err(io::Error::from(ErrorKind::TimedOut))
    }
}

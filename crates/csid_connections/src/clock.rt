//! Measures the time that the peer of a connection takes to send a call and to take the reply.

ghost use Rattle.std.specs.Prelude.{◌≡◌, ◌-◌, ◌*◌, None, false, true};
ghost use Rattle.std.specs.Duration.{as_nanos};
ghost use Rattle.csid_connections.specs.Timing.{seconds};
ghost use Rattle.csid_connections.specs.Calling.{BeginsReply, IsBetweenCalls, IsLonger, IsTimed};
ghost use Rattle.csid_connections.specs.Calling.{LeavesCall, MayDelay, NotesBytes, SharesTime, is_never};
ghost use Rattle.csid_connections.specs.declared.limits.TheConstants.{CALL_SECONDS};

use crate::limits::{CALL_SECONDS, SHORTEST_MILLIS, WANTED_SECONDS, left_of};
use csid_console::Ending;
use std::time::{Duration, Instant};

/// The start of a period. The time of the period counts from the first check of this time, so the time that
/// `csid` takes before that does not count.
#[derive(Clone, Copy)]
pub(crate) enum Since {
    /// The period has not begun.
    Never,
    /// The period has begun, and its time was not checked yet.
    Now,
    /// The time of the period was first checked at this time, from which it counts.
    Then(Instant),
}

impl Since {
    // Returns the time from which the period counts, or `None` if the period has not begun. The first use in
    // a period sets this time to `now`.
    fn start(&mut self, now: Instant) -> Option<Instant>
        ensures { SharesTime now self.old self.new result }
    {
        match *self {
            Since::Never => None,
            Since::Now => {
                *self = Since::Then(now);
                Some(now)
            }
            Since::Then(begun) => Some(begun),
        }
    }
}

/// The time of the current call or reply. A call begins with its first byte. A reply begins with its first
/// write that waits, and the time of the reply then replaces the time of the call. Each of these times counts
/// from its first check ([`Since`]). After the reply, neither time runs until the next call.
#[derive(Clone, Copy)]
pub(crate) struct CallClock {
    // The period since the peer last sent or took bytes.
    active: Since,
    // The period since the call or the reply began, or `Since::Never` between two calls.
    begun: Since,
    // The time that is allowed for the whole call or reply.
    allowed: Duration,
    // The time when this call or reply first delayed another connection that was ready, or `None` before
    // that.
    delayed: Option<Instant>,
    // True while a reply is written, false while a call is read.
    is_reply: bool,
}

impl CallClock {
    /// Makes the clock of the first call of a connection. The peer has already taken the time `spent` for
    /// this call.
    pub(crate) fn new(spent: Duration) -> CallClock
        ensures first { (result.begun ≡ Since.Now) × (result.active ≡ Since.Now) × (result.delayed ≡ None)
            × (result.is_reply ≡ false) }
        ensures allowed { as_nanos result.allowed ≡ seconds CALL_SECONDS - as_nanos spent }
    {
        CallClock {
            active: Since::Now,
            begun: Since::Now,
            allowed: Duration::from_secs(CALL_SECONDS).saturating_sub(spent),
            delayed: None,
            is_reply: false,
        }
    }

    /// Returns true if no call has begun since the last reply.
    pub(crate) fn is_between_calls(&self) -> bool
        ensures { result ≡ is_never self.now.begun }
    {
        matches!(self.begun, Since::Never)
    }

    /// Notes that bytes of a call, or the end of the stream, have come. The time without activity begins
    /// again. Between two calls, this also begins the time of the next call.
    pub(crate) fn note_bytes(&mut self)
        ensures { NotesBytes self.old self.new }
    {
        self.active = Since::Now;
        if let Since::Never = self.begun {
            self.begun = Since::Now;
        }
    }

    /// Notes that the peer took bytes of a reply. The time without activity begins again.
    pub(crate) fn note_taken(&mut self)
        ensures { self.new ≡ record self.old { active = Since.Now } }
    {
        self.active = Since::Now;
    }

    /// Notes that a write of a reply waits. Returns true for the first such write, which begins the time of
    /// the reply, and false for each later write of the same reply.
    pub(crate) fn begin_reply(&mut self) -> bool
        ensures { BeginsReply self.old self.new result }
    {
        if self.is_reply {
            return false;
        }
        self.is_reply = true;
        self.begin(Since::Now);
        true
    }

    /// Notes that a reply was written completely. The clock is then between two calls, until bytes of the
    /// next call come.
    pub(crate) fn end_reply(&mut self)
        ensures { IsBetweenCalls self.new }
    {
        self.is_reply = false;
        self.begin(Since::Never);
    }

    // Begins a reply if `begun` is `Since::Now`, or the time between two calls if it is `Since::Never`.
    fn begin(&mut self, begun: Since)
        ensures all { (self.new.active ≡ Since.Now) × (self.new.begun ≡ begun) × (self.new.delayed ≡ None)
            × (self.new.is_reply ≡ self.old.is_reply) }
        ensures allowed { as_nanos self.new.allowed ≡ seconds CALL_SECONDS }
    {
        self.active = Since::Now;
        self.begun = begun;
        self.allowed = Duration::from_secs(CALL_SECONDS);
        self.delayed = None;
    }

    /// Returns the time left for the current call or reply at `now`, or `None` between two calls. The first
    /// use of this function in a call or reply starts its time at `now`.
    ///
    /// # Errors
    ///
    /// [`Ending::Slow`] if the time of the call or reply is over.
    pub(crate) fn left_of_call(&mut self, now: Instant) -> Result<Option<Duration>, Ending>
        ensures { IsTimed now self.old self.new result }
    {
        let Some(begun) = self.begun.start(now) else {
            return Ok(None);
        };
        match left_of(self.allowed, begun, now) {
            Some(left) => Ok(Some(left)),
            None => Err(Ending::Slow),
        }
    }

    /// Returns the time for which the peer may still send and take nothing. `None` means any time. `idle` is
    /// the whole time allowed, and `blocked` is the part of it that has passed in a read or a write that
    /// blocked. The first use of this function after the peer sent or took bytes starts the time at `now`.
    ///
    /// # Errors
    ///
    /// [`Ending::Idle`] if the time allowed is over.
    pub(crate) fn left_of_idle(
        &mut self,
        idle: Option<Duration>,
        blocked: Duration,
        now: Instant,
    ) -> Result<Option<Duration>, Ending>
        ensures { LeavesCall idle blocked now self.old self.new result }
    {
        let active = self.active.start(now).unwrap_or(now);
        let Some(idle) = idle else {
            return Ok(None);
        };
        match left_of(idle.saturating_sub(blocked), active, now) {
            Some(left) => Ok(Some(left)),
            None => Err(Ending::Idle),
        }
    }

    /// Returns the time for which the peer may still delay a call or a reply, although another connection is
    /// ready. `since` is the time when the first other connection became ready. The result is the longer of
    /// two times: the rest of one second since `since`, and the rest of 100 ms since the first use of this
    /// function in this call or reply.
    ///
    /// # Errors
    ///
    /// [`Ending::Idle`] if no call has begun, since the peer may not delay other connections between two
    /// calls. [`Ending::Preempted`] if both times are over.
    pub(crate) fn left_for_others(
        &mut self,
        since: Instant,
        now: Instant,
    ) -> Result<Duration, Ending>
        ensures { MayDelay since now self.old self.new result }
    {
        if self.is_between_calls() {
            return Err(Ending::Idle);
        }
        let delayed = self.delayed.unwrap_or(now);
        self.delayed = Some(delayed);
        let shared = left_of(Duration::from_secs(WANTED_SECONDS), since, now);
        let own = left_of(Duration::from_millis(SHORTEST_MILLIS), delayed, now);
        match longer(shared, own) {
            Some(left) => Ok(left),
            None => Err(Ending::Preempted),
        }
    }
}

// Returns the longer of two times. `None` means a time that is over.
fn longer(one: Option<Duration>, other: Option<Duration>) -> Option<Duration>
    ensures { IsLonger one other result }
{
    match (one, other) {
        (Some(one), Some(other)) if one.as_nanos() < other.as_nanos() => Some(other),
        (None, other) => other,
        (one, _) => one,
    }
}

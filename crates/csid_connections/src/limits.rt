//! The limits of the time for which the server waits for a peer.

ghost use Rattle.csid_connections.specs.Timing.{IsLeast, LeftOf};
ghost use Rattle.std.specs.Duration.{as_nanos};

use std::time::{Duration, Instant};

/// The number of seconds in which a peer must send a complete call, counted from the first byte of the call.
/// The time that `csid` itself takes does not count. The peer must also take a reply within this number of
/// seconds.
pub(crate) const CALL_SECONDS: u64 = 10;

/// The number of seconds for which the peer that is served may delay other connections. The seconds are
/// counted from the time when the first of the other connections became ready. A read or a write that blocks
/// also ends after this time, so that the queue is polled.
pub(crate) const WANTED_SECONDS: u64 = 1;

/// The number of milliseconds that the peer that is served has for each call or reply in any case, counted
/// from the time when the call or reply first delays another connection. The peer has this time even if the
/// other connection has been ready for longer than [`WANTED_SECONDS`]. So a peer that sends and takes its
/// bytes at once is served even if many connections are ready.
pub(crate) const SHORTEST_MILLIS: u64 = 100;

/// The number of seconds of a turn after which the connection that is served is closed between two calls, if
/// another connection is ready. If no other connection is ready, the turn goes on. Without this limit, a peer
/// that sends call after call would delay the other connections without an end.
pub(crate) const TURN_SECONDS: u64 = 60;

/// Returns the part of the time `longest` that is left at `now`, counted from `begun`. Returns `None` if the
/// time is over.
pub(crate) fn left_of(longest: Duration, begun: Instant, now: Instant) -> Option<Duration>
    ensures { LeftOf (as_nanos longest) begun now result }
{
    let left = longest.saturating_sub(now.duration_since(begun));
    if left.is_zero() { None } else { Some(left) }
}

/// Returns the shorter of two times. `None` means a time without an end.
pub(crate) fn least(one: Option<Duration>, other: Option<Duration>) -> Option<Duration>
    ensures { IsLeast one other result }
{
    match (one, other) {
        (Some(one), Some(other)) if other.as_nanos() < one.as_nanos() => Some(other),
        (None, other) => other,
        _ => one,
    }
}

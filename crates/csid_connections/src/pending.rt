//! A connection in the queue, and the bytes that it has sent. It is ready to be served when these bytes are a
//! complete call, 4,096 bytes of a call, or no call.

ghost use Rattle.std.specs.Prelude.{◌≡◌, None, true, false, []};
ghost use Rattle.csid_connections.specs.Waiting.{IsNew};
ghost use Rattle.std.specs.Duration.{as_nanos};
ghost use Rattle.csid_connections.specs.Starting.{Accepts, Begins, Finds, WaitsFor, is_known, spent_nanos};

use crate::limits::{CALL_SECONDS, least, left_of};
use csid_console::Ending;
use envelope::{FrameWhy, Taken, take_frame};
use std::alloc::Global;
use std::io::{self, ErrorKind, Read};
use std::os::unix::net::UnixStream;
use std::time::{Duration, Instant};

/// A connection that has sent this number of bytes of its first frame is ready, even if the frame is not
/// complete. This bounds the memory of the queue.
const ENOUGH: usize = 4096;

/// The kind of the bytes that a connection has sent first: a call, no call, or the beginning of a frame.
#[derive(Clone, Copy)]
pub enum Start {
    /// The beginning of a call: a complete frame, or at least 4,096 bytes of a frame.
    Call,
    /// The bytes are no call: the first frame is malformed, or the connection ended before the frame was
    /// complete.
    NoCall,
    /// The beginning of a frame, with fewer than 4,096 bytes, or no bytes. The frame is not complete yet.
    Open,
}

/// The result of a read from a connection in the queue, which does not block.
#[derive(Clone, Copy)]
pub enum PeerInput {
    /// No new bytes have come, or the connection is ready and was not read.
    Nothing,
    /// The connection has sent bytes, or has ended its stream.
    Something,
    /// The read failed, or memory for the bytes was refused.
    Lost,
}

/// The bytes that a connection has sent before it is served, their kind, and the times at which they came.
#[derive(Drop)]
pub struct FirstBytes {
    /// The bytes, in the order in which they came.
    pub sent: Vec<u8>,
    /// The kind of the bytes, or `None` before the first read.
    pub start: Option<Start>,
    // The time when the last byte or the end of the stream came. Before both, the time when the connection
    // came.
    since: Instant,
    // The time when the first byte came, or the end of the stream if no byte came before it. `None` before
    // that.
    begun: Option<Instant>,
}

/// A connection in the queue: its stream, and the bytes that were read from it before it is served.
pub struct Pending {
    /// The stream. Its reads and writes do not block while the connection is in the queue.
    pub stream: UnixStream,
    /// The bytes that were read from the stream so far. When the connection is served, these bytes come
    /// first.
    pub first: FirstBytes,
}

impl Drop for Pending {
    fn drop(self) {
        let Pending {
            stream: _stream,
            first: _first,
        } = self;
    }
}

// Returns the kind of the bytes that a connection has sent. `has_ended` is true if the connection has ended
// after these bytes.
fn start_of(sent: &[u8], has_ended: bool) -> Start
    ensures { Begins sent.now has_ended result }
{
    match take_frame(sent) {
        Taken::Frame(..) => Start::Call,
        Taken::Fault(fault) if fault.why != FrameWhy::EndOfInput => Start::NoCall,
        _ if has_ended => Start::NoCall,
        _ if sent.len() >= ENOUGH => Start::Call,
        _ => Start::Open,
    }
}

// Returns true if a read failed because no bytes have come.
fn is_nothing(error: &io::Error) -> bool {
    matches!(error.kind(), ErrorKind::WouldBlock | ErrorKind::Interrupted)
}

impl FirstBytes {
    // Makes the state of a connection that came at the time `since` and has sent no bytes.
    fn new(alloc: Global, since: Instant) -> FirstBytes
        ensures { (result.sent.items ≡ []) × (result.start ≡ None) × (result.since ≡ since)
            × (result.begun ≡ None) }
    {
        FirstBytes {
            sent: Vec::new(alloc),
            start: None,
            since,
            begun: None,
        }
    }

    /// Returns true if the connection is ready to be served:
    ///
    /// - its first frame is complete
    /// - or at least 4,096 bytes of the first frame have come
    /// - or the bytes are known to be no call
    pub fn is_known(&self) -> bool
        ensures { result ≡ is_known self.now.start }
    {
        matches!(self.start, Some(Start::Call | Start::NoCall))
    }

    /// Returns the time for which the connection may still wait without a complete call. `None` means any
    /// time. The peer may send nothing for the time `idle`. Once it has sent the first byte of its first
    /// call, it has ten seconds for this call.
    ///
    /// # Errors
    ///
    /// [`Ending::Idle`] if the time `idle` is over. [`Ending::Slow`] if the ten seconds are over.
    pub fn patience(&self, idle: Option<Duration>, now: Instant) -> Result<Option<Duration>, Ending>
        ensures { WaitsFor idle now self.now result }
    {
        let mut longest = None;
        if let Some(idle) = idle {
            longest = Some(left_of(idle, self.since, now).ok_or(Ending::Idle)?);
        }
        if let Some(begun) = self.begun {
            let left = left_of(Duration::from_secs(CALL_SECONDS), begun, now).ok_or(Ending::Slow)?;
            longest = least(longest, Some(left));
        }
        Ok(longest)
    }

    /// Returns the time that the peer has taken for the bytes of its first call. It is the time from the
    /// first byte to the last byte or the end of the stream, as far as they have come. The time is zero if no
    /// byte has come.
    pub fn spent(&self) -> Duration
        ensures { as_nanos result ≡ spent_nanos self.now }
    {
        match self.begun {
            Some(begun) => self.since.saturating_duration_since(begun),
            None => Duration::ZERO,
        }
    }

    /// Returns the time when the last byte or the end of the stream came. Before both, returns the time when
    /// the connection came. If the connection is ready, it became ready at this time.
    pub fn since(&self) -> Instant
        ensures { result ≡ self.now.since }
    {
        self.since
    }

    // Adds the bytes of a read. No bytes mean the end of the stream.
    fn accept(&mut self, piece: &[u8], now: Instant) -> PeerInput
        ensures { Accepts piece.now now self.old self.new result }
    {
        if self.sent.extend_from_slice(piece).is_err() {
            return PeerInput::Lost;
        }
        self.since = now;
        self.begun = Some(self.begun.unwrap_or(now));
        self.start = Some(start_of(self.sent.as_slice(), piece.is_empty()));
        PeerInput::Something
    }

    // Reads once from the reader, and adds the bytes.
    fn receive<R: Read>(&mut self, reader: &mut R, now: Instant) -> PeerInput
        ensures { Finds (R.remaining reader.old) (R.remaining reader.new) now self.old self.new result }
    {
        let mut piece = [0; ENOUGH];
        match reader.read(&mut piece) {
            Ok(count) => self.accept(piece.split_at(count).0, now),
            Err(error) if is_nothing(&error) => {
                self.start = Some(Start::Open);
                PeerInput::Nothing
            }
            Err(_) => PeerInput::Lost,
        }
    }
}

impl Pending {
    /// Makes the entry of a connection that came at the time `since` and has sent no bytes.
    pub fn new(alloc: Global, stream: UnixStream, since: Instant) -> Pending
        ensures new { IsNew since result }
        ensures stream { result.stream ≡ stream }
    {
        Pending {
            stream,
            first: FirstBytes::new(alloc, since),
        }
    }

    /// Reads once from the connection, at most 4,096 bytes, and keeps the bytes. If the connection is ready,
    /// reads nothing, since the later bytes are read when the connection is served.
    pub fn receive(&mut self, now: Instant) -> PeerInput
        ensures known { is_known self.old.first.start ≡ true
            → (result ≡ PeerInput.Nothing) × (self.new.first ≡ self.old.first) }
        ensures unknown { is_known self.old.first.start ≡ false
            → Finds None None now self.old.first self.new.first result }
        ensures stream { self.new.stream ≡ self.old.stream }
    {
        if self.first.is_known() {
            return PeerInput::Nothing;
        }
        let mut stream = &self.stream;
        self.first.receive(&mut stream, now)
    }
}

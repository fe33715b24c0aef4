//! Tests if the peer of a connection is still there, and guards the replies to it.

ghost use Rattle.std.specs.Prelude.{◌≡◌, Bool, true, false, ⊤, IsErr};
ghost use Rattle.std.specs.Io.{WritesAtMost};
ghost use Rattle.std.specs.Io.KnownBytes.{Keeps, WriteAppends};
ghost use Rattle.csid_connections.specs.Replying.{after_reply, begun, is_cut, is_open};

use std::io::{self, ErrorKind, Write};
use std::os::unix::net::UnixStream;

/// Returns true if the peer has closed the connection. The test is a write of 0 bytes, which fails only if
/// the peer has closed. A peer that has closed only its sending half still waits for replies, and the result
/// is false.
pub fn has_gone(stream: &UnixStream) -> bool {
    let mut writer = stream;
    writer.write(&[]).is_err()
}

/// Decides if a reply that was made from the volumes in memory may be written. A reply holds, and may be
/// written, if no other program can have changed the volumes.
pub trait Leadership {
    // The effect of a call of `holds`, and its result.
    ghost asked: { Self → Self → Bool → Type 0 } = { λ _ _ _. ⊤ };

    /// Returns true if replies still hold. [`GuardedWriter`] calls this function before the first byte of
    /// each reply.
    fn holds(&mut self) -> bool
        ensures { asked self.old self.new result };
}

/// The leadership of a server whose volumes no other program changes: replies always hold.
#[derive(Clone, Copy, Drop)]
pub struct Always;

impl Leadership for Always {
    ghost use Rattle.std.specs.Prelude.{◌≡◌, true};

    ghost asked = { λ _ _ answer. answer ≡ true };

    fn holds(&mut self) -> bool {
        true
    }
}

/// The state of the reply that a [`GuardedWriter`] writes: not begun, begun, or refused.
#[derive(Clone, Copy)]
pub enum Reply {
    /// No byte of the next reply was written yet. Before the first byte, the writer asks if the reply holds.
    Between,
    /// The reply holds, and is being written.
    Open,
    /// A reply did not hold. No more bytes are written.
    Cut,
}

/// Writes replies. Before the first byte of each reply, the writer asks its [`Leadership`] if the reply
/// holds. A flush ends a reply. If a reply does not hold, the writer writes neither this reply nor a later
/// one.
#[derive(Drop)]
pub struct GuardedWriter<L, W> {
    lead: L,
    writer: W,
    reply: Reply,
}

impl<L: Leadership, W: Write> GuardedWriter<L, W> {
    /// Makes a writer that has written no reply. Before each reply, the writer asks `lead` if the reply still
    /// holds ([`Leadership`]). Only the bytes of a reply that holds are written to `writer`.
    pub fn new(lead: L, writer: W) -> GuardedWriter<L, W>
        ensures { (result.lead ≡ lead) × (result.writer ≡ writer) × (result.reply ≡ Reply.Between) }
    {
        GuardedWriter {
            lead,
            writer,
            reply: Reply::Between,
        }
    }

    /// Returns true if a reply did not hold. The writer then writes no more bytes.
    pub fn is_cut(&self) -> bool
        ensures { result ≡ is_cut self.now.reply }
    {
        matches!(self.reply, Reply::Cut)
    }

    // Returns true if bytes of a reply may be written. Before the first byte of a reply, asks if the reply
    // holds.
    fn may_write(&mut self) -> bool
        ensures writer { self.new.writer ≡ self.old.writer }
        ensures open { self.old.reply ≡ Reply.Open → (result ≡ true) × (self.new ≡ self.old) }
        ensures cut { self.old.reply ≡ Reply.Cut → (result ≡ false) × (self.new ≡ self.old) }
        ensures asked { self.old.reply ≡ Reply.Between
            → L.asked self.old.lead self.new.lead result × (self.new.reply ≡ begun result) }
    {
        match self.reply {
            Reply::Open => true,
            Reply::Cut => false,
            Reply::Between => {
                let holds = self.lead.holds();
                self.reply = if holds { Reply::Open } else { Reply::Cut };
                holds
            }
        }
    }
}

impl<L: Leadership, W: Write> Write for GuardedWriter<L, W> {
    ghost contents = { λ guarded. W.contents guarded.writer };

    fn write(&mut self, buf: &[u8]) -> io::Result<usize>
        ensures bound { WritesAtMost result buf.now }
        ensures bytes { WriteAppends
            (W.contents self.old.writer) (W.contents self.new.writer) result buf.now }
        ensures open { self.old.reply ≡ Reply.Open
            → (self.new.reply ≡ Reply.Open) × (self.new.lead ≡ self.old.lead) }
        ensures cut { self.old.reply ≡ Reply.Cut → IsErr result × (self.new ≡ self.old) }
        ensures asked { self.old.reply ≡ Reply.Between
            → L.asked self.old.lead self.new.lead (is_open self.new.reply)
            × (self.new.reply ≡ begun (is_open self.new.reply))
            × (is_open self.new.reply ≡ false → IsErr result × (self.new.writer ≡ self.old.writer)) }
    {
        if !self.may_write() {
            return Err(io::Error::from(ErrorKind::ConnectionAborted));
        }
        self.writer.write(buf)
    }

    fn flush(&mut self) -> io::Result<()>
        ensures bytes { Keeps (W.contents self.old.writer) (W.contents self.new.writer) }
        ensures ended { (self.new.reply ≡ after_reply self.old.reply) × (self.new.lead ≡ self.old.lead) }
    {
        if !self.is_cut() {
            self.reply = Reply::Between;
        }
        self.writer.flush()
    }
}

//! Receives the reply to a call.
//!
//! A reply is one value, [`ReceivedReply`], which owns its status, text and body. So code that shows a reply,
//! or decides to try again, passes one value on.

ghost use Rattle.std.specs.Prelude.{◌≡◌, None, false, IfOk, IsTrue};
ghost use Rattle.envelope.specs.Envelope.{reply_bytes_of};
ghost use Rattle.frames_core.specs.Framer.{IsReplySettled, reply_start};
ghost use Rattle.envelope.specs.ReplyStream.{IsUnfinished};
ghost use Rattle.csi_client.specs.Receiving.{Receives, Gathers, reply_of};

use envelope::{MAX_REPLY_BYTES, Reply, ReplyFault};
use frames_core::ReplyFramer;
use std::alloc::{AllocError, Global};
use std::io::{self, Read};

/// The greatest number of bytes that one read returns.
pub(crate) const PIECE_BYTES: usize = 4096;

const _: () = prove!(PIECE_BYTES == 4096);

/// A received reply, which owns copies of its text and body.
#[derive(Debug, Drop)]
pub struct ReceivedReply {
    /// The gRPC status code. It is 0 (OK) if the call succeeded.
    pub status: u8,
    /// The reason why the call was refused: at most 1,024 bytes, each from 0x20 to 0x7E. It is empty if the
    /// status is 0.
    pub text: Vec<u8>,
    /// The bytes of the response message, at most 4,194,304. It is empty if the status is not 0.
    pub body: Vec<u8>,
}

impl ReceivedReply {
    fn copied(alloc: Global, reply: &Reply<'_>) -> Result<ReceivedReply, AllocError>
        ensures { IfOk result (λ r. reply_of r ≡ reply_bytes_of reply.now) }
    {
        let mut text = Vec::new(alloc);
        text.extend_from_slice(reply.text)?;
        let mut body = Vec::new(alloc);
        body.extend_from_slice(reply.body)?;
        Ok(ReceivedReply {
            status: reply.status,
            text,
            body,
        })
    }

    /// Borrows the reply, without copying the text and the body.
    pub fn as_reply(&self) -> Reply<'_>
        ensures { reply_bytes_of result ≡ reply_of self.now }
    {
        Reply {
            status: self.status,
            text: self.text.as_slice(),
            body: self.body.as_slice(),
        }
    }
}

/// The outcome of waiting for the reply to a call.
#[derive(Debug, Drop)]
pub enum Received {
    /// The first reply on the connection was received.
    Reply(ReceivedReply),
    /// The input ended before the first byte of a reply was received.
    Nothing,
    /// The input begins with a malformed reply, or ends within the first reply. The value is the fault.
    Malformed(ReplyFault),
    /// A read failed before the complete reply was received, or a [`Line`](crate::Line) could not connect or
    /// send.
    Failed,
    /// Memory was refused: for the buffer, before anything was read, or for the copy of the reply.
    NoMemory,
}

// Returns true if the framer takes no more bytes, because it has a complete reply or a fault.
fn is_settled(framer: &ReplyFramer) -> bool
    ensures settled { IsTrue result → IsReplySettled framer.now }
    ensures open { (result ≡ false) → (framer.now.fault ≡ None) × IsUnfinished framer.now.held }
{
    framer.fault().is_some() || framer.reply().is_some()
}

// Reads until the framer has a complete reply or a fault, or the input ends.
fn gather<R: Read>(framer: &mut ReplyFramer, reader: &mut R) -> io::Result<()>
    requires { framer.old ≡ reply_start }
    ensures { Gathers (R.remaining reader.old) (R.remaining reader.new) framer.new result }
{
    let mut piece = [0; PIECE_BYTES];
    // Each read returns at least one byte, so the longest reply takes at most this many reads.
    for turn in 0..MAX_REPLY_BYTES {
        let count = reader.read(&mut piece)?;
        if count == 0 {
            framer.end();
            return Ok(());
        }
        let (bytes, _) = piece.split_at(count);
        framer.feed(bytes);
        if is_settled(framer) {
            return Ok(());
        }
    }
    unreachable!()
}

/// Reads the first reply of the input. Each read takes at most 4,096 bytes. Nothing is read after the read
/// that completes the reply or shows that it is malformed. The call makes at most 4,194,312 reads, which is
/// the number of bytes of the longest reply.
pub fn receive<R: Read>(alloc: Global, reader: &mut R) -> Received
    ensures { Receives (R.remaining reader.old) (R.remaining reader.new) result }
{
    let Ok(mut framer) = ReplyFramer::new(alloc) else {
        return Received::NoMemory;
    };
    let Ok(()) = gather(&mut framer, reader) else {
        return Received::Failed;
    };
    match framer.fault() {
        Some(fault) => Received::Malformed(fault),
        None => match framer.reply() {
            None => Received::Nothing,
            Some(reply) => match ReceivedReply::copied(alloc, &reply) {
                Ok(reply) => Received::Reply(reply),
                Err(_) => Received::NoMemory,
            },
        },
    }
}

//! Writes the replies of a stream as lines for people.

ghost use Rattle.std.specs.Prelude.{◌≡◌, ◌<◌, ◌≤◌, ◌+◌, ◌^◌, ◌++◌, ◌||◌, ⊤, ℕ, List, Option, Err, OnOk, length};
ghost use Rattle.std.specs.Io.KnownBytes.{Appends};
ghost use Rattle.pbmessage.specs.declared.message.DecodeFault.TheVariants.{Malformed};
ghost use Rattle.csi_types.specs.Codes.{number_of};
ghost use Rattle.csi_types.specs.declared.code.Code.{Code};
ghost use Rattle.csi_types.specs.declared.code.Code.TheVariants as Code;
ghost use Rattle.envelope.specs.Envelope.{IsReply, reply_bytes_of};
ghost use Rattle.frames_core.specs.Writing.{WrotePrefix};
ghost use Rattle.csi_client.specs.Replies.{first_line, body_lines};
ghost use Rattle.csi_client.specs.Showing.{IsBad, is_refusal, Ended, Shows};
ghost use Rattle.csi_client.specs.Live.{ShowsOne, end_of, IsReady, Live, Steps, AdvancesBy, IsAllFed};

use crate::receiving::PIECE_BYTES;
use crate::replies::{put_body_lines, put_reply_line};
use csi_types::Method;
use envelope::{Reply, ReplyFault};
use frames_core::{ReplyFramer, send};
use pbmessage::DecodeFault;
use std::alloc::Global;
use std::io::{self, Read, Write};

// The greatest number of reads in one run. With this limit a run takes fewer than 2^63 bytes, as
// `ReplyFramer::feed` requires.
const MAX_READS: u64 = 1 << 32;

/// The way in which a run of [`show_all`] ended.
#[derive(Clone, Copy, Debug, PartialEq, Eq)]
pub enum ShowEnd {
    /// The input ended after a complete reply, or was empty, and all replies were shown. The value is true if
    /// a reply had a status other than 0.
    Done(bool),
    /// A reply of the stream is malformed, or the input ended inside a reply. The value is the fault. All
    /// replies before this reply were shown.
    Malformed(ReplyFault),
    /// The body of a reply is not a response of the method. All replies before this reply were shown, and
    /// also the first line of this reply.
    BadBody,
    /// A read failed, or 2^32 reads were made. All complete replies were shown.
    ReadFailed,
    /// A write or a flush failed in a reply. All replies before this reply were shown. Of the lines of this
    /// reply, a part was shown, which may be empty or complete.
    WriteFailed,
    /// Memory was refused. Either it was memory for the buffer of frames, and nothing was read. Or it was
    /// memory for the lines of a reply, and all replies before this reply were shown.
    NoMemory,
}

// The reason why no more replies are shown.
#[derive(Clone, Copy)]
pub(crate) enum Halt {
    BadBody,
    WriteFailed,
    NoMemory,
}

// The outcome of showing one piece of the input.
#[derive(Clone, Copy)]
pub(crate) enum Shown {
    Fed(usize),
    Faulty(ReplyFault),
    Halted(Halt),
}

// Shows replies, and keeps the buffer for their lines.
#[derive(Drop)]
pub(crate) struct Printer {
    method: Option<Method>,
    lines: Vec<u8>,
    refused: bool,
}

impl Printer {
    // Makes the lines of a reply in the buffer. If the body is malformed, the buffer has only the first line.
    fn make_lines(&mut self, alloc: Global, reply: &Reply<'_>) -> Result<(), DecodeFault>
        ensures method { self.new.method ≡ self.old.method }
        ensures refused { self.new.refused ≡ self.old.refused }
        ensures ok { OnOk result ((code : Code) → reply.now.status ≡ number_of code
            → self.new.lines.items ≡ first_line code (reply_bytes_of reply.now)
            ++ body_lines self.old.method (reply_bytes_of reply.now)) }
        ensures readable { OnOk result (¬ IsBad self.old.method (reply_bytes_of reply.now)) }
        ensures bad { (at : ℕ) → result ≡ Err (Malformed at)
            → IsBad self.old.method (reply_bytes_of reply.now)
            × (self.new.lines.items ≡ first_line Code.Ok (reply_bytes_of reply.now)) }
    {
        self.lines.clear();
        match put_reply_line(alloc, &mut self.lines, reply) {
            Ok(()) => put_body_lines(alloc, &mut self.lines, self.method, reply),
            Err(_) => Err(DecodeFault::NoMemory),
        }
    }

    // Writes the lines that are in the buffer, and flushes the writer. After an error, a prefix of the lines
    // was written, which may be empty or complete.
    fn write_lines<W: Write>(&self, writer: &mut W) -> io::Result<()>
        ensures all { OnOk result (Appends (W.contents writer.old)
            (W.contents writer.new) self.now.lines.items) }
        ensures part { WrotePrefix (W.contents writer.old) (W.contents writer.new) self.now.lines.items }
    {
        send(writer, &self.lines)
    }

    // Writes the lines of one reply, and notes a status other than 0.
    fn show<W: Write>(
        &mut self,
        alloc: Global,
        reply: &Reply<'_>,
        writer: &mut W,
    ) -> Result<(), Halt>
        requires { IsReply (reply_bytes_of reply.now) }
        ensures method { self.new.method ≡ self.old.method }
        ensures refused { OnOk result (self.new.refused
            ≡ (self.old.refused || is_refusal (reply_bytes_of reply.now))) }
        ensures shows { ShowsOne self.old.method (reply_bytes_of reply.now) (W.contents writer.old)
            (W.contents writer.new) result }
    {
        match self.make_lines(alloc, reply) {
            Err(DecodeFault::NoMemory) => Err(Halt::NoMemory),
            Err(DecodeFault::Malformed { .. }) => match self.write_lines(writer) {
                Ok(()) => Err(Halt::BadBody),
                Err(_) => Err(Halt::WriteFailed),
            },
            Ok(()) => match self.write_lines(writer) {
                Ok(()) => {
                    self.refused |= reply.status != 0;
                    Ok(())
                }
                Err(_) => Err(Halt::WriteFailed),
            },
        }
    }

    // Feeds bytes to the framer, at most up to the end of a frame. Shows the reply if the frame is complete.
    fn show_next<W: Write>(
        &mut self,
        alloc: Global,
        framer: &mut ReplyFramer,
        rest: &[u8],
        writer: &mut W,
    ) -> Shown
        requires room { framer.old.past + length framer.old.held + length rest.now < 2 ^ 63 }
        requires some { 0 < length rest.now }
        requires within_piece { length rest.now ≤ PIECE_BYTES }
        requires ready { IsReady framer.old }
        ensures method { self.new.method ≡ self.old.method }
        ensures steps { (read : List ℕ) (held : Option (List ℕ))
            → Live self.old.method read framer.old held (W.contents writer.old) self.old.refused
            → Steps self.old.method read rest.now framer.new held
            (W.contents writer.new) self.new.refused result }
        ensures count { AdvancesBy framer.old framer.new (length rest.now) result }
    {
        let count = framer.feed(rest);
        if let Some(fault) = framer.fault() {
            return Shown::Faulty(fault);
        }
        let Some(reply) = framer.reply() else {
            return Shown::Fed(count);
        };
        match self.show(alloc, &reply, writer) {
            Err(halt) => Shown::Halted(halt),
            Ok(()) => {
                framer.next_frame();
                Shown::Fed(count)
            }
        }
    }

    // Feeds all bytes of one read to the framer, and shows each complete reply.
    fn show_piece<W: Write>(
        &mut self,
        alloc: Global,
        framer: &mut ReplyFramer,
        piece: &[u8],
        writer: &mut W,
    ) -> Shown
        requires room { framer.old.past + length framer.old.held + length piece.now < 2 ^ 63 }
        requires within_piece { length piece.now ≤ PIECE_BYTES }
        requires ready { IsReady framer.old }
        ensures method { self.new.method ≡ self.old.method }
        ensures steps { (read : List ℕ) (held : Option (List ℕ))
            → Live self.old.method read framer.old held (W.contents writer.old) self.old.refused
            → Steps self.old.method read piece.now framer.new held
            (W.contents writer.new) self.new.refused result }
        ensures count { AdvancesBy framer.old framer.new (length piece.now) result }
        ensures all { IsAllFed (length piece.now) result }
    {
        let mut at = 0;
        while at < piece.len() {
            let (_, rest) = piece.split_at(at);
            match self.show_next(alloc, framer, rest, writer) {
                Shown::Fed(count) => at += count,
                Shown::Faulty(fault) => return Shown::Faulty(fault),
                Shown::Halted(halt) => return Shown::Halted(halt),
            }
        }
        Shown::Fed(at)
    }

    // Ends the last frame at the end of the input, and returns how the run ended.
    fn finish(&self, framer: &mut ReplyFramer) -> ShowEnd
        ensures { (read : List ℕ) (held holds : Option (List ℕ))
            → Live self.now.method read framer.old held holds self.now.refused
            → Ended self.now.method read ⊤ held holds result }
    {
        framer.end();
        match framer.fault() {
            None => ShowEnd::Done(self.refused),
            Some(fault) => ShowEnd::Malformed(fault),
        }
    }
}

fn halted(halt: Halt) -> ShowEnd
    ensures { result ≡ end_of halt }
{
    match halt {
        Halt::BadBody => ShowEnd::BadBody,
        Halt::WriteFailed => ShowEnd::WriteFailed,
        Halt::NoMemory => ShowEnd::NoMemory,
    }
}

/// Reads replies and writes them as lines. For each reply it writes the line of
/// [`put_reply_line`](crate::put_reply_line). If the method of the calls is given, it also writes the lines
/// of [`put_body_lines`](crate::put_body_lines).
///
/// A read takes at most 4,096 bytes, and a run makes at most 2^32 reads. As soon as the frame of a reply is
/// complete, the reply is written in one write and flushed, by `send` of `frames_core`. Nothing more is read
/// after a fault, after a body that cannot be decoded, after a failed write, or after memory was refused.
pub fn show_all<R: Read, W: Write>(
    alloc: Global,
    method: Option<Method>,
    reader: &mut R,
    writer: &mut W,
) -> ShowEnd
    ensures { Shows method (R.remaining reader.old) (R.remaining reader.new) (W.contents writer.old)
        (W.contents writer.new) result }
{
    let Ok(mut framer) = ReplyFramer::new(alloc) else {
        return ShowEnd::NoMemory;
    };
    let mut printer = Printer {
        method,
        lines: Vec::new(alloc),
        refused: false,
    };
    let mut piece = [0; PIECE_BYTES];
    for turn in 0..MAX_READS {
        let Ok(count) = reader.read(&mut piece) else {
            return ShowEnd::ReadFailed;
        };
        if count == 0 {
            return printer.finish(&mut framer);
        }
        let (bytes, _) = piece.split_at(count);
        match printer.show_piece(alloc, &mut framer, bytes, writer) {
            Shown::Fed(_) => {}
            Shown::Faulty(fault) => return ShowEnd::Malformed(fault),
            Shown::Halted(halt) => return halted(halt),
        }
    }
    ShowEnd::ReadFailed
}

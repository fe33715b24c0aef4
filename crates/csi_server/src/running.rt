//! The engine of the server: reads calls, has a service answer them, and writes the replies.

ghost use Rattle.std.specs.Prelude.{◌≡◌, ◌≤◌, ◌<◌, ◌+◌, ◌^◌, [], ◌++◌, length, ℕ, List, Option, None, take};
ghost use Rattle.std.specs.Io.KnownBytes.{Keeps};
ghost use Rattle.csi_server.specs.Serving.{Serves, Writes};
ghost use Rattle.csi_server.specs.Live.{IsLive, Steps, Replying, Replies, AdvancesBy, IsReady, Refuses, Finishes};

use crate::end::RunEnd;
use crate::service::Service;
use crate::writing::{put_fault, put_reply};
use envelope::FrameFault;
use frames_core::Framer;
use std::alloc::Global;
use std::io::{Read, Write};

// The greatest number of reads in one run. With this limit a run takes fewer than 2^63 bytes, as
// `Framer::feed` requires.
const MAX_READS: u64 = 1 << 32;

// The greatest number of bytes that one read takes.
const PIECE_BYTES: usize = 4096;

// The outcome of one piece of the input. A piece is the bytes of one read.
#[derive(Clone, Copy)]
pub(crate) enum PieceOutcome {
    // All bytes of the piece were taken, and each call that became complete was answered.
    Fed,
    // A frame is malformed. The calls before it were answered.
    Faulty(FrameFault),
    // Writing or flushing a reply failed.
    Cut,
}

// Feeds a piece to the framer, and answers each call whose frame becomes complete.
#[inline(always)]
fn answer_piece<C, S: Service<C>, W: Write>(
    alloc: Global,
    config: &C,
    service: &mut S,
    framer: &mut Framer,
    piece: &[u8],
    reply: &mut Vec<u8>,
    writer: &mut W,
) -> PieceOutcome
    requires room { framer.old.past + length framer.old.held + length piece.now < 2 ^ 63 }
    requires ready { IsReady framer.old }
    requires within_piece { length piece.now ≤ PIECE_BYTES }
    ensures clean { (S.model config.now service.old).doubt ≤ (S.model config.now service.new).doubt }
    ensures steps { (start : S) (s : S.State) (read : List ℕ) (held : Option (List ℕ))
        → IsLive (S.machine config.now) (S.model config.now start)
        (S.model config.now service.old) s read framer.old held (W.contents writer.old)
        → (S.model config.now service.new).doubt ≡ 0
        → Steps (S.machine config.now) (S.model config.now start) (S.model config.now service.new) s
        (read ++ piece.now) framer.new held
        (W.contents writer.new) result }
    ensures replies { (read : List ℕ) (held : Option (List ℕ))
        → Replying read framer.old held (W.contents writer.old)
        → Replies (read ++ piece.now) framer.new held (W.contents writer.new) result }
    ensures count { AdvancesBy framer.old framer.new (length piece.now) result }
{
    let mut at = 0;
    while at < piece.len() {
        let (_, rest) = piece.split_at(at);
        at += framer.feed(rest);
        if let Some(fault) = framer.fault() {
            return PieceOutcome::Faulty(fault);
        }
        let Some(call) = framer.frame() else {
            continue;
        };
        let answer = service.answer(config, alloc, &call, reply);
        let Ok(()) = put_reply(writer, &answer, reply) else {
            return PieceOutcome::Cut;
        };
        framer.next_frame();
    }
    PieceOutcome::Fed
}

/// Reads calls, has a service answer them, and writes the replies, until the input ends or the run fails.
///
/// Each read takes at most 4,096 bytes, and a run makes at most 2^32 reads. As soon as the frame of a call is
/// complete, the call is answered and its reply flushed, before the bytes after the frame are looked at.
/// Nothing is read after a fault or a failed write. An interrupted read or write is a failure.
///
/// A run allocates one buffer for frames at the start, and one buffer for the bodies of replies, which it
/// keeps from call to call. The second buffer is empty until the first body, so a refusal needs no memory. If
/// memory for a body is refused, only that call is refused.
///
/// The clause `serves` holds if `doubt`, a number in the model of the service, is 0 at the end. The clause
/// `writes` holds for any service: one valid reply of the envelope is written for each call. If a write
/// fails, the last reply may be incomplete.
///
/// # Not promised
///
/// Memory may be refused, a read or a write may fail, and a peer may not receive the bytes. The contract says
/// nothing about time. It allows that a call is refused for memory although no memory was refused; tests
/// exclude that.
///
/// Some readers and writers, such as sockets, do not report their bytes, so no clause knows them. The body
/// treats all readers and writers alike, and tests of `csid` as a process compare its output.
///
/// Cases of `test_bytes` show that a reply is flushed before the next frame is looked at and that no read is
/// longer than 4,096 bytes. They also show that nothing is read after a fault or a failed write, and that a
/// failed read, write or flush is not tried again.
pub fn run_service<C, S: Service<C>, R: Read, W: Write>(
    alloc: Global,
    config: &C,
    service: &mut S,
    reader: &mut R,
    writer: &mut W,
) -> RunEnd
    ensures serves { Serves (S.machine config.now) (S.model config.now service.old)
        (S.model config.now service.new)
        (R.remaining reader.old) (R.remaining reader.new) (W.contents writer.old)
        (W.contents writer.new) result }
    ensures writes { Writes (R.remaining reader.old) (R.remaining reader.new) (W.contents writer.old)
        (W.contents writer.new) result }
    ensures clean { (S.model config.now service.old).doubt ≤ (S.model config.now service.new).doubt }
    ensures unread { result ≡ RunEnd.NoMemory → Keeps (R.remaining reader.old) (R.remaining reader.new) }
    ensures unwritten { result ≡ RunEnd.NoMemory → Keeps (W.contents writer.old) (W.contents writer.new) }
{
    let Ok(mut framer) = Framer::new(alloc) else {
        return RunEnd::NoMemory;
    };
    let mut reply = Vec::new(alloc);
    let mut piece = [0; PIECE_BYTES];
    for turn in 0..MAX_READS {
        match reader.read(&mut piece) {
            Err(_) => return RunEnd::ReadFailed,
            Ok(count) => {
                if count == 0 {
                    return finish(&mut framer, writer);
                }
                let (bytes, _) = piece.split_at(count);
                match answer_piece(
                    alloc,
                    config,
                    service,
                    &mut framer,
                    bytes,
                    &mut reply,
                    writer,
                ) {
                    PieceOutcome::Fed => {}
                    PieceOutcome::Faulty(fault) => return refuse(&fault, writer),
                    PieceOutcome::Cut => return RunEnd::WriteFailed,
                }
            }
        }
    }
    RunEnd::TurnsSpent
}

// Writes the reply that refuses a malformed frame, and returns the end of the run: `Malformed`, or
// `WriteFailed` if the reply cannot be written.
fn refuse<W: Write>(fault: &FrameFault, writer: &mut W) -> RunEnd
    ensures { Refuses fault.now (W.contents writer.old) (W.contents writer.new) result }
{
    match put_fault(writer, fault) {
        Ok(()) => RunEnd::Malformed(*fault),
        Err(_) => RunEnd::WriteFailed,
    }
}

// Ends the run at the end of the input. An incomplete frame at the end is refused.
fn finish<W: Write>(framer: &mut Framer, writer: &mut W) -> RunEnd
    ensures { Finishes framer.old (W.contents writer.old) (W.contents writer.new) result }
{
    framer.end();
    match framer.fault() {
        None => RunEnd::Done,
        Some(fault) => refuse(&fault, writer),
    }
}

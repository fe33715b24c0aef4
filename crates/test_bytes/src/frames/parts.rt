//! Answers rows about frames that are complete in memory.

use crate::shown::displayed;
use envelope::{Call, FrameFault, Reply, ReplyFault, Taken, TakenReply, take_frame, take_reply};
use std::alloc::Global;
use std::str;
use test_kit::{RowFault, bytes_of, bytes_text, put_part};

/// The side of a connection whose frames a row has: a client sends calls, and the server sends replies.
#[derive(Clone, Copy)]
pub(crate) enum FrameKind {
    Calls,
    Replies,
}

// The beginning of bytes, as a text: nothing, a fault, or a frame and its size in bytes.
#[derive(Drop)]
enum Part {
    Nothing,
    Fault(String),
    Frame(String, usize),
}

/// Returns the frames in the row's bytes, one after the other. After them comes the fault, or `nothing` if
/// all bytes are frames.
pub(crate) fn parts_answer(
    alloc: Global,
    kind: FrameKind,
    notation: &str,
) -> Result<String, RowFault> {
    let bytes = bytes_of(alloc, notation)?;
    let mut out = String::new(alloc);
    let mut at: usize = 0;
    for _ in 0..=bytes.len() {
        let rest = bytes.get(at..).ok_or(RowFault::NotRow)?;
        match part_of(alloc, kind, rest, at as u64)? {
            Part::Nothing => {
                put_part(&mut out, "nothing")?;
                break;
            }
            Part::Fault(text) => {
                put_part(&mut out, &text)?;
                break;
            }
            Part::Frame(text, size) => {
                put_part(&mut out, &text)?;
                at = at.saturating_add(size);
            }
        }
    }
    Ok(out)
}

/// Cuts a frame to each of its proper prefixes that are not empty. Returns two numbers, such as `4 of 4`. The
/// first number counts the prefixes whose fault is that the input ends early, at the length of the prefix.
/// The second number counts all prefixes.
pub(crate) fn prefixes_answer(
    alloc: Global,
    kind: FrameKind,
    notation: &str,
) -> Result<String, RowFault> {
    let bytes = bytes_of(alloc, notation)?;
    let mut count: usize = 0;
    for size in 1..bytes.len() {
        let prefix = bytes.get(..size).ok_or(RowFault::NotRow)?;
        if ends_early(alloc, kind, prefix)? {
            count = count.saturating_add(1);
        }
    }
    Ok(format!(in alloc; "{count} of {}", bytes.len().saturating_sub(1))?)
}

fn ends_early(alloc: Global, kind: FrameKind, prefix: &[u8]) -> Result<bool, RowFault> {
    let early = format!(in alloc; "end of input at byte {}", prefix.len())?;
    match part_of(alloc, kind, prefix, 0)? {
        Part::Fault(text) => Ok(text == early),
        Part::Nothing | Part::Frame(..) => Ok(false),
    }
}

// Returns the first frame or fault of bytes. The bytes begin at the offset `from` of a stream.
fn part_of(alloc: Global, kind: FrameKind, bytes: &[u8], from: u64) -> Result<Part, RowFault> {
    match kind {
        FrameKind::Calls => call_part(alloc, bytes, from),
        FrameKind::Replies => reply_part(alloc, bytes, from),
    }
}

fn call_part(alloc: Global, bytes: &[u8], from: u64) -> Result<Part, RowFault> {
    Ok(match take_frame(bytes) {
        Taken::Nothing => Part::Nothing,
        Taken::Fault(fault) => Part::Fault(call_fault_text(alloc, fault, from)?),
        Taken::Frame(call, size) => Part::Frame(call_text(alloc, call)?, size),
    })
}

fn reply_part(alloc: Global, bytes: &[u8], from: u64) -> Result<Part, RowFault> {
    Ok(match take_reply(bytes) {
        TakenReply::Nothing => Part::Nothing,
        TakenReply::Fault(fault) => Part::Fault(reply_fault_text(alloc, fault, from)?),
        TakenReply::Frame(reply, size) => Part::Frame(reply_text(alloc, reply)?, size),
    })
}

/// Returns the text of a fault in a stream of calls. The fault was found in bytes that begin at the offset
/// `from` of the stream. The text has the place of the fault in the stream.
pub(crate) fn call_fault_text(
    alloc: Global,
    fault: FrameFault,
    from: u64,
) -> Result<String, RowFault> {
    let placed = FrameFault {
        why: fault.why,
        at: from.saturating_add(fault.at),
    };
    displayed(alloc, &placed)
}

/// Returns the text of a fault in a stream of replies. The fault was found in bytes that begin at the offset
/// `from` of the stream. The text has the place of the fault in the stream.
pub(crate) fn reply_fault_text(
    alloc: Global,
    fault: ReplyFault,
    from: u64,
) -> Result<String, RowFault> {
    let placed = ReplyFault {
        why: fault.why,
        at: from.saturating_add(fault.at),
    };
    displayed(alloc, &placed)
}

/// Returns a call as a text: its path, and the bytes of its message.
pub(crate) fn call_text(alloc: Global, call: Call<'_>) -> Result<String, RowFault> {
    let path = text_of(call.path)?;
    let message = bytes_text(alloc, call.message)?;
    Ok(format!(in alloc; "{path} {message}")?)
}

/// Returns a reply as a text: its status, its text, and the bytes of its body. An empty text is `-`, and a
/// text of more than 64 bytes is `long`.
pub(crate) fn reply_text(alloc: Global, reply: Reply<'_>) -> Result<String, RowFault> {
    let text = match reply.text.len() {
        0 => "-",
        length if length > 64 => "long",
        _ => text_of(reply.text)?,
    };
    let body = bytes_text(alloc, reply.body)?;
    Ok(format!(in alloc; "{} {text} {body}", reply.status)?)
}

/// Returns the bytes as a UTF-8 text.
///
/// # Errors
///
/// `NotBytes` if the bytes are not UTF-8.
pub(crate) fn text_of(bytes: &[u8]) -> Result<&str, RowFault> {
    match str::from_utf8(bytes) {
        Ok(text) => Ok(text),
        Err(_) => Err(RowFault::NotBytes),
    }
}

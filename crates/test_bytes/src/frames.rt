//! Answers rows about frames of calls and of replies.

ghost use Rattle.std.specs.Prelude.{IsTrue};
ghost use Rattle.std.specs.List.{All};
ghost use Rattle.envelope.specs.Envelope.{IsCall, IsPathByte};

mod framer;
mod parts;
mod pieces;
mod spelled;

use crate::words::first_word;
use envelope::{MAX_MESSAGE_BYTES, MAX_PATH_BYTES, Taken, put_request, take_frame};
use parts::{FrameKind, parts_answer, prefixes_answer};
use pieces::{pieces_answer, steps_answer};
use spelled::{head_answer, limits_answer, refusal_answer, texts_answer};
use std::alloc::Global;
use test_kit::{RowFault, bytes_of, bytes_text};

/// Answers a row about frames. The first word names the question, such as `calls` or `head`, and the rest of
/// the row is its arguments.
///
/// # Errors
///
/// If the row has no such form, or memory is refused.
pub(crate) fn answer(alloc: Global, row: &str) -> Result<String, RowFault> {
    let (word, rest) = first_word(row)?;
    match word {
        "request" => request_answer(alloc, rest),
        "replies" => parts_answer(alloc, FrameKind::Replies, rest),
        "prefixes" => prefixes_answer(alloc, FrameKind::Replies, rest),
        "pieces" => pieces_answer(alloc, FrameKind::Replies, rest),
        "steps" => steps_answer(alloc, FrameKind::Replies, rest),
        "calls" => parts_answer(alloc, FrameKind::Calls, rest),
        "call_prefixes" => prefixes_answer(alloc, FrameKind::Calls, rest),
        "call_pieces" => pieces_answer(alloc, FrameKind::Calls, rest),
        "call_steps" => steps_answer(alloc, FrameKind::Calls, rest),
        "head" => head_answer(alloc, rest),
        "refusal" => refusal_answer(alloc, rest),
        "texts" => texts_answer(alloc, rest),
        "limits" => limits_answer(alloc),
        _ => Err(RowFault::NotRow),
    }
}

// Returns the frame of a call, and `read back` if reading the frame gives the same call, otherwise `not read
// back`.
fn request_answer(alloc: Global, rest: &str) -> Result<String, RowFault> {
    let (path, notation) = first_word(rest)?;
    let message = bytes_of(alloc, notation)?;
    framed(alloc, path.as_bytes(), &message)
}

fn framed(alloc: Global, path: &[u8], message: &[u8]) -> Result<String, RowFault> {
    if !has_frame(path, message) {
        return Err(RowFault::NotRow);
    }
    let mut frame = Vec::new(alloc);
    put_request(&mut frame, path, message)?;
    frame_text(alloc, &frame, reads_back(&frame, path, message))
}

fn frame_text(alloc: Global, frame: &[u8], is_read: bool) -> Result<String, RowFault> {
    let read = if is_read {
        "read back"
    } else {
        "not read back"
    };
    Ok(format!(in alloc; "{}, {read}", bytes_text(alloc, frame)?)?)
}

// Returns true if a call with this path and message can be put in a frame.
fn has_frame(path: &[u8], message: &[u8]) -> bool
    ensures { IsTrue result → IsCall (record { path = path.now; message = message.now }) }
{
    let is_short = path.len() <= MAX_PATH_BYTES && message.len() <= MAX_MESSAGE_BYTES;
    !path.is_empty() && is_short && are_path_bytes(path)
}

fn are_path_bytes(path: &[u8]) -> bool
    ensures { IsTrue result → All IsPathByte path.now }
{
    path.iter().all(|&byte| 33 <= byte && byte <= 126)
}

fn reads_back(frame: &[u8], path: &[u8], message: &[u8]) -> bool {
    match take_frame(frame) {
        Taken::Frame(call, size) => {
            call.path == path && call.message == message && size == frame.len()
        }
        Taken::Nothing | Taken::Fault(_) => false,
    }
}

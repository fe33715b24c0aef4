//! Answers rows about a stream of calls or of replies that comes in pieces.

use super::framer::AnyFramer;
use super::parts::FrameKind;
use crate::shown::displayed;
use crate::words::first_word;
use std::alloc::Global;
use test_kit::{RowFault, bytes_of, number_of, put_part};

/// Returns the frames of a stream that comes in pieces. The row gives the size of the pieces. After the
/// frames comes the fault, or `nothing` if the stream has no fault.
pub(crate) fn pieces_answer(
    alloc: Global,
    kind: FrameKind,
    rest: &str,
) -> Result<String, RowFault> {
    let (size, notation) = first_word(rest)?;
    let size: usize = number_of(size)?;
    if size == 0 {
        return Err(RowFault::NotRow);
    }
    let bytes = bytes_of(alloc, notation)?;
    let mut framer = AnyFramer::new(alloc, kind)?;
    let mut out = String::new(alloc);
    for piece in bytes.chunks(size) {
        feed_all(alloc, &mut framer, piece, &mut out)?;
    }
    framer.end();
    put_end(alloc, &framer, &mut out)?;
    Ok(out)
}

// Feeds a piece to the framer, and appends to `out` each frame that the piece completes.
fn feed_all(
    alloc: Global,
    framer: &mut AnyFramer,
    piece: &[u8],
    out: &mut String,
) -> Result<(), RowFault> {
    let mut at: usize = 0;
    for _ in 0..=piece.len() {
        let rest = piece.get(at..).ok_or(RowFault::NotRow)?;
        if rest.is_empty() {
            break;
        }
        at = at.saturating_add(framer.feed(rest)?);
        if let Some(text) = framer.frame_text(alloc)? {
            put_part(out, &text)?;
        }
        framer.next_frame();
    }
    Ok(())
}

// Appends the state of a framer at the end of the input.
fn put_end(alloc: Global, framer: &AnyFramer, out: &mut String) -> Result<(), RowFault> {
    match framer.fault_text(alloc)? {
        Some(text) => put_part(out, &text),
        None => put_part(out, "nothing"),
    }
}

/// Returns the results of the steps of a framer. A step is `next`, `end`, or bytes to feed. The result of
/// feeding is the number of bytes that the framer took. After the last step come the number of bytes taken in
/// all, and the complete frame, the fault or `nothing`.
pub(crate) fn steps_answer(
    alloc: Global,
    kind: FrameKind,
    steps: &str,
) -> Result<String, RowFault> {
    let mut framer = AnyFramer::new(alloc, kind)?;
    let mut out = String::new(alloc);
    for step in steps.split(' ') {
        match step {
            "next" => framer.next_frame(),
            "end" => framer.end(),
            notation => {
                let count = framer.feed(&bytes_of(alloc, notation)?)?;
                put_part(&mut out, &displayed(alloc, &count)?)?;
            }
        }
    }
    put_part(&mut out, &format!(in alloc; "of {}", framer.taken())?)?;
    match framer.frame_text(alloc)? {
        Some(text) => put_part(&mut out, &text)?,
        None => put_end(alloc, &framer, &mut out)?,
    }
    Ok(out)
}

//! Compares the outcome of a run with the wanted outcome.

use csi_server::RunEnd;
use std::alloc::{AllocError, Global};
use test_kit::RowFault;

/// The way in which a run should end.
#[derive(Clone, Copy)]
pub(crate) enum End<'a> {
    Done,
    /// The run ends at a fault in the stream. The value is the text of the fault.
    StreamFault(&'a str),
    ReadFailed,
    WriteFailed,
}

/// The wanted outcome of a run: how it ends, the bytes that it writes, and the State after it.
#[derive(Clone, Copy)]
pub(crate) struct Wanted<'a> {
    pub(crate) end: End<'a>,
    /// The complete replies, which the run writes first.
    pub(crate) replies: &'a [u8],
    /// The bytes that the run writes after the complete replies: the answer to a fault, the beginning of a
    /// reply, or no bytes.
    pub(crate) last: &'a [u8],
    /// The State of the keeper after the run, as a text.
    pub(crate) kept: &'a str,
}

/// The outcome of a run: how it ended, the bytes that it wrote, and the State after it.
#[derive(Drop)]
pub(crate) struct Served {
    pub(crate) end: RunEnd,
    pub(crate) written: Vec<u8>,
    /// The State of the keeper after the run, as a text.
    pub(crate) kept: String,
}

/// The name of a trial in a report: words, and the number of the byte, call or write at which this trial
/// differs from the other trials.
#[derive(Clone, Copy)]
pub(crate) struct Trial {
    pub(crate) name: &'static str,
    pub(crate) number: u64,
}

/// Compares the outcome of a trial with the wanted outcome.
///
/// # Errors
///
/// If the outcomes differ, or memory is refused.
pub(crate) fn compare(
    alloc: Global,
    trial: Trial,
    came: &Served,
    wanted: &Wanted<'_>,
) -> Result<(), RowFault> {
    let is_kept = came.kept.as_str() == wanted.kept;
    if is_end(alloc, came.end, wanted.end)? && is_written(came, wanted) && is_kept {
        return Ok(());
    }
    Err(RowFault::Differs(reported(alloc, trial, came)?))
}

// Describes the outcome of a trial as a text.
fn reported(alloc: Global, trial: Trial, came: &Served) -> Result<String, AllocError> {
    let written = hex::encode(alloc, &came.written)?;
    format!(in alloc;
        "{} {}: {:?} {written} {}",
        trial.name, trial.number, came.end, came.kept
    )
}

fn is_written(came: &Served, wanted: &Wanted<'_>) -> bool {
    match came.written.strip_prefix(wanted.replies) {
        Some(last) => last == wanted.last,
        None => false,
    }
}

fn is_end(alloc: Global, end: RunEnd, wanted: End<'_>) -> Result<bool, AllocError> {
    match (end, wanted) {
        (RunEnd::Done, End::Done) => Ok(true),
        (RunEnd::ReadFailed, End::ReadFailed) => Ok(true),
        (RunEnd::WriteFailed, End::WriteFailed) => Ok(true),
        (RunEnd::Malformed(fault), End::StreamFault(text)) => {
            Ok(format!(in alloc; "{fault}")?.as_str() == text)
        }
        _ => Ok(false),
    }
}

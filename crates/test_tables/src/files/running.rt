//! Makes runs of `csi_files` over files.

use csi_adoption::Content;
use csi_config::Config;
use csi_files::{Observer, Refusal, Run, RunFailure, RunOptions, RunReport};
use csi_server::RunEnd;
use sqlite::{Error, Options};
use sqlite_disk::{Disk, Files};
use std::alloc::{AllocError, Global};
use test_kit::RowFault;

// The seed of the salts in the log. No answer depends on the seed.
const SEED: u64 = 7;

// An observer that reports nothing.
struct Unheard;

impl Observer for Unheard {
    fn made(&self) {}

    fn adopted(&self, _content: &Content) {}

    fn uncopied(&self) {}

    fn refused(&self, _cause: &Error) {}

    // The test rows refuse memory in another way, so there is always room.
    fn has_room(&self, _opening: usize) -> bool {
        true
    }
}

fn end_word(end: RunEnd) -> &'static str {
    match end {
        RunEnd::Done => "done",
        RunEnd::Malformed(_) => "malformed",
        RunEnd::ReadFailed => "read failed",
        RunEnd::TurnsSpent => "turns spent",
        RunEnd::WriteFailed => "write failed",
        RunEnd::NoMemory => "no memory",
    }
}

// Returns the report of a run as a text.
fn report_text(alloc: Global, word: &str, report: &RunReport) -> Result<String, AllocError> {
    let end = end_word(report.end);
    let made = if report.is_new { ", made" } else { "" };
    let copied = if report.is_copied { ", copied" } else { "" };
    let down = if report.is_down { ", down" } else { "" };
    format!(in alloc;
        "{word}, {end}{made}{copied}{down}, {} refused",
        report.refusals
    )
}

// Returns the reason why a database was refused as a text.
fn refusal_text(alloc: Global, refusal: &Refusal) -> Result<String, AllocError> {
    match refusal {
        Refusal::Blank => String::from_str(alloc, "blank"),
        Refusal::NotAdopted(fault) => format!(in alloc; "not adopted: {fault}"),
        Refusal::NotCopied(_) => String::from_str(alloc, "not copied"),
    }
}

// Returns the failure of a run as a text: the reason why no call was served, or the report of the calls if
// the files were not closed after them.
fn failure_text<D: Disk + Drop>(
    alloc: Global,
    failure: &RunFailure<D>,
) -> Result<String, AllocError> {
    match failure {
        RunFailure::NoFiles(error) => format!(in alloc; "no files: {error}"),
        RunFailure::NotOpened(error, _) => format!(in alloc; "not opened: {error}"),
        RunFailure::Refused(refusal, _) => refusal_text(alloc, refusal),
        RunFailure::Left(report, _) => report_text(alloc, "left", report),
        RunFailure::NotClosed(report, _, _) => report_text(alloc, "not closed", report),
    }
}

/// Serves calls over files with `csi_files`. Returns the outcome as a text, and the files after the run.
///
/// # Errors
///
/// If the run does not return the files.
pub(crate) fn served_by<D: Disk + Drop>(
    alloc: Global,
    config: &Config,
    files: Files<D>,
    is_low_memory: bool,
    calls: &[u8],
    replies: &mut Vec<u8>,
) -> Result<(Result<String, AllocError>, Files<D>), RowFault> {
    if !files.may_be_used() {
        return Ok((String::from_str(alloc, "not usable"), files));
    }
    let run = Run {
        alloc,
        config,
        options: RunOptions {
            is_existing: false,
            is_low_memory,
            reserve: 1 << 20,
        },
        observer: &Unheard,
    };
    let mut reader = calls;
    match run.create_and_serve(files, Options::new(SEED), &mut reader, replies) {
        Ok(closed) => Ok((report_text(alloc, "closed", &closed.report), closed.files)),
        Err(failure) => {
            let text = failure_text(alloc, &failure);
            let files = failure.into_files().ok_or(RowFault::NotRow)?;
            Ok((text, files))
        }
    }
}

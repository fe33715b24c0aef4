//! Makes the runs of a call in which the disk stops, at each call of the disk in turn.

use super::disks::{Stop, Which, are_same};
use super::runs::{Came, Found, Left, Wanted};
use super::troubled::Trouble;
use crate::files::disks::TestDisk;
use sqlite_disk::{Files, Memory};
use std::fmt;
use test_kit::RowFault;

// A number above the number of calls of the disk in a run of any test row.
const MOST_CALLS: u64 = 1_000_000;

/// The outcomes that at least one run of a test row had. The next start found the State before the call, it
/// found the State that the call leaves, or the call was answered.
#[derive(Clone, Copy)]
pub(crate) struct Seen {
    before: bool,
    after: bool,
    answered: bool,
}

impl Seen {
    fn note(&mut self, came: Came) {
        self.before |= came.is_before;
        self.after |= came.is_after;
        self.answered |= came.is_answered;
    }
}

fn word(seen: bool) -> &'static str {
    if seen { "some" } else { "none" }
}

impl fmt::Display for Seen {
    fn fmt<W: fmt::Write>(&self, f: &mut fmt::Formatter<W>) -> fmt::Result {
        let before = word(self.before);
        let after = word(self.after);
        let answered = word(self.answered);
        write!(
            f,
            "{before} left before, {after} left after, {answered} answered"
        )
    }
}

/// The part of a run in which the disk stops or has a trouble. One of the ways also stops the disk in the
/// next start. All runs of one test row have the same `Way`.
#[derive(Clone, Copy)]
pub(crate) enum Way {
    /// The disk stops at any time from the opening to the end of the call. The next start does not stop.
    Once,
    /// The disk stops at any time from the opening to the end of the call. The next start also stops, after
    /// the same number of calls of the disk.
    Twice,
    /// The disk stops at any time from the opening to the close of the connection after the call. The next
    /// start does not stop.
    Closing,
    /// The disk has this trouble at any time in a run of `csi_files`, from the opening to the close.
    Running(Trouble),
}

impl Way {
    fn trouble(self) -> Option<Trouble> {
        match self {
            Way::Once | Way::Twice | Way::Closing => None,
            Way::Running(trouble) => Some(trouble),
        }
    }
}

/// The runs of a call with stops, and the outcomes of the runs that were made.
#[derive(Drop)]
pub(crate) struct Trials<'a> {
    wanted: Wanted<'a>,
    // The number of calls of the disk by which each run stops later than the run before.
    step: u64,
    way: Way,
    // The last files that a run left, with their outcome. Files with the same bytes as the last files are not
    // opened again. This is often so, since most calls of a disk are reads.
    found: Option<Found>,
    seen: Seen,
}

impl<'a> Trials<'a> {
    /// Makes the trials of a test row, before the first run.
    pub(crate) fn new(wanted: Wanted<'a>, step: u64, way: Way) -> Trials<'a> {
        Trials {
            wanted,
            step,
            way,
            found: None,
            seen: Seen {
                before: false,
                after: false,
                answered: false,
            },
        }
    }

    /// Makes all runs, and returns their outcomes. The first run stops at the first call of the disk. Each
    /// later run stops `step` calls later than the run before it, until a run does not stop. First the log
    /// stops, then the database file, then both. For each of these, unsynchronised writes are first kept and
    /// then lost.
    ///
    /// # Errors
    ///
    /// Returns [`RowFault::Differs`] for the first stop after which the reply or the State is not allowed.
    /// Fails too if memory is refused, or if the disk stops in each of a million runs.
    pub(crate) fn all<D: TestDisk>(mut self) -> Result<Seen, RowFault> {
        for which in [Which::Log, Which::Database, Which::Both] {
            self.stops_of::<D>(which, false)?;
            self.stops_of::<D>(which, true)?;
        }
        Ok(self.seen)
    }

    // Makes runs, each of which stops later than the run before, until a run does not stop.
    fn stops_of<D: TestDisk>(&mut self, which: Which, loses: bool) -> Result<(), RowFault> {
        let closes = matches!(self.way, Way::Closing);
        let mut calls: u64 = 0;
        for _ in 0..MOST_CALLS {
            let stop = Stop {
                which,
                calls,
                closes,
                loses,
                trouble: self.way.trouble(),
            };
            if !self.stop::<D>(stop)? {
                return Ok(());
            }
            calls = calls.saturating_add(self.step);
        }
        Err(RowFault::NotRow)
    }

    // Returns the files after a second start that stops, or the given files if the way has no such start.
    fn left_again<D: TestDisk>(
        &self,
        files: Files<Memory>,
        stop: Stop,
    ) -> Result<Files<Memory>, RowFault> {
        match self.way {
            Way::Twice => Ok(self.wanted.run::<D>(&files, stop)?.files),
            Way::Once | Way::Closing | Way::Running(_) => Ok(files),
        }
    }

    // Makes one run. Returns true if the disk stopped in the run.
    fn stop<D: TestDisk>(&mut self, stop: Stop) -> Result<bool, RowFault> {
        let Left {
            is_stopped,
            reply,
            files,
        } = self.wanted.run::<D>(self.wanted.files, stop)?;
        self.find::<D>(stop, files)?;
        self.judge(stop, is_stopped, &reply)?;
        Ok(is_stopped)
    }

    // Finds the outcome of the next start over files. If the last files had the same bytes, keeps their
    // outcome.
    fn find<D: TestDisk>(&mut self, stop: Stop, files: Files<Memory>) -> Result<(), RowFault> {
        let files = self.left_again::<D>(files, stop)?;
        if !self.is_found(&files) {
            self.found = Some(self.wanted.find::<D>(stop, files)?);
        }
        Ok(())
    }

    fn is_found(&self, files: &Files<Memory>) -> bool {
        match &self.found {
            Some(found) => are_same(&found.files, files),
            None => false,
        }
    }

    fn judge(&mut self, stop: Stop, is_stopped: bool, reply: &[u8]) -> Result<(), RowFault> {
        let found = self.found.as_ref().ok_or(RowFault::NotRow)?;
        let came = self.wanted.judge(stop, is_stopped, reply, &found.outcome)?;
        self.seen.note(came);
        Ok(())
    }
}

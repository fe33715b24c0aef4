//! Makes one run over files that stop, and finds the State of the files at the next start.

use super::disks::{Stop, copies, has_stopped, left_of};
use super::serving::{Outcome, outcome_of, serve_files, unlike};
use super::troubled::{Trouble, have_failed, lying, troubled};
use crate::files::disks::TestDisk;
use crate::files::running::served_by;
use csi_config::Config;
use sqlite_disk::{Files, Memory};
use std::alloc::{AllocError, Global};
use test_kit::RowFault;

// The status code of a reply to a call in which the store failed.
const INTERNAL: u8 = 13;

/// A call, the files before the call, and the outcome of the call if no file stops.
#[derive(Clone, Copy)]
pub(crate) struct Wanted<'a> {
    pub(crate) alloc: Global,
    pub(crate) config: &'a Config,
    /// The files as they are before the call.
    pub(crate) files: &'a Files<Memory>,
    /// True if a database was made in the files.
    pub(crate) is_made: bool,
    pub(crate) call: &'a [u8],
    /// The reply to the call, and the States before and after the call, if no file stops.
    pub(crate) whole: &'a Outcome,
}

/// The reply and the files of a run with a stop.
#[derive(Drop)]
pub(crate) struct Left {
    /// True if the disk stopped in the run.
    pub(crate) is_stopped: bool,
    pub(crate) reply: Vec<u8>,
    pub(crate) files: Files<Memory>,
}

/// The State that the next start finds in the files, and the reply if the same call is made again after this
/// start.
#[derive(Drop)]
pub(crate) struct Found {
    pub(crate) files: Files<Memory>,
    pub(crate) outcome: Outcome,
}

/// The outcome of a run with a stop, compared with a run without a stop.
#[derive(Clone, Copy)]
pub(crate) struct Came {
    /// True if the call got the same reply as without a stop, and the reply is not empty.
    pub(crate) is_answered: bool,
    /// True if the next start found the State that the files had before the call.
    pub(crate) is_before: bool,
    /// True if the next start found the State that the call leaves if no file stops.
    pub(crate) is_after: bool,
}

impl Wanted<'_> {
    /// Makes the call over copies of files with this stop, and returns the reply and the files after the run.
    pub(crate) fn run<D: TestDisk>(
        &self,
        files: &Files<Memory>,
        stop: Stop,
    ) -> Result<Left, RowFault> {
        match stop.trouble {
            Some(trouble) => self.run_troubled::<D>(files, stop, trouble),
            None => self.run_stopping::<D>(files, stop),
        }
    }

    // Makes the call in a run of `csi_files` over copies of files with a trouble.
    fn run_troubled<D: TestDisk>(
        &self,
        files: &Files<Memory>,
        stop: Stop,
        trouble: Trouble,
    ) -> Result<Left, RowFault> {
        let disks = troubled::<D>(self.alloc, files, stop, trouble)?;
        let mut reply = Vec::new(self.alloc);
        let (_, mut disks) = served_by(
            self.alloc,
            self.config,
            disks,
            false,
            self.call,
            &mut reply,
        )?;
        Ok(Left {
            is_stopped: have_failed(&mut disks),
            reply,
            files: left_of(self.alloc, &mut disks, stop.loses)?,
        })
    }

    // Checks that the next run of `csi_files` over the files gives the same reply to the call as a run
    // without a stop.
    fn runs_again<D: TestDisk>(&self, stop: Stop, files: &Files<Memory>) -> Result<(), RowFault> {
        let mut reply = Vec::new(self.alloc);
        let (outcome, _) = self.serve::<D>(files, self.call, &mut reply)?;
        if outcome.starts_with("closed, done") && reply == self.whole.replies {
            return Ok(());
        }
        Err(unlike(self.alloc, &stop, &outcome))
    }

    // Serves calls with `csi_files` over copies of files. Returns the outcome, and the files after the run.
    fn serve<D: TestDisk>(
        &self,
        files: &Files<Memory>,
        calls: &[u8],
        replies: &mut Vec<u8>,
    ) -> Result<(String, Files<Memory>), RowFault> {
        let disks = lying::<D>(self.alloc, files, None)?;
        let (outcome, mut disks) = served_by(self.alloc, self.config, disks, true, calls, replies)?;
        Ok((outcome?, left_of(self.alloc, &mut disks, false)?))
    }

    fn run_stopping<D: TestDisk>(
        &self,
        files: &Files<Memory>,
        stop: Stop,
    ) -> Result<Left, RowFault> {
        let disks = copies::<D>(self.alloc, files, stop.calls_of_each())?;
        let mut reply = Vec::new(self.alloc);
        let mut disks = serve_files(
            self.alloc,
            self.config,
            disks,
            self.call,
            &mut reply,
            stop.closes,
        );
        Ok(Left {
            is_stopped: has_stopped(&mut disks),
            reply,
            files: left_of(self.alloc, &mut disks, stop.loses)?,
        })
    }

    // Returns the outcome of the next start after a run of `csi_files` with a trouble.
    fn find_after_trouble<D: TestDisk>(
        &self,
        stop: Stop,
        files: &Files<Memory>,
    ) -> Result<Outcome, RowFault> {
        self.runs_again::<D>(stop, files)?;
        if self.is_made {
            return outcome_of::<D>(self.alloc, self.config, files, self.call);
        }
        // A stop may have left a part of the first page, and only a run of `csi_files` completes it.
        let (_, opened) = self.serve::<D>(files, b"", &mut Vec::new(self.alloc))?;
        outcome_of::<D>(self.alloc, self.config, &opened, self.call)
    }

    /// Starts again over the files that a stop left, and makes the same call. Returns the outcome. Fails with
    /// [`RowFault::Differs`] if the files cannot be opened, if the tables are not adopted, or if a run of
    /// `csi_files` after a trouble gives another reply.
    pub(crate) fn find<D: TestDisk>(
        &self,
        stop: Stop,
        files: Files<Memory>,
    ) -> Result<Found, RowFault> {
        let outcome = match stop.trouble {
            Some(_) => self.find_after_trouble::<D>(stop, &files),
            None => outcome_of::<D>(self.alloc, self.config, &files, self.call),
        };
        match outcome {
            Ok(outcome) => Ok(Found { files, outcome }),
            Err(fault) => Err(unlike(self.alloc, &stop, &fault)),
        }
    }

    /// Compares the reply and the State after a run with the reply and the State of a run without a stop.
    /// These rules must hold:
    ///
    /// - The reply is empty, the reply of a run without a stop, or a refusal with the status INTERNAL. If no
    ///   file stopped, it is the reply of a run without a stop.
    /// - If the call was answered as without a stop, or if no file stopped, the next start finds the State
    ///   after the call. Otherwise it finds the State before or after the call.
    /// - The same call, made again, gets the reply and leaves the State of a run without a stop.
    ///
    /// # Errors
    ///
    /// [`RowFault::Differs`] if one of the rules does not hold, or [`RowFault::NoMemory`] if memory is
    /// refused.
    pub(crate) fn judge(
        &self,
        stop: Stop,
        is_stopped: bool,
        reply: &[u8],
        found: &Outcome,
    ) -> Result<Came, RowFault> {
        let wanted = self.whole.replies.as_slice();
        let is_done = reply == wanted;
        let came = Came {
            is_answered: is_done && !wanted.is_empty(),
            is_before: found.before == self.whole.before,
            is_after: found.before == self.whole.after,
        };
        let is_allowed = if came.is_answered || !is_stopped {
            is_done && came.is_after
        } else {
            came.is_before || came.is_after
        };
        if is_allowed && self.is_reply(reply) && self.is_done_again(found) {
            return Ok(came);
        }
        Err(self.unlike(stop, reply, found)?)
    }

    // Returns true if a reply is empty, the same as without a stop, or the error of a store that failed.
    fn is_reply(&self, reply: &[u8]) -> bool {
        reply.is_empty()
            || reply == self.whole.replies.as_slice()
            || reply.first() == Some(&INTERNAL)
    }

    fn is_done_again(&self, found: &Outcome) -> bool {
        found.replies == self.whole.replies && found.after == self.whole.after
    }

    fn unlike(&self, stop: Stop, reply: &[u8], found: &Outcome) -> Result<RowFault, AllocError> {
        let reply = hex::encode(self.alloc, reply)?;
        let again = hex::encode(self.alloc, &found.replies)?;
        Ok(RowFault::Differs(format!(in self.alloc;
            "{stop}: answered {reply}, found {}, then answered {again}, found {}",
            found.before, found.after
        )?))
    }
}

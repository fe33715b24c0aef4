//! Makes a call many times over the tables in two files. Each time the disk stops later. The State that the
//! next start finds is compared with the State of a run without a stop.

mod disks;
mod runs;
mod serving;
mod trials;
mod troubled;

use crate::files::disks::{Lie, TestDisk};
use crate::files::laying::holding;
use crate::files::running::served_by;
use csi_config::Config;
use disks::{NEVER, copies, left_of, new_disks, new_files};
use runs::Wanted;
use serving::{Outcome, left_by, outcome_of};
use sqlite_disk::{Files, Memory};
use std::alloc::Global;
use std::marker::PhantomData;
use test_kit::{AnswerRow, RowAnswer, RowFault, bytes_of, number_at};
use trials::{Trials, Way};
use troubled::{Trouble, lying};

/// The way in which a run leaves the files of a database.
#[derive(Clone, Copy)]
pub(crate) enum Ending {
    /// The connection is closed, so the database file is complete without the WAL.
    Closed,
    /// The connection is not closed, so the committed changes are only in the WAL.
    Open,
    /// The tables are set to format 1, and the connection is closed.
    Older,
}

/// The state that is kept between test rows: the sample configuration, and the two files of a database.
#[derive(Drop)]
pub(crate) struct Bench<D> {
    config: Config,
    files: Files<Memory>,
    // True if a database was made in the files.
    is_made: bool,
    of: PhantomData<D>,
}

impl<D: TestDisk> Bench<D> {
    /// Makes the state over new, empty files.
    pub(crate) fn new(alloc: Global) -> Result<Bench<D>, RowFault> {
        Ok(Bench {
            config: Config::sample(alloc)?,
            files: new_files(alloc),
            is_made: false,
            of: PhantomData,
        })
    }

    /// Serves calls with `csi_files` over copies of the files, and returns the outcome as a text. Without a
    /// `lie`, the copies then replace the files. With a `lie`, the copy of the database file has a wrong
    /// byte, and the files stay unchanged.
    pub(crate) fn serve(
        &mut self,
        alloc: Global,
        calls: &[u8],
        is_low_memory: bool,
        lie: Option<Lie>,
        replies: &mut Vec<u8>,
    ) -> Result<String, RowFault> {
        let disks = lying::<D>(alloc, &self.files, lie)?;
        let (outcome, mut disks) = served_by(
            alloc,
            &self.config,
            disks,
            is_low_memory,
            calls,
            replies,
        )?;
        if lie.is_none() {
            self.files = left_of(alloc, &mut disks, false)?;
            self.is_made = true;
        }
        Ok(outcome?)
    }

    /// Returns the offset of the first occurrence of a text in the database file, or fails with
    /// [`RowFault::NotRow`] if the text does not occur.
    pub(crate) fn place_of(&self, text: &[u8]) -> Result<usize, RowFault> {
        let bytes = self.files.db.bytes();
        for at in 0..bytes.len() {
            if bytes[at..].starts_with(text) {
                return Ok(at);
            }
        }
        Err(RowFault::NotRow)
    }

    /// Answers a test row. Its first word names what is done with the files.
    ///
    /// # Errors
    ///
    /// If the row has no such form, a run leaves a State that is not allowed, or memory is refused.
    pub(crate) fn answer(&mut self, alloc: Global, row: &str) -> Result<String, RowFault> {
        let (word, rest) = row.split_once(' ').ok_or(RowFault::NotRow)?;
        match word {
            "begin" => self.begin(alloc, rest, Ending::Closed),
            "begun" => self.begin(alloc, rest, Ending::Open),
            "older" => self.begin(alloc, rest, Ending::Older),
            "stops" => self.stop(alloc, rest, Way::Once),
            "twice" => self.stop(alloc, rest, Way::Twice),
            "closes" => self.stop(alloc, rest, Way::Closing),
            "files" => self.set_files(alloc, rest),
            "freezes" => self.stop(alloc, rest, Way::Running(Trouble::Freezes)),
            "fills" => self.stop(alloc, rest, Way::Running(Trouble::Fills)),
            "new" => {
                self.set_files(alloc, "-")?;
                self.stop(alloc, rest, Way::Once)
            }
            _ => Err(RowFault::NotRow),
        }
    }

    // Replaces the files by an empty log and a database file with these bytes, in which no database was made.
    fn set_files(&mut self, alloc: Global, bytes: &str) -> Result<String, RowFault> {
        let bytes = bytes_of(alloc, bytes)?;
        self.files = Files {
            log: Memory::new(alloc),
            db: holding(alloc, &bytes)?,
        };
        self.is_made = false;
        Ok(format!(in alloc; "{} bytes", bytes.len())?)
    }

    // Makes new files with tables, and serves the calls over them. Returns the State after the calls.
    fn begin(&mut self, alloc: Global, calls: &str, ending: Ending) -> Result<String, RowFault> {
        let calls = bytes_of(alloc, calls)?;
        let disks = new_disks::<D>(alloc, NEVER);
        let (made, mut disks) = left_by(alloc, &self.config, disks, &calls, ending)?;
        self.files = left_of(alloc, &mut disks, false)?;
        self.is_made = true;
        Ok(made.after)
    }

    // Returns the outcome of a call over the files, or over new files if no database was made in the files.
    fn outcome_of(&self, alloc: Global, call: &[u8]) -> Result<Outcome, RowFault> {
        if self.is_made {
            outcome_of::<D>(alloc, &self.config, &self.files, call)
        } else {
            outcome_of::<D>(alloc, &self.config, &new_files(alloc), call)
        }
    }

    // Makes the runs of a call in which the disk stops. The words are a step and the call: the disk stops in
    // each run later than in the run before, by this number of calls of the disk.
    fn stop(&mut self, alloc: Global, words: &str, way: Way) -> Result<String, RowFault> {
        let (step, call) = words.split_once(' ').ok_or(RowFault::NotRow)?;
        let step = number_at(&[step], 0)?;
        let call = bytes_of(alloc, call)?;
        let whole = self.outcome_of(alloc, &call)?;
        let wanted = Wanted {
            alloc,
            config: &self.config,
            files: &self.files,
            is_made: self.is_made,
            call: &call,
            whole: &whole,
        };
        let seen = Trials::new(wanted, step, way).all::<D>()?;
        Ok(format!(in alloc; "{}, {seen}, all allowed", whole.after)?)
    }
}

impl<D: TestDisk> AnswerRow for Bench<D> {
    fn answer_row(&mut self, rt: &HostRuntime, row: &str) -> Result<RowAnswer, RowFault> {
        Ok(RowAnswer::Text(self.answer(rt.alloc(), row)?))
    }
}

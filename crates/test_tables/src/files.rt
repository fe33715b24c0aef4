//! Runs `csi_files` over files in memory: makes databases, and serves calls over disks that stop, are full,
//! or return wrong bytes.

pub(crate) mod disks;
pub(crate) mod laying;
pub(crate) mod running;

use crate::stops;
use disks::{Lie, TestDisk};
use laying::{Laid, lay, lay_each, lay_odd};
use std::alloc::Global;
use test_kit::{
    AnswerRow, RowAnswer, RowFault, bytes_of, bytes_text, number_at, word_at, words_of,
};

/// The state that is kept between test rows: the files that earlier test rows left, and the bytes of a new
/// database file.
#[derive(Drop)]
pub(crate) struct Bench<D> {
    stops: stops::Bench<D>,
    page: Vec<u8>,
}

impl<D: TestDisk> Bench<D> {
    /// Makes the state over new, empty files.
    pub(crate) fn new(alloc: Global) -> Result<Bench<D>, RowFault> {
        Ok(Bench {
            stops: stops::Bench::new(alloc)?,
            page: Vec::new(alloc),
        })
    }

    // Sets the bytes that a new database file must have.
    fn set_page(&mut self, alloc: Global, bytes: &str) -> Result<String, RowFault> {
        self.page = bytes_of(alloc, bytes)?;
        Ok(format!(in alloc; "{} bytes", self.page.len())?)
    }

    // Makes a database over a log and a file with these bytes, and returns the outcome.
    fn lay(&self, alloc: Global, words: &str) -> Result<String, RowFault> {
        let (log, db) = words.split_once(" / ").ok_or(RowFault::NotRow)?;
        let log = bytes_of(alloc, log)?;
        let db = bytes_of(alloc, db)?;
        let mut laid = Laid::none();
        lay(alloc, &self.page, &log, &db, &mut laid)?;
        Ok(format!(in alloc; "{laid}")?)
    }

    // Serves calls over the files. Returns the outcome and the replies.
    fn serve(
        &mut self,
        alloc: Global,
        words: &str,
        is_low_memory: bool,
        lie: Option<Lie>,
    ) -> Result<String, RowFault> {
        let calls = bytes_of(alloc, words)?;
        let mut replies = Vec::new(alloc);
        let outcome = self
            .stops
            .serve(alloc, &calls, is_low_memory, lie, &mut replies)?;
        Ok(format!(in alloc; "{outcome}: {}", bytes_text(alloc, &replies)?)?)
    }

    // Serves calls like `serve`, but each read of one byte of the database file flips some of its bits. The
    // test row gives a text, a distance and the bits. The byte is at this distance after the beginning of the
    // first such text in the file. The files stay unchanged.
    fn lie(&mut self, alloc: Global, row: &str) -> Result<String, RowFault> {
        let (lie, calls) = row.split_once(" / ").ok_or(RowFault::NotRow)?;
        let words = words_of(alloc, lie)?;
        let text = bytes_of(alloc, word_at(&words, 0)?)?;
        let lie = Lie {
            at: self
                .stops
                .place_of(&text)?
                .saturating_add(number_at(&words, 1)?),
            bits: number_at(&words, 2)?,
        };
        self.serve(alloc, calls, true, Some(lie))
    }

    fn answer(&mut self, alloc: Global, row: &str) -> Result<String, RowFault> {
        let (word, rest) = row.split_once(' ').ok_or(RowFault::NotRow)?;
        match word {
            "page" => self.set_page(alloc, rest),
            "lay" => self.lay(alloc, rest),
            "each" => Ok(format!(in alloc;
                "{}",
                lay_each(alloc, &self.page, &bytes_of(alloc, rest)?)?
            )?),
            "odd" => Ok(format!(in alloc;
                "{}",
                lay_odd(alloc, &self.page, &bytes_of(alloc, rest)?)?
            )?),
            "serve" => self.serve(alloc, rest, false, None),
            "low" => self.serve(alloc, rest, true, None),
            "lies" => self.lie(alloc, rest),
            _ => self.stops.answer(alloc, row),
        }
    }
}

impl<D: TestDisk> AnswerRow for Bench<D> {
    fn answer_row(&mut self, rt: &HostRuntime, row: &str) -> Result<RowAnswer, RowFault> {
        Ok(RowAnswer::Text(self.answer(rt.alloc(), row)?))
    }
}

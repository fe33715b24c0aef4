//! Serves one stream many times: in pieces of other sizes, with an early end, and with reads, writes, stores
//! and memory that fail. Each run is one trial.

use super::compared::{End, Trial, Wanted, compare};
use super::fakes::{GREATEST_PIECE, Pieces, Takes, Trouble};
use super::server::Server;
use super::stream::{Stream, refusal};
use std::alloc::Global;
use test_kit::RowFault;

// The greatest length in bytes of a stream that is tried in all ways. A longer stream is tried only in
// pieces.
const LONGEST: usize = 4096;

/// A stream, the server that serves it, and the States that the server should have: before the first call,
/// and after each call. Each State is a text.
#[derive(Clone, Copy)]
pub(crate) struct Trials<'a> {
    pub(crate) alloc: Global,
    pub(crate) server: Server<'a>,
    pub(crate) stream: &'a Stream,
    pub(crate) kept: &'a [String],
}

/// Returns the State before the first call of a stream, and then the State after each call. Each State is the
/// State after a run over the calls up to this call.
///
/// # Errors
///
/// If the name or the version of the server is too long, the server reads after a fault or a failed write, or
/// memory is refused.
pub(crate) fn kept_after_each(
    alloc: Global,
    server: Server<'_>,
    stream: &Stream,
) -> Result<Vec<String>, RowFault> {
    let mut all = Vec::new(alloc);
    for calls in 0..=stream.calls.len() {
        let (end, _) = stream.ends_of(calls);
        let bytes = stream.input.get(..end).unwrap_or(&[]);
        let pieces = Pieces::new(bytes, GREATEST_PIECE);
        all.push(server.run(alloc, pieces, Takes::all())?.kept)?;
    }
    Ok(all)
}

impl Trials<'_> {
    /// Makes all trials of the stream, and returns a text that names them. If a stream has more than 4,096
    /// bytes, only the trials with pieces are made.
    ///
    /// # Errors
    ///
    /// If a trial has another outcome than the wanted outcome, a server reads after a fault or a failed
    /// write, the stream makes a million calls of a store, or memory is refused.
    pub(crate) fn all(&self) -> Result<&'static str, RowFault> {
        self.pieces()?;
        if self.stream.input.len() > LONGEST {
            return Ok("ok in pieces");
        }
        self.cuts()?;
        self.ends()?;
        self.reads()?;
        self.writes()?;
        self.flushes()?;
        match self.server {
            Server::Volumes(_) => {
                self.again()?;
                self.store()?;
                self.change_store()?;
                self.memory()?;
                Ok(
                    "ok in pieces, cut, ended, reads failed, writes failed, sent again, store refused, log refused, memory refused",
                )
            }
            Server::Identity { .. } => Ok("ok in pieces, cut, ended, reads failed, writes failed"),
        }
    }

    /// Returns the State after the first `calls` calls as a text, or an empty text if the stream has fewer
    /// calls.
    pub(crate) fn kept_after(&self, calls: usize) -> &str {
        match self.kept.get(calls) {
            Some(text) => text.as_str(),
            None => "",
        }
    }

    /// Returns the wanted outcome of serving the whole stream.
    pub(crate) fn whole(&self) -> Wanted<'_> {
        let end = match &self.stream.fault {
            Some(fault) => End::StreamFault(fault.text.as_str()),
            None => End::Done,
        };
        Wanted {
            end,
            replies: self.stream.output.as_slice(),
            last: self.stream.fault_frame(),
            kept: self.kept_after(self.stream.calls.len()),
        }
    }

    /// Returns the whole stream in pieces of at most [`GREATEST_PIECE`] bytes.
    pub(crate) fn whole_pieces(&self) -> Pieces<'_> {
        Pieces::new(self.stream.input.as_slice(), GREATEST_PIECE).with_fault_at(
            self.stream.fault_known_at(),
        )
    }

    // Serves the pieces, and compares the outcome with the wanted outcome.
    fn attempt(
        &self,
        trial: Trial,
        pieces: Pieces<'_>,
        takes: Takes,
        wanted: &Wanted<'_>,
    ) -> Result<(), RowFault> {
        let pieces = pieces.with_fault_at(self.stream.fault_known_at());
        let served = self.server.run(self.alloc, pieces, takes)?;
        compare(self.alloc, trial, &served, wanted)
    }

    fn pieces(&self) -> Result<(), RowFault> {
        for size in [1usize, 2, 3, GREATEST_PIECE] {
            let pieces = Pieces::new(self.stream.input.as_slice(), size);
            let trial = Trial {
                name: "in pieces of",
                number: size as u64,
            };
            self.attempt(trial, pieces, Takes::all(), &self.whole())?;
        }
        Ok(())
    }

    // Serves the stream in two pieces, cut after each byte in turn.
    fn cuts(&self) -> Result<(), RowFault> {
        for at in 1..self.stream.input.len() {
            let pieces = Pieces::cut_at(self.stream.input.as_slice(), at);
            let trial = Trial {
                name: "cut behind byte",
                number: at as u64,
            };
            self.attempt(trial, pieces, Takes::all(), &self.whole())?;
        }
        Ok(())
    }

    fn ends(&self) -> Result<(), RowFault> {
        for at in 0..self.stream.input.len() {
            self.end(at)?;
        }
        Ok(())
    }

    // Tries an input that ends after `at` bytes.
    fn end(&self, at: usize) -> Result<(), RowFault> {
        let (boundary, _) = self.stream.ends_of(self.stream.calls_within(at));
        if at == boundary {
            return self.ended(at, End::Done, &[]);
        }
        let text = format!(in self.alloc; "end of input at byte {at}")?;
        let frame = refusal(self.alloc, text.as_str())?;
        self.ended(at, End::StreamFault(text.as_str()), frame.as_slice())
    }

    // Tries an input that ends after `at` bytes. The wanted end is `end`, unless the bytes show a fault.
    fn ended<'w>(&'w self, at: usize, end: End<'w>, last: &'w [u8]) -> Result<(), RowFault> {
        let bytes = self.stream.input.get(..at).unwrap_or(&[]);
        let pieces = Pieces::new(bytes, GREATEST_PIECE);
        let trial = Trial {
            name: "ended behind byte",
            number: at as u64,
        };
        let wanted = self.front(at, end, last);
        self.attempt(trial, pieces, Takes::all(), &wanted)
    }

    // Returns the wanted outcome if only the first `bytes` bytes come. The wanted end is `end`, unless these
    // bytes show a fault.
    fn front<'w>(&'w self, bytes: usize, end: End<'w>, last: &'w [u8]) -> Wanted<'w> {
        if self.stream.is_faulty_within(bytes) {
            return self.whole();
        }
        let calls = self.stream.calls_within(bytes);
        Wanted {
            end,
            replies: self.stream.replies(calls),
            last,
            kept: self.kept_after(calls),
        }
    }

    // Tries one run for each read of a byte, and one for the read of the end of the stream. This read fails
    // in the run.
    fn reads(&self) -> Result<(), RowFault> {
        for at in 0..=self.stream.input.len() {
            let pieces = Pieces::failing(self.stream.input.as_slice(), at as u64);
            let trial = Trial {
                name: "read failed behind byte",
                number: at as u64,
            };
            let wanted = self.front(at, End::ReadFailed, &[]);
            self.attempt(trial, pieces, Takes::all(), &wanted)?;
        }
        Ok(())
    }

    // Tries runs in which each write fails or takes no bytes, for writes of one byte, of five bytes and of a
    // whole reply.
    fn writes(&self) -> Result<(), RowFault> {
        for size in [1usize, 5, usize::MAX] {
            self.writes_of(size, Trouble::Write)?;
            self.writes_of(size, Trouble::Nothing)?;
        }
        Ok(())
    }

    // Tries runs in which each write of `size` bytes has this trouble in turn, and a run in which no write
    // has it.
    fn writes_of(&self, size: usize, trouble: Trouble) -> Result<(), RowFault> {
        let mut before = 0;
        for call in 0..=self.stream.calls.len() {
            before = self.writes_of_reply(call, size, trouble, before)?;
        }
        let takes = Takes::troubled(size, trouble, before);
        let trial = Trial {
            name: "all written, of writes",
            number: before,
        };
        self.attempt(trial, self.whole_pieces(), takes, &self.whole())
    }

    // Tries runs in which each write of a reply has this trouble in turn, after `before` earlier writes.
    // Returns the number of writes after the reply.
    fn writes_of_reply(
        &self,
        call: usize,
        size: usize,
        trouble: Trouble,
        before: u64,
    ) -> Result<u64, RowFault> {
        let mut count = before;
        let mut written: usize = 0;
        let reply = self.stream.reply(call);
        for _ in 0..reply.len() {
            if written >= reply.len() {
                break;
            }
            let takes = Takes::troubled(size, trouble, count);
            let trial = Trial {
                name: "trouble after writes",
                number: count,
            };
            self.attempt(
                trial,
                self.whole_pieces(),
                takes,
                &self.stopped(call, written),
            )?;
            count = count.saturating_add(1);
            written = written.saturating_add(size);
        }
        Ok(count)
    }

    // Returns the wanted outcome if the writing of a call's reply ends after `written` bytes. The State has
    // the change of this call.
    fn stopped(&self, call: usize, written: usize) -> Wanted<'_> {
        let done = call.saturating_add(1).min(self.stream.calls.len());
        let reply = self.stream.reply(call);
        Wanted {
            end: End::WriteFailed,
            replies: self.stream.replies(call),
            last: reply.get(..written).unwrap_or(reply),
            kept: self.kept_after(done),
        }
    }

    // Tries runs in which each flush fails in turn.
    fn flushes(&self) -> Result<(), RowFault> {
        for call in 0..=self.stream.calls.len() {
            let reply = self.stream.reply(call);
            if !reply.is_empty() {
                let takes = Takes::troubled(usize::MAX, Trouble::Flush, call as u64);
                let trial = Trial {
                    name: "trouble after flushes",
                    number: call as u64,
                };
                self.attempt(
                    trial,
                    self.whole_pieces(),
                    takes,
                    &self.stopped(call, reply.len()),
                )?;
            }
        }
        Ok(())
    }
}

//! Tries a stream over a store that refuses a call.

use super::compared::{Served, Trial, Wanted, compare};
use super::fakes::{GREATEST_PIECE, Pieces, Takes};
use super::kept::kept;
use super::trials::Trials;
use csi_keeper::Keeper;
use csi_memory::fakes::FusedMem;
use csi_server::RunEnd;
use std::alloc::AllocError;
use test_kit::RowFault;

// The frame of the refusal: the status 13, and a text of 13 bytes.
pub(super) const STORE_REFUSED: &[u8] = b"\x0d\x00\x0dstore refused\x00\x00\x00\x00\x00";

const STORE_DOWN: &[u8] = b"\x0d\x00\x0dstore is down\x00\x00\x00\x00\x00";

/// The greatest number of calls to its store that the trials of a stream refuse, one in each trial. Each
/// stream makes fewer calls. If a stream makes this many, its trial fails.
pub(super) const MOST_CALLS: u64 = 1_000_000;

/// A run over a store that refuses a call: how the run ended, the bytes that the server wrote, and the number
/// of refusals that the keeper counted.
#[derive(Drop)]
pub(super) struct Run {
    end: RunEnd,
    written: Vec<u8>,
    refusals: u64,
}

/// A run over a store that refuses a call: its outcome, the number of refusals that the keeper counted, and a
/// flag that is true if the store is down at the end.
#[derive(Drop)]
pub(super) struct Refused {
    pub(super) served: Served,
    pub(super) refusals: u64,
    pub(super) is_down: bool,
}

// The wanted outcome: the replies to all calls, the State, and the count of refusals.
#[derive(Drop)]
struct Replies {
    bytes: Vec<u8>,
    kept: String,
    refusals: u64,
}

impl Trials<'_> {
    /// Refuses each call of the store in turn, one in each run, until no call is refused. Each call of the
    /// stream that asks the store must be refused in at least one run. No other call may be refused.
    ///
    /// # Errors
    ///
    /// - a run has another outcome or another number of refusals than the wanted one
    /// - a call of the stream that asks the store is refused in no run, or another call is refused
    /// - the stream makes a million calls of the store
    /// - a server reads after a fault or a failed write, or memory is refused
    pub(crate) fn store(&self) -> Result<(), RowFault> {
        let mut seen = 0;
        for at in 0..MOST_CALLS {
            match self.refuse(at)? {
                Some(call) => seen = self.seen_with(seen, call)?,
                None if self.first_asking(seen).is_none() => return Ok(()),
                None => return Err(RowFault::Refused("a call did not ask the store")),
            }
        }
        Err(RowFault::Refused("the store was asked too often"))
    }

    // Returns the index after `call`, the call of the stream that was refused. `seen` is the index after the
    // call that was refused before. Fails unless `call` is that call again, or the next call that asks the
    // store.
    fn seen_with(&self, seen: usize, call: usize) -> Result<usize, RowFault> {
        let next = call.saturating_add(1);
        if next == seen || self.first_asking(seen) == Some(call) {
            return Ok(next);
        }
        Err(RowFault::Refused("another call than the next was refused"))
    }

    // Returns the first call, from this index on, that asks the store, or `None` if no call does.
    fn first_asking(&self, from: usize) -> Option<usize> {
        let calls = self.stream.calls.get(from..)?;
        let place = calls.iter().position(|call| call.asks)?;
        from.checked_add(place)
    }

    // Refuses a call of the store. Returns the call of the stream that made it, or `None` if the stream makes
    // fewer calls of the store.
    fn refuse(&self, at: u64) -> Result<Option<usize>, RowFault> {
        let trial = Trial {
            name: "refused call of the store",
            number: at,
        };
        self.judge(trial, &self.serve_refusing(at)?)
    }

    /// Compares the outcome of a run with the wanted outcome. Returns the index of the call whose read or
    /// change was refused, counted from 0 in the stream, or `None` if no call was refused.
    ///
    /// # Errors
    ///
    /// If the outcome or the number of refusals is not the wanted one, or memory is refused.
    pub(super) fn judge(&self, trial: Trial, came: &Refused) -> Result<Option<usize>, RowFault> {
        if came.refusals == 0 {
            compare(self.alloc, trial, &came.served, &self.whole())?;
            return Ok(None);
        }
        let call = self.answered(&came.served.written);
        let replies = if came.is_down {
            self.after_change(call)?
        } else {
            self.after_read(call)?
        };
        if came.refusals != replies.refusals {
            return Err(RowFault::Refused("the refusals were not counted"));
        }
        let wanted = Wanted {
            end: self.whole().end,
            replies: replies.bytes.as_slice(),
            last: self.stream.fault_frame(),
            kept: replies.kept.as_str(),
        };
        compare(self.alloc, trial, &came.served, &wanted)?;
        Ok(Some(call))
    }

    fn serve_refusing(&self, at: u64) -> Result<Refused, RowFault> {
        let mut keeper = FusedMem::new(self.alloc, 1, at)?;
        let run = self.run_over(&mut keeper)?;
        let is_down = keeper.is_down();
        self.look(run, is_down, &mut keeper.into_keeper())
    }

    /// Serves the stream over a keeper that refuses a call.
    ///
    /// # Errors
    ///
    /// If the server reads after a fault or a failed write.
    pub(super) fn run_over<K: Keeper>(&self, keeper: &mut K) -> Result<Run, RowFault> {
        let pieces = self.whole_pieces();
        let (end, written) = self
            .server
            .run_over(self.alloc, keeper, pieces, Takes::all())?;
        Ok(Run {
            end,
            written,
            refusals: keeper.refusals(),
        })
    }

    /// Returns the outcome of a run, with the State of `keeper` after the run. `is_down` is true if the store
    /// is down.
    ///
    /// # Errors
    ///
    /// If memory is refused.
    pub(super) fn look<K: Keeper>(
        &self,
        run: Run,
        is_down: bool,
        keeper: &mut K,
    ) -> Result<Refused, RowFault> {
        let kept = kept(self.alloc, keeper)?;
        let Run {
            end,
            written,
            refusals,
        } = run;
        Ok(Refused {
            served: Served { end, written, kept },
            refusals,
            is_down,
        })
    }

    /// Returns the number of calls, from the first call on, whose replies `written` begins with. These calls
    /// were answered as without a refusal. `written` has the bytes that the server wrote.
    pub(super) fn answered(&self, written: &[u8]) -> usize {
        let mut answered = 0;
        for call in 0..self.stream.calls.len() {
            if written.starts_with(self.stream.replies(call.saturating_add(1))) {
                answered = call.saturating_add(1);
            }
        }
        answered
    }

    // Returns the wanted outcome if the change of a call is refused: the store is down for each later call
    // that asks it.
    fn after_change(&self, call: usize) -> Result<Replies, AllocError> {
        let mut bytes = self.refused_after(call)?;
        let refused = self.put_refused(call.saturating_add(1), STORE_DOWN, &mut bytes)?;
        Ok(Replies {
            bytes,
            kept: String::from_str(self.alloc, self.kept_after(call))?,
            refusals: refused.saturating_add(1),
        })
    }

    /// Appends to `bytes` the replies to the calls from the index `behind` to the end of the stream. A call
    /// that asks the store gets the reply `refusal`, and each other call gets its reply in the stream.
    /// Returns the number of refusals.
    pub(super) fn put_refused(
        &self,
        behind: usize,
        refusal: &[u8],
        bytes: &mut Vec<u8>,
    ) -> Result<u64, AllocError> {
        let mut refused: u64 = 0;
        for (later, next) in self.stream.calls.iter().enumerate().skip(behind) {
            if next.asks {
                bytes.extend_from_slice(refusal)?;
                refused = refused.saturating_add(1);
            } else {
                bytes.extend_from_slice(self.stream.reply(later))?;
            }
        }
        Ok(refused)
    }

    // Returns the usual replies to the first calls, followed by the refusal of the next call.
    fn refused_after(&self, calls: usize) -> Result<Vec<u8>, AllocError> {
        let mut bytes = Vec::from_slice(self.alloc, self.stream.replies(calls))?;
        bytes.extend_from_slice(STORE_REFUSED)?;
        Ok(bytes)
    }

    // Returns the wanted outcome if a read of a call is refused: the other calls are answered as if this call
    // had not come.
    fn after_read(&self, call: usize) -> Result<Replies, RowFault> {
        let input = self.input_without(call)?;
        let pieces = Pieces::new(&input, GREATEST_PIECE);
        let served = self.server.run(self.alloc, pieces, Takes::all())?;
        let (_, from) = self.stream.ends_of(call);
        let mut bytes = self.refused_after(call)?;
        bytes.extend_from_slice(served.written.get(from..).unwrap_or(&[]))?;
        Ok(Replies {
            bytes,
            kept: served.kept,
            refusals: 1,
        })
    }

    // Returns all frames of the input except the frame of a call.
    fn input_without(&self, call: usize) -> Result<Vec<u8>, AllocError> {
        let (start, _) = self.stream.ends_of(call);
        let (end, _) = self.stream.ends_of(call.saturating_add(1));
        let (last, _) = self.stream.ends_of(self.stream.calls.len());
        let before = self.stream.input.get(..start).unwrap_or(&[]);
        let behind = self.stream.input.get(end..last).unwrap_or(&[]);
        let mut input = Vec::from_slice(self.alloc, before)?;
        input.extend_from_slice(behind)?;
        Ok(input)
    }
}

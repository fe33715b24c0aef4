//! Tries a stream over two stores: a keeper in memory, and a change store, the log. In each run one of the
//! two refuses a call.

use super::compared::{Trial, Wanted, compare};
use super::store::{MOST_CALLS, Refused, STORE_REFUSED};
use super::trials::Trials;
use csi_memory::MemKeeper;
use csi_memory::fakes::FusedMem;
use csi_through::{KeeperChanges, Through};
use test_kit::RowFault;

impl Trials<'_> {
    /// Refuses each change of the log in turn, one in each run, until no change is refused. The memory
    /// answers the reads.
    ///
    /// # Errors
    ///
    /// If a run has another outcome or another number of refusals than the wanted one, the log is asked a
    /// million times, a server reads after a fault or a failed write, or memory is refused.
    pub(crate) fn change_store(&self) -> Result<(), RowFault> {
        for at in 0..MOST_CALLS {
            let trial = Trial {
                name: "refused change of the log",
                number: at,
            };
            if self
                .judge(trial, &self.serve_over_change_store(at)?)?
                .is_none()
            {
                return Ok(());
            }
        }
        Err(RowFault::Refused("the log was asked too often"))
    }

    fn serve_over_change_store(&self, at: u64) -> Result<Refused, RowFault> {
        let memory = MemKeeper::new(self.alloc, 1)?;
        let change_store = FusedMem::new(self.alloc, 1, at)?;
        let mut keeper = Through::new(memory, KeeperChanges::new(change_store));
        let run = self.run_over(&mut keeper)?;
        let is_down = keeper.is_down();
        let mut change_store = keeper.into_change_store().into_keeper().into_keeper();
        self.look(run, is_down, &mut change_store)
    }

    /// Refuses each call of the memory in turn, one in each run: each read, and each change that the log has
    /// already made. The log must have each change that was answered with OK.
    ///
    /// # Errors
    ///
    /// If a run has another outcome or another number of refusals than the wanted one, the keeper in memory
    /// is asked a million times, a server reads after a fault or a failed write, or memory is refused.
    pub(crate) fn memory(&self) -> Result<(), RowFault> {
        for at in 0..MOST_CALLS {
            if !self.refuse_in_memory(at)? {
                return Ok(());
            }
        }
        Err(RowFault::Refused("the memory was asked too often"))
    }

    // Refuses a call of the memory. Returns false if the stream makes fewer calls of the memory.
    fn refuse_in_memory(&self, at: u64) -> Result<bool, RowFault> {
        let memory = FusedMem::new(self.alloc, 1, at)?;
        let change_store = MemKeeper::new(self.alloc, 1)?;
        let mut keeper = Through::new(memory, KeeperChanges::new(change_store));
        let run = self.run_over(&mut keeper)?;
        let is_down = keeper.is_down();
        let is_current = keeper.is_current();
        let mut change_store = keeper.into_change_store().into_keeper();
        let came = self.look(run, is_down, &mut change_store)?;
        self.judge_memory(at, is_current, &came)
    }

    fn judge_memory(&self, at: u64, is_current: bool, came: &Refused) -> Result<bool, RowFault> {
        let trial = Trial {
            name: "refused call of the memory",
            number: at,
        };
        if is_current {
            return Ok(self.judge(trial, came)?.is_some());
        }
        self.judge_after(trial, came)?;
        Ok(true)
    }

    // Checks the outcome if the memory lacks a change that was answered with OK: each later call that asks
    // the memory is refused and changes nothing.
    fn judge_after(&self, trial: Trial, came: &Refused) -> Result<(), RowFault> {
        let calls = self.answered(&came.served.written);
        let mut replies = Vec::from_slice(self.alloc, self.stream.replies(calls))?;
        let refused = self.put_refused(calls, STORE_REFUSED, &mut replies)?;
        if came.is_down || came.refusals != refused {
            return Err(RowFault::Refused("the refusals were not counted"));
        }
        let wanted = Wanted {
            end: self.whole().end,
            replies: replies.as_slice(),
            last: self.stream.fault_frame(),
            kept: self.kept_after(calls),
        };
        compare(self.alloc, trial, &came.served, &wanted)
    }
}

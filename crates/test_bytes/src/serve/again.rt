//! Sends a call again if its reply was lost.

use super::compared::{End, Served, Trial, Wanted, compare};
use super::fakes::{GREATEST_PIECE, Pieces, Takes, Trouble};
use super::trials::Trials;
use csi_keeper::Keeper;
use csi_memory::MemKeeper;
use test_kit::RowFault;

impl Trials<'_> {
    /// Loses the reply to each call in turn. The first run executes the call, but fails to write its reply.
    /// The second run over the same keeper serves this call and all later calls.
    ///
    /// # Errors
    ///
    /// If a second run has another outcome than the wanted outcome, a server reads after a fault or a failed
    /// write, or memory is refused.
    pub(crate) fn again(&self) -> Result<(), RowFault> {
        for call in 0..self.stream.calls.len() {
            self.again_from(call)?;
        }
        Ok(())
    }

    fn again_from(&self, call: usize) -> Result<(), RowFault> {
        let mut keeper = MemKeeper::new(self.alloc, 1)?;
        let served = self.serve_twice(call, &mut keeper)?;
        let calls = self.stream.calls.len();
        let (_, replied) = self.stream.ends_of(call);
        let wanted = Wanted {
            end: End::Done,
            replies: self.stream.output.get(replied..).unwrap_or(&[]),
            last: &[],
            kept: self.kept_after(calls),
        };
        let trial = Trial {
            name: "sent again, call",
            number: call as u64,
        };
        compare(self.alloc, trial, &served, &wanted)
    }

    // Loses the reply to a call, and then serves this call and all later calls.
    fn serve_twice<K: Keeper>(&self, call: usize, keeper: &mut K) -> Result<Served, RowFault> {
        let lost = Takes::troubled(usize::MAX, Trouble::Write, call as u64);
        self.server
            .run_over(self.alloc, keeper, self.whole_pieces(), lost)?;
        let (begin, _) = self.stream.ends_of(call);
        let (end, _) = self.stream.ends_of(self.stream.calls.len());
        let rest = self.stream.input.get(begin..end).unwrap_or(&[]);
        let pieces = Pieces::new(rest, GREATEST_PIECE);
        self.server.run_on(self.alloc, keeper, pieces, Takes::all())
    }
}

//! Counts the rows of a scan.

ghost use Rattle.csi_constraints.specs.Folds.{CountsRows};
ghost use Rattle.csi_constraints.specs.facts.Starts.{counts_none};

use csi_sql::Fold;
use sqlite::{Error, Row};

/// A fold that counts the rows that it takes.
#[derive(Drop)]
pub struct RowCount {
    /// The number of rows so far, or 2^64 - 1 if there are more. Initially 0.
    pub rows: u64,
}

impl Fold for RowCount {
    ghost folds = { CountsRows };

    ghost takes_memory = { λ _ _. ⊥ };

    ghost starts = { counts_none };

    fn add_row(&mut self, _row: &Row) -> Result<(), Error> {
        self.rows = self.rows.saturating_add(1);
        Ok(())
    }
}

//! Tests that the integers of a column rise.
//!
//! Rowids that do not rise mean that the database has failed, which the contracts of a connection do not
//! exclude. The test is needed since an attachment is deleted by its rowid.

ghost use Rattle.std.specs.Prelude.{◌≡◌};
ghost use Rattle.csi_constraints.specs.Folds.{RisesOver, is_above};
ghost use Rattle.csi_constraints.specs.facts.Starts.{rises_over_none};

use crate::cells::integer_at;
use csi_sql::Fold;
use sqlite::{Error, Row};

fn is_above_last(last: Option<i64>, integer: i64) -> bool
    ensures { result ≡ is_above last integer }
{
    match last {
        Some(last) => last < integer,
        None => true,
    }
}

/// Tests that each row has an integer in a column, and that each integer is greater than the integer in the
/// row before.
#[derive(Drop)]
pub struct Rising {
    /// The column of the integers, counted from 0.
    pub column: usize,
    /// The integer of the last row that passed, or `None` if no row has passed yet. Initially `None`.
    pub last: Option<i64>,
    /// True if every row so far has passed. Initially true.
    pub good: bool,
}

impl Fold for Rising {
    ghost folds = { RisesOver };

    ghost takes_memory = { λ _ _. ⊥ };

    ghost starts = { rises_over_none };

    fn add_row(&mut self, row: &Row) -> Result<(), Error> {
        match integer_at(row, self.column) {
            Some(integer) if is_above_last(self.last, integer) => self.last = Some(integer),
            _ => self.good = false,
        }
        Ok(())
    }
}

//! Sums over the rows that have a given text in a column.

ghost use Rattle.std.specs.Prelude.{◌≡◌};
ghost use Rattle.std.specs.Ordering.{is_eq, nat_cmp};
ghost use Rattle.std.specs.Cmp.Lexicographic.{slice_cmp};
ghost use Rattle.sqlite.specs.Order.{column};
ghost use Rattle.csi_constraints.specs.Folds.{is_text, weight_of};

use csi_sql::Fold;
use csi_sql::values::{number_at, text_at};
use sqlite::{Error, Row};
use std::cmp::Ordering;

/// The amount that a row adds to a sum.
#[derive(Clone, Copy)]
pub enum Weight {
    /// Each row adds 1, so the sum is the number of rows.
    One,
    /// Each row adds the integer in this column, counted from 0. A row adds nothing if the value in the
    /// column is negative or not an integer.
    Number(usize),
}

fn is_same_text(a: &[u8], b: &[u8]) -> bool
    ensures { result ≡ is_eq (slice_cmp nat_cmp a.now b.now) }
{
    matches!(a.cmp(b), Ordering::Equal)
}

fn has_text(row: &Row, at: usize, text: &[u8]) -> bool
    ensures { result ≡ is_text text.now (column row.now at) }
{
    match text_at(row, at) {
        Some(bytes) => is_same_text(bytes, text),
        None => false,
    }
}

fn weight_in(row: &Row, weight: Weight) -> u64
    ensures { result ≡ weight_of weight row.now }
{
    match weight {
        Weight::One => 1,
        Weight::Number(at) => number_at(row, at).unwrap_or(0),
    }
}

/// Sums over the rows with a given text in a column, for example the sizes of the volumes in a pool.
#[derive(Drop)]
pub struct TextSum {
    /// The column of the text, counted from 0.
    pub column: usize,
    /// The text that a row must have in the column. A row with another value in the column adds nothing.
    pub text: Vec<u8>,
    /// The amount that a row with the text adds.
    pub weight: Weight,
    /// The sum over the rows so far, or 2^64 - 1 if the sum is greater. Initially 0.
    pub sum: u64,
}

impl Fold for TextSum {
    ghost use Rattle.csi_constraints.specs.Folds.{SumsText};
    ghost use Rattle.csi_constraints.specs.facts.Starts.{sums_none};

    ghost folds = { SumsText };

    ghost takes_memory = { λ _ _. ⊥ };

    ghost starts = { sums_none };

    fn add_row(&mut self, row: &Row) -> Result<(), Error> {
        if has_text(row, self.column, self.text.as_slice()) {
            self.sum = self.sum.saturating_add(weight_in(row, self.weight));
        }
        Ok(())
    }
}

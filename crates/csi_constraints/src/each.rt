//! Runs several folds of one type over the same rows.

ghost use Rattle.std.specs.Prelude.{[]};
ghost use Rattle.std.specs.List.{AllZip};
ghost use Rattle.csi_constraints.specs.Folds.{HasSome};
ghost use Rattle.csi_constraints.specs.facts.Starts.{each_itself};

use csi_sql::Fold;
use sqlite::{Error, Row};

/// Several folds of one type over the same rows, for example one fold for each pool or each node.
#[derive(Drop)]
pub struct FoldEach<F> {
    /// The folds. Each row is passed to every fold, in this order.
    pub parts: Vec<F>,
}

impl<F: Fold> Fold for FoldEach<F> {
    ghost folds = { λ first rows now. AllZip (λ a b. F.folds a rows b) first.parts.items now.parts.items };

    ghost takes_memory = { λ fold row. HasSome (λ part. F.takes_memory part row) fold.parts.items };

    ghost starts = { λ first. each_itself (λ a b. F.folds a [] b) F.starts first.parts.items };

    fn add_row(&mut self, row: &Row) -> Result<(), Error> {
        for part in self.parts.iter_mut() {
            part.add_row(row)?;
        }
        Ok(())
    }
}

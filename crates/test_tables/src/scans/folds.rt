//! Shows the rows of a scan. A fold is a value that takes the rows of a scan one after the other.

use crate::cells::put_row;
use csi_sql::Fold;
use sqlite::{Error, Row};
use std::alloc::Global;

/// A fold that appends each row to a text.
#[derive(Drop)]
pub(crate) struct Showing {
    /// The allocator of the text in `text`.
    pub(crate) alloc: Global,
    /// The rows that were added, as a text.
    pub(crate) text: String,
}

impl Fold for Showing {
    ghost folds = { λ _ _ _. Unit {0} };

    ghost starts = { λ _. tt };

    fn add_row(&mut self, row: &Row) -> Result<(), Error> {
        Ok(put_row(&mut self.text, self.alloc, row)?)
    }
}

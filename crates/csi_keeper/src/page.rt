//! The trait of code that takes the volumes of a page one by one, without a list of all of them.

ghost use Rattle.std.specs.Prelude.{◌++◌, ◌∷◌, [], List, OnOk};
ghost use Rattle.csi_keeper.specs.Listing.{row_reported};
ghost use Rattle.csi_keeper.specs.declared.listed.Listed.{Listed as Report};

use crate::listed::{Listed, ListedRow};
use std::alloc::AllocError;

/// A fold over the entries of a listing. It takes the entries one by one, in rising order of the volumes'
/// numbers.
pub trait PageFold {
    /// The relation between a fold, the entries that it takes one after the other, and the fold after it has
    /// taken them.
    ghost folds: { Self → List Report → Self → Type 0 };

    /// The relation between the fold before a call and the fold after it. It holds even if the call fails.
    ghost keeps: { Self → Self → Type 0 };

    /// Adds the entry of the next volume to the fold.
    ///
    /// # Errors
    ///
    /// If memory is refused.
    fn add(&mut self, row: &ListedRow<'_>) -> Result<(), AllocError>
        ensures folded { OnOk result ((first : Self) (rows : List Report) → folds first rows self.old
            → folds first (rows ++ row_reported row.now ∷ []) self.new) }
        ensures kept { (first : Self) → keeps first self.old → keeps first self.new };

    /// A fold that takes no entry is unchanged.
    ghost starts: { (fold : Self) → folds fold [] fold };

    /// The relation `keeps` holds between each fold and itself.
    ghost stays: { (fold : Self) → keeps fold fold };
}

/// Passes the entries of a listing to a fold, from the first to the last.
///
/// # Errors
///
/// If [`PageFold::add`] fails, since memory is refused. The fold may then have taken some of the entries.
pub fn fold_listed<F: PageFold>(listed: &[Listed], fold: &mut F) -> Result<(), AllocError>
    ensures folded { OnOk result (F.folds fold.old listed.now fold.new) }
    ensures kept { F.keeps fold.old fold.new }
{
    for row in listed {
        fold.add(&row.lent())?;
    }
    Ok(())
}

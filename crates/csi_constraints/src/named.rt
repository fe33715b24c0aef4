//! Finds the first row that breaks a constraint, and names the row by a number and a text in two of its
//! columns.

ghost use Rattle.std.specs.Prelude.{◌≡◌, ◌⊎◌, false, None, IfOk, OnErr};
ghost use Rattle.std.specs.Str.{is_utf8};
ghost use Rattle.sqlite.specs.Order.{column};
ghost use Rattle.csi_sql.specs.Cells.{as_text};
ghost use Rattle.csi_sql.specs.Folding.{FailsForMemory};
ghost use Rattle.csi_constraints.specs.Named.{name_of};
ghost use Rattle.csi_constraints.specs.Values.{if_passes};

use crate::cells::{as_utf8, integer_at};
use crate::trial::{RowTest, RowTrial};
use csi_sql::Fold;
use csi_sql::values::text_at;
use csi_types::Text;
use sqlite::{Error, Row};
use std::alloc::{AllocError, Global};

/// The name of a row: the number and the text in two of its columns.
#[derive(Drop)]
pub struct RowName {
    /// The integer in the column of the number, or `None` if the column has no integer.
    pub number: Option<i64>,
    /// The text in the column of the text, or `None` if the column has no text in UTF-8.
    pub text: Option<Text>,
}

fn words_at(alloc: Global, row: &Row, at: usize) -> Result<Option<Text>, AllocError>
    ensures { IfOk result (λ text. text ≡ if_passes is_utf8 (as_text (column row.now at))) }
{
    let Some(bytes) = text_at(row, at) else {
        return Ok(None);
    };
    match as_utf8(bytes) {
        Some(text) => Ok(Some(Text::from_str(alloc, text)?)),
        None => Ok(None),
    }
}

/// Reads the name of a row from the columns `number` and `text`, counted from 0.
///
/// # Errors
///
/// If memory is refused.
pub(crate) fn name_at(
    alloc: Global,
    row: &Row,
    number: usize,
    text: usize,
) -> Result<RowName, AllocError>
    ensures { IfOk result (λ name. name ≡ name_of number text row.now) }
{
    Ok(RowName {
        number: integer_at(row, number),
        text: words_at(alloc, row, text)?,
    })
}

/// Finds the first row that breaks a constraint. The rows after it are not tested.
#[derive(Drop)]
pub struct FirstBroken<T> {
    /// The allocator of the text in `found`.
    pub alloc: Global,
    /// The constraint that each row is tested for.
    pub test: T,
    /// The column of the number that names a row, counted from 0.
    pub number: usize,
    /// The column of the text that names a row, counted from 0.
    pub text: usize,
    /// The first row that breaks the constraint, or `None` if no row has broken it yet. Initially `None`.
    pub found: Option<RowName>,
}

impl<T: RowTrial> FirstBroken<T> {
    ghost use Rattle.csi_constraints.specs.Named.{name_if};

    // Returns the name of the row if the row breaks the constraint, and `None` if it meets the constraint.
    fn name_if_broken(&self, row: &Row) -> Result<Option<RowName>, Error>
        ensures value { IfOk result (λ name. name
            ≡ name_if self.now.number self.now.text (T.accepts self.now.test) row.now) }
        ensures known { IfOk result (λ name. name ≡ None → T.knows self.now.test row.now) }
        ensures memory { FailsForMemory result }
        ensures error_only_if { OnErr result (T.takes_memory self.now.test row.now
            ⊎ (T.accepts self.now.test row.now ≡ false)) }
    {
        if self.test.try_test(row)? {
            return Ok(None);
        }
        Ok(Some(name_at(self.alloc, row, self.number, self.text)?))
    }
}

impl<T: RowTrial> Fold for FirstBroken<T> {
    ghost use Rattle.csi_constraints.specs.Named.{FindsBroken};
    ghost use Rattle.csi_constraints.specs.facts.Starts.{finds_none};

    ghost folds = { FindsBroken T.accepts T.knows };

    ghost takes_memory = { λ fold row. (fold.found ≡ None)
        × (T.takes_memory fold.test row ⊎ (T.accepts fold.test row ≡ false)) };

    ghost starts = { finds_none T.accepts T.knows };

    fn add_row(&mut self, row: &Row) -> Result<(), Error> {
        if self.found.is_none() {
            self.found = self.name_if_broken(row)?;
        }
        Ok(())
    }
}

/// Makes a [`RowTrial`] of a [`RowTest`]. The trial never fails, as the test takes no memory.
#[derive(Drop)]
pub struct InfallibleTest<T> {
    /// The test, which is called for each row.
    pub test: T,
}

impl<T: RowTest> RowTrial for InfallibleTest<T> {
    ghost accepts = { λ sure row. T.accepts sure.test row };

    ghost knows = { λ _ _. Unit {0} };

    ghost takes_memory = { λ _ _. ⊥ };

    fn try_test(&self, row: &Row) -> Result<bool, Error> {
        Ok(self.test.test(row))
    }
}

//! Passes the rows of a query to a fold, one row at a time.

ghost use Rattle.std.specs.Prelude.{◌≡◌, ◌++◌, ◌∷◌, [], List, OnErr, OnOk};
ghost use Rattle.sqlite.specs.Given.{IsPlain};
ghost use Rattle.sqlite.specs.Held.{state};
ghost use Rattle.sqlite.specs.Listing.{understood};
ghost use Rattle.sqlite.specs.Order.{Row as Values};
ghost use Rattle.sqlite.specs.State.{HasCleanDisk, Shown};
ghost use Rattle.csi_sql.specs.Folding.{FailsForMemory, FoldsOver, RefusesRows};

use crate::idle_connection::IdleConnection;
use sqlite::{Alter, Error, ErrorCode, Row};

/// A value that is computed from rows. It takes the rows one by one, in the order of the query.
pub trait Fold {
    /// Relates a fold, the rows that it takes, and the fold after these rows.
    ghost folds: { Self → List Values → Self → Type 0 };

    /// Holds if the fold may ask for memory to take this row. By default it holds for every row.
    ghost takes_memory: { Self → Values → Type 0 } = { λ _ _. Unit {0} };

    /// Takes the next row of the answer to a query.
    ///
    /// # Errors
    ///
    /// If memory is refused.
    fn add_row(&mut self, row: &Row) -> Result<(), Error>
        ensures folded { OnOk result ((first : Self) (rows : List Values) → folds first rows self.old
            → folds first (rows ++ row.now ∷ []) self.new) }
        ensures memory { FailsForMemory result }
        ensures error_only_if { OnErr result (takes_memory self.old row.now) };

    /// A fold that takes no row is unchanged.
    ghost starts: { (fold : Self) → folds fold [] fold };
}

/// Runs a query and passes each row of its answer to the fold, in the order of the query. No row is kept.
///
/// After an error the fold may have taken some of the rows.
///
/// # Errors
///
/// If the query is refused, if a row cannot be read, if `add_row` fails, or if there are 2^64 - 1 rows or
/// more.
pub fn each_row<S: Alter, F: Fold>(
    conn: &mut IdleConnection<S>,
    sql: &str,
    fold: &mut F,
) -> Result<(), Error>
    requires plain { HasCleanDisk (state S.Store conn.old) → IsPlain (understood conn.old.schema sql.now) }
    ensures { FoldsOver S.Store conn.old conn.new F.folds fold.old fold.new
        (Shown sql.now [] (state S.Store conn.old) (state S.Store conn.new))
        (RefusesRows S.Store sql.now conn.old) result }
{
    let mut rows = conn.0.query(sql, &[])?;
    'rows: for _ in 0..u64::MAX {
        let Some(row) = rows.next()? else {
            return Ok(());
        };
        fold.add_row(row)?;
    }
    Err(Error::SqliteFailure(ErrorCode::OperationInterrupted))
}

//! Tests of a single row: a trait for tests that take no memory, and a trait for tests that may take memory.

ghost use Rattle.std.specs.Prelude.{◌≡◌, Bool, IfOk, IsTrue, OnErr};
ghost use Rattle.sqlite.specs.Order.{Row as Values};
ghost use Rattle.csi_sql.specs.Folding.{FailsForMemory};

use sqlite::{Error, Row};

/// A test of a single row that takes no memory and cannot fail.
pub trait RowTest {
    /// True if a row with these values passes the test.
    ghost accepts: { Self → Values → Bool };

    /// Returns true if the row passes the test.
    fn test(&self, row: &Row) -> bool
        ensures { result ≡ accepts self.now row.now };
}

/// A test of a single row that may take memory.
pub trait RowTrial {
    /// True if a row with these values passes the test.
    ghost accepts: { Self → Values → Bool };

    /// A fact that holds for each row that passes.
    ghost knows: { Self → Values → Type 0 };

    /// The condition under which the test takes memory for a row.
    ghost takes_memory: { Self → Values → Type 0 };

    /// Returns true if the row passes the test.
    ///
    /// # Errors
    ///
    /// If memory is refused.
    fn try_test(&self, row: &Row) -> Result<bool, Error>
        ensures exact { IfOk result (λ passed. passed ≡ accepts self.now row.now) }
        ensures known { IfOk result (λ passed. IsTrue passed → knows self.now row.now) }
        ensures memory { FailsForMemory result }
        ensures error_only_if { OnErr result (takes_memory self.now row.now) };
}

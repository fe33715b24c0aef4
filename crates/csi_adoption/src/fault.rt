//! The reasons why tables are not adopted.

ghost use Rattle.std.specs.Prelude.{◌≡◌};
ghost use Rattle.csi_adoption.specs.Faults.{failure_of};
ghost use Rattle.csi_adoption.specs.declared.fault.AdoptFault.TheVariants.{NoMemory};

use csi_constraints::BrokenConstraint;
use sqlite::{Error as SqlError, ErrorCode};
use std::alloc::{AllocError, AllocFailed};
use thiserror::Error;

/// The part of a database that shows that another program made its tables.
#[derive(Clone, Copy, Debug, Error)]
pub enum Foreign {
    /// The database does not have exactly the tables, indexes, views and columns that this program makes.
    #[error("the tables are not those of csid")]
    Schema,
    /// The table `meta` does not have exactly one row of integers, or the key in the row is not 1, or the
    /// format is below 1.
    #[error("meta has no row with the number of a format")]
    Meta,
    /// A value in a row of volumes does not have the type of its column.
    #[error("volume {number}: a value is not of the kind of its column")]
    Volume {
        /// The number of the volume in the row, or 0 if this value is not an integer.
        number: i64,
    },
    /// A value in a row of attachments does not have the type of its column.
    #[error("row {rowid} of attachments: a value is not of the kind of its column")]
    Attachment {
        /// The rowid of the row in the table of attachments, or 0 if this value is not an integer.
        rowid: i64,
    },
}

/// The reason why tables are not adopted. Its `Display` names the row if the fault is in one row.
#[derive(Debug, Error)]
pub enum AdoptFault {
    /// The tables are not tables that this program makes.
    #[error("{0}")]
    Foreign(Foreign),
    /// The tables have a later format than this program knows.
    #[error("the tables have format {format}, and the latest known is 2")]
    Newer {
        /// The number of the format in the table `meta`.
        format: i64,
    },
    /// The rows break a constraint of the configuration or of the volume machine.
    #[error("{0}")]
    Broken(BrokenConstraint),
    /// The database failed or refused a statement, with this error. If the rowids of a table do not rise, the
    /// error is `ErrorCode::DatabaseCorrupt`.
    #[error("the database failed: {0}")]
    Store(SqlError),
    /// Memory was refused while the tables were checked, made or upgraded. This says nothing about the rows.
    #[error("out of memory")]
    NoMemory,
}

impl Drop for AdoptFault {
    fn drop(self) {
        match self {
            AdoptFault::Foreign(_) | AdoptFault::NoMemory => {}
            AdoptFault::Newer { format: _ } => {}
            AdoptFault::Broken(_broken) => {}
            AdoptFault::Store(_error) => {}
        }
    }
}

impl From<SqlError> for AdoptFault {
    ghost from_gives = { λ error fault. fault ≡ failure_of error };

    fn from(error: SqlError) -> AdoptFault {
        match error {
            SqlError::SqliteFailure(ErrorCode::OutOfMemory) => AdoptFault::NoMemory,
            other => AdoptFault::Store(other),
        }
    }
}

impl From<AllocError> for AdoptFault {
    ghost from_gives = { λ _ fault. fault ≡ NoMemory };

    fn from(_: AllocError) -> AdoptFault {
        AdoptFault::NoMemory
    }
}

impl<T: Drop> From<AllocFailed<T>> for AdoptFault {
    ghost from_gives = { λ _ fault. fault ≡ NoMemory };

    fn from(_: AllocFailed<T>) -> AdoptFault {
        AdoptFault::NoMemory
    }
}

//! The reasons why rows of a change store cannot be put into tables.

ghost use Rattle.std.specs.Prelude.{◌≡◌};
ghost use Rattle.csi_change_store.specs.Taking.{IsFaultOf};
ghost use Rattle.csi_change_store.specs.declared.fault.RowsFault.TheVariants.{NoMemory};

use sqlite::{Error, ErrorCode};
use std::alloc::AllocError;
use thiserror::Error as Fault;

/// The reason why rows that a change store returned could not be put into the tables.
#[derive(Debug, Drop, Fault)]
pub enum RowsFault {
    /// A page is malformed, or contains a number of 2^63 or above, which no row can contain.
    #[error("its rows are malformed")]
    Malformed,
    /// A text in the row of the volume with this number, or in a row of its attachments, is not UTF-8.
    #[error("volume {0}: a value is not of the kind of its column")]
    Untyped(u64),
    /// The value of `readonly` of an attachment is not 0 or 1.
    #[error("volume {number} at node {node}: its readonly is not 0 or 1")]
    Flag {
        /// The number of the attachment's volume in the row.
        number: u64,
        /// The id of the attachment's node in the row.
        node: String,
    },
    /// The database refused the row of the table `meta`, with this error.
    #[error("{0}")]
    Refused(Error),
    /// The database refused the row of the volume with this number, or a row of its attachments, with this
    /// error.
    #[error("volume {0}: {1}")]
    Row(u64, Error),
    /// Memory for the rows was refused.
    #[error("out of memory")]
    NoMemory,
}

impl From<AllocError> for RowsFault {
    ghost from_gives = { λ _ fault. fault ≡ NoMemory };

    fn from(_: AllocError) -> RowsFault {
        RowsFault::NoMemory
    }
}

/// Converts the error with which the database refused a row. `number` is the number of the volume if the row
/// is a volume's or an attachment's, and `None` if it is the row of the table `meta`. An error for lack of
/// memory becomes [`RowsFault::NoMemory`].
pub(crate) fn fault_of(number: Option<u64>, error: Error) -> RowsFault
    ensures { IsFaultOf number error result }
{
    match (number, error) {
        (_, Error::SqliteFailure(ErrorCode::OutOfMemory)) => RowsFault::NoMemory,
        (Some(number), error) => RowsFault::Row(number, error),
        (None, error) => RowsFault::Refused(error),
    }
}

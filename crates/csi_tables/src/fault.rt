//! The reasons why a call over the tables fails.

ghost use Rattle.std.specs.Prelude.{◌≡◌};
ghost use Rattle.csi_tables.specs.Answers.{answered, of_database, of_decoder};
ghost use Rattle.csi_tables.specs.declared.fault.TablesFault.TheVariants.{NoMemory, Refused};

use csi_keeper::StoreFault;
use pbmessage::DecodeFault;
use sqlite::{Error, ErrorCode};
use std::alloc::{AllocError, AllocFailed};
use std::marker::Model;

/// The reason why a call over the tables failed, if the keeper was not down.
#[derive(Clone, Copy)]
pub enum TablesFault {
    /// Memory for the call was refused.
    NoMemory,
    /// The database refused the call, or a row has values that this program does not write. A change is also
    /// refused if no row can have its number, or if the total of a pool cannot count the volume.
    Refused,
}

/// The fault of a call, with the database's error if that error is the cause. Contracts name only the fault.
#[derive(Drop)]
pub struct TablesError {
    /// The fault, without the database's error.
    pub fault: TablesFault,
    /// The database's error, or `None` if the fault has another cause.
    pub cause: Option<Error>,
}

impl Model for TablesError {
    ghost use Rattle.csi_tables.specs.declared.fault.TablesFault.{TablesFault};

    ghost Value = { TablesFault };

    ghost view = { λ e. e.fault };
}

impl TablesError {
    fn no_memory() -> TablesError
        ensures { result ≡ NoMemory }
    {
        TablesError {
            fault: TablesFault::NoMemory,
            cause: None,
        }
    }

    /// Returns the fault `Refused` without an error of the database. The cause is a row that cannot be
    /// decoded, or a change whose values the tables or the totals cannot have.
    pub(crate) fn refused() -> TablesError
        ensures { result ≡ Refused }
    {
        TablesError {
            fault: TablesFault::Refused,
            cause: None,
        }
    }
}

impl From<AllocError> for TablesError {
    ghost from_gives = { λ _ fault. fault ≡ NoMemory };

    fn from(_: AllocError) -> TablesError {
        TablesError::no_memory()
    }
}

impl<T: Drop> From<AllocFailed<T>> for TablesError {
    ghost from_gives = { λ _ fault. fault ≡ NoMemory };

    fn from(_: AllocFailed<T>) -> TablesError {
        TablesError::no_memory()
    }
}

impl From<DecodeFault> for TablesError {
    ghost from_gives = { λ error fault. fault ≡ of_decoder error };

    fn from(fault: DecodeFault) -> TablesError {
        match fault {
            DecodeFault::NoMemory => TablesError::no_memory(),
            DecodeFault::Malformed { .. } => TablesError::refused(),
        }
    }
}

impl From<Error> for TablesError {
    ghost from_gives = { λ error fault. fault ≡ of_database error };

    fn from(error: Error) -> TablesError {
        match error {
            Error::SqliteFailure(ErrorCode::OutOfMemory) => TablesError::no_memory(),
            _ => TablesError {
                fault: TablesFault::Refused,
                cause: Some(error),
            },
        }
    }
}

/// Converts the result of a call over the tables to the result of a keeper that is not down.
pub(crate) fn store_answer<T>(answer: Result<T, TablesError>) -> Result<T, StoreFault>
    ensures { result ≡ answered answer }
{
    let error = match answer {
        Ok(value) => return Ok(value),
        Err(error) => error,
    };
    match error.fault {
        TablesFault::NoMemory => Err(StoreFault::NoMemory),
        TablesFault::Refused => Err(StoreFault::Refused),
    }
}

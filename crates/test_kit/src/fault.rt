//! The reasons why a row cannot be answered.

use crate::notation::NotationFault;
use csi_keeper::StoreFault;
use std::alloc::{AllocError, AllocFailed};
use std::fmt;
use thiserror::Error;

/// The reason why a row cannot be answered. Its `Display` is written in place of the answer.
#[derive(Debug, Error)]
pub enum RowFault {
    /// The row does not have a form that its section knows.
    #[error("not a row")]
    NotRow,
    /// A word cannot be parsed as bytes by [`bytes_of`](crate::bytes_of), or bytes that must be a text are
    /// not UTF-8.
    #[error("not bytes")]
    NotBytes,
    /// Memory was refused while the row was answered.
    #[error("no memory for the row")]
    NoMemory,
    /// The call or another step of the test failed. The value is the fixed text of its cause.
    #[error("{0}")]
    Refused(&'static str),
    /// The result differs from the expected result. The value describes the difference.
    #[error("{0}")]
    Differs(String),
}

// Written by hand and not derived: the proof of code that drops a fault then has one call for the drop, and
// no branch for each variant.
impl Drop for RowFault {
    fn drop(self) {
        match self {
            RowFault::NotRow | RowFault::NotBytes | RowFault::NoMemory => {}
            RowFault::Refused(_) => {}
            RowFault::Differs(_text) => {}
        }
    }
}

impl From<AllocError> for RowFault {
    fn from(_error: AllocError) -> RowFault {
        RowFault::NoMemory
    }
}

impl<T: Drop> From<AllocFailed<T>> for RowFault {
    fn from(_error: AllocFailed<T>) -> RowFault {
        RowFault::NoMemory
    }
}

// Converts the error of writing to a text in memory. Such a write fails only if memory is refused.
impl From<fmt::Error> for RowFault {
    fn from(_error: fmt::Error) -> RowFault {
        RowFault::NoMemory
    }
}

impl From<NotationFault> for RowFault {
    fn from(fault: NotationFault) -> RowFault {
        match fault {
            NotationFault::NotBytes => RowFault::NotBytes,
            NotationFault::NoMemory => RowFault::NoMemory,
        }
    }
}

// Converts a fault of a keeper: to `NoMemory`, or to `Refused` with the text `refused` or `down`.
impl From<StoreFault> for RowFault {
    fn from(fault: StoreFault) -> RowFault {
        match fault {
            StoreFault::NoMemory => RowFault::NoMemory,
            StoreFault::Refused => RowFault::Refused("refused"),
            StoreFault::Down => RowFault::Refused("down"),
        }
    }
}

//! The statements that change each table, and the SELECTs. They run inside a transaction that the caller
//! ends.
//!
//! The contract of a statement says how the statement changes the tables, and why it may fail. The
//! transaction must be open, and the tables must have the schema of this crate. A statement commits nothing,
//! and adds nothing to what a stop may leave (`RunsOver`). After an error the contract says nothing about the
//! tables: the caller rolls the transaction back.

pub mod attachments;
pub mod meta;
pub(crate) mod select;
pub mod volumes;

use sqlite::Error;

/// The result of a statement: `Ok` if it ran, otherwise the error that refused it. The contract of each
/// statement says which rows it changes.
pub type Changed = Result<(), Error>;

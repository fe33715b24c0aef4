//! Makes databases in memory for test rows, and runs SQL statements over them.

ghost use Rattle.std.specs.Prelude.{◌≡◌, false, IfOk};

use csi_sql::{IdleConnection, make_tables};
use sqlite::{Alter, Connection, Error as SqlError, ErrorCode, MemStore};
use std::alloc::Global;
use test_kit::RowFault;

/// Converts an error of the database to the fault of a test row: [`RowFault::NoMemory`] if memory was
/// refused, otherwise [`RowFault::Refused`].
pub(crate) fn refused(error: SqlError) -> RowFault {
    match error {
        SqlError::SqliteFailure(ErrorCode::OutOfMemory) => RowFault::NoMemory,
        _ => RowFault::Refused("refused"),
    }
}

/// Opens a new database in memory, without tables.
pub(crate) fn without_tables(alloc: Global) -> Result<Connection<MemStore>, RowFault>
    ensures { IfOk result (λ conn. conn.in_transaction ≡ false) }
{
    Ok(Connection::open_in_memory(alloc)?)
}

/// Makes the tables of volumes in an empty database.
pub(crate) fn make<S: Alter>(conn: &mut Connection<S>) -> Result<(), RowFault>
    requires { conn.old.in_transaction ≡ false }
{
    make_tables(conn).map_err(refused)
}

/// Returns the connection as an idle connection, or fails with [`RowFault::Refused`] if a transaction is open
/// on it.
pub(crate) fn idle<S: Alter + Drop>(conn: Connection<S>) -> Result<IdleConnection<S>, RowFault> {
    if !conn.is_autocommit() {
        return Err(RowFault::Refused("refused"));
    }
    Ok(IdleConnection::new(conn))
}

/// Runs SQL statements one after the other. A failed statement ends the run with [`RowFault::Refused`], or
/// with [`RowFault::NoMemory`] if memory was refused.
pub(crate) fn run<S: Alter>(conn: &mut Connection<S>, statements: &str) -> Result<(), RowFault> {
    conn.execute_batch(statements).map_err(refused)
}

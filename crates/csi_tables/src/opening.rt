//! Makes a keeper over the tables of a connection, and returns the connection of a keeper.

ghost use Rattle.std.specs.Prelude.{◌≡◌, false, IfErr, IfOk, IsTrue};
ghost use Rattle.sqlite.specs.Held.{state};
ghost use Rattle.sqlite.specs.State.{HasCleanDisk, Survives};
ghost use Rattle.csi_sql.specs.Failing.{FailsFor};
ghost use Rattle.csi_sql.specs.Making.{MakesTables, RefusesTables};
ghost use Rattle.csi_sql.specs.Tables.{no_schema};
ghost use Rattle.csi_sql.specs.Transactions.{LeavesFrom, IsUndone};
ghost use Rattle.csi_keeper.specs.State.{State};
ghost use Rattle.csi_tables.specs.Holding.{conn_doubt, store_doubt, store_holds};
ghost use Rattle.csi_tables.specs.Keeping.{connection_of, is_down, refusals, store_of, IsNewOver};

use crate::tables::Tables;
use csi_columns::laws::read_back;
use csi_keeper::Totals;
use csi_sql::{IdleConnection, make_tables};
use sqlite::{Alter, Connection, Error};
use std::alloc::Global;

/// The reason why no tables were made, and the connection to the database.
#[derive(Drop)]
pub struct MakeFault<S: Alter> {
    /// The error of the database, which made no tables.
    pub error: Error,
    /// The connection to the database. No transaction is open on the connection.
    pub conn: Connection<S>,
}

impl<S: Alter> Tables<S> {
    /// Makes the tables in a database without tables, and returns the keeper over them. The keeper has no
    /// volumes and no attachments, and its next number is 1. The keeper is not down and has refused no call.
    /// The tables are committed, so a stop leaves them.
    ///
    /// # Errors
    ///
    /// Returns the connection and the database's error, for example if a table with one of the names exists
    /// or memory is refused. No tables are made. A stop leaves a database that it could also have left before
    /// the call, or the new tables.
    ///
    /// # Not promised
    ///
    /// The contract promises nothing for a database that has other tables. It does not promise success, even
    /// if memory is available. Tests of `test_tables` show both cases.
    pub fn make(alloc: Global, mut conn: Connection<S>) -> Result<Tables<S>, MakeFault<S>>
        requires idle { conn.in_transaction ≡ false }
        ensures made { IfOk result (λ tables. IsNewOver S.Store conn tables) }
        ensures was_open { IfOk result (λ tables. store_doubt S.Store (store_of S.Store tables) ≡ 0
            → IsTrue (state S.Store conn).is_open) }
        ensures undone { IfErr result (λ fault. HasCleanDisk (state S.Store fault.conn)
            → IsUndone (state S.Store conn) (state S.Store fault.conn)) }
        ensures failed { IfErr result (λ fault. HasCleanDisk (state S.Store fault.conn)
            → conn.schema ≡ no_schema
            → FailsFor (RefusesTables (state S.Store conn)) (state S.Store conn)
            (state S.Store fault.conn) fault.error) }
        ensures survives { IfErr result (λ fault. Survives (state S.Store conn) (state S.Store fault.conn)
            (LeavesFrom no_schema MakesTables (state S.Store conn))) }
        ensures idle { IfErr result (λ fault. fault.conn.in_transaction ≡ false) }
    {
        read_back();
        match make_tables(&mut conn) {
            Ok(()) => Ok(Tables::new(IdleConnection::new(conn), Totals::new(alloc))),
            Err(error) => Err(MakeFault { error, conn }),
        }
    }

    /// Makes a keeper over tables that represent a State, with the totals of the State's pools. The keeper is
    /// not down and has refused no call. The rows must have been checked first, for example by
    /// `csi_adoption::adopt`.
    pub fn over(conn: IdleConnection<S>, totals: Totals) -> Tables<S>
        requires stands { conn_doubt S.Store conn ≡ 0 → (s : State) × store_holds S.Store (conn, totals) s }
        ensures value { store_of S.Store result ≡ (conn, totals) }
        ensures fresh { (is_down S.Store result ≡ false) × (refusals S.Store result ≡ 0) }
    {
        Tables::new(conn, totals)
    }

    /// Returns the connection to the database. No transaction is open on the connection, and the rows are
    /// unchanged.
    pub fn into_connection(self) -> Connection<S>
        ensures value { result ≡ connection_of S.Store self }
        ensures idle { result.in_transaction ≡ false }
    {
        self.conn.into_connection()
    }
}

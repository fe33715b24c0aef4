//! The type of connections on which no transaction is open.

ghost use Rattle.std.specs.Prelude.{◌≡◌, false};
ghost use Rattle.sqlite.specs.Held.{state};
ghost use Rattle.sqlite.specs.State.{IsLive};

use sqlite::{Alter, Connection};
use sqlite_schema::schema::Schema;
use std::marker::Model;

/// A connection on which no transaction is open. Each change and each read begins a transaction and ends it.
///
/// Contracts treat an idle connection as the connection in it.
pub struct IdleConnection<S: Alter>(pub(crate) Connection<S>);

impl<S: Alter> Model for IdleConnection<S> {
    ghost use Rattle.std.specs.Prelude.{◌≡◌, false};
    ghost use Rattle.sqlite.specs.Held.{Held, held_code};

    ghost Value = { Held S };

    ghost coded = { held_code S.code };

    ghost view = { λ c. c.0 };

    ghost invariant = { λ c. c.0.in_transaction ≡ false };
}

impl<S: Alter + Drop> Drop for IdleConnection<S> {
    fn drop(self) {
        let IdleConnection(_) = self;
    }
}

impl<S: Alter> IdleConnection<S> {
    /// Wraps a connection that has no open transaction.
    pub fn new(conn: Connection<S>) -> IdleConnection<S>
        requires idle { conn.in_transaction ≡ false }
        ensures { result ≡ conn }
    {
        IdleConnection(conn)
    }

    /// Returns the schema of the database: its tables, indexes and views.
    pub fn schema(&self) -> &Schema
        ensures value { result.now ≡ (state S.Store self.now).now.schema }
        ensures live { IsLive (state S.Store self.now) }
    {
        self.0.schema()
    }

    /// Returns the connection, so that the caller can begin transactions on it.
    pub fn into_connection(self) -> Connection<S>
        ensures value { result ≡ self }
        ensures idle { result.in_transaction ≡ false }
    {
        let IdleConnection(conn) = self;
        conn
    }
}

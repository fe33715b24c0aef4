//! SQL over the tables of volumes: it makes the tables, and has a transaction for each change and each read.
//!
//! `specs/Tables.antt` has the three CREATE texts and the schema that they make: `meta` (a key, the number of
//! the format, and the next number), `volumes` by number, and `attachments` by number and node.
//! `specs/Rows.antt` defines the rows, both as they are stored and as a SELECT shows them. The trees of a
//! database have numbers: 0 is `meta`, 1 is `volumes` and 2 its index of names, 3 is `attachments` and 4 its
//! index. `specs/Transactions.antt` defines what a transaction did, and what a stop in its commit may leave.
//!
//! - [`make_tables`] makes the tables and the first row of `meta` in one transaction. [`is_our_schema`]
//!   compares a schema with the schema of the tables, part by part (`specs/Ours.antt`). It compares the
//!   meanings of the CREATE statements, and not their texts.
//! - [`IdleConnection`] is a connection on which no transaction is open. The functions of [`changes`] and
//!   [`reads`], and [`each_row`], take one.
//! - [`changes`] has one transaction for each change. After `Ok` the change is made and committed; after an
//!   error the tables are unchanged. A stop leaves tables that it could also have left before the change, or
//!   the tables with the change.
//! - [`reads`] has one transaction for each read, which is rolled back: a read returns rows, changes nothing,
//!   and adds nothing to what a stop may leave. [`values`] decodes the cells of a row as numbers, flags,
//!   texts and bytes.
//! - [`each_row`] passes the rows of a query to a [`Fold`], in the order of the query, and keeps no row.
//! - [`statements`] has the statements, each with a fixed text, inside a transaction that the caller ends. It
//!   has a module for each table, and the SELECTs of rows are the variants of one enum
//!   (`statements/select.rt`).
//!
//! The checker computes the meaning of each text under the schema (`proofs/TextLemmas.antt`). So a contract
//! names this meaning and not the text. An INSERT adds a row (`specs/Effects.antt`). A DELETE is a filter of
//! the table (`specs/Deletes.antt`). A SELECT shows the rows that pass a test, in an order
//! (`specs/Shown.antt` over the queries of `specs/Statements.antt`). A DELETE removes rows by their rowids,
//! so it is a filter if no two rows share a rowid (`AreKeyed`). After an INSERT, still no two rows share a
//! rowid. `specs/facts/` states the rows of one table after an INSERT, UPDATE or DELETE with a fixed text.
//!
//! The promises about the tables hold for this schema, and if the connection is clean at the end of the call
//! (`HasCleanDisk`). It is clean if the disk has returned the bytes that were written, and no other program
//! has written. The promises of [`make_tables`] hold if the store had no table.
//!
//! ```rust
//! if !is_our_schema(conn.schema()) {
//!     make_tables(&mut conn)?;
//! }
//! let mut conn = IdleConnection::new(conn);
//! changes::add_volume(&mut conn, 7, "pvc-7", 1 << 20, "p1", &caps, &params)?;
//! let row = reads::by_number(&mut conn, 7)?;
//! ```
//!
//! # Not promised
//!
//! A statement may fail. An error may say that memory was refused although it was not, since a store may
//! report this at any time. If the disk failed, the error does not name the fault of the disk. Cases of
//! `test_tables` show that an INSERT is refused if its volume number, its name or its attachment exists.
#![tactic(auto)]

pub mod changes;
mod fold;
mod formats;
mod idle_connection;
mod making;
mod ours;
pub mod reads;
pub mod statements;
pub mod values;

pub use fold::{Fold, each_row};
pub use formats::{FIRST_FORMAT, LATEST_FORMAT};
pub use idle_connection::IdleConnection;
pub use making::make_tables;
pub use ours::is_our_schema;

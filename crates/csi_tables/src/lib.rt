//! A keeper of volumes in SQLite, which uses the tables and the transactions of `csi_sql`.
//!
//! Each volume and each attachment is a row (`csi_columns`). The column `caps` has the canonical bytes of a
//! `CreateVolumeRequest` with only the capabilities. The column `params` has the canonical bytes of a request
//! with only the parameters and the mutable parameters. A read of a row that this program cannot have written
//! is refused. `specs/Holding.antt` defines which rows of a format represent a State (`IsRowsOf`). These are
//! the rows that a SELECT of all columns shows, in any order. The same file defines which States a connection
//! with its totals may have.
//!
//! The modules:
//!
//! - `tables.rt` is the keeper, which counts refusals with `csi_keeper::Health`.
//! - `opening.rt` makes the keeper over new tables or checked tables, and returns the connection.
//! - `read.rt` has a function for each read, and `changes.rt` a function for each change. Both take a
//!   connection, and their contracts are about the State.
//! - `rows.rt` and `decoding.rt` decode rows and columns.
//! - `nodes.rt` finds the nodes of a page's volumes in one list of places.
//! - `fault.rt` has the reasons why a call fails.
//!
//! The lemmas follow the same steps:
//!
//! - `RowLemmas`: the rows after a change are the rows of the changed State.
//! - `StateLemmas`: rows represent at most one State.
//! - `SortedLemmas`, `ShownLemmas`, `PageLemmas`: a sorted answer over the rows of a State is a filter of its
//!   entries.
//! - `KeepLemmas`, `TablesLemmas`: the clauses of the trait, which are about States, follow from the clauses
//!   of transactions, which are about rows.
//! - `NewLemmas`: new tables are the rows of the State without volumes.
//!
//! ```rust
//! let mut keeper = Tables::make(alloc, conn)?;
//! keeper.apply(alloc, &Change::AddVolume(volume))?;
//! let conn = keeper.into_connection();
//! ```
//!
//! # Not promised
//!
//! The contracts do not promise that calls succeed, or which values the columns return. Cases of
//! `test_tables` show calls that succeed and the values of the columns. The contracts allow a call to return
//! `NoMemory` although memory was not refused. The test `tests/memory --tables` refuses each allocation of
//! each call in turn. The clauses about `Refused` hold for States whose capabilities have known modes. Each
//! State that meets the invariant is such a State.
#![tactic(auto)]

mod changes;
mod decoding;
mod fault;
pub mod laws;
mod nodes;
mod opening;
mod read;
mod rows;
mod tables;

pub use fault::{TablesError, TablesFault};
pub use opening::MakeFault;
pub use read::page_with_nodes;
pub use tables::Tables;

//! A keeper that reads from a keeper in memory, and passes each change to a change store first.
//!
//! A store that is slow to read, or cannot be read, can still keep changes: [`ChangeStore`] needs only a
//! commit. [`Through`] reads from a keeper in memory, and makes a change in memory after the change store has
//! made it. So a read costs as much as a read in memory, and a change as much as a commit of the change
//! store. Any keeper can be a change store ([`KeeperChanges`]), and [`Through::over`] copies the contents of
//! a keeper into memory.
//!
//! `specs/Through.antt` defines which States a `Through` may have, and what a read leaves unchanged.
//! `specs/Copying.antt` defines which part of a keeper has been copied.
//!
//! ```rust
//! let mut keeper = Through::over(alloc, tables)?;
//! keeper.apply(alloc, &Change::AddVolume(volume))?;
//! let tables = keeper.into_change_store().into_keeper();
//! ```
//!
//! # Not promised
//!
//! Any call of a keeper may be refused. So no contract promises that each change is made in memory. If the
//! keeper in memory has no room for a change, later reads are refused, but no contract promises this. Tests
//! of `test_bytes` show that changes are made in memory, and that such reads are refused. If `over` or
//! `copied` returns `NoMemory`, an allocation was refused. No contract promises this either, and
//! `tests/test_csid_*.py` shows it.
#![tactic(auto)]

mod change_store;
mod copying;
mod through;

pub use change_store::{ChangeStore, KeeperChanges};
pub use through::{NotCopied, Through};

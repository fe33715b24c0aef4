//! A keeper of volumes in memory, and a keeper for tests that fails at a chosen call.
//!
//! [`MemKeeper`] has the ordered maps of `csi_maps` with their indexes, and the running totals of pools.
//! `specs/Kept.antt` defines which State the rows, indexes and totals represent together, and
//! `specs/Holding.antt` which State a keeper has. The proofs show that a change of the rows makes the change
//! of the State. A change undoes its steps if an allocation is refused. `specs/Restoring.antt` is about
//! adding volumes that have their numbers already, such as the volumes of another keeper. [`fakes`] has a
//! keeper that refuses one call, for tests of code that uses keepers.
//!
//! ```rust
//! let mut keeper = MemKeeper::new(alloc, 1)?;
//! let number = keeper.next_number()?;
//! keeper.apply(alloc, &Change::AddVolume(volume))?;
//! ```
#![tactic(auto)]

pub mod fakes;
mod mem;

pub use mem::MemKeeper;

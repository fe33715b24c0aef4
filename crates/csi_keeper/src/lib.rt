//! The State of volumes, its changes, and the trait of the stores that keep it.
//!
//! `specs/State.antt` defines the State of volumes as finite maps, its reads as filters of their entries, and
//! its changes. `specs/Invariant.antt` defines the invariant: each State that the machine reaches meets it.
//! `specs/Keeper.antt` defines the effect of each call on the model of a keeper. docs/MACHINE.md describes
//! these definitions in prose. `specs/facts/` has facts about these definitions that crates above also use:
//! sums over a pool after a change, the orders of the maps, sequences of reads, and supported keys.
//!
//! `csi_machine` answers requests with the trait [`Keeper`] only. The keepers are in crates above:
//! `csi_memory` keeps volumes in memory, `csi_tables` in SQLite, and `csi_through` both in memory and in a
//! change store. This crate also has the parts that keepers share:
//!
//! - [`Totals`]: the running totals of pools
//! - [`copy_volume`], [`copy_attachment`]: copies of volumes and attachments
//! - [`Health`]: the count of refusals, and if a keeper is down
//! - [`listed_at`], [`listed_each`], [`PageFold`]: the entries of a listing, and folds over them
//!
//! ```rust
//! let number = keeper.next_number()?;
//! keeper.apply(alloc, &Change::AddVolume(volume))?;
//! let page = keeper.page(alloc, 0, 100)?;
//! ```
#![tactic(auto)]

mod capability;
mod change;
mod coexistence;
mod copies;
mod health;
mod keeper;
pub mod laws;
mod listed;
mod page;
mod totals;
mod volume;

pub use capability::{CapKey, Kind, cap_key, capability_of, has_key, supported, wider_key};
pub use change::{Change, StoreFault, Usage};
pub use coexistence::coexist;
pub use copies::{copy_attachment, copy_key, copy_keys, copy_volume};
pub use health::Health;
pub use keeper::Keeper;
pub use listed::{Listed, ListedRow, PageWithNodes, listed_at, listed_each};
pub use page::{PageFold, fold_listed};
pub use totals::{Total, Totals};
pub use volume::{Attachment, Volume};

//! The rules that the volume machine uses to decide requests, such as the size of a volume and its pool. Most
//! rules are functions of values. Some read these values from a keeper.
//!
//! - `capability.rt`: [`keys_of`] and [`have_keys`] compute the keys of capabilities and compare them.
//! - `sizes.rt`: [`size`] and [`has_size`] choose and compare the size of a volume.
//! - `topology.rt`: [`serves`] and [`is_reachable`] test if a pool serves a topology.
//! - `choice.rt`: [`choose`] chooses the pool of a new volume.
//! - `commitment.rt`: [`is_overcommitted`] finds a pool that is too small for its volumes.
//! - `conflict.rt`: [`has_conflict`] finds attachments of a volume that cannot coexist.
//! - `ids.rt` has volume ids and the numbers in ids and tokens, `info.rt` the parts of a reply that describe
//!   a volume, and `finding.rt` the reads that find a volume.
//!
//! The definitions are in `specs/`. `specs/facts/` has facts about them that crates above also use.
//!
//! ```rust
//! let rooms = read_rooms(alloc, config, keeper)?;
//! let pool = choose(alloc, &rooms, &request.topology, size)?;
//! ```
#![tactic(auto)]

mod capability;
mod choice;
mod commitment;
mod conflict;
mod finding;
mod ids;
mod info;
mod sizes;
mod topology;

pub use capability::{have_keys, keys_of};
pub use choice::{Room, choose, count, read_rooms};
pub use commitment::is_overcommitted;
pub use conflict::has_conflict;
pub use finding::{caps_of, existing_number, volume_of};
pub use ids::{ID_PREFIX, decimal_of, number_of, number_of_id};
pub use info::{CONTEXT_KEY, context_of, segments_at, signed, topology_of};
pub use sizes::{has_size, size};
pub use topology::{is_reachable, serves};

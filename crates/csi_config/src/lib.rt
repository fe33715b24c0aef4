//! The configuration of the plugin: its name and version, the sizes of its volumes, its pools and its nodes.
//!
//! `specs/Faults.antt` is the table of faults, with one definition for each line of the table. Its `fault_of`
//! is the first fault of a configuration. `plugin.rt`, `sizes.rt`, `pools.rt` and `nodes.rt` each define one
//! part of a configuration and its checks. A check takes a part, and returns the part or a fault. The fault
//! owns the name of the faulty item, so a check takes no memory. [`Config::new`] runs the checks in the order
//! of the table. A `Config` has public fields, which any code may read, and a ghost field `faultless`, which
//! proves that it has none of the faults. [`laws`] states the consequences for the crates above.
//! [`Config::sample`] is the sample configuration.
//!
//! ```rust
//! let config = Config::new(plugin, sizes, pools, nodes)?;
//! for pool in config.pools() {
//!     offer(&pool.name, pool.bytes);
//! }
//! ```
#![tactic(auto)]

mod config;
mod fault;
pub mod laws;
mod nodes;
mod plugin;
mod pools;
mod rule;
mod sample;
mod sizes;

pub use config::Config;
pub use fault::{ConfigFault, NodeRule, PoolRule, SizeRule};
pub use nodes::Node;
pub use plugin::{MAX_NAME_BYTES, Plugin};
pub use pools::Pool;
pub use sizes::{GRANULE_BYTES, Sizes, is_whole};

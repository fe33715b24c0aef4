//! Reads a configuration from a TOML document. [`read_config`] returns the configuration or its first fault,
//! [`config_faults`] the faults of all its parts, and [`unknown_keys`] the keys that are not known.
#![tactic(auto)]

mod config_file;
mod faults;
mod unknown;

pub use config_file::{ConfigError, Key, KeyRule, Section, read_config};
pub use faults::config_faults;
pub use unknown::{UnknownKey, unknown_keys};

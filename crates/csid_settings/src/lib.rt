//! The settings and the ends of the server: its command line, its configuration, the groups of the system,
//! and each failure with its line and its exit status.
//!
//! ```rust
//! match read_arguments(&rt, arguments.as_slice())? {
//!     Some(matches) => obey(&console, task_of(&matches)),
//!     None => Ok(()), // help was asked for
//! }
//! ```
#![tactic(auto)]

mod command;
mod config;
mod failure;
mod group;

pub use command::{
    Chosen, Piped, Serving, TablesFile, Task, Volumes, odd_check, odd_number, odd_store,
    read_arguments, task_of,
};
pub use config::{checked_configuration, configuration};
pub use failure::{Endpoint, Failure, Resource, outcome};
pub use group::group_number;

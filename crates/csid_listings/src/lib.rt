//! Checks, counts and lists the tables in a file, and describes them for people and programs.
//!
//! [`check_tables`], [`list_tables`] and [`copy_tables`] read a copy in memory, which has the tables as they
//! were at one moment, even if another process writes the file. [`list_tables`] writes a list for people or
//! in JSON, and [`copy_tables`] writes a new file. [`keeper_over`] adopts the tables on a connection.
//! [`database_failure`], [`adoption_failure`] and [`store_failure`] return the failure, with its line and its
//! exit status, if tables cannot be opened, adopted or read.
//!
//! ```rust
//! check_tables(&console, "/var/lib/csid/volumes.db", &config)?;
//! list_tables(&console, "/var/lib/csid/volumes.db", &chosen, true)?;
//! ```
#![tactic(auto)]

mod backup;
mod check;
mod content;
mod copy;
mod explain;
mod listing;
mod memory;
mod tables;

pub use backup::copy_tables;
pub use check::{check_config, check_tables};
pub use content::{Content, read_content, report_content};
pub use listing::list_tables;
pub use memory::{files_of, is_no_memory, memory_failure, open};
pub use tables::{adoption_failure, database_failure, keeper_over, store_failure};

//! The command line, standard output and standard error of both programs: it parses arguments, refuses
//! invalid ones, shows words and sizes in columns, and writes lines about errors. It also opens the standard
//! handles that are closed, so that no file or connection gets the number of a standard handle.
//!
//! ```rust
//! let taken = occupy_closed(rt); // before anything is opened
//! let arguments = arguments(rt)?;
//! match matches(rt, &command_line, arguments.as_slice())? {
//!     Some(matches) => obey(rt, &matches),
//!     None => Ok(()), // help was asked for
//! }
//! ```
#![tactic(auto)]

mod command;
mod lines;
mod modes;
mod named;
mod options;
mod sizes;
mod standard;
mod table;
mod words;

pub use command::{ArgumentsFault, arguments, matches};
pub use lines::{error_line, is_decimal, say};
pub use modes::MODE_NAMES;
pub use named::{Cause, Named, cause};
pub use options::{CommandLine, CommandOption, OPTION, Subcommand, Takes};
pub use sizes::size_text;
pub use standard::occupy_closed;
pub use table::Table;
pub use words::{or_dash, put_next, put_word, word};

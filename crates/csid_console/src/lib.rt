//! Writes the lines of the server on standard error, and tests if a descriptor can be read or written without
//! waiting.
//!
//! The console never waits, so the server answers calls even if its standard error is full. Lines that
//! standard error does not take are counted. If many connections end in the same second, the connections
//! without a line are counted too.
//!
//! ```rust
//! let console = Console::new(&rt);
//! console.say_of(path, &"no tables were there, and new ones were made");
//! console.report_end(Ending::Idle, Instant::now(&rt)?, &"a connection that sent nothing was closed");
//! ```
#![tactic(auto)]

mod console;
mod ready;

pub use console::{Console, Ending};
pub use ready::{Way, is_ready};

//! The connections of the server: which connections wait, which one is served next, and how long the server
//! waits for each peer.
//!
//! # Not promised
//!
//! The contracts do not say what a socket gives, takes or refuses, or when a wait of the system ends. They do
//! not say that the two ends of a [`Turn`] share one clock: the clock is in a `RefCell`, and a contract
//! cannot state the content of a `RefCell`. They allow that a connection without a call is closed with the
//! ending `Failed`, even if no read of it failed.
//!
//! # How it works
//!
//! [`Waiting`] accepts connections from the socket and reads the first bytes of each, so a connection that
//! sends nothing delays no other connection. [`Turn`] is the connection that is served. A read or a write
//! waits only for the time that the peer may take, and polls the waiting connections during this time. The
//! two ends of a turn, [`TurnReader`] and [`TurnWriter`], read and write the bytes of the stream without a
//! gap, also after a wait. A reply holds if no other program can have changed the volumes. [`GuardedWriter`]
//! writes only replies that hold.
//!
//! `specs/Waiting.antt` says when a connection leaves the queue (`Ends`, `ComesIn`), and `specs/Calling.antt`
//! how the time of a call is counted.
//!
//! ```rust
//! let mut waiting = Waiting::new(&rt, listener, 1_000_000, None)?;
//! while let Some(peer) = waiting.next(&console)? {
//!     let turn = Turn::new(&console, peer, &mut waiting)?;
//!     let mut reader = turn.peer.first.sent.as_slice().chain(turn.reader());
//!     let mut writer = GuardedWriter::new(Always, turn.writer());
//!     serve(alloc, &config, &mut keeper, &mut reader, &mut writer);
//! }
//! ```
#![tactic(auto)]

mod clock;
mod limits;
mod peer;
mod pending;
mod turn;
mod waiting;

pub use peer::{Always, GuardedWriter, Leadership, Reply, has_gone};
pub use pending::{FirstBytes, PeerInput, Pending, Start};
pub use turn::{Turn, TurnReader, TurnWriter};
pub use waiting::{Waiting, report_ending};

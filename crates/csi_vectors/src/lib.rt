//! Test vectors: streams of calls, each with the bytes that a new server must write in reply.
//!
//! `vector.rt` parses a line. `judging.rt` serves the input of a vector with a new server in memory and
//! compares the output (`specs/Judging.antt` defines what such a server writes). `running.rt` runs the
//! vectors of all lines.
//!
//! ```rust
//! let vector = Vector::parse(alloc, line)?;
//! let is_passed = passes(alloc, &config, &vector)?;
//! ```
//!
//! # Not promised
//!
//! The contract of a run does not exclude that the run reports a failed read or write, or refused memory,
//! without such a failure. So it allows a run that gives up at once. It also allows a run that does not
//! flush. Tests in `tests/test_csictl_*.py` and the vectors of `tests/vectors` show that all lines are run.
#![tactic(auto)]

mod judging;
mod running;
mod vector;

pub use judging::passes;
pub use running::{VectorsEnd, run_vectors};
pub use vector::{LineFault, Vector};

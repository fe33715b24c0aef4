//! A run of calls over a database file and its WAL, from the bytes of both before the run to their bytes
//! after it.
//!
//! A [`Run`] does what `csid` does with files. [`Run::create_and_serve`] takes two files over any disks. It
//! makes a database if the files hold none yet, opens them, adopts their tables, serves calls, and closes the
//! files. Before the first call, it copies the volumes into memory, unless the options forbid a copy.
//! [`Run::adopt_and_serve`] begins with an open connection: it adopts the tables, serves calls, and closes
//! the files. [`Run::serve_path`] opens the files at a path, and then does the same as `create_and_serve`.
//!
//! `specs/Files.antt` defines which State the bytes of two files have (`HasState`). A run requires files that
//! have a State, and leaves files that have a State. So the next run can begin from the files that the last
//! run left ([`laws`]). The exception is an opening that fails while it reads the schema.
//! `specs/Starting.antt` has the files that a first run may start from (`MayStart`), and `specs/Serving.antt`
//! the files of a run that did not close them. The model of a stop is a disk that freezes: a stop may leave
//! any outcome of a crash of the frozen disk.
//!
//! `run.rt` has the parts of a run, its report and its failures. `path.rt` opens the files at a path,
//! `starting.rt` makes a database in files that hold none and opens it, `serving.rt` serves calls over open
//! files and closes them, and `adopted.rt` serves calls over the tables on a connection to any store.
//! `making.rt` makes an empty database, and `reserve.rt` holds memory for the next opening of tables.
//! `leaving.rt` closes files, or returns them without writing to them, and `copying.rt` copies the WAL into
//! the database file. `specs/Streams.antt` has the bytes that a run reads and writes.
//!
//! The files of lemmas follow the same steps. `RunLemmas` carries a run over to other models of its store,
//! and `ThroughLemmas` to a copy in memory. `LeaveLemmas`, `CopyLemmas` and `UnopenedLemmas` show that files
//! hold an outcome of the connection: files that are returned unclosed, files whose WAL is copied, and files
//! that are not opened. `FilesLemmas` shows that the State of files is the State of their tables, and
//! `StartingLemmas` that files with a new database have the first State.
//!
//! ```rust
//! let run = Run { alloc, config: &config, options, observer: &observer };
//! match run.create_and_serve(files, opening, &mut reader, &mut writer) {
//!     Ok(closed) => say(closed.report.end),
//!     Err(failure) => report(failure), // failure.into_files() returns the files
//! }
//! ```
#![tactic(auto)]

mod adopted;
mod copying;
pub mod laws;
mod leaving;
mod making;
mod path;
mod reserve;
mod run;
mod serving;
mod starting;

pub use leaving::leave;
pub use making::{NotLaidOut, WAL_WITH_FRAME_BYTES, lay_out};
pub use path::FilesAt;
pub use run::{Closed, Observer, Refusal, Run, RunFailure, RunOptions, RunReport};

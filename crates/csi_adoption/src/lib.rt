//! Adoption: checks the tables of a database, and makes a keeper over them, or over new tables.
//!
//! [`adopt`] takes a connection only if its tables represent a State that meets every constraint of the
//! configuration. The keeper then has exactly this State. Otherwise the error names the first constraint that
//! is broken, and the row that breaks it. The error contains the connection, whose rows are unchanged. A scan
//! keeps no row, so its memory does not grow with the tables.
//!
//! The modules, from the scans to the result:
//!
//! - `meta.rt`, `volumes.rt` and `attachments.rt` scan the tables: one scan for each table, with one fold for
//!   each constraint.
//! - `starts.rt` makes the folds of constraints, and `sums.rt` the folds of sums.
//! - `seen.rt` has the results of the scans: the first row that breaks each constraint, and the sums of pools
//!   and nodes.
//! - `volume_faults.rt` and `attachment_faults.rt` find the fault of a constraint, and `table_faults.rt` puts
//!   the faults in order. Each `check_` function returns the first fault of its constraints. So calling these
//!   functions with `?`, in the order of the constraints, finds the first fault of all.
//! - `adopting.rt` calls the scans and then the checks, and `content.rt` has the counts of rows.
//!
//! Before the first scan, a transaction is begun and rolled back, so that the scans see the last commit. The
//! joins of attachments are scanned after the attachments. Each attachment is then known to be at a node of
//! the configuration, so a volume has few attachments. The upgrade of tables of an earlier format is the last
//! step that can fail.
//!
//! The definitions in `specs/`:
//!
//! - `Folding.antt` has the folds, and `Seen.antt` the results of the scans.
//! - `Faults.antt` has the fault of each constraint and the order of the faults. A check reports the first
//!   fault (`Reports`). A check that copies a name may also report that memory was refused (`Says`).
//! - `Judging.antt` has the fault of given rows, by the format and the next number in the row of the table
//!   `meta` (`Meta`). The results of the scans over given rows (`in_volumes`, `in_attachments`) have the same
//!   faults, in the same order.
//! - `Passing.antt` defines rows that pass all constraints, and `Adopting.antt` the result for a connection.
//!   `Failing.antt` has the causes of a failure, and `Again.antt` the connection that a keeper left.
//!
//! The lemmas go from rows to a State and back:
//!
//! - `VolumeRowLemmas`, `AttachmentRowLemmas`: a row that passes is the row of a volume or an attachment.
//! - `VolumeMapLemmas`, `AttachmentMapLemmas`: rows are the rows of a map if their numbers rise and SQL's
//!   UNIQUE keeps them apart.
//! - `VolumeFoundLemmas`, `AttachmentFoundLemmas`, `StateFoundLemmas`: the State of these maps meets the
//!   invariant.
//! - `VolumePassLemmas`, `AttachmentPassLemmas`: the rows of a State that meets the invariant pass.
//! - `AdoptLemmas`, `TakeLemmas`: the same for the tables on a connection, and for the upgrade after the
//!   scans.
//! - `FailingLemmas`, `AgainLemmas`: the causes of a failure, and the connection that a keeper left.
//!
//! ```rust
//! match adopt(alloc, conn, &config) {
//!     Ok(keeper) => serve(keeper),
//!     Err(error) => say(&error.fault), // error.conn has the rows as they were
//! }
//! ```
#![tactic(auto)]

mod adopting;
mod attachment_faults;
pub mod attachment_laws;
mod attachments;
mod content;
mod fault;
pub mod laws;
mod meta;
mod seen;
mod starts;
mod sums;
mod table_faults;
mod volume_faults;
mod volumes;

pub use adopting::{AdoptError, adopt, adopt_and_count, is_blank};
pub use content::Content;
pub use fault::{AdoptFault, Foreign};

//! The constraints that stored rows must meet, and the scans that test each row for these constraints, in
//! memory that does not grow with the number of rows.
//!
//! A *scan* is a query with a fixed text. `scans.rt` has the five scans: the table `meta`, volumes by number,
//! attachments by rowid, attachments by number, and attachments with the caps of their volumes.
//! `csi_sql::each_row` passes the rows to a `csi_sql::Fold`, in the order of the query. `specs/Scans.antt`
//! defines the rows of each scan, and `specs/facts/` has the facts that follow if each row passes a test.
//!
//! A *fold* is a value that takes rows one by one, such as a sum. Its relation `folds` relates the fold
//! before some rows, the rows, and the fold after them. A struct of folds is a fold too, which passes each
//! row to all of its parts. In this way one scan tests many constraints of a table. The folds are:
//!
//! - [`TextSum`] sums over the rows with a text, and [`RowCount`] counts rows.
//! - [`Rising`] tests that the integers of a column rise.
//! - [`FoldEach`] is a list of folds of one type.
//! - [`FirstBroken`] finds the first row that breaks a constraint, with the number and the text that name the
//!   row. The `Display` of [`BrokenConstraint`] is the message about the row.
//! - [`FirstUnowned`] and [`FirstApart`] test the two constraints that depend on earlier rows.
//!   [`FirstUnowned`] keeps the capabilities of the last volume (`specs/Known.antt`). [`FirstApart`] keeps
//!   one attachment that represents all attachments of the last volume (`specs/Apart.antt`).
//!
//! A *constraint* is a function in `specs/` from a row to a Bool. The constraints in `Kinds` are about the
//! types of columns, in `Volumes` and `Attachments` about numbers and texts, and in `Coded` about encoded
//! columns. The constraint in `Joins` is about an attachment and the caps of its volume, whose rows SQL
//! joins. A constraint that needs no memory is a [`RowTest`]. A constraint that decodes capabilities or
//! parameters is a [`RowTrial`]: it fails if memory is refused, and a row that passes can be decoded again.
//! [`InfallibleTest`] makes a trial of a test. Sums over rows, such as the bytes of a pool or the attachments
//! of a node, are folds and not tests of one row.
//!
//! Keys and parameters have one encoding each, their *canonical bytes* (`csi_columns`). `specs/Coding.antt`
//! defines which keys or parameters some bytes encode: the keys or parameters whose canonical bytes are these
//! bytes. So `coding.rt` decodes the bytes, encodes the result, and compares both.
//!
//! The [`laws`] state what a constraint means for the State (`specs/Agreement.antt`): the row of a volume or
//! an attachment passes if and only if the volume or attachment itself meets the constraint.
//!
//! The contracts about rows hold if the disk is clean when the call ends (`HasCleanDisk`), that is, if it has
//! returned the bytes that were written to it. The schema must be the schema that `csi_sql::make_tables`
//! makes. A scan changes neither the tables nor the contents that a stop may leave.
//!
//! ```rust
//! let mut unsized_volume = FirstBroken {
//!     alloc,
//!     test: InfallibleTest { test: IsSized },
//!     number: 0,
//!     text: 1,
//!     found: None,
//! };
//! scan_volumes(&mut conn, &mut unsized_volume)?;
//! ```
//!
//! # Not promised
//!
//! The contracts do not promise that a scan succeeds, the value of a fold after an error, or how much memory
//! a scan takes. Tests of `test_tables` show each column of a scan and the displayed texts.
#![tactic(auto)]

mod apart;
mod attachments;
mod broken;
mod cells;
mod coded;
mod coding;
mod count;
mod each;
mod joins;
mod kinds;
pub mod laws;
mod named;
mod owners;
mod rising;
mod scans;
mod sums;
mod trial;
mod volumes;

pub use apart::{FirstApart, LastAttachment};
pub use attachments::{HasFlag, IsAtNode};
pub use broken::{AttachmentConstraint, BrokenConstraint, VolumeConstraint};
pub use cells::integer_at;
pub use coded::{HasCap, HasCaps, HasParams};
pub use count::RowCount;
pub use each::FoldEach;
pub use kinds::{HasAttachmentKinds, HasVolumeKinds};
pub use named::{FirstBroken, InfallibleTest, RowName};
pub use owners::{FirstUnowned, KnownCaps};
pub use rising::Rising;
pub use scans::{scan_attachments, scan_meta, scan_owners, scan_places, scan_volumes};
pub use sums::{TextSum, Weight};
pub use trial::{RowTest, RowTrial};
pub use volumes::{IsInPools, IsNamed, IsNumbered, IsSized};

//! Defines how volumes and attachments are rows of tables, and encodes their capabilities and parameters for
//! a column.
//!
//! [`write_caps`] encodes capabilities, and [`write_params`] parameters and mutable parameters
//! (`encoding.rt`). Both return the canonical bytes of a `CreateVolumeRequest` that has no other fields
//! (`specs/Encoding.antt`). `specs/Entries.antt` defines the rows that represent a volume and an attachment,
//! and `specs/facts/` has facts about columns and rows that several crates need. Crates above decode the
//! columns: `csi_tables` decodes what it wrote, and `csi_constraints` tests any bytes.
//!
//! ```rust
//! let caps = write_caps(alloc, volume.caps.as_slice())?;
//! let params = write_params(alloc, &volume.params, &volume.mutable)?;
//! ```
#![tactic(auto)]

mod encoding;
pub mod laws;

pub use encoding::{write_caps, write_params};

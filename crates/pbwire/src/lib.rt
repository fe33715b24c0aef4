//! The wire format of Protocol Buffers: reads the bytes of a message as fields, and writes fields as bytes.
//!
//! [`Fields`] reads a message from its start and borrows each payload from it, without allocating.
//! [`put_varint`], [`put_bytes`], [`put_joined`] (bytes in two parts) and [`put_entry`] append one field in
//! its shortest encoding, and [`put_map`] appends one field for each entry of a map. If memory is refused,
//! these functions leave the vector unchanged. [`close_bytes`] ends a field whose payload was appended after
//! its head. So an embedded message is written in place, without another buffer.
//!
//! `specs/Wire.antt` defines the encodings of varints, fields and lists of fields, following the Protocol
//! Buffers encoding guide. `specs/Reading.antt` defines the field at the start of bytes, or the first fault
//! that a reader meets. `specs/Faults.antt` has the table of faults, and `specs/Writing.antt` the shortest
//! encoding. The functions of [`laws`] relate these definitions to one another.
//!
//! ```rust
//! let mut fields = Fields::new(message);
//! while let Some(field) = fields.next_field() {
//!     if let Field { number: 1, value: Value::Bytes(name) } = field? {
//!         take_name(name);
//!     }
//! }
//! ```
#![tactic(auto)]

mod field;
pub mod laws;
mod reading;
mod writing;

pub use field::{Field, Value, WireFault, WireWhy};
pub use reading::Fields;
pub use writing::{
    close_bytes, put_bytes, put_entry, put_joined, put_map, put_varint, varint_field,
};

//! Decodes and encodes messages of any type (Protocol Buffers, proto3).
//!
//! The value that bytes encode is a function of *views*. A view collects the fields that have one field
//! number: the last text, all payloads, or the joined fields of an embedded message. Three short definitions
//! describe a message: the view that gives each part of its value, its *schema* (the field numbers of its
//! texts and embedded messages), and how the value is written. The trait [`Message`] decodes messages of any
//! type, and the trait [`Written`] encodes them. The crates above define the messages.
//!
//! Decoding takes two passes. The first looks for faults and takes no memory, so a malformed message is never
//! refused for lack of memory. The second builds the value. Embedded messages are merged and written without
//! a copy.
//!
//! ```rust
//! match decode_message::<Package, Message>(alloc, bytes) {
//!     Ok(message) => take(&message),
//!     Err(DecodeFault::Malformed { at }) => refuse(at),
//!     Err(DecodeFault::NoMemory) => give_up(),
//! }
//! ```
#![tactic(auto)]

mod entry;
pub mod laws;
mod message;
mod slots;
mod writing;

pub use message::{
    DecodeFault, MALFORMED_MESSAGE, Message, decode_boxed, decode_message, first_fault, merge, read,
};
pub use slots::{
    is_entry, is_message, is_text, merge_entry, merge_message, push_message, set_text, text,
};
pub use writing::{
    Written, put_flag, put_joined, put_map, put_message, put_messages, put_option, put_presence,
    put_signed, put_single, put_text, put_texts, whole_or_none,
};

//! Cuts streams of calls and replies into frames. The bytes of a stream may come in pieces of any size.
//!
//! The crate `envelope` defines frames, and which calls a list of bytes contains. The types and limits are
//! also in `envelope`, such as `envelope::MAX_MESSAGE_BYTES`. This crate does not export them again.
//! `specs/Framer.antt` defines the bytes that a framer has taken, `specs/Holding.antt` the properties of the
//! bytes it holds, and `specs/Prefix.antt` which bytes of a piece it takes. [`send`] writes a frame
//! (`specs/Writing.antt`).
//!
//! [`Framer`] and [`ReplyFramer`] are one type, [`Cutter`]. A cutter appends the bytes that may belong to a
//! head to its buffer, looks at them, and removes the bytes after the end of the frame or after the fault.
//! Then it appends the bytes of the body to the buffer in one block. The buffer is the only memory that a
//! cutter allocates. A cutter remembers if the frame is complete (`Marks` of `specs/Holding.antt`), so that
//! the head is not read again.
//!
//! ```rust
//! let mut framer = Framer::new(alloc)?;
//! let mut rest = piece;
//! while !rest.is_empty() && framer.fault().is_none() {
//!     let taken = framer.feed(rest); // up to the end of a frame
//!     rest = &rest[taken..];
//!     if let Some(call) = framer.frame() {
//!         answer(call.path, call.message);
//!         framer.next_frame();
//!     }
//! }
//! ```
#![tactic(auto)]

mod framer;
mod prefix;
mod writing;

pub use framer::{Cutter, Framer, ReplyFramer};
pub use writing::send;

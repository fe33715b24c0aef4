//! The envelope: the frames of calls and replies as bytes, and how a list of bytes is read as frames.
//!
//! The envelope is this project's own (docs/PROTOCOL.md, "Envelope"). Calls and replies have the same form of
//! frame: the length of a text, the text, a flag, the length of a body, and the body. A reply also has a
//! status before the length of the text, and the status bounds the lengths of text and body. So both kinds of
//! frame have one table of rules. `specs/Envelope.antt` encodes a frame. `specs/Grammar.antt` defines which
//! byte breaks a rule of the table, and in which part of the frame. The fault is the first break.
//! `specs/Stream.antt` reads a list of bytes as calls and an end. Each lemma is proved once, for both kinds
//! of frame, and `specs/facts/` has the lemmas that other crates also use.
//!
//! [`take_frame`] and [`take_reply`] read the first frame of all remaining input, and [`put_request`] appends
//! the frame of a call. Heads of replies, refusals and fault texts are made in arrays of a fixed size,
//! without allocating. The crate `frames_core` reads a stream that comes in pieces, with [`look_at`],
//! [`Head`], [`call_of`] and [`reply_of`].
//!
//! ```rust
//! match take_frame(rest) {
//!     Taken::Nothing => stop(),
//!     Taken::Frame(call, size) => {
//!         answer(call.path, call.message);
//!         rest = &rest[size..];
//!     }
//!     Taken::Fault(fault) => refuse(fault_text(&fault).bytes()),
//! }
//! ```
#![tactic(auto)]

mod call;
mod fault;
mod fixed;
mod head;
mod kind;
pub mod laws;
mod limits;
mod reply;
mod reply_fault;
mod request;
mod taken;
mod taken_reply;

pub use call::Call;
pub use fault::{Fault, FrameFault, FrameWhy};
pub use fixed::{
    Fixed, FixedFrame, FixedText, fault_text, refusal_frame, reply_head, text_and_number,
};
pub use head::{Flaw, Head, Look, call_of, is_whole, look_at, reply_of};
pub use kind::{FrameKind, Part};
pub use limits::{
    MAX_BODY_BYTES, MAX_FRAME_BYTES, MAX_HEAD_BYTES, MAX_MESSAGE_BYTES, MAX_PATH_BYTES,
    MAX_REFUSAL_TEXT_BYTES, MAX_REPLY_BYTES, MAX_REPLY_HEAD_BYTES, MAX_TEXT_BYTES,
    REPLY_HEAD_BYTES,
};
pub use reply::Reply;
pub use reply_fault::{ReplyFault, ReplyWhy};
pub use request::put_request;
pub use taken::{Taken, take_frame};
pub use taken_reply::{TakenReply, take_reply};

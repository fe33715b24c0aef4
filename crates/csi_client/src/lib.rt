//! The client: it sends the frames of calls, and shows the replies.
//!
//! `replies.rt` writes a reply as a line, `lines.rt` writes its body as lines, and `escape.rt` writes a text
//! as one word. `specs/Replies.antt`, `specs/Lines.antt` and `specs/Escape.antt` define the same lines and
//! words by functions. The contracts use these functions: the lines show the value that the codec's
//! `read_response` reads from the bytes. `calling.rt` makes the frame of a call, which `send` of
//! `frames_core` writes. `again.rt` sends the frame again until the call is answered; `specs/Again.antt`
//! defines which outcomes are answers. `receiving.rt` reads the first reply and `showing.rt` shows all
//! replies of a stream, both with a `ReplyFramer`. `specs/Receiving.antt` and `specs/Showing.antt` define the
//! bytes read and written for each outcome, and `specs/Live.antt` what holds between two reads.
//!
//! ```rust
//! put_call(&mut frame, method, &message)?;
//! send(&mut writer, &frame)?;
//! let received = receive(alloc, &mut reader);
//! ```
//!
//! # Not promised
//!
//! The contracts do not exclude that an outcome reports a failed read or write, or refused memory, without
//! such a failure. Tests in `tests/test_csictl_*.py` exclude that.
#![tactic(auto)]

mod again;
mod calling;
mod escape;
mod lines;
mod receiving;
mod replies;
mod showing;

pub use again::{Exchanges, Line, call_again, is_unanswered, pause_millis};
pub use calling::put_call;
pub use receiving::{Received, ReceivedReply, receive};
pub use replies::{put_body_lines, put_reply_line};
pub use showing::{ShowEnd, show_all};

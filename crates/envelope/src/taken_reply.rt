//! Reads the first frame of a reply from all of the remaining input.

ghost use Rattle.envelope.specs.TakenReply.{TakesFirstReply};

use crate::head::reply_of;
use crate::reply::Reply;
use crate::reply_fault::ReplyFault;
use crate::taken::first_frame;

/// The result of [`take_reply`] for the remaining input.
#[derive(Clone, Copy, Debug)]
pub enum TakenReply<'a> {
    /// The remaining input is empty.
    Nothing,
    /// A reply, and the length of its frame in bytes.
    Frame(Reply<'a>, usize),
    /// The bytes do not begin with a frame. The place of the fault is counted from the first of these bytes.
    Fault(ReplyFault),
}

/// Reads the first reply of the bytes, or finds the fault of bytes that do not begin with a reply.
///
/// The bytes must be all of the remaining input, since an incomplete frame is the fault `EndOfInput`. The
/// function does not allocate and does not read the body.
pub fn take_reply(bytes: &[u8]) -> TakenReply<'_>
    ensures { TakesFirstReply bytes.now result }
{
    match first_frame(bytes) {
        Ok(None) => TakenReply::Nothing,
        Ok(Some(size)) => {
            let (prefix, _) = bytes.split_at(size);
            TakenReply::Frame(reply_of(prefix), size)
        }
        Err(fault) => TakenReply::Fault(fault),
    }
}

//! Writes the replies to calls, and the reply to a malformed frame.

ghost use Rattle.std.specs.Prelude.{◌≡◌, ◌≤◌, ◌+◌, [], length, drop, OnOk};
ghost use Rattle.std.specs.Io.KnownBytes.{Appends};
ghost use Rattle.envelope.specs.Envelope.{IsReply};
ghost use Rattle.envelope.specs.Envelope.{reply as reply_frame};
ghost use Rattle.frames_core.specs.Writing.{WrotePrefix};
ghost use Rattle.csi_server.specs.Serving.{fault_frame};
ghost use Rattle.csi_server.specs.Service.{reply_of, HoldsBody};

use crate::refused::CallResult;
use csi_types::Code;
use envelope::{
    FrameFault, MAX_BODY_BYTES, REPLY_HEAD_BYTES, fault_text, refusal_frame, reply_head,
};
use frames_core::send;
use std::io::{self, Write};

// Writes the head of a reply with status 0 into the room before its body.
#[inline(always)]
fn set_head(reply: &mut Vec<u8>)
    requires head { REPLY_HEAD_BYTES ≤ length reply.old.items }
    requires small { length reply.old.items ≤ REPLY_HEAD_BYTES + MAX_BODY_BYTES }
    ensures { reply.new.items ≡ reply_frame (record {
      status = 0;
      text = [];
      body = drop REPLY_HEAD_BYTES reply.old.items;
    }) }
{
    let head = reply_head((reply.len() - REPLY_HEAD_BYTES) as u32);
    reply
        .slice_mut(..REPLY_HEAD_BYTES)
        .copy_from_slice(head.bytes());
}

/// Writes the reply to a call and flushes the writer. The head and the body are passed to the writer
/// together, so they go out in one write if the writer takes all of their bytes. After an error, a prefix of
/// the reply was written, which may be empty or complete.
#[inline(always)]
pub(crate) fn put_reply<W: Write>(
    writer: &mut W,
    answer: &CallResult,
    reply: &mut Vec<u8>,
) -> io::Result<()>
    requires { HoldsBody answer.now reply.old.items }
    ensures all { OnOk result (Appends (W.contents writer.old) (W.contents writer.new)
        (reply_frame (reply_of answer.now reply.old.items))) }
    ensures part { WrotePrefix (W.contents writer.old) (W.contents writer.new)
        (reply_frame (reply_of answer.now reply.old.items)) }
    ensures formed { IsReply (reply_of answer.now reply.old.items) }
{
    match answer {
        Ok(()) => {
            set_head(reply);
            send(writer, reply.as_slice())
        }
        Err(refusal) => send(writer, refusal.frame().bytes()),
    }
}

/// Writes the reply that refuses a malformed frame, and flushes the writer. After an error, a prefix of the
/// reply was written, which may be empty or complete.
pub(crate) fn put_fault<W: Write>(writer: &mut W, fault: &FrameFault) -> io::Result<()>
    ensures all { OnOk result (Appends (W.contents writer.old) (W.contents writer.new)
        (fault_frame fault.now)) }
    ensures part { WrotePrefix (W.contents writer.old) (W.contents writer.new) (fault_frame fault.now) }
{
    send(
        writer,
        refusal_frame(Code::InvalidArgument.number(), fault_text(fault).bytes()).bytes(),
    )
}

//! Answers rows about the heads of replies, refusals, texts of faults, and limits.

use super::parts::text_of;
use crate::shown::displayed;
use envelope::{
    FrameFault, FrameWhy, MAX_BODY_BYTES, MAX_FRAME_BYTES, MAX_HEAD_BYTES, MAX_MESSAGE_BYTES,
    MAX_PATH_BYTES, MAX_REFUSAL_TEXT_BYTES, MAX_REPLY_BYTES, MAX_REPLY_HEAD_BYTES, MAX_TEXT_BYTES,
    REPLY_HEAD_BYTES, fault_text, refusal_frame, reply_head,
};
use std::alloc::Global;
use test_kit::{RowFault, bytes_text, number_of, put_part};

/// Returns the head of a reply with status 0 for a body of this length.
pub(crate) fn head_answer(alloc: Global, length: &str) -> Result<String, RowFault> {
    let length: u32 = number_of(length)?;
    bytes_text(alloc, reply_head(length).bytes())
}

/// Returns the reply that refuses a call with the text `unknown method` and this status, which must not be 0.
pub(crate) fn refusal_answer(alloc: Global, status: &str) -> Result<String, RowFault> {
    let status: u8 = number_of(status)?;
    if status == 0 {
        return Err(RowFault::NotRow);
    }
    bytes_text(alloc, refusal_frame(status, b"unknown method").bytes())
}

/// Returns the text that a server sends for each kind of fault at byte `at`. If a text differs from the
/// fault's `Display`, `displayed otherwise` follows the text.
pub(crate) fn texts_answer(alloc: Global, at: &str) -> Result<String, RowFault> {
    let at: u64 = number_of(at)?;
    let mut out = String::new(alloc);
    for why in [
        FrameWhy::BadPathLength,
        FrameWhy::BadPath,
        FrameWhy::BadFlag,
        FrameWhy::TooLong,
        FrameWhy::EndOfInput,
    ] {
        let fault = FrameFault { why, at };
        put_part(&mut out, text_of(fault_text(&fault).bytes())?)?;
        if displayed(alloc, &fault)?.as_bytes() != fault_text(&fault).bytes() {
            put_part(&mut out, "displayed otherwise")?;
        }
    }
    Ok(out)
}

/// Returns the limits of the envelope in bytes, in this order:
///
/// - of a call: path, message, head and frame
/// - of a reply: text, body, head without a text, head with a text, and frame
/// - of a refusal: text
pub(crate) fn limits_answer(alloc: Global) -> Result<String, RowFault> {
    let mut out = String::new(alloc);
    for limit in [
        MAX_PATH_BYTES,
        MAX_MESSAGE_BYTES,
        MAX_HEAD_BYTES,
        MAX_FRAME_BYTES,
        MAX_TEXT_BYTES,
        MAX_BODY_BYTES,
        REPLY_HEAD_BYTES,
        MAX_REPLY_HEAD_BYTES,
        MAX_REPLY_BYTES,
        MAX_REFUSAL_TEXT_BYTES,
    ] {
        put_part(&mut out, &displayed(alloc, &limit)?)?;
    }
    Ok(out)
}

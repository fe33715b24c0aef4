//! Answers rows about replies: the lines in which the client shows them.

use crate::words::{first_word, named};
use csi_client::{put_body_lines, put_reply_line};
use csi_types::Method;
use envelope::{Reply, TakenReply, take_reply};
use pbmessage::DecodeFault;
use std::alloc::Global;
use test_kit::{RowFault, bytes_of};

/// Answers a row about a reply. The row is the name of a method, or `-` for no method, and bytes. The answer
/// is the lines that the client prints for the first reply in the bytes.
///
/// # Errors
///
/// If the row has no such form, no method has its name, the bytes begin with no reply, or memory is refused.
pub(crate) fn answer(alloc: Global, row: &str) -> Result<Vec<u8>, RowFault> {
    let (name, notation) = first_word(row)?;
    let method = match name {
        "-" => None,
        name => Some(named(alloc, name)?),
    };
    first_lines(alloc, method, &bytes_of(alloc, notation)?)
}

fn first_lines(alloc: Global, method: Option<Method>, bytes: &[u8]) -> Result<Vec<u8>, RowFault> {
    match take_reply(bytes) {
        TakenReply::Frame(reply, _) => lines_of(alloc, method, &reply),
        TakenReply::Nothing | TakenReply::Fault(_) => Err(RowFault::Refused("no reply")),
    }
}

/// Returns the lines that the client prints for a reply. If the body cannot be decoded as the response of
/// `method`, its line is `malformed`.
///
/// # Errors
///
/// If memory is refused.
pub(crate) fn lines_of(
    alloc: Global,
    method: Option<Method>,
    reply: &Reply<'_>,
) -> Result<Vec<u8>, RowFault> {
    let mut out = Vec::new(alloc);
    put_reply_line(alloc, &mut out, reply)?;
    match put_body_lines(alloc, &mut out, method, reply) {
        Ok(()) => {}
        Err(DecodeFault::Malformed { .. }) => out.extend_from_slice(b"malformed\n")?,
        Err(DecodeFault::NoMemory) => return Err(RowFault::NoMemory),
    }
    Ok(out)
}

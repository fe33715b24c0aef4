//! Answers rows about messages: their decoding, their checks and their canonical bytes.

mod wire;

use crate::shown::{displayed, in_rust};
use crate::words::{first_word, named};
use csi_checks::check;
use csi_codec::{decode, decode_response, encode_request, encode_response};
use csi_types::{
    MAX_MAP_BYTES, MAX_MOUNT_FLAGS_BYTES, MAX_NODE_ID_BYTES, MAX_NODES, MAX_NUMBER,
    MAX_PAGE_ENTRIES, MAX_POOL_BYTES, MAX_POOLS, MAX_SEGMENTS, MAX_TEXT_BYTES, MAX_VOLUMES, Method,
    Request, Response,
};
use pbmessage::DecodeFault;
use std::alloc::Global;
use test_kit::{RowFault, bytes_of, bytes_text};
use wire::{fields_answer, prefixes_answer, write_answer};

/// Answers a row about messages. The row is the name of a method, a question and the bytes of a message, such
/// as `Probe request -`. Some questions need no method. Their row is the question, such as `fields`, and its
/// arguments.
///
/// # Errors
///
/// If the row has no such form, no method has its name, or memory is refused.
pub(crate) fn answer(alloc: Global, row: &str) -> Result<String, RowFault> {
    let (name, rest) = first_word(row)?;
    match name {
        "limit" => limit_answer(alloc, rest),
        "fault" if rest == "NoMemory" => displayed(alloc, &DecodeFault::NoMemory),
        "fields" => fields_answer(alloc, rest),
        "prefixes" => prefixes_answer(alloc, rest),
        "write" => write_answer(alloc, rest),
        _ => {
            let method = named(alloc, name)?;
            let (question, notation) = first_word(rest)?;
            message_answer(alloc, method, question, &bytes_of(alloc, notation)?)
        }
    }
}

// Answers a question about a message. The message goes at once to a generic function, since owning a value of
// this size is expensive to prove.
fn message_answer(
    alloc: Global,
    method: Method,
    question: &str,
    bytes: &[u8],
) -> Result<String, RowFault> {
    match question {
        "response" | "response-value" => {
            let response = decode_response(alloc, method, bytes);
            read_answer(alloc, response, question, bytes)
        }
        _ => read_answer(alloc, decode(alloc, method, bytes), question, bytes),
    }
}

// Answers a question about a message. Returns the fault if the bytes cannot be decoded.
fn read_answer<M: Message>(
    alloc: Global,
    message: Result<M, DecodeFault>,
    question: &str,
    bytes: &[u8],
) -> Result<String, RowFault> {
    match message {
        Ok(message) => message.answer(alloc, question, bytes),
        Err(fault) => displayed(alloc, &fault),
    }
}

// A message that rows ask about: a request or a response.
trait Message: Drop {
    // Answers a question about the message, which was decoded from these bytes.
    fn answer(&self, alloc: Global, question: &str, bytes: &[u8]) -> Result<String, RowFault>;
}

impl Message for Request {
    fn answer(&self, alloc: Global, question: &str, bytes: &[u8]) -> Result<String, RowFault> {
        match question {
            "request" => {
                let mut out = Vec::new(alloc);
                encode_request(self, &mut out)?;
                let canonical = compared(alloc, bytes, &out)?;
                Ok(format!(in alloc; "{canonical}, {}", checked(self))?)
            }
            "check" => displayed(alloc, &checked(self)),
            "request-value" => in_rust(alloc, self),
            _ => Err(RowFault::NotRow),
        }
    }
}

impl Message for Response {
    fn answer(&self, alloc: Global, question: &str, bytes: &[u8]) -> Result<String, RowFault> {
        if question == "response-value" {
            return in_rust(alloc, self);
        }
        let mut out = Vec::new(alloc);
        encode_response(self, &mut out)?;
        compared(alloc, bytes, &out)
    }
}

// Returns the text of the reason for which the argument checks refuse a request, or `passed`.
fn checked(request: &Request) -> &'static str {
    match check(request) {
        Ok(()) => "passed",
        Err(reason) => reason.text(),
    }
}

// Returns the canonical bytes as [`bytes_text`] writes them, or `same` if they are the bytes of the row.
fn compared(alloc: Global, bytes: &[u8], canonical: &[u8]) -> Result<String, RowFault> {
    if canonical == bytes {
        return displayed(alloc, &"same");
    }
    bytes_text(alloc, canonical)
}

// The names and values of the limits.
static LIMITS: [(&str, u64); 11] = [
    ("MAX_TEXT_BYTES", MAX_TEXT_BYTES as u64),
    ("MAX_NODE_ID_BYTES", MAX_NODE_ID_BYTES as u64),
    ("MAX_MOUNT_FLAGS_BYTES", MAX_MOUNT_FLAGS_BYTES as u64),
    ("MAX_MAP_BYTES", MAX_MAP_BYTES as u64),
    ("MAX_POOLS", MAX_POOLS as u64),
    ("MAX_SEGMENTS", MAX_SEGMENTS as u64),
    ("MAX_NODES", MAX_NODES as u64),
    ("MAX_VOLUMES", MAX_VOLUMES),
    ("MAX_PAGE_ENTRIES", MAX_PAGE_ENTRIES as u64),
    ("MAX_POOL_BYTES", MAX_POOL_BYTES),
    ("MAX_NUMBER", MAX_NUMBER),
];

// Returns the value of the limit with this name.
fn limit_answer(alloc: Global, name: &str) -> Result<String, RowFault> {
    for (limit, value) in &LIMITS {
        if *limit == name {
            return displayed(alloc, value);
        }
    }
    Err(RowFault::NotRow)
}

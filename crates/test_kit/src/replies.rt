//! Executes a call over a keeper and returns its reply, from the bytes of its message.

use crate::fault::RowFault;
use crate::parts::bytes_text;
use csi_checks::check;
use csi_codec::{decode, decode_response};
use csi_config::Config;
use csi_keeper::{Keeper, StoreFault};
use csi_machine::{Verdict, answer};
use csi_types::{Entry, Method, Reason, Request, Response};
use pbmessage::DecodeFault;
use std::alloc::Global;
use std::fmt::Write;

// The greatest number of tries. A call for which memory is refused is made once more.
const TRIES: u8 = 2;

// The text of the fault that the body of a listing cannot be decoded.
const NO_PAGE: &str = "the body is no page";

/// The reply to a call in a test. The call is executed over a keeper, without a server.
pub enum Reply {
    /// The call succeeded. The value is the body of its response.
    Done(Vec<u8>),
    /// The message could not be decoded as a request.
    Malformed(DecodeFault),
    /// The request was refused for this reason.
    Refused(Reason),
    /// The keeper failed with this fault.
    Failed(StoreFault),
}

impl Drop for Reply {
    fn drop(self) {
        match self {
            Reply::Done(_body) => {}
            Reply::Malformed(_) | Reply::Refused(_) | Reply::Failed(_) => {}
        }
    }
}

impl Reply {
    // Returns true if the call was refused because memory was refused.
    fn is_for_memory(&self) -> bool {
        matches!(
            self,
            Reply::Malformed(DecodeFault::NoMemory) | Reply::Failed(StoreFault::NoMemory)
        )
    }

    /// Returns the status number, and after it the body as [`bytes_text`] writes it if the call succeeded. If
    /// the message was malformed or the request was refused, the text of the fault or of the refusal replaces
    /// the body.
    ///
    /// # Errors
    ///
    /// If the keeper failed, or memory is refused.
    pub fn text(&self, alloc: Global) -> Result<String, RowFault> {
        Ok(match self {
            Reply::Done(body) => format!(in alloc; "0 {}", bytes_text(alloc, body)?)?,
            Reply::Malformed(fault) => format!(in alloc; "3 {fault}")?,
            Reply::Refused(reason) => format!(in alloc; "{} {reason}", reason.code().number())?,
            Reply::Failed(fault) => return Err(RowFault::from(*fault)),
        })
    }

    /// Returns the reply to ListVolumes as a text. If the call succeeded, the text has the number of entries,
    /// the token, and for each entry the id and the nodes. Otherwise returns the text of [`Reply::text`].
    ///
    /// # Errors
    ///
    /// If the body is not a page, the keeper failed, or memory is refused.
    pub fn page_text(&self, alloc: Global) -> Result<String, RowFault> {
        match self {
            Reply::Done(body) => page_text(alloc, body),
            other => other.text(alloc),
        }
    }
}

/// Decodes a message, checks the request and executes it. If memory is refused, tries once more.
pub fn reply_to<K: Keeper>(
    alloc: Global,
    config: &Config,
    keeper: &mut K,
    method: Method,
    message: &[u8],
) -> Reply {
    let mut reply = Reply::Failed(StoreFault::NoMemory);
    for _ in 0..TRIES {
        if reply.is_for_memory() {
            reply = message_reply(alloc, config, keeper, method, message);
        }
    }
    reply
}

fn message_reply<K: Keeper>(
    alloc: Global,
    config: &Config,
    keeper: &mut K,
    method: Method,
    message: &[u8],
) -> Reply {
    match decode(alloc, method, message) {
        Ok(request) => request_reply(alloc, config, keeper, &request),
        Err(fault) => Reply::Malformed(fault),
    }
}

fn request_reply<K: Keeper>(
    alloc: Global,
    config: &Config,
    keeper: &mut K,
    request: &Request,
) -> Reply {
    if let Err(reason) = check(request) {
        return Reply::Refused(reason);
    }
    let mut out = Vec::new(alloc);
    match answer(alloc, config, keeper, request, &mut out) {
        Ok(Verdict::Done) => Reply::Done(out),
        Ok(Verdict::Refused(reason)) => Reply::Refused(reason),
        Err(fault) => Reply::Failed(fault),
    }
}

fn page_text(alloc: Global, body: &[u8]) -> Result<String, RowFault> {
    match decode_response(alloc, Method::ListVolumes, body) {
        Ok(response) => entries_text(alloc, &response),
        Err(DecodeFault::NoMemory) => Err(RowFault::NoMemory),
        Err(_) => Err(RowFault::Refused(NO_PAGE)),
    }
}

// Returns the entries of a listing as a text. The response is borrowed, since moving a value of this size is
// expensive.
fn entries_text(alloc: Global, response: &Response) -> Result<String, RowFault> {
    let Response::List { entries, token } = response else {
        return Err(RowFault::Refused(NO_PAGE));
    };
    let mut text = format!(in alloc; "{} entries, token '{token}':", entries.len())?;
    for entry in entries {
        put_entry(&mut text, entry)?;
    }
    Ok(text)
}

// Appends the id of a volume, and the nodes that it is published to.
fn put_entry(text: &mut String, entry: &Entry) -> Result<(), RowFault> {
    let id = match &entry.volume {
        Some(volume) => volume.id.as_str(),
        None => "-",
    };
    write!(text, " {id}")?;
    if let Some(nodes) = &entry.nodes {
        for node in nodes {
            write!(text, "@{node}")?;
        }
    }
    Ok(())
}

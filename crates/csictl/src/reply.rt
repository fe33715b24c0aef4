//! Shows replies, as lines or as JSON.

ghost use Rattle.std.specs.Prelude.{◌≡◌};
ghost use Rattle.csictl.specs.Faults.{of_decoder};

use crate::failure::{Ended, Failure};
use crate::json;
use csi_client::{put_body_lines, put_reply_line};
use csi_codec::decode_response;
use csi_types::{Entry, Items, Method, Response, Text, copy_text};
use envelope::Reply;
use pbmessage::DecodeFault;
use serde_json::Value;
use std::alloc::{AllocError, Global};
use std::io::Write;

impl From<DecodeFault> for Failure {
    ghost from_gives = { λ fault failure. failure ≡ of_decoder fault };

    fn from(fault: DecodeFault) -> Failure {
        match fault {
            DecodeFault::NoMemory => Failure::NoMemory,
            DecodeFault::Malformed { .. } => Failure::BadBody,
        }
    }
}

/// Writes bytes to standard output.
///
/// # Errors
///
/// If standard output cannot be written. The failure is [`Failure::ReaderGone`] if its reader has closed it.
pub(crate) fn write(rt: &HostRuntime, shown: &[u8]) -> Result<(), Failure> {
    match rt.stdout().write_all(shown) {
        Ok(()) => Ok(()),
        Err(error) => Err(Failure::output(rt.alloc(), &error)),
    }
}

/// Returns the value as one line of JSON.
///
/// # Errors
///
/// If memory is refused.
pub(crate) fn line(alloc: Global, value: &Value) -> Result<String, AllocError> {
    let mut line = value.to_string(alloc)?;
    line.push('\n')?;
    Ok(line)
}

/// Shows a reply as lines: first its status with its body or its text, then the fields of the body.
///
/// # Errors
///
/// If the body is not a response of the method, writing fails, or memory is refused. The first line is shown
/// even if the body is malformed.
pub(crate) fn show_lines(
    rt: &HostRuntime,
    method: Method,
    reply: &Reply<'_>,
) -> Result<Ended, Failure> {
    let mut lines = Vec::new(rt.alloc());
    put_reply_line(rt.alloc(), &mut lines, reply)?;
    let read = put_body_lines(rt.alloc(), &mut lines, Some(method), reply);
    if let Err(DecodeFault::NoMemory) = read {
        return Err(Failure::NoMemory);
    }
    write(rt, &lines)?;
    read?;
    Ok(Ended::with(reply.status != 0))
}

// Returns the response in a body as a line of JSON. `response_line` borrows the response, so this function
// makes only one call that can fail while it owns the response.
fn body_line(alloc: Global, method: Method, body: &[u8]) -> Result<String, Failure> {
    match decode_response(alloc, method, body) {
        Ok(response) => response_line(alloc, &response),
        Err(fault) => Err(Failure::from(fault)),
    }
}

fn response_line(alloc: Global, response: &Response) -> Result<String, Failure> {
    let value = json::response(alloc, response)?;
    Ok(line(alloc, &value)?)
}

fn refusal_line(alloc: Global, reply: &Reply<'_>) -> Result<String, Failure> {
    let value = json::refusal(alloc, reply)?;
    Ok(line(alloc, &value)?)
}

/// Shows a reply as one line of JSON.
///
/// # Errors
///
/// If the body is not a response of the method, writing fails, or memory is refused.
pub(crate) fn show_json(
    rt: &HostRuntime,
    method: Method,
    reply: &Reply<'_>,
) -> Result<Ended, Failure> {
    let is_refused = reply.status != 0;
    let line = if is_refused {
        refusal_line(rt.alloc(), reply)?
    } else {
        body_line(rt.alloc(), method, reply.body)?
    };
    write(rt, line.as_bytes())?;
    Ok(Ended::with(is_refused))
}

/// Returns all entries of a listing as a line of JSON.
///
/// # Errors
///
/// If memory is refused.
pub(crate) fn entries_line(alloc: Global, entries: &[Entry]) -> Result<String, AllocError> {
    let mut values = Vec::new(alloc);
    for entry in entries {
        values.push(json::entry(alloc, entry)?)?;
    }
    let value = json::listing(alloc, values, "")?;
    line(alloc, &value)
}

/// Returns one entry of a listing as a line of JSON.
///
/// # Errors
///
/// If memory is refused.
pub(crate) fn entry_line(alloc: Global, entry: &Entry) -> Result<String, AllocError> {
    let value = json::entry(alloc, entry)?;
    line(alloc, &value)
}

/// A listing in JSON, to which pages are added.
#[derive(Drop)]
pub(crate) struct Listing {
    entries: Vec<Value>,
    /// The token of the next page. It is empty after the last page, and for a first page that begins with the
    /// first volume.
    pub(crate) token: Text,
}

impl Listing {
    /// Makes an empty listing that begins at a token.
    pub(crate) fn new(alloc: Global, token: Text) -> Listing {
        Listing {
            entries: Vec::new(alloc),
            token,
        }
    }

    fn push_entries(&mut self, alloc: Global, entries: &Items<Entry>) -> Result<(), AllocError> {
        for entry in entries {
            self.entries.push(json::entry(alloc, entry)?)?;
        }
        Ok(())
    }

    /// Adds the body of a page: the token of the next page and, if `are_kept` is true, the entries.
    ///
    /// # Errors
    ///
    /// If the body is not a page, the token of the next page is the token of this page, or memory is refused.
    pub(crate) fn add_body(
        &mut self,
        alloc: Global,
        body: &[u8],
        are_kept: bool,
    ) -> Result<(), Failure> {
        let response = decode_response(alloc, Method::ListVolumes, body)?;
        let Response::List { entries, token } = &response else {
            return Err(Failure::BadBody);
        };
        if *token == self.token && !token.is_empty() {
            return Err(Failure::NoEnd);
        }
        self.token = copy_text(alloc, token.as_str())?;
        if are_kept {
            self.push_entries(alloc, entries)?;
        }
        Ok(())
    }

    /// Ends the listing. If `is_json` is true, shows all entries as one line of JSON. Otherwise shows
    /// nothing, since each page was shown when it came.
    ///
    /// # Errors
    ///
    /// If writing fails, or memory is refused.
    pub(crate) fn end(self, rt: &HostRuntime, is_json: bool) -> Result<Ended, Failure> {
        if !is_json {
            return Ok(Ended::Done);
        }
        let value = json::listing(rt.alloc(), self.entries, "")?;
        write(rt, line(rt.alloc(), &value)?.as_bytes())?;
        Ok(Ended::Done)
    }
}

//! Runs `csictl create`, `csictl publish`, `csictl unpublish` and `csictl delete`.

use crate::failure::{Ended, Failure};
use crate::line::SocketLine;
use crate::lookup::look_up;
use crate::message::frame_of_person;
use crate::patience::Patience;
use crate::reply::{show_json, show_lines, write};
use crate::sizes::size_text;
use crate::socket;
use clap::ArgMatches;
use command_line::word;
use csi_client::ReceivedReply;
use csi_codec::decode_response;
use csi_types::{Method, Response, VolumeInfo};
use std::alloc::{AllocError, Global};

// Returns true for the methods that remove a volume or an attachment. The server replies OK to them even if
// there is nothing to remove.
fn is_removal(method: Method) -> bool {
    matches!(
        method,
        Method::DeleteVolume | Method::ControllerUnpublishVolume
    )
}

// Makes the call that the arguments describe, and returns its reply. Before the first try of a removal, looks
// the volume up over the same connection. There is no lookup before a later try, since an earlier try without
// a reply may have made the removal. If the lookup is refused, returns the refusal.
fn asked(
    rt: &HostRuntime,
    method: Method,
    arguments: &ArgMatches<'_>,
) -> Result<ReceivedReply, Failure> {
    let frame = frame_of_person(rt.alloc(), method, arguments)?;
    let patience = Patience::of(arguments)?;
    let path = socket::find(rt, arguments)?;
    let is_looked_up = is_removal(method);
    let mut line = SocketLine::new(rt, path.as_str(), patience, is_looked_up);
    if is_looked_up {
        if let Some(refusal) = look_up(rt.alloc(), method, arguments, &mut line)? {
            return Ok(refusal);
        }
    }
    line.call(&frame)
}

fn created(alloc: Global, volume: &VolumeInfo) -> Result<String, AllocError> {
    let id = word(alloc, volume.id.as_str())?;
    let size = size_text(alloc, volume.bytes)?;
    format!(in alloc; "created {id}, {size}\n")
}

fn published(alloc: Global, arguments: &ArgMatches<'_>) -> Result<String, AllocError> {
    let id = word(alloc, arguments.get_str("volume").unwrap_or(""))?;
    let node = word(alloc, arguments.get_str("node").unwrap_or(""))?;
    format!(in alloc; "published {id} to {node}\n")
}

fn unpublished(alloc: Global, arguments: &ArgMatches<'_>) -> Result<String, AllocError> {
    let id = word(alloc, arguments.get_str("volume").unwrap_or(""))?;
    match arguments.get_str("node") {
        Some(node) => {
            let node = word(alloc, node)?;
            format!(in alloc; "unpublished {id} from {node}\n")
        }
        None => format!(in alloc; "unpublished {id} from all nodes\n"),
    }
}

fn deleted(alloc: Global, arguments: &ArgMatches<'_>) -> Result<String, AllocError> {
    let id = word(alloc, arguments.get_str("volume").unwrap_or(""))?;
    format!(in alloc; "deleted {id}\n")
}

// Returns the line that says what was done, such as `deleted vol-1`. Fails if the response is not a response
// of a change, or is a response of CreateVolume without a volume.
fn line_of(
    alloc: Global,
    arguments: &ArgMatches<'_>,
    response: &Response,
) -> Result<String, Failure> {
    match response {
        Response::Create(Some(volume)) => Ok(created(alloc, volume)?),
        Response::Publish(_) => Ok(published(alloc, arguments)?),
        Response::Unpublish => Ok(unpublished(alloc, arguments)?),
        Response::Delete => Ok(deleted(alloc, arguments)?),
        _ => Err(Failure::BadBody),
    }
}

// Returns the line for the body of a reply. `line_of` borrows the response, so this function makes only one
// call that can fail while it owns the response.
fn line_of_body(
    alloc: Global,
    method: Method,
    arguments: &ArgMatches<'_>,
    body: &[u8],
) -> Result<String, Failure> {
    match decode_response(alloc, method, body) {
        Ok(response) => line_of(alloc, arguments, &response),
        Err(fault) => Err(Failure::from(fault)),
    }
}

/// Makes the call of a change. Shows a line that says what was done, or the refusal. With `--json`, shows the
/// reply as a line of JSON. Tries the call again while it has no reply and tries are left. For a removal,
/// first checks that there is something to remove. If the server refuses the call of this check, shows this
/// refusal and makes no removal.
///
/// # Errors
///
/// - the arguments describe no call, or the socket is not found
/// - there is nothing to remove
/// - a call is not answered
/// - a reply is malformed, or is not a response of the method
/// - writing fails, or memory is refused
pub(crate) fn run(
    rt: &HostRuntime,
    method: Method,
    arguments: &ArgMatches<'_>,
) -> Result<Ended, Failure> {
    let reply = asked(rt, method, arguments)?;
    if arguments.get_flag("json") {
        return show_json(rt, method, &reply.as_reply());
    }
    if reply.status != 0 {
        return show_lines(rt, method, &reply.as_reply());
    }
    let line = line_of_body(rt.alloc(), method, arguments, reply.body.as_slice())?;
    write(rt, line.as_bytes())?;
    Ok(Ended::Done)
}

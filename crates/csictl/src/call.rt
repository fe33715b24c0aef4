//! Runs `csictl call`: makes any call and shows its reply.

use crate::failure::{Ended, Failure};
use crate::frame::called;
use crate::line::SocketLine;
use crate::message::{MOST_PAGES, check_paged, first_page, page};
use crate::patience::Patience;
use crate::reply::{Listing, show_json, show_lines};
use crate::socket;
use clap::ArgMatches;
use csi_types::Method;
use envelope::Reply;

/// Shows a reply as lines, or as one line of JSON if `is_json` is true.
///
/// # Errors
///
/// If the body is not a response of the method, writing fails, or memory is refused.
pub(crate) fn show(
    rt: &HostRuntime,
    method: Method,
    reply: &Reply<'_>,
    is_json: bool,
) -> Result<Ended, Failure> {
    if is_json {
        return show_json(rt, method, reply);
    }
    show_lines(rt, method, reply)
}

// Adds the page in a reply to the listing, and returns `None`. Without `--json`, shows the page at once. If
// the reply refuses the call, shows the refusal and returns the end of the program.
fn add_page(
    rt: &HostRuntime,
    listing: &mut Listing,
    reply: &Reply<'_>,
    is_json: bool,
) -> Result<Option<Ended>, Failure> {
    if !is_json || reply.status != 0 {
        let ended = show(rt, Method::ListVolumes, reply, is_json)?;
        if reply.status != 0 {
            return Ok(Some(ended));
        }
    }
    listing.add_body(rt.alloc(), reply.body, is_json)?;
    Ok(None)
}

// Asks for the pages of a listing one after the other, over one connection, and shows them. A refused page is
// shown too, and ends the listing.
fn walk(
    rt: &HostRuntime,
    arguments: &ArgMatches<'_>,
    line: &mut SocketLine<'_>,
    is_json: bool,
) -> Result<Ended, Failure> {
    let mut listing = first_page(rt.alloc(), arguments)?;
    let max_entries = arguments.get_one::<i32>("max").unwrap_or(0);
    for _ in 0..MOST_PAGES {
        let frame = page(rt.alloc(), max_entries, &listing.token)?;
        let reply = line.call(&frame)?;
        if let Some(ended) = add_page(rt, &mut listing, &reply.as_reply(), is_json)? {
            return Ok(ended);
        }
        if listing.token.is_empty() {
            return listing.end(rt, is_json);
        }
    }
    Err(Failure::NoEnd)
}

/// Makes the call that the arguments describe, and shows the reply. Tries the call again while it has no
/// reply and tries are left. With `--all`, asks for all pages of a listing.
///
/// # Errors
///
/// - the arguments describe no call, or the socket is not found
/// - a call is not answered
/// - a reply is malformed, or is not a response of the method
/// - with `--all`: the method is not ListVolumes, `--message` is given, or the pages have no end
/// - writing fails, or memory is refused
pub(crate) fn run(rt: &HostRuntime, arguments: &ArgMatches<'_>) -> Result<Ended, Failure> {
    let (method, frame) = called(rt.alloc(), arguments)?;
    let patience = Patience::of(arguments)?;
    let is_json = arguments.get_flag("json");
    let is_all = arguments.get_flag("all");
    if is_all {
        check_paged(method, arguments)?;
    }
    let path = socket::find(rt, arguments)?;
    let mut line = SocketLine::new(rt, path.as_str(), patience, is_all);
    if is_all {
        return walk(rt, arguments, &mut line, is_json);
    }
    let reply = line.call(&frame)?;
    show(rt, method, &reply.as_reply(), is_json)
}

//! Reads the entries of a listing for the commands for people: all entries, or the first entry after a token.

use crate::failure::Failure;
use crate::line::SocketLine;
use crate::message::{MOST_PAGES, page};
use csi_client::ReceivedReply;
use csi_codec::decode_response;
use csi_types::{Entry, Items, Method, Response, Text};
use std::alloc::{AllocError, Global};

// The greatest number of times that a listing is begun. It is begun again if the server refuses a token as
// too old.
const MOST_WALKS: u32 = 5;

// The status ABORTED, with which ListVolumes refuses a token that is no longer valid.
const ABORTED: u8 = 10;

// The value of `max_entries` that leaves the number of entries to the server.
const FULL_PAGE: i32 = 0;

/// A taker of the entries of a listing, one after the other.
pub(crate) trait Taker {
    /// Forgets the entries that were taken. The function is called before each walk over the pages, and a
    /// walk gives all entries.
    fn restart(&mut self);

    /// Takes the next entry, in the order of the listing.
    ///
    /// # Errors
    ///
    /// If memory is refused.
    fn take_entry(&mut self, alloc: Global, entry: Entry) -> Result<(), AllocError>;
}

impl Taker for Vec<Entry> {
    fn restart(&mut self) {
        self.clear();
    }

    fn take_entry(&mut self, _alloc: Global, entry: Entry) -> Result<(), AllocError> {
        Ok(self.push(entry)?)
    }
}

/// The outcome of a listing, page by page.
#[derive(Drop)]
pub(crate) enum Walked {
    /// The entries of each page that was asked for were taken.
    All,
    /// The server refused a page for another reason than its token.
    Refused(ReceivedReply),
    /// The server refused a page because its token is not valid, or no longer valid.
    Outdated(ReceivedReply),
}

// Returns the entries and the next token of a page, or `None` if the response is not a page. The function
// moves the parts out of the response, and makes no call that can fail.
fn parts(response: Response) -> Option<(Items<Entry>, Text)> {
    match response {
        Response::List { entries, token } => Some((entries, token)),
        _ => None,
    }
}

// Hands the entries of a page to a taker.
fn take_all<T: Taker>(alloc: Global, entries: Items<Entry>, taker: &mut T) -> Result<(), Failure> {
    for entry in entries.into_vec() {
        taker.take_entry(alloc, entry)?;
    }
    Ok(())
}

// Takes the entries in the body of a page, and returns the token of the next page, which is empty after the
// last page. `token` is the token of this page. Fails if the body is not a page, or if the next page would
// have the same token.
fn take_page<T: Taker>(
    alloc: Global,
    body: &[u8],
    token: &Text,
    taker: &mut T,
) -> Result<Text, Failure> {
    let response = decode_response(alloc, Method::ListVolumes, body)?;
    let Some((entries, next)) = parts(response) else {
        return Err(Failure::BadBody);
    };
    if next == *token && !next.is_empty() {
        return Err(Failure::NoEnd);
    }
    take_all(alloc, entries, taker)?;
    Ok(next)
}

// Asks for the page that begins at a token.
fn ask(
    alloc: Global,
    max_entries: i32,
    token: &Text,
    line: &mut SocketLine<'_>,
) -> Result<ReceivedReply, Failure> {
    let frame = page(alloc, max_entries, token)?;
    line.call(&frame)
}

// Returns the outcome if the server refuses the page that begins at this token.
fn refused(reply: ReceivedReply, token: &Text) -> Walked {
    if reply.status == ABORTED && !token.is_empty() {
        Walked::Outdated(reply)
    } else {
        Walked::Refused(reply)
    }
}

// Asks for all pages once, and gives their entries to the taker.
fn walk_once<T: Taker>(
    alloc: Global,
    line: &mut SocketLine<'_>,
    taker: &mut T,
) -> Result<Walked, Failure> {
    taker.restart();
    let mut token = Text::new(alloc);
    for _ in 0..MOST_PAGES {
        let reply = ask(alloc, FULL_PAGE, &token, line)?;
        if reply.status != 0 {
            return Ok(refused(reply, &token));
        }
        token = take_page(alloc, reply.body.as_slice(), &token, taker)?;
        if token.is_empty() {
            return Ok(Walked::All);
        }
    }
    Err(Failure::NoEnd)
}

/// Asks for all pages of ListVolumes, and begins again with the first page if a token is no longer valid. If
/// this happens five times, returns [`Walked::Outdated`]. The taker has all entries if the outcome is
/// [`Walked::All`].
///
/// # Errors
///
/// If a call has no reply, a reply is malformed or not a page, a token is too long for a call, the pages have
/// no end, or memory is refused.
pub(crate) fn walk<T: Taker>(
    alloc: Global,
    line: &mut SocketLine<'_>,
    taker: &mut T,
) -> Result<Walked, Failure> {
    for _ in 1..MOST_WALKS {
        match walk_once(alloc, line, taker)? {
            Walked::Outdated(_) => {}
            walked => return Ok(walked),
        }
    }
    walk_once(alloc, line, taker)
}

/// Asks for a page of at most one entry, which begins after a token, and gives the entry to the taker. If no
/// volume follows, the taker gets no entry.
///
/// # Errors
///
/// If the call has no reply, the reply is malformed or not a page, the next page has the token of this page,
/// or memory is refused.
pub(crate) fn first_entry<T: Taker>(
    alloc: Global,
    token: Text,
    line: &mut SocketLine<'_>,
    taker: &mut T,
) -> Result<Walked, Failure> {
    let reply = ask(alloc, 1, &token, line)?;
    if reply.status != 0 {
        return Ok(refused(reply, &token));
    }
    take_page(alloc, reply.body.as_slice(), &token, taker)?;
    Ok(Walked::All)
}

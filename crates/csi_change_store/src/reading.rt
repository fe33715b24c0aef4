//! Reads all rows of a change store, page by page.

ghost use Rattle.std.specs.Prelude.{◌≡◌, IfErr, IfOk, OnOk};
ghost use Rattle.csi_change_store.specs.Items.{seen_notes};
ghost use Rattle.csi_change_store.specs.Taking.{CommitsNothing};
ghost use Rattle.csi_change_store.specs.Walking.{GivesPage, IsBodyOf, IsFaultAfter, IsPageless, IsReadFault, IsRefused, ReadsAll, ReadsPage};
ghost use Rattle.csi_change_store.specs.declared.reading.ReadFault.TheVariants.{Unanswered};

use crate::asking::read_frame;
use crate::fault::RowsFault;
use crate::pages::{PagesRead, put_page};
use crate::peer::Peer;
use csi_client::Received;
use csi_keeper::StoreFault;
use sqlite::{Alter, Error, Transaction};
use std::alloc::Global;

// The greatest number of pages that are read. If each page has one row, these are 1,048,576 rows: a row of
// the table `meta`, 100,000 volumes, and about nine attachments of each volume.
const MOST_PAGES: u64 = 1 << 20;

/// The reason why the rows of a change store could not be read.
#[derive(Debug, Drop)]
pub enum ReadFault {
    /// The frame that requests a page could not be made, because memory was refused or the token is too long.
    Unasked(StoreFault),
    /// The change store sent no reply with status 0. The value is the reply, or the reason why no reply was
    /// received.
    Unanswered(Received),
    /// The rows of a page could not be put into the tables.
    Rows(RowsFault),
    /// The change store has more than 1,048,576 pages. A change store that repeats a token has no last page.
    Endless,
    /// The database failed to create the tables or to commit the rows.
    Database(Error),
}

// Returns the body of a reply with status 0 (OK). Fails with `Unanswered` otherwise.
fn body_of(received: Received) -> Result<Vec<u8>, ReadFault>
    ensures body { IfOk result (λ body. IsBodyOf received body.items) }
    ensures fault { IfErr result (λ fault. (fault ≡ Unanswered received) × IsRefused received) }
{
    match received {
        Received::Reply(reply) if reply.status == 0 => Ok(reply.body),
        other => Err(ReadFault::Unanswered(other)),
    }
}

// Requests the page with this token, and returns the body of the reply. An empty token requests the first
// page.
fn next_page<P: Peer>(alloc: Global, peer: &mut P, token: &[u8]) -> Result<Vec<u8>, ReadFault>
    ensures page { IfOk result (λ body. GivesPage P.exchanged peer.old peer.new token.now body.items) }
    ensures fault { IfErr result (IsPageless P.exchanged peer.old peer.new token.now) }
{
    match read_frame(alloc, token) {
        Ok(frame) => body_of(peer.exchange(alloc, frame.as_slice())),
        Err(fault) => Err(ReadFault::Unasked(fault)),
    }
}

// Reads the next page, and puts its rows into the tables of a transaction.
fn read_page<P: Peer, S: Alter>(
    alloc: Global,
    peer: &mut P,
    tx: &mut Transaction<'_, S>,
    notes: &mut PagesRead,
) -> Result<(), ReadFault>
    ensures same_reference { tx.new.conn.ghost_name ≡ tx.old.conn.ghost_name }
    ensures page { OnOk result (ReadsPage S.Store tx.old.conn.now tx.new.conn.now P.exchanged peer.old
        peer.new (seen_notes notes.old) (seen_notes notes.new)) }
    ensures fault { IfErr result (IsFaultAfter P.exchanged peer.old peer.new (seen_notes notes.old)) }
    ensures nothing { CommitsNothing S.Store tx.old.conn.now tx.new.conn.now }
{
    let body = next_page(alloc, peer, notes.token.as_slice())?;
    match put_page(alloc, tx, notes, body.as_slice()) {
        Ok(()) => Ok(()),
        Err(fault) => Err(ReadFault::Rows(fault)),
    }
}

/// Reads all rows of a change store, page by page, and puts them into the tables of a transaction in the
/// order in which they come.
///
/// # Errors
///
/// - the request for a page cannot be made, or gets no reply with status 0
/// - the rows of a page cannot be put into the tables
/// - there are more than 1,048,576 pages
pub fn read_pages<P: Peer, S: Alter>(
    alloc: Global,
    peer: &mut P,
    tx: &mut Transaction<'_, S>,
) -> Result<PagesRead, ReadFault>
    ensures same_reference { tx.new.conn.ghost_name ≡ tx.old.conn.ghost_name }
    ensures read { IfOk result (λ notes. ReadsAll S.Store tx.old.conn.now tx.new.conn.now P.exchanged peer.old
        peer.new (seen_notes notes)) }
    ensures fault { IfErr result (IsReadFault P.exchanged peer.old peer.new) }
    ensures nothing { CommitsNothing S.Store tx.old.conn.now tx.new.conn.now }
{
    let mut notes = PagesRead::new(alloc);
    for turn in 0..MOST_PAGES {
        read_page(alloc, peer, tx, &mut notes)?;
        if notes.token.is_empty() {
            return Ok(notes);
        }
    }
    Err(ReadFault::Endless)
}

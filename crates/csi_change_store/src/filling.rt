//! Puts all rows of a change store into new tables.

ghost use Rattle.std.specs.Prelude.{◌≡◌, false, IfOk};
ghost use Rattle.csi_change_store.specs.Filling.{Fills, ReadsRows};
ghost use Rattle.csi_change_store.specs.Items.{seen_notes};

use crate::pages::PagesRead;
use crate::peer::Peer;
use crate::reading::{ReadFault, read_pages};
use csi_sql::make_tables;
use sqlite::{Alter, Connection};
use std::alloc::Global;

// Puts all rows of a change store into the tables on a connection, in one transaction. So each page of the
// database is written once, for any order of the rows.
fn fill<P: Peer, S: Alter>(
    alloc: Global,
    peer: &mut P,
    conn: &mut Connection<S>,
) -> Result<PagesRead, ReadFault>
    requires { conn.old.in_transaction ≡ false }
    ensures idle { conn.new.in_transaction ≡ false }
    ensures filled { IfOk result (λ notes. Fills S.Store conn.old conn.new P.exchanged peer.old peer.new
        (seen_notes notes)) }
{
    let mut tx = conn.transaction();
    let notes = read_pages(alloc, peer, &mut tx)?;
    match tx.commit() {
        Ok(()) => Ok(notes),
        Err(error) => Err(ReadFault::Database(error)),
    }
}

/// Creates the tables in a database without tables, and puts all rows of a change store into them.
///
/// # Errors
///
/// If a page cannot be read, its rows cannot be put into the tables, there are more than 1,048,576 pages, or
/// the database fails.
pub fn read_rows<P: Peer, S: Alter>(
    alloc: Global,
    peer: &mut P,
    conn: &mut Connection<S>,
) -> Result<PagesRead, ReadFault>
    requires { conn.old.in_transaction ≡ false }
    ensures idle { conn.new.in_transaction ≡ false }
    ensures rows { IfOk result (λ notes. ReadsRows S.Store conn.old conn.new P.exchanged peer.old peer.new
        (seen_notes notes)) }
{
    match make_tables(conn) {
        Ok(()) => fill(alloc, peer, conn),
        Err(error) => Err(ReadFault::Database(error)),
    }
}

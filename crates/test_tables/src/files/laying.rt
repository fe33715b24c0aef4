//! Makes databases in files that contain no database yet.

ghost use Rattle.std.specs.Prelude.{IfOk, IsTrue};
ghost use Rattle.sqlite_disk.specs.Memory.{memory_is_usable};

use csi_files::{NotLaidOut, lay_out};
use sqlite_disk::{Disk, Files, Memory};
use std::alloc::Global;
use std::fmt;
use test_kit::RowFault;

const SEED: u64 = 1;

// The length of the shortest log with a change, in bytes: the header of the log, and a frame with a page of
// 512 bytes.
const FRAME_BYTES: usize = 32 + 24 + 512;

/// The number of pairs of files for each outcome: a database was made, the files were left unchanged, the
/// files were refused as [`NotLaidOut::Emptied`] and are unchanged, or something else happened.
#[derive(Clone, Copy)]
pub(crate) struct Laid {
    made: usize,
    kept: usize,
    emptied: usize,
    other: usize,
}

impl Laid {
    /// Makes the counts before the first pair of files.
    pub(crate) fn none() -> Laid {
        Laid {
            made: 0,
            kept: 0,
            emptied: 0,
            other: 0,
        }
    }
}

impl fmt::Display for Laid {
    fn fmt<W: fmt::Write>(&self, f: &mut fmt::Formatter<W>) -> fmt::Result {
        let Laid {
            made,
            kept,
            emptied,
            other,
        } = *self;
        write!(
            f,
            "made {made}, kept {kept}, emptied {emptied}, other {other}"
        )
    }
}

/// Makes a file in memory with these bytes, which are synchronised.
pub(crate) fn holding(alloc: Global, bytes: &[u8]) -> Result<Memory, RowFault>
    ensures { IfOk result (λ file. IsTrue (memory_is_usable file)) }
{
    let mut file = Memory::new(alloc);
    if file.write_at(0, bytes).is_err() || file.sync().is_err() {
        return Err(RowFault::NoMemory);
    }
    Ok(file)
}

/// Makes a database in a pair of files with these bytes, and counts the outcome in `laid`. `page` is the
/// content of a new database file.
///
/// # Errors
///
/// If memory is refused.
pub(crate) fn lay(
    alloc: Global,
    page: &[u8],
    log: &[u8],
    db: &[u8],
    laid: &mut Laid,
) -> Result<(), RowFault> {
    let pair = Files {
        log: holding(alloc, log)?,
        db: holding(alloc, db)?,
    };
    let (is_refused, pair) = match lay_out(alloc, pair, SEED) {
        Ok(pair) => (false, pair),
        Err((NotLaidOut::Emptied, pair)) => (true, pair),
        Err((NotLaidOut::Failed(_), _)) => return Err(RowFault::NoMemory),
    };
    let is_same = pair.log.bytes() == log && pair.db.bytes() == db;
    let is_made = pair.db.bytes() == page && pair.log.bytes().len() < FRAME_BYTES;
    match (is_refused, is_same, is_made) {
        (true, true, _) => laid.emptied = laid.emptied.saturating_add(1),
        (false, true, _) => laid.kept = laid.kept.saturating_add(1),
        (false, false, true) => laid.made = laid.made.saturating_add(1),
        _ => laid.other = laid.other.saturating_add(1),
    }
    Ok(())
}

/// Makes a database in a file for each prefix of these bytes, from no byte to all bytes. The prefix is the
/// content of the file, and the log is empty. Counts the outcomes.
pub(crate) fn lay_each(alloc: Global, page: &[u8], bytes: &[u8]) -> Result<Laid, RowFault> {
    let mut laid = Laid::none();
    for len in 0..=bytes.len() {
        lay(alloc, page, b"", &bytes[..len], &mut laid)?;
    }
    Ok(laid)
}

// Returns a copy of the bytes in which the byte at index `at` is different.
fn with_odd(alloc: Global, bytes: &[u8], at: usize) -> Result<Vec<u8>, RowFault> {
    let mut odd = Vec::from_slice(alloc, bytes)?;
    if at < odd.len() {
        odd[at] ^= 0x81;
    }
    Ok(odd)
}

/// Changes one of these bytes, and makes a database in a file with the bytes. Does this for each byte in
/// turn, and counts the outcomes. The log is empty.
pub(crate) fn lay_odd(alloc: Global, page: &[u8], bytes: &[u8]) -> Result<Laid, RowFault> {
    let mut laid = Laid::none();
    for at in 0..bytes.len() {
        let odd = with_odd(alloc, bytes, at)?;
        lay(alloc, page, b"", &odd, &mut laid)?;
    }
    Ok(laid)
}

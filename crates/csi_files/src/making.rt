//! Makes a database in files that hold none yet.

ghost use Rattle.std.specs.Prelude.{◌≡◌, ◌≢◌, ◌↔◌, ◌<◌, ◌==◌, length, IfErr, IfOk, IsTrue, OnOk};
ghost use Rattle.std.specs.List.{list_all};
ghost use Rattle.std.specs.IoError.{error_kind};
ghost use Rattle.sqlite_wal.specs.Reads.{AreClean, OnlyReads};
ghost use Rattle.sqlite.specs.Files.{image_of};
ghost use Rattle.sqlite_pool.specs.Opening.{AreUsable};
ghost use Rattle.sqlite_pool.specs.Pool.{state, files};
ghost use Rattle.csi_files.specs.Making.{AreAsBefore, BeginsPage, IsCreated, IsLaidOut, IsLarger, IsLost, IsNotCreated, IsNotLaidOut, IsPart, IsTorn, IsUnmade, not_cleared, page_byte, page_bytes};
ghost use Rattle.csi_files.specs.Starting.{KeepsStart, StartsAs};

use sqlite_disk::{Disk, Files};
use sqlite_pager::{Options, Pager};
use sqlite_pages::Error;
use sqlite_pool::Pool;
use sqlite_wal::PageSize;
use std::alloc::{AllocFailed, Global};
use std::io::{self, ErrorKind};

// The page size of a new database file, in bytes. A change writes about five pages, each as a whole, and most
// rows have a few hundred bytes. With SQLite's default of 4,096 bytes, a change would write four times as
// much.
const PAGE_BYTES: usize = 1024;

/// The smallest size in bytes of a WAL that contains a change: the header of the WAL with 32 bytes, and the
/// smallest frame. This frame has a header of 24 bytes and a page of 512 bytes.
pub const WAL_WITH_FRAME_BYTES: usize = 32 + 24 + 512;

// The beginning of the first page that earlier releases wrote to a new file: the database header, and a leaf
// of the schema table without cells. The rest of the page is 0. A stop could leave a part of this page in the
// file.
const HEAD: [u8; 108] = *b"SQLite format 3\0\
    \x04\x00\x02\x02\x00\x40\x20\x20\0\0\0\0\0\0\0\x01\
    \0\0\0\0\0\0\0\0\0\0\0\0\0\0\0\x04\
    \0\0\0\0\0\0\0\0\0\0\0\x01\0\0\0\0\
    \0\0\0\0\0\0\0\0\0\0\0\0\0\0\0\0\
    \0\0\0\0\0\0\0\0\0\0\0\0\0\0\0\0\
    \x00\x2e\x76\x88\x0d\0\0\0\0\x04\0\0";

/// The reason for which [`lay_out`] fails.
#[derive(Clone, Copy, Debug)]
pub enum NotLaidOut {
    /// The database file is empty, but its WAL is long enough to contain changes, which a new database would
    /// lose.
    Emptied,
    /// The files could not be read or written, or memory was refused.
    Failed(Error),
}

// Returns the options of an opening that only writes the first page, so that one page in memory is enough.
fn options(seed: u64) -> Options {
    Options {
        cache_pages: 1,
        spill_pages: 1,
        checkpoint_frames: 1,
        seed,
    }
}

// Opens the pages of files without reading them. If memory is refused, returns the files.
fn pages_of<D: Disk>(alloc: Global, pair: Files<D>, seed: u64) -> Result<Pool<D>, Files<D>>
    ensures back { IfErr result (λ left. left ≡ pair) }
    ensures size { IfOk result (λ pool. (state pool).page_size ≡ page_bytes) }
    ensures files { IfOk result (λ pool. files pool ≡ (pair.log, pair.db)) }
{
    let size = PageSize::new(PAGE_BYTES).unwrap();
    let pager = match Pager::new(alloc, pair, size, options(seed)) {
        Ok(pager) => pager,
        Err(AllocFailed { value }) => return Err(value),
    };
    match Pool::new(alloc, pager, false) {
        Ok(pool) => Ok(pool),
        Err(AllocFailed { value }) => Err(value.close()),
    }
}

// Returns the files of a pool of pages, or an error and the files if a sync of one of them has failed.
fn given_back<D: Disk>(pool: Pool<D>) -> Result<Files<D>, (Error, Files<D>)>
    ensures ok { IfOk result (λ pair. ((pair.log, pair.db) ≡ files pool) × IsTrue (D.Disk.is_usable pair.log)
        × IsTrue (D.Disk.is_usable pair.db)) }
    ensures err { IfErr result (λ e. (e.0 ≡ Error.Io) × ((e.1.log, e.1.db) ≡ files pool)) }
{
    let pair = pool.close();
    if pair.may_be_used() {
        Ok(pair)
    } else {
        Err((Error::Io, pair))
    }
}

// Makes an empty database in files that hold no database yet. Leaves all other files unchanged.
fn make<D: Disk>(alloc: Global, pair: Files<D>, seed: u64) -> Result<Files<D>, (Error, Files<D>)>
    requires log { IsTrue (D.Disk.is_usable pair.log) }
    requires db { IsTrue (D.Disk.is_usable pair.db) }
    ensures created { IfOk result (IsCreated D.Disk pair) }
    ensures not_created { IfErr result (λ e. IsNotCreated D.Disk pair e.1) }
    ensures not_corrupt { IfErr result (λ e. e.0 ≢ Error.Corrupt) }
{
    let mut pool = match pages_of(alloc, pair, seed) {
        Ok(pool) => pool,
        Err(left) => return Err((Error::OutOfMemory, left)),
    };
    match pool.create() {
        Ok(()) => given_back(pool),
        Err(Error::Corrupt) => given_back(pool),
        Err(error) => Err((error, pool.close())),
    }
}

// The kinds of files, by their lengths alone, so that no page is read or synced.
#[derive(Clone, Copy)]
enum Lengths {
    // The database file is longer than `PAGE_BYTES`, the length of a database without tables.
    Larger,
    // The database file is empty, and its WAL is long enough to contain changes.
    Emptied,
    // All other files: the database file has at most one page and, if it is empty, a WAL too short to contain
    // changes.
    Short,
}

fn lengths_of<D: Disk>(pair: &mut Files<D>) -> io::Result<Lengths>
    requires log { IsTrue (D.Disk.is_usable pair.old.log) }
    requires db { IsTrue (D.Disk.is_usable pair.old.db) }
    ensures larger { IfOk result (λ is. AreClean D.Disk pair.new.log pair.new.db → (is ≡ Lengths.Larger)
        ↔ IsLarger (image_of D.Disk pair.old)) }
    ensures emptied { IfOk result (λ is. AreClean D.Disk pair.new.log pair.new.db → (is ≡ Lengths.Emptied)
        ↔ IsLost (image_of D.Disk pair.old)) }
    ensures log { OnlyReads D.Disk pair.old.log pair.new.log }
    ensures db { OnlyReads D.Disk pair.old.db pair.new.db }
{
    let len = pair.db.len()?;
    let log = pair.log.len()?;
    if len > PAGE_BYTES {
        return Ok(Lengths::Larger);
    }
    if len == 0 && log >= WAL_WITH_FRAME_BYTES {
        return Ok(Lengths::Emptied);
    }
    Ok(Lengths::Short)
}

fn is_zero(bytes: &[u8]) -> bool
    ensures { result ≡ list_all (λ b. b == 0) bytes.now }
{
    bytes.iter().all(|byte| *byte == 0)
}

// Returns the byte at the offset `at` of the first page that earlier releases wrote to a new file.
fn page_byte(at: usize) -> u8
    ensures { result ≡ page_byte at }
{
    if at < HEAD.len() { HEAD[at] } else { 0 }
}

// Returns true if the first page that earlier releases wrote to a new file begins with these bytes.
fn begins_page(bytes: &[u8]) -> bool
    ensures { IsTrue result ↔ BeginsPage bytes.now }
{
    for at in 0..bytes.len() {
        if bytes[at] != page_byte(at) {
            return false;
        }
    }
    true
}

// Returns true if there are 2 bytes or more, and a stop during the write of the first page could leave them.
fn is_torn(bytes: &[u8]) -> bool
    ensures { IsTrue result ↔ IsPart bytes.now }
{
    let len = bytes.len();
    if len < 2 || len > PAGE_BYTES {
        return false;
    }
    is_zero(bytes) || (len < PAGE_BYTES && begins_page(bytes))
}

// Reads a file into `room`, which must be as long as the file. Returns true if a stop during the write of the
// first page could leave this file.
fn reads_torn<D: Disk>(file: &mut D, room: &mut [u8]) -> io::Result<bool>
    requires { IsTrue (D.Disk.is_usable file.old) }
    ensures value { IfOk result (λ is. IsTrue (D.Disk.is_clean file.new)
        → length room.old ≡ length (D.Disk.seen file.old) → 0 < length room.old
        → (IsTrue is ↔ IsPart (D.Disk.seen file.old))) }
    ensures read { OnlyReads D.Disk file.old file.new }
{
    file.read_at(0, room)?;
    Ok(is_torn(room))
}

// Reads a file of `len` bytes into new memory. Returns true if a stop during the write of the first page
// could leave this file.
fn has_torn<D: Disk>(alloc: Global, file: &mut D, len: usize) -> io::Result<bool>
    requires { IsTrue (D.Disk.is_usable file.old) }
    ensures value { IfOk result (λ is. IsTrue (D.Disk.is_clean file.new) → len ≡ length (D.Disk.seen file.old)
        → 0 < len → (IsTrue is ↔ IsPart (D.Disk.seen file.old))) }
    ensures read { OnlyReads D.Disk file.old file.new }
{
    let mut bytes = vec![in alloc; 0; len]?;
    reads_torn(file, bytes.as_mut_slice())
}

// Returns true if the WAL is empty, the database file has 2 bytes or more, and a stop during the write of the
// first page could leave this file.
fn holds_torn<D: Disk>(alloc: Global, pair: &mut Files<D>) -> io::Result<bool>
    requires log { IsTrue (D.Disk.is_usable pair.old.log) }
    requires db { IsTrue (D.Disk.is_usable pair.old.db) }
    ensures value { IfOk result (λ is. AreClean D.Disk pair.new.log pair.new.db
        → (IsTrue is ↔ IsTorn (image_of D.Disk pair.old))) }
    ensures log { OnlyReads D.Disk pair.old.log pair.new.log }
    ensures db { OnlyReads D.Disk pair.old.db pair.new.db }
{
    let log = pair.log.len()?;
    let len = pair.db.len()?;
    if log > 0 || len < 2 || len > PAGE_BYTES {
        return Ok(false);
    }
    has_torn(alloc, &mut pair.db, len)
}

// Cuts the database file to 0 bytes and syncs it.
fn clear<D: Disk>(db: &mut D) -> io::Result<()>
    requires { IsTrue (D.Disk.is_usable db.old) }
    ensures empty { OnOk result (length (D.Disk.seen db.new) ≡ 0) }
    ensures usable { OnOk result (IsTrue (D.Disk.is_usable db.new)) }
    ensures clean { IsTrue (D.Disk.is_clean db.new) → IsTrue (D.Disk.is_clean db.old) }
{
    db.set_len(0)?;
    db.sync()
}

// Clears a database file that a stop during the write of the first page left. Leaves other files unchanged.
fn clear_torn<D: Disk>(alloc: Global, pair: &mut Files<D>) -> io::Result<()>
    requires log { IsTrue (D.Disk.is_usable pair.old.log) }
    requires db { IsTrue (D.Disk.is_usable pair.old.db) }
    ensures clean { AreClean D.Disk pair.new.log pair.new.db → AreClean D.Disk pair.old.log pair.old.db }
    ensures kept { AreClean D.Disk pair.new.log pair.new.db → ¬ IsTorn (image_of D.Disk pair.old)
        → AreAsBefore D.Disk pair.old pair.new }
    ensures cleared { OnOk result (AreClean D.Disk pair.new.log pair.new.db
        → IsTorn (image_of D.Disk pair.old) → IsUnmade (image_of D.Disk pair.new)) }
    ensures usable { OnOk result (IsTrue (D.Disk.is_usable pair.new.log)
        × IsTrue (D.Disk.is_usable pair.new.db)) }
{
    if holds_torn(alloc, pair)? {
        return clear(&mut pair.db);
    }
    Ok(())
}

// Converts the error of `clear_torn` to the reason why no database was made.
fn failed(error: io::Error) -> NotLaidOut
    ensures { result ≡ not_cleared (error_kind error) }
{
    match error.kind() {
        ErrorKind::OutOfMemory => NotLaidOut::Failed(Error::OutOfMemory),
        _ => NotLaidOut::Failed(Error::Io),
    }
}

/// Makes an empty database in files that hold no database yet: new files, or files of an earlier call that a
/// stop interrupted. Other files are unchanged. After a stop at any moment, the next call makes the database.
///
/// If an earlier release was stopped while it wrote the first page, the file has only bytes of 0, or the
/// beginning of the page, and no WAL. The call clears such a file first. `seed` is the seed of the random
/// salts in the header of the WAL.
///
/// # Errors
///
/// If the WAL of an empty database file may have changes, if the files cannot be read or written, or if
/// memory is refused. The error contains the files. In the first case the files are unchanged. In the other
/// cases they have bytes that a stop could have left too. The function does not report corrupt files: their
/// opening does that.
pub fn lay_out<D: Disk>(
    alloc: Global,
    mut pair: Files<D>,
    seed: u64,
) -> Result<Files<D>, (NotLaidOut, Files<D>)>
    requires log { IsTrue (D.Disk.is_usable pair.log) }
    requires db { IsTrue (D.Disk.is_usable pair.db) }
    ensures laid_out { IfOk result (IsLaidOut D.Disk pair) }
    ensures not_lost { IfOk result (λ after. AreClean D.Disk after.log after.db
        → ¬ IsLost (image_of D.Disk pair)) }
    ensures not_laid_out { IfErr result (λ e. IsNotLaidOut D.Disk pair e.1) }
    ensures starts { IfOk result (λ after. StartsAs D.Disk pair after × KeepsStart D.Disk pair after) }
    ensures kept { IfErr result (λ e. KeepsStart D.Disk pair e.1) }
    ensures not_corrupt { IfErr result (λ e. e.0 ≢ NotLaidOut.Failed Error.Corrupt) }
    ensures emptied { IfErr result (λ e. e.0 ≡ NotLaidOut.Emptied → AreAsBefore D.Disk pair e.1
        × (AreClean D.Disk e.1.log e.1.db → IsLost (image_of D.Disk pair))) }
{
    match lengths_of(&mut pair) {
        Ok(Lengths::Larger) => return Ok(pair),
        Ok(Lengths::Emptied) => return Err((NotLaidOut::Emptied, pair)),
        Ok(Lengths::Short) => {}
        Err(error) => return Err((failed(error), pair)),
    }
    if let Err(error) = clear_torn(alloc, &mut pair) {
        return Err((failed(error), pair));
    }
    match make(alloc, pair, seed) {
        Ok(pair) => Ok(pair),
        Err((error, pair)) => Err((NotLaidOut::Failed(error), pair)),
    }
}

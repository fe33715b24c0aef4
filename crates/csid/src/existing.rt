//! Checks a file of tables and its WAL before they are opened: if the file has tables, and if new tables may
//! be made in it.

ghost use Rattle.std.specs.Prelude.{◌≡◌, ◌≤◌, ◌⊎◌};

use crate::room::memory_limit;
use csi_files::WAL_WITH_FRAME_BYTES;
use std::fs::{self, File};
use std::io::{self, ErrorKind, Read};
use thiserror::Error;

// The number of bytes that are read from a file: the header of an SQLite file, and the first fields of its
// first page. The next two constants are the offsets of the page's kind and of its number of cells.
const HEADER_BYTES: usize = 105;

const KIND_AT: usize = 100;

const CELLS_AT: usize = 103;

// The kind of a page that is a leaf of a table.
const LEAF: u8 = 13;

// The greatest number of bytes of memory that an opening takes for one byte of the file. This includes the
// pages that the opening keeps.
const OPENING_FACTOR: u64 = 6;

// The number of pages that each opening may keep in memory, even if a 32nd of the process's limit of memory
// is less.
const LEAST_CACHE_PAGES: u64 = 2000;

// With `--low-memory`, an opening keeps at most half of the pages of a file in memory. Without it, an opening
// may keep all pages and reads each page once. The index of names has a third of the pages, and an opening
// reads them in random order.
const LOW_MEMORY_SHARE: u64 = 2;

// The greatest number of bytes of pages that an opening keeps in memory: 64 MiB.
const CACHE_BYTES: u64 = 1 << 26;

// If the process has a limit of memory, the pages take at most a 32nd of the limit.
const LIMIT_SHARE: u64 = 32;

/// The reason why `csid` refuses a file of tables.
#[derive(Clone, Copy, Debug, Error)]
pub(crate) enum FileFault {
    /// SQLite does not take the path as the name of a file: it is `:memory:` or begins with `file:`.
    #[error("csid needs the path of a file, and this is none for SQLite")]
    NoPath,
    /// The file is a named pipe, a socket or a device. Opening such a file may block for ever.
    #[error("it is no regular file")]
    NotRegular,
    /// The file does not exist, although the task needs an existing file.
    #[error("there is no such file, and none is made")]
    Missing,
    /// The file has no tables, although the task needs tables.
    #[error("it has no tables, and none are made")]
    Blank,
    /// The file is empty or missing, but its WAL has changes: the file has lost its content.
    #[error("it is empty or missing, but its WAL, '-wal', has changes: put back the copy of the file that this WAL belongs to, or move the WAL away to begin with no volumes")]
    Emptied,
}

// Returns true if the first bytes of a file show that it has no tables: its first page is a leaf without
// cells.
fn is_blank(head: &[u8; HEADER_BYTES]) -> bool {
    head[KIND_AT] == LEAF && head[CELLS_AT] == 0 && head[CELLS_AT + 1] == 0
}

// Returns the path of a file's WAL. Links at `path` are followed: the WAL is next to the file to which they
// lead. If the file does not exist, the WAL is next to `path` itself.
fn wal_path(rt: &HostRuntime, path: &str) -> io::Result<String> {
    match fs::canonicalize(rt, path) {
        Ok(real) => Ok(format!(in rt.alloc(); "{}-wal", real.as_str())?),
        Err(error) if error.kind() == ErrorKind::NotFound => {
            Ok(format!(in rt.alloc(); "{path}-wal")?)
        }
        Err(error) => Err(error),
    }
}

// Returns true if a file's WAL has changes: it is long enough for its header and one frame.
fn has_frames(rt: &HostRuntime, path: &str) -> io::Result<bool> {
    let wal = wal_path(rt, path)?;
    Ok(fs::metadata(rt, wal.as_str()).is_ok_and(|found| found.len() >= WAL_WITH_FRAME_BYTES as u64))
}

// Returns true if a path leads to a file that is neither a regular file nor a folder, such as a named pipe.
fn is_special(rt: &HostRuntime, path: &str) -> bool {
    fs::metadata(rt, path).is_ok_and(|found| !found.is_file() && !found.is_dir())
}

/// Returns `NotRegular` if the file or its WAL is a named pipe, a socket or a device, otherwise `None`.
/// A folder gives `None`, since the opening itself refuses a folder at once.
pub(crate) fn fault_of_kind(rt: &HostRuntime, path: &str) -> Option<FileFault> {
    let is_special_wal = wal_path(rt, path).is_ok_and(|wal| is_special(rt, wal.as_str()));
    if is_special_wal || is_special(rt, path) {
        return Some(FileFault::NotRegular);
    }
    None
}

// Returns true if a file is empty or missing.
fn is_empty(rt: &HostRuntime, path: &str) -> io::Result<bool> {
    match fs::metadata(rt, path) {
        Ok(found) => Ok(found.is_file() && found.len() == 0),
        Err(error) if error.kind() == ErrorKind::NotFound => Ok(true),
        Err(error) => Err(error),
    }
}

// The size of a file's pages in bytes, and the number of its free pages. Both are in the header of the file.
#[derive(Clone, Copy)]
struct Pages {
    bytes: u64,
    free: u64,
}

// Reads the header of a file. The size of a page is at offset 16, where 1 means 65,536, and the number of
// free pages is at offset 36. Fails if the file cannot be read or has fewer than 105 bytes.
fn pages_of(rt: &HostRuntime, path: &str) -> io::Result<Pages> {
    let mut head = [0; HEADER_BYTES];
    File::open(rt, path)?.read_exact(&mut head)?;
    let bytes = match u16::from_be_bytes([head[16], head[17]]) {
        1 => 1 << 16,
        size => u64::from(size),
    };
    let free = u32::from_be_bytes([head[36], head[37], head[38], head[39]]);
    Ok(Pages {
        bytes,
        free: u64::from(free),
    })
}

// Returns the number of bytes of a file and its WAL, without the free pages of the file. If a free page was
// used again, its bytes are in the WAL.
fn bytes_of(rt: &HostRuntime, path: &str, pages: Pages) -> io::Result<u64> {
    let wal = wal_path(rt, path)?;
    let wal_bytes = fs::metadata(rt, wal.as_str()).map_or(0, |found| found.len());
    let of_file = fs::metadata(rt, path)?.len();
    let free = pages.free.saturating_mul(pages.bytes);
    Ok(of_file.saturating_sub(free).saturating_add(wal_bytes))
}

/// Limits of the memory that an opening of a file takes.
#[derive(Clone, Copy)]
pub(crate) struct OpeningLimits {
    /// The greatest number of bytes of memory that the opening takes: six times the bytes of the file and its
    /// WAL, without free pages. A short row takes less than six times its length in memory, and a long row
    /// less than twice.
    pub(crate) bytes: usize,
    /// The greatest number of pages of the file that the opening keeps in memory.
    pub(crate) cache_pages: usize,
}

// Limits a number of pages to `most`, but returns at least 2,000.
fn limited(count: u64, most: u64) -> u64
    ensures least { 2000 ≤ result }
    ensures most { (result ≡ 2000) ⊎ ((result ≤ count) × (result ≤ most)) }
    ensures all { 2000 ≤ count → count ≤ most → result ≡ count }
    ensures cut { 2000 ≤ most → most ≤ count → result ≡ most }
{
    count.min(most).max(LEAST_CACHE_PAGES)
}

// Returns the number of pages that an opening keeps in memory, if it should keep `count` pages. The limit of
// the process's memory is read only if `count` is more than 2,000.
fn cache_pages(rt: &HostRuntime, count: u64, page_bytes: u64) -> u64
    ensures least { 2000 ≤ result }
    ensures most { (result ≡ 2000) ⊎ (result ≤ count) }
{
    if count <= LEAST_CACHE_PAGES {
        return LEAST_CACHE_PAGES;
    }
    let bytes = match memory_limit(rt) {
        Some(limit) => (limit / LIMIT_SHARE).min(CACHE_BYTES),
        None => CACHE_BYTES,
    };
    limited(count, bytes.checked_div(page_bytes).unwrap_or(0))
}

/// Returns the limits of memory for opening the file of tables. They depend on the size of the file and of
/// its WAL. If `is_low_memory` is true, at most half of the pages are kept in memory. For a file that does
/// not exist or whose size is not known, `bytes` is 0 and `cache_pages` is 2,000.
pub(crate) fn opening_limits(rt: &HostRuntime, path: &str, is_low_memory: bool) -> OpeningLimits
    ensures least { 2000 ≤ result.cache_pages }
{
    let none = Pages { bytes: 0, free: 0 };
    let pages = pages_of(rt, path).unwrap_or(none);
    let bytes = bytes_of(rt, path, pages).unwrap_or(0);
    let count = bytes.checked_div(pages.bytes).unwrap_or(0);
    let kept = if is_low_memory {
        count / LOW_MEMORY_SHARE
    } else {
        count
    };
    OpeningLimits {
        bytes: bytes.saturating_mul(OPENING_FACTOR) as usize,
        cache_pages: cache_pages(rt, kept, pages.bytes) as usize,
    }
}

/// Returns the fault if the file is empty or missing and its WAL has changes, otherwise `None`. An opening of
/// such a file would start a new WAL, and the changes would be lost. Files that cannot be read give `None`,
/// since the opening reports the reason.
pub(crate) fn fault_of_wal(rt: &HostRuntime, path: &str) -> Option<FileFault> {
    match (is_empty(rt, path), has_frames(rt, path)) {
        (Ok(true), Ok(true)) => Some(FileFault::Emptied),
        _ => None,
    }
}

// Returns true if the file has no tables, as far as its header shows, and its WAL has no changes.
fn has_nothing(rt: &HostRuntime, path: &str) -> io::Result<bool> {
    let mut file = File::open(rt, path)?;
    if has_frames(rt, path)? {
        return Ok(false);
    }
    let mut head = [0; HEADER_BYTES];
    match file.read_exact(&mut head) {
        Ok(()) => Ok(is_blank(&head)),
        Err(error) if error.kind() == ErrorKind::UnexpectedEof => Ok(true),
        Err(error) => Err(error),
    }
}

/// Returns the fault if the file does not exist or has no tables, as far as its header shows. The fault is
/// `Emptied` if the WAL of an empty or missing file has changes. Returns `None` if the file has tables, and
/// if it cannot be read, since the opening reports the reason.
pub(crate) fn fault_of_existing(rt: &HostRuntime, path: &str) -> Option<FileFault> {
    if let Some(fault) = fault_of_wal(rt, path) {
        return Some(fault);
    }
    match has_nothing(rt, path) {
        Ok(true) => Some(FileFault::Blank),
        Err(error) if error.kind() == ErrorKind::NotFound => Some(FileFault::Missing),
        _ => None,
    }
}

//! The two files of a database in memory, with troubles: the files stop after a number of calls, are full
//! after a number of writes, or have a wrong byte.

use super::disks::{Stop, copied_files};
use crate::files::disks::{Lie, TestDisk};
use sqlite_disk::{Disk, Files, Memory};
use std::alloc::Global;
use test_kit::RowFault;

/// A trouble of a disk. It begins after a number of calls or writes, which a [`Stop`] gives.
#[derive(Clone, Copy)]
pub(crate) enum Trouble {
    /// After the number of calls in [`Stop::calls`], each call fails.
    Freezes,
    /// After the number of writes in [`Stop::calls`], each write fails.
    Fills,
}

/// Returns copies of files, with all bytes synchronised, that have this trouble from `stop` on.
pub(crate) fn troubled<D: TestDisk>(
    alloc: Global,
    files: &Files<Memory>,
    stop: Stop,
    trouble: Trouble,
) -> Result<Files<D>, RowFault> {
    let Files { log, db } = copied_files(alloc, &files.log, &files.db)?;
    let of = stop.calls_of_each();
    let never = (u64::MAX, u64::MAX);
    let (calls, writes) = match trouble {
        Trouble::Freezes => (of, never),
        Trouble::Fills => (never, of),
    };
    Ok(Files {
        log: D::over(log, calls.0, writes.0, None),
        db: D::over(db, calls.1, writes.1, None),
    })
}

/// Returns copies of files, with all bytes synchronised. If `lie` is given, the copy of the database file has
/// the wrong byte that it describes.
pub(crate) fn lying<D: TestDisk>(
    alloc: Global,
    files: &Files<Memory>,
    lie: Option<Lie>,
) -> Result<Files<D>, RowFault> {
    let Files { log, db } = copied_files(alloc, &files.log, &files.db)?;
    Ok(Files {
        log: D::over(log, u64::MAX, u64::MAX, None),
        db: D::over(db, u64::MAX, u64::MAX, lie),
    })
}

// Returns true if a disk has failed a call or a write.
fn has_failed<D: TestDisk>(disk: &mut D) -> bool {
    disk.is_full() || !disk.may_be_used() || disk.len().is_err()
}

/// Returns true if one of the files has stopped, or has failed a write because it is full.
pub(crate) fn have_failed<D: TestDisk>(disks: &mut Files<D>) -> bool {
    has_failed(&mut disks.log) || has_failed(&mut disks.db)
}

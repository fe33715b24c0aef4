//! Checks the path and the file of tables before an opening. Converts each fault that `existing.rt` finds to
//! the program's failure.

ghost use Rattle.std.specs.Prelude.{IfErr};
ghost use Rattle.csid_settings.specs.Statuses.{IsOrNoMemory};

use crate::existing::{FileFault, fault_of_existing, fault_of_kind, fault_of_wal};
use crate::making::make_private;
use csid_settings::{Failure, TablesFile};
use std::alloc::Global;

/// Reported if new tables were made.
pub(crate) const NEW_TABLES: &str = "no tables were there, and new ones were made";

// Converts the fault of the file at `path` to the program's failure, and `None` to `Ok`.
fn existing_failure(alloc: Global, path: &str, fault: Option<FileFault>) -> Result<(), Failure>
    ensures { IfErr result (λ failure. IsOrNoMemory 4 failure) }
{
    match fault {
        None => Ok(()),
        Some(fault) => Err(Failure::of_tables(alloc, path, &fault)),
    }
}

// Returns true if SQLite does not take the path as the name of a file.
fn names_no_file(path: &str) -> bool {
    path == ":memory:" || path.starts_with("file:")
}

/// Checks that a path can name a file of tables.
///
/// # Errors
///
/// If the path is empty, SQLite does not take it as the name of a file, or memory is refused.
pub(crate) fn check_path(rt: &HostRuntime, path: &str) -> Result<(), Failure>
    ensures { IfErr result (λ failure. IsOrNoMemory 4 failure) }
{
    if path.is_empty() {
        return Err(Failure::NoTablesPath);
    }
    if names_no_file(path) {
        return Err(Failure::of_tables(rt.alloc(), path, &FileFault::NoPath));
    }
    Ok(())
}

// Fails if a file or its WAL is a named pipe, a socket or a device, since opening it may block.
fn check_kind(rt: &HostRuntime, path: &str) -> Result<(), Failure>
    ensures { IfErr result (λ failure. IsOrNoMemory 4 failure) }
{
    existing_failure(rt.alloc(), path, fault_of_kind(rt, path))
}

/// Checks that a file has tables, as far as its header shows, and changes nothing. A file that cannot be read
/// passes, since the opening reports the reason.
///
/// # Errors
///
/// If the file is missing or has no tables, if the file is empty or missing while its WAL has changes, or if
/// memory is refused.
pub(crate) fn check_existing(rt: &HostRuntime, path: &str) -> Result<(), Failure>
    ensures { IfErr result (λ failure. IsOrNoMemory 4 failure) }
{
    existing_failure(rt.alloc(), path, fault_of_existing(rt, path))
}

// Fails if a file is empty or missing and its WAL has changes, since no new tables may be made in it. Changes
// nothing.
fn check_wal(rt: &HostRuntime, path: &str) -> Result<(), Failure>
    ensures { IfErr result (λ failure. IsOrNoMemory 4 failure) }
{
    existing_failure(rt.alloc(), path, fault_of_wal(rt, path))
}

/// Checks the path and the kind of a file. Also checks that the file has tables or may get new tables, as far
/// as its header and its WAL show. Changes nothing. A file that cannot be read passes, since the opening
/// reports the reason.
///
/// # Errors
///
/// If the file fails one of these checks, or memory is refused.
pub(crate) fn check_file(rt: &HostRuntime, file: &TablesFile<'_>) -> Result<(), Failure>
    ensures { IfErr result (λ failure. IsOrNoMemory 4 failure) }
{
    check_path(rt, file.path)?;
    check_kind(rt, file.path)?;
    if file.is_existing {
        check_existing(rt, file.path)
    } else {
        check_wal(rt, file.path)
    }
}

/// Checks the path, the kind, the header and the WAL of a file before it is opened. If the file is missing
/// and may be made, makes it with mode 0600. A file that cannot be read or made passes, since the opening
/// reports the reason.
///
/// # Errors
///
/// If the file fails one of these checks, or memory is refused.
pub(crate) fn prepare(rt: &HostRuntime, file: &TablesFile<'_>) -> Result<(), Failure>
    ensures { IfErr result (λ failure. IsOrNoMemory 4 failure) }
{
    check_file(rt, file)?;
    if !file.is_existing {
        make_private(rt, file.path);
    }
    Ok(())
}

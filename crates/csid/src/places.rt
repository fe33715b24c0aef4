//! Refuses a socket or a copy that would be made at the place of another file: of the tables, of their WAL or
//! journal, or of the socket of a change store.

ghost use Rattle.std.specs.Prelude.{IfErr};
ghost use Rattle.csid_settings.specs.Statuses.{IsOrNoMemory};

use crate::run::refused_options;
use csid_settings::{Failure, Serving, Volumes};
use std::alloc::AllocError;
use std::fs;
use std::path::{Path, PathBuf};

const SOCKET_AT_TABLES: &str = "'--socket <PATH>' and '--tables <FILE>' name one file";

const SOCKET_BESIDE_TABLES: &str =
    "'--socket <PATH>' names the WAL or the journal of '--tables <FILE>'";

const SOCKET_AT_LOG: &str = "'--socket <PATH>' and '--log <PATH>' name one file";

const COPY_BESIDE_TABLES: &str =
    "'--to <COPY>' names the WAL or the journal of '--copy-tables <FILE>'";

// Returns the folder of a path: `.` if the path is only the name of a file.
fn folder_of<'a>(path: Path<'a>) -> Option<Path<'a>> {
    match path.parent() {
        Some(folder) if folder.as_str().is_empty() => Some(Path::new(".")),
        folder => folder,
    }
}

// Returns the place of a file: its path without links, `.` and `..`. If there is no such file, the links of
// its folder are followed. If there is no such folder, returns the path as it is.
fn place_of(rt: &HostRuntime, path: &str) -> Result<PathBuf, AllocError> {
    if let Ok(place) = fs::canonicalize(rt, path) {
        return Ok(place);
    }
    let path = Path::new(path);
    if let (Some(folder), Some(name)) = (folder_of(path), path.file_name()) {
        if let Ok(folder) = fs::canonicalize(rt, folder) {
            return folder.join(rt.alloc(), name);
        }
    }
    path.to_path_buf(rt.alloc())
}

// Returns true if a place is that of the WAL or the journal of the tables at another place.
fn is_beside(place: &PathBuf, tables: &PathBuf) -> bool {
    matches!(
        place.as_str().strip_prefix(tables.as_str()),
        Some("-wal" | "-journal")
    )
}

// Returns why the socket of a server cannot be made at its path, or `None` if it has a place of its own.
fn fault_of_socket(
    rt: &HostRuntime,
    serving: &Serving<'_>,
) -> Result<Option<&'static str>, AllocError> {
    let socket = place_of(rt, serving.socket)?;
    let (path, why) = match serving.volumes {
        Volumes::Tables(file) => (file.path, SOCKET_AT_TABLES),
        Volumes::ChangeStore(log) => (log, SOCKET_AT_LOG),
    };
    let place = place_of(rt, path)?;
    if socket.as_str() == place.as_str() {
        return Ok(Some(why));
    }
    let is_in_the_way = matches!(serving.volumes, Volumes::Tables(_)) && is_beside(&socket, &place);
    Ok(is_in_the_way.then_some(SOCKET_BESIDE_TABLES))
}

// Converts the fault of a place, or lack of memory, to the program's failure.
fn place_failure(
    rt: &HostRuntime,
    fault: Result<Option<&'static str>, AllocError>,
) -> Result<(), Failure>
    ensures { IfErr result (λ failure. IsOrNoMemory 2 failure) }
{
    match fault {
        Ok(None) => Ok(()),
        Ok(Some(why)) => Err(refused_options(rt.alloc(), why)),
        Err(_) => Err(Failure::NoMemory),
    }
}

/// Checks that the socket of a server has a place of its own: not that of its tables, of their WAL or
/// journal, or of the socket of its change store. An empty path of the socket passes, since the making of the
/// socket reports it.
///
/// # Errors
///
/// If the socket has the place of one of them, or memory is refused.
pub(crate) fn check_socket_place(rt: &HostRuntime, serving: &Serving<'_>) -> Result<(), Failure>
    ensures { IfErr result (λ failure. IsOrNoMemory 2 failure) }
{
    if serving.socket.is_empty() {
        return Ok(());
    }
    place_failure(rt, fault_of_socket(rt, serving))
}

// Returns why a copy of tables cannot be made at the path `to`, or `None` if it does not have the place of
// their WAL or journal.
fn fault_of_copy(
    rt: &HostRuntime,
    tables: &str,
    to: &str,
) -> Result<Option<&'static str>, AllocError> {
    let is_in_the_way = is_beside(&place_of(rt, to)?, &place_of(rt, tables)?);
    Ok(is_in_the_way.then_some(COPY_BESIDE_TABLES))
}

/// Checks that a copy of tables does not get the place of their WAL or their journal, which the next opening
/// of the tables would take for its own.
///
/// # Errors
///
/// If the copy would have the place of one of them, or memory is refused.
pub(crate) fn check_copy_place(rt: &HostRuntime, tables: &str, to: &str) -> Result<(), Failure>
    ensures { IfErr result (λ failure. IsOrNoMemory 2 failure) }
{
    place_failure(rt, fault_of_copy(rt, tables, to))
}

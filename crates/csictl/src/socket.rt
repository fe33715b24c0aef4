//! Finds the socket of the server, even if the arguments do not name it.

use crate::failure::Failure;
use clap::ArgMatches;
use std::env::{self, VarError};
use std::fs;

// The environment variable that names the socket.
const VARIABLE: &str = "CSID_SOCKET";

// The paths of two sockets in the units of deploy/: the control socket of the front, and the socket of
// `csid`.
const PLACES: [&str; 2] = ["/run/csid-front/control.sock", "/run/csid/csid.sock"];

// Returns the path in the environment variable, or an empty text if the variable is not set.
fn from_environment(rt: &HostRuntime) -> Result<String, Failure> {
    match env::var(rt, VARIABLE) {
        Ok(path) => Ok(path),
        Err(VarError::NotPresent) => Ok(String::new(rt.alloc())),
        Err(VarError::NotUnicode) => Err(Failure::NotText(VARIABLE)),
        Err(VarError::OutOfMemory) => Err(Failure::NoMemory),
    }
}

// Returns the first path of `PLACES` that exists, or `None`. A path in a folder that the user may not read is
// returned too, so that connecting reports the reason.
fn existing(rt: &HostRuntime) -> Option<&'static str> {
    for path in PLACES {
        if !matches!(fs::exists(rt, path), Ok(false)) {
            return Some(path);
        }
    }
    None
}

/// Returns the path of the server's socket, which is the first of these:
///
/// - the path in the option `--socket`, if the option is given
/// - the path in the environment variable CSID_SOCKET, if it is set and not empty
/// - the control socket of the front, at the path in the units of deploy/, if it exists
/// - the socket of `csid`, at the path in the units of deploy/, if it exists
///
/// Of the last two, a path is also returned if the system does not report that it is missing, for example if
/// the user may not read its folder. Connecting then reports the reason.
///
/// # Errors
///
/// If there is no such socket, the path in the option is empty, the variable is not UTF-8, or memory is
/// refused.
pub(crate) fn find(rt: &HostRuntime, arguments: &ArgMatches<'_>) -> Result<String, Failure> {
    if let Some(path) = arguments.get_str("socket") {
        if path.is_empty() {
            return Err(Failure::NoSocketPath);
        }
        return Ok(String::from_str(rt.alloc(), path)?);
    }
    let path = from_environment(rt)?;
    if !path.is_empty() {
        return Ok(path);
    }
    match existing(rt) {
        Some(path) => Ok(String::from_str(rt.alloc(), path)?),
        None => Err(Failure::NoSocket),
    }
}

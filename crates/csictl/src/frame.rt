//! Runs `csictl frame`: writes the frame of a call to standard output.

use crate::failure::{Ended, Failure};
use crate::message;
use clap::ArgMatches;
use csi_types::Method;
use frames_core::send;
use std::alloc::Global;

/// Returns the method of the call that the arguments describe, and the frame of the call.
///
/// # Errors
///
/// If the arguments do not describe a call, or memory is refused.
pub(crate) fn called(
    alloc: Global,
    arguments: &ArgMatches<'_>,
) -> Result<(Method, Vec<u8>), Failure> {
    let name = arguments.get_str("method").unwrap_or("");
    let method = message::method(alloc, name)?;
    let frame = message::frame(alloc, method, arguments)?;
    Ok((method, frame))
}

/// Writes the frame of a call to standard output.
///
/// # Errors
///
/// If the arguments do not describe a call, the frame cannot be written, or memory is refused.
pub(crate) fn run(rt: &HostRuntime, arguments: &ArgMatches<'_>) -> Result<Ended, Failure> {
    let (_, frame) = called(rt.alloc(), arguments)?;
    match send(&mut rt.stdout(), &frame) {
        Ok(()) => Ok(Ended::Done),
        Err(error) => Err(Failure::output(rt.alloc(), &error)),
    }
}

//! Runs `csictl show`: shows the replies that come on standard input.

use crate::failure::{Ended, Failure};
use crate::message;
use crate::output::Output;
use clap::ArgMatches;
use csi_client::{ShowEnd, show_all};
use csi_types::Method;

// Returns the end of the program after it showed replies on this output.
fn outcome(end: ShowEnd, output: &Output<'_>) -> Result<Ended, Failure> {
    match end {
        ShowEnd::Done(is_refused) => Ok(Ended::with(is_refused)),
        ShowEnd::Malformed(fault) => Err(Failure::Malformed(fault)),
        ShowEnd::BadBody => Err(Failure::BadBody),
        ShowEnd::ReadFailed => Err(Failure::ReadFailed),
        ShowEnd::WriteFailed => Err(output.failure()),
        ShowEnd::NoMemory => Err(Failure::NoMemory),
    }
}

// Shows the replies on standard input.
fn show(rt: &HostRuntime, method: Option<Method>) -> Result<Ended, Failure> {
    let mut output = Output::new(rt);
    let end = show_all(rt.alloc(), method, &mut rt.stdin(), &mut output);
    outcome(end, &output)
}

/// Shows the replies on standard input, as replies of the method in `--method` if it is given.
///
/// # Errors
///
/// If no method has the name, a reply is malformed, a body is not a response of the method, reading or
/// writing fails, or memory is refused.
pub(crate) fn run(rt: &HostRuntime, arguments: &ArgMatches<'_>) -> Result<Ended, Failure> {
    match arguments.get_str("method") {
        Some(name) => show(rt, Some(message::method(rt.alloc(), name)?)),
        None => show(rt, None),
    }
}

/// Shows the replies on standard input, without a method.
///
/// # Errors
///
/// If a reply is malformed, reading or writing fails, or memory is refused.
pub(crate) fn run_plain(rt: &HostRuntime) -> Result<Ended, Failure> {
    show(rt, None)
}

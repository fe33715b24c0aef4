//! Runs the command that the arguments name.

use crate::command::read_arguments;
use crate::failure::{Ended, Failure};
use crate::listings::What;
use crate::{call, changes, frame, listings, show, status, vectors};
use clap::ArgMatches;
use command_line::arguments;
use csi_types::Method;
use std::io::IsTerminal;

// Runs the command that the arguments name, or `show` without a command.
fn obey(rt: &HostRuntime, arguments: &ArgMatches<'_>) -> Result<Ended, Failure> {
    match arguments.subcommand() {
        Some(("frame", arguments)) => frame::run(rt, arguments),
        Some(("call", arguments)) => call::run(rt, arguments),
        Some(("vectors", arguments)) => vectors::run(rt, arguments),
        Some((name, arguments)) => obey_person(rt, name, arguments),
        None => show::run_plain(rt),
    }
}

// Runs the command for people that has this name, or `show` for any other name.
fn obey_person(rt: &HostRuntime, name: &str, arguments: &ArgMatches<'_>) -> Result<Ended, Failure> {
    match name {
        "status" => status::run(rt, arguments),
        "volumes" => listings::run(rt, What::Volumes, arguments),
        "nodes" => listings::run(rt, What::Nodes, arguments),
        "pools" => listings::run(rt, What::Pools, arguments),
        "volume" => listings::run(rt, What::Volume, arguments),
        "create" => changes::run(rt, Method::CreateVolume, arguments),
        "publish" => changes::run(rt, Method::ControllerPublishVolume, arguments),
        "unpublish" => changes::run(rt, Method::ControllerUnpublishVolume, arguments),
        "delete" => changes::run(rt, Method::DeleteVolume, arguments),
        _ => show::run(rt, arguments),
    }
}

/// Runs the program. Without arguments, it prints the help if standard input is a terminal, and otherwise
/// shows the replies on standard input.
///
/// # Errors
///
/// Returns why the program fails. The caller reports it.
pub(crate) fn run(rt: &HostRuntime) -> Result<Ended, Failure> {
    let mut arguments = arguments(rt)?;
    if arguments.len() == 1 && rt.stdin().is_terminal() {
        let help = String::from_str(rt.alloc(), "--help")?;
        if arguments.push(help).is_err() {
            return Err(Failure::NoMemory);
        }
    }
    match read_arguments(rt, arguments.as_slice())? {
        Some(matches) => obey(rt, &matches),
        None => Ok(Ended::Done),
    }
}

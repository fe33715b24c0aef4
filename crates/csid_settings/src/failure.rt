//! The failures with which the program ends, and the exit status of each.

ghost use Rattle.std.specs.Prelude.{◌≡◌, IfErr, IfOk, Some};
ghost use Rattle.csid_settings.specs.Statuses.{IsOrNoMemory, end_of, failure_status, status_of, resource_status};
ghost use Rattle.csid_settings.specs.declared.failure.Failure.TheVariants.{NoMemory, Unusable};

use command_line::{ArgumentsFault, Cause, cause};
use csi_server::RunEnd;
use envelope::FrameFault;
use std::alloc::{AllocError, Global};
use std::fmt::Display;
use thiserror::Error;

/// A resource that the program may fail to use. The line about the failure has the resource's path or group.
#[derive(Clone, Copy, Debug)]
pub enum Resource {
    /// The configuration. The line has the path of the configuration file.
    Configuration,
    /// The tables. The line has the path of the file of tables.
    Tables,
    /// The socket, which cannot be made or accepts no connection. The line has the path of the socket, or the
    /// group.
    Socket,
}

impl Resource {
    // Returns the exit status if the resource cannot be used.
    fn status(self) -> u8
        ensures { result ≡ resource_status self }
    {
        match self {
            Resource::Configuration => 3,
            Resource::Tables => 4,
            Resource::Socket => 7,
        }
    }
}

/// A failure, which ends the program or, if it is a failure of one connection, is only reported. Its
/// `Display` is the line on standard error.
#[derive(Debug, Error)]
pub enum Failure {
    /// A frame of a call is malformed. The value has the rule that the frame breaks, and the byte at which it
    /// does. The exit status is 1.
    #[error("{0}")]
    Malformed(FrameFault),
    /// The command line is not valid, help or the version could not be written, or memory was refused while
    /// the arguments were parsed. The exit status is 2, 5 or 6.
    #[error("{0}")]
    Arguments(#[from] ArgumentsFault),
    /// A resource cannot be used. The value has the name of the resource and the reason. The exit status is
    /// 3, 4 or 7, by the resource.
    #[error("{1}")]
    Unusable(Resource, Cause),
    /// The path of the tables is empty. The exit status is 4.
    #[error("the path of the tables is empty")]
    NoTablesPath,
    /// The input with this name cannot be read. The exit status is 5.
    #[error("a read of {0} failed")]
    ReadFailed(&'static str),
    /// The output with this name cannot be written. The exit status is 5.
    #[error("a write to {0} failed")]
    WriteFailed(&'static str),
    /// A run of calls ended because it reached the limit of 2^32 reads. The exit status is 5.
    #[error("the reads of one run are spent")]
    TurnsSpent,
    /// Memory was refused. The exit status is 6.
    #[error("out of memory")]
    NoMemory,
    /// The path of the socket is empty. The exit status is 7.
    #[error("the socket's path is empty")]
    NoSocketPath,
}

// Written by hand and not derived: the proof of code that drops a failure then has one call for the drop, and
// no branch for each variant.
impl Drop for Failure {
    fn drop(self) {
        match self {
            Failure::Malformed(_) => {}
            Failure::Arguments(_fault) => {}
            Failure::Unusable(_, _cause) => {}
            Failure::NoTablesPath => {}
            Failure::ReadFailed(_) => {}
            Failure::WriteFailed(_) => {}
            Failure::TurnsSpent => {}
            Failure::NoMemory => {}
            Failure::NoSocketPath => {}
        }
    }
}

impl From<AllocError> for Failure {
    ghost use Rattle.std.specs.Prelude.{◌≡◌};
    ghost use Rattle.csid_settings.specs.declared.failure.Failure.TheVariants.{NoMemory};

    ghost from_gives = { λ _ e. e ≡ NoMemory };

    fn from(_: AllocError) -> Failure {
        Failure::NoMemory
    }
}

impl Failure {
    // Returns the failure for a resource that cannot be used, or [`Failure::NoMemory`] if memory for the
    // cause was refused.
    fn of(thing: Resource, cause: Result<Cause, AllocError>) -> Failure
        ensures unusable { IfOk cause (λ why. result ≡ Unusable thing why) }
        ensures memory { IfErr cause (λ _. result ≡ NoMemory) }
        ensures status { IsOrNoMemory (resource_status thing) result }
    {
        match cause {
            Ok(cause) => Failure::Unusable(thing, cause),
            Err(_) => Failure::NoMemory,
        }
    }

    /// Returns the failure for a configuration that cannot be used, with the path of its file and the reason.
    /// Returns [`Failure::NoMemory`] if memory for the line is refused.
    pub fn configuration<T: Display>(alloc: Global, path: &str, why: &T) -> Failure
        ensures { IsOrNoMemory 3 result }
    {
        Failure::of(Resource::Configuration, cause(alloc, path, why))
    }

    /// Returns the failure for tables that cannot be used, with the path of their file and the reason.
    /// Returns [`Failure::NoMemory`] if memory for the line is refused.
    pub fn of_tables<T: Display>(alloc: Global, path: &str, why: &T) -> Failure
        ensures { IsOrNoMemory 4 result }
    {
        Failure::of(Resource::Tables, cause(alloc, path, why))
    }

    /// Returns the failure for a socket that fails or cannot be made for a group, with the reason. `name` is
    /// the path or the group. Returns [`Failure::NoMemory`] if memory for the line is refused.
    pub fn of_socket<T: Display>(alloc: Global, name: &str, why: &T) -> Failure
        ensures { IsOrNoMemory 7 result }
    {
        Failure::of(Resource::Socket, cause(alloc, name, why))
    }

    /// Returns the exit status of the program if this failure ends it, 1 to 7 (docs/OPERATING.md, "Arguments
    /// and exit statuses of `csid`").
    pub fn status(&self) -> u8
        ensures { result ≡ failure_status self.now }
    {
        match self {
            Failure::Malformed(_) => 1,
            Failure::Arguments(fault) => fault.status(),
            Failure::Unusable(thing, _) => thing.status(),
            Failure::NoTablesPath => 4,
            Failure::ReadFailed(_) | Failure::WriteFailed(_) | Failure::TurnsSpent => 5,
            Failure::NoMemory => 6,
            Failure::NoSocketPath => 7,
        }
    }
}

/// The stream that calls come from and replies go to.
#[derive(Clone, Copy)]
pub enum Endpoint {
    /// Standard input and standard output.
    Pipe,
    /// A connection to the socket.
    Connection,
}

impl Endpoint {
    // Returns the name of the input, as lines show it.
    fn source(self) -> &'static str {
        match self {
            Endpoint::Pipe => "standard input",
            Endpoint::Connection => "a connection",
        }
    }

    // Returns the name of the output, as lines show it.
    fn sink(self) -> &'static str {
        match self {
            Endpoint::Pipe => "standard output",
            Endpoint::Connection => "a connection",
        }
    }
}

/// Returns the outcome of a run of calls that ended with `end`. `peer` names the input and the output.
///
/// # Errors
///
/// If the end is not [`RunEnd::Done`]. The failure has the exit status for this end, and its line names the
/// input or the output.
pub fn outcome(peer: Endpoint, end: RunEnd) -> Result<(), Failure>
    ensures done { IfOk result (λ _. status_of end ≡ 0) }
    ensures failed { IfErr result (λ failure. failure_status failure ≡ status_of end) }
    ensures end { IfErr result (λ failure. end_of failure ≡ Some end) }
{
    match end {
        RunEnd::Done => Ok(()),
        RunEnd::Malformed(fault) => Err(Failure::Malformed(fault)),
        RunEnd::ReadFailed => Err(Failure::ReadFailed(peer.source())),
        RunEnd::TurnsSpent => Err(Failure::TurnsSpent),
        RunEnd::WriteFailed => Err(Failure::WriteFailed(peer.sink())),
        RunEnd::NoMemory => Err(Failure::NoMemory),
    }
}

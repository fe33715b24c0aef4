//! The ways in which the program ends: its failures, with their lines for standard error, and its exit
//! statuses.

ghost use Rattle.std.specs.Prelude.{◌≡◌, false, IsTrue};
ghost use Rattle.csictl.specs.Statuses.{ended_status, failure_status};
ghost use Rattle.csictl.specs.declared.failure.Failure.TheVariants.{NoMemory};

use command_line::{ArgumentsFault, Cause, cause};
use csi_types::Method;
use envelope::ReplyFault;
use std::alloc::{AllocError, Global};
use std::fmt::Display;
use std::io::{self, ErrorKind};
use thiserror::Error;

/// The end of the program if nothing fails.
#[derive(Clone, Copy)]
pub(crate) enum Ended {
    /// No reply refused its call, and no vector failed.
    Done,
    /// A reply refused its call, or a vector failed.
    Refused,
}

impl Ended {
    /// Returns [`Ended::Refused`] if `is_refused` is true, otherwise [`Ended::Done`].
    pub(crate) fn with(is_refused: bool) -> Ended
        ensures refused { IsTrue is_refused → result ≡ Ended.Refused }
        ensures done { is_refused ≡ false → result ≡ Ended.Done }
    {
        if is_refused {
            Ended::Refused
        } else {
            Ended::Done
        }
    }

    /// Returns the exit status of this end (docs/CLI.md, "Exit statuses of `csictl`").
    pub(crate) fn status(self) -> u8
        ensures { result ≡ ended_status self }
    {
        match self {
            Ended::Done => 0,
            Ended::Refused => 1,
        }
    }
}

/// The reason why the program fails. Its `Display` is the line on standard error.
#[derive(Debug, Drop, Error)]
pub(crate) enum Failure {
    /// The command line is not valid, help or the version could not be written, or memory was refused while
    /// the arguments were parsed. The exit status is 2, 5 or 6.
    #[error("{0}")]
    Arguments(#[from] ArgumentsFault),
    /// No method has this name.
    #[error("{0}: no such method")]
    NoMethod(String),
    /// The request of the method has no field for an option that is given.
    #[error("{method:?} has no field for --{option}")]
    NoField {
        method: Method,
        option: &'static str,
    },
    /// The option with this name, which is written without dashes, cannot be combined with `--message`.
    #[error("--{0} cannot be used with --message")]
    WithMessage(&'static str),
    /// `--all` was given with a method other than ListVolumes.
    #[error("--all: ListVolumes alone has pages")]
    NotPaged,
    /// The value of `--message` is not an even number of hexadecimal digits.
    #[error("--message: not an even number of hexadecimal digits")]
    NotHex,
    /// The value of this option is not a number in decimal digits alone, for example because it has a sign.
    #[error("--{0}: not decimal digits alone")]
    NotDecimal(&'static str),
    /// No socket is given, and no socket exists at the paths that the units use.
    #[error("no socket: give --socket PATH, or CSID_SOCKET in the environment; neither /run/csid-front/control.sock nor /run/csid/csid.sock exists")]
    NoSocket,
    /// The path in `--socket` is empty.
    #[error("--socket: the socket's path is empty")]
    NoSocketPath,
    /// The environment variable with this name is not UTF-8.
    #[error("{0}: no text")]
    NotText(&'static str),
    /// The value of this option is not a size.
    #[error("--{0}: no size: write a number and at most one unit, as 1Gi, 500M or 1.5 GiB, for a whole number of bytes below 2^63; units are k, M, G, T, P, E, and Ki, Mi, Gi, Ti, Pi, Ei with or without a B")]
    NotSize(&'static str),
    /// The value of this option is not an access mode.
    #[error("--{0}: no access mode: write single-node-writer, single-node-reader-only, multi-node-reader-only, multi-node-single-writer, multi-node-multi-writer, single-node-single-writer or single-node-multi-writer, the name that Kubernetes has for it, as ReadWriteOnce or RWO, or a number")]
    NotMode(&'static str),
    /// A pair of a key and a value has no `=`.
    #[error("a pair without '=': write KEY=VALUE,KEY=VALUE")]
    NotPair,
    /// The message has more than 1,048,576 bytes, which is the greatest length of a message in a frame.
    #[error("the message has more than 1048576 bytes")]
    TooLong,
    /// A line of a file of vectors is not a vector.
    #[error("{path}: line {line} is no vector")]
    NotVector {
        path: String,
        line: u64,
    },
    /// A reply of the server, or on standard input, is malformed.
    #[error("{0}")]
    Malformed(ReplyFault),
    /// The server at the socket with this path speaks HTTP/2.
    #[error("{0}: a gRPC socket (HTTP/2): give the socket of csid, or the one that the front has by --control")]
    OtherSocket(String),
    /// The body of a reply is not a response of its method.
    #[error("the body is no response of the method")]
    BadBody,
    /// The listing has no last page: a page names itself as the next page, or 1,000,000 pages were read and
    /// none was the last.
    #[error("the pages have no end")]
    NoEnd,
    /// The configuration has no pool with this name.
    #[error("{0}: no pool of the configuration has this name")]
    NoPool(String),
    /// The configuration has no node with this id.
    #[error("{0}: no node of the configuration has this id")]
    NoNode(String),
    /// No volume has this id, which has the form of an id, such as `vol-1`.
    #[error("{0}: no volume has this id")]
    NoVolume(String),
    /// No volume has this id, and the text does not have the form of an id. The text may be the name of a
    /// volume.
    #[error("{0}: no volume has this id; ids look like vol-1, and csid --list-tables or csid-etcd --list shows the name of each")]
    NotAnId(String),
    /// The volume of an `unpublish` exists, and is not published to this node.
    #[error("{volume}: not published to {node}")]
    NotAtNode {
        volume: String,
        node: String,
    },
    /// The volume of an `unpublish` without a node exists, and is not published to any node.
    #[error("{0}: not published to any node")]
    NotPublished(String),
    /// An operation on a file, standard output or the socket failed, or a call got no reply. The value has
    /// the name of the file or the socket, and the reason.
    #[error("{0}")]
    System(Cause),
    /// Standard input could not be read.
    #[error("a read of standard input failed")]
    ReadFailed,
    /// Standard output could not be written.
    #[error("a write to standard output failed")]
    WriteFailed,
    /// The reader of standard output has gone. The program ends with exit status 0, without a line on
    /// standard error.
    #[error("the reader of standard output has gone")]
    ReaderGone,
    /// Memory is refused.
    #[error("out of memory")]
    NoMemory,
}

impl From<AllocError> for Failure {
    ghost from_gives = { λ _ failure. failure ≡ NoMemory };

    fn from(_: AllocError) -> Failure {
        Failure::NoMemory
    }
}

impl Failure {
    /// Returns the failure of an operation of the system, or [`Failure::NoMemory`] if memory is refused.
    pub(crate) fn system(alloc: Global, name: &str, error: &io::Error) -> Failure {
        match error.kind() {
            ErrorKind::OutOfMemory => Failure::NoMemory,
            _ => Failure::named(alloc, name, error),
        }
    }

    /// Returns the failure of a write to standard output: [`Failure::ReaderGone`] if the reader of standard
    /// output has closed it, otherwise as [`Failure::system`].
    pub(crate) fn output(alloc: Global, error: &io::Error) -> Failure {
        match error.kind() {
            ErrorKind::BrokenPipe => Failure::ReaderGone,
            _ => Failure::system(alloc, "standard output", error),
        }
    }

    /// Returns a failure with the name of a file or socket, and the reason `why`, or [`Failure::NoMemory`] if
    /// memory is refused.
    pub(crate) fn named<T: Display>(alloc: Global, name: &str, why: &T) -> Failure {
        match cause(alloc, name, why) {
            Ok(cause) => Failure::System(cause),
            Err(_) => Failure::NoMemory,
        }
    }

    /// Returns the exit status of this failure (docs/CLI.md, "Exit statuses of `csictl`").
    pub(crate) fn status(&self) -> u8
        ensures { result ≡ failure_status self.now }
    {
        match self {
            Failure::Arguments(fault) => fault.status(),
            Failure::NoMethod(_)
            | Failure::NoField { .. }
            | Failure::WithMessage(_)
            | Failure::NotPaged
            | Failure::NotHex
            | Failure::NotDecimal(_)
            | Failure::NoSocket
            | Failure::NoSocketPath
            | Failure::NotText(_)
            | Failure::NotSize(_)
            | Failure::NotMode(_)
            | Failure::NotPair
            | Failure::TooLong
            | Failure::NotVector { .. } => 2,
            Failure::ReaderGone => 0,
            Failure::NoPool(_)
            | Failure::NoNode(_)
            | Failure::NoVolume(_)
            | Failure::NotAnId(_)
            | Failure::NotAtNode { .. }
            | Failure::NotPublished(_) => 1,
            Failure::Malformed(_) | Failure::OtherSocket(_) | Failure::BadBody | Failure::NoEnd =>
                3,
            Failure::System(_) | Failure::ReadFailed | Failure::WriteFailed => 5,
            Failure::NoMemory => 6,
        }
    }
}

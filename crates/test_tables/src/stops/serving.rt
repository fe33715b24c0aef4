//! Serves calls over the tables in files.

ghost use Rattle.std.specs.Prelude.{◌≡◌, false};

use super::Ending;
use super::disks::{NEVER, Task, copies, make_older, over};
use crate::files::disks::TestDisk;
use crate::state::state_text;
use csi_adoption::{AdoptError, adopt};
use csi_config::Config;
use csi_keeper::Keeper;
use csi_server::serve;
use sqlite::{Alter, Connection};
use sqlite_disk::{Disk, Files, Memory};
use std::alloc::Global;
use std::fmt;
use test_kit::RowFault;

/// The replies to calls over files that never stop, and the States before and after the calls.
#[derive(Drop)]
pub(crate) struct Outcome {
    /// The State after the tables are adopted and before the calls.
    pub(crate) before: String,
    /// The replies, as the bytes of their frames.
    pub(crate) replies: Vec<u8>,
    /// The State after the calls.
    pub(crate) after: String,
}

fn serve_calls<K: Keeper>(
    alloc: Global,
    config: &Config,
    keeper: &mut K,
    calls: &[u8],
    replies: &mut Vec<u8>,
) {
    let mut reader = calls;
    serve(alloc, config, keeper, &mut reader, replies);
}

// A task that serves calls and appends the replies. If the tables cannot be adopted, it serves no call.
#[derive(Drop)]
struct Serving<'a> {
    alloc: Global,
    config: &'a Config,
    calls: &'a [u8],
    replies: &'a mut Vec<u8>,
}

impl Task for Serving<'_> {
    fn run<S: Alter + Drop>(&mut self, conn: Connection<S>) -> Connection<S> {
        match adopt(self.alloc, conn, self.config) {
            Ok(mut tables) => {
                serve_calls(
                    self.alloc,
                    self.config,
                    &mut tables,
                    self.calls,
                    self.replies,
                );
                tables.into_connection()
            }
            Err(AdoptError { conn, .. }) => conn,
        }
    }
}

/// Opens files, adopts the tables, serves the calls, and returns the files. If the files cannot be opened or
/// the tables cannot be adopted, no call is served.
pub(crate) fn serve_files<D: Disk + Drop>(
    alloc: Global,
    config: &Config,
    files: Files<D>,
    calls: &[u8],
    replies: &mut Vec<u8>,
    closes: bool,
) -> Files<D> {
    let mut serving = Serving {
        alloc,
        config,
        calls,
        replies,
    };
    over(alloc, files, closes, &mut serving).0
}

/// Returns [`RowFault::Differs`] with the text `what: why`, or [`RowFault::NoMemory`] if memory is refused.
pub(crate) fn unlike<W: fmt::Display, T: fmt::Display>(
    alloc: Global,
    what: &W,
    why: &T,
) -> RowFault {
    match format!(in alloc; "{what}: {why}") {
        Ok(text) => RowFault::Differs(text),
        Err(_) => RowFault::NoMemory,
    }
}

// Answers calls, and returns the replies and the States before and after the calls.
fn answered<K: Keeper>(
    alloc: Global,
    config: &Config,
    keeper: &mut K,
    calls: &[u8],
) -> Result<Outcome, RowFault> {
    let before = state_text(alloc, config, keeper)?;
    let mut replies = Vec::new(alloc);
    serve_calls(alloc, config, keeper, calls, &mut replies);
    Ok(Outcome {
        before,
        replies,
        after: state_text(alloc, config, keeper)?,
    })
}

// A task that serves calls over tables that must be adopted, and keeps the outcome.
#[derive(Drop)]
struct Reporting<'a> {
    alloc: Global,
    config: &'a Config,
    calls: &'a [u8],
    is_older: bool,
    outcome: Result<Outcome, RowFault>,
}

impl Reporting<'_> {
    fn make_older<S: Alter>(&mut self, conn: &mut Connection<S>) {
        if self.is_older {
            if let Err(fault) = make_older(conn) {
                self.outcome = Err(fault);
            }
        }
    }
}

impl Task for Reporting<'_> {
    fn run<S: Alter + Drop>(&mut self, conn: Connection<S>) -> Connection<S> {
        match adopt(self.alloc, conn, self.config) {
            Ok(mut tables) => {
                self.outcome = answered(self.alloc, self.config, &mut tables, self.calls);
                let mut conn = tables.into_connection();
                self.make_older(&mut conn);
                conn
            }
            Err(AdoptError { fault, conn }) => {
                self.outcome = Err(unlike(self.alloc, &"not adopted", &fault));
                conn
            }
        }
    }
}

/// Opens files, adopts the tables and answers the calls. Returns the outcome, and the files as `ending`
/// leaves them.
pub(crate) fn left_by<D: Disk + Drop>(
    alloc: Global,
    config: &Config,
    files: Files<D>,
    calls: &[u8],
    ending: Ending,
) -> Result<(Outcome, Files<D>), RowFault> {
    let mut reporting = Reporting {
        alloc,
        config,
        calls,
        is_older: matches!(ending, Ending::Older),
        outcome: Err(RowFault::Refused("not opened")),
    };
    let closes = !matches!(ending, Ending::Open);
    let (files, opened) = over(alloc, files, closes, &mut reporting);
    match opened {
        Ok(()) => Ok((reporting.outcome?, files)),
        Err(error) => Err(unlike(alloc, &"files", &error)),
    }
}

/// Returns the outcome of calls over copies of files.
pub(crate) fn outcome_of<D: TestDisk>(
    alloc: Global,
    config: &Config,
    files: &Files<Memory>,
    calls: &[u8],
) -> Result<Outcome, RowFault> {
    let copies = copies::<D>(alloc, files, NEVER)?;
    let (outcome, _) = left_by(alloc, config, copies, calls, Ending::Open)?;
    Ok(outcome)
}

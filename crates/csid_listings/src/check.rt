//! Runs `csid --check-config` and `csid --check-tables`: shows what a file contains, or why it is refused.
//! Neither of them serves calls or changes a file.

ghost use Rattle.std.specs.Prelude.{◌≡◌, false};

use crate::content::{Content, read_content};
use crate::copy::{CopyTask, over_tables_copy};
use crate::explain::explain;
use crate::memory::{memory_adoption_failure, memory_failure};
use csi_adoption::{AdoptError, adopt};
use csi_config::Config;
use csid_console::Console;
use csid_settings::{Failure, checked_configuration};
use sqlite::{Alter, Connection};
use std::fmt::{self, Display};
use std::io::Write;

/// A line about a configuration: the name of the plugin, and the numbers of pools and nodes.
#[derive(Clone, Copy, Drop)]
struct Summary<'a> {
    config: &'a Config,
}

impl Display for Summary<'_> {
    fn fmt<W: fmt::Write>(&self, f: &mut fmt::Formatter<W>) -> fmt::Result {
        let name = &self.config.plugin().name;
        let pools = self.config.pools().len();
        let nodes = self.config.nodes().len();
        write!(f, "name {name}, pools {pools}, nodes {nodes}")
    }
}

/// Writes `what` as a line on standard output.
///
/// # Errors
///
/// If the line cannot be written, or memory is refused.
pub(crate) fn report<T: Display>(rt: &HostRuntime, what: &T) -> Result<(), Failure> {
    let line = format!(in rt.alloc(); "{what}\n")?;
    let mut out = rt.stdout();
    match out.write_all(line.as_bytes()).and_then(|()| out.flush()) {
        Ok(()) => Ok(()),
        Err(_) => Err(Failure::WriteFailed("standard output")),
    }
}

/// Reads the configuration in the file at `path`, and writes the plugin's name and the numbers of pools and
/// nodes as a line on standard output. Unknown keys and all faults of the configuration are reported.
///
/// # Errors
///
/// If the file cannot be read, the configuration has a fault, the line cannot be written, or memory is
/// refused.
pub fn check_config(console: &Console<'_>, path: &str) -> Result<(), Failure> {
    let config = checked_configuration(console, path)?;
    report(console.rt, &Summary { config: &config })
}

/// Adopts tables in memory: checks them under the configuration, and upgrades them to the latest format.
/// Returns the counts that the tables had before the upgrade. If the tables are refused because of a volume,
/// an attachment, a pool or a node, reports details.
///
/// # Errors
///
/// If the tables or their counts cannot be read, the tables are refused, or memory is refused.
pub(crate) fn adopted<S: Alter + Drop>(
    console: &Console<'_>,
    path: &str,
    mut conn: Connection<S>,
    config: &Config,
) -> Result<Content, Failure>
    requires { conn.in_transaction ≡ false }
{
    let alloc = console.rt.alloc();
    let content = read_content(&mut conn);
    if let Err(AdoptError { fault, mut conn }) = adopt(alloc, conn, config) {
        explain(console, path, &mut conn, config, &fault);
        return Err(memory_adoption_failure(alloc, path, &fault));
    }
    match content {
        Ok(content) => Ok(content),
        Err(error) => Err(memory_failure(alloc, path, &error)),
    }
}

/// Checks that the tables in the file at `path` can be served under a configuration. Writes a line on
/// standard output: the numbers of volumes and of attachments, the next number, and the format. The check is
/// over a copy in memory, and the file is only read.
///
/// # Errors
///
/// If the tables cannot be read or are refused, the line cannot be written, or memory is refused.
pub fn check_tables(console: &Console<'_>, path: &str, config: &Config) -> Result<(), Failure> {
    over_tables_copy(console, path, CopyTask::Check(config))?
}

/// Checks the tables on a connection under a configuration, and writes their counts on standard output.
///
/// # Errors
///
/// If the tables or their counts cannot be read, the tables are refused, the line cannot be written, or
/// memory is refused.
pub(crate) fn check_over<S: Alter + Drop>(
    console: &Console<'_>,
    path: &str,
    conn: Connection<S>,
    config: &Config,
) -> Result<(), Failure>
    requires { conn.in_transaction ≡ false }
{
    let content = adopted(console, path, conn, config)?;
    report(console.rt, &content)
}

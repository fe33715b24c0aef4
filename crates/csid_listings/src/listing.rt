//! Runs `csid --list-tables`: lists the volumes in a file of tables, and the sums of their sizes for each
//! pool and node. It reads no configuration, takes no lock and changes nothing.

ghost use Rattle.std.specs.Prelude.{◌≡◌, false};

mod cells;
mod json;
mod output;
mod sums;
mod text;

use crate::copy::{CopyTask, over_tables_copy};
use csi_keeper::{PageWithNodes, Volume};
use csi_rules::number_of_id;
use csi_sql::IdleConnection;
use csi_tables::{TablesError, TablesFault, page_with_nodes};
use csi_types::{Items, Text};
use csid_console::Console;
use csid_settings::{Chosen, Failure};
use sqlite::{Alter, Connection};
use std::alloc::Global;

// The greatest number of volumes in one read, so that a read does not hold all volumes at once.
const PAGE: u32 = 1000;

// A number above the number of each volume, since integers of SQLite are below 2^63.
const NUMBERS: u64 = 1 << 63;

const NONE_READ: &str =
    "the tables cannot be read from the first volume on: --check-tables says why";

fn is_wanted(wanted: Option<&str>, text: &Text) -> bool {
    match wanted {
        Some(wanted) => wanted == text.as_str(),
        None => true,
    }
}

// Returns true if `wanted` is `None` or one of the nodes.
fn is_at(wanted: Option<&str>, nodes: &Items<Text>) -> bool {
    wanted.is_none() || nodes.as_slice().iter().any(|node| is_wanted(wanted, node))
}

// Returns true if `wanted` is `None` or the id of the volume with this number.
fn is_id(wanted: Option<&str>, number: u64) -> bool {
    match wanted {
        Some(id) => number_of_id(id) == Some(number),
        None => true,
    }
}

// Returns true if a volume, which is published to `nodes`, passes the filter.
fn has(chosen: &Chosen<'_>, volume: &Volume, nodes: &Items<Text>) -> bool {
    is_id(chosen.id, volume.number)
        && is_wanted(chosen.name, &volume.name)
        && is_wanted(chosen.pool, &volume.pool)
        && is_at(chosen.node, nodes)
}

/// A visitor of the volumes in a listing, such as the writer of a row for each volume.
trait Visit {
    fn visit(&mut self, volume: &Volume, nodes: &Items<Text>) -> Result<(), Failure>;
}

fn visit_page<V: Visit>(
    page: &PageWithNodes,
    chosen: &Chosen<'_>,
    visitor: &mut V,
) -> Result<(), Failure> {
    for (volume, nodes) in page.volumes.as_slice().iter().zip(page.nodes.as_slice()) {
        if has(chosen, volume, nodes) {
            visitor.visit(volume, nodes)?;
        }
    }
    Ok(())
}

/// A copy of tables in memory, whose volumes are listed.
#[derive(Drop)]
struct TablesCopy<'a, S: Alter + Drop> {
    alloc: Global,
    path: &'a str,
    conn: IdleConnection<S>,
}

impl<S: Alter + Drop> TablesCopy<'_, S> {
    // Returns the failure for a page of volumes that cannot be read.
    fn page_failure(&self, after: u64, error: &TablesError) -> Failure {
        let alloc = self.alloc;
        if let TablesFault::NoMemory = error.fault {
            return Failure::NoMemory;
        }
        if after == 0 {
            return Failure::of_tables(alloc, self.path, &NONE_READ);
        }
        match format!(in alloc;
            "the tables cannot be read after volume {after}: --check-tables says why"
        ) {
            Ok(why) => Failure::of_tables(alloc, self.path, &why),
            Err(_) => Failure::NoMemory,
        }
    }

    // Reads up to 1,000 volumes, those with the lowest numbers above `after`, and the nodes of each.
    fn page(&mut self, after: u64) -> Result<PageWithNodes, Failure> {
        if after >= NUMBERS {
            return Ok(PageWithNodes {
                volumes: Items::new(self.alloc),
                nodes: Items::new(self.alloc),
            });
        }
        match page_with_nodes(self.alloc, &mut self.conn, after, PAGE) {
            Ok(page) => Ok(page),
            Err(error) => Err(self.page_failure(after, &error)),
        }
    }

    // Visits each volume that passes the filter, in rising order of the numbers.
    fn each<V: Visit>(&mut self, chosen: &Chosen<'_>, visitor: &mut V) -> Result<(), Failure> {
        let mut after = 0;
        for _ in 0..u32::MAX {
            let page = self.page(after)?;
            visit_page(&page, chosen, visitor)?;
            let Some(last) = page.volumes.as_slice().last() else {
                return Ok(());
            };
            after = last.number;
        }
        Ok(())
    }
}

/// Lists the volumes of the tables in the file at `path` that pass the filter `chosen`, as they were
/// committed at one moment. After the volumes come the sums of their sizes for each pool and each node.
/// Writes the list on standard output in columns, or in JSON with a line for each volume. The file is only
/// read.
///
/// # Errors
///
/// If the tables cannot be read, the list cannot be written, or memory is refused.
pub fn list_tables(
    console: &Console<'_>,
    path: &str,
    chosen: &Chosen<'_>,
    is_json: bool,
) -> Result<(), Failure> {
    over_tables_copy(console, path, CopyTask::List(chosen, is_json))?
}

// Lists the volumes of the tables on a connection that pass the filter, in JSON if `is_json` is true,
// otherwise in columns.
pub(crate) fn list_over<S: Alter + Drop>(
    console: &Console<'_>,
    path: &str,
    conn: Connection<S>,
    chosen: &Chosen<'_>,
    is_json: bool,
) -> Result<(), Failure>
    requires { conn.in_transaction ≡ false }
{
    let mut tables = TablesCopy {
        alloc: console.rt.alloc(),
        path,
        conn: IdleConnection::new(conn),
    };
    if is_json {
        json::write(console.rt, &mut tables, chosen)
    } else {
        text::write(console.rt, &mut tables, chosen)
    }
}

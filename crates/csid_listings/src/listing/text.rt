//! Writes a listing for people, in columns under headings.

use super::cells::{HEADINGS, row};
use super::output::Output;
use super::sums::{Counted, Sums};
use super::{TablesCopy, Visit};
use command_line::{Table, size_text, word};
use csi_keeper::Volume;
use csi_types::{Items, Text};
use csid_settings::{Chosen, Failure};
use sqlite::Alter;
use std::alloc::{AllocError, Global};

// The rows of the volumes, and their sums.
#[derive(Drop)]
struct Rows {
    alloc: Global,
    table: Table,
    counted: Counted,
}

impl Visit for Rows {
    fn visit(&mut self, volume: &Volume, nodes: &Items<Text>) -> Result<(), Failure> {
        self.counted.add(self.alloc, volume, nodes)?;
        let row = row(self.alloc, volume, nodes)?;
        Ok(self.table.add(row)?)
    }
}

// Returns an empty line and the table of the sums of pools or of nodes.
fn sums_text(alloc: Global, heading: &'static str, sums: &Sums) -> Result<String, AllocError> {
    let mut table = Table::with_headings(alloc, &[heading, "VOLUMES", "SIZE"])?;
    for (name, sum) in sums {
        let mut row = Vec::new(alloc);
        row.push(word(alloc, name.as_str())?)?;
        row.push(format!(in alloc; "{}", sum.volumes)?)?;
        row.push(size_text(alloc, sum.bytes)?)?;
        table.add(row)?;
    }
    let text = table.text(alloc)?;
    format!(in alloc; "\n{text}")
}

/// Writes a row for each volume that passes the filter on standard output, then a row for each pool and each
/// node that has such volumes. The first byte is written after all volumes were read.
///
/// # Errors
///
/// If the volumes cannot be read, standard output cannot be written, or memory is refused.
pub(crate) fn write<S: Alter + Drop>(
    rt: &HostRuntime,
    tables: &mut TablesCopy<'_, S>,
    chosen: &Chosen<'_>,
) -> Result<(), Failure> {
    let alloc = rt.alloc();
    let mut rows = Rows {
        alloc,
        table: Table::with_headings(alloc, &HEADINGS)?,
        counted: Counted::new(alloc),
    };
    tables.each(chosen, &mut rows)?;
    let Rows { table, counted, .. } = rows;
    let mut output = Output::new(rt);
    output.push(table.text(alloc)?.as_str())?;
    output.push(sums_text(alloc, "POOL", &counted.pools)?.as_str())?;
    output.push(sums_text(alloc, "NODE", &counted.nodes)?.as_str())?;
    output.flush()
}

//! Answers test rows that are requests to the volume machine over tables in memory.

mod calls;
mod words;

use crate::database::{refused, without_tables};
use calls::call;
use csi_config::Config;
use csi_keeper::Keeper;
use csi_sql::{IdleConnection, reads};
use csi_tables::Tables;
use csi_types::{Method, method_named};
use sqlite::{Alter, MemStore};
use std::alloc::Global;
use std::mem;
use test_kit::{AnswerRow, RowAnswer, RowFault, bytes_of, reply_to};
use words::numbers_in_words;

/// The state that is kept between test rows: the sample configuration, and the tables with the volumes of
/// earlier requests.
#[derive(Drop)]
pub(crate) struct Bench {
    config: Config,
    tables: Tables<MemStore>,
}

impl Bench {
    /// Makes the state with new tables, without volumes.
    pub(crate) fn new(alloc: Global) -> Result<Bench, RowFault> {
        Ok(Bench {
            config: Config::sample(alloc)?,
            tables: new_tables(alloc)?,
        })
    }

    fn answer(&mut self, alloc: Global, row: &str) -> Result<String, RowFault> {
        match row {
            "begin" => begin(alloc, &mut self.tables, new_tables(alloc)),
            "make" => remake(alloc, &mut self.tables, new_tables(alloc)),
            _ => reported(alloc, &self.config, &mut self.tables, row),
        }
    }
}

impl AnswerRow for Bench {
    fn answer_row(&mut self, rt: &HostRuntime, row: &str) -> Result<RowAnswer, RowFault> {
        Ok(RowAnswer::Text(self.answer(rt.alloc(), row)?))
    }
}

// Makes new tables in a new database in memory.
fn new_tables(alloc: Global) -> Result<Tables<MemStore>, RowFault> {
    match Tables::make(alloc, without_tables(alloc)?) {
        Ok(tables) => Ok(tables),
        Err(fault) => Err(refused(fault.error)),
    }
}

// Replaces the tables by new tables.
fn begin<T: Drop>(
    alloc: Global,
    tables: &mut T,
    new: Result<T, RowFault>,
) -> Result<String, RowFault> {
    *tables = new?;
    Ok(String::from_str(alloc, "begun")?)
}

// Makes the tables a second time over the same connection, which is refused. Returns the next number in the
// tables of the returned connection. Replaces the tables by new tables.
fn remake<S: Alter + Drop>(
    alloc: Global,
    tables: &mut Tables<S>,
    new: Result<Tables<S>, RowFault>,
) -> Result<String, RowFault> {
    let before = mem::replace(tables, new?);
    match Tables::make(alloc, before.into_connection()) {
        Ok(_) => Ok(String::from_str(alloc, "made")?),
        Err(fault) => next_in(alloc, &mut IdleConnection::new(fault.conn)),
    }
}

fn next_in<S: Alter>(alloc: Global, conn: &mut IdleConnection<S>) -> Result<String, RowFault> {
    let next = reads::next_number(conn).map_err(refused)?;
    numbers_in_words(alloc, &[next.get(0).map_err(refused)?])
}

// Answers a test row: a request, a page of a listing in words, or a direct call of the keeper.
fn reported<K: Keeper>(
    alloc: Global,
    config: &Config,
    keeper: &mut K,
    row: &str,
) -> Result<String, RowFault> {
    let (word, rest) = row.split_once(' ').unwrap_or((row, ""));
    if word == "list" {
        let message = bytes_of(alloc, rest)?;
        return reply_to(alloc, config, keeper, Method::ListVolumes, &message).page_text(alloc);
    }
    match method_named(alloc, word)? {
        Some(method) => {
            let message = bytes_of(alloc, rest)?;
            reply_to(alloc, config, keeper, method, &message).text(alloc)
        }
        None => call(alloc, keeper, row),
    }
}

//! Answers test rows. For each, adopts tables in memory, reads them, gives the connection back and adopts
//! them again.

ghost use Rattle.std.specs.Prelude.{◌≡◌, false};

mod configs;

use crate::database::{make, refused, run, without_tables};
use crate::state::state_text;
use configs::config_named;
use csi_adoption::{AdoptError, AdoptFault, adopt};
use csi_config::Config;
use sqlite::{Alter, Connection};
use std::alloc::Global;
use test_kit::RowFault;

/// Answers a test row: begins the database that the test row names, runs its statements, and adopts the
/// tables twice under its configuration.
///
/// # Errors
///
/// If the row has no such form, the database refuses a statement, or memory is refused. A fault of the
/// adoption is an answer.
pub(crate) fn answer(alloc: Global, row: &str) -> Result<String, RowFault> {
    let (how, statements) = row.split_once(" |").ok_or(RowFault::NotRow)?;
    let (start, config) = how.split_once(' ').ok_or(RowFault::NotRow)?;
    let config = config_named(alloc, config)?;
    adopt_twice(alloc, without_tables(alloc)?, &config, start, statements)
}

// Begins the database that `start` names, and runs the statements. After `limited`, each later statement may
// take one step only, until adopting the tables removes this limit.
fn begin<S: Alter>(conn: &mut Connection<S>, start: &str, statements: &str) -> Result<(), RowFault>
    requires { conn.old.in_transaction ≡ false }
{
    match start {
        "tables" | "limited" | "older" => make(conn)?,
        "empty" => {}
        _ => return Err(RowFault::NotRow),
    }
    if start == "older" {
        run(conn, "UPDATE meta SET format_no = 1")?;
    }
    run(conn, statements)?;
    if start == "limited" {
        conn.set_step_limit(Some(1));
    }
    Ok(())
}

// Adopts the tables, gives the connection back and adopts the tables again. Returns the answer of the first
// adoption, and also the answer of the second if it differs. If both are the same and the tables began with
// format 1, their format after the first adoption follows.
fn adopt_twice<S: Alter + Drop>(
    alloc: Global,
    mut conn: Connection<S>,
    config: &Config,
    start: &str,
    statements: &str,
) -> Result<String, RowFault>
    requires { conn.in_transaction ≡ false }
{
    begin(&mut conn, start, statements)?;
    let (first, mut conn) = reported(alloc, conn, config);
    let format = format_of(alloc, &mut conn, start);
    let (second, _) = reported(alloc, conn, config);
    both(alloc, first?, format?, second?)
}

fn both(alloc: Global, first: String, format: String, second: String) -> Result<String, RowFault> {
    if first == second {
        return Ok(format!(in alloc; "{first}{format}")?);
    }
    Ok(format!(in alloc; "{first}, and then {second}")?)
}

// Returns the format of the tables as a text, or an empty text if the tables did not begin with format 1.
fn format_of<S: Alter>(
    alloc: Global,
    conn: &mut Connection<S>,
    start: &str,
) -> Result<String, RowFault> {
    if start != "older" {
        return Ok(String::new(alloc));
    }
    let row = conn
        .query_row("SELECT format_no FROM meta", &[])
        .map_err(refused)?;
    let format: i64 = row.get(0).map_err(refused)?;
    Ok(format!(in alloc; ", in format {format}")?)
}

// Adopts the tables. Returns their State or the fault as a text, and the connection. If a transaction is open
// on the connection, the result is the fault `refused`.
fn reported<S: Alter>(
    alloc: Global,
    conn: Connection<S>,
    config: &Config,
) -> (Result<String, RowFault>, Connection<S>) {
    if !conn.is_autocommit() {
        return (Err(RowFault::Refused("refused")), conn);
    }
    match adopt(alloc, conn, config) {
        Ok(mut tables) => {
            let text = state_text(alloc, config, &mut tables);
            (text, tables.into_connection())
        }
        Err(AdoptError { fault, conn }) => (fault_text(alloc, &fault), conn),
    }
}

fn fault_text(alloc: Global, fault: &AdoptFault) -> Result<String, RowFault> {
    Ok(format!(in alloc; "{fault}")?)
}

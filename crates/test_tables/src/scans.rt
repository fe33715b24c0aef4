//! Answers test rows that make scans of tables in memory. A scan reads rows of the tables.

ghost use Rattle.std.specs.Prelude.{◌≡◌, false};

mod folds;
mod scan;

use crate::cells::or_none;
use crate::database::{idle, make, run, without_tables};
use csi_constraints::{FoldEach, Rising, TextSum, Weight};
use csi_sql::{IdleConnection, is_our_schema};
use folds::Showing;
pub(crate) use scan::Scan;
use sqlite::{Alter, Connection};
use std::alloc::Global;
use std::fmt::Write;
use test_kit::{RowFault, number_at, word_at, words_of};

/// Answers a test row: begins the database that the test row names, runs its statements, and makes its scan.
///
/// # Errors
///
/// If the row has no such form, the database refuses a statement or the scan, or memory is refused.
pub(crate) fn answer(alloc: Global, row: &str) -> Result<String, RowFault> {
    let (start, rest) = row.split_once(" | ").ok_or(RowFault::NotRow)?;
    let (question, statements) = rest.split_once(" | ").ok_or(RowFault::NotRow)?;
    let mut conn = without_tables(alloc)?;
    begin(&mut conn, start, statements)?;
    ask(alloc, &mut idle(conn)?, question)
}

// Begins a database that is empty or has the tables of volumes, and runs the statements. `-` means no
// statements.
fn begin<S: Alter>(conn: &mut Connection<S>, start: &str, statements: &str) -> Result<(), RowFault>
    requires { conn.old.in_transaction ≡ false }
{
    match start {
        "empty" => {}
        "tables" => make(conn)?,
        _ => return Err(RowFault::NotRow),
    }
    match statements {
        "-" => Ok(()),
        _ => run(conn, statements),
    }
}

// Returns `ours` if the database has the tables of volumes and no other tables, otherwise `other`.
fn is_ours<S: Alter>(alloc: Global, conn: &IdleConnection<S>) -> Result<String, RowFault> {
    let word = if is_our_schema(conn.schema()) {
        "ours"
    } else {
        "other"
    };
    Ok(String::from_str(alloc, word)?)
}

// Answers the question `ours`, about the tables of the database, or a question about the rows of a scan.
fn ask<S: Alter>(
    alloc: Global,
    conn: &mut IdleConnection<S>,
    question: &str,
) -> Result<String, RowFault> {
    if question == "ours" {
        return is_ours(alloc, conn);
    }
    let words = words_of(alloc, question)?;
    let scan = Scan::named(word_at(&words, 0)?)?;
    match word_at(&words, 1)? {
        "rows" => shown(alloc, conn, scan),
        "judged" => judged(alloc, conn, scan, number_at(&words, 2)?),
        _ => {
            let sums = sums_of(alloc, &words)?;
            summed(alloc, conn, scan, sums)
        }
    }
}

// Returns each row of a scan as a text.
fn shown<S: Alter>(
    alloc: Global,
    conn: &mut IdleConnection<S>,
    scan: Scan,
) -> Result<String, RowFault> {
    let mut fold = Showing {
        alloc,
        text: String::new(alloc),
    };
    scan.over(conn, &mut fold)?;
    Ok(or_none(fold.text)?)
}

// Makes a scan, and returns `rising` if each row has an integer in a column that is greater than the integer
// in the row before. Otherwise returns `not rising`.
fn judged<S: Alter>(
    alloc: Global,
    conn: &mut IdleConnection<S>,
    scan: Scan,
    column: usize,
) -> Result<String, RowFault> {
    let mut fold = Rising {
        column,
        last: None,
        good: true,
    };
    scan.over(conn, &mut fold)?;
    let word = if fold.good { "rising" } else { "not rising" };
    Ok(String::from_str(alloc, word)?)
}

// Makes a sum for each text in the last word. Commas separate the texts.
fn sums_of(alloc: Global, words: &[&str]) -> Result<Vec<TextSum>, RowFault> {
    let (weight, place) = match word_at(words, 1)? {
        "count" => (Weight::One, 2),
        "sum" => (Weight::Number(number_at(words, 2)?), 3),
        _ => return Err(RowFault::NotRow),
    };
    let column = number_at(words, place)?;
    let mut sums = Vec::new(alloc);
    for word in word_at(words, place + 1)?.split(',') {
        sums.push(TextSum {
            column,
            text: Vec::from_slice(alloc, word.as_bytes())?,
            weight,
            sum: 0,
        })?;
    }
    Ok(sums)
}

fn summed<S: Alter>(
    alloc: Global,
    conn: &mut IdleConnection<S>,
    scan: Scan,
    sums: Vec<TextSum>,
) -> Result<String, RowFault> {
    let mut fold = FoldEach { parts: sums };
    scan.over(conn, &mut fold)?;
    sums_text(alloc, &fold.parts)
}

fn sums_text(alloc: Global, sums: &[TextSum]) -> Result<String, RowFault> {
    let mut text = String::new(alloc);
    for part in sums {
        if !text.is_empty() {
            text.push(' ')?;
        }
        write!(text, "{}", part.sum)?;
    }
    Ok(text)
}

//! Answers test rows that are statements over tables in memory.

ghost use Rattle.std.specs.Prelude.{◌≡◌, false};

use crate::cells::{cell_text, or_none, put_row};
use crate::database::{refused, without_tables};
use crate::numbers::small_at;
use csi_sql::values::flag_at;
use csi_sql::{IdleConnection, changes, make_tables, reads};
use sqlite::{Alter, Connection, Error as SqlError, MemStore, Row};
use std::alloc::Global;
use test_kit::{AnswerRow, RowAnswer, RowFault, bytes_of, number_at, put_part, word_at, words_of};

/// The state that is kept between test rows: a database in any store. The proofs about the rows of its tables
/// do not look into the type of the store.
#[derive(Drop)]
pub(crate) struct Bench<S: Alter + Drop> {
    // The connection. It is `None` only while a test row is answered.
    conn: Option<IdleConnection<S>>,
}

/// Makes a database in memory, without tables.
pub(crate) fn in_memory(alloc: Global) -> Result<Bench<MemStore>, RowFault> {
    Ok(Bench {
        conn: Some(IdleConnection::new(without_tables(alloc)?)),
    })
}

impl<S: Alter + Drop> AnswerRow for Bench<S> {
    fn answer_row(&mut self, rt: &HostRuntime, row: &str) -> Result<RowAnswer, RowFault> {
        let words = words_of(rt.alloc(), row)?;
        let conn = self.conn.take().ok_or(RowFault::NotRow)?;
        let (answer, conn) = answer(rt.alloc(), conn, &words);
        self.conn = Some(conn);
        Ok(RowAnswer::Text(answer?))
    }
}

// Answers a test row, and returns the answer and the connection.
fn answer<S: Alter + Drop>(
    alloc: Global,
    mut conn: IdleConnection<S>,
    words: &[&str],
) -> (Result<String, RowFault>, IdleConnection<S>) {
    match word_at(words, 0) {
        Ok(word @ ("make" | "first" | "meta")) => {
            let mut conn = conn.into_connection();
            let answer = on_connection(alloc, &mut conn, word);
            (answer, IdleConnection::new(conn))
        }
        _ => {
            let answer = on_tables(alloc, &mut conn, words);
            (answer, conn)
        }
    }
}

// Answers the test rows `make`, `first` and `meta`, which are not changes or reads of `csi_sql`.
fn on_connection<S: Alter>(
    alloc: Global,
    conn: &mut Connection<S>,
    word: &str,
) -> Result<String, RowFault>
    requires { conn.old.in_transaction ≡ false }
    ensures { conn.new.in_transaction ≡ false }
{
    match word {
        "make" => done(alloc, make_tables(conn)),
        "first" => done(alloc, take_first_format(conn)),
        _ => all(alloc, meta(conn)),
    }
}

fn on_tables<S: Alter>(
    alloc: Global,
    conn: &mut IdleConnection<S>,
    words: &[&str],
) -> Result<String, RowFault> {
    match word_at(words, 0)? {
        "add" => add(alloc, conn, words),
        "remove" => {
            let number = small_at(words, 1)?;
            done(alloc, changes::remove_volume(conn, number))
        }
        "attach" => attach(alloc, conn, words),
        "detach" => detach(alloc, conn, words),
        "params" => params(alloc, conn, words),
        "format" => done(alloc, changes::set_format(conn)),
        "next" | "number" | "name" => find(alloc, conn, words),
        "attachments" | "at" | "sizes" => list(alloc, conn, words),
        "page" | "nodes" => page(alloc, conn, words),
        _ => Err(RowFault::NotRow),
    }
}

fn add<S: Alter>(
    alloc: Global,
    conn: &mut IdleConnection<S>,
    words: &[&str],
) -> Result<String, RowFault> {
    let number = small_at(words, 1)?;
    let name = word_at(words, 2)?;
    let bytes = small_at(words, 3)?;
    let pool = word_at(words, 4)?;
    let caps = bytes_of(alloc, word_at(words, 5)?)?;
    let params = bytes_of(alloc, word_at(words, 6)?)?;
    done(
        alloc,
        changes::add_volume(conn, number, name, bytes, pool, &caps, &params),
    )
}

fn params<S: Alter>(
    alloc: Global,
    conn: &mut IdleConnection<S>,
    words: &[&str],
) -> Result<String, RowFault> {
    let number = small_at(words, 1)?;
    let params = bytes_of(alloc, word_at(words, 2)?)?;
    done(alloc, changes::set_params(conn, number, &params))
}

fn attach<S: Alter>(
    alloc: Global,
    conn: &mut IdleConnection<S>,
    words: &[&str],
) -> Result<String, RowFault> {
    let number = small_at(words, 1)?;
    let node = word_at(words, 2)?;
    let cap = bytes_of(alloc, word_at(words, 3)?)?;
    let readonly = word_at(words, 4)? == "readonly";
    done(alloc, changes::attach(conn, number, node, &cap, readonly))
}

fn detach<S: Alter>(
    alloc: Global,
    conn: &mut IdleConnection<S>,
    words: &[&str],
) -> Result<String, RowFault> {
    let number = small_at(words, 1)?;
    match word_at(words, 2)? {
        "*" => done(alloc, changes::detach_all(conn, number)),
        node => done(alloc, changes::detach(conn, number, node)),
    }
}

// Reads at most one row of the tables: a volume, or the next number.
fn find<S: Alter>(
    alloc: Global,
    conn: &mut IdleConnection<S>,
    words: &[&str],
) -> Result<String, RowFault> {
    match word_at(words, 0)? {
        "number" => found(alloc, reads::by_number(conn, small_at(words, 1)?)),
        "name" => found(alloc, reads::by_name(conn, word_at(words, 1)?)),
        _ => found(alloc, reads::next_number(conn).map(Some)),
    }
}

fn list<S: Alter>(
    alloc: Global,
    conn: &mut IdleConnection<S>,
    words: &[&str],
) -> Result<String, RowFault> {
    match word_at(words, 0)? {
        "attachments" => attachments(alloc, reads::attachments(conn, small_at(words, 1)?)),
        "at" => all(alloc, reads::attached_at(conn, word_at(words, 1)?)),
        _ => all(alloc, reads::sizes_in(conn, word_at(words, 1)?)),
    }
}

fn page<S: Alter>(
    alloc: Global,
    conn: &mut IdleConnection<S>,
    words: &[&str],
) -> Result<String, RowFault> {
    let after = small_at(words, 1)?;
    let count = number_at(words, 2)?;
    if word_at(words, 0)? == "page" {
        return all(alloc, reads::page(conn, after, count));
    }
    let page = reads::page_with_nodes(conn, after, count).map_err(refused)?;
    both(alloc, &page.volumes, &page.places)
}

// Sets the format of the tables to 1, which no statement of `csi_sql` does.
fn take_first_format<S: Alter>(conn: &mut Connection<S>) -> Result<(), SqlError>
    requires { conn.old.in_transaction ≡ false }
    ensures { conn.new.in_transaction ≡ false }
{
    let mut tx = conn.transaction();
    tx.execute("UPDATE meta SET format_no = 1", &[])?;
    tx.commit()
}

// Reads the rows of the table `meta`: the key, the format and the next number of each row.
fn meta<S: Alter>(conn: &mut Connection<S>) -> Result<Vec<Row>, SqlError>
    requires { conn.old.in_transaction ≡ false }
    ensures { conn.new.in_transaction ≡ false }
{
    let mut tx = conn.transaction();
    let rows = tx.query_all("SELECT k, format_no, next_number FROM meta", &[])?;
    tx.rollback();
    Ok(rows)
}

fn done(alloc: Global, change: Result<(), SqlError>) -> Result<String, RowFault> {
    change.map_err(refused)?;
    Ok(String::from_str(alloc, "done")?)
}

fn found(alloc: Global, found: Result<Option<Row>, SqlError>) -> Result<String, RowFault> {
    let mut text = String::new(alloc);
    if let Some(row) = found.map_err(refused)? {
        put_row(&mut text, alloc, &row)?;
    }
    Ok(or_none(text)?)
}

fn all(alloc: Global, rows: Result<Vec<Row>, SqlError>) -> Result<String, RowFault> {
    rows_text(alloc, &rows.map_err(refused)?)
}

fn rows_text(alloc: Global, rows: &[Row]) -> Result<String, RowFault> {
    let mut text = String::new(alloc);
    for row in rows {
        put_row(&mut text, alloc, row)?;
    }
    Ok(or_none(text)?)
}

// Returns the numbers of the volumes as a text.
fn numbers_text(alloc: Global, volumes: &[Row]) -> Result<String, RowFault> {
    let mut text = String::new(alloc);
    for row in volumes {
        put_part(&mut text, &cell_text(alloc, row, 0)?)?;
    }
    Ok(or_none(text)?)
}

fn both(alloc: Global, volumes: &[Row], places: &[Row]) -> Result<String, RowFault> {
    let numbers = numbers_text(alloc, volumes)?;
    let places = rows_text(alloc, places)?;
    Ok(format!(in alloc; "{numbers}; {places}")?)
}

// Returns the attachments as a text: the node, the capability, and `true` if the attachment is read-only,
// otherwise `false`.
fn attachments(alloc: Global, rows: Result<Vec<Row>, SqlError>) -> Result<String, RowFault> {
    let mut text = String::new(alloc);
    for row in &rows.map_err(refused)? {
        put_part(&mut text, &attachment_text(alloc, row)?)?;
    }
    Ok(or_none(text)?)
}

fn attachment_text(alloc: Global, row: &Row) -> Result<String, RowFault> {
    let readonly = flag_at(row, 2).ok_or(RowFault::Refused("no flag"))?;
    let node = cell_text(alloc, row, 0)?;
    let cap = cell_text(alloc, row, 1)?;
    Ok(format!(in alloc; "{node} {cap} {readonly}")?)
}

//! Counts the rows of tables, and reports the counts.

ghost use Rattle.std.specs.Prelude.{◌≡◌, false};

use crate::tables::database_failure;
use csi_adoption::Content as AdoptedContent;
use csi_sql::LATEST_FORMAT;
use csid_console::Console;
use sqlite::{Alter, Connection, Error};
use std::fmt;

/// The counts of tables: volumes, attachments, the next number and the format. Its `Display` is one line.
#[derive(Clone, Copy)]
pub struct Content {
    volumes: i64,
    attachments: i64,
    next_number: i64,
    format: i64,
}

// Returns a count as an `i64`, which is the type of SQLite's integers. A count above the greatest `i64`
// becomes the greatest `i64`.
fn shown(count: u64) -> i64 {
    i64::try_from(count).unwrap_or(i64::MAX)
}

impl Content {
    /// Returns the counts of adopted tables, which have the latest format.
    pub fn of_adopted(content: &AdoptedContent) -> Content {
        Content {
            volumes: shown(content.volumes),
            attachments: shown(content.attachments),
            next_number: shown(content.next_number),
            format: i64::from(LATEST_FORMAT),
        }
    }
}

impl fmt::Display for Content {
    fn fmt<W: fmt::Write>(&self, f: &mut fmt::Formatter<W>) -> fmt::Result {
        let Content {
            volumes,
            attachments,
            next_number,
            format,
        } = *self;
        write!(
            f,
            "volumes {volumes}, attachments {attachments}, next number {next_number}, format {format}"
        )
    }
}

// Returns the number that a query returns in its only row.
fn number<S: Alter>(conn: &mut Connection<S>, sql: &str) -> Result<i64, Error>
    requires { conn.old.in_transaction ≡ false }
    ensures { conn.new.in_transaction ≡ false }
{
    conn.query_row(sql, &[])?.get(0)
}

/// Reads the counts of the tables on a connection. Changes nothing.
///
/// # Errors
///
/// If there are no such tables, the database fails, or memory is refused.
pub fn read_content<S: Alter>(conn: &mut Connection<S>) -> Result<Content, Error>
    requires { conn.old.in_transaction ≡ false }
    ensures { conn.new.in_transaction ≡ false }
{
    Ok(Content {
        volumes: number(conn, "SELECT count(*) FROM volumes")?,
        attachments: number(conn, "SELECT count(*) FROM attachments")?,
        next_number: number(conn, "SELECT next_number FROM meta")?,
        format: number(conn, "SELECT format_no FROM meta")?,
    })
}

/// Reports the counts of tables, or why they could not be read. The line has `path` as the name of the
/// tables.
pub fn report_content(console: &Console<'_>, path: &str, content: Result<Content, Error>) {
    match content {
        Ok(content) => console.say_of(path, &content),
        Err(error) => console.say(&database_failure(console.rt.alloc(), path, &error)),
    }
}

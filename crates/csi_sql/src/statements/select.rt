//! The SELECTs of rows of volumes and of attachments.
//!
//! The seven SELECTs are arms of one function. One clause of this function's contract says which rows each
//! SELECT shows. So the text of each query is compared with its meaning in one place.

ghost use Rattle.std.specs.Prelude.{◌≡◌};
ghost use Rattle.csi_sql.specs.Refusing.{NothingRefuses};
ghost use Rattle.csi_sql.specs.Effects.{Selects};
ghost use Rattle.csi_sql.specs.Selecting.{IsAsked, Reports, asked};

use crate::values::integer;
use sqlite::types::ValueRef;
use sqlite::{Alter, Error, Row, Transaction};

/// A SELECT of rows of one table.
#[derive(Clone, Copy)]
pub(crate) enum Select<'a> {
    /// The row of the volume with this number.
    Numbered(u64),
    /// The attachments of the volume with this number, in byte order of the nodes.
    Nodes(u64),
    /// The rows of the volumes with this name.
    Named(&'a str),
    /// The size in bytes of each volume of this pool, in rising order of the volumes' numbers.
    Sizes(&'a str),
    /// The numbers of the volumes that are attached at this node, in rising order.
    Attached(&'a str),
    /// The first volumes with a number greater than the first argument, in rising order of their numbers. The
    /// second argument is the greatest number of volumes.
    Page(u64, u32),
    /// The number and the node of each attachment whose number is greater than the first argument and not
    /// greater than the second, in rising order of the numbers. Attachments with the same number are in byte
    /// order of the nodes.
    Places(u64, u64),
}

fn text_of(read: &Select<'_>) -> &'static str
    ensures { result.now ≡ asked read.now }
{
    match read {
        Select::Numbered(_) =>
            "SELECT number, name, bytes, pool, caps, params FROM volumes WHERE number = ?1",
        Select::Nodes(_) =>
            "SELECT node, cap, readonly FROM attachments WHERE number = ?1 ORDER BY node",
        Select::Named(_) =>
            "SELECT number, name, bytes, pool, caps, params FROM volumes WHERE name = ?1 ORDER BY number",
        Select::Sizes(_) => "SELECT bytes FROM volumes WHERE pool = ?1 ORDER BY number",
        Select::Attached(_) => "SELECT number FROM attachments WHERE node = ?1 ORDER BY number",
        Select::Page(_, _) =>
            "SELECT number, name, bytes, pool, caps, params FROM volumes WHERE number > ?1 ORDER BY number LIMIT ?2",
        Select::Places(_, _) =>
            "SELECT number, node FROM attachments WHERE number > ?1 AND number <= ?2 ORDER BY number, node",
    }
}

/// Runs a SELECT and returns its rows, in the order of the query.
pub(crate) fn select_rows<S: Alter>(
    tx: &mut Transaction<'_, S>,
    read: &Select<'_>,
) -> Result<Vec<Row>, Error>
    requires { IsAsked read.now }
    ensures same_reference { tx.new.conn.ghost_name ≡ tx.old.conn.ghost_name }
    ensures selects { Selects S.Store tx.old.conn.now tx.new.conn.now
        (λ db rows. Reports read.now db rows.items) NothingRefuses result }
{
    let text = text_of(read);
    match *read {
        Select::Numbered(number) | Select::Nodes(number) => {
            tx.query_all(text, &[integer(number)])
        }
        Select::Named(words) | Select::Sizes(words) | Select::Attached(words) => {
            tx.query_all(text, &[ValueRef::Text(words.as_bytes())])
        }
        Select::Page(after, count) => {
            tx.query_all(text, &[integer(after), integer(u64::from(count))])
        }
        Select::Places(after, last) => tx.query_all(text, &[integer(after), integer(last)]),
    }
}

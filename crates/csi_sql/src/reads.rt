//! Makes each read in a transaction that is rolled back.
//!
//! A number in a query must be below 2^63. A row of a volume has the columns number, name, bytes, pool, caps
//! and params. If a read fails, the error is the error of the statement.

ghost use Rattle.std.specs.Prelude.{◌≡◌, ◌<◌, ◌^◌, [], ◌∷◌};
ghost use Rattle.sqlite.specs.declared.types.Value.TheVariants.{Text};
ghost use Rattle.csi_sql.specs.Refusing.{HasNoNext, NothingRefuses};
ghost use Rattle.csi_sql.specs.Effects.{ReadsOnly};
ghost use Rattle.csi_sql.specs.Rows.{number_value};
ghost use Rattle.csi_sql.specs.Selecting.{IsAsked, Reports};
ghost use Rattle.csi_sql.specs.Shown.{IsFoundBy, IsNext, IsPage, IsPageWithNodes, IsShownOf, last_number};
ghost use Rattle.csi_sql.specs.Statements.{attached_query, named_query, nodes_query, sizes_query, volume_query};

use crate::idle_connection::IdleConnection;
use crate::statements::meta::select_next;
use crate::statements::select::{Select, select_rows};
use crate::values::{first, number_at};
use sqlite::{Alter, Error, Row};

/// Reads the number that the next volume gets, as a row with one column. Fails if `meta` has no row.
pub fn next_number<S: Alter>(conn: &mut IdleConnection<S>) -> Result<Row, Error>
    ensures { ReadsOnly S.Store conn.old conn.new IsNext HasNoNext result }
{
    let mut tx = conn.0.transaction();
    let row = select_next(&mut tx)?;
    tx.rollback();
    Ok(row)
}

fn rows_of<S: Alter>(conn: &mut IdleConnection<S>, read: &Select<'_>) -> Result<Vec<Row>, Error>
    requires asked { IsAsked read.now }
    ensures { ReadsOnly S.Store conn.old conn.new
        (λ db rows. Reports read.now db rows.items) NothingRefuses result }
{
    let mut tx = conn.0.transaction();
    let rows = select_rows(&mut tx, read)?;
    tx.rollback();
    Ok(rows)
}

/// Reads the row of the volume with this number. Returns `None` if there is no such volume.
pub fn by_number<S: Alter>(conn: &mut IdleConnection<S>, volume: u64) -> Result<Option<Row>, Error>
    requires volume { volume < 2 ^ 63 }
    ensures { ReadsOnly S.Store conn.old conn.new
        (λ db found. IsFoundBy volume_query (db.trees 1)
        (number_value volume ∷ []) found) NothingRefuses result }
{
    let rows = rows_of(conn, &Select::Numbered(volume))?;
    Ok(first(rows))
}

/// Reads the row of the volume with this name, compared byte for byte. Returns `None` if there is no such
/// volume.
pub fn by_name<S: Alter>(conn: &mut IdleConnection<S>, name: &str) -> Result<Option<Row>, Error>
    ensures { ReadsOnly S.Store conn.old conn.new
        (λ db found. IsFoundBy named_query (db.trees 1) (Text name.now ∷ []) found) NothingRefuses result }
{
    let rows = rows_of(conn, &Select::Named(name))?;
    Ok(first(rows))
}

/// Reads the node, the capability and the read-only flag of each attachment of a volume, in byte order of the
/// nodes.
pub fn attachments<S: Alter>(conn: &mut IdleConnection<S>, volume: u64) -> Result<Vec<Row>, Error>
    requires volume { volume < 2 ^ 63 }
    ensures { ReadsOnly S.Store conn.old conn.new
        (λ db rows. IsShownOf nodes_query (db.trees 3)
        (number_value volume ∷ []) rows.items) NothingRefuses result }
{
    rows_of(conn, &Select::Nodes(volume))
}

/// Reads the numbers of the volumes that are attached to a node, in rising order.
pub fn attached_at<S: Alter>(conn: &mut IdleConnection<S>, node: &str) -> Result<Vec<Row>, Error>
    ensures { ReadsOnly S.Store conn.old conn.new
        (λ db rows. IsShownOf attached_query (db.trees 3)
        (Text node.now ∷ []) rows.items) NothingRefuses result }
{
    rows_of(conn, &Select::Attached(node))
}

/// Reads the size in bytes of each volume of a pool, in rising order of the volumes' numbers.
pub fn sizes_in<S: Alter>(conn: &mut IdleConnection<S>, pool: &str) -> Result<Vec<Row>, Error>
    ensures { ReadsOnly S.Store conn.old conn.new
        (λ db rows. IsShownOf sizes_query (db.trees 1)
        (Text pool.now ∷ []) rows.items) NothingRefuses result }
{
    rows_of(conn, &Select::Sizes(pool))
}

/// Reads the rows of the first `count` volumes with a number greater than `after`, in rising order of their
/// numbers.
pub fn page<S: Alter>(
    conn: &mut IdleConnection<S>,
    after: u64,
    count: u32,
) -> Result<Vec<Row>, Error>
    requires after { after < 2 ^ 63 }
    ensures { ReadsOnly S.Store conn.old conn.new
        (λ db rows. IsPage after count db rows.items) NothingRefuses result }
{
    rows_of(conn, &Select::Page(after, count))
}

/// A page of volumes, and the nodes that they are attached to.
#[derive(Drop)]
pub struct PageRows {
    /// The volumes of the page, in rising order of their numbers.
    pub volumes: Vec<Row>,
    /// The number and the node of each attachment of these volumes. The attachments are in rising order of
    /// the numbers, and the attachments of one volume are in byte order of the nodes.
    pub places: Vec<Row>,
}

/// Returns the number in the last row. Returns `after` if there is no row, or if this number is negative or
/// not an integer.
fn last_of(volumes: &[Row], after: u64) -> u64
    requires { after < 2 ^ 63 }
    ensures value { result ≡ last_number after volumes.now }
    ensures range { result < 2 ^ 63 }
{
    match volumes.last() {
        Some(row) => number_at(row, 0).unwrap_or(after),
        None => after,
    }
}

/// Reads the rows of the first `count` volumes with a number greater than `after`, and the nodes that each of
/// these volumes is attached to. Both reads are in one transaction.
pub fn page_with_nodes<S: Alter>(
    conn: &mut IdleConnection<S>,
    after: u64,
    count: u32,
) -> Result<PageRows, Error>
    requires after { after < 2 ^ 63 }
    ensures { ReadsOnly S.Store conn.old conn.new
        (λ db page. IsPageWithNodes after count db page.volumes.items page.places.items)
        NothingRefuses result }
{
    let mut tx = conn.0.transaction();
    let volumes = select_rows(&mut tx, &Select::Page(after, count))?;
    let places = select_rows(&mut tx, &Select::Places(after, last_of(&volumes, after)))?;
    tx.rollback();
    Ok(PageRows { volumes, places })
}

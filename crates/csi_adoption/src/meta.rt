//! Scans the table `meta`, and checks its row.

ghost use Rattle.std.specs.Prelude.{◌≡◌, refl, IsPermutation, map};
ghost use Rattle.sqlite.specs.Held.{state};
ghost use Rattle.sqlite.specs.State.{HasCleanDisk};
ghost use Rattle.csi_sql.specs.Rows.{seen_meta};
ghost use Rattle.csi_sql.specs.Tables.{schema as our_schema};
ghost use Rattle.csi_adoption.specs.Failing.{ScanFails};
ghost use Rattle.csi_adoption.specs.Judging.{integers_judged, meta_judged, valid_format, valid_next, with_row, with_rows};
ghost use Rattle.csi_adoption.specs.Scanning.{Scans, SeenBy};
ghost use Rattle.csi_adoption.specs.declared.meta.MetaRows.TheVariants as meta;

use crate::fault::{AdoptFault, Foreign};
use csi_constraints::{integer_at, scan_meta};
use csi_sql::{FIRST_FORMAT, Fold, IdleConnection, LATEST_FORMAT};
use csi_types::MAX_NUMBER;
use sqlite::{Alter, Error, Row};

/// The format and the next number in the row of `meta`, after their check.
#[derive(Clone, Copy)]
pub(crate) struct Meta {
    /// The number of the tables' format: [`FIRST_FORMAT`] or [`LATEST_FORMAT`].
    pub(crate) format: u32,
    /// The next number, or 0 if the number in the row is not between 1 and 2^62.
    pub(crate) next: u64,
}

/// The integers in a row of `meta`. A field is `None` if its value is not an integer.
#[derive(Clone, Copy)]
pub(crate) struct MetaRow {
    pub(crate) key: Option<i64>,
    pub(crate) format: Option<i64>,
    pub(crate) next: Option<i64>,
}

/// The result of a scan over the table `meta`, which should have exactly one row.
#[derive(Clone, Copy)]
pub(crate) enum MetaRows {
    None,
    One(MetaRow),
    Many,
}

fn with_row(rows: MetaRows, row: &Row) -> MetaRows
    ensures { result ≡ with_row rows row.now }
{
    match rows {
        MetaRows::None => MetaRows::One(MetaRow {
            key: integer_at(row, 0),
            format: integer_at(row, 1),
            next: integer_at(row, 2),
        }),
        MetaRows::One(_) | MetaRows::Many => MetaRows::Many,
    }
}

#[derive(Drop)]
struct MetaFold {
    rows: MetaRows,
}

impl Fold for MetaFold {
    ghost folds = { λ first rows now. now.rows ≡ with_rows first.rows rows };

    ghost starts = { λ first. refl };

    #[tactic(auto, using(crate::proofs::ScanLemmas::one_more))]
    fn add_row(&mut self, row: &Row) -> Result<(), Error> {
        self.rows = with_row(self.rows, row);
        Ok(())
    }
}

// Returns the next number if it is between 1 and 2^62. Otherwise returns 0, so that the number of each volume
// breaks its constraint.
fn valid_next(next: i64) -> u64
    ensures { result ≡ valid_next next }
{
    match u64::try_from(next) {
        Ok(next) if next <= MAX_NUMBER => next,
        _ => 0,
    }
}

// Returns the first format if it has this number, otherwise the latest format.
fn valid_format(format: i64) -> u32
    ensures { result ≡ valid_format format }
{
    if format == FIRST_FORMAT as i64 {
        FIRST_FORMAT
    } else {
        LATEST_FORMAT
    }
}

fn judge_integers(key: i64, format: i64, next: i64) -> Result<Meta, AdoptFault>
    ensures { result ≡ integers_judged key format next }
{
    if key != 1 || format < FIRST_FORMAT as i64 {
        return Err(AdoptFault::Foreign(Foreign::Meta));
    }
    if format > LATEST_FORMAT as i64 {
        return Err(AdoptFault::Newer { format });
    }
    Ok(Meta {
        format: valid_format(format),
        next: valid_next(next),
    })
}

/// Returns the format and the next number if `meta` has exactly one row of integers, its key is 1 and its
/// format is known. Otherwise returns the fault.
pub(crate) fn judge_meta(rows: MetaRows) -> Result<Meta, AdoptFault>
    ensures { result ≡ meta_judged rows }
{
    match rows {
        MetaRows::One(
            MetaRow {
                key: Some(key),
                format: Some(format),
                next: Some(next),
            },
        ) => judge_integers(key, format, next),
        _ => Err(AdoptFault::Foreign(Foreign::Meta)),
    }
}

/// Scans the table `meta`. Returns its only row, or the fact that it has no row or several rows. Fails if the
/// database or memory fails.
pub(crate) fn see_meta<S: Alter>(conn: &mut IdleConnection<S>) -> Result<MetaRows, Error>
    requires has_schema { HasCleanDisk (state S.Store conn.old) → conn.old.schema ≡ our_schema }
    ensures scans { Scans S.Store conn.old conn.new result }
    ensures failed { ScanFails S.Store conn.old conn.new result }
    ensures seen { SeenBy S.Store conn.old conn.new result
        (λ db rows. IsPermutation (map seen_meta (db 0)) rows)
        (λ rows seen. seen ≡ with_rows meta.None rows) }
{
    let mut fold = MetaFold {
        rows: MetaRows::None,
    };
    scan_meta(conn, &mut fold)?;
    Ok(fold.rows)
}

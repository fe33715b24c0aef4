//! The statements that read and change the row of `meta`.

ghost use Rattle.std.specs.Prelude.{◌≡◌, ◌<◌, ◌^◌};
ghost use Rattle.csi_sql.specs.Transactions.{RunsOver};
ghost use Rattle.csi_sql.specs.Refusing.{HasNoNext, RefusesFormat, RefusesNext};
ghost use Rattle.csi_sql.specs.Effects.{Selects, SetsFormat, SetsNext};
ghost use Rattle.csi_sql.specs.Shown.{IsNext};
ghost use Rattle.csi_sql.specs.Tables.{schema};

use crate::statements::Changed;
use crate::values::integer;
use sqlite::{Alter, Error, Row, Transaction};

/// Sets the next number, which must be below 2^63. The format is unchanged.
pub fn set_next<S: Alter>(tx: &mut Transaction<'_, S>, next: u64) -> Changed
    requires { next < 2 ^ 63 }
    ensures same_reference { tx.new.conn.ghost_name ≡ tx.old.conn.ghost_name }
    ensures runs { RunsOver S.Store tx.old.conn.now tx.new.conn.now schema (SetsNext next)
        (RefusesNext next) result }
{
    tx.execute("UPDATE meta SET next_number = ?1", &[integer(next)])
        .and(Ok(()))
}

/// Sets the format to [`LATEST_FORMAT`](crate::LATEST_FORMAT). The next number is unchanged.
pub fn update_format<S: Alter>(tx: &mut Transaction<'_, S>) -> Changed
    ensures same_reference { tx.new.conn.ghost_name ≡ tx.old.conn.ghost_name }
    ensures runs { RunsOver S.Store tx.old.conn.now tx.new.conn.now schema SetsFormat RefusesFormat result }
{
    // The text has no parameter, since a parameter would need a proof of the numbers that it can have.
    tx.execute("UPDATE meta SET format_no = 2", &[]).and(Ok(()))
}

/// Reads the number that the next volume gets, as a row with one column. Fails if `meta` has no row.
pub(crate) fn select_next<S: Alter>(tx: &mut Transaction<'_, S>) -> Result<Row, Error>
    ensures same_reference { tx.new.conn.ghost_name ≡ tx.old.conn.ghost_name }
    ensures selects { Selects S.Store tx.old.conn.now tx.new.conn.now IsNext HasNoNext result }
{
    tx.query_row("SELECT next_number FROM meta", &[])
}

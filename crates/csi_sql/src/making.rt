//! Makes the tables of a new store.

ghost use Rattle.std.specs.Prelude.{◌≡◌, [], false};
ghost use Rattle.csi_sql.specs.Failing.{SqlRefuses};
ghost use Rattle.csi_sql.specs.Making.{MakesTables, RefusesTables, StepMakes, schema_before, step_text};
ghost use Rattle.csi_sql.specs.Tables.{no_schema};
ghost use Rattle.csi_sql.specs.Transactions.{CommitsOver, RunsOver};

use sqlite::{Alter, Connection, Error, Transaction};

// The statements that make the tables, in the order in which they run.
#[derive(Clone, Copy)]
enum TableStatement {
    Meta,
    Volumes,
    Attachments,
    // Adds the row of `meta`: the latest format, 2, and 1 as the number of the first volume.
    First,
}

fn text_of(step: TableStatement) -> &'static str
    ensures { result.now ≡ step_text step }
{
    match step {
        TableStatement::Meta => {
            "CREATE TABLE meta (k INTEGER PRIMARY KEY CHECK (k = 1), format_no INTEGER NOT NULL, next_number INTEGER NOT NULL)"
        }
        TableStatement::Volumes => {
            "CREATE TABLE volumes (number INTEGER PRIMARY KEY, name TEXT NOT NULL UNIQUE, bytes INTEGER NOT NULL, pool TEXT NOT NULL, caps BLOB NOT NULL, params BLOB NOT NULL)"
        }
        TableStatement::Attachments => {
            "CREATE TABLE attachments (number INTEGER NOT NULL, node TEXT NOT NULL, cap BLOB NOT NULL, readonly INTEGER NOT NULL, PRIMARY KEY (number, node))"
        }
        TableStatement::First => "INSERT INTO meta (k, format_no, next_number) VALUES (1, 2, 1)",
    }
}

fn make<S: Alter>(tx: &mut Transaction<'_, S>, step: TableStatement) -> Result<usize, Error>
    ensures same_reference { tx.new.conn.ghost_name ≡ tx.old.conn.ghost_name }
    ensures runs { RunsOver S.Store tx.old.conn.now tx.new.conn.now (schema_before step) (StepMakes step)
        (SqlRefuses (step_text step) []) result }
{
    tx.execute(text_of(step), &[])
}

fn create_tables<S: Alter>(tx: &mut Transaction<'_, S>) -> Result<(), Error>
    ensures same_reference { tx.new.conn.ghost_name ≡ tx.old.conn.ghost_name }
    ensures runs { RunsOver S.Store tx.old.conn.now tx.new.conn.now no_schema
        MakesTables RefusesTables result }
{
    make(tx, TableStatement::Meta)?;
    make(tx, TableStatement::Volumes)?;
    make(tx, TableStatement::Attachments)?;
    make(tx, TableStatement::First)?;
    Ok(())
}

/// Makes the three tables and the row of `meta`, in one transaction.
///
/// If the store had no table, `Ok` means that the three tables are made and committed. There is no volume and
/// no attachment, the format is the latest format, and the next number is 1. After an error the store is
/// unchanged. A stop leaves a store that it could also have left before the call, or the new tables.
pub fn make_tables<S: Alter>(conn: &mut Connection<S>) -> Result<(), Error>
    requires { conn.old.in_transaction ≡ false }
    ensures idle { conn.new.in_transaction ≡ false }
    ensures makes { CommitsOver S.Store conn.old conn.new no_schema MakesTables RefusesTables result }
{
    let mut tx = conn.transaction();
    create_tables(&mut tx)?;
    tx.commit()
}

//! Makes a keeper over the tables on a connection, and converts errors of tables to the program's failures.

ghost use Rattle.std.specs.Prelude.{◌≡◌, false, IfErr, IfOk};
ghost use Rattle.csi_adoption.specs.Adopting.{IsAdopted};
ghost use Rattle.csid_settings.specs.Statuses.{IsOrNoMemory};

use csi_adoption::{AdoptError, AdoptFault, adopt};
use csi_config::Config;
use csi_keeper::StoreFault;
use csi_tables::Tables;
use csid_settings::Failure;
use sqlite::{Alter, Connection, Error, ErrorCode};
use std::alloc::Global;

/// Returns the failure for a file at `path` that cannot be opened, read or closed. It is
/// [`Failure::NoMemory`] if memory was refused.
pub fn database_failure(alloc: Global, path: &str, error: &Error) -> Failure
    ensures { IsOrNoMemory 4 result }
{
    match error {
        Error::SqliteFailure(ErrorCode::OutOfMemory) => Failure::NoMemory,
        _ => Failure::of_tables(alloc, path, error),
    }
}

/// Returns the failure for tables in the file at `path` that were not adopted. It is [`Failure::NoMemory`] if
/// memory was refused.
pub fn adoption_failure(alloc: Global, path: &str, fault: &AdoptFault) -> Failure
    ensures { IsOrNoMemory 4 result }
{
    match fault {
        AdoptFault::NoMemory => Failure::NoMemory,
        _ => Failure::of_tables(alloc, path, fault),
    }
}

/// Returns the failure if the volumes of the tables at `path` could not be read into memory. It is
/// [`Failure::NoMemory`] if memory was refused.
pub fn store_failure(alloc: Global, path: &str, fault: StoreFault) -> Failure
    ensures { IsOrNoMemory 4 result }
{
    match fault {
        StoreFault::NoMemory => Failure::NoMemory,
        _ => Failure::of_tables(alloc, path, &"the database refused a read"),
    }
}

/// Makes a keeper over the tables on a connection. If there are no tables, makes new tables. Tables of an
/// older format are upgraded. The line about a failure has `path` as the name of the database.
///
/// # Errors
///
/// If the tables are refused, the database fails, or memory is refused.
pub fn keeper_over<S: Alter + Drop>(
    rt: &HostRuntime,
    path: &str,
    conn: Connection<S>,
    config: &Config,
) -> Result<Tables<S>, Failure>
    requires { conn.in_transaction ≡ false }
    ensures adopted { IfOk result (λ tables. IsAdopted S.Store config.now conn tables) }
    ensures failure { IfErr result (λ failure. IsOrNoMemory 4 failure) }
{
    match adopt(rt.alloc(), conn, config) {
        Ok(tables) => Ok(tables),
        Err(AdoptError { fault, .. }) => Err(adoption_failure(rt.alloc(), path, &fault)),
    }
}

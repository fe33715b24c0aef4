//! Reports more about the row for which `csid` refused tables. For the row of a volume or of an attachment,
//! reports the volume. For a pool or a node that is too full, reports what its volumes use and what it can
//! have.

use command_line::size_text;
use csi_adoption::AdoptFault;
use csi_config::Config;
use csi_constraints::BrokenConstraint;
use csi_rules::ID_PREFIX;
use csid_console::Console;
use sqlite::types::ValueRef;
use sqlite::{Alter, Connection, Error, ErrorCode};
use std::alloc::{AllocError, Global};

// The reason why no details are reported.
enum Silence {
    // The fault has no details, or they cannot be read from the tables.
    Unread,
    NoMemory,
}

impl From<AllocError> for Silence {
    ghost use Rattle.std.specs.Prelude.{◌≡◌};
    ghost use Rattle.csid_listings.specs.declared.explain.Silence.TheVariants.{NoMemory};

    ghost from_gives = { λ _ e. e ≡ NoMemory };

    fn from(_: AllocError) -> Silence {
        Silence::NoMemory
    }
}

impl From<Error> for Silence {
    ghost use Rattle.std.specs.Prelude.{⊤};

    ghost from_gives = { λ _ _. ⊤ };

    fn from(error: Error) -> Silence {
        match error {
            Error::SqliteFailure(ErrorCode::OutOfMemory) => Silence::NoMemory,
            _ => Silence::Unread,
        }
    }
}

// Returns the line about a volume: its name, its size and its pool.
fn volume_line<S: Alter>(
    alloc: Global,
    conn: &mut Connection<S>,
    number: i64,
) -> Result<String, Silence> {
    if number < 1 {
        return Err(Silence::Unread);
    }
    let row = conn.query_row(
        "SELECT name, bytes, pool FROM volumes WHERE number = ?1",
        &[ValueRef::Int(number)],
    )?;
    let name: String = row.get(0)?;
    let bytes: u64 = row.get(1)?;
    let pool: String = row.get(2)?;
    let size = size_text(alloc, bytes)?;
    Ok(format!(in alloc;
        "volume {number}: it is {ID_PREFIX}{number} ({name}), {size} in pool {pool}"
    )?)
}

// Returns the line about a pool: its size, and the bytes of its volumes.
fn pool_line<S: Alter>(
    alloc: Global,
    conn: &mut Connection<S>,
    config: &Config,
    name: &str,
) -> Result<String, Silence> {
    let Some(pool) = config
        .pools()
        .iter()
        .find(|pool| pool.name.as_str() == name)
    else {
        return Err(Silence::Unread);
    };
    let row = conn.query_row(
        "SELECT sum(bytes) FROM volumes WHERE pool = ?1",
        &[ValueRef::Text(name.as_bytes())],
    )?;
    let used = size_text(alloc, row.get::<u64>(0)?)?;
    let size = size_text(alloc, pool.bytes)?;
    Ok(format!(in alloc; "pool {name}: its volumes have {used}, and it has {size}")?)
}

// Returns the line about a node: its limit, and the number of its volumes.
fn node_line<S: Alter>(
    alloc: Global,
    conn: &mut Connection<S>,
    config: &Config,
    id: &str,
) -> Result<String, Silence> {
    let Some(node) = config.nodes().iter().find(|node| node.id.as_str() == id) else {
        return Err(Silence::Unread);
    };
    let row = conn.query_row(
        "SELECT count(*) FROM attachments WHERE node = ?1",
        &[ValueRef::Text(id.as_bytes())],
    )?;
    let count: u64 = row.get(0)?;
    Ok(format!(in alloc;
        "node {id}: {count} volumes are attached there, and it can have {}",
        node.max_volumes
    )?)
}

fn line<S: Alter>(
    alloc: Global,
    conn: &mut Connection<S>,
    config: &Config,
    broken: &BrokenConstraint,
) -> Result<String, Silence> {
    match broken {
        BrokenConstraint::Volume { number, .. } | BrokenConstraint::Attachment { number, .. } => {
            volume_line(alloc, conn, *number)
        }
        BrokenConstraint::Pool { name } => pool_line(alloc, conn, config, name.as_str()),
        BrokenConstraint::Node { id } => node_line(alloc, conn, config, id.as_str()),
        BrokenConstraint::Next | BrokenConstraint::TooManyVolumes => Err(Silence::Unread),
    }
}

/// Reports details of the volume, the pool or the node for which tables are refused. Reports nothing if the
/// fault is of another kind, or if the details cannot be read from the tables.
pub(crate) fn explain<S: Alter>(
    console: &Console<'_>,
    path: &str,
    conn: &mut Connection<S>,
    config: &Config,
    fault: &AdoptFault,
) {
    let AdoptFault::Broken(broken) = fault else {
        return;
    };
    match line(console.rt.alloc(), conn, config, broken) {
        Ok(line) => console.say_of(path, &line),
        Err(Silence::NoMemory) => console.say(&"out of memory"),
        Err(Silence::Unread) => {}
    }
}

//! Makes each change over a connection, and keeps the totals in memory in step with the tables.
//!
//! No transaction may be open on the connection before a call, and no transaction is open after it. After
//! `Ok` the change is made and committed. A change fails if the database refuses it or memory is refused.
//! After a fault the State is unchanged, but a stop may leave the State with the change. The totals are
//! updated only after the change is committed, and the update takes no memory.
//!
//! A change is one transaction, except that removing a volume and changing parameters take two. The first
//! transaction reads the row of the volume and leaves the State unchanged. A removal needs the name of the
//! pool to update the pool's total. It reads the name first, since a name takes memory and nothing may fail
//! after the commit. A change of parameters needs the parameters that stay, since they are in the same column
//! as the parameters that change.

ghost use Rattle.std.specs.Prelude.{◌≡◌, ◌<◌, ◌^◌, [], ◌∷◌, List, ℕ, IfOk, IsErrOf, IsUtf8, OnOk, option_map};
ghost use Rattle.sqlite.specs.Held.{state};
ghost use Rattle.csi_keeper.specs.State.{State, IsBounded, changed};
ghost use Rattle.csi_keeper.specs.Totals.{HasRoom, IsReserved, total_of};
ghost use Rattle.csi_keeper.specs.declared.change.Change.TheVariants.{AddVolume, RemoveVolume, Attach, Detach, DetachAll, SetMutable};
ghost use Rattle.csi_columns.specs.Encoding.{caps_bytes, FitCaps};
ghost use Rattle.csi_tables.specs.Holding.{conn_doubt, conn_holds, IsStorable};
ghost use Rattle.csi_tables.specs.Refusing.{ConnChanges, ConnStays, StoreChanges, RefusesAdding, RefusesAttaching, RefusesChange, RefusesDetach, RefusesDetachAll, RefusesMutable, RefusesRemoving};
ghost use Rattle.csi_tables.specs.declared.fault.TablesFault.TheVariants.{Refused};

use crate::fault::TablesError;
use crate::read::{by_number, share};
use csi_columns::laws::read_back;
use csi_columns::{write_caps, write_params};
use csi_keeper::{Attachment, CapKey, Change, Totals, Volume};
use csi_sql::changes::{add_volume, attach, detach, detach_all, remove_volume, set_params};
use csi_sql::{IdleConnection, reads};
use csi_types::{Map, Text};
use sqlite::Alter;
use std::alloc::{AllocError, Global};
use std::slice::from_ref;

/// The numbers in rows are below this number, since integers of SQLite are below 2^63.
pub(crate) const NUMBERS: u64 = 1 << 63;

// Reserves the memory that counting one more volume in a pool needs. Fails with `Refused` if the pool's total
// cannot count the volume: the number of volumes would reach 2^64, or their bytes 2^128.
fn reserve(alloc: Global, totals: &mut Totals, pool: &Text, bytes: u64) -> Result<(), TablesError>
    ensures room { OnOk result (HasRoom (total_of totals.old pool.now) bytes) }
    ensures reserved { OnOk result (IsReserved totals.new pool.now) }
    ensures unchanged { (q : List ℕ) → total_of totals.new q ≡ total_of totals.old q }
    ensures refused { IsErrOf result Refused → ¬ HasRoom (total_of totals.old pool.now) bytes }
{
    if !totals.has_room(pool, bytes) {
        return Err(TablesError::refused());
    }
    totals.reserve(pool.copy(alloc)?)?;
    Ok(())
}

/// Adds the row of a volume, and counts the volume in the total of its pool.
pub(crate) fn make_volume<S: Alter>(
    alloc: Global,
    conn: &mut IdleConnection<S>,
    totals: &mut Totals,
    volume: &Volume,
) -> Result<(), TablesError>
    requires bounded { IsBounded (AddVolume volume.now) }
    ensures { StoreChanges S.Store (conn.old, totals.old) (conn.new, totals.new) (AddVolume volume.now)
        (RefusesAdding volume.now totals.old (state S.Store conn.old)) result }
{
    read_back();
    let caps = write_caps(alloc, volume.caps.as_slice())?;
    let params = write_params(alloc, &volume.params, &volume.mutable)?;
    reserve(alloc, totals, &volume.pool, volume.bytes)?;
    add_volume(
        conn,
        volume.number,
        volume.name.as_str(),
        volume.bytes,
        volume.pool.as_str(),
        &caps,
        &params,
    )?;
    totals.count(&volume.pool, volume.bytes);
    Ok(())
}

// Handles a change that has no effect, such as the removal of a volume number that no row can have. Makes one
// read, which fails if the connection is shut. After `Ok` a stop leaves only the unchanged State.
fn make_nothing<S: Alter>(conn: &mut IdleConnection<S>) -> Result<(), TablesError>
    ensures { ConnStays S.Store conn.old conn.new result }
{
    read_back();
    reads::next_number(conn)?;
    Ok(())
}

// Encodes the capability of an attachment for the column `cap`.
fn write_cap(alloc: Global, cap: &CapKey) -> Result<Vec<u8>, AllocError>
    ensures bytes { IfOk result (λ out. out.items ≡ caps_bytes (cap.now ∷ [])) }
    ensures fits { OnOk result (FitCaps (cap.now ∷ [])) }
{
    write_caps(alloc, from_ref(cap))
}

/// Adds the row of an attachment of a volume at a node. Fails with `Refused` if the number is 2^63 or above,
/// or if the volume is attached to the node already.
pub(crate) fn make_attachment<S: Alter>(
    alloc: Global,
    conn: &mut IdleConnection<S>,
    number: u64,
    attachment: &Attachment,
) -> Result<(), TablesError>
    ensures changes { ConnChanges S.Store conn.old conn.new (Attach number attachment.now)
        (RefusesAttaching number attachment.now (state S.Store conn.old)) result }
    ensures stored { OnOk result ((number < 2 ^ 63) × IsUtf8 attachment.now.node
        × FitCaps (attachment.now.cap ∷ [])) }
{
    read_back();
    if number >= NUMBERS {
        return Err(TablesError::refused());
    }
    let cap = write_cap(alloc, &attachment.cap)?;
    attach(
        conn,
        number,
        attachment.node.as_str(),
        &cap,
        attachment.readonly,
    )?;
    Ok(())
}

/// Deletes the row of a volume's attachment at a node. If there is no such row, nothing changes.
pub(crate) fn unmake_attachment<S: Alter>(
    conn: &mut IdleConnection<S>,
    number: u64,
    node: &Text,
) -> Result<(), TablesError>
    ensures { ConnChanges S.Store conn.old conn.new (Detach number node.now)
        (RefusesDetach number node.now (state S.Store conn.old)) result }
{
    read_back();
    if number >= NUMBERS {
        return make_nothing(conn);
    }
    detach(conn, number, node.as_str())?;
    Ok(())
}

/// Deletes the rows of all attachments of a volume. If there are none, nothing changes.
pub(crate) fn unmake_attachments<S: Alter>(
    conn: &mut IdleConnection<S>,
    number: u64,
) -> Result<(), TablesError>
    ensures { ConnChanges S.Store conn.old conn.new (DetachAll number)
        (RefusesDetachAll number (state S.Store conn.old)) result }
{
    read_back();
    if number >= NUMBERS {
        return make_nothing(conn);
    }
    detach_all(conn, number)?;
    Ok(())
}

/// Removes a volume. If no volume has the number, nothing changes. Reads the volume's pool and size first, so
/// that updating the pool's total needs no memory after the removal. The other columns of the row are not
/// decoded, which would take memory.
pub(crate) fn unmake_volume<S: Alter>(
    conn: &mut IdleConnection<S>,
    totals: &mut Totals,
    number: u64,
) -> Result<(), TablesError>
    ensures { StoreChanges S.Store (conn.old, totals.old) (conn.new, totals.new) (RemoveVolume number)
        (RefusesRemoving number (state S.Store conn.old)) result }
{
    read_back();
    if number >= NUMBERS {
        return make_nothing(conn);
    }
    let found = share(conn, number)?;
    remove_volume(conn, number)?;
    let Some((pool, bytes)) = found else {
        return Ok(());
    };
    totals.remove(&pool, bytes);
    Ok(())
}

// Returns the parameters of a volume, or `None` if no volume is given. Nothing in this function can fail. So
// a separate function makes the proof of its caller shorter.
fn params_of(volume: Option<Volume>) -> Option<Map>
    ensures { result ≡ option_map (λ v. v.params) volume }
{
    match volume {
        Some(volume) => Some(volume.params),
        None => None,
    }
}

/// Replaces the mutable parameters of a volume. If no volume has the number, nothing changes. Reads the
/// volume first, since its other parameters are in the same column and stay.
pub(crate) fn make_mutable<S: Alter>(
    alloc: Global,
    conn: &mut IdleConnection<S>,
    number: u64,
    mutable: &Map,
) -> Result<(), TablesError>
    ensures changes { ConnChanges S.Store conn.old conn.new (SetMutable number mutable.now)
        (RefusesMutable number mutable.now (state S.Store conn.old)) result }
    ensures stored { OnOk result (conn_doubt S.Store conn.new ≡ 0 → (s : State)
        → conn_holds S.Store conn.old s → IsStorable s
        → IsStorable (changed s (SetMutable number mutable.now))) }
{
    read_back();
    if number >= NUMBERS {
        return make_nothing(conn);
    }
    let stands = by_number(alloc, conn, number)?;
    let Some(params) = params_of(stands) else {
        return Ok(());
    };
    let params = write_params(alloc, &params, mutable)?;
    set_params(conn, number, &params)?;
    Ok(())
}

/// Makes a change, and updates the totals of the pools.
pub(crate) fn make<S: Alter>(
    alloc: Global,
    conn: &mut IdleConnection<S>,
    totals: &mut Totals,
    change: &Change,
) -> Result<(), TablesError>
    requires bounded { IsBounded change.now }
    ensures { StoreChanges S.Store (conn.old, totals.old) (conn.new, totals.new) change.now
        (RefusesChange change.now totals.old (state S.Store conn.old)) result }
{
    match change {
        Change::AddVolume(volume) => make_volume(alloc, conn, totals, volume),
        Change::RemoveVolume(number) => unmake_volume(conn, totals, *number),
        Change::Attach(number, attachment) => make_attachment(alloc, conn, *number, attachment),
        Change::Detach(number, node) => unmake_attachment(conn, *number, node),
        Change::DetachAll(number) => unmake_attachments(conn, *number),
        Change::SetMutable(number, mutable) => make_mutable(alloc, conn, *number, mutable),
    }
}

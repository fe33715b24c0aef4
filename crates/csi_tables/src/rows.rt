//! Decodes volumes, attachments and numbers from the rows of a SELECT. The functions also fail if memory is
//! refused.

ghost use Rattle.std.specs.Prelude.{◌≡◌, ◌≢◌, ℕ, List, [], ◌∷◌, Option, Some, IfOk, IfSome, IsErrOf, IsUtf8, map, option_map};
ghost use Rattle.std.specs.List.{AllByRecursion};
ghost use Rattle.sqlite.specs.declared.types.Value.TheVariants.{Text as Words, Blob};
ghost use Rattle.sqlite.specs.Order.{column};
ghost use Rattle.csi_types.specs.Maps.{TextMap};
ghost use Rattle.csi_keeper.specs.State.{AttachmentKey};
ghost use Rattle.csi_keeper.specs.declared.capability.CapKey.{CapKey as Key};
ghost use Rattle.csi_keeper.specs.declared.volume.Attachment.{Attachment as Placed};
ghost use Rattle.csi_keeper.specs.declared.volume.Volume.{Volume as Stored};
ghost use Rattle.csi_sql.specs.Rows.{number_value};
ghost use Rattle.csi_columns.specs.Encoding.{caps_bytes, params_bytes, AreKnown, FitCaps, FitParams};
ghost use Rattle.csi_columns.specs.Entries.{volume_entry, node_entry};
ghost use Rattle.csi_tables.specs.Holding.{IsStored, IsPlaced, IsReadable, IsReadablePlace};
ghost use Rattle.csi_tables.specs.Reading.{AreReadOf, HasKeys, HasParams, IsReadOf, ShowsAttachment, ShowsNumber, ShowsVolume, share};
ghost use Rattle.csi_tables.specs.declared.fault.TablesFault.TheVariants.{Refused};

use crate::decoding::{read_caps, read_params};
use crate::fault::TablesError;
use csi_keeper::{Attachment, CapKey, Volume};
use csi_sql::values::{blob_at, flag_at};
use csi_types::{Items, Map, Text};
use sqlite::Row;
use std::alloc::{AllocError, Global};

/// Copies the text in the column `at`, counted from 0. Fails with `Refused` if the value is not a text in
/// UTF-8.
pub(crate) fn text_in(row: &Row, at: usize) -> Result<Text, TablesError>
    ensures ok { IfOk result (λ text. column row.now at ≡ Words text) }
    ensures refused { IsErrOf result Refused → (text : List ℕ) → IsUtf8 text
        → column row.now at ≢ Words text }
{
    Ok(Text::from_string(row.get(at)?))
}

/// Returns the number in the column `at`, counted from 0. Fails with `Refused` if the value is not an integer
/// or is negative.
pub(crate) fn number_in(row: &Row, at: usize) -> Result<u64, TablesError>
    ensures ok { IfOk result (λ n. column row.now at ≡ number_value n) }
    ensures refused { IsErrOf result Refused → (n : ℕ) → column row.now at ≢ number_value n }
{
    Ok(row.get(at)?)
}

fn caps_in(alloc: Global, row: &Row, at: usize) -> Result<Items<CapKey>, TablesError>
    ensures ok { IfOk result (λ keys. (ks : List Key) → FitCaps ks → column row.now at ≡ Blob (caps_bytes ks)
        → keys ≡ ks) }
    ensures refused { IsErrOf result Refused → (ks : List Key) → FitCaps ks → AreKnown ks
        → column row.now at ≢ Blob (caps_bytes ks) }
    ensures exact { IfOk result (λ keys. HasKeys (column row.now at) keys) }
    ensures unread { IsErrOf result Refused → (ks : List Key) → HasKeys (column row.now at) ks → ⊥ }
{
    match blob_at(row, at) {
        Some(bytes) => read_caps(alloc, bytes),
        None => Err(TablesError::refused()),
    }
}

fn params_in(alloc: Global, row: &Row, at: usize) -> Result<(Map, Map), TablesError>
    ensures ok { IfOk result (λ read. (p m : TextMap) → FitParams p m
        → column row.now at ≡ Blob (params_bytes p m) → read ≡ (p, m)) }
    ensures refused { IsErrOf result Refused → (p m : TextMap) → FitParams p m
        → column row.now at ≢ Blob (params_bytes p m) }
    ensures exact { IfOk result (λ read. HasParams (column row.now at) read) }
    ensures unread { IsErrOf result Refused → (params : TextMap × TextMap)
        → HasParams (column row.now at) params → ⊥ }
{
    match blob_at(row, at) {
        Some(bytes) => read_params(alloc, bytes),
        None => Err(TablesError::refused()),
    }
}

/// Decodes the volume in a row of the columns number, name, bytes, pool, caps and params. Fails with
/// `Refused` if a value cannot be decoded.
pub(crate) fn volume_from(alloc: Global, row: &Row) -> Result<Volume, TablesError>
    ensures ok { IfOk result (λ v. (e : ℕ × Stored) → IsStored e → row.now ≡ volume_entry e → v ≡ e.1) }
    ensures refused { IsErrOf result Refused → (e : ℕ × Stored) → IsReadable e → row.now ≢ volume_entry e }
    ensures exact { IfOk result (λ v. ShowsVolume row.now v) }
{
    let number = number_in(row, 0)?;
    let name = text_in(row, 1)?;
    let bytes = number_in(row, 2)?;
    let pool = text_in(row, 3)?;
    let caps = caps_in(alloc, row, 4)?;
    let (params, mutable) = params_in(alloc, row, 5)?;
    Ok(Volume {
        number,
        name,
        bytes,
        pool,
        caps,
        params,
        mutable,
    })
}

/// Decodes the volume in a row. Returns `None` if no row is given.
pub(crate) fn volume_of(alloc: Global, found: Option<Row>) -> Result<Option<Volume>, TablesError>
    ensures ok { IfOk result (λ v. (o : Option (ℕ × Stored)) → IfSome o IsStored
        → found ≡ option_map volume_entry o → v ≡ option_map (λ e. e.1) o) }
    ensures refused { IsErrOf result Refused → (o : Option (ℕ × Stored)) → IfSome o IsReadable
        → found ≢ option_map volume_entry o }
    ensures exact { IfOk result (λ v. IsReadOf ShowsVolume found v) }
{
    match found {
        Some(row) => Ok(Some(volume_from(alloc, &row)?)),
        None => Ok(None),
    }
}

/// Decodes only the pool and the size of the volume in a row. Returns `None` if no row is given.
pub(crate) fn share_of(found: Option<Row>) -> Result<Option<(Text, u64)>, TablesError>
    ensures ok { IfOk result (λ v. (o : Option (ℕ × Stored)) → found ≡ option_map volume_entry o
        → v ≡ option_map (λ e. share e.1) o) }
    ensures refused { IsErrOf result Refused → (o : Option (ℕ × Stored)) → IfSome o IsStored
        → found ≢ option_map volume_entry o }
{
    let Some(row) = found else {
        return Ok(None);
    };
    let bytes = number_in(&row, 2)?;
    let pool = text_in(&row, 3)?;
    Ok(Some((pool, bytes)))
}

fn cap_in(alloc: Global, row: &Row, at: usize) -> Result<CapKey, TablesError>
    ensures ok { IfOk result (λ key. (k : Key) → FitCaps (k ∷ [])
        → column row.now at ≡ Blob (caps_bytes (k ∷ [])) → key ≡ k) }
    ensures refused { IsErrOf result Refused → (k : Key) → FitCaps (k ∷ []) → AreKnown (k ∷ [])
        → column row.now at ≢ Blob (caps_bytes (k ∷ [])) }
    ensures exact { IfOk result (λ key. HasKeys (column row.now at) (key ∷ [])) }
{
    let mut keys = caps_in(alloc, row, at)?.into_vec();
    match keys.pop() {
        Some(key) if keys.is_empty() => Ok(key),
        _ => Err(TablesError::refused()),
    }
}

/// Decodes the attachment in a row of the columns node, cap and readonly. Fails with `Refused` if a value
/// cannot be decoded, for example if `readonly` is neither 0 nor 1.
pub(crate) fn attachment_from(alloc: Global, row: &Row) -> Result<Attachment, TablesError>
    ensures ok { IfOk result (λ a. (e : AttachmentKey × Placed) → IsPlaced e → row.now ≡ node_entry e
        → a ≡ e.1) }
    ensures refused { IsErrOf result Refused → (e : AttachmentKey × Placed) → IsReadablePlace e
        → row.now ≢ node_entry e }
    ensures exact { IfOk result (λ a. ShowsAttachment row.now a) }
{
    let Some(readonly) = flag_at(row, 2) else {
        return Err(TablesError::refused());
    };
    Ok(Attachment {
        node: text_in(row, 0)?,
        cap: cap_in(alloc, row, 1)?,
        readonly,
    })
}

/// Decodes the volumes in rows, in the order of the rows. Fails with `Refused` if a row cannot be decoded.
pub(crate) fn volumes_from(alloc: Global, rows: &[Row]) -> Result<Items<Volume>, TablesError>
    ensures ok { IfOk result (λ vs. (es : List (ℕ × Stored)) → AllByRecursion IsStored es
        → rows.now ≡ map volume_entry es → vs ≡ map (λ e. e.1) es) }
    ensures refused { IsErrOf result Refused → (es : List (ℕ × Stored)) → AllByRecursion IsReadable es
        → rows.now ≢ map volume_entry es }
    ensures exact { IfOk result (λ vs. AreReadOf ShowsVolume rows.now vs) }
{
    let mut volumes = Items::new(alloc);
    for row in rows {
        volumes.push(volume_from(alloc, row)?)?;
    }
    Ok(volumes)
}

/// Decodes the attachments in the rows of one volume, in the order of the rows. Fails with `Refused` if a row
/// cannot be decoded.
pub(crate) fn attachments_from(
    alloc: Global,
    rows: &[Row],
) -> Result<Items<Attachment>, TablesError>
    ensures ok { IfOk result (λ xs. (es : List (AttachmentKey × Placed)) → AllByRecursion IsPlaced es
        → rows.now ≡ map node_entry es → xs ≡ map (λ e. e.1) es) }
    ensures refused { IsErrOf result Refused → (es : List (AttachmentKey × Placed))
        → AllByRecursion IsReadablePlace es → rows.now ≢ map node_entry es }
    ensures exact { IfOk result (λ xs. AreReadOf ShowsAttachment rows.now xs) }
{
    let mut attachments = Items::new(alloc);
    for row in rows {
        attachments.push(attachment_from(alloc, row)?)?;
    }
    Ok(attachments)
}

/// Returns the number of each volume, in the order of the list.
pub(crate) fn numbers_of(alloc: Global, volumes: &[Volume]) -> Result<Vec<u64>, AllocError>
    ensures { IfOk result (λ numbers. numbers.items ≡ map (λ v. v.number) volumes.now) }
{
    let mut numbers = Vec::with_capacity(alloc, volumes.len())?;
    for volume in volumes {
        numbers.push(volume.number)?;
    }
    Ok(numbers)
}

/// Decodes the numbers in the first column of rows, in the order of the rows. Fails with `Refused` if a value
/// is not an integer or is negative.
pub(crate) fn numbers_from(alloc: Global, rows: &[Row]) -> Result<Items<u64>, TablesError>
    ensures ok { IfOk result (λ xs. (ns : List ℕ) → rows.now ≡ map (λ n. number_value n ∷ []) ns → xs ≡ ns) }
    ensures refused { IsErrOf result Refused → (ns : List ℕ) → rows.now ≢ map (λ n. number_value n ∷ []) ns }
    ensures exact { IfOk result (λ xs. AreReadOf ShowsNumber rows.now xs) }
{
    let mut numbers = Items::new(alloc);
    for row in rows {
        numbers.push(number_in(row, 0)?)?;
    }
    Ok(numbers)
}

//! Decodes the fields of a page: the row of the table `meta`, rows of volumes and attachments, and the token
//! of the next page.

ghost use Rattle.std.specs.Prelude.{◌≡◌, ◌≤◌, IfErr, IfOk, IsUtf8, length};
ghost use Rattle.pbwire.specs.Reading.{wire_field_of};
ghost use Rattle.csi_change_store.specs.Asking.{bytes_field, flag_number};
ghost use Rattle.csi_change_store.specs.Cells.{IsReadAs, IsUnread};
ghost use Rattle.csi_change_store.specs.Items.{attachment_columns, seen_item, volume_columns};
ghost use Rattle.csi_change_store.specs.Pages.{Attachment, IsItem, IsSmall, IsTyped, Volume};
ghost use Rattle.csi_change_store.specs.Taking.{IsFlagFault, IsItemFault};
ghost use Rattle.csi_change_store.specs.declared.fault.RowsFault.TheVariants.{Malformed, Untyped};

use crate::cells::{CellKind, Cells, read_cells};
use crate::fault::RowsFault;
use csi_sql::statements::volumes::VolumeRow;
use pbwire::{Field, Value};
use std::alloc::Global;
use std::str;

const META: [CellKind; 3] = [CellKind::Skipped, CellKind::Integer, CellKind::Integer];

const VOLUME: [CellKind; 7] = [
    CellKind::Skipped,
    CellKind::Integer,
    CellKind::Bytes,
    CellKind::Integer,
    CellKind::Bytes,
    CellKind::Bytes,
    CellKind::Bytes,
];

const ATTACHMENT: [CellKind; 5] = [
    CellKind::Skipped,
    CellKind::Integer,
    CellKind::Bytes,
    CellKind::Bytes,
    CellKind::Integer,
];

/// The row of an attachment, as a page encodes it.
#[derive(Clone, Copy)]
pub(crate) struct AttachmentRow<'a> {
    pub(crate) number: u64,
    pub(crate) node: &'a str,
    pub(crate) cap: &'a [u8],
    pub(crate) readonly: bool,
}

/// One decoded field of a page: a row, or the token of the next page.
#[derive(Clone, Copy)]
pub(crate) enum PageField<'a> {
    /// The row of the table `meta` (field 1): the format number and the next number.
    Meta(u64, u64),
    Volume(VolumeRow<'a>),
    Attachment(AttachmentRow<'a>),
    /// The token of the next page (field 4).
    Token(&'a [u8]),
    /// A field with another number, which is ignored.
    Skipped,
}

// Decodes the columns of a row.
fn cells_of<'a>(kinds: &[CellKind], payload: &'a [u8]) -> Result<Cells<'a>, RowsFault>
    requires { length kinds.now ≤ 7 }
    ensures read { IfOk result (λ cells. IsReadAs kinds.now payload.now cells) }
    ensures unread { IfErr result (λ fault. (fault ≡ Malformed) × IsUnread kinds.now payload.now) }
{
    match read_cells(kinds, payload) {
        Some(cells) => Ok(cells),
        None => Err(RowsFault::Malformed),
    }
}

// Returns the bytes as a text. Fails with `Untyped(number)` if the bytes are not UTF-8. `number` is the
// number of the volume or of the attachment's volume.
fn text_of<'a>(number: u64, bytes: &'a [u8]) -> Result<&'a str, RowsFault>
    ensures text { IfOk result (λ text. (text.now ≡ bytes.now) × IsUtf8 bytes.now) }
    ensures fault { IfErr result (λ fault. (fault ≡ Untyped number) × (IsUtf8 bytes.now → ⊥)) }
{
    match str::from_utf8(bytes) {
        Ok(text) => Ok(text),
        Err(_) => Err(RowsFault::Untyped(number)),
    }
}

// Decodes the flag `readonly` of an attachment: 0 is false and 1 is true. Fails with `Flag` for other
// numbers.
fn flag_of(alloc: Global, number: u64, node: &str, readonly: u64) -> Result<bool, RowsFault>
    ensures flag { IfOk result (λ flag. readonly ≡ flag_number flag) }
    ensures fault { IfErr result (IsFlagFault number node.now readonly) }
{
    match readonly {
        0 => Ok(false),
        1 => Ok(true),
        _ => Err(RowsFault::Flag {
            number,
            node: String::from_str(alloc, node)?,
        }),
    }
}

fn volume_of<'a>(payload: &'a [u8]) -> Result<VolumeRow<'a>, RowsFault>
    ensures row { IfOk result (λ row. let item = Volume (volume_columns row) in IsItem
        (bytes_field 2 payload.now) item × IsTyped item × IsSmall item) }
    ensures fault { IfErr result (IsItemFault (IsItem (bytes_field 2 payload.now))) }
{
    let cells = cells_of(&VOLUME, payload)?;
    let number = cells.number(1);
    let name = text_of(number, cells.bytes(2))?;
    let pool = text_of(number, cells.bytes(4))?;
    Ok(VolumeRow {
        number,
        name,
        bytes: cells.number(3),
        pool,
        caps: cells.bytes(5),
        params: cells.bytes(6),
    })
}

fn attachment_of<'a>(alloc: Global, payload: &'a [u8]) -> Result<AttachmentRow<'a>, RowsFault>
    ensures row { IfOk result (λ row. let item = Attachment (attachment_columns row) in IsItem
        (bytes_field 3 payload.now) item × IsTyped item × IsSmall item) }
    ensures fault { IfErr result (IsItemFault (IsItem (bytes_field 3 payload.now))) }
{
    let cells = cells_of(&ATTACHMENT, payload)?;
    let number = cells.number(1);
    let node = text_of(number, cells.bytes(2))?;
    let readonly = flag_of(alloc, number, node, cells.number(4))?;
    Ok(AttachmentRow {
        number,
        node,
        cap: cells.bytes(3),
        readonly,
    })
}

fn meta_of<'a>(payload: &'a [u8]) -> Result<PageField<'a>, RowsFault>
    ensures row { IfOk result (λ item. IsItem (bytes_field 1 payload.now) (seen_item item)
        × IsTyped (seen_item item) × IsSmall (seen_item item)) }
    ensures fault { IfErr result (IsItemFault (IsItem (bytes_field 1 payload.now))) }
{
    let cells = cells_of(&META, payload)?;
    Ok(PageField::Meta(cells.number(1), cells.number(2)))
}

/// Decodes a field of a page as a row or a token.
///
/// # Errors
///
/// `Malformed` if the field is malformed. `Malformed`, `Untyped` or `Flag` if the tables cannot have its row.
/// `NoMemory` if memory is refused.
pub(crate) fn item_of<'a>(alloc: Global, field: Field<'a>) -> Result<PageField<'a>, RowsFault>
    ensures item { IfOk result (λ item. IsItem (wire_field_of field.entry) (seen_item item)) }
    ensures typed { IfOk result (λ item. IsTyped (seen_item item)) }
    ensures small { IfOk result (λ item. IsSmall (seen_item item)) }
    ensures fault { IfErr result (IsItemFault (IsItem (wire_field_of field.entry))) }
{
    match (field.number, field.value) {
        (1, Value::Bytes(payload)) => meta_of(payload),
        (2, Value::Bytes(payload)) => Ok(PageField::Volume(volume_of(payload)?)),
        (3, Value::Bytes(payload)) => Ok(PageField::Attachment(attachment_of(alloc, payload)?)),
        (4, Value::Bytes(token)) => Ok(PageField::Token(token)),
        (0..=4, _) => Err(RowsFault::Malformed),
        _ => Ok(PageField::Skipped),
    }
}

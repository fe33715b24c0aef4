//! Puts pages of rows into the tables of a transaction.

ghost use Rattle.std.specs.Prelude.{◌≡◌, ◌<◌, ◌^◌, [], false, None, IfErr, OnOk};
ghost use Rattle.csi_change_store.specs.Items.{attachment_columns, seen_item, seen_notes, volume_columns};
ghost use Rattle.csi_change_store.specs.Pages.{Attachment, IsSmall, Meta, Volume, with_item};
ghost use Rattle.csi_change_store.specs.Taking.{IsRefusal, PutsItem, TakesPage};
ghost use Rattle.csi_change_store.specs.declared.fault.RowsFault.TheVariants.{NoMemory};

use crate::fault::{RowsFault, fault_of};
use crate::items::{AttachmentRow, PageField, item_of};
use csi_sql::statements::attachments::insert_attachment;
use csi_sql::statements::meta::set_next;
use csi_sql::statements::volumes::{VolumeRow, insert_volume};
use pbwire::Fields;
use pbwire::laws::spelled;
use sqlite::{Alter, Transaction};
use std::alloc::Global;

/// Notes on the pages that were read. They have the parts of the pages that do not go into the tables: the
/// token of the next page and the format number. They also say if there were rows.
#[derive(Drop)]
pub struct PagesRead {
    /// The token of the next page. It is empty before the first page and after the last page.
    pub token: Vec<u8>,
    /// The format number in the last row of the table `meta` that was read, or `None` if no such row was read
    /// yet.
    pub format: Option<u64>,
    /// True if a row of volumes or of attachments was read.
    pub has_rows: bool,
}

impl PagesRead {
    /// Creates the notes before the first page: an empty token, no format and no rows.
    pub fn new(alloc: Global) -> PagesRead
        ensures { (result.token.items ≡ []) × (result.format ≡ None) × (result.has_rows ≡ false) }
    {
        PagesRead {
            token: Vec::new(alloc),
            format: None,
            has_rows: false,
        }
    }
}

// Stores the next number in the tables. The format number goes into the notes only.
fn put_meta<S: Alter>(tx: &mut Transaction<'_, S>, format: u64, next: u64) -> Result<(), RowsFault>
    requires { next < 2 ^ 63 }
    ensures same_reference { tx.new.conn.ghost_name ≡ tx.old.conn.ghost_name }
    ensures puts { PutsItem S.Store tx.old.conn.now tx.new.conn.now (Meta (record {
      format = format;
      next = next;
    })) result }
    ensures refusal { IfErr result IsRefusal }
{
    match set_next(tx, next) {
        Ok(()) => Ok(()),
        Err(error) => Err(fault_of(None, error)),
    }
}

fn put_volume<S: Alter>(tx: &mut Transaction<'_, S>, row: &VolumeRow<'_>) -> Result<(), RowsFault>
    requires { IsSmall (Volume (volume_columns row.now)) }
    ensures same_reference { tx.new.conn.ghost_name ≡ tx.old.conn.ghost_name }
    ensures puts { PutsItem S.Store tx.old.conn.now tx.new.conn.now (Volume (volume_columns row.now)) result }
    ensures refusal { IfErr result IsRefusal }
{
    match insert_volume(tx, row) {
        Ok(()) => Ok(()),
        Err(error) => Err(fault_of(Some(row.number), error)),
    }
}

fn put_attachment<S: Alter>(
    tx: &mut Transaction<'_, S>,
    row: &AttachmentRow<'_>,
) -> Result<(), RowsFault>
    requires { IsSmall (Attachment (attachment_columns row.now)) }
    ensures same_reference { tx.new.conn.ghost_name ≡ tx.old.conn.ghost_name }
    ensures puts { PutsItem S.Store tx.old.conn.now tx.new.conn.now
        (Attachment (attachment_columns row.now)) result }
    ensures refusal { IfErr result IsRefusal }
{
    let AttachmentRow {
        number,
        node,
        cap,
        readonly,
    } = *row;
    match insert_attachment(tx, number, node, cap, readonly) {
        Ok(()) => Ok(()),
        Err(error) => Err(fault_of(Some(number), error)),
    }
}

// Puts the row of a page's field into the tables. Does nothing for a field that is not a row.
fn put_item<S: Alter>(tx: &mut Transaction<'_, S>, item: &PageField<'_>) -> Result<(), RowsFault>
    requires { IsSmall (seen_item item.now) }
    ensures same_reference { tx.new.conn.ghost_name ≡ tx.old.conn.ghost_name }
    ensures puts { PutsItem S.Store tx.old.conn.now tx.new.conn.now (seen_item item.now) result }
    ensures refusal { IfErr result IsRefusal }
{
    match item {
        PageField::Meta(format, next) => put_meta(tx, *format, *next),
        PageField::Volume(row) => put_volume(tx, row),
        PageField::Attachment(row) => put_attachment(tx, row),
        PageField::Token(_) | PageField::Skipped => Ok(()),
    }
}

// Updates the notes with a field of a page.
fn note_item(notes: &mut PagesRead, item: &PageField<'_>) -> Result<(), RowsFault>
    ensures noted { OnOk result (seen_notes notes.new
        ≡ with_item (seen_item item.now) (seen_notes notes.old)) }
    ensures fault { IfErr result (λ fault. fault ≡ NoMemory) }
{
    match *item {
        PageField::Meta(format, _) => notes.format = Some(format),
        PageField::Volume(_) | PageField::Attachment(_) => notes.has_rows = true,
        PageField::Token(token) => {
            notes.token.clear();
            notes.token.extend_from_slice(token)?;
        }
        PageField::Skipped => {}
    }
    Ok(())
}

// Puts all rows of a page into the tables in the order of the page, and updates the notes with each field.
fn put_items<S: Alter>(
    alloc: Global,
    tx: &mut Transaction<'_, S>,
    notes: &mut PagesRead,
    body: &[u8],
) -> Result<(), RowsFault>
    ensures same_reference { tx.new.conn.ghost_name ≡ tx.old.conn.ghost_name }
    ensures takes { TakesPage S.Store tx.old.conn.now tx.new.conn.now body.now (seen_notes notes.old)
        (seen_notes notes.new) result }
{
    spelled();
    let mut fields = Fields::new(body);
    while let Some(next) = fields.next_field() {
        let Ok(field) = next else {
            return Err(RowsFault::Malformed);
        };
        let item = item_of(alloc, field)?;
        put_item(tx, &item)?;
        note_item(notes, &item)?;
    }
    Ok(())
}

/// Puts the rows of a page into the tables of a transaction, in the order of the page. Updates `notes`: the
/// token becomes the token in the page, or empty if the page has none. After an error, the transaction may
/// have some of the rows.
///
/// # Errors
///
/// - the page is malformed, or the tables cannot have one of its rows
/// - the database refuses a row, for example because an earlier row has its number
/// - memory is refused
pub fn put_page<S: Alter>(
    alloc: Global,
    tx: &mut Transaction<'_, S>,
    notes: &mut PagesRead,
    body: &[u8],
) -> Result<(), RowsFault>
    ensures same_reference { tx.new.conn.ghost_name ≡ tx.old.conn.ghost_name }
    ensures takes { TakesPage S.Store tx.old.conn.now tx.new.conn.now body.now
        (record (seen_notes notes.old) { token = [] }) (seen_notes notes.new) result }
{
    notes.token.clear();
    put_items(alloc, tx, notes, body)
}

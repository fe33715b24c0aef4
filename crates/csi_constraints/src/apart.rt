//! The constraint that any two attachments of one volume can coexist. The scan keeps one attachment, which
//! represents all earlier attachments of the volume.

ghost use Rattle.std.specs.Prelude.{◌≡◌, None, IfOk, IsSome, OnErr};
ghost use Rattle.sqlite.specs.Order.{column};
ghost use Rattle.csi_constraints.specs.Folds.{as_integer};
ghost use Rattle.csi_sql.specs.Folding.{FailsForMemory};
ghost use Rattle.csi_constraints.specs.Apart.{AreCovered, DoNotFall, admits, apart_named, can_coexist, is_written, last_attachment_at, covers};
ghost use Rattle.csi_constraints.specs.facts.Starts.{none_covered};

use crate::cells::integer_at;
use crate::joins::attached_at;
use crate::named::{RowName, name_at};
use csi_keeper::{Attachment, coexist};
use csi_sql::Fold;
use sqlite::{Error, Row};
use std::alloc::Global;

/// One attachment that represents all attachments of its volume up to the last row of the scan. If another
/// attachment can coexist with this one, it can coexist with all of them.
#[derive(Drop)]
pub struct LastAttachment {
    /// The number of the volume that the attachment belongs to.
    pub number: i64,
    /// The attachment, or `None` if `cap` or `readonly` of the row cannot be decoded.
    pub attachment: Option<Attachment>,
}

// Decodes the attachment of a row. Returns `None` if the row has no number.
fn last_attachment_at(alloc: Global, row: &Row) -> Result<Option<LastAttachment>, Error>
    ensures value { IfOk result (λ led. led ≡ last_attachment_at row.now) }
    ensures memory { FailsForMemory result }
    ensures error_only_if { OnErr result (IsSome (as_integer (column row.now 0))) }
{
    let Some(number) = integer_at(row, 0) else {
        return Ok(None);
    };
    let attachment = attached_at(alloc, row, 2, 3)?;
    Ok(Some(LastAttachment { number, attachment }))
}

fn can_coexist(one: &Option<Attachment>, other: &Option<Attachment>) -> bool
    ensures { result ≡ can_coexist one.now other.now }
{
    match (one, other) {
        (Some(one), Some(other)) => coexist(one, other),
        _ => false,
    }
}

fn is_written(attachment: &Option<Attachment>) -> bool
    ensures { result ≡ is_written attachment.now }
{
    match attachment {
        Some(attachment) => !attachment.readonly,
        None => false,
    }
}

// Returns true if the next attachment can coexist with all attachments of its volume that the scan has met.
fn admits(last: &Option<LastAttachment>, next: &LastAttachment) -> bool
    ensures { result ≡ admits last.now next.now }
{
    match last {
        Some(led) => { led.number != next.number || can_coexist(&led.attachment, &next.attachment) }
        None => true,
    }
}

// Returns true if `last` also represents the next attachment, given that the two attachments can coexist.
fn covers(last: &Option<LastAttachment>, next: &LastAttachment) -> bool
    ensures { result ≡ covers last.now next.now }
{
    match last {
        Some(led) => led.number == next.number && is_written(&led.attachment),
        None => false,
    }
}

/// Finds the first attachment that cannot coexist with an earlier attachment of the same volume. An
/// attachment that cannot be decoded coexists with no other, and a row without a number is skipped. The rows
/// must be ordered by number, like the rows of `scan_places`.
///
/// The fold keeps one attachment of the last volume: an attachment that writes, if the volume has one,
/// otherwise an attachment that only reads. An attachment that can coexist with a writing attachment can
/// coexist with the attachments that only read.
#[derive(Drop)]
pub struct FirstApart {
    /// The allocator of the decoded capabilities and of the text in `found`.
    pub alloc: Global,
    /// The attachment that is kept for the last volume, or `None` if no row has had a number yet. Initially
    /// `None`.
    pub last: Option<LastAttachment>,
    /// The first row that breaks the constraint, or `None` if no row has broken it yet. Initially `None`.
    pub found: Option<RowName>,
}

impl Fold for FirstApart {
    ghost folds = { λ first rows now.
        first.found ≡ None → first.last ≡ None → DoNotFall rows
        → (now.found ≡ apart_named rows) × (now.found ≡ None → AreCovered now.last rows) };

    ghost takes_memory = { λ fold row. (fold.found ≡ None) × IsSome (as_integer (column row 0)) };

    ghost starts = { λ first found last falls. (found, λ none. none_covered first.last last) };

    fn add_row(&mut self, row: &Row) -> Result<(), Error> {
        if self.found.is_some() {
            return Ok(());
        }
        let Some(next) = last_attachment_at(self.alloc, row)? else {
            return Ok(());
        };
        if !admits(&self.last, &next) {
            self.found = Some(name_at(self.alloc, row, 0, 1)?);
            return Ok(());
        }
        if !covers(&self.last, &next) {
            self.last = Some(next);
        }
        Ok(())
    }
}

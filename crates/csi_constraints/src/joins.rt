//! Decodes the attachment in a row.

ghost use Rattle.std.specs.Prelude.{◌≡◌, IfOk};
ghost use Rattle.csi_sql.specs.Folding.{FailsForMemory};
ghost use Rattle.csi_constraints.specs.Joins.{attached_at};

use crate::coded::key_at;
use csi_keeper::Attachment;
use csi_sql::values::flag_at;
use csi_types::Text;
use sqlite::{Error, Row};
use std::alloc::Global;

/// Decodes the attachment whose capability is in the column `cap` and whose flag is in the column `readonly`,
/// both counted from 0. Returns `None` if the capability or the flag cannot be decoded. The node of the
/// result is empty.
///
/// # Errors
///
/// If memory is refused.
pub(crate) fn attached_at(
    alloc: Global,
    row: &Row,
    cap: usize,
    readonly: usize,
) -> Result<Option<Attachment>, Error>
    ensures value { IfOk result (λ a. a ≡ attached_at cap readonly row.now) }
    ensures memory { FailsForMemory result }
{
    let Some(cap) = key_at(alloc, row, cap)? else {
        return Ok(None);
    };
    let Some(readonly) = flag_at(row, readonly) else {
        return Ok(None);
    };
    Ok(Some(Attachment {
        node: Text::new(alloc),
        cap,
        readonly,
    }))
}

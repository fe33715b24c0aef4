//! Tests that the values of a row have the types of their columns.

ghost use Rattle.csi_constraints.specs.Kinds.{has_attachment_kinds, has_volume_kinds};

use crate::cells::{has_blob, has_integer, has_text};
use crate::trial::RowTest;
use sqlite::Row;

/// Tests the types in a row of volumes: the number and the size are integers, the name and the pool are texts
/// in UTF-8, and `caps` and `params` are blobs.
#[derive(Clone, Copy)]
pub struct HasVolumeKinds;

impl RowTest for HasVolumeKinds {
    ghost accepts = { λ _ row. has_volume_kinds row };

    fn test(&self, row: &Row) -> bool {
        has_integer(row, 0)
            && has_text(row, 1)
            && has_integer(row, 2)
            && has_text(row, 3)
            && has_blob(row, 4)
            && has_blob(row, 5)
    }
}

/// Tests the types in a row of attachments. After the rowid, the number and `readonly` must be integers, the
/// node must be a text in UTF-8, and `cap` must be a blob.
#[derive(Clone, Copy)]
pub struct HasAttachmentKinds;

impl RowTest for HasAttachmentKinds {
    ghost accepts = { λ _ row. has_attachment_kinds row };

    fn test(&self, row: &Row) -> bool {
        has_integer(row, 1) && has_text(row, 2) && has_blob(row, 3) && has_integer(row, 4)
    }
}

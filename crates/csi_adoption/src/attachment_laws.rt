//! Laws of attachments. Rows that pass every constraint are the rows of a State's attachments. The rows of a
//! State's attachments pass every constraint. A law is a function that does nothing: its caller gets what the
//! contract of the law states.

ghost use Rattle.csi_adoption.specs.FoundAttachments.{AttachmentsAreFound, AttachmentsDoPass, OwnersDoPass, PlacesDoPass};

use csi_constraints::laws::{attachments, owners, pairs};

/// Let a State have some volumes, and let rows of attachments pass every constraint with these volumes. Then
/// there is a State with the same volumes and with the attachments in these rows.
pub fn attachments_found()
    ensures { AttachmentsAreFound }
{
    attachments();
    owners();
    pairs();
}

/// The rows of a State's attachments pass each constraint on a single row.
pub fn attachments_pass()
    ensures { AttachmentsDoPass }
{
    attachments();
}

/// The attachments of a State pass each constraint on an attachment and its volume.
pub fn owners_pass()
    ensures { OwnersDoPass }
{
    owners();
}

/// Any two attachments of one volume in a State can coexist.
pub fn places_pass()
    ensures { PlacesDoPass }
{
    pairs();
}

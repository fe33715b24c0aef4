//! Laws of the constraints: what a constraint on a row means for the volume or the attachment that the row
//! represents. A law is a function that does nothing: its caller gets what the contract of the law states.

ghost use Rattle.std.specs.Prelude.{ℕ, List};
ghost use Rattle.sqlite.specs.declared.types.Value.{Value};
ghost use Rattle.csi_config.specs.declared.config.Config.{Config};
ghost use Rattle.csi_keeper.specs.State.{AttachmentKey};
ghost use Rattle.csi_keeper.specs.declared.capability.CapKey.{CapKey};
ghost use Rattle.csi_keeper.specs.declared.volume.Attachment.{Attachment};
ghost use Rattle.csi_keeper.specs.declared.volume.Volume.{Volume};
ghost use Rattle.csi_constraints.specs.Agreement.{AttachmentAgrees, OwnerAgrees, PairAgrees, VolumeAgrees};

use csi_columns::laws::read_back;

/// The row of a volume passes the test of a [`VolumeConstraint`](crate::VolumeConstraint) if and only if the
/// volume itself meets the constraint. If its name and pool are UTF-8, the row has the types of the columns.
pub fn volumes()
    ensures { (config : Config) (format next : ℕ) (e : ℕ × Volume) → VolumeAgrees config format next e }
{
    read_back();
}

/// The row of an attachment has a valid `readonly`. It passes the test of the node if and only if the
/// configuration has the node, and the test of `cap` if and only if the capability is supported. If the node
/// is UTF-8, the row has the types of the columns.
pub fn attachments()
    ensures { (config : Config) (rowid : Value) (e : AttachmentKey × Attachment)
        → AttachmentAgrees config rowid e }
{
    read_back();
}

/// An attachment meets the constraint `Owner` if and only if its volume exists and has the attachment's
/// capability.
pub fn owners()
    ensures { (e : AttachmentKey × Attachment) (own : List CapKey) → OwnerAgrees e own }
{
    read_back();
}

/// Two attachments with supported capabilities break the constraint `Coexist` if and only if they belong to
/// the same volume and cannot coexist.
pub fn pairs()
    ensures { (e f : AttachmentKey × Attachment) → PairAgrees e f }
{
    read_back();
}

//! Decides which attachments of one volume can coexist at two nodes.

ghost use Rattle.std.specs.Prelude.{◌≡◌};
ghost use Rattle.csi_keeper.specs.Coexistence.{coexist, is_shared};

use crate::volume::Attachment;

// Returns true if attachments with this access mode can coexist. `readonly` is true if at least one of the
// two attachments is read-only.
fn is_shared(mode: u8, readonly: bool) -> bool
    ensures { result ≡ is_shared mode readonly }
{
    mode == 3 || mode == 5 || (mode == 4 && readonly)
}

/// Returns true if two attachments of one volume to two nodes can coexist (CSI specification, 'CreateVolume',
/// `VolumeCapability.AccessMode`). Both must have the same mode, which is one of these:
///
/// - `MULTI_NODE_READER_ONLY` or `MULTI_NODE_MULTI_WRITER`
/// - `MULTI_NODE_SINGLE_WRITER`, if at least one of the two attachments is read-only
pub fn coexist(one: &Attachment, other: &Attachment) -> bool
    ensures { result ≡ coexist one.now other.now }
{
    one.cap.mode == other.cap.mode && is_shared(one.cap.mode, one.readonly || other.readonly)
}

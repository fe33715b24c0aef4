//! Finds attachments of one volume that cannot exist together.

ghost use Rattle.std.specs.Prelude.{◌≡◌};
ghost use Rattle.csi_rules.specs.Conflict.{has_conflict};

use csi_keeper::{Attachment, coexist};

/// Returns true if the new attachment `mine` of a volume cannot coexist (`csi_keeper::coexist`) with one of
/// the volume's `attachments` at other nodes.
pub fn has_conflict(mine: &Attachment, attachments: &[Attachment]) -> bool
    ensures { result ≡ has_conflict mine.now attachments.now }
{
    attachments.iter().any(|other| !coexist(other, mine))
}

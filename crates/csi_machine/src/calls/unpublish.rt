//! Plans ControllerUnpublishVolume: detaches a volume from one node or from all nodes (CSI specification,
//! 'ControllerUnpublishVolume').

ghost use Rattle.std.specs.Prelude.{◌≡◌, None, IfOk, IfSome};
ghost use Rattle.csi_keeper.specs.State.{IsBounded};
ghost use Rattle.csi_rules.specs.Ids.{number_of_id};
ghost use Rattle.csi_machine.specs.calls.Unpublish.{detach_all, detach, unpublish};

use crate::calls::publish::attachment_at;
use crate::plan::{Plan, Planning, make, respond};
use crate::planned::Planned;
use crate::response::PlannedResponse;
use csi_config::Config;
use csi_keeper::{Attachment, Change, Keeper};
use csi_rules::number_of_id;
use csi_types::{Text, Unpublish, copy_text};
use std::alloc::{AllocError, Global};

fn detach_all(alloc: Global, number: u64, attachments: &[Attachment]) -> Result<Plan, AllocError>
    ensures bounded { IfOk result (λ p. IfSome p.change IsBounded) }
    ensures value { IfOk result (λ p. p ≡ detach_all number attachments.now) }
{
    if attachments.is_empty() {
        return Ok(respond(PlannedResponse::unpublished()));
    }
    make(
        alloc,
        PlannedResponse::unpublished(),
        Change::DetachAll(number),
    )
}

// Plans to detach a volume from the node with this id, or from all nodes if the id is empty.
fn detach(
    alloc: Global,
    number: u64,
    node: &Text,
    attachments: &[Attachment],
) -> Result<Plan, AllocError>
    ensures bounded { IfOk result (λ p. IfSome p.change IsBounded) }
    ensures value { IfOk result (λ p. p ≡ detach number node.now attachments.now) }
{
    if node.is_empty() {
        return detach_all(alloc, number, attachments);
    }
    if attachment_at(attachments, node).is_none() {
        return Ok(respond(PlannedResponse::unpublished()));
    }
    let node = copy_text(alloc, node.as_str())?;
    make(
        alloc,
        PlannedResponse::unpublished(),
        Change::Detach(number, node),
    )
}

/// Plans ControllerUnpublishVolume. An empty node id means all nodes. If the volume does not exist or is not
/// published to the node, nothing changes, and the answer is the same as for a volume that is unpublished.
impl Planned for Unpublish {
    ghost planned = { λ config s r. unpublish s r };

    ghost names_none = { λ r. number_of_id r.volume_id ≡ None };

    fn plan<K: Keeper>(&self, alloc: Global, _config: &Config, keeper: &mut K) -> Planning {
        let Some(number) = number_of_id(self.volume_id.as_str()) else {
            return Ok(respond(PlannedResponse::unpublished()));
        };
        let attachments = keeper.attachments(alloc, number)?;
        Ok(detach(alloc, number, &self.node_id, attachments.as_slice())?)
    }
}

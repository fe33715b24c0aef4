//! Plans DeleteVolume: removes a volume that is published to no node (CSI specification, 'DeleteVolume').

ghost use Rattle.std.specs.Prelude.{◌≡◌, None, IfOk, IfSome};
ghost use Rattle.csi_keeper.specs.State.{IsBounded};
ghost use Rattle.csi_rules.specs.Ids.{number_of_id};
ghost use Rattle.csi_machine.specs.calls.Delete.{delete_volume, delete};

use crate::plan::{Plan, Planning, make, refuse, respond};
use crate::planned::Planned;
use crate::response::PlannedResponse;
use csi_config::Config;
use csi_keeper::{Attachment, Change, Keeper};
use csi_rules::existing_number;
use csi_types::{DeleteVolume, Reason};
use std::alloc::{AllocError, Global};

// Plans DeleteVolume for a volume that exists. A volume with attachments is in use and not deleted.
fn delete_volume(alloc: Global, number: u64, attachments: &[Attachment]) -> Result<Plan, AllocError>
    ensures bounded { IfOk result (λ p. IfSome p.change IsBounded) }
    ensures value { IfOk result (λ p. p ≡ delete_volume number attachments.now) }
{
    if !attachments.is_empty() {
        return Ok(refuse(Reason::VolumeInUse));
    }
    make(
        alloc,
        PlannedResponse::deleted(),
        Change::RemoveVolume(number),
    )
}

/// Plans DeleteVolume. A volume that is attached is not deleted, and the request is refused. If the volume
/// does not exist, the answer is the same as for a volume that is deleted.
impl Planned for DeleteVolume {
    ghost planned = { λ config s r. delete s r };

    ghost names_none = { λ r. number_of_id r.volume_id ≡ None };

    fn plan<K: Keeper>(&self, alloc: Global, _config: &Config, keeper: &mut K) -> Planning {
        let Some(number) = existing_number(keeper, &self.volume_id)? else {
            return Ok(respond(PlannedResponse::deleted()));
        };
        let attachments = keeper.attachments(alloc, number)?;
        Ok(delete_volume(alloc, number, attachments.as_slice())?)
    }
}

//! Plans requests by reads of the keeper alone. A plan is the answer, and at most one change. A page of a
//! listing has no plan: its entries are written while the volumes are read.
#![tactic(auto, using(csi_keeper::specs::facts::Reads::quiet_same, csi_keeper::specs::facts::Reads::quiet_then))]

ghost use Rattle.std.specs.Prelude.{◌≡◌, None, IfErr, IfOk, IfSome, IsTrue};
ghost use Rattle.csi_keeper.specs.State.{IsBounded};
ghost use Rattle.csi_rules.specs.Finding.{Finds};
ghost use Rattle.csi_keeper.specs.declared.change.StoreFault.TheVariants.{NoMemory};
ghost use Rattle.csi_machine.specs.Step.{is_of_plugin, is_planned, NamesNone, plan};

mod capacity;
mod create;
mod delete;
mod listing;
mod publish;
mod unpublish;

use crate::identity::{plan_controller_capabilities, plan_plugin_capabilities, plan_plugin_info};
use crate::modify::plan_modify;
use crate::plan::Planning;
use crate::planned::Planned;
use crate::validate::plan_validate;
pub(crate) use create::create;
use csi_config::Config;
use csi_keeper::Keeper;
use csi_types::Request;
pub(crate) use listing::append_page;
use std::alloc::Global;

/// Returns the plan of a request. The request must not be Probe, ListVolumes or CreateVolume, which are
/// answered without a plan.
pub(crate) fn plan_of<K: Keeper>(
    alloc: Global,
    config: &Config,
    keeper: &mut K,
    request: &Request,
) -> Planning
    requires { IsTrue (is_planned request.now) }
    ensures bounded { IfOk result (λ p. IfSome p.change IsBounded) }
    ensures finds { Finds (K.model keeper.old) (K.model keeper.new) result
        (λ s p. p ≡ plan config.now s request.now) }
    ensures unnamed { NamesNone request.now → IfErr result (λ e. e ≡ NoMemory) }
    ensures done { NamesNone request.now → IfOk result (λ p. p.change ≡ None) }
    ensures asks_nothing { IsTrue (is_of_plugin request.now) → IfErr result (λ e. e ≡ NoMemory) }
    ensures changes_nothing { IsTrue (is_of_plugin request.now) → IfOk result (λ p. p.change ≡ None) }
{
    match request {
        Request::PluginInfo => Ok(plan_plugin_info(alloc, config)?),
        Request::PluginCapabilities => Ok(plan_plugin_capabilities(alloc)?),
        Request::ControllerCapabilities => Ok(plan_controller_capabilities(alloc)?),
        Request::Delete(request) => request.plan(alloc, config, keeper),
        Request::Publish(request) => request.plan(alloc, config, keeper),
        Request::Unpublish(request) => request.plan(alloc, config, keeper),
        Request::Validate(request) => plan_validate(alloc, keeper, request.get()),
        Request::Capacity(request) => request.plan(alloc, config, keeper),
        Request::Modify(request) => plan_modify(alloc, keeper, request.get()),
        Request::Probe | Request::Create(_) | Request::List(_) => unreachable!(),
    }
}

//! The calls about the plugin: GetPluginInfo, GetPluginCapabilities, Probe and ControllerGetCapabilities (CSI
//! specification, the sections of these names).

ghost use Rattle.std.specs.Prelude.{◌≡◌, None, IfOk};
ghost use Rattle.csi_machine.specs.Identity.{plugin_info, plugin_capabilities, probe, controller_capabilities};
ghost use Rattle.csi_machine.specs.Verdicts.{Appended, IsReported, reported_of};

use crate::body::{Verdict, append_body};
use crate::plan::{Plan, respond};
use crate::response::PlannedResponse;
use csi_config::Config;
use csi_types::{Items, Response, copy_text};
use std::alloc::{AllocError, Global};

/// Plans GetPluginInfo: the answer is the name and version in the configuration.
///
/// # Errors
///
/// If memory is refused.
pub(crate) fn plan_plugin_info(alloc: Global, config: &Config) -> Result<Plan, AllocError>
    ensures none { IfOk result (λ p. p.change ≡ None) }
    ensures value { IfOk result (λ p. p ≡ plugin_info config.now) }
{
    let plugin = config.plugin();
    let name = copy_text(alloc, plugin.name.as_str())?;
    let version = copy_text(alloc, plugin.version.as_str())?;
    Ok(respond(PlannedResponse::of(alloc, Response::PluginInfo { name, version })?))
}

fn items_of(alloc: Global, types: &[Option<i32>]) -> Result<Items<Option<i32>>, AllocError>
    ensures { IfOk result (λ items. items ≡ types.now) }
{
    let mut items = Vec::new(alloc);
    items.extend_from_slice(types)?;
    Ok(Items::from_vec(items))
}

/// Plans GetPluginCapabilities: the answer is `CONTROLLER_SERVICE` and `VOLUME_ACCESSIBILITY_CONSTRAINTS`.
///
/// # Errors
///
/// If memory is refused.
pub(crate) fn plan_plugin_capabilities(alloc: Global) -> Result<Plan, AllocError>
    ensures none { IfOk result (λ p. p.change ≡ None) }
    ensures value { IfOk result (λ p. p ≡ plugin_capabilities) }
{
    let types = items_of(alloc, &[Some(1), Some(2)])?;
    Ok(respond(PlannedResponse::of(alloc, Response::PluginCapabilities(types))?))
}

/// Appends the answer to Probe, which always says that the plugin is ready. Probes are frequent, so they need
/// no plan.
///
/// # Errors
///
/// If memory is refused. `out` is unchanged.
pub(crate) fn append_ready(out: &mut Vec<u8>) -> Result<Verdict, AllocError>
    ensures appended { Appended out.old.items out.new.items result }
    ensures reported { IsReported (reported_of probe.outcome) out.old.items out.new.items result }
{
    append_body(&Response::Probe(Some(true)), out)
}

/// Plans ControllerGetCapabilities: the answer is `CREATE_DELETE_VOLUME`, `PUBLISH_UNPUBLISH_VOLUME`,
/// `LIST_VOLUMES`, `GET_CAPACITY`, `PUBLISH_READONLY`, `LIST_VOLUMES_PUBLISHED_NODES`,
/// `SINGLE_NODE_MULTI_WRITER` and `MODIFY_VOLUME`.
///
/// # Errors
///
/// If memory is refused.
pub(crate) fn plan_controller_capabilities(alloc: Global) -> Result<Plan, AllocError>
    ensures none { IfOk result (λ p. p.change ≡ None) }
    ensures value { IfOk result (λ p. p ≡ controller_capabilities) }
{
    let types = [
        Some(1),
        Some(2),
        Some(3),
        Some(4),
        Some(8),
        Some(10),
        Some(13),
        Some(14),
    ];
    let types = items_of(alloc, &types)?;
    Ok(respond(PlannedResponse::of(alloc, Response::ControllerCapabilities(types))?))
}

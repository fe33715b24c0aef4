//! Borrows the parts of a request that the table of checks uses.

ghost use Rattle.std.specs.Prelude.{◌≡◌, [], None, false};
ghost use Rattle.csi_types.specs.Checks.{no_parts, parts};
ghost use Rattle.csi_checks.specs.Parts.{parts_in};

use csi_types::{
    Capability, CapacityRange, CreateVolume, DeleteVolume, GetCapacity, ListVolumes, Map, Modify,
    Publish, Request, Requirement, Text, Unpublish, Validate,
};
use std::slice::from_ref;

/// The parts of a request that the checks look at. A part is empty or `None` if the method has no such field.
#[derive(Clone, Copy)]
pub(crate) struct Parts<'a> {
    pub(crate) name: Option<&'a Text>,
    pub(crate) capabilities: &'a [Capability],
    /// True if the request must have a capability.
    pub(crate) wants_capability: bool,
    /// True if the request creates a volume with the capabilities.
    pub(crate) is_create: bool,
    pub(crate) ranges: &'a [CapacityRange],
    pub(crate) requirement: Option<&'a Requirement>,
    pub(crate) topology: Option<&'a Map>,
    /// The maps of the request that are not topologies. Each of these lists has one map or none.
    pub(crate) first_map: &'a [Map],
    pub(crate) second_map: &'a [Map],
    pub(crate) third_map: &'a [Map],
    /// The map that must have an entry: a list of one map or none.
    pub(crate) required_maps: &'a [Map],
    pub(crate) volume_ids: &'a [Text],
    pub(crate) node_ids: &'a [Text],
    /// The node id that must not be empty: a list of one id or none.
    pub(crate) required_node_ids: &'a [Text],
    pub(crate) tokens: &'a [Text],
    pub(crate) most_entries: &'a [i32],
    pub(crate) has_source: bool,
}

// Returns the parts of a request without fields: each part is empty or `None`.
fn no_parts<'a>() -> Parts<'a>
    ensures none { parts_in result ≡ no_parts }
    ensures maps { (result.second_map.now ≡ []) × (result.third_map.now ≡ []) }
    ensures topologies { (result.topology ≡ None) × (result.requirement ≡ None) }
    ensures is_create { result.is_create ≡ false }
{
    Parts {
        name: None,
        capabilities: &[],
        wants_capability: false,
        is_create: false,
        ranges: &[],
        requirement: None,
        topology: None,
        first_map: &[],
        second_map: &[],
        third_map: &[],
        required_maps: &[],
        volume_ids: &[],
        node_ids: &[],
        required_node_ids: &[],
        tokens: &[],
        most_entries: &[],
        has_source: false,
    }
}

fn parts_of_create(request: &CreateVolume) -> Parts<'_>
    ensures { parts_in result ≡ parts (Request.Create request.now) }
{
    Parts {
        name: Some(&request.name),
        capabilities: request.capabilities.as_slice(),
        wants_capability: true,
        is_create: true,
        ranges: request.range.as_slice(),
        requirement: request.topology.as_ref(),
        first_map: from_ref(&request.parameters),
        second_map: from_ref(&request.secrets),
        third_map: from_ref(&request.mutable),
        has_source: request.source,
        ..no_parts()
    }
}

fn parts_of_publish(request: &Publish) -> Parts<'_>
    ensures { parts_in result ≡ parts (Request.Publish request.now) }
{
    Parts {
        capabilities: request.capability.as_slice(),
        wants_capability: true,
        first_map: from_ref(&request.secrets),
        second_map: from_ref(&request.context),
        volume_ids: from_ref(&request.volume_id),
        node_ids: from_ref(&request.node_id),
        required_node_ids: from_ref(&request.node_id),
        ..no_parts()
    }
}

fn parts_of_validate(request: &Validate) -> Parts<'_>
    ensures { parts_in result ≡ parts (Request.Validate request.now) }
{
    Parts {
        capabilities: request.capabilities.as_slice(),
        wants_capability: true,
        first_map: from_ref(&request.context),
        second_map: from_ref(&request.parameters),
        third_map: from_ref(&request.secrets),
        volume_ids: from_ref(&request.volume_id),
        ..no_parts()
    }
}

fn parts_of_delete(request: &DeleteVolume) -> Parts<'_>
    ensures { parts_in result ≡ parts (Request.Delete request.now) }
{
    Parts {
        volume_ids: from_ref(&request.volume_id),
        first_map: from_ref(&request.secrets),
        ..no_parts()
    }
}

fn parts_of_unpublish(request: &Unpublish) -> Parts<'_>
    ensures { parts_in result ≡ parts (Request.Unpublish request.now) }
{
    Parts {
        first_map: from_ref(&request.secrets),
        volume_ids: from_ref(&request.volume_id),
        node_ids: from_ref(&request.node_id),
        ..no_parts()
    }
}

fn parts_of_list(request: &ListVolumes) -> Parts<'_>
    ensures { parts_in result ≡ parts (Request.List request.now) }
{
    Parts {
        tokens: from_ref(&request.token),
        most_entries: from_ref(&request.max_entries),
        ..no_parts()
    }
}

fn parts_of_capacity(request: &GetCapacity) -> Parts<'_>
    ensures { parts_in result ≡ parts (Request.Capacity request.now) }
{
    Parts {
        capabilities: request.capabilities.as_slice(),
        topology: request.topology.as_ref(),
        first_map: from_ref(&request.parameters),
        ..no_parts()
    }
}

fn parts_of_modify(request: &Modify) -> Parts<'_>
    ensures { parts_in result ≡ parts (Request.Modify request.now) }
{
    Parts {
        first_map: from_ref(&request.secrets),
        second_map: from_ref(&request.mutable),
        required_maps: from_ref(&request.mutable),
        volume_ids: from_ref(&request.volume_id),
        ..no_parts()
    }
}

/// Borrows the parts of a request. The method decides which fields are which parts.
pub(crate) fn parts_of(request: &Request) -> Parts<'_>
    ensures { parts_in result ≡ parts request.now }
{
    match request {
        Request::PluginInfo
        | Request::PluginCapabilities
        | Request::Probe
        | Request::ControllerCapabilities => no_parts(),
        Request::Create(request) => parts_of_create(request.get()),
        Request::Delete(request) => parts_of_delete(request.get()),
        Request::Publish(request) => parts_of_publish(request.get()),
        Request::Unpublish(request) => parts_of_unpublish(request.get()),
        Request::Validate(request) => parts_of_validate(request.get()),
        Request::List(request) => parts_of_list(request.get()),
        Request::Capacity(request) => parts_of_capacity(request.get()),
        Request::Modify(request) => parts_of_modify(request.get()),
    }
}

//! The requests of CSI calls: a struct for each message with fields, and an enum of all requests.
//!
//! `Debug` shows no secrets: it is written by hand for requests with secrets, and leaves the secrets out.

use crate::boxed::Boxed;
use crate::capability::Capability;
use crate::capacity::CapacityRange;
use crate::items::Items;
use crate::map::Map;
use crate::text::Text;
use crate::topology::Requirement;
use std::fmt;

/// Asks to create a volume: `CreateVolumeRequest` (CSI specification, 'CreateVolume').
#[derive(Drop)]
pub struct CreateVolume {
    /// `name`, field 1: the name that the client chose for the volume.
    pub name: Text,
    /// `capacity_range`, field 2: the requested range of sizes, or `None` if the field is absent. Then a new
    /// volume has the default size, and an existing volume may have any size.
    pub range: Option<CapacityRange>,
    /// `volume_capabilities`, field 3: the ways in which the volume must be usable.
    pub capabilities: Items<Capability>,
    /// `parameters`, field 4: the parameters of the volume's storage class.
    pub parameters: Map,
    /// `secrets`, field 5. This plugin checks their size and does not use them.
    pub secrets: Map,
    /// True if `volume_content_source`, field 6, is present. Its content is not kept.
    pub source: bool,
    /// `accessibility_requirements`, field 7: the topologies from which the volume must be accessible, or
    /// `None` if the field is absent. Then any pool will do.
    pub topology: Option<Requirement>,
    /// `mutable_parameters`, field 8: the parameters that can be changed later.
    pub mutable: Map,
}

impl fmt::Debug for CreateVolume {
    fn fmt<W: fmt::Write>(&self, f: &mut fmt::Formatter<W>) -> fmt::Result {
        f.debug_struct("CreateVolume")
            .field("name", &self.name)
            .field("range", &self.range)
            .field("capabilities", &self.capabilities)
            .field("parameters", &self.parameters)
            .field("source", &self.source)
            .field("topology", &self.topology)
            .field("mutable", &self.mutable)
            .finish_non_exhaustive()
    }
}

/// Asks to delete a volume: `DeleteVolumeRequest` (CSI specification, 'DeleteVolume').
#[derive(Drop)]
pub struct DeleteVolume {
    /// `volume_id`, field 1: the id of the volume to delete.
    pub volume_id: Text,
    /// `secrets`, field 2. This plugin checks their size and does not use them.
    pub secrets: Map,
}

impl fmt::Debug for DeleteVolume {
    fn fmt<W: fmt::Write>(&self, f: &mut fmt::Formatter<W>) -> fmt::Result {
        f.debug_struct("DeleteVolume")
            .field("volume_id", &self.volume_id)
            .finish_non_exhaustive()
    }
}

/// Asks to publish a volume to a node: `ControllerPublishVolumeRequest` (CSI specification,
/// 'ControllerPublishVolume').
#[derive(Drop)]
pub struct Publish {
    /// `volume_id`, field 1: the id of the volume to publish.
    pub volume_id: Text,
    /// `node_id`, field 2: the id of the node that gets the volume.
    pub node_id: Text,
    /// `volume_capability`, field 3: how the node will use the volume, or `None` if the field is absent.
    pub capability: Option<Capability>,
    /// `readonly`, field 4: true if the node must not write to the volume.
    pub readonly: bool,
    /// `secrets`, field 5. This plugin checks their size and does not use them.
    pub secrets: Map,
    /// `volume_context`, field 6: the context that CreateVolume returned. This plugin checks its size and
    /// does not use it.
    pub context: Map,
}

impl fmt::Debug for Publish {
    fn fmt<W: fmt::Write>(&self, f: &mut fmt::Formatter<W>) -> fmt::Result {
        f.debug_struct("Publish")
            .field("volume_id", &self.volume_id)
            .field("node_id", &self.node_id)
            .field("capability", &self.capability)
            .field("readonly", &self.readonly)
            .field("context", &self.context)
            .finish_non_exhaustive()
    }
}

/// Asks to unpublish a volume from one node or from all nodes: `ControllerUnpublishVolumeRequest` (CSI
/// specification, 'ControllerUnpublishVolume').
#[derive(Drop)]
pub struct Unpublish {
    /// `volume_id`, field 1: the id of the volume to unpublish.
    pub volume_id: Text,
    /// `node_id`, field 2. If it is empty, the volume is unpublished from all nodes.
    pub node_id: Text,
    /// `secrets`, field 3. This plugin checks their size and does not use them.
    pub secrets: Map,
}

impl fmt::Debug for Unpublish {
    fn fmt<W: fmt::Write>(&self, f: &mut fmt::Formatter<W>) -> fmt::Result {
        f.debug_struct("Unpublish")
            .field("volume_id", &self.volume_id)
            .field("node_id", &self.node_id)
            .finish_non_exhaustive()
    }
}

/// Asks if a volume has capabilities: `ValidateVolumeCapabilitiesRequest` (CSI specification,
/// 'ValidateVolumeCapabilities').
#[derive(Drop)]
pub struct Validate {
    /// `volume_id`, field 1: the id of the volume that the question is about.
    pub volume_id: Text,
    /// `volume_context`, field 2: the context that CreateVolume returned. This plugin checks its size and
    /// does not use it.
    pub context: Map,
    /// `volume_capabilities`, field 3: the capabilities that the volume may have.
    pub capabilities: Items<Capability>,
    /// `parameters`, field 4: the parameters that the volume may have.
    pub parameters: Map,
    /// `secrets`, field 5. This plugin checks their size and does not use them.
    pub secrets: Map,
}

impl fmt::Debug for Validate {
    fn fmt<W: fmt::Write>(&self, f: &mut fmt::Formatter<W>) -> fmt::Result {
        f.debug_struct("Validate")
            .field("volume_id", &self.volume_id)
            .field("context", &self.context)
            .field("capabilities", &self.capabilities)
            .field("parameters", &self.parameters)
            .finish_non_exhaustive()
    }
}

/// Asks for a page of the volumes: `ListVolumesRequest` (CSI specification, 'ListVolumes').
#[derive(Debug, Drop)]
pub struct ListVolumes {
    /// `max_entries`, field 1: the greatest number of entries in the reply. 0 means the greatest number that
    /// a page may have.
    pub max_entries: i32,
    /// `starting_token`, field 2. It is empty for the first page.
    pub token: Text,
}

/// Asks for the bytes that new volumes can take: `GetCapacityRequest` (CSI specification, 'GetCapacity').
#[derive(Debug, Drop)]
pub struct GetCapacity {
    /// `volume_capabilities`, field 1: the capabilities that new volumes must have.
    pub capabilities: Items<Capability>,
    /// `parameters`, field 2: the parameters of new volumes. This plugin checks their size and does not use
    /// them.
    pub parameters: Map,
    /// `accessible_topology`, field 3: the segments of the topology from which new volumes must be
    /// accessible. It is `None` if the field is absent, and then all pools count.
    pub topology: Option<Map>,
}

/// Asks to change the mutable parameters of a volume: `ControllerModifyVolumeRequest` (CSI specification,
/// 'ControllerModifyVolume').
#[derive(Drop)]
pub struct Modify {
    /// `volume_id`, field 1: the id of the volume to change.
    pub volume_id: Text,
    /// `secrets`, field 2. This plugin checks their size and does not use them.
    pub secrets: Map,
    /// `mutable_parameters`, field 3: the keys to set and their new values.
    pub mutable: Map,
}

impl fmt::Debug for Modify {
    fn fmt<W: fmt::Write>(&self, f: &mut fmt::Formatter<W>) -> fmt::Result {
        f.debug_struct("Modify")
            .field("volume_id", &self.volume_id)
            .field("mutable", &self.mutable)
            .finish_non_exhaustive()
    }
}

/// The request of a call. Each variant belongs to one method. Messages with fields are boxed, so that a
/// `Request` takes few bytes itself.
#[derive(Debug)]
pub enum Request {
    /// Asks for the name and version of the plugin: `GetPluginInfoRequest`, without fields.
    PluginInfo,
    /// Asks which optional services the plugin has: `GetPluginCapabilitiesRequest`, without fields.
    PluginCapabilities,
    /// Asks if the plugin is ready: `ProbeRequest`, without fields.
    Probe,
    /// Asks which optional methods the Controller service has: `ControllerGetCapabilitiesRequest`, without
    /// fields.
    ControllerCapabilities,
    /// Asks to create a volume: `CreateVolumeRequest`.
    Create(Boxed<CreateVolume>),
    /// Asks to delete a volume: `DeleteVolumeRequest`.
    Delete(Boxed<DeleteVolume>),
    /// Asks to publish a volume to a node: `ControllerPublishVolumeRequest`.
    Publish(Boxed<Publish>),
    /// Asks to unpublish a volume from one node or from all nodes: `ControllerUnpublishVolumeRequest`.
    Unpublish(Boxed<Unpublish>),
    /// Asks if a volume has capabilities: `ValidateVolumeCapabilitiesRequest`.
    Validate(Boxed<Validate>),
    /// Asks for a page of the volumes: `ListVolumesRequest`.
    List(Boxed<ListVolumes>),
    /// Asks for the bytes that new volumes can take: `GetCapacityRequest`.
    Capacity(Boxed<GetCapacity>),
    /// Asks to change the mutable parameters of a volume: `ControllerModifyVolumeRequest`.
    Modify(Boxed<Modify>),
}

impl Drop for Request {
    #[inline(always)]
    fn drop(self) {
        match self {
            Request::PluginInfo => {}
            Request::PluginCapabilities => {}
            Request::Probe => {}
            Request::ControllerCapabilities => {}
            Request::Create(_request) => {}
            Request::Delete(_request) => {}
            Request::Publish(_request) => {}
            Request::Unpublish(_request) => {}
            Request::Validate(_request) => {}
            Request::List(_request) => {}
            Request::Capacity(_request) => {}
            Request::Modify(_request) => {}
        }
    }
}

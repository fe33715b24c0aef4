//! Volumes, as replies describe them.

use crate::capability::Capability;
use crate::items::Items;
use crate::map::Map;
use crate::text::Text;

/// A volume, as responses describe it: `Volume` (CSI specification, 'CreateVolume').
#[derive(Debug, Drop)]
pub struct VolumeInfo {
    /// `capacity_bytes`, field 1: the size of the volume in bytes.
    pub bytes: i64,
    /// `volume_id`, field 2: the id with which later requests name the volume.
    pub id: Text,
    /// `volume_context`, field 3: properties of the volume, for the node plugin.
    pub context: Map,
    /// `accessible_topology`, field 5: the segments of each topology from which the volume is accessible.
    pub topology: Items<Map>,
}

/// A volume in a listing: `ListVolumesResponse.Entry` (CSI specification, 'ListVolumes').
#[derive(Debug, Drop)]
pub struct Entry {
    /// `volume`, field 1: the volume of this entry, or `None` if the field is absent.
    pub volume: Option<VolumeInfo>,
    /// The ids of the nodes that the volume is published to, or `None` if the message `status` (field 2) is
    /// absent. In this message the ids are `published_node_ids`, field 1.
    pub nodes: Option<Items<Text>>,
}

/// The properties of a volume that the plugin confirms: `ValidateVolumeCapabilitiesResponse.Confirmed` (CSI
/// specification, 'ValidateVolumeCapabilities').
#[derive(Debug, Drop)]
pub struct Confirmed {
    /// `volume_context`, field 1: the context that the volume's nodes need. The plugin leaves it empty.
    pub context: Map,
    /// `volume_capabilities`, field 2: the capabilities of the request, which the volume has.
    pub capabilities: Items<Capability>,
    /// `parameters`, field 3: the parameters of the request. They are either empty or equal to the parameters
    /// of the volume.
    pub parameters: Map,
}

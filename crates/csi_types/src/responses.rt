//! The responses of CSI calls: an enum with a variant for each method.

use crate::items::Items;
use crate::map::Map;
use crate::text::Text;
use crate::volume::{Confirmed, Entry, VolumeInfo};

/// The response of a call (CSI specification, 'RPC Interface'). Each variant belongs to one method.
#[derive(Debug, Drop)]
pub enum Response {
    /// `GetPluginInfoResponse`: the name and version of the plugin.
    PluginInfo {
        /// `name`, field 1: the name of the plugin.
        name: Text,
        /// `vendor_version`, field 2: the version of the plugin.
        version: Text,
    },
    /// `GetPluginCapabilitiesResponse`: the optional services that the plugin has. Each number is the
    /// `service.type` of one of `capabilities` (these three fields have the number 1). It is `None` if
    /// `service` is absent.
    PluginCapabilities(Items<Option<i32>>),
    /// `ProbeResponse`: `ready`, field 1, a `google.protobuf.BoolValue`. It is true if the plugin is ready,
    /// and `None` if the field is absent.
    Probe(Option<bool>),
    /// `ControllerGetCapabilitiesResponse`: the optional methods that the Controller service has. Each number
    /// is the `rpc.type` of one of `capabilities` (these three fields have the number 1). It is `None` if
    /// `rpc` is absent.
    ControllerCapabilities(Items<Option<i32>>),
    /// `CreateVolumeResponse`: `volume`, field 1, the volume that was created or existed already. `None`
    /// means that the field is absent.
    Create(Option<VolumeInfo>),
    /// `DeleteVolumeResponse`, without fields: the volume does not exist any more.
    Delete,
    /// `ControllerPublishVolumeResponse`: `publish_context`, field 1, properties for the node plugin.
    Publish(Map),
    /// `ControllerUnpublishVolumeResponse`, without fields: the volume is not published any more.
    Unpublish,
    /// `ValidateVolumeCapabilitiesResponse`: reports if the volume has the capabilities.
    Validate {
        /// `confirmed`, field 1, or `None` if the volume lacks a capability or has other parameters.
        confirmed: Option<Confirmed>,
        /// `message`, field 2: the reason why the capabilities are not confirmed, or an empty text if they
        /// are confirmed.
        message: Text,
    },
    /// `ListVolumesResponse`: a page of the volumes, and the token of the next page.
    List {
        /// `entries`, field 1: the volumes of the page.
        entries: Items<Entry>,
        /// `next_token`, field 2. It is empty on the last page.
        token: Text,
    },
    /// `GetCapacityResponse`: the room for new volumes, in bytes.
    Capacity {
        /// `available_capacity`, field 1: the bytes that new volumes can take.
        available: i64,
        /// `maximum_volume_size`, field 2, a `google.protobuf.Int64Value`: the size in bytes of the largest
        /// volume that can be created. `None` means that the field is absent.
        maximum: Option<i64>,
    },
    /// `ControllerModifyVolumeResponse`, without fields: the volume has the parameters.
    Modify,
}

//! Volumes and attachments, as keepers store them.

use crate::capability::CapKey;
use csi_types::{Items, Map, Text};

/// A volume with everything that a keeper stores about it (CSI 1.x, `Volume` and the request that created
/// it).
#[derive(Debug, Drop)]
pub struct Volume {
    /// The number of the volume, 1 to 2^62 - 1. No other volume ever has the same number, not even after
    /// this volume is deleted.
    pub number: u64,
    /// The name that the volume was created with. No other volume has this name while the volume exists.
    pub name: Text,
    /// The size of the volume in bytes, at most 2^62.
    pub bytes: u64,
    /// The name of the pool that the volume takes its bytes from.
    pub pool: Text,
    /// The keys of the capabilities that the volume was created for, in rising order ([`CapKey`]), without
    /// duplicates.
    pub caps: Items<CapKey>,
    /// The parameters that the volume was created with (`CreateVolumeRequest.parameters`).
    pub params: Map,
    /// The parameters that can be changed while the volume exists (`CreateVolumeRequest.mutable_parameters`,
    /// overwritten by `ControllerModifyVolumeRequest.mutable_parameters`).
    pub mutable: Map,
}

/// The publication of a volume to a node (CSI 1.x, `ControllerPublishVolume`).
#[derive(Debug, Drop)]
pub struct Attachment {
    /// The id of the node, at most 256 bytes.
    pub node: Text,
    /// The key of the capability that the volume is published with. The keys of the volume contain this key
    /// or its wider key ([`has_key`](crate::has_key)).
    pub cap: CapKey,
    /// True if the volume is published as read-only (`ControllerPublishVolumeRequest.readonly`).
    pub readonly: bool,
}

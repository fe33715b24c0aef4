//! The names of the access modes, as `csid` and `csictl` write them.

/// The name of each access mode, at the index that is its number (CSI specification, 'CreateVolume',
/// `VolumeCapability.AccessMode.Mode`). The first, `UNKNOWN`, is not a mode.
pub const MODE_NAMES: [&str; 8] = [
    "UNKNOWN",
    "SINGLE_NODE_WRITER",
    "SINGLE_NODE_READER_ONLY",
    "MULTI_NODE_READER_ONLY",
    "MULTI_NODE_SINGLE_WRITER",
    "MULTI_NODE_MULTI_WRITER",
    "SINGLE_NODE_SINGLE_WRITER",
    "SINGLE_NODE_MULTI_WRITER",
];

//! The capabilities of a volume: its access type and its access mode.

ghost use Rattle.std.specs.Prelude.{◌≡◌};
ghost use Rattle.csi_types.specs.Checks.{is_known_mode, is_supported, is_multi_node_writer};

use crate::boxed::Boxed;
use crate::items::Items;
use crate::limits::MAX_ACCESS_MODE;
use crate::text::Text;

/// How a volume is mounted: `VolumeCapability.MountVolume` (CSI specification, 'CreateVolume').
///
/// Fields: `fs_type` 1, `mount_flags` 2, `volume_mount_group` 3.
#[derive(Debug, Drop)]
pub struct Mount {
    /// The type of the file system. If it is empty, the plugin chooses the type.
    pub fs_type: Text,
    /// The mount options, in the order in which they were sent.
    pub flags: Items<Text>,
    /// The group that owns the mounted files. If it is empty, no group is set.
    pub group: Text,
}

/// How a node accesses a volume: the member of the oneof `VolumeCapability.access_type` (CSI specification,
/// 'CreateVolume').
#[derive(Debug, Drop)]
pub enum Access {
    /// The oneof has no member, so the request is refused.
    Missing,
    /// `block`, field 1: a raw block device.
    Block,
    /// `mount`, field 2: a mounted file system.
    Mount(Boxed<Mount>),
}

/// A way to use a volume: `VolumeCapability` (CSI specification, 'CreateVolume').
#[derive(Debug, Drop)]
pub struct Capability {
    /// The oneof `access_type`, fields 1 and 2: block or mount.
    pub access: Access,
    /// The number of the access mode, known or unknown. It is `None` if the message `access_mode` (field 3)
    /// is absent. In this message the number is `mode`, field 1.
    pub mode: Option<i32>,
}

/// Returns true if an access mode is given and known: 1 to `MAX_ACCESS_MODE`.
pub fn is_known_mode(mode: Option<i32>) -> bool
    ensures { result ≡ is_known_mode mode }
{
    mode.is_some_and(|mode| 1 <= mode && mode <= i32::from(MAX_ACCESS_MODE))
}

/// Returns true if a node may write while other nodes have the volume: `MULTI_NODE_SINGLE_WRITER` (4) or
/// `MULTI_NODE_MULTI_WRITER` (5).
pub fn is_multi_node_writer(mode: Option<i32>) -> bool
    ensures { result ≡ is_multi_node_writer mode }
{
    mode.is_some_and(|mode| mode == 4 || mode == 5)
}

/// Returns true if a volume can be created with the capability (CSI specification, 'CreateVolume'). Block
/// access allows each known mode. Mount access allows the known modes in which no node writes while other
/// nodes have the volume.
pub fn is_supported(capability: &Capability) -> bool
    ensures { result ≡ is_supported capability.now }
{
    let mode = capability.mode;
    match capability.access {
        Access::Missing => false,
        Access::Block => is_known_mode(mode),
        Access::Mount(_) => is_known_mode(mode) && !is_multi_node_writer(mode),
    }
}

//! The limits of requests, configurations and volumes.
//!
//! These are from the CSI specification:
//!
//! - the numbers of the access modes (`VolumeCapability.AccessMode.Mode`)
//! - 128 bytes for a text and 4 KiB for a map ('Size Limits')
//! - 256 bytes for a node id (`NodeGetInfoResponse.node_id`)
//! - 4 KiB for the flags of a mount (`VolumeCapability.MountVolume.mount_flags`)
//!
//! All other limits are this plugin's own.

/// The greatest number of an access mode, `SINGLE_NODE_MULTI_WRITER` (CSI specification, the enum
/// `VolumeCapability.AccessMode.Mode`). The least number is 1.
pub const MAX_ACCESS_MODE: u8 = 7;

/// The greatest length in bytes of most texts: a volume name, a volume id, a token, a file system type, a
/// mount group, the plugin's version, and a key or a value of a segment.
pub const MAX_TEXT_BYTES: usize = 128;

/// The greatest length of a node id in bytes, in requests and in the configuration.
pub const MAX_NODE_ID_BYTES: usize = 256;

/// The greatest length in bytes of all flags of one mount together.
pub const MAX_MOUNT_FLAGS_BYTES: usize = 4096;

/// The greatest length in bytes of all keys and values of one map together.
pub const MAX_MAP_BYTES: usize = 4096;

/// The greatest number of pools of a configuration. The least number is 1.
pub const MAX_POOLS: usize = 16;

/// The greatest number of segments of a pool. A pool may have none.
pub const MAX_SEGMENTS: usize = 8;

/// The greatest number of nodes of a configuration. A configuration may have none.
pub const MAX_NODES: usize = 64;

/// The greatest number of volumes that exist at once, in all pools together.
pub const MAX_VOLUMES: u64 = 100_000;

/// The greatest number of entries on a page of a listing, also if the client asks for more.
pub const MAX_PAGE_ENTRIES: u32 = 100;

/// The greatest size of all pools together, in bytes (4 EiB).
pub const MAX_POOL_BYTES: u64 = 1 << 62;

/// The limit of volume numbers: each volume has a number below this limit. When the next number reaches the
/// limit, no further volume is created.
pub const MAX_NUMBER: u64 = 1 << 62;

const _: () = prove!(MAX_ACCESS_MODE == 7);

const _: () = prove!(MAX_TEXT_BYTES == 128);

const _: () = prove!(MAX_NODE_ID_BYTES == 256);

const _: () = prove!(MAX_MOUNT_FLAGS_BYTES == 4_096);

const _: () = prove!(MAX_MAP_BYTES == 4_096);

const _: () = prove!(MAX_POOLS == 16);

const _: () = prove!(MAX_SEGMENTS == 8);

const _: () = prove!(MAX_NODES == 64);

const _: () = prove!(MAX_VOLUMES == 100_000);

const _: () = prove!(MAX_PAGE_ENTRIES == 100);

const _: () = prove!(MAX_POOL_BYTES == 4_611_686_018_427_387_904);

const _: () = prove!(MAX_NUMBER == 4_611_686_018_427_387_904);

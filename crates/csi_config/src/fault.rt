//! The faults that make a configuration invalid.

use csi_types::Text;
use thiserror::Error;

/// The rules for the default size and the greatest size of a volume. A fault has the rule that a size breaks.
#[derive(Clone, Copy, Debug, Error)]
pub enum SizeRule {
    /// The default size is 0 or not a multiple of 1 MiB.
    #[error("the default size is not a positive multiple of 1048576 bytes")]
    Default,
    /// The greatest size is 0 or not a multiple of 1 MiB.
    #[error("the greatest size is not a positive multiple of 1048576 bytes")]
    Greatest,
    /// The default size is above the greatest size.
    #[error("the default size is above the greatest")]
    Order,
    /// The greatest size is above 2^62 bytes.
    #[error("the greatest size is above 2^62 bytes")]
    Limit,
}

/// The rules for a pool of a configuration. A fault has the rule that the pool breaks.
#[derive(Clone, Copy, Debug, Error)]
pub enum PoolRule {
    /// The name is not 1 to 63 ASCII letters, digits, `-`, `_` and `.`.
    #[error("the name is not 1 to 63 ASCII letters, digits, '-', '_' and '.'")]
    Name,
    /// An earlier pool of the configuration has the same name.
    #[error("an earlier pool has the name")]
    NameTwice,
    /// The size is 0 or not a multiple of 1 MiB.
    #[error("the bytes are not a positive multiple of 1048576")]
    Bytes,
    /// The pool has more than 8 segments.
    #[error("there are more than 8 segments")]
    Segments,
    /// The key of a segment is empty.
    #[error("a segment's key is empty")]
    KeyEmpty,
    /// The key of a segment has more than 128 bytes.
    #[error("a segment's key is longer than 128 bytes")]
    KeyTooLong,
    /// The value of a segment has more than 128 bytes.
    #[error("a segment's value is longer than 128 bytes")]
    ValueTooLong,
    /// Two keys of segments are equal, ignoring the case of ASCII letters.
    #[error("two segments have keys that are equal but for the case of letters")]
    KeysAlike,
}

/// The rules for a node of a configuration. A fault has the rule that the node breaks.
#[derive(Clone, Copy, Debug, Error)]
pub enum NodeRule {
    /// The id is empty, is longer than 256 bytes, or contains a byte below 0x20 or the byte 0x7F.
    #[error("the id is not 1 to 256 bytes without control characters")]
    Id,
    /// An earlier node of the configuration has the same id.
    #[error("an earlier node has the id")]
    IdTwice,
    /// The greatest number of volumes is 0 or above 100,000.
    #[error("the greatest number of volumes is not 1 to 100000")]
    Volumes,
}

/// The reason why a configuration is invalid. Its `Display` names the faulty item and the rule that it
/// breaks.
#[derive(Debug, Drop, Error)]
pub enum ConfigFault {
    /// The plugin's name is not 1 to 63 ASCII letters, digits, `-` and `.`, or its first or last byte is
    /// not a letter or digit.
    #[error("plugin name {name}: it is not 1 to 63 ASCII letters, digits, '-' and '.', the first and the last a letter or digit")]
    PluginName {
        /// The faulty name in the configuration.
        name: Text,
    },
    /// The plugin's version is empty or has more than 128 bytes.
    #[error("the plugin's version is not 1 to 128 bytes")]
    PluginVersion,
    /// The default size or the greatest size of a volume breaks a rule.
    #[error(transparent)]
    Sizes(SizeRule),
    /// The configuration has no pool. It must have at least one.
    #[error("there is no pool")]
    NoPool,
    /// The configuration has more than 16 pools.
    #[error("there are more than 16 pools")]
    TooManyPools,
    /// The sizes of all pools add up to more than 2^62 bytes.
    #[error("the bytes of all pools together are above 2^62")]
    AllBytes,
    /// A pool breaks a rule about its name, its size or its segments.
    #[error("pool {name}: {rule}")]
    Pool {
        /// The name of the pool. If the file gives no name, the number of the pool, counted from 1.
        name: Text,
        /// The first rule that the pool breaks, in the order of [`PoolRule`].
        rule: PoolRule,
    },
    /// The configuration has more than 64 nodes.
    #[error("there are more than 64 nodes")]
    TooManyNodes,
    /// A node breaks a rule about its id or its greatest number of volumes.
    #[error("node {id}: {rule}")]
    Node {
        /// The id of the node. If the file gives no id, the number of the node, counted from 1.
        id: Text,
        /// The first rule that the node breaks, in the order of [`NodeRule`].
        rule: NodeRule,
    },
}

//! The constraints of stored rows, and the report of a broken constraint with its row.

use csi_types::Text;
use thiserror::Error;

/// A constraint that each row of volumes must meet.
#[derive(Clone, Copy, Debug, Error)]
pub enum VolumeConstraint {
    /// The number is at least 1 and below the next number in the table `meta`.
    #[error("its number is not from 1 to below the next number")]
    Number,
    /// CreateVolume accepts the name of the volume.
    #[error("its name is not one that a volume can be made with")]
    Name,
    /// The configuration contains the pool of the volume.
    #[error("its pool is not one of the configuration")]
    Pool,
    /// The size in bytes is a positive multiple of 1 MiB.
    #[error("its bytes are not a positive multiple of 1048576")]
    Bytes,
    /// `caps` encodes at least one capability. The keys of the capabilities rise without duplicates, and each
    /// is supported.
    #[error("its caps are not the bytes of supported capabilities in order")]
    Caps,
    /// `params` encodes the parameters and the mutable parameters, each of at most 4,096 bytes. In tables of
    /// format 1 no parameters are mutable.
    #[error("its params are not the bytes of parameters of at most 4096 bytes")]
    Params,
}

/// A constraint that each row of attachments must meet.
#[derive(Clone, Copy, Debug, Error)]
pub enum AttachmentConstraint {
    /// `cap` encodes exactly one capability, which is supported.
    #[error("its cap is not the bytes of one supported capability")]
    Cap,
    /// `readonly` is 0 or 1, the integers for false and true.
    #[error("its readonly is not 0 or 1")]
    Readonly,
    /// The volume exists and has the capability of the attachment (`csi_keeper::has_key`).
    #[error("no volume of its number has its capability")]
    Owner,
    /// The configuration contains the node of the attachment.
    #[error("its node is not one of the configuration")]
    Node,
    /// The attachment can coexist with each other attachment of its volume.
    #[error("the volume is attached at another node too, and the two cannot have it together")]
    Coexist,
}

/// A constraint that stored rows break. Its `Display` is the line that reports it, with the row, the pool or
/// the node if the constraint is about one.
#[derive(Debug, Drop, Error)]
pub enum BrokenConstraint {
    /// The next number in the table `meta` is not between 1 and 2^62, both included.
    #[error("the next number is not 1 to 2^62")]
    Next,
    /// A row of volumes breaks one of the constraints for volumes.
    #[error("volume {number}: {constraint}")]
    Volume {
        /// The volume's number in the row, or 0 if the value is not an integer.
        number: i64,
        /// The first constraint that the row breaks, in the order in which `csi_adoption` tests them.
        constraint: VolumeConstraint,
    },
    /// The sizes of a pool's volumes add up to more than the size of the pool.
    #[error("pool {name}: its volumes have more bytes than it has")]
    Pool {
        /// The name of the pool whose volumes are too large.
        name: Text,
    },
    /// A row of attachments breaks one of the constraints for attachments.
    #[error("volume {number} at node {node}: {constraint}")]
    Attachment {
        /// The volume's number in the row, or 0 if the value is not an integer.
        number: i64,
        /// The id of the node in the row, or an empty text if the value is not a text in UTF-8.
        node: Text,
        /// The first constraint that the row breaks, in the order in which `csi_adoption` tests them.
        constraint: AttachmentConstraint,
    },
    /// More volumes are attached to a node than the node can have.
    #[error("node {id}: more volumes are attached there than it can have")]
    Node {
        /// The id of the node with too many attached volumes.
        id: Text,
    },
    /// There are more than 100,000 rows of volumes.
    #[error("there are more than 100000 volumes")]
    TooManyVolumes,
}

//! The reasons why a request is refused.

ghost use Rattle.std.specs.Prelude.{◌≡◌};
ghost use Rattle.csi_types.specs.Reasons.{code_of, text_of};

use crate::code::Code;
use std::error::Error;
use std::fmt;

/// The reason why a request is refused. Its `Display` is the text of the reply.
///
/// A message that cannot be decoded is refused without a `Reason`, because the text of its reply contains an
/// offset in the message.
#[derive(Clone, Copy, Debug, PartialEq, Eq)]
pub enum Reason {
    /// `CreateVolumeRequest.name` is empty.
    NameMissing,
    /// `CreateVolumeRequest.name` has more than 128 bytes.
    NameTooLong,
    /// `CreateVolumeRequest.name` has a control character other than tab, line feed and carriage return.
    NameBanned,
    /// No volume capability is given to CreateVolume, ControllerPublishVolume or ValidateVolumeCapabilities.
    CapabilityMissing,
    /// A volume capability has neither `block` nor `mount`.
    AccessTypeMissing,
    /// The access mode of a volume capability is absent or unknown.
    AccessModeUnknown,
    /// CreateVolume asks for a capability that no volume can have.
    CapabilityNotSupported,
    /// `required_bytes` or `limit_bytes` is below 0.
    CapacityNegative,
    /// The keys and values of a map have more than 4,096 bytes together.
    MapTooLarge,
    /// An id, a token, a file system type or a mount group is longer than its limit, or all flags of a mount
    /// together are longer than their limit.
    TextTooLong,
    /// `volume_content_source` is present, but this plugin cannot copy volumes or snapshots.
    SourceNotSupported,
    /// Two keys of one topology differ only in the case of ASCII letters.
    TopologyKeysAlike,
    /// Requisite topologies are given, and a preferred topology is not among them.
    PreferredNotRequisite,
    /// `volume_id` is empty.
    VolumeIdMissing,
    /// `ControllerPublishVolumeRequest.node_id` is empty.
    NodeIdMissing,
    /// `ListVolumesRequest.max_entries` (field 1) is below 0.
    MaxEntriesNegative,
    /// `ControllerModifyVolumeRequest.mutable_parameters` has no entry.
    MutableMissing,
    /// No method has the path of the call.
    UnknownMethod,
    /// No volume has the id in the request.
    VolumeNotFound,
    /// No node of the configuration has the id in the request.
    NodeNotFound,
    /// A volume with this name exists, and differs from what the request asks for.
    VolumeNotCompatible,
    /// No pool both has room for the volume and serves a topology of the request. If the request has no
    /// requisite topology, no pool at all has room.
    NoRoom,
    /// The plugin has 100,000 volumes, which is the greatest number.
    TooManyVolumes,
    /// The volume numbers are used up, so no further volume can be created.
    NumbersUsedUp,
    /// No size is within both the requested capacity range and the sizes of this plugin.
    OutOfRange,
    /// The volume cannot be deleted, since it is published to a node.
    VolumeInUse,
    /// The volume is published to another node, and cannot be published to the requested node as well.
    PublishedElsewhere,
    /// The volume is published to the requested node already, with another capability or another `readonly`
    /// flag.
    PublishedOtherwise,
    /// The node already has its greatest number of published volumes (`max_volumes` in the configuration).
    NodeFull,
    /// The volume does not have the requested capability.
    CapabilityNotOfVolume,
    /// `starting_token` is neither empty nor a number that is at least 1 and below the next volume number.
    BadToken,
    /// With the requested changes, the mutable parameters of the volume would have more than 4,096 bytes.
    MutableTooLarge,
    /// The body of the reply would be longer than 4,194,304 bytes.
    ReplyTooLarge,
    /// Memory was refused while the call was decoded or executed. No change is visible, but a change of the
    /// call may be visible after a restart.
    OutOfMemory,
    /// The store refused a read or a change of the call. No change is visible. But if the store refused a
    /// change, the change may be visible after a restart.
    StoreRefused,
    /// A change of an earlier call failed, perhaps only for lack of memory. The store takes no call until it
    /// is opened again.
    StoreDown,
}

impl Reason {
    /// Returns the status code of the reply to a request that is refused for this reason.
    pub fn code(self) -> Code
        ensures { result ≡ code_of self }
    {
        match self {
            Reason::NameMissing
            | Reason::NameTooLong
            | Reason::NameBanned
            | Reason::CapabilityMissing
            | Reason::AccessTypeMissing
            | Reason::AccessModeUnknown
            | Reason::CapabilityNotSupported
            | Reason::CapacityNegative
            | Reason::MapTooLarge
            | Reason::TextTooLong
            | Reason::SourceNotSupported
            | Reason::TopologyKeysAlike
            | Reason::PreferredNotRequisite
            | Reason::VolumeIdMissing
            | Reason::NodeIdMissing
            | Reason::MaxEntriesNegative
            | Reason::MutableMissing
            | Reason::CapabilityNotOfVolume
            | Reason::MutableTooLarge => Code::InvalidArgument,
            Reason::VolumeNotFound | Reason::NodeNotFound => Code::NotFound,
            Reason::VolumeNotCompatible | Reason::PublishedOtherwise => Code::AlreadyExists,
            Reason::NoRoom
            | Reason::TooManyVolumes
            | Reason::NumbersUsedUp
            | Reason::NodeFull
            | Reason::ReplyTooLarge => Code::ResourceExhausted,
            Reason::VolumeInUse | Reason::PublishedElsewhere => Code::FailedPrecondition,
            Reason::BadToken => Code::Aborted,
            Reason::OutOfRange => Code::OutOfRange,
            Reason::UnknownMethod => Code::Unimplemented,
            Reason::OutOfMemory | Reason::StoreRefused | Reason::StoreDown => Code::Internal,
        }
    }

    /// Returns the text of the reply to a request that is refused for this reason.
    pub fn text(self) -> &'static str
        ensures { result.now ≡ text_of self }
    {
        match self {
            Reason::NameMissing => "name is missing",
            Reason::NameTooLong => "name is longer than 128 bytes",
            Reason::NameBanned => "name holds a banned character",
            Reason::CapabilityMissing => "volume capability is missing",
            Reason::AccessTypeMissing => "access type is missing",
            Reason::AccessModeUnknown => "access mode is missing or unknown",
            Reason::CapabilityNotSupported => "volume capability is not supported",
            Reason::CapacityNegative => "capacity is negative",
            Reason::MapTooLarge => "map is larger than 4096 bytes",
            Reason::TextTooLong => "text is too long",
            Reason::SourceNotSupported => "content source is not supported",
            Reason::TopologyKeysAlike => "topology keys are alike",
            Reason::PreferredNotRequisite => "preferred topology is not requisite",
            Reason::VolumeIdMissing => "volume id is missing",
            Reason::NodeIdMissing => "node id is missing",
            Reason::MaxEntriesNegative => "max_entries is negative",
            Reason::MutableMissing => "mutable parameters are missing",
            Reason::UnknownMethod => "unknown method",
            Reason::VolumeNotFound => "volume not found",
            Reason::NodeNotFound => "node not found",
            Reason::VolumeNotCompatible => "volume exists and is not compatible",
            Reason::NoRoom => "no room in the topology",
            Reason::TooManyVolumes => "too many volumes",
            Reason::NumbersUsedUp => "volume numbers are used up",
            Reason::OutOfRange => "capacity is out of range",
            Reason::VolumeInUse => "volume is in use",
            Reason::PublishedElsewhere => "volume is published elsewhere",
            Reason::PublishedOtherwise => "volume is published otherwise",
            Reason::NodeFull => "node is full",
            Reason::CapabilityNotOfVolume => "volume does not have this capability",
            Reason::BadToken => "bad starting token",
            Reason::MutableTooLarge => "mutable parameters are too large",
            Reason::ReplyTooLarge => "reply too large",
            Reason::OutOfMemory => "out of memory",
            Reason::StoreRefused => "store refused",
            Reason::StoreDown => "store is down",
        }
    }
}

// Written by hand and not derived, so that `text` has the only copy of each text.
impl fmt::Display for Reason {
    fn fmt<W: fmt::Write>(&self, f: &mut fmt::Formatter<W>) -> fmt::Result {
        f.write_str(self.text())
    }
}

impl Error for Reason {}

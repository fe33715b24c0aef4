//! The keys of capabilities: how a volume can be used.

ghost use Rattle.std.specs.Prelude.{◌≡◌, Some, IfOk};
ghost use Rattle.csi_keeper.specs.Capability.{kind_cmp, mode_of, key_with, key_of, access_of, capability_of, is_supported_key, same_kind, same_key, wider_mode, wider_key, is_key, has_same, has_key};

use csi_types::{
    Access, Boxed, Capability, Items, Mount, Text, is_known_mode, is_multi_node_writer,
};
use std::alloc::{AllocError, Global};
use std::cmp::Ordering;

/// How a volume is offered to its user (CSI 1.x, `VolumeCapability.access_type`).
#[derive(Debug, Drop)]
pub enum Kind {
    /// A raw block device (`BlockVolume`).
    Block,
    /// A file system of this type (`MountVolume.fs_type`, at most 128 bytes in a request). If the text is
    /// empty, the plugin chooses the type.
    Mount(Text),
}

/// The key of a capability: its access type and its access mode.
///
/// Mount flags and the mount group are not part of the key, so two capabilities that differ only in these
/// have the same key. Block keys come before mount keys in the order of keys. Mount keys are ordered by the
/// bytes of their file system type. Keys with the same access type are ordered by the number of the mode.
#[derive(Debug, Drop)]
pub struct CapKey {
    /// The access type: block, or mount with a file system type.
    pub kind: Kind,
    /// The number of the access mode (CSI 1.x, `VolumeCapability.AccessMode.Mode`), which must be a known
    /// mode.
    pub mode: u8,
}

fn is_same_kind(one: &Kind, other: &Kind) -> bool
    ensures { result ≡ same_kind one.now other.now }
{
    match (one, other) {
        (Kind::Block, Kind::Block) => true,
        (Kind::Mount(one), Kind::Mount(other)) => one == other,
        _ => false,
    }
}

fn is_same_key(one: &CapKey, other: &CapKey) -> bool
    ensures { result ≡ same_key one.now other.now }
{
    is_same_kind(&one.kind, &other.kind) && one.mode == other.mode
}

fn kind_cmp(one: &Kind, other: &Kind) -> Ordering
    ensures { result ≡ kind_cmp one.now other.now }
{
    match (one, other) {
        (Kind::Block, Kind::Block) => Ordering::Equal,
        (Kind::Block, Kind::Mount(_)) => Ordering::Less,
        (Kind::Mount(_), Kind::Block) => Ordering::Greater,
        (Kind::Mount(one), Kind::Mount(other)) => one.cmp(other),
    }
}

impl PartialEq for CapKey {
    ghost use Rattle.csi_keeper.specs.Capability.{same_key};
    ghost use Rattle.csi_keeper.specs.Order.{key_per};

    ghost eq = { same_key };

    ghost laws = { key_per };

    fn eq(&self, other: &Self) -> bool {
        is_same_key(self, other)
    }
}

impl Eq for CapKey {
    ghost use Rattle.csi_keeper.specs.Order.{key_equiv};

    ghost laws = { key_equiv };
}

impl PartialOrd for CapKey {
    ghost use Rattle.std.specs.Ordering.{as_partial_cmp};
    ghost use Rattle.csi_keeper.specs.Capability.{key_cmp};
    ghost use Rattle.csi_keeper.specs.Order.{key_order};

    ghost partial_cmp = { as_partial_cmp key_cmp };

    ghost laws = { key_order };

    fn partial_cmp(&self, other: &Self) -> Option<Ordering> {
        Some(self.cmp(other))
    }
}

impl Ord for CapKey {
    ghost use Rattle.std.specs.Prelude.{refl};
    ghost use Rattle.csi_keeper.specs.Capability.{key_cmp};
    ghost use Rattle.csi_keeper.specs.Order.{key_total, keys_tie};

    ghost cmp = { key_cmp };

    ghost total = { key_total };

    ghost matches_partial_cmp = { λ x y. refl };

    ghost matches_eq = { λ x y. keys_tie x y };

    fn cmp(&self, other: &Self) -> Ordering {
        kind_cmp(&self.kind, &other.kind).then(self.mode.cmp(&other.mode))
    }
}

// Returns the mode that is wider than `mode`, or `None` if no mode is wider. CSI 1.5 split
// `SINGLE_NODE_WRITER` (1) into `SINGLE_NODE_SINGLE_WRITER` (6) and `SINGLE_NODE_MULTI_WRITER` (7), so mode 1
// is wider than these two.
fn wider_mode(mode: u8) -> Option<u8>
    ensures { result ≡ wider_mode mode }
{
    if mode == 6 || mode == 7 {
        Some(1)
    } else {
        None
    }
}

/// Returns the key with the same access type and the wider mode, or `None` if no mode is wider. Only
/// `SINGLE_NODE_SINGLE_WRITER` and `SINGLE_NODE_MULTI_WRITER` have a wider mode, `SINGLE_NODE_WRITER`. A
/// volume with the wider key can be used in each way that `key` allows.
pub fn wider_key(key: CapKey) -> Option<CapKey>
    ensures { result ≡ wider_key key }
{
    match wider_mode(key.mode) {
        Some(mode) => Some(CapKey {
            kind: key.kind,
            mode,
        }),
        None => None,
    }
}

// Returns true if `own` is the wider key of `key`.
fn is_wider(own: &CapKey, key: &CapKey) -> bool
    ensures { result ≡ is_key (wider_key key.now) own.now }
{
    match wider_mode(key.mode) {
        Some(mode) => is_same_kind(&key.kind, &own.kind) && mode == own.mode,
        None => false,
    }
}

fn has_same(keys: &[CapKey], key: &CapKey) -> bool
    ensures { result ≡ has_same keys.now (Some key.now) }
{
    keys.iter().any(|own| key == own)
}

fn has_wider(keys: &[CapKey], key: &CapKey) -> bool
    ensures { result ≡ has_same keys.now (wider_key key.now) }
{
    keys.iter().any(|own| is_wider(own, key))
}

/// Returns true if a list of keys contains this key or its wider key ([`wider_key`]).
pub fn has_key(keys: &[CapKey], key: &CapKey) -> bool
    ensures { result ≡ has_key keys.now (Some key.now) }
{
    has_same(keys, key) || has_wider(keys, key)
}

/// Returns true if a volume can be created with this key (CSI specification, 'CreateVolume'). Block access
/// allows each known mode. Mount access allows each known mode except `MULTI_NODE_SINGLE_WRITER` and
/// `MULTI_NODE_MULTI_WRITER`, in which a node may write while other nodes have the volume.
pub fn supported(key: &CapKey) -> bool
    ensures { result ≡ is_supported_key key.now }
{
    let mode = Some(i32::from(key.mode));
    match key.kind {
        Kind::Block => is_known_mode(mode),
        Kind::Mount(_) => is_known_mode(mode) && !is_multi_node_writer(mode),
    }
}

// Returns the number of an access mode, or `None` if the mode is missing or unknown.
fn mode_of(mode: Option<i32>) -> Option<u8>
    ensures { result ≡ mode_of mode }
{
    match mode {
        Some(number) => if is_known_mode(mode) {
            Some(number as u8)
        } else {
            None
        },
        None => None,
    }
}

fn key_with(alloc: Global, access: &Access, mode: u8) -> Result<Option<CapKey>, AllocError>
    ensures { IfOk result (λ key. key ≡ key_with access.now (Some mode)) }
{
    let kind = match access {
        Access::Missing => return Ok(None),
        Access::Block => Kind::Block,
        Access::Mount(mount) => Kind::Mount(mount.get().fs_type.copy(alloc)?),
    };
    Ok(Some(CapKey { kind, mode }))
}

/// Returns the key of a capability, or `None` if it has no access type or its mode is missing or unknown.
///
/// # Errors
///
/// If memory is refused.
pub fn cap_key(alloc: Global, capability: &Capability) -> Result<Option<CapKey>, AllocError>
    ensures { IfOk result (λ key. key ≡ key_of capability.now) }
{
    match mode_of(capability.mode) {
        Some(mode) => key_with(alloc, &capability.access, mode),
        None => Ok(None),
    }
}

fn access_of(alloc: Global, kind: &Kind) -> Result<Access, AllocError>
    ensures { IfOk result (λ access. access ≡ access_of kind.now) }
{
    match kind {
        Kind::Block => Ok(Access::Block),
        Kind::Mount(fs_type) => {
            let mount = Mount {
                fs_type: fs_type.copy(alloc)?,
                flags: Items::new(alloc),
                group: Text::new(alloc),
            };
            Ok(Access::Mount(Boxed::new(alloc, mount)?))
        }
    }
}

/// Makes a capability that has this key, without mount flags and mount group.
///
/// # Errors
///
/// If memory is refused.
pub fn capability_of(alloc: Global, key: &CapKey) -> Result<Capability, AllocError>
    ensures { IfOk result (λ capability. capability ≡ capability_of key.now) }
{
    Ok(Capability {
        access: access_of(alloc, &key.kind)?,
        mode: Some(i32::from(key.mode)),
    })
}

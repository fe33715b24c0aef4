//! Encodes capabilities for the column `caps`, and parameters with mutable parameters for the column
//! `params`. Each column has the canonical bytes of a `CreateVolumeRequest` in which all other fields are
//! absent.
//!
//! So the format of a column depends on the field numbers of this request. A change of how the fields are
//! encoded needs a migration of every file.

ghost use Rattle.std.specs.Prelude.{◌≡◌, ◌++◌, IfOk, OnOk};
ghost use Rattle.pbmessage.specs.Canon.{bytes_of};
ghost use Rattle.pbmessage.specs.Kept.{Keeps};
ghost use Rattle.csi_codec.specs.messages.Capability.{canon_access, FitsAccess};
ghost use Rattle.csi_keeper.specs.Capability.{access_of};
ghost use Rattle.csi_columns.specs.Encoding.{caps_bytes, params_bytes, FitCaps, FitParams};

use csi_keeper::{CapKey, Kind};
use csi_types::{Map, Text};
use pbmessage::{Written, put_map, put_message, put_presence, put_text};
use std::alloc::{AllocError, Global};

// The bytes that are reserved for each encoded capability. A block capability takes 8 bytes. A mount with a
// file system type takes the bytes of the type and at least 10 more.
const KEY_BYTES: usize = 16;

// Marks messages that are encoded from borrowed parts, without a copy of the parts.
struct Borrowed;

// A `VolumeCapability.MountVolume` that has only the field for the file system type.
#[derive(Drop)]
struct BorrowedMount<'a> {
    fs_type: &'a Text,
}

impl Written<Borrowed> for BorrowedMount<'_> {
    ghost use Rattle.std.specs.Prelude.{[]};
    ghost use Rattle.csi_codec.specs.messages.Capability.{canon_mount, FitsMount};

    ghost canon = { λ m. canon_mount (record { fs_type = m.fs_type.now; flags = []; group = [] }) };

    ghost fits = { λ m. FitsMount (record { fs_type = m.fs_type.now; flags = []; group = [] }) };

    fn write(&self, out: &mut Vec<u8>) -> Result<(), AllocError> {
        put_text(out, 1, self.fs_type)
    }
}

// Appends the field `VolumeCapability.access_type` of a capability: block, or mount with its file system
// type.
#[tactic(auto, unfolding(pbmessage::specs::Canon::row_fields))]
fn put_kind(out: &mut Vec<u8>, kind: &Kind) -> Result<(), AllocError>
    ensures ok { OnOk result (out.new.items
        ≡ out.old.items ++ bytes_of (canon_access (access_of kind.now))) }
    ensures fitting { OnOk result (FitsAccess (access_of kind.now)) }
    ensures kept { Keeps out.old.items out.new.items }
{
    match kind {
        Kind::Block => put_presence(out, 1, true),
        Kind::Mount(fs_type) => put_message(out, 2, &BorrowedMount { fs_type }),
    }
}

// A `VolumeCapability` that has this key, and no mount flags and no mount group.
#[derive(Drop)]
struct BorrowedKey<'a> {
    key: &'a CapKey,
}

impl Written<Borrowed> for BorrowedKey<'_> {
    ghost use Rattle.csi_codec.specs.messages.Capability.{canon_capability, FitsCapability};
    ghost use Rattle.csi_keeper.specs.Capability.{capability_of};

    ghost canon = { λ k. canon_capability (capability_of k.key.now) };

    ghost fits = { λ k. FitsCapability (capability_of k.key.now) };

    fn write(&self, out: &mut Vec<u8>) -> Result<(), AllocError> {
        put_kind(out, &self.key.kind)?;
        put_message(out, 3, &i32::from(self.key.mode))
    }
}

// Appends the capability of each key as field 3 of a `CreateVolumeRequest`.
#[tactic(auto, unfolding(pbmessage::specs::Canon::row_fields))]
fn put_keys(out: &mut Vec<u8>, keys: &[CapKey]) -> Result<(), AllocError>
    ensures bytes { OnOk result (out.new.items ≡ out.old.items ++ caps_bytes keys.now) }
    ensures fits { OnOk result (FitCaps keys.now) }
{
    for key in keys {
        put_message(out, 3, &BorrowedKey { key })?;
    }
    Ok(())
}

/// Encodes the capabilities with these keys into the canonical bytes of the column `caps`.
///
/// # Errors
///
/// If memory is refused.
pub fn write_caps(alloc: Global, keys: &[CapKey]) -> Result<Vec<u8>, AllocError>
    ensures bytes { IfOk result (λ out. out.items ≡ caps_bytes keys.now) }
    ensures fits { OnOk result (FitCaps keys.now) }
{
    let mut out = Vec::with_capacity(alloc, keys.len().saturating_mul(KEY_BYTES))?;
    put_keys(&mut out, keys)?;
    Ok(out)
}

/// Encodes parameters and mutable parameters into the canonical bytes of the column `params`. Each of the two
/// maps adds no bytes if it is empty.
///
/// # Errors
///
/// If memory is refused.
#[tactic(auto, using(crate::specs::facts::Writing::params_written))]
pub fn write_params(alloc: Global, params: &Map, mutable: &Map) -> Result<Vec<u8>, AllocError>
    ensures bytes { IfOk result (λ out. out.items ≡ params_bytes params.now mutable.now) }
    ensures fits { OnOk result (FitParams params.now mutable.now) }
{
    let mut out = Vec::new(alloc);
    put_map(&mut out, 4, params)?;
    put_map(&mut out, 8, mutable)?;
    Ok(out)
}

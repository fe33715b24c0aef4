//! The response of CreateVolume, encoded from borrowed parts.

ghost use Rattle.std.specs.Prelude.{◌≡◌, ◌++◌, OnOk, OnErr, Some};
ghost use Rattle.csi_types.specs.declared.responses.Response.TheVariants as response;
ghost use Rattle.pbwire.specs.Writing.{spellings};
ghost use Rattle.pbmessage.specs.Canon.{row_fields, messages_row};
ghost use Rattle.csi_codec.specs.Created.{created_volume, topology_of};
ghost use Rattle.pbmessage.specs.Kept.{Keeps};
ghost use Rattle.csi_codec.specs.Methods.{response_bytes, FitsResponse};
ghost use Rattle.csi_codec.specs.messages.Topology.{canon_map, FitsTerms};

use crate::messages::Csi;
use csi_types::Map;
use pbmessage::{Written, put_joined, put_message, put_signed, put_single, whole_or_none};
use std::alloc::AllocError;

/// A volume as CreateVolume returns it, both if the call created the volume and if it existed already (CSI
/// specification, `CreateVolumeResponse.volume`). All parts are borrowed.
#[derive(Drop)]
pub struct CreatedVolume<'a> {
    /// `capacity_bytes`: the size of the volume in bytes.
    pub bytes: i64,
    /// The first part of the volume's id: the id is `prefix` followed by `suffix`.
    pub prefix: &'a str,
    /// The last part of the volume's id.
    pub suffix: &'a str,
    /// The key of the one entry of `volume_context`.
    pub key: &'a str,
    /// The value of the one entry of `volume_context`.
    pub value: &'a str,
    /// The segments of `accessible_topology`. If they are empty, the volume has no topology.
    pub segments: &'a Map,
}

// Appends the topology that has these segments. Appends nothing if there are no segments.
#[tactic(auto, unfolding(pbmessage::specs::Canon::row_fields))]
fn put_topology(out: &mut Vec<u8>, segments: &Map) -> Result<(), AllocError>
    ensures ok { OnOk result (out.new.items
        ≡ out.old.items ++ spellings (row_fields (messages_row canon_map 5 (topology_of segments.now)))) }
    ensures fitting { OnOk result (FitsTerms (topology_of segments.now)) }
    ensures kept { Keeps out.old.items out.new.items }
{
    if segments.is_empty() {
        return Ok(());
    }
    put_message(out, 5, segments)
}

impl Written<Csi> for CreatedVolume<'_> {
    ghost use Rattle.csi_codec.specs.messages.Volume.{canon_volume, FitsVolume};
    ghost use Rattle.csi_codec.specs.Created.{created_volume};

    ghost canon = { λ v. canon_volume (created_volume v) };

    ghost fits = { λ v. FitsVolume (created_volume v) };

    fn write(&self, out: &mut Vec<u8>) -> Result<(), AllocError> {
        put_signed(out, 1, self.bytes)?;
        put_joined(out, 2, self.prefix, self.suffix)?;
        put_single(out, 3, self.key, self.value)?;
        put_topology(out, self.segments)?;
        Ok(())
    }
}

/// Appends the encoded response of CreateVolume with this volume.
///
/// # Errors
///
/// If memory is refused. The vector is unchanged.
#[tactic(auto, unfolding(pbmessage::specs::Canon::row_fields, crate::specs::Methods::response_bytes, crate::specs::Methods::FitsResponse))]
pub fn encode_created(volume: &CreatedVolume, out: &mut Vec<u8>) -> Result<(), AllocError>
    ensures ok { OnOk result (out.new.items
        ≡ out.old.items ++ response_bytes (response.Create (Some (created_volume volume.now)))) }
    ensures fitting { OnOk result (FitsResponse (response.Create (Some (created_volume volume.now)))) }
    ensures err { OnErr result (out.new.items ≡ out.old.items) }
    ensures kept { Keeps out.old.items out.new.items }
{
    let from = out.len();
    let written = put_message(out, 1, volume);
    whole_or_none(out, from, written)
}

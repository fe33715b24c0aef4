//! Entries of ListVolumes, encoded from borrowed parts.

ghost use Rattle.std.specs.Prelude.{◌≡◌, ◌++◌, ◌∷◌, [], OnErr, OnOk};
ghost use Rattle.csi_types.specs.declared.responses.Response.TheVariants as response;
ghost use Rattle.pbmessage.specs.Canon.{bytes_of, payload_fields, FitsInner, FitsTexts};
ghost use Rattle.pbmessage.specs.Kept.{Keeps};
ghost use Rattle.csi_codec.specs.Listing.{listed_entry};
ghost use Rattle.csi_codec.specs.Methods.{response_bytes, FitsResponse};
ghost use Rattle.csi_codec.specs.messages.Volume.{canon_nodes};

use crate::messages::Csi;
use crate::placement::{Placement, put_placement};
use crate::short::{BUFFER_BYTES, put_short};
use csi_types::{Items, Text};
use itoa::Buffer;
use pbmessage::{Written, put_joined, put_message, put_signed, whole_or_none};
use pbwire::laws::short;
use std::alloc::AllocError;

// A volume with the context and topology of its pool.
#[derive(Drop)]
struct PlacedVolume<'a> {
    bytes: i64,
    prefix: &'a str,
    suffix: &'a str,
    placement: &'a Placement,
}

impl Written<Csi> for PlacedVolume<'_> {
    ghost use Rattle.std.specs.Prelude.{◌++◌};
    ghost use Rattle.csi_codec.specs.messages.Volume.{canon_volume, FitsVolume};
    ghost use Rattle.csi_codec.specs.Listing.{placed_volume};

    ghost canon = { λ v. canon_volume (placed_volume v.bytes
        (v.prefix.now ++ v.suffix.now) v.placement.now) };

    ghost fits = { λ v. FitsVolume (placed_volume v.bytes (v.prefix.now ++ v.suffix.now) v.placement.now) };

    fn write(&self, out: &mut Vec<u8>) -> Result<(), AllocError> {
        put_signed(out, 1, self.bytes)?;
        put_joined(out, 2, self.prefix, self.suffix)?;
        put_placement(out, self.placement)
    }
}

/// An entry of ListVolumes (CSI specification, `ListVolumesResponse.Entry`). All parts are borrowed.
#[derive(Drop)]
pub struct ListedEntry<'a> {
    /// `capacity_bytes`: the size of the volume in bytes.
    pub bytes: i64,
    /// The part of the volume's id before its number.
    pub prefix: &'a str,
    /// The number of the volume. The id is `prefix` followed by the decimal digits of the number.
    pub number: u64,
    /// The context and the topology of the volume's pool, already encoded.
    pub placement: &'a Placement,
    /// The ids of the nodes to which the volume is published, in the order in which they are encoded.
    pub nodes: &'a Items<Text>,
}

impl Written<Csi> for ListedEntry<'_> {
    ghost use Rattle.csi_codec.specs.messages.Volume.{canon_entry, FitsEntry};
    ghost use Rattle.csi_codec.specs.Listing.{listed_entry};

    ghost canon = { λ e. canon_entry (listed_entry e) };

    ghost fits = { λ e. FitsEntry (listed_entry e) };

    fn write(&self, out: &mut Vec<u8>) -> Result<(), AllocError> {
        let mut buffer = Buffer::new();
        let volume = PlacedVolume {
            bytes: self.bytes,
            prefix: self.prefix,
            suffix: buffer.format(self.number),
            placement: self.placement,
        };
        put_message(out, 1, &volume)?;
        put_message(out, 2, self.nodes)
    }
}

/// Appends an entry, encoded as a `ListVolumesResponse` that has only this entry. So a whole response is the
/// encodings of its entries, in the order of the page, and then the encoding of its token.
///
/// # Errors
///
/// If memory is refused. The vector is unchanged.
#[inline(always)]
#[tactic(auto, using(crate::specs::facts::Listing::entries_only), unfolding(crate::specs::Methods::FitsResponse))]
pub fn encode_entry(entry: &ListedEntry, out: &mut Vec<u8>) -> Result<(), AllocError>
    ensures ok { OnOk result (out.new.items
        ≡ out.old.items ++ response_bytes (response.List (listed_entry entry.now ∷ []) [])) }
    ensures fitting { OnOk result (FitsResponse (response.List (listed_entry entry.now ∷ []) [])) }
    ensures err { OnErr result (out.new.items ≡ out.old.items) }
    ensures kept { Keeps out.old.items out.new.items }
{
    short();
    if entry.nodes.is_empty() {
        let mut buffer = [0; BUFFER_BYTES];
        if let Some(start) = put_short(&mut buffer, entry) {
            return out.extend_from_slice(&buffer[start..]);
        }
    }
    let from = out.len();
    let written = put_message(out, 1, entry);
    whole_or_none(out, from, written)
}

//! Writes the entries of a page of a listing while the volumes are read, without a list of the volumes.

ghost use Rattle.std.specs.Prelude.{◌≡◌, ◌++◌, ◌∷◌, [], OnOk};
ghost use Rattle.pbmessage.specs.Kept.{Keeps};
ghost use Rattle.csi_codec.specs.Methods.{response_bytes};
ghost use Rattle.csi_types.specs.declared.responses.Response.TheVariants as response;
ghost use Rattle.csi_config.specs.declared.config.Config.{Config as AnyConfig};
ghost use Rattle.csi_keeper.specs.Listing.{row_reported};
ghost use Rattle.csi_machine.specs.Places.{ArePlaced, IsPlaced, entry_at};

use crate::places::{PoolPlacement, placement_named, placement_of};
use csi_codec::{ListedEntry, encode_entry};
use csi_config::Config;
use csi_keeper::{ListedRow, PageFold};
use csi_rules::{ID_PREFIX, signed};
use std::alloc::{AllocError, Global};

// Appends the entry of a volume, whose pool has this placement.
fn put_placed(
    row: &ListedRow<'_>,
    place: &PoolPlacement,
    out: &mut Vec<u8>,
) -> Result<(), AllocError>
    ensures ok { OnOk result ((config : AnyConfig) → IsPlaced config place.now
        → place.now.pool ≡ row.now.pool.now
        → out.new.items ≡ out.old.items ++ response_bytes
        (response.List (entry_at config (row_reported row.now) ∷ []) [])) }
    ensures kept { Keeps out.old.items out.new.items }
{
    let entry = ListedEntry {
        bytes: signed(row.bytes),
        prefix: ID_PREFIX,
        number: row.number,
        placement: &place.placement,
        nodes: row.nodes,
    };
    encode_entry(&entry, out)
}

// Appends the entry of the first volume of a pool, and keeps the pool's placement for the later volumes.
#[inline(never)]
fn put_first(
    alloc: Global,
    config: &Config,
    places: &mut Vec<PoolPlacement>,
    row: &ListedRow<'_>,
    out: &mut Vec<u8>,
) -> Result<(), AllocError>
    ensures ok { OnOk result (out.new.items
        ≡ out.old.items
        ++ response_bytes (response.List (entry_at config.now (row_reported row.now) ∷ []) [])) }
    ensures placed { ArePlaced config.now places.old.items
        → OnOk result (ArePlaced config.now places.new.items) }
    ensures kept { Keeps out.old.items out.new.items }
{
    let place = placement_of(alloc, config, row.pool)?;
    put_placed(row, &place, out)?;
    places.push(place)?;
    Ok(())
}

// Appends the entry of a volume. Encodes the placement of the volume's pool if the page has no volume of this
// pool yet.
#[inline(always)]
fn put_row(
    alloc: Global,
    config: &Config,
    places: &mut Vec<PoolPlacement>,
    row: &ListedRow<'_>,
    out: &mut Vec<u8>,
) -> Result<(), AllocError>
    ensures ok { ArePlaced config.now places.old.items
        → OnOk result (out.new.items ≡ out.old.items
        ++ response_bytes (response.List (entry_at config.now (row_reported row.now) ∷ []) [])) }
    ensures placed { ArePlaced config.now places.old.items
        → OnOk result (ArePlaced config.now places.new.items) }
    ensures kept { Keeps out.old.items out.new.items }
{
    match placement_named(places, row.pool) {
        Some(place) => put_placed(row, place, out),
        None => put_first(alloc, config, places, row, out),
    }
}

/// A page of a listing that is being written.
#[derive(Drop)]
pub(crate) struct Page<'a> {
    pub(crate) alloc: Global,
    pub(crate) config: &'a Config,
    /// The encoded context and topology of each pool that a volume of the page is in.
    pub(crate) places: Vec<PoolPlacement>,
    /// The number of the last volume on the page. While the page is empty, the number after which the page
    /// begins.
    pub(crate) last: u64,
    /// The body of the reply, to which the entries are appended.
    pub(crate) body: Vec<u8>,
}

impl PageFold for Page<'_> {
    ghost use Rattle.csi_machine.specs.Pages.{HasWritten};
    ghost use Rattle.csi_machine.specs.facts.Pages.{written_none, body_stays};

    ghost folds = { λ first rows now. ArePlaced first.config.now first.places.items
        → HasWritten first rows now };

    ghost keeps = { λ first now. Keeps first.body.items now.body.items };

    ghost starts = { λ page. written_none page };

    ghost stays = { λ page. body_stays page };

    #[inline(always)]
    fn add(&mut self, row: &ListedRow<'_>) -> Result<(), AllocError> {
        put_row(
            self.alloc,
            self.config,
            &mut self.places,
            row,
            &mut self.body,
        )?;
        self.last = row.number;
        Ok(())
    }
}

/// A [`PageFold`] that only finds out if a page has any volume.
#[derive(Drop)]
pub(crate) struct AnyVolume {
    /// True after a volume was added. Initially false.
    pub(crate) is_any: bool,
}

impl PageFold for AnyVolume {
    ghost use Rattle.std.specs.Prelude.{refl, ◌||◌};
    ghost use Rattle.csi_machine.specs.Pages.{is_any};

    ghost folds = { λ first rows now. now.is_any ≡ (is_any rows || first.is_any) };

    ghost keeps = { λ _ _. Unit {0} };

    ghost starts = { λ first. refl };

    ghost stays = { λ first. tt };

    fn add(&mut self, _row: &ListedRow<'_>) -> Result<(), AllocError> {
        self.is_any = true;
        Ok(())
    }
}

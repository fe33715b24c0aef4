//! The form in which a volume is kept in memory.

ghost use Rattle.std.specs.Prelude.{◌≡◌, IfOk};
ghost use Rattle.csi_keeper.specs.Listing.{listed_at, row_reported};
ghost use Rattle.csi_maps.specs.Stored.{as_volume};

use crate::compact::CompactMap;
use csi_keeper::{CapKey, ListedRow, Volume, copy_keys};
use csi_types::{Items, Text};
use std::alloc::{AllocError, Global};

/// A volume without its number. The number is the key under which the map has the volume.
///
/// The tree of the map has room for up to twice as many rows as it contains. So each byte of this struct can
/// take two bytes of memory.
#[derive(Drop)]
pub struct StoredVolume {
    /// The name of the volume. No other volume has the same name.
    pub name: Text,
    /// The size of the volume in bytes.
    pub bytes: u64,
    /// The name of the pool that the volume takes its bytes from.
    pub pool: Text,
    pub(crate) caps: Items<CapKey>,
    pub(crate) params: CompactMap,
    pub(crate) mutable: CompactMap,
}

impl StoredVolume {
    /// Makes the stored form of a volume, without its number. The fields of the volume are moved and not
    /// copied.
    ///
    /// # Errors
    ///
    /// If memory is refused. The volume is dropped.
    pub fn new(alloc: Global, volume: Volume) -> Result<StoredVolume, AllocError>
        ensures { IfOk result (λ stored. as_volume volume.number stored ≡ volume) }
    {
        Ok(StoredVolume {
            name: volume.name,
            bytes: volume.bytes,
            pool: volume.pool,
            caps: volume.caps,
            params: CompactMap::new(alloc, volume.params)?,
            mutable: CompactMap::new(alloc, volume.mutable)?,
        })
    }

    /// Copies the volume, and gives the copy this number.
    ///
    /// # Errors
    ///
    /// If memory is refused.
    pub(crate) fn copy(&self, alloc: Global, number: u64) -> Result<Volume, AllocError>
        ensures { IfOk result (λ volume. volume ≡ as_volume number self.now) }
    {
        Ok(Volume {
            number,
            name: self.name.copy(alloc)?,
            bytes: self.bytes,
            pool: self.pool.copy(alloc)?,
            caps: copy_keys(alloc, &self.caps)?,
            params: self.params.copy(alloc)?,
            mutable: self.mutable.copy(alloc)?,
        })
    }

    /// Borrows the part of the volume that a listing shows, as an entry with this number and these nodes.
    #[inline(always)]
    pub(crate) fn listed_at<'a>(&'a self, number: u64, nodes: &'a Items<Text>) -> ListedRow<'a>
        ensures { row_reported result ≡ listed_at (as_volume number self.now) nodes.now }
    {
        ListedRow {
            number,
            bytes: self.bytes,
            pool: &self.pool,
            nodes,
        }
    }
}

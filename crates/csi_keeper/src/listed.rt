//! The entries of a listing of volumes.

ghost use Rattle.std.specs.Prelude.{◌≡◌, IfOk};
ghost use Rattle.csi_keeper.specs.Listing.{listed_at, listed_each, row_reported};

use crate::volume::Volume;
use csi_types::{Items, Text};
use std::alloc::{AllocError, Global};

/// The part of a volume that a listing shows (CSI 1.x, `ListVolumesResponse.Entry`).
#[derive(Drop)]
pub struct Listed {
    /// The number of the volume, which its id contains.
    pub number: u64,
    /// The size of the volume in bytes.
    pub bytes: u64,
    /// The name of the pool that the volume takes its bytes from.
    pub pool: Text,
    /// The ids of the nodes that the volume is published to, in byte order.
    pub nodes: Items<Text>,
}

impl Listed {
    /// Borrows the fields as a [`ListedRow`], without copying them.
    #[inline(always)]
    pub fn lent(&self) -> ListedRow<'_>
        ensures { row_reported result ≡ self.now }
    {
        ListedRow {
            number: self.number,
            bytes: self.bytes,
            pool: &self.pool,
            nodes: &self.nodes,
        }
    }
}

/// The part of a volume that a listing shows, borrowed: the fields of [`Listed`].
#[derive(Drop)]
pub struct ListedRow<'a> {
    /// The number of the volume, which its id contains.
    pub number: u64,
    /// The size of the volume in bytes.
    pub bytes: u64,
    /// The name of the pool that the volume takes its bytes from.
    pub pool: &'a Text,
    /// The ids of the nodes that the volume is published to, in byte order.
    pub nodes: &'a Items<Text>,
}

/// A page of volumes, and the nodes that each volume is published to.
#[derive(Drop)]
pub struct PageWithNodes {
    /// The volumes of the page, in rising order of their numbers.
    pub volumes: Items<Volume>,
    /// For each volume, in the same order, the ids of the nodes that it is published to, in byte order.
    pub nodes: Items<Items<Text>>,
}

/// Makes the listing entry of a volume that is published to `nodes`.
///
/// # Errors
///
/// If memory is refused.
#[inline(always)]
pub fn listed_at(alloc: Global, volume: &Volume, nodes: Items<Text>) -> Result<Listed, AllocError>
    ensures { IfOk result (λ reported. reported ≡ listed_at volume.now nodes) }
{
    Ok(Listed {
        number: volume.number,
        bytes: volume.bytes,
        pool: volume.pool.copy(alloc)?,
        nodes,
    })
}

/// Makes the listing entries of volumes. The volume at an index is published to the nodes at the same index
/// in `nodes`. If one list is longer, its additional elements are ignored.
///
/// # Errors
///
/// If memory is refused.
pub fn listed_each(
    alloc: Global,
    volumes: &[Volume],
    nodes: Items<Items<Text>>,
) -> Result<Items<Listed>, AllocError>
    ensures { IfOk result (λ reported. reported ≡ listed_each volumes.now nodes) }
{
    let mut rest = nodes.into_vec().into_iter();
    let mut listed = Items::with_room(alloc, volumes.len())?;
    for volume in volumes {
        let Some(published) = rest.next() else {
            return Ok(listed);
        };
        listed.push(listed_at(alloc, volume, published)?)?;
    }
    Ok(listed)
}

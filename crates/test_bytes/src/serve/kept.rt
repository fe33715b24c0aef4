//! Writes the State of a keeper as a text.

use csi_keeper::{Keeper, StoreFault};
use std::alloc::Global;
use std::fmt::Write;
use test_kit::RowFault;

// The greatest number of volumes that the text shows. No stream has more.
const MOST_VOLUMES: u32 = 100_000;

/// Returns the State of a keeper as a text: the number that the next volume gets, and each volume with all
/// its fields and its attachments.
///
/// # Errors
///
/// If memory is refused.
pub(crate) fn kept<K: Keeper>(alloc: Global, keeper: &mut K) -> Result<String, RowFault> {
    let next = keeper.next_number().map_err(refused)?;
    let volumes = keeper.page(alloc, 0, MOST_VOLUMES).map_err(refused)?;
    let mut text = format!(in alloc; "next {next}")?;
    for volume in volumes.as_slice() {
        let attachments = keeper.attachments(alloc, volume.number).map_err(refused)?;
        let attachments = attachments.as_slice();
        write!(text, ", {volume:?} at {attachments:?}")?;
    }
    Ok(text)
}

// Converts a refused read. The keepers of these trials refuse a read only if memory is refused.
fn refused(_fault: StoreFault) -> RowFault {
    RowFault::NoMemory
}

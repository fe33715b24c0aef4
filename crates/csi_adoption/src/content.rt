//! The counts of the rows of adopted tables.

ghost use Rattle.std.specs.Prelude.{◌≡◌};

use crate::adopting::TablesSeen;
use crate::meta::Meta;
use csi_constraints::TextSum;

/// The counts of the rows of adopted tables, and the next number. The scans that check the rows count them.
#[derive(Clone, Copy, Debug)]
pub struct Content {
    /// The number of rows in the table of volumes. Adopted tables have at most 100,000.
    pub volumes: u64,
    /// The number of rows in the table of attachments, or the greatest `u64` if there are more.
    pub attachments: u64,
    /// The number that the next volume gets, from 1 to 2^62. At 2^62 no further volume can be created.
    pub next_number: u64,
}

impl Content {
    /// The counts of new tables: no volumes, no attachments, and 1 as the next number.
    pub(crate) const NEW: Content = Content {
        volumes: 0,
        attachments: 0,
        next_number: 1,
    };
}

// Returns the sum over all nodes, or the greatest `u64` if the sum is greater.
fn total(sums: &[TextSum]) -> u64 {
    let mut total = 0u64;
    for part in sums {
        total = total.saturating_add(part.sum);
    }
    total
}

/// Returns the counts of tables that were checked.
pub(crate) fn content_of(tables: &TablesSeen, meta: Meta) -> Content
    ensures volumes { result.volumes ≡ tables.now.volumes.rows }
    ensures next_number { result.next_number ≡ meta.next }
{
    Content {
        volumes: tables.volumes.rows,
        attachments: total(tables.attachments.node_volumes.as_slice()),
        next_number: meta.next,
    }
}

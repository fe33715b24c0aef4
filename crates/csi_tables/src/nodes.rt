//! Finds the nodes of the volumes of a page in one list of places. A place is a row with the number of a
//! volume and the id of a node.

ghost use Rattle.std.specs.Prelude.{◌≡◌, ◌≢◌, ◌==◌, ◌<◌, ◌≤◌, ℕ, List, IfOk, IsErrOf, length, drop, filter, map, nat_lt, take};
ghost use Rattle.csi_keeper.specs.State.{AttachmentKey};
ghost use Rattle.csi_tables.specs.Places.{place_row, nodes_at, IsRisen, AreRising, AreTexts};
ghost use Rattle.csi_tables.specs.Reading.{AreNodesOf, ShowNodes};
ghost use Rattle.csi_tables.specs.declared.fault.TablesFault.TheVariants.{Refused};

use crate::fault::TablesError;
use crate::rows::{number_in, text_in};
use csi_types::{Items, Text};
use sqlite::Row;
use std::alloc::Global;

// Returns the nodes of the volume with this number, and the count of rows in `places` whose number is at most
// this number. The numbers of the rows must rise.
fn nodes_of(alloc: Global, places: &[Row], number: u64) -> Result<(Items<Text>, usize), TablesError>
    ensures nodes { IfOk result (λ found. (ps : List AttachmentKey) → IsRisen ps
        → places.now ≡ map place_row ps → found.0 ≡ nodes_at ps number) }
    ensures passed { IfOk result (λ found. (ps : List AttachmentKey) → IsRisen ps
        → places.now ≡ map place_row ps
        → drop found.1 ps ≡ filter (λ p. nat_lt number p.0) ps) }
    ensures within { IfOk result (λ found. found.1 ≤ length places.now) }
    ensures exact { IfOk result (λ found. ShowNodes number (take found.1 places.now) found.0) }
    ensures refused { IsErrOf result Refused → (ps : List AttachmentKey) → AreTexts ps
        → places.now ≢ map place_row ps }
{
    let mut nodes = Items::new(alloc);
    for (passed, row) in places.iter().enumerate() {
        let at = number_in(row, 0)?;
        if at > number {
            return Ok((nodes, passed));
        }
        if at == number {
            nodes.push(text_in(row, 1)?)?;
        }
    }
    Ok((nodes, places.len()))
}

/// Returns the nodes of each volume in `numbers`. The nodes of a volume are in the order of their rows. The
/// numbers in `numbers` must rise, and so must the numbers of the rows, so that each row is read once.
pub(crate) fn nodes_of_each(
    alloc: Global,
    numbers: &[u64],
    places: &[Row],
) -> Result<Items<Items<Text>>, TablesError>
    ensures nodes { IfOk result (λ all. (ps : List AttachmentKey) → IsRisen ps → AreRising numbers.now
        → places.now ≡ map place_row ps
        → all ≡ map (nodes_at ps) numbers.now) }
    ensures exact { IfOk result (λ all. AreNodesOf numbers.now places.now all) }
    ensures refused { IsErrOf result Refused → (ps : List AttachmentKey) → IsRisen ps → AreRising numbers.now
        → AreTexts ps → places.now ≢ map place_row ps }
{
    let mut all = Items::new(alloc);
    let mut rest = places;
    for number in numbers {
        let (nodes, passed) = nodes_of(alloc, rest, *number)?;
        all.push(nodes)?;
        let (_, behind) = rest.split_at(passed);
        rest = behind;
    }
    Ok(all)
}

//! The size of a map in bytes.

ghost use Rattle.std.specs.Prelude.{◌≡◌, ◌^◌, ◌-◌, min};
ghost use Rattle.csi_types.specs.Checks.{map_bytes};

use crate::map::Map;

fn entries_bytes(map: &Map) -> usize
    ensures { result ≡ min (map_bytes map.now) (2 ^ 64 - 1) }
{
    let mut bytes: usize = 0;
    for (key, value) in map.iter() {
        bytes = bytes.saturating_add(key.len()).saturating_add(value.len());
    }
    bytes
}

/// Returns the sum of the lengths in bytes of all keys and values of the map, or 2^64 - 1 if the sum is
/// greater.
#[inline]
pub fn map_bytes(map: &Map) -> usize
    ensures { result ≡ min (map_bytes map.now) (2 ^ 64 - 1) }
{
    // Most maps have no entry.
    if map.is_empty() {
        return 0;
    }
    entries_bytes(map)
}

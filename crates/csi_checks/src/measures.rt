//! Compares the sizes of parts of a request with their limits.

ghost use Rattle.std.specs.Prelude.{◌≡◌, ◌^◌, ◌-◌, ◌==◌, min, nat_lt, length, sum_by};
ghost use Rattle.std.specs.FinMap.{len};
ghost use Rattle.csi_types.specs.Checks.{map_bytes, is_negative, is_negative_range};
ghost use Rattle.std.specs.List.{list_any};
ghost use Rattle.csi_types.specs.Names.{is_empty, longer_than};

use csi_types::{
    CapacityRange, Items, MAX_MAP_BYTES, MAX_NODE_ID_BYTES, MAX_TEXT_BYTES, Map, Text, map_bytes,
};

/// Returns true if a text of the list is empty.
pub(crate) fn is_any_empty(texts: &[Text]) -> bool
    ensures { result ≡ list_any is_empty texts.now }
{
    texts.iter().any(Text::is_empty)
}

/// Returns true if a text has more than 128 bytes.
pub(crate) fn is_long_text(text: &Text) -> bool
    ensures { result ≡ longer_than MAX_TEXT_BYTES text.now }
{
    text.len() > MAX_TEXT_BYTES
}

/// Returns true if a text of the list has more than 128 bytes.
pub(crate) fn is_any_long(texts: &[Text]) -> bool
    ensures { result ≡ list_any (longer_than MAX_TEXT_BYTES) texts.now }
{
    texts.iter().any(is_long_text)
}

/// Returns true if a node id of the list has more than 256 bytes.
pub(crate) fn is_any_long_node_id(ids: &[Text]) -> bool
    ensures { result ≡ list_any (longer_than MAX_NODE_ID_BYTES) ids.now }
{
    ids.iter().any(|id| id.len() > MAX_NODE_ID_BYTES)
}

/// Returns true if the keys and values of a map have more than 4,096 bytes together.
pub(crate) fn is_large_map(map: &Map) -> bool
    ensures { result ≡ nat_lt MAX_MAP_BYTES (map_bytes map.now) }
{
    map_bytes(map) > MAX_MAP_BYTES
}

/// Returns the number of bytes of all texts together, or 2^64 - 1 if there are more.
pub(crate) fn bytes_of_texts(texts: &Items<Text>) -> usize
    ensures { result ≡ min (sum_by length texts.now) (2 ^ 64 - 1) }
{
    let mut bytes: usize = 0;
    for text in texts.as_slice() {
        bytes = bytes.saturating_add(text.len());
    }
    bytes
}

/// Returns true if one of the capacity ranges has a negative number.
pub(crate) fn is_any_negative(ranges: &[CapacityRange]) -> bool
    ensures { result ≡ list_any is_negative_range ranges.now }
{
    ranges
        .iter()
        .any(|range| range.required < 0 || range.limit < 0)
}

/// Returns true if a number of the list is below 0.
pub(crate) fn is_any_below_zero(numbers: &[i32]) -> bool
    ensures { result ≡ list_any is_negative numbers.now }
{
    numbers.iter().any(|number| *number < 0)
}

/// Returns true if a map of the list has no entry.
pub(crate) fn is_any_without_entry(maps: &[Map]) -> bool
    ensures { result ≡ list_any (λ m. len m == 0) maps.now }
{
    maps.iter().any(Map::is_empty)
}

//! Chooses the size of a new volume, and compares the size of an existing volume with a requested range.

ghost use Rattle.std.specs.Prelude.{◌≡◌, ◌<◌, ◌≤◌, ◌^◌};
ghost use Rattle.csi_rules.specs.Size.{whole, rounded_down, requested_bytes, size_by, size, has_size};

use csi_config::{GRANULE_BYTES, Sizes};
use csi_types::CapacityRange;

/// Returns the number as unsigned, or 0 if it is negative.
fn whole(number: i64) -> u64
    ensures value { result ≡ whole number }
    ensures fits { result < 2 ^ 63 }
{
    if number < 0 { 0 } else { number as u64 }
}

fn rounded_down(bytes: u64) -> u64
    ensures value { result ≡ rounded_down bytes }
    ensures most { result ≤ bytes }
{
    bytes / GRANULE_BYTES * GRANULE_BYTES
}

fn requested_bytes(sizes: &Sizes, required: u64, limit: u64) -> u64
    requires { required < 2 ^ 63 }
    ensures { result ≡ requested_bytes sizes.now required limit }
{
    if required > 0 {
        rounded_down(required + (GRANULE_BYTES - 1))
    } else if limit > 0 {
        sizes.default_bytes.min(rounded_down(limit))
    } else {
        sizes.default_bytes
    }
}

fn size_by(sizes: &Sizes, required: u64, limit: u64) -> Option<u64>
    requires { required < 2 ^ 63 }
    ensures { result ≡ size_by sizes.now required limit }
{
    let bytes = requested_bytes(sizes, required, limit);
    // The comparison of `required` never makes a difference, since `bytes` is at least as great.
    let is_within = bytes > 0
        && (limit == 0 || bytes <= limit)
        && bytes <= sizes.greatest_bytes
        && required <= sizes.greatest_bytes;
    if is_within { Some(bytes) } else { None }
}

/// Returns the size in bytes of a new volume for the requested range (CSI specification, 'CreateVolume',
/// `CapacityRange`).
///
/// If the range requires a size, the result is the required size, rounded up to a multiple of 1 MiB. If the
/// range has only a limit, the result is the smaller of the default size and the limit, rounded down to a
/// multiple of 1 MiB. With neither, or without a range, the result is the default size. A required size or a
/// limit of 0 or below counts as absent.
///
/// Returns `None` if this size is 0, above the limit or above the greatest size of a volume.
pub fn size(sizes: &Sizes, range: &Option<CapacityRange>) -> Option<u64>
    ensures { result ≡ size sizes.now range.now }
{
    match range {
        Some(range) => size_by(sizes, whole(range.required), whole(range.limit)),
        None => size_by(sizes, 0, 0),
    }
}

/// Returns true if the size of a volume, in bytes, is within the requested range, or if no range is
/// requested.
pub fn has_size(bytes: u64, range: &Option<CapacityRange>) -> bool
    ensures { result ≡ has_size bytes range.now }
{
    match range {
        Some(range) => {
            let limit = whole(range.limit);
            whole(range.required) <= bytes && (limit == 0 || bytes <= limit)
        }
        None => true,
    }
}

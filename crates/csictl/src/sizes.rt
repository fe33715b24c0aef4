//! Writes sizes for people, and parses the sizes that people write.

ghost use Rattle.std.specs.Prelude.{◌≡◌, ◌*◌, IfSome, pos};

use command_line::is_decimal;
use std::alloc::{AllocError, Global};

// A unit of size: its name, and its size in bytes.
#[derive(Clone, Copy)]
struct Unit {
    name: &'static str,
    bytes: u64,
}

// The units of a size, with the names that kubectl uses. No unit in the list ends with an earlier unit, so
// the first unit at the end of a text is the unit of the text.
const UNITS: [Unit; 13] = [
    Unit {
        name: "Ki",
        bytes: 1 << 10,
    },
    Unit {
        name: "Mi",
        bytes: 1 << 20,
    },
    Unit {
        name: "Gi",
        bytes: 1 << 30,
    },
    Unit {
        name: "Ti",
        bytes: 1 << 40,
    },
    Unit {
        name: "Pi",
        bytes: 1 << 50,
    },
    Unit {
        name: "Ei",
        bytes: 1 << 60,
    },
    Unit {
        name: "k",
        bytes: 1_000,
    },
    Unit {
        name: "K",
        bytes: 1_000,
    },
    Unit {
        name: "M",
        bytes: 1_000_000,
    },
    Unit {
        name: "G",
        bytes: 1_000_000_000,
    },
    Unit {
        name: "T",
        bytes: 1_000_000_000_000,
    },
    Unit {
        name: "P",
        bytes: 1_000_000_000_000_000,
    },
    Unit {
        name: "E",
        bytes: 1_000_000_000_000_000_000,
    },
];

// Returns a number of units in bytes, or `None` if the result does not fit an `int64`.
fn product(number: u64, unit: u64) -> Option<i64>
    ensures exact { IfSome result (λ bytes. bytes ≡ pos (number * unit)) }
{
    let bytes = number.checked_mul(unit)?;
    i64::try_from(bytes).ok()
}

fn number_of(digits: &str) -> Option<u64> {
    if !is_decimal(digits) {
        return None;
    }
    digits.parse::<u64>().ok()
}

// Parses a number with at most one digit after a point, and returns the number of its tenths: 15 for `1.5`.
// Returns `None` for any other text.
fn tenths_of(number: &str) -> Option<u64> {
    let Some((whole, tenth)) = number.split_once('.') else {
        return number_of(number)?.checked_mul(10);
    };
    if tenth.len() != 1 {
        return None;
    }
    number_of(whole)?
        .checked_mul(10)?
        .checked_add(number_of(tenth)?)
}

// Returns a number of units in bytes. One space at the end of the number is allowed. Returns `None` if the
// text is not a number, or the result is not a whole number of bytes below 2^63.
fn units_of(number: &str, unit: u64) -> Option<i64> {
    let number = number.strip_suffix(' ').unwrap_or(number);
    if let Some(units) = number_of(number) {
        return product(units, unit);
    }
    let tenths = u128::from(tenths_of(number)?).checked_mul(u128::from(unit))?;
    if tenths % 10 != 0 {
        return None;
    }
    i64::try_from(tenths / 10).ok()
}

// Returns the bytes of a size: a number with a unit of `UNITS`, with the unit `B`, or without a unit. Returns
// `None` for any other text, and if the size is not a whole number of bytes below 2^63.
fn bytes_of_plain(text: &str) -> Option<i64> {
    for unit in &UNITS {
        if let Some(number) = text.strip_suffix(unit.name) {
            return units_of(number, unit.bytes);
        }
    }
    units_of(text.strip_suffix('B').unwrap_or(text), 1)
}

/// Returns the bytes of a size: a number and at most one unit, such as `1Gi`, `500M`, `1048576` or, as
/// listings show it, `1.5 GiB`. Returns `None` if the text is not a size, the size is not a whole number of
/// bytes, or it does not fit an `int64`.
pub(crate) fn bytes_of(text: &str) -> Option<i64> {
    match text.strip_suffix('B') {
        Some(rest) if rest.ends_with('i') => bytes_of_plain(rest),
        _ => bytes_of_plain(text),
    }
}

/// Returns a size as a text in a binary unit, such as `1.5 GiB`. The unit is the greatest one that is at most
/// the size and shows it exactly with at most one decimal. If there is none, and for a negative size, the
/// text is in bytes.
pub(crate) fn size_text(alloc: Global, bytes: i64) -> Result<String, AllocError> {
    match u64::try_from(bytes) {
        Ok(count) => command_line::size_text(alloc, count),
        Err(_) => format!(in alloc; "{bytes} B"),
    }
}

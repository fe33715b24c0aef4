//! Writes sizes for people, such as `1.5 MiB`.

ghost use Rattle.std.specs.Prelude.{◌≡◌, IfOk, codes};
ghost use Rattle.std.specs.String.{string_bytes};
ghost use Rattle.command_line.specs.Sizes.{binary_size, half, halves_or_none, halves_text, size_text};

use std::alloc::{AllocError, Global};

// A unit of size: its name, and half of its size in bytes.
#[derive(Clone, Copy)]
struct Unit {
    name: &'static str,
    half: u64,
}

// The units of sizes, from the greatest to the least.
const SHOWN: [Unit; 6] = [
    Unit {
        name: "EiB",
        half: 1 << 59,
    },
    Unit {
        name: "PiB",
        half: 1 << 49,
    },
    Unit {
        name: "TiB",
        half: 1 << 39,
    },
    Unit {
        name: "GiB",
        half: 1 << 29,
    },
    Unit {
        name: "MiB",
        half: 1 << 19,
    },
    Unit {
        name: "KiB",
        half: 1 << 9,
    },
];

// Returns a size in halves of a unit, or `None` if the size is less than a unit or not a whole number of
// halves.
fn halves_of(bytes: u64, half: u64) -> Option<u64>
    ensures { result ≡ halves_or_none bytes half }
{
    let halves = bytes.checked_div(half)?;
    if halves > 1 && bytes % half == 0 {
        Some(halves)
    } else {
        None
    }
}

// Returns the digits after the number of whole units: `.5` if the number of halves is odd, otherwise an empty
// text.
fn half_of(halves: u64) -> &'static str
    ensures { result.now ≡ half halves }
{
    if halves % 2 == 0 { "" } else { ".5" }
}

fn in_halves(alloc: Global, halves: u64, unit: &str) -> Result<String, AllocError>
    ensures { IfOk result (λ text. string_bytes text ≡ halves_text halves unit.now) }
{
    let whole = halves / 2;
    let half = half_of(halves);
    format!(in alloc; "{whole}{half} {unit}")
}

// Returns a size as a text in the first of these units that is at most the size and shows it exactly with at
// most one decimal. If there is none, the text is in bytes.
fn text_in(alloc: Global, units: &[Unit], bytes: u64) -> Result<String, AllocError>
    ensures { IfOk result (λ text. string_bytes text ≡ size_text units.now bytes) }
{
    for unit in units {
        if let Some(halves) = halves_of(bytes, unit.half) {
            return in_halves(alloc, halves, unit.name);
        }
    }
    format!(in alloc; "{bytes} B")
}

/// Returns a size as a text in a binary unit, such as `1 GiB` or `1.5 MiB`. The unit is the greatest one that
/// is at most the size and shows it exactly with at most one decimal. If there is none, the text is in bytes,
/// such as `1000 B`.
///
/// # Errors
///
/// If memory is refused.
pub fn size_text(alloc: Global, bytes: u64) -> Result<String, AllocError>
    ensures ok { IfOk result (λ text. string_bytes text ≡ binary_size bytes) }
{
    text_in(alloc, &SHOWN, bytes)
}

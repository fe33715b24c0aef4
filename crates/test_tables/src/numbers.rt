//! Parses numbers in test rows that have an upper limit.

ghost use Rattle.std.specs.Prelude.{◌<◌, ◌^◌, IfOk};

use test_kit::{RowFault, number_at};

/// Returns the number in the word with index `place`, or fails with [`RowFault::NotRow`] if the word is not a
/// number below 2^62.
pub(crate) fn small_at(words: &[&str], place: usize) -> Result<u64, RowFault>
    ensures { IfOk result (λ number. number < 2 ^ 62) }
{
    let number = number_at(words, place)?;
    if number < 1 << 62 {
        Ok(number)
    } else {
        Err(RowFault::NotRow)
    }
}

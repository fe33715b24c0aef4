//! Answers rows about values and configurations.

mod configs;
mod values;

use crate::words::first_word;
use configs::{config_answer, sample_answer};
use std::alloc::Global;
use test_kit::{RowFault, words_of};
use values::{
    capability_answer, code_answer, list_answer, map_answer, method_answer, name_answer,
    over_answer, reason_answer, text_answer,
};

/// Answers a row about values or configurations. The first word names the question, such as `code` or `map`,
/// and the rest of the row is its arguments.
///
/// # Errors
///
/// If the row has no such form, or memory is refused.
pub(crate) fn answer(alloc: Global, row: &str) -> Result<String, RowFault> {
    let (kind, rest) = first_word(row)?;
    let words = words_of(alloc, rest)?;
    let words = words.as_slice();
    match kind {
        "code" => code_answer(alloc, words),
        "reason" => reason_answer(alloc, words),
        "method" => method_answer(alloc, words),
        "name" => name_answer(alloc, words),
        "text" => text_answer(alloc, words),
        "list" => list_answer(alloc, words),
        "map" => map_answer(alloc, words),
        "over" => over_answer(alloc, words),
        "capability" => capability_answer(alloc, words),
        "sample" => sample_answer(alloc),
        _ => config_answer(alloc, kind, words),
    }
}

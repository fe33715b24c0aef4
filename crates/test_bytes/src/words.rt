//! Splits rows at their first word, and finds methods by their names.

use csi_types::{Method, method_named};
use std::alloc::Global;
use test_kit::RowFault;

/// Splits a row at its first space. Returns the first word and the rest of the row.
///
/// # Errors
///
/// `NotRow` if the row has no space.
pub(crate) fn first_word(row: &str) -> Result<(&str, &str), RowFault> {
    row.split_once(' ').ok_or(RowFault::NotRow)
}

/// Returns the method with this name, such as `CreateVolume`.
///
/// # Errors
///
/// If no method has this name, or memory is refused.
pub(crate) fn named(alloc: Global, name: &str) -> Result<Method, RowFault> {
    method_named(alloc, name)?.ok_or(RowFault::Refused("no such method"))
}

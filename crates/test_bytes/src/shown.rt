//! Turns values into the texts of answers. Each function is generic, and takes its value by reference.

use std::alloc::Global;
use std::fmt::{Debug, Display};
use test_kit::RowFault;

/// Returns the text that a value's `Display` writes.
pub(crate) fn displayed<T: Display>(alloc: Global, value: &T) -> Result<String, RowFault> {
    Ok(format!(in alloc; "{value}")?)
}

/// Returns the text that a value's `Debug` writes: the value as a Rust expression.
pub(crate) fn in_rust<T: Debug>(alloc: Global, value: &T) -> Result<String, RowFault> {
    Ok(format!(in alloc; "{value:?}")?)
}

//! Reads the cells of a row by the types of their values.

ghost use Rattle.std.specs.Prelude.{◌≡◌, Some, option_copied};
ghost use Rattle.std.specs.Str.{is_utf8};
ghost use Rattle.sqlite.specs.Order.{column};
ghost use Rattle.csi_constraints.specs.Folds.{as_integer};
ghost use Rattle.csi_constraints.specs.Kinds.{is_blob, is_integer, is_text};
ghost use Rattle.csi_constraints.specs.Values.{if_passes};

use csi_sql::values::text_at;
use sqlite::Row;
use sqlite::types::ValueRef;
use std::str;

/// Returns the integer in column `at`, counted from 0, or `None` if the column has no integer.
pub fn integer_at(row: &Row, at: usize) -> Option<i64>
    ensures { result ≡ as_integer (column row.now at) }
{
    match row.get_ref(at) {
        Ok(ValueRef::Int(integer)) => Some(integer),
        _ => None,
    }
}

/// Returns true if the value in column `at`, counted from 0, is an integer.
pub(crate) fn has_integer(row: &Row, at: usize) -> bool
    ensures { result ≡ is_integer (column row.now at) }
{
    matches!(row.get_ref(at), Ok(ValueRef::Int(_)))
}

/// Returns the bytes as a text, or `None` if they are not UTF-8.
pub(crate) fn as_utf8(bytes: &[u8]) -> Option<&str>
    ensures { option_copied result ≡ if_passes is_utf8 (Some bytes.now) }
{
    match str::from_utf8(bytes) {
        Ok(text) => Some(text),
        Err(_) => None,
    }
}

fn is_utf8(bytes: &[u8]) -> bool
    ensures { result ≡ is_utf8 bytes.now }
{
    str::from_utf8(bytes).is_ok()
}

/// Returns true if the value in column `at`, counted from 0, is a text in UTF-8.
pub(crate) fn has_text(row: &Row, at: usize) -> bool
    ensures { result ≡ is_text (column row.now at) }
{
    match text_at(row, at) {
        Some(bytes) => is_utf8(bytes),
        None => false,
    }
}

/// Returns true if the value in column `at`, counted from 0, is a blob.
pub(crate) fn has_blob(row: &Row, at: usize) -> bool
    ensures { result ≡ is_blob (column row.now at) }
{
    matches!(row.get_ref(at), Ok(ValueRef::Blob(_)))
}

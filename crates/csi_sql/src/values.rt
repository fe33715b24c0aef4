//! Converts numbers and flags to values of a statement, and decodes the cells of a row.

ghost use Rattle.std.specs.Prelude.{◌≡◌, ◌<◌, ◌^◌, option_copied, slice_get, IfSome};
ghost use Rattle.sqlite.specs.Order.{column};
ghost use Rattle.sqlite_value.specs.Value.{owned};
ghost use Rattle.csi_sql.specs.Cells.{as_blob, as_flag, as_number, as_text};
ghost use Rattle.csi_sql.specs.Rows.{bool_value, number_value};

use sqlite::Row;
use sqlite::types::ValueRef;

/// Converts a number to an integer of SQL. The number must be below 2^63, because SQL has no greater
/// integers.
pub(crate) fn integer(number: u64) -> ValueRef<'static>
    requires { number < 2 ^ 63 }
    ensures { owned result ≡ number_value number }
{
    ValueRef::Int(number as i64)
}

/// Converts a flag to an integer of SQL: 0 for false, 1 for true.
pub(crate) fn flag(is_true: bool) -> ValueRef<'static>
    ensures { owned result ≡ bool_value is_true }
{
    ValueRef::Int(if is_true { 1 } else { 0 })
}

/// Returns the integer in column `at`, counted from 0, or `None` if the value is not an integer or is
/// negative.
pub fn number_at(row: &Row, at: usize) -> Option<u64>
    ensures value { result ≡ as_number (column row.now at) }
    ensures range { IfSome result (λ number. number < 2 ^ 63) }
{
    match row.get_ref(at) {
        Ok(ValueRef::Int(number)) if number >= 0 => Some(number as u64),
        _ => None,
    }
}

/// Returns the flag in column `at`, counted from 0: 0 is false and 1 is true. Returns `None` for any other
/// value.
pub fn flag_at(row: &Row, at: usize) -> Option<bool>
    ensures { result ≡ as_flag (column row.now at) }
{
    match row.get_ref(at) {
        Ok(ValueRef::Int(0)) => Some(false),
        Ok(ValueRef::Int(1)) => Some(true),
        _ => None,
    }
}

/// Returns the bytes of the text in column `at`, counted from 0, or `None` if the value is not a text.
pub fn text_at(row: &Row, at: usize) -> Option<&[u8]>
    ensures { option_copied result ≡ as_text (column row.now at) }
{
    match row.get_ref(at) {
        Ok(ValueRef::Text(bytes)) => Some(bytes),
        _ => None,
    }
}

/// Returns the bytes of the BLOB in column `at`, counted from 0, or `None` if the value is not a BLOB.
pub fn blob_at(row: &Row, at: usize) -> Option<&[u8]>
    ensures { option_copied result ≡ as_blob (column row.now at) }
{
    match row.get_ref(at) {
        Ok(ValueRef::Blob(bytes)) => Some(bytes),
        _ => None,
    }
}

/// Returns the first row, or `None` if there are no rows.
pub(crate) fn first(rows: Vec<Row>) -> Option<Row>
    ensures { result ≡ slice_get rows.items 0 }
{
    rows.into_iter().next()
}

//! Writes rows of a database as a text.

use sqlite::Row;
use sqlite::types::ValueRef;
use std::alloc::{AllocError, Global};
use std::str;

/// Returns the text for the cell with index `at` of a row, or `none` if the row has no such cell. An integer
/// is written in decimal, and a text between single quotation marks (`'not UTF-8'` if it is not UTF-8). Bytes
/// are written as `x` and hexadecimal digits, each real number as the word `real`, and a null as `NULL`.
pub(crate) fn cell_text(alloc: Global, row: &Row, at: usize) -> Result<String, AllocError> {
    match row.get_ref(at) {
        Ok(ValueRef::Int(number)) => format!(in alloc; "{number}"),
        Ok(ValueRef::Text(bytes)) => {
            let text = str::from_utf8(bytes).unwrap_or("not UTF-8");
            format!(in alloc; "'{text}'")
        }
        Ok(ValueRef::Blob(bytes)) => format!(in alloc; "x{}", hex::encode(alloc, bytes)?),
        Ok(ValueRef::Real(_)) => format!(in alloc; "real"),
        Ok(ValueRef::Null) => format!(in alloc; "NULL"),
        Err(_) => format!(in alloc; "none"),
    }
}

/// Appends a row. A space separates two cells, and a comma and a space separate two rows.
pub(crate) fn put_row(out: &mut String, alloc: Global, row: &Row) -> Result<(), AllocError> {
    if !out.is_empty() {
        out.push(',')?;
    }
    for at in 0..row.column_count() {
        if !out.is_empty() {
            out.push(' ')?;
        }
        out.push_str(&cell_text(alloc, row, at)?)?;
    }
    Ok(())
}

/// Returns the text itself, or `none` if the text is empty.
pub(crate) fn or_none(mut text: String) -> Result<String, AllocError> {
    if text.is_empty() {
        text.push_str("none")?;
    }
    Ok(text)
}

//! Parses the words of a row, and writes the parts of an answer.

use crate::fault::RowFault;
use std::alloc::Global;
use std::str::FromStr;

// The greatest number of bytes that an answer shows. Of more bytes, it shows only the number.
const SHOWN_BYTES: usize = 64;

/// Splits a row into words at each space. Between two spaces side by side there is an empty word.
///
/// # Errors
///
/// If memory is refused.
pub fn words_of(alloc: Global, row: &str) -> Result<Vec<&str>, RowFault> {
    let mut words = Vec::new(alloc);
    for word in row.split(' ') {
        words.push(word)?;
    }
    Ok(words)
}

/// Returns the word at a place in the row, counted from 0.
///
/// # Errors
///
/// If there is no word at this place.
pub fn word_at<'w>(words: &[&'w str], place: usize) -> Result<&'w str, RowFault> {
    words.get(place).copied().ok_or(RowFault::NotRow)
}

/// Parses a word as a decimal number of type `T`.
///
/// # Errors
///
/// If the word is not a number of this type.
pub fn number_of<T: FromStr>(word: &str) -> Result<T, RowFault>
where
    T::Err: Drop,
{
    match word.parse() {
        Ok(number) => Ok(number),
        Err(_) => Err(RowFault::NotRow),
    }
}

/// Parses the word at a place, counted from 0, as a decimal number of type `T`.
///
/// # Errors
///
/// If there is no word at this place, or the word is not a number of this type.
pub fn number_at<T: FromStr>(words: &[&str], place: usize) -> Result<T, RowFault>
where
    T::Err: Drop,
{
    number_of(word_at(words, place)?)
}

/// Appends a part of an answer, after a comma and a space if it is not the first part.
///
/// # Errors
///
/// If memory is refused.
pub fn put_part(out: &mut String, part: &str) -> Result<(), RowFault> {
    if !out.is_empty() {
        out.push_str(", ")?;
    }
    out.push_str(part)?;
    Ok(())
}

/// Returns bytes in hexadecimal digits. The text is `-` for no bytes. For more than 64 bytes it is only their
/// number, as `N bytes`.
///
/// # Errors
///
/// If memory is refused.
pub fn bytes_text(alloc: Global, bytes: &[u8]) -> Result<String, RowFault> {
    if bytes.is_empty() {
        return Ok(String::from_str(alloc, "-")?);
    }
    if bytes.len() > SHOWN_BYTES {
        return Ok(format!(in alloc; "{} bytes", bytes.len())?);
    }
    Ok(hex::encode(alloc, bytes)?)
}

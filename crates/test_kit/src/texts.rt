//! Parses texts, lists of texts and maps of texts from words.
//!
//! A word stands for its own text, with two exceptions: `U+` and a hexadecimal number is the character with
//! this number, and `-` is the empty text. `*N` after a text or a character repeats it N times.

use crate::fault::RowFault;
use crate::parts::{number_of, word_at};
use csi_types::{Items, Map, Text};
use std::alloc::Global;

/// Parses the word at a place, counted from 0, as a text.
///
/// # Errors
///
/// If there is no word at this place, the word is not a text, or memory is refused.
pub fn text_at(alloc: Global, words: &[&str], place: usize) -> Result<Text, RowFault> {
    text_of(alloc, word_at(words, place)?)
}

/// Parses each word as a text, and returns the texts in the order of the words.
///
/// # Errors
///
/// If a word is not a text, or memory is refused.
pub fn texts_of(alloc: Global, words: &[&str]) -> Result<Items<Text>, RowFault> {
    let mut texts = Items::new(alloc);
    for word in words {
        texts.push(text_of(alloc, word)?)?;
    }
    Ok(texts)
}

/// Parses the words `KEY VALUE ..` as a map of texts.
///
/// # Errors
///
/// If a key has no value, a word is not a text, or memory is refused.
pub fn map_of(alloc: Global, words: &[&str]) -> Result<Map, RowFault> {
    let mut map = Map::new(alloc);
    for pair in words.chunks(2) {
        map.insert(text_at(alloc, pair, 0)?, text_at(alloc, pair, 1)?)?;
    }
    Ok(map)
}

fn text_of(alloc: Global, word: &str) -> Result<Text, RowFault> {
    let mut text = String::new(alloc);
    if word == "-" {
        return Ok(Text::from_string(text));
    }
    let (part, times) = word.split_once('*').unwrap_or((word, "1"));
    let times: u16 = number_of(times)?;
    let character = character_of(part)?;
    for _ in 0..times {
        match character {
            Some(character) => text.push(character)?,
            None => text.push_str(part)?,
        }
    }
    Ok(Text::from_string(text))
}

// Returns the character whose hexadecimal number follows `U+`, or `None` if the part does not begin with
// `U+`. Fails with `NotRow` if no character has the number.
fn character_of(part: &str) -> Result<Option<char>, RowFault> {
    match part.strip_prefix("U+") {
        Some(digits) => {
            let Ok(number) = u32::from_str_radix(digits, 16) else {
                return Err(RowFault::NotRow);
            };
            Ok(Some(char::from_u32(number).ok_or(RowFault::NotRow)?))
        }
        None => Ok(None),
    }
}

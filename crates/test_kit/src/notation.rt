//! Parses bytes from a notation that people can write.
//!
//! - Two hexadecimal digits are a byte, and a text between quotation marks is the bytes of the text.
//! - Parentheses are the length of their contents, as a varint, followed by the contents: `0a(61)` is
//!   `0a0161`.
//! - Square brackets are a group.
//! - `*N` after a byte, a text, parentheses, a group or a `#N` repeats it N times: `61*3` is `616161`.
//! - In a group, `#N` is the number of earlier repetitions of the group, as N digits to the base 64 (N is 1
//!   to 3). Each digit is a byte with the value of the digit. `#0` is the same number as a decimal text.
//! - Spaces are skipped, and `-` alone is no bytes.
//!
//! Hexadecimal digits are in lower case, and parentheses and brackets nest up to 11 deep.
ghost use Rattle.std.specs.Prelude.{◌≡◌, ◌<◌, ◌++◌, [], IfOk, IfSome, codes, length};

use std::alloc::{AllocError, AllocFailed, Global};
use std::str;

// The greatest number of parts that are inside each other: 11 parentheses or brackets, and a part in the
// innermost of them.
const DEEPEST: u8 = 12;

/// The reason why a text cannot be parsed as bytes.
#[derive(Clone, Copy, Debug, PartialEq, Eq)]
pub enum NotationFault {
    /// The text is not in the notation that [`bytes_of`](crate::bytes_of) parses.
    NotBytes,
    /// Memory for the parsed bytes was refused.
    NoMemory,
}

impl From<AllocError> for NotationFault {
    fn from(_error: AllocError) -> NotationFault {
        NotationFault::NoMemory
    }
}

impl From<AllocFailed<u8>> for NotationFault {
    fn from(_error: AllocFailed<u8>) -> NotationFault {
        NotationFault::NoMemory
    }
}

// A part of a text in the notation: a space, a byte, a text, an enclosed text or a count.
#[derive(Clone, Copy)]
enum Part<'t> {
    Space,
    Byte(u8),
    // The text between quotation marks.
    Text(&'t [u8]),
    // The contents of parentheses.
    Sized(&'t [u8]),
    // The contents of square brackets.
    Group(&'t [u8]),
    // `#N`: the number of digits, N.
    Count(u8),
}

/// Parses a text in the notation of this file as bytes.
///
/// # Errors
///
/// If the text is not in the notation, or memory is refused.
pub fn bytes_of(alloc: Global, text: &str) -> Result<Vec<u8>, NotationFault>
    ensures none { text.now ≡ codes "-" → IfOk result (λ bytes. bytes.items ≡ []) }
{
    bytes_counted(alloc, text, 0)
}

/// Parses a text in the notation of [`bytes_of`] as the contents of a group, after `count` earlier
/// repetitions of the group.
///
/// # Errors
///
/// If the text is not in the notation, or memory is refused.
pub fn bytes_counted(alloc: Global, text: &str, count: u32) -> Result<Vec<u8>, NotationFault>
    ensures none { text.now ≡ codes "-" → IfOk result (λ bytes. bytes.items ≡ []) }
{
    let mut out = Vec::new(alloc);
    if text != "-" {
        put_all(&mut out, alloc, text.as_bytes(), count, DEEPEST)?;
    }
    Ok(out)
}

// Appends the bytes of a text in the notation. The group around the text has been repeated `count` times
// before.
#[cycle(put)]
fn put_all(
    out: &mut Vec<u8>,
    alloc: Global,
    text: &[u8],
    count: u32,
    depth: u8,
) -> Result<(), NotationFault> {
    let mut rest = text;
    // Each turn takes a part, and each part has at least one byte of the text.
    for _ in 0..text.len() {
        if rest.is_empty() {
            break;
        }
        let (part, after) = first_part(rest).ok_or(NotationFault::NotBytes)?;
        let (times, after) = times_of(after).ok_or(NotationFault::NotBytes)?;
        rest = after;
        put_times(out, alloc, part, times, count, depth)?;
    }
    Ok(())
}

// Appends the bytes of a part `times` times.
#[cycle(put)]
fn put_times(
    out: &mut Vec<u8>,
    alloc: Global,
    part: Part<'_>,
    times: u32,
    count: u32,
    depth: u8,
) -> Result<(), NotationFault> {
    let depth = depth.checked_sub(1).ok_or(NotationFault::NotBytes)?;
    for before in 0..times {
        match part {
            Part::Byte(byte) => out.push(byte)?,
            Part::Text(text) => out.extend_from_slice(text)?,
            Part::Sized(text) => put_sized(out, alloc, text, count, depth)?,
            Part::Group(text) => put_all(out, alloc, text, before, depth)?,
            Part::Count(0) => put_decimal(out, alloc, count)?,
            Part::Count(digits) => put_count(out, count, digits)?,
            Part::Space => {}
        }
    }
    Ok(())
}

// Appends the length of the contents of parentheses, and then the contents.
#[cycle(put)]
fn put_sized(
    out: &mut Vec<u8>,
    alloc: Global,
    text: &[u8],
    count: u32,
    depth: u8,
) -> Result<(), NotationFault> {
    let mut inside = Vec::new(alloc);
    put_all(&mut inside, alloc, text, count, depth)?;
    put_varint(out, inside.len())?;
    out.extend_from_slice(&inside)?;
    Ok(())
}

// Appends a varint (Protocol Buffers encoding guide, 'Base 128 Varints').
fn put_varint(out: &mut Vec<u8>, number: usize) -> Result<(), NotationFault> {
    let mut rest = number;
    for _ in 0..10 {
        let group = (rest % 128) as u8;
        rest /= 128;
        if rest == 0 {
            out.push(group)?;
            break;
        }
        out.push(group + 128)?;
    }
    Ok(())
}

// Appends a count as one to three digits to the base 64. Each digit is a byte.
fn put_count(out: &mut Vec<u8>, count: u32, digits: u8) -> Result<(), NotationFault> {
    let high = (count / 4096 % 64) as u8;
    let middle = (count / 64 % 64) as u8;
    let low = (count % 64) as u8;
    match digits {
        1 => out.push(low)?,
        2 => out.extend_from_slice(&[middle, low])?,
        3 => out.extend_from_slice(&[high, middle, low])?,
        _ => return Err(NotationFault::NotBytes),
    }
    Ok(())
}

// Appends a count as a decimal text.
fn put_decimal(out: &mut Vec<u8>, alloc: Global, count: u32) -> Result<(), NotationFault> {
    match format!(in alloc; "{count}") {
        Ok(text) => Ok(out.extend_from_slice(text.as_bytes())?),
        Err(_) => Err(NotationFault::NoMemory),
    }
}

// Returns the first part of the text, and the text after it, or `None` if the text does not begin with a
// part.
fn first_part(text: &[u8]) -> Option<(Part<'_>, &[u8])> {
    let (first, rest) = text.split_first()?;
    match *first {
        b' ' => Some((Part::Space, rest)),
        b'"' | b'(' | b'[' => enclosed(*first, rest),
        b'#' => {
            let (digits, rest) = rest.split_first()?;
            Some((Part::Count(digit(*digits)?), rest))
        }
        high => {
            let (low, rest) = rest.split_first()?;
            Some((Part::Byte(digit(high)? * 16 + digit(*low)?), rest))
        }
    }
}

// Returns the part between an opening quotation mark or bracket and its closing one, and the text after it.
// Returns `None` if the closing one is missing.
fn enclosed(opening: u8, text: &[u8]) -> Option<(Part<'_>, &[u8])> {
    let end = match opening {
        b'"' => text.iter().position(|byte| *byte == b'"'),
        _ => closing(text),
    }?;
    let (inside, behind) = text.split_at_checked(end)?;
    let (_, rest) = behind.split_first()?;
    let part = match opening {
        b'"' => Part::Text(inside),
        b'(' => Part::Sized(inside),
        _ => Part::Group(inside),
    };
    Some((part, rest))
}

// Returns the value of a hexadecimal digit in lower case, or `None` for any other character.
fn digit(character: u8) -> Option<u8>
    ensures { IfSome result (λ value. value < 16) }
{
    match character {
        b'0'..=b'9' => Some(character - b'0'),
        b'a'..=b'f' => Some(character - b'a' + 10),
        _ => None,
    }
}

// Returns the index of the bracket that closes the bracket before the text, or `None` if there is none.
// Brackets inside quotation marks do not count.
fn closing(text: &[u8]) -> Option<usize>
    ensures { IfSome result (λ place. place < length text.now) }
{
    let mut depth: usize = 0;
    let mut is_quoted = false;
    for (place, byte) in text.iter().enumerate() {
        match *byte {
            b'"' => is_quoted = !is_quoted,
            _ if is_quoted => {}
            b'(' | b'[' => depth = depth.saturating_add(1),
            b')' | b']' if depth == 0 => return Some(place),
            b')' | b']' => depth = depth.saturating_sub(1),
            _ => {}
        }
    }
    None
}

// Returns the number N of a `*N` at the start of the text, or 1 without it, and the rest of the text. Returns
// `None` if the `*` has no number below 2^32 after it.
fn times_of(text: &[u8]) -> Option<(u32, &[u8])> {
    let Some((b'*', rest)) = text.split_first() else {
        return Some((1, text));
    };
    let digits = rest.iter().take_while(|byte| byte.is_ascii_digit()).count();
    let number = str::from_utf8(rest.get(..digits)?).ok()?;
    Some((number.parse().ok()?, rest.get(digits..)?))
}

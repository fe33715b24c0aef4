//! Answers rows about fields in the wire format of Protocol Buffers.

ghost use Rattle.std.specs.Prelude.{◌≤◌, ◌<◌, ◌^◌};

use crate::shown::displayed;
use crate::words::first_word;
use pbwire::{
    Field, Fields, Value, WireFault, WireWhy, close_bytes, put_bytes, put_entry, put_joined,
    put_map, put_varint,
};
use std::alloc::Global;
use test_kit::{RowFault, bytes_of, bytes_text, number_of, put_part};

// Field numbers are below this number.
const NUMBERS: u32 = 1 << 29;

/// Returns the fields of a message in the order of its bytes, the fault after them if there is one, and the
/// offset at which the reader stops.
pub(crate) fn fields_answer(alloc: Global, notation: &str) -> Result<String, RowFault> {
    let bytes = bytes_of(alloc, notation)?;
    let mut fields = Fields::new(&bytes);
    let mut out = String::new(alloc);
    for _ in 0..=bytes.len() {
        match fields.next_field() {
            Some(Ok(field)) => put_part(&mut out, &field_text(alloc, &field)?)?,
            Some(Err(fault)) => {
                put_part(&mut out, &displayed(alloc, &fault)?)?;
                break;
            }
            None => break,
        }
    }
    // A reader that has stopped returns no more fields.
    let at = fields.at();
    let end = match fields.next_field() {
        None => format!(in alloc; "ends at byte {at}")?,
        Some(_) => format!(in alloc; "goes on at byte {at}")?,
    };
    put_part(&mut out, &end)?;
    Ok(out)
}

fn field_text(alloc: Global, field: &Field<'_>) -> Result<String, RowFault> {
    let number = field.number;
    Ok(match field.value {
        Value::Varint(value) => format!(in alloc; "{number} varint {value}")?,
        Value::Fixed64(bytes) => {
            let value = u64::from_le_bytes(bytes);
            format!(in alloc; "{number} fixed64 {value}")?
        }
        Value::Bytes(bytes) => {
            let bytes = bytes_text(alloc, bytes)?;
            format!(in alloc; "{number} bytes {bytes}")?
        }
        Value::Fixed32(bytes) => {
            let value = u32::from_le_bytes(bytes);
            format!(in alloc; "{number} fixed32 {value}")?
        }
    })
}

/// Cuts a field to each of its proper prefixes that are not empty. Returns how often the reader finds that
/// the field at byte 0 is cut short, and the number of prefixes, such as `4 of 4`.
pub(crate) fn prefixes_answer(alloc: Global, notation: &str) -> Result<String, RowFault> {
    let bytes = bytes_of(alloc, notation)?;
    let count = cut_short_of(&bytes);
    Ok(format!(in alloc; "{count} of {}", bytes.len().saturating_sub(1))?)
}

fn cut_short_of(bytes: &[u8]) -> usize {
    let mut count: usize = 0;
    for size in 1..bytes.len() {
        if is_cut_short(&bytes[..size]) {
            count = count.saturating_add(1);
        }
    }
    count
}

fn is_cut_short(prefix: &[u8]) -> bool {
    matches!(
        Fields::new(prefix).next_field(),
        Some(Err(WireFault {
            why: WireWhy::CutShort,
            at: 0
        }))
    )
}

/// Returns the bytes of the row's fields in the wire format, one field after the other, in hexadecimal
/// digits.
pub(crate) fn write_answer(alloc: Global, fields: &str) -> Result<String, RowFault> {
    let mut out = Vec::new(alloc);
    for field in fields.split(", ") {
        put_field(alloc, &mut out, field)?;
    }
    Ok(hex::encode(alloc, &out)?)
}

// Appends the field that a text describes: its number, a word for its kind, and its value.
fn put_field(alloc: Global, out: &mut Vec<u8>, field: &str) -> Result<(), RowFault> {
    let (number, rest) = first_word(field)?;
    let number: u32 = number_of(number)?;
    if number < 1 || number >= NUMBERS {
        return Err(RowFault::NotRow);
    }
    let (word, value) = first_word(rest)?;
    match word {
        "varint" => put_varint(out, number, number_of(value)?)?,
        "bytes" => put_bytes(out, number, &bytes_of(alloc, value)?)?,
        "message" => put_message(alloc, out, number, value)?,
        "entry" => {
            let (key, value) = entry_of(alloc, value)?;
            put_entry(out, number, &key, &value)?;
        }
        "joined" => {
            let (first, second) = entry_of(alloc, value)?;
            put_joined(out, number, &first, &second)?;
        }
        "map" => put_entries(alloc, out, number, value)?,
        _ => return Err(RowFault::NotRow),
    }
    Ok(())
}

// Appends a message as a field: writes the bytes in place, then closes the field.
fn put_message(
    alloc: Global,
    out: &mut Vec<u8>,
    number: u32,
    notation: &str,
) -> Result<(), RowFault>
    requires { (1 ≤ number) × (number < 2 ^ 29) }
{
    put_bytes(out, number, &[])?;
    let from = out.len();
    out.extend_from_slice(&bytes_of(alloc, notation)?)?;
    if from < 1 || from > out.len() {
        return Err(RowFault::NotRow);
    }
    Ok(close_bytes(out, from)?)
}

fn put_entries(alloc: Global, out: &mut Vec<u8>, number: u32, entries: &str) -> Result<(), RowFault>
    requires { (1 ≤ number) × (number < 2 ^ 29) }
{
    let mut kept = Vec::new(alloc);
    for entry in entries.split(' ') {
        kept.push(entry_of(alloc, entry)?)?;
    }
    let mut lent: Vec<(&[u8], &[u8])> = Vec::new(alloc);
    for (key, value) in &kept {
        lent.push((key.as_slice(), value.as_slice()))?;
    }
    Ok(put_map(out, number, lent.iter().copied())?)
}

fn entry_of(alloc: Global, words: &str) -> Result<(Vec<u8>, Vec<u8>), RowFault> {
    let (key, value) = words.split_once('=').ok_or(RowFault::NotRow)?;
    Ok((bytes_of(alloc, key)?, bytes_of(alloc, value)?))
}

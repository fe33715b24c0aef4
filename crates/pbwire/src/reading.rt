//! Reads fields from the start of a message. Each private function reads a prefix of the bytes, and returns
//! the bytes after the prefix.

ghost use Rattle.std.specs.Prelude.{◌≡◌, ◌*◌, ◌^◌, nat_le, if◌then◌else◌, Ok, Err, IsTrue, IsNone};
ghost use Rattle.pbwire.specs.declared.field.WireWhy.TheVariants as why;
ghost use Rattle.pbwire.specs.Reading.{seen, varint_at, tag_at, bytes_at, part_at, part_of, field_at, wire_field_of, next_of, seen_next};

use crate::field::{Field, Value, WireFault, WireWhy};
use std::marker::Model;

// Reads a varint. Most varints have one byte.
#[inline(always)]
#[tactic(auto, unfolding(crate::specs::Reading::varint_at, crate::specs::Reading::groups_at))]
fn read_varint(bytes: &[u8]) -> Result<(u64, &[u8]), WireWhy>
    ensures { seen (λ x. (x.0, x.1.now)) result ≡ varint_at bytes.now }
{
    if let [byte, rest @ ..] = bytes {
        if *byte < 128 {
            return Ok((u64::from(*byte), rest));
        }
    }
    read_long_varint(bytes)
}

// Returns the number that the tenth byte of a varint adds. Nine bytes hold 63 bits, so the tenth may add only
// one bit.
fn tenth_group(byte: u8) -> Result<u64, WireWhy>
    ensures { result ≡ if nat_le byte 1 then Ok (2 ^ 63 * byte) else Err why.Varint }
{
    if byte > 1 {
        return Err(WireWhy::Varint);
    }
    Ok(u64::from(byte) << 63)
}

#[inline(never)]
#[tactic(auto, unfolding(crate::specs::Reading::varint_at))]
fn read_long_varint(bytes: &[u8]) -> Result<(u64, &[u8]), WireWhy>
    ensures { seen (λ x. (x.0, x.1.now)) result ≡ varint_at bytes.now }
{
    let mut value = 0u64;
    for count in 0..9 {
        let Some(&byte) = bytes.get(count) else {
            return Err(WireWhy::CutShort);
        };
        if byte < 128 {
            value += u64::from(byte) << (7 * count);
            return Ok((value, &bytes[count + 1..]));
        }
        value += u64::from(byte % 128) << (7 * count);
    }
    let Some(&byte) = bytes.get(9) else {
        return Err(WireWhy::CutShort);
    };
    let high = tenth_group(byte)?;
    Ok((value + high, &bytes[10..]))
}

#[inline(always)]
#[tactic(auto, unfolding(crate::specs::Reading::tag_at))]
fn read_tag(bytes: &[u8]) -> Result<(u32, &[u8]), WireWhy>
    ensures { seen (λ x. (x.0, x.1.now)) result ≡ tag_at bytes.now }
{
    let (tag, rest) = read_varint(bytes)?;
    if tag >= 1 << 32 || tag < 8 {
        return Err(WireWhy::Tag);
    }
    Ok((tag as u32, rest))
}

#[inline(always)]
fn read_array<const N: usize>(bytes: &[u8]) -> Result<([u8; N], &[u8]), WireWhy>
    ensures { seen (λ x. (x.0, x.1.now)) result ≡ bytes_at N bytes.now }
{
    let Some((array, rest)) = bytes.split_first_chunk::<N>() else {
        return Err(WireWhy::CutShort);
    };
    Ok((*array, rest))
}

#[inline(always)]
fn read_bytes(count: u64, bytes: &[u8]) -> Result<(&[u8], &[u8]), WireWhy>
    ensures { seen (λ x. (x.0.now, x.1.now)) result ≡ bytes_at count bytes.now }
{
    if (bytes.len() as u64) < count {
        return Err(WireWhy::CutShort);
    }
    Ok(bytes.split_at(count as usize))
}

#[inline(always)]
#[tactic(auto, unfolding(crate::specs::Reading::part_at))]
fn read_value(wire_type: u32, bytes: &[u8]) -> Result<(Value<'_>, &[u8]), WireWhy>
    ensures { seen (λ x. (part_of x.0, x.1.now)) result ≡ part_at wire_type bytes.now }
{
    match wire_type {
        0 => {
            let (number, rest) = read_varint(bytes)?;
            Ok((Value::Varint(number), rest))
        }
        1 => {
            let (array, rest) = read_array::<8>(bytes)?;
            Ok((Value::Fixed64(array), rest))
        }
        2 => {
            let (count, rest) = read_varint(bytes)?;
            let (payload, rest) = read_bytes(count, rest)?;
            Ok((Value::Bytes(payload), rest))
        }
        5 => {
            let (array, rest) = read_array::<4>(bytes)?;
            Ok((Value::Fixed32(array), rest))
        }
        _ => Err(WireWhy::WireType),
    }
}

#[inline(always)]
#[tactic(auto, unfolding(crate::specs::Reading::field_at))]
fn read_field(bytes: &[u8]) -> Result<(Field<'_>, &[u8]), WireWhy>
    ensures { seen (λ x. (wire_field_of x.0, x.1.now)) result ≡ field_at bytes.now }
{
    let (tag, rest) = read_tag(bytes)?;
    let (value, rest) = read_value(tag % 8, rest)?;
    Ok((
        Field {
            number: tag / 8,
            value,
        },
        rest,
    ))
}

/// Reads the fields of a message one after the other, up to the first fault. Payloads are borrowed from the
/// message, and nothing is allocated.
#[derive(Drop)]
pub struct Fields<'a> {
    len: usize,
    rest: &'a [u8],
    failed: bool,
}

impl<'a> Model for Fields<'a> {
    ghost use Rattle.std.specs.Prelude.{◌-◌, ◌≤◌, length};
    ghost use Rattle.pbwire.specs.Reading.{Cursor};

    ghost Value = { Cursor };

    ghost view = { λ a. record { at = a.len - length a.rest.now; rest = a.rest.now; failed = a.failed } };

    ghost invariant = { λ a. length a.rest.now ≤ a.len };
}

impl<'a> Fields<'a> {
    ghost use Rattle.std.specs.Prelude.{false};

    /// Makes a reader of the fields of a whole message. An empty message has no fields.
    pub fn new(bytes: &'a [u8]) -> Fields<'a>
        ensures { result ≡ record { at = 0; rest = bytes.now; failed = false } }
    {
        Fields {
            len: bytes.len(),
            rest: bytes,
            failed: false,
        }
    }

    /// Returns the offset in bytes after the last field that was read, or 0 if no field was read. After a
    /// fault this is the offset of the faulty field.
    pub fn at(&self) -> usize
        ensures { result ≡ self.now.at }
    {
        self.len - self.rest.len()
    }

    /// Returns the next field of the message, or the fault of bytes that are not a field. The encoding of a
    /// field need not be the shortest. Returns `None` at the end of the message, and always after a fault.
    #[inline(always)]
    pub fn next_field(&mut self) -> Option<Result<Field<'a>, WireFault>>
        ensures given { seen_next result ≡ (next_of self.old).0 }
        ensures moved { self.new ≡ (next_of self.old).1 }
        ensures after_fault { IsTrue self.old.failed → IsNone result }
    {
        if self.failed || self.rest.is_empty() {
            return None;
        }
        match read_field(self.rest) {
            Ok((field, rest)) => {
                self.rest = rest;
                Some(Ok(field))
            }
            Err(why) => {
                self.failed = true;
                Some(Err(WireFault { why, at: self.at() }))
            }
        }
    }
}

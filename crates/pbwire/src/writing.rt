//! Appends fields, each in its shortest encoding.

ghost use Rattle.std.specs.Prelude.{◌-◌, ◌≡◌, ◌≤◌, ◌<◌, ◌^◌, ◌+◌, ◌*◌, ◌∷◌, ◌++◌, OnOk, OnErr, length, map, take, drop};
ghost use Rattle.std.specs.Option.{IfSome};
ghost use Rattle.std.specs.Iterator.{IsFinite};
ghost use Rattle.std.specs.Iterator.Runs.{WholeRun};
ghost use Rattle.pbwire.specs.Wire.{Number, Payload};
ghost use Rattle.pbwire.specs.Writing.{varint, spelling, spellings, map_entry, map_entries, bytes_of};

use arrayvec::ArrayVec;
use std::alloc::AllocError;

#[inline(always)]
fn push_varint(out: &mut ArrayVec<u8, 20>, number: u64)
    requires { length out.old.items ≤ 10 }
    ensures { out.new.items ≡ out.old.items ++ varint number }
{
    let mut rest = number;
    while rest >= 128 {
        out.push((rest % 128) as u8 + 128);
        rest /= 128;
    }
    out.push(rest as u8);
}

// Encodes a tag and the varint after it, which is a number or the length of a payload.
#[inline(always)]
fn head_of(number: u32, wire_type: u64, after: u64) -> ArrayVec<u8, 20>
    requires { wire_type < 8 }
    ensures { result.items ≡ varint (number * 8 + wire_type) ++ varint after }
{
    let mut head = ArrayVec::new();
    push_varint(&mut head, u64::from(number) * 8 + wire_type);
    push_varint(&mut head, after);
    head
}

// Returns the head of a field of wire type 2 if its tag and its length take one byte each, otherwise `None`.
// Most heads are so short.
#[inline(always)]
fn short_head(number: u32, len: usize) -> Option<[u8; 2]>
    ensures { IfSome result (λ head. head ≡ varint (number * 8 + 2) ++ varint len) }
{
    if number >= 16 || len >= 128 {
        return None;
    }
    Some([number as u8 * 8 + 2, len as u8])
}

/// Encodes the field `number` with the value `value` (wire type 0), for callers that must know the length of
/// the field before they write it. `number` must be from 1 to 536,870,911.
#[inline(always)]
pub fn varint_field(number: u32, value: u64) -> ArrayVec<u8, 20>
    requires { (1 ≤ number) × (number < 2 ^ 29) }
    ensures { result.items ≡ spelling (record { number = number; part = Number value }) }
{
    head_of(number, 0, value)
}

/// Appends the field `number` with the value `value` (wire type 0). `number` must be from 1 to 536,870,911.
/// If memory is refused, the vector is unchanged.
pub fn put_varint(out: &mut Vec<u8>, number: u32, value: u64) -> Result<(), AllocError>
    requires { (1 ≤ number) × (number < 2 ^ 29) }
    ensures ok { OnOk result (out.new.items ≡ out.old.items ++ spelling (record {
      number = number;
      part = Number value;
    })) }
    ensures err { OnErr result (out.new.items ≡ out.old.items) }
{
    out.extend_from_slice(varint_field(number, value).as_slice())
}

// Appends `head` and `bytes`, or neither if memory is refused.
#[inline(always)]
fn append_both(out: &mut Vec<u8>, head: &[u8], bytes: &[u8]) -> Result<(), AllocError>
    ensures ok { OnOk result (out.new.items ≡ out.old.items ++ (head.now ++ bytes.now)) }
    ensures err { OnErr result (out.new.items ≡ out.old.items) }
{
    out.reserve(head.len() + bytes.len())?;
    out.extend_from_slice(head)?;
    out.extend_from_slice(bytes)
}

// Appends a field that has bytes (wire type 2). Its tag and its length may take any number of bytes. If
// memory is refused, the vector is unchanged.
#[inline(never)]
fn put_long_bytes(out: &mut Vec<u8>, number: u32, bytes: &[u8]) -> Result<(), AllocError>
    requires { (1 ≤ number) × (number < 2 ^ 29) }
    ensures ok { OnOk result (out.new.items ≡ out.old.items ++ spelling (record {
      number = number;
      part = Payload bytes.now;
    })) }
    ensures err { OnErr result (out.new.items ≡ out.old.items) }
{
    let head = head_of(number, 2, bytes.len() as u64);
    append_both(out, head.as_slice(), bytes)
}

/// Appends a field that has bytes (wire type 2), such as a text or an embedded message. `number` must be from
/// 1 to 536,870,911. The vector grows at most once. If memory is refused, the vector is unchanged.
#[inline(always)]
pub fn put_bytes(out: &mut Vec<u8>, number: u32, bytes: &[u8]) -> Result<(), AllocError>
    requires { (1 ≤ number) × (number < 2 ^ 29) }
    ensures ok { OnOk result (out.new.items ≡ out.old.items ++ spelling (record {
      number = number;
      part = Payload bytes.now;
    })) }
    ensures err { OnErr result (out.new.items ≡ out.old.items) }
{
    match short_head(number, bytes.len()) {
        Some(head) => append_both(out, &head, bytes),
        None => put_long_bytes(out, number, bytes),
    }
}

// Moves the bytes towards the end by the length of `head`, and writes `head` at the start. The last bytes are
// overwritten.
#[inline(always)]
fn put_before(bytes: &mut [u8], head: &[u8])
    requires { length head.now ≤ length bytes.old }
    ensures { bytes.new ≡ head.now ++ take (length bytes.old - length head.now) bytes.old }
{
    let kept = bytes.len() - head.len();
    bytes.copy_within(..kept, head.len());
    let (prefix, _) = bytes.split_at_mut(head.len());
    prefix.copy_from_slice(head);
}

#[inline(always)]
fn insert_before(out: &mut Vec<u8>, from: usize, head: &[u8]) -> Result<(), AllocError>
    requires { from ≤ length out.old.items }
    ensures ok { OnOk result (out.new.items
        ≡ take from out.old.items ++ (head.now ++ drop from out.old.items)) }
    ensures err { OnErr result (out.new.items ≡ out.old.items) }
{
    out.extend_from_slice(head)?;
    put_before(out.slice_mut(from..), head);
    Ok(())
}

// Writes the length `len` of the payload that begins at `from`. One byte was reserved for the length, and
// `len` takes more bytes, so the payload moves. If memory is refused, the vector is unchanged.
#[inline(never)]
fn close_long_bytes(out: &mut Vec<u8>, from: usize, len: usize) -> Result<(), AllocError>
    requires within { (1 ≤ from) × (from + len ≡ length out.old.items) }
    ensures ok { OnOk result (out.new.items
        ≡ take (from - 1) out.old.items ++ (varint len ++ drop from out.old.items)) }
    ensures err { OnErr result (out.new.items ≡ out.old.items) }
{
    let mut head = ArrayVec::<u8, 20>::new();
    push_varint(&mut head, len as u64);
    let [first, others @ ..] = head.as_slice() else {
        unreachable!()
    };
    insert_before(out, from, others)?;
    out[from - 1] = *first;
    Ok(())
}

/// Ends a field (wire type 2) whose payload was appended after its head. The field was put with an empty
/// payload, and `from` is the offset after it. All bytes from `from` on become the payload. So an embedded
/// message is written in place before its length is known. The payload moves only if its length takes more
/// than one byte. If memory is refused, the vector is unchanged.
#[inline(always)]
pub fn close_bytes(out: &mut Vec<u8>, from: usize) -> Result<(), AllocError>
    requires { (1 ≤ from) × (from ≤ length out.old.items) }
    ensures ok { OnOk result (out.new.items
        ≡ take (from - 1) out.old.items ++
        (varint (length out.old.items - from) ++ drop from out.old.items)) }
    ensures err { OnErr result (out.new.items ≡ out.old.items) }
{
    let len = out.len() - from;
    if len >= 128 {
        return close_long_bytes(out, from, len);
    }
    out[from - 1] = len as u8;
    Ok(())
}

// Appends `head` and two parts that have fewer than 256 bytes together. The vector grows at most once.
fn append_short_joined(
    out: &mut Vec<u8>,
    head: &[u8],
    first: &[u8],
    second: &[u8],
) -> Result<(), AllocError>
    requires { length head.now + length first.now + length second.now < 256 }
    ensures ok { OnOk result (out.new.items ≡ out.old.items ++ (head.now ++ (first.now ++ second.now))) }
    ensures err { OnErr result (out.new.items ≡ out.old.items) }
{
    out.reserve(head.len() + first.len() + second.len())?;
    out.extend_from_slice(head)?;
    out.extend_from_slice(first)?;
    out.extend_from_slice(second)
}

// Appends a field whose bytes are `first` followed by `second`. If memory is refused, a part of the field may
// have been appended.
fn append_joined(
    out: &mut Vec<u8>,
    number: u32,
    first: &[u8],
    second: &[u8],
) -> Result<(), AllocError>
    requires { (1 ≤ number) × (number < 2 ^ 29) }
    ensures ok { OnOk result (out.new.items ≡ out.old.items ++ spelling (record {
      number = number;
      part = Payload (first.now ++ second.now);
    })) }
    ensures err { OnErr result (take (length out.old.items) out.new.items ≡ out.old.items) }
{
    put_bytes(out, number, &[])?;
    let from = out.len();
    out.extend_from_slice(first)?;
    out.extend_from_slice(second)?;
    close_bytes(out, from)
}

/// Appends a field (wire type 2) whose payload is `first` followed by `second`. `number` must be from 1 to
/// 536,870,911. If memory is refused, the vector is unchanged.
pub fn put_joined(
    out: &mut Vec<u8>,
    number: u32,
    first: &[u8],
    second: &[u8],
) -> Result<(), AllocError>
    requires { (1 ≤ number) × (number < 2 ^ 29) }
    ensures ok { OnOk result (out.new.items ≡ out.old.items ++ spelling (record {
      number = number;
      part = Payload (first.now ++ second.now);
    })) }
    ensures err { OnErr result (out.new.items ≡ out.old.items) }
{
    if first.len() < 64 && second.len() < 64 {
        if let Some(head) = short_head(number, first.len() + second.len()) {
            return append_short_joined(out, &head, first, second);
        }
    }
    let from = out.len();
    let joined = append_joined(out, number, first, second);
    if joined.is_err() {
        out.truncate(from);
    }
    joined
}

// Appends an entry of fewer than 128 bytes, with its head. The vector grows at most once, and nothing moves.
fn append_short_entry(
    out: &mut Vec<u8>,
    head: &[u8],
    key: &[u8],
    value: &[u8],
) -> Result<(), AllocError>
    requires { length key.now + length value.now + 4 < 128 }
    ensures ok { OnOk result (out.new.items
        ≡ out.old.items ++ (head.now ++ ((10 ∷ length key.now ∷ key.now)
        ++ (18 ∷ length value.now ∷ value.now)))) }
    ensures err { OnErr result (out.new.items ≡ out.old.items) }
{
    out.reserve(head.len() + key.len() + value.len() + 4)?;
    out.extend_from_slice(head)?;
    out.extend_from_slice(&[10, key.len() as u8])?;
    out.extend_from_slice(key)?;
    out.extend_from_slice(&[18, value.len() as u8])?;
    out.extend_from_slice(value)
}

// Appends one entry of a map of texts. If memory is refused, a part of the entry may have been appended.
fn append_entry(out: &mut Vec<u8>, number: u32, key: &[u8], value: &[u8]) -> Result<(), AllocError>
    requires { (1 ≤ number) × (number < 2 ^ 29) }
    ensures ok { OnOk result (out.new.items
        ≡ out.old.items ++ spelling (map_entry number (key.now, value.now))) }
    ensures err { OnErr result (take (length out.old.items) out.new.items ≡ out.old.items) }
{
    put_bytes(out, number, &[])?;
    let from = out.len();
    put_bytes(out, 1, key)?;
    put_bytes(out, 2, value)?;
    close_bytes(out, from)
}

/// Appends one entry of a map of texts: an embedded message with the key as field 1 and the value as field 2.
/// Both are written even if they are empty. `number` must be from 1 to 536,870,911. If memory is refused, the
/// vector is unchanged.
pub fn put_entry(out: &mut Vec<u8>, number: u32, key: &[u8], value: &[u8]) -> Result<(), AllocError>
    requires { (1 ≤ number) × (number < 2 ^ 29) }
    ensures ok { OnOk result (out.new.items
        ≡ out.old.items ++ spelling (map_entry number (key.now, value.now))) }
    ensures err { OnErr result (out.new.items ≡ out.old.items) }
{
    if key.len() < 64 && value.len() < 60 {
        if let Some(head) = short_head(number, key.len() + value.len() + 4) {
            return append_short_entry(out, &head, key, value);
        }
    }
    let from = out.len();
    let written = append_entry(out, number, key, value);
    if written.is_err() {
        out.truncate(from);
    }
    written
}

/// Appends a map of texts: one field for each entry, in the order of the iterator. An entry is an embedded
/// message with the key as field 1 and the value as field 2, also if one of them is empty. If the entries
/// come in byte order of their keys, equal maps have the same encoding. `number` must be from 1 to
/// 536,870,911. If memory is refused, the vector is unchanged.
pub fn put_map<'a, I: Iterator<Item = (&'a [u8], &'a [u8])> + Drop>(
    out: &mut Vec<u8>,
    number: u32,
    entries: I,
) -> Result<(), AllocError>
    requires number { (1 ≤ number) × (number < 2 ^ 29) }
    requires begins { I.can_next entries }
    requires ends { IsFinite (I.remaining entries) }
    ensures ok { OnOk result (WholeRun I.next_gives entries
        (λ run. out.new.items ≡ out.old.items ++ spellings (map_entries number (map bytes_of run.items)))) }
    ensures err { OnErr result (out.new.items ≡ out.old.items) }
{
    let start = out.len();
    for (key, value) in entries {
        if let Err(refused) = put_entry(out, number, key, value) {
            out.truncate(start);
            return Err(refused);
        }
    }
    Ok(())
}

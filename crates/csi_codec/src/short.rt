//! Encodes entries of ListVolumes that are short, for volumes that are published to no node. The bytes of an
//! entry are written from the last to the first, so the length of a part is known before its head is written.

ghost use Rattle.std.specs.Prelude.{◌≡◌, ◌≤◌, ◌+◌, ◌++◌, ◌∷◌, IfSome, length, drop};
ghost use Rattle.std.specs.Fmt.{decimal};
ghost use Rattle.pbwire.specs.Writing.{varint};
ghost use Rattle.pbmessage.specs.Canon.{FitsText};
ghost use Rattle.csi_codec.specs.Listing.{IsShort, id_field, listed_id, placed_volume, short_entry, size_bytes};
ghost use Rattle.csi_codec.specs.messages.Volume.{FitsVolume};

use crate::listing::ListedEntry;
use itoa::write_digits;

/// The size in bytes of the buffer for one entry. The heads of entry and volume take 4 bytes, the size field
/// 11, the id field 38 (head 2, prefix 16, digits 20), and the longest ending 123.
pub(crate) const BUFFER_BYTES: usize = 176;

// The greatest length of an id's prefix for which the buffer has room, in bytes.
const LONGEST_PREFIX: usize = 16;

// The greatest length of a short entry's ending, in bytes. The ending has the context and topology of the
// pool, and an empty status.
const LONGEST_ENDING: usize = 123;

// The length of the status of a volume that is published to no node, in bytes.
const STATUS_BYTES: usize = 2;

// A volume whose encoding is shorter than this number of bytes makes an entry of at most 127 bytes, with the
// heads and the empty status. So each length in the entry takes one byte.
const SHORT_VOLUME: usize = 122;

// Writes `bytes` into the buffer so that they end before the offset `end`. Returns the offset of the first
// byte.
#[inline(always)]
fn put_before(buffer: &mut [u8], end: usize, bytes: &[u8]) -> usize
    requires { (length bytes.now ≤ end) × (end ≤ length buffer.old) }
    ensures start { result + length bytes.now ≡ end }
    ensures written { drop result buffer.new ≡ bytes.now ++ drop end buffer.old }
{
    let start = end - bytes.len();
    buffer[start..end].copy_from_slice(bytes);
    start
}

// Writes a varint into the buffer so that it ends before the offset `end`, and returns the offset of its
// first byte. The last group of 7 bits is written first.
#[tactic(auto, using(crate::proofs::ShortLemmas::varint_one, crate::proofs::ShortLemmas::varint_more))]
fn put_varint(buffer: &mut [u8], end: usize, number: u64) -> usize
    requires { (length (varint number) ≤ end) × (end ≤ length buffer.old) }
    ensures start { result + length (varint number) ≡ end }
    ensures written { drop result buffer.new ≡ varint number ++ drop end buffer.old }
{
    if number < 128 {
        return put_before(buffer, end, &[number as u8]);
    }
    let start = put_varint(buffer, end, number / 128);
    put_before(buffer, start, &[(number % 128) as u8 + 128])
}

// Writes the size field of a volume so that it ends before the offset `end`, and returns the offset of its
// first byte. A size of 0 has no field, so nothing is written.
#[inline(always)]
fn put_size(buffer: &mut [u8], end: usize, bytes: u64) -> usize
    requires { (11 ≤ end) × (end ≤ length buffer.old) }
    ensures start { result + length (size_bytes bytes) ≡ end }
    ensures short { length (size_bytes bytes) ≤ 11 }
    ensures written { drop result buffer.new ≡ size_bytes bytes ++ drop end buffer.old }
{
    if bytes == 0 {
        return end;
    }
    let start = put_varint(buffer, end, bytes);
    put_before(buffer, start, &[8])
}

// Writes the id field of a volume so that it ends before the offset `end`, and returns the offset of its
// first byte.
#[inline(always)]
fn put_id(buffer: &mut [u8], end: usize, prefix: &str, number: u64) -> usize
    requires { (length prefix.now ≤ 16) × (38 ≤ end) × (end ≤ length buffer.old) }
    ensures start { result + length (id_field prefix.now number) ≡ end }
    ensures short { length (id_field prefix.now number) ≤ 38 }
    ensures written { drop result buffer.new ≡ id_field prefix.now number ++ drop end buffer.old }
    ensures fitting { FitsText (prefix.now ++ decimal number) }
{
    let digits = write_digits(number, buffer, end);
    let id = put_before(buffer, digits, prefix.as_bytes());
    put_before(buffer, id, &[18, (end - id) as u8])
}

/// Writes an entry without nodes into the last bytes of the buffer, and returns the offset of its first byte.
/// The nodes in `entry` are ignored.
///
/// Returns `None` in these cases, and may then have changed the buffer:
///
/// - the prefix of the id is empty or has more than 16 bytes
/// - the ending of the placement has more than 123 bytes
/// - the entry would have more than 127 bytes
#[inline(always)]
pub(crate) fn put_short(buffer: &mut [u8], entry: &ListedEntry) -> Option<usize>
    requires { length buffer.old ≡ 176 }
    ensures within { IfSome result (λ start. start ≤ 176) }
    ensures written { IfSome result (λ start. drop start buffer.new ≡ short_entry entry.now) }
    ensures short { IfSome result (λ start. IsShort entry.now) }
    ensures fitting { IfSome result (λ start.
        FitsVolume (placed_volume entry.now.bytes (listed_id entry.now) entry.now.placement.now)) }
{
    let ending = entry.placement.ending();
    let prefix = entry.prefix.len();
    if prefix == 0 || prefix > LONGEST_PREFIX || ending.len() > LONGEST_ENDING {
        return None;
    }
    let placed = put_before(buffer, BUFFER_BYTES, ending);
    let id = put_id(buffer, placed, entry.prefix, entry.number);
    let start = put_size(buffer, id, entry.bytes.cast_unsigned());
    let len = BUFFER_BYTES - STATUS_BYTES - start;
    if len >= SHORT_VOLUME {
        return None;
    }
    let len = len as u8;
    Some(put_before(buffer, start, &[10, len + 4, 10, len]))
}

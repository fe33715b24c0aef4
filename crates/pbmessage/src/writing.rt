//! Encodes a message of any type. A value has exactly one encoding.
//!
//! An embedded message is written in place: first a field with an empty payload, then the fields of the
//! message. Then the length of the payload is set.
//!
//! If memory is refused, each `put_` function fails, and may have appended a part of the field.

ghost use Rattle.std.specs.Prelude.{◌≡◌, ◌++◌, ◌∷◌, [], ◌≤◌, ◌<◌, ◌^◌, List, OnOk, OnErr, option_to_list, length, take};
ghost use Rattle.std.specs.FinMap.{empty, entries, insert};
ghost use Rattle.pbwire.specs.Wire.{Payload};
ghost use Rattle.pbwire.specs.Writing.{spelling, spellings};
ghost use Rattle.pbmessage.specs.Canon.{Rows, bytes_of, row_fields, payload_fields, text_row, texts_row, signed_row, flag_row, presence_row, option_row, messages_row, map_row, canon_map_entry, FitsText, FitsTexts, FitsI64, FitsInner, FitsOption, FitsMessages, FitsMapEntry, FitsMap};
ghost use Rattle.pbmessage.specs.Kept.{Keeps};

use csi_types::{Items, Map, Text};
use pbwire::laws::closed;
use pbwire::{close_bytes, put_bytes, put_entry, put_varint};
use std::alloc::AllocError;

/// A type whose values have one encoding each. `P` is a type that represents the Protocol Buffers package of
/// the message. The crate that implements this trait must have its own type `P`, since the type of the value
/// may belong to another crate.
pub trait Written<P> {
    /// The fields of the encoding, by field number.
    ghost canon: { Self → Rows };

    /// The values that have an encoding. `write` succeeds only for these.
    ghost fits: { Self → Type 0 };

    /// Appends the encoding of the value. If memory is refused, a part of the encoding may have been
    /// appended.
    fn write(&self, out: &mut Vec<u8>) -> Result<(), AllocError>
        ensures ok { OnOk result (out.new.items ≡ out.old.items ++ bytes_of (canon self.now)) }
        ensures fitting { OnOk result (fits self.now) }
        ensures kept { Keeps out.old.items out.new.items };
}

/// Returns `written`, the result of writing an encoding. If `written` is an error, first cuts the vector to
/// its first `from` bytes. So no part of the encoding is left in the vector.
pub fn whole_or_none(
    out: &mut Vec<u8>,
    from: usize,
    written: Result<(), AllocError>,
) -> Result<(), AllocError>
    requires { from ≤ length out.old.items }
    ensures value { result ≡ written }
    ensures ok { OnOk result (out.new.items ≡ out.old.items) }
    ensures err { OnErr result (out.new.items ≡ take from out.old.items) }
{
    if written.is_err() {
        out.truncate(from);
    }
    written
}

// Appends a text as field `number`. Appends nothing if the text is empty.
#[tactic(auto, unfolding(crate::specs::Canon::row_fields))]
fn put_str(out: &mut Vec<u8>, number: u32, text: &str) -> Result<(), AllocError>
    requires { (1 ≤ number) × (number < 2 ^ 29) }
    ensures ok { OnOk result (out.new.items
        ≡ out.old.items ++ spellings (row_fields (text_row number text.now))) }
    ensures fitting { OnOk result (FitsText text.now) }
    ensures kept { Keeps out.old.items out.new.items }
{
    if text.is_empty() {
        return Ok(());
    }
    put_bytes(out, number, text.as_bytes())
}

/// Appends the text as field `number`. Appends nothing if the text is empty.
pub fn put_text(out: &mut Vec<u8>, number: u32, text: &Text) -> Result<(), AllocError>
    requires { (1 ≤ number) × (number < 2 ^ 29) }
    ensures ok { OnOk result (out.new.items
        ≡ out.old.items ++ spellings (row_fields (text_row number text.now))) }
    ensures fitting { OnOk result (FitsText text.now) }
    ensures kept { Keeps out.old.items out.new.items }
{
    put_str(out, number, text.as_str())
}

/// Appends one text, `first` followed by `second`, as field `number`. Appends nothing if both are empty.
pub fn put_joined(
    out: &mut Vec<u8>,
    number: u32,
    first: &str,
    second: &str,
) -> Result<(), AllocError>
    requires { (1 ≤ number) × (number < 2 ^ 29) }
    ensures ok { OnOk result (out.new.items
        ≡ out.old.items ++ spellings (row_fields (text_row number (first.now ++ second.now)))) }
    ensures fitting { OnOk result (FitsText (first.now ++ second.now)) }
    ensures kept { Keeps out.old.items out.new.items }
{
    if first.is_empty() {
        return put_str(out, number, second);
    }
    pbwire::put_joined(out, number, first.as_bytes(), second.as_bytes())
}

/// Appends one field for each text, all with the field number `number`. An empty text gets a field too.
#[tactic(auto, unfolding(crate::specs::Canon::row_fields))]
pub fn put_texts(out: &mut Vec<u8>, number: u32, texts: &Items<Text>) -> Result<(), AllocError>
    requires { (1 ≤ number) × (number < 2 ^ 29) }
    ensures ok { OnOk result (out.new.items
        ≡ out.old.items ++ spellings (row_fields (texts_row number texts.now))) }
    ensures fitting { OnOk result (FitsTexts texts.now) }
    ensures kept { Keeps out.old.items out.new.items }
{
    for text in texts.as_slice() {
        put_bytes(out, number, text.as_bytes())?;
    }
    Ok(())
}

/// Appends the signed number as field `number`. Appends nothing if the number is 0.
#[tactic(auto, unfolding(crate::specs::Canon::row_fields))]
pub fn put_signed(out: &mut Vec<u8>, number: u32, value: i64) -> Result<(), AllocError>
    requires { (1 ≤ number) × (number < 2 ^ 29) }
    ensures ok { OnOk result (out.new.items
        ≡ out.old.items ++ spellings (row_fields (signed_row number value))) }
    ensures kept { Keeps out.old.items out.new.items }
{
    if value == 0 {
        return Ok(());
    }
    put_varint(out, number, value.cast_unsigned())
}

/// Appends the flag as field `number`. Appends nothing if the flag is false.
#[tactic(auto, unfolding(crate::specs::Canon::row_fields))]
pub fn put_flag(out: &mut Vec<u8>, number: u32, flag: bool) -> Result<(), AllocError>
    requires { (1 ≤ number) × (number < 2 ^ 29) }
    ensures ok { OnOk result (out.new.items
        ≡ out.old.items ++ spellings (row_fields (flag_row number flag))) }
    ensures kept { Keeps out.old.items out.new.items }
{
    if !flag {
        return Ok(());
    }
    put_varint(out, number, 1)
}

/// Appends an empty message as field `number` if `present` is true. Appends nothing otherwise.
#[tactic(auto, unfolding(crate::specs::Canon::row_fields))]
pub fn put_presence(out: &mut Vec<u8>, number: u32, present: bool) -> Result<(), AllocError>
    requires { (1 ≤ number) × (number < 2 ^ 29) }
    ensures ok { OnOk result (out.new.items
        ≡ out.old.items ++ spellings (row_fields (presence_row number present))) }
    ensures kept { Keeps out.old.items out.new.items }
{
    if !present {
        return Ok(());
    }
    put_bytes(out, number, &[])
}

/// Appends an embedded message as field `number`: its tag, its length and its fields.
pub fn put_message<P, M: Written<P>>(
    out: &mut Vec<u8>,
    number: u32,
    message: &M,
) -> Result<(), AllocError>
    requires { (1 ≤ number) × (number < 2 ^ 29) }
    ensures ok { OnOk result (out.new.items
        ≡ out.old.items ++ spellings (payload_fields number (bytes_of (M.canon message.now) ∷ []))) }
    ensures fitting { OnOk result (FitsInner M.fits M.canon message.now) }
    ensures kept { Keeps out.old.items out.new.items }
{
    closed();
    put_bytes(out, number, &[])?;
    let from = out.len();
    message.write(out)?;
    close_bytes(out, from)
}

/// Appends the message as field `number`. Appends nothing if the message is `None`.
#[tactic(auto, unfolding(crate::specs::Canon::row_fields))]
pub fn put_option<P, M: Written<P>>(
    out: &mut Vec<u8>,
    number: u32,
    message: &Option<M>,
) -> Result<(), AllocError>
    requires { (1 ≤ number) × (number < 2 ^ 29) }
    ensures ok { OnOk result (out.new.items
        ≡ out.old.items ++ spellings (row_fields (option_row M.canon number message.now))) }
    ensures fitting { OnOk result (FitsOption M.fits M.canon message.now) }
    ensures kept { Keeps out.old.items out.new.items }
{
    match message {
        None => Ok(()),
        Some(message) => put_message(out, number, message),
    }
}

/// Appends one field for each message, all with the field number `number`.
#[tactic(auto, unfolding(crate::specs::Canon::row_fields))]
pub fn put_messages<P, M: Written<P>>(
    out: &mut Vec<u8>,
    number: u32,
    messages: &Items<M>,
) -> Result<(), AllocError>
    requires { (1 ≤ number) × (number < 2 ^ 29) }
    ensures ok { OnOk result (out.new.items
        ≡ out.old.items ++ spellings (row_fields (messages_row M.canon number messages.now))) }
    ensures fitting { OnOk result (FitsMessages M.fits M.canon messages.now) }
    ensures kept { Keeps out.old.items out.new.items }
{
    for message in messages.as_slice() {
        put_message(out, number, message)?;
    }
    Ok(())
}

/// Appends one field for each entry of the map, all with the field number `number`, in byte order of the
/// keys.
#[tactic(auto, unfolding(crate::specs::Canon::row_fields))]
pub fn put_map(out: &mut Vec<u8>, number: u32, map: &Map) -> Result<(), AllocError>
    requires { (1 ≤ number) × (number < 2 ^ 29) }
    ensures ok { OnOk result (out.new.items
        ≡ out.old.items ++ spellings (row_fields (map_row number map.now))) }
    ensures fitting { OnOk result (FitsMap map.now) }
    ensures kept { Keeps out.old.items out.new.items }
{
    for (key, value) in map.iter() {
        put_map_entry(out, number, key.as_str(), value.as_str())?;
    }
    Ok(())
}

/// Appends a map with one entry as field `number`. The caller needs no `Map`, which would own copies of the
/// key and the value.
#[tactic(auto, using(crate::proofs::EntryLemmas::one_entry, crate::proofs::EntryLemmas::one_entry_fits), unfolding(crate::specs::Canon::row_fields))]
pub fn put_single(out: &mut Vec<u8>, number: u32, key: &str, value: &str) -> Result<(), AllocError>
    requires { (1 ≤ number) × (number < 2 ^ 29) }
    ensures ok { OnOk result (out.new.items
        ≡ out.old.items ++ spellings (row_fields (map_row number (insert empty key.now value.now)))) }
    ensures fitting { OnOk result (FitsMap (insert empty key.now value.now)) }
    ensures kept { Keeps out.old.items out.new.items }
{
    put_map_entry(out, number, key, value)
}

// Appends an entry of a map as field `number`. The key and the value are both written, even if they are
// empty.
#[tactic(auto, unfolding(crate::specs::Canon::row_fields))]
fn put_map_entry(out: &mut Vec<u8>, number: u32, key: &str, value: &str) -> Result<(), AllocError>
    requires { (1 ≤ number) × (number < 2 ^ 29) }
    ensures ok { OnOk result (out.new.items
        ≡ out.old.items ++ spellings (payload_fields number
        (bytes_of (canon_map_entry (key.now, value.now)) ∷ []))) }
    ensures fitting { OnOk result (FitsInner FitsMapEntry canon_map_entry (key.now, value.now)) }
    ensures kept { Keeps out.old.items out.new.items }
{
    put_entry(out, number, key.as_bytes(), value.as_bytes())
}

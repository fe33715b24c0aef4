//! Decodes a message of any type in two passes. The first pass looks for faults and takes no memory. The
//! second pass builds the value.

ghost use Rattle.std.specs.Prelude.{◌≡◌, ◌↔◌, ℕ, List, [], ◌∷◌, ◌++◌, IsTrue, OnOk, IfOk, IfErr, MatchOption};
ghost use Rattle.pbwire.specs.Wire.{WireField};
ghost use Rattle.pbwire.specs.Reading.{wire_field_of};
ghost use Rattle.pbmessage.specs.Schema.{Schema, GoodField, Good};
ghost use Rattle.pbmessage.specs.Fields.{AreGood, IsRefusedAt, Refuses, Means, fields_of};
ghost use Rattle.pbmessage.specs.Views.{Views, views, no_views, with_number, with_payload, value_of};

use crate::laws;
use csi_types::{Boxed, Reason};
use pbwire::laws::spelled;
use pbwire::{Field, Fields, Value};
use std::alloc::{AllocError, Global};

/// A type that is decoded from the fields of a message, by merging the fields into an empty value in the
/// order of the bytes. The order of fields with different numbers does not matter, except for the members of
/// a oneof.
///
/// `P` is a type that represents the Protocol Buffers package of the message. The crate that implements this
/// trait must have its own type `P`, since the type of the value may belong to another crate.
pub trait Message<P>: Drop {
    /// The field numbers of the texts and embedded messages.
    ghost schema: { Schema };

    /// The value of the message, as a function of the views of its fields.
    ghost of: { Views → Self };

    /// Returns the value of a message without fields. Takes no memory.
    fn empty(alloc: Global) -> Self
        ensures { result ≡ of no_views };

    /// Returns true if this payload is well-formed for the field with this number. If it is not well-formed,
    /// a message with this field is malformed.
    fn is_good(number: u32, payload: &[u8]) -> bool
        ensures { IsTrue result ↔ Good schema number payload.now };

    /// Merges a field with a varint into the value. If no number or flag of the message has this field
    /// number, the value is unchanged.
    fn merge_number(&mut self, number: u32, value: u64)
        ensures { (v : Views) → self.old ≡ of v → self.new ≡ of (with_number number value v) };

    /// Merges a field with a payload into the value. The payload must be well-formed. If memory is refused, a
    /// part of the payload may have been merged.
    fn merge_payload(
        &mut self,
        alloc: Global,
        number: u32,
        payload: &[u8],
    ) -> Result<(), AllocError>
        requires { Good schema number payload.now }
        ensures { OnOk result ((v : Views) → self.old ≡ of v
            → self.new ≡ of (with_payload number payload.now v)) };
}

/// The beginning of the text that refuses a malformed message. The offset of the field follows in decimal.
pub const MALFORMED_MESSAGE: &str = "malformed message in the field at byte ";

/// The reason why a message cannot be decoded. `NoMemory` has the same `Display` as [`Reason::OutOfMemory`].
#[derive(Clone, Copy, Debug, PartialEq, Eq, thiserror::Error)]
pub enum DecodeFault {
    /// The bytes encode no value. The field at this offset is malformed, is a text that is not UTF-8, or is
    /// an embedded message that is malformed itself. All fields before it are well-formed.
    #[error("{}{at}", MALFORMED_MESSAGE)]
    Malformed {
        /// The offset of the field, in bytes from the start of the message.
        at: usize,
    },
    /// The bytes encode a value, and memory for it was refused.
    #[error("{}", Reason::OutOfMemory)]
    NoMemory,
}

fn is_good_field<P, M: Message<P>>(field: &Field<'_>) -> bool
    ensures { IsTrue result ↔ GoodField (Good M.schema) (wire_field_of field.now) }
{
    match field.value {
        Value::Bytes(payload) => M::is_good(field.number, payload),
        Value::Varint(_) | Value::Fixed64(_) | Value::Fixed32(_) => true,
    }
}

fn merge_field<P, M: Message<P>>(
    message: &mut M,
    alloc: Global,
    field: &Field<'_>,
) -> Result<(), AllocError>
    requires { GoodField (Good M.schema) (wire_field_of field.now) }
    ensures { OnOk result ((seen : List WireField) → message.old ≡ value_of M.of seen
        → message.new ≡ value_of M.of (seen ++ wire_field_of field.now ∷ [])) }
{
    match field.value {
        Value::Varint(number) => message.merge_number(field.number, number),
        Value::Bytes(payload) => message.merge_payload(alloc, field.number, payload)?,
        Value::Fixed64(_) | Value::Fixed32(_) => {}
    }
    Ok(())
}

/// Returns the offset of the first field that is not good, or `None` if the bytes are a list of good fields.
/// Takes no memory.
///
/// A field is good if it is well-formed. If its number belongs to a text or an embedded message, and the
/// field has a payload, the payload must be well-formed too.
pub fn first_fault<P, M: Message<P>>(bytes: &[u8]) -> Option<usize>
    ensures { MatchOption result (AreGood (GoodField (Good M.schema)) bytes.now)
        (IsRefusedAt (GoodField (Good M.schema)) bytes.now) }
{
    spelled();
    let mut fields = Fields::new(bytes);
    let mut offset = 0;
    while let Some(next) = fields.next_field() {
        let Ok(field) = next else {
            return Some(offset);
        };
        if !is_good_field::<P, M>(&field) {
            return Some(offset);
        }
        offset = fields.at();
    }
    None
}

/// Merges all fields of the bytes into the message. The bytes must be well-formed. If memory is refused, some
/// fields may have been merged.
pub fn merge<P, M: Message<P>>(
    message: &mut M,
    alloc: Global,
    bytes: &[u8],
) -> Result<(), AllocError>
    requires { AreGood (GoodField (Good M.schema)) bytes.now }
    ensures { OnOk result ((seen : List WireField) → message.old ≡ value_of M.of seen
        → message.new ≡ value_of M.of (seen ++ fields_of bytes.now)) }
{
    spelled();
    let mut fields = Fields::new(bytes);
    while let Some(next) = fields.next_field() {
        let Ok(field) = next else { unreachable!() };
        merge_field(message, alloc, &field)?;
    }
    Ok(())
}

/// Decodes a message from bytes that were found to be well-formed. Fails if memory is refused.
pub fn read<P, M: Message<P>>(alloc: Global, bytes: &[u8]) -> Result<M, AllocError>
    requires { AreGood (GoodField (Good M.schema)) bytes.now }
    ensures { IfOk result (λ message. message ≡ value_of M.of (fields_of bytes.now)) }
{
    let mut message = M::empty(alloc);
    merge(&mut message, alloc, bytes)?;
    Ok(message)
}

/// Decodes a message of type `M` in two passes: the first looks for faults, the second builds the value.
///
/// # Errors
///
/// `Malformed` if the bytes are malformed, which is checked before memory is taken. `NoMemory` if the bytes
/// are well-formed and memory is refused.
#[inline(always)]
pub fn decode_message<P, M: Message<P>>(alloc: Global, bytes: &[u8]) -> Result<M, DecodeFault>
    ensures ok { IfOk result (Means (GoodField (Good M.schema)) (value_of M.of) bytes.now) }
    ensures err { IfErr result (Refuses (GoodField (Good M.schema)) bytes.now) }
{
    laws::fields();
    if let Some(at) = first_fault::<P, M>(bytes) {
        return Err(DecodeFault::Malformed { at });
    }
    match read(alloc, bytes) {
        Ok(message) => Ok(message),
        Err(_) => Err(DecodeFault::NoMemory),
    }
}

/// Decodes a message of type `M` into a box, so that callers do not move the message.
///
/// # Errors
///
/// `Malformed` if the bytes are malformed, which is checked before memory is taken. `NoMemory` if the bytes
/// are well-formed and memory is refused.
pub fn decode_boxed<P, M: Message<P>>(alloc: Global, bytes: &[u8]) -> Result<Boxed<M>, DecodeFault>
    ensures ok { IfOk result (Means (GoodField (Good M.schema)) (value_of M.of) bytes.now) }
    ensures err { IfErr result (Refuses (GoodField (Good M.schema)) bytes.now) }
{
    let message = decode_message(alloc, bytes)?;
    let Ok(boxed) = Boxed::new(alloc, message) else {
        return Err(DecodeFault::NoMemory);
    };
    Ok(boxed)
}

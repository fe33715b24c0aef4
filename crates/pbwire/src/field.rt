//! Fields of a message, and the faults of bytes that are not a field.

use thiserror::Error;

/// The value of a field, by its wire type (Protocol Buffers encoding guide, "Message Structure").
#[derive(Clone, Copy, Debug)]
pub enum Value<'a> {
    /// Wire type 0 (`VARINT`): a number of up to 64 bits.
    Varint(u64),
    /// Wire type 1 (`I64`): eight bytes, little-endian.
    Fixed64([u8; 8]),
    /// Wire type 2 (`LEN`): the payload, borrowed from the message.
    Bytes(&'a [u8]),
    /// Wire type 5 (`I32`): four bytes, little-endian.
    Fixed32([u8; 4]),
}

/// One field of a message (Protocol Buffers encoding guide, "Message Structure").
#[derive(Clone, Copy, Debug)]
pub struct Field<'a> {
    /// The field's number, from 1 to 536,870,911.
    pub number: u32,
    /// The field's value. Its variant is the wire type.
    pub value: Value<'a>,
}

/// The reason why bytes are not a field. Only the first fault is reported. A fault of the tag comes before a
/// fault of the payload, and a fault of the tag's number comes before a fault of its wire type.
#[derive(Clone, Copy, Debug, PartialEq, Eq, Error)]
pub enum WireWhy {
    /// The tag, the value or the length is a malformed varint ("Base 128 Varints"): its tenth byte is above
    /// 1. So the varint has more than ten bytes, or its number has more than 64 bits.
    #[error("malformed varint")]
    Varint,
    /// The field number of the tag is 0, or the tag is 2^32 or more.
    #[error("malformed tag")]
    Tag,
    /// The wire type is not 0, 1, 2 or 5. Groups (wire types 3 and 4) are not supported.
    #[error("unknown wire type")]
    WireType,
    /// The message ends inside the field.
    #[error("field cut short")]
    CutShort,
}

/// A fault of bytes that are not a field: the reason, and the offset of the bytes in the message.
#[derive(Clone, Copy, Debug, PartialEq, Eq, Error)]
#[error("{why} at byte {at}")]
pub struct WireFault {
    /// The rule of the wire format that the bytes break.
    pub why: WireWhy,
    /// The offset of the faulty field's tag, in bytes from the start of the message.
    pub at: usize,
}

//! The parts of a reply, as they are in its frame.

/// The status, the text and the body in one frame of a reply. Text and body are borrowed from the bytes of
/// the frame.
#[derive(Clone, Copy, Debug)]
pub struct Reply<'a> {
    /// The status, which is one of ten codes (docs/PROTOCOL.md, "Status codes"). It is 0 if the call
    /// succeeded.
    pub status: u8,
    /// The reason why the call was refused: at most 1,024 bytes, each from 0x20 to 0x7E. It is empty if the
    /// status is 0.
    pub text: &'a [u8],
    /// The response message, encoded in the Protocol Buffers wire format: at most 4,194,304 bytes. It is
    /// empty if the status is not 0.
    pub body: &'a [u8],
}

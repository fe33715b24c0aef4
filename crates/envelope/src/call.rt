//! The parts of a call, as they are in its frame.

/// The path and the message in one frame of a call, borrowed from the bytes of the frame.
#[derive(Clone, Copy, Debug)]
pub struct Call<'a> {
    /// The path of the method, such as `/csi.v1.Identity/Probe`: 1 to 128 bytes, each from 0x21 to 0x7E.
    pub path: &'a [u8],
    /// The request message, encoded in the Protocol Buffers wire format: 0 to 1,048,576 bytes.
    pub message: &'a [u8],
}

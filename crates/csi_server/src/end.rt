//! The reasons why the server stops reading calls ([`RunEnd`]).

use envelope::FrameFault;

/// The reason why the server stopped reading a stream of calls. Each reason also says which calls were
/// answered.
#[derive(Clone, Copy, Debug, PartialEq, Eq)]
pub enum RunEnd {
    /// The input ended after a complete frame, or had no bytes. All calls were answered.
    Done,
    /// A frame of the stream is malformed, or the input ended inside a frame. All calls before this frame
    /// were answered, and then the frame was refused.
    Malformed(FrameFault),
    /// A read failed. All calls whose frames were complete were answered.
    ReadFailed,
    /// The limit of 2^32 reads was reached. All calls whose frames were complete were answered.
    TurnsSpent,
    /// A write or a flush of a reply failed, or a write took no byte. All earlier replies were written. Of
    /// the bytes of this reply, none, some or all were written.
    WriteFailed,
    /// Memory for the buffer of frames was refused. Nothing was read or written.
    NoMemory,
}

//! Writes a frame.
//!
//! The errors are std's `io::Error`. Code that sends a frame displays the error or sends the frame again, so
//! it needs no error type of this project.

ghost use Rattle.std.specs.Prelude.{OnOk};
ghost use Rattle.std.specs.Io.KnownBytes.{Appends};
ghost use Rattle.frames_core.specs.Writing.{WrotePrefix};

use std::io::{self, ErrorKind, Write};

// Writes all of the bytes, or fails after a prefix of them. The contract of std's `write_all` does not
// promise that only a prefix was written if it fails. The client of a change store needs this promise.
#[inline(always)]
fn put<W: Write>(writer: &mut W, bytes: &[u8]) -> io::Result<()>
    ensures all { OnOk result (Appends (W.contents writer.old) (W.contents writer.new) bytes.now) }
    ensures part { WrotePrefix (W.contents writer.old) (W.contents writer.new) bytes.now }
{
    let mut at = 0;
    while at < bytes.len() {
        let (_, rest) = bytes.split_at(at);
        let count = writer.write(rest)?;
        if count == 0 {
            return Err(io::Error::from(ErrorKind::WriteZero));
        }
        at += count;
    }
    Ok(())
}

/// Writes all bytes of a frame, and flushes the writer.
///
/// # Errors
///
/// If a write or the flush fails, a write is interrupted, or a write takes no byte. A prefix of the bytes was
/// then written, which may be empty or complete.
///
/// # Not promised
///
/// The contract does not say that the bytes are flushed. Cases of `test_bytes` show that they are.
#[inline(always)]
pub fn send<W: Write>(writer: &mut W, frame: &[u8]) -> io::Result<()>
    ensures all { OnOk result (Appends (W.contents writer.old) (W.contents writer.new) frame.now) }
    ensures part { WrotePrefix (W.contents writer.old) (W.contents writer.new) frame.now }
{
    put(writer, frame)?;
    writer.flush()
}

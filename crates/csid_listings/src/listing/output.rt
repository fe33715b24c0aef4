//! Writes lists on standard output.

use csid_settings::Failure;
use std::io::{ErrorKind, Write};

// The number of bytes that are collected before they are written, so that a long list needs few writes.
const FULL: usize = 1 << 16;

/// Standard output, written in large pieces. Once its reader has gone, further texts are dropped without a
/// failure.
#[derive(Drop)]
pub(crate) struct Output<'a> {
    rt: &'a HostRuntime,
    text: String,
    is_gone: bool,
}

impl<'a> Output<'a> {
    pub(crate) fn new(rt: &'a HostRuntime) -> Output<'a> {
        Output {
            rt,
            text: String::new(rt.alloc()),
            is_gone: false,
        }
    }

    /// Writes the bytes that were collected. If the reader of standard output has gone, drops them without a
    /// failure.
    ///
    /// # Errors
    ///
    /// If the write fails for another reason. The bytes are dropped then too.
    pub(crate) fn flush(&mut self) -> Result<(), Failure> {
        let mut out = self.rt.stdout();
        let written = out
            .write_all(self.text.as_bytes())
            .and_then(|()| out.flush());
        self.text.clear();
        match written {
            Ok(()) => Ok(()),
            Err(error) if error.kind() == ErrorKind::BrokenPipe => {
                self.is_gone = true;
                Ok(())
            }
            Err(_) => Err(Failure::WriteFailed("standard output")),
        }
    }

    /// Appends a text, and writes the collected bytes if there are 64 KiB or more.
    ///
    /// # Errors
    ///
    /// If memory is refused, or the write fails while standard output has a reader.
    pub(crate) fn push(&mut self, text: &str) -> Result<(), Failure> {
        if self.is_gone {
            return Ok(());
        }
        self.text.push_str(text)?;
        if self.text.len() < FULL {
            return Ok(());
        }
        self.flush()
    }
}

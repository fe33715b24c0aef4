//! Standard output that remembers why a write failed. `csictl show` and `csictl vectors` need it, since they
//! write through crates that report only that a write failed.

use crate::failure::Failure;
use std::io::{self, ErrorKind, Write};

/// Standard output, which remembers if its reader has closed it.
#[derive(Drop)]
pub(crate) struct Output<'a> {
    rt: &'a HostRuntime,
    is_gone: bool,
}

impl<'a> Output<'a> {
    /// Makes an output on which no write has failed yet.
    pub(crate) fn new(rt: &'a HostRuntime) -> Output<'a> {
        Output { rt, is_gone: false }
    }

    /// Returns the failure of the last failed write: [`Failure::ReaderGone`] if the reader has closed
    /// standard output, otherwise [`Failure::WriteFailed`].
    pub(crate) fn failure(&self) -> Failure {
        if self.is_gone {
            Failure::ReaderGone
        } else {
            Failure::WriteFailed
        }
    }
}

impl Write for Output<'_> {
    fn write(&mut self, buf: &[u8]) -> io::Result<usize> {
        match self.rt.stdout().write(buf) {
            Err(error) => {
                self.is_gone = error.kind() == ErrorKind::BrokenPipe;
                Err(error)
            }
            written => written,
        }
    }

    fn flush(&mut self) -> io::Result<()> {
        self.rt.stdout().flush()
    }
}

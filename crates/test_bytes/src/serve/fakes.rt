//! A reader and a writer that move few bytes at a time, and fail at a chosen call.

use std::alloc::Global;
use std::cell::Cell;
use std::io;
use std::io::{ErrorKind, Read, Write};

/// The size in bytes of the buffer of each read of the server, which is the greatest size of a piece.
pub(crate) const GREATEST_PIECE: usize = 4096;

/// The state that the reader and the writer of one run share.
#[derive(Drop)]
pub(crate) struct Watch {
    // True if all written bytes are flushed.
    is_flushed: Cell<bool>,
    // True if a fault is known, or a write or a flush failed.
    is_over: Cell<bool>,
    // True if a read was made after a fault was known, or after a write or a flush failed.
    has_read_on: Cell<bool>,
}

impl Watch {
    /// Makes the state before any read or write.
    pub(crate) fn new() -> Watch {
        Watch {
            is_flushed: Cell::new(true),
            is_over: Cell::new(false),
            has_read_on: Cell::new(false),
        }
    }

    /// Returns true if the server has read after a fault was known, or after a write or a flush failed.
    pub(crate) fn has_read_on(&self) -> bool {
        self.has_read_on.get()
    }
}

/// The bytes of a stream, and how a reader returns them: in pieces up to a greatest size, which may differ
/// for the first piece, and with at most one failing read. Also says after how many bytes a fault is known.
#[derive(Clone, Copy)]
pub(crate) struct Pieces<'a> {
    bytes: &'a [u8],
    // The greatest sizes of the first piece and of the other pieces.
    first: usize,
    size: usize,
    // The number of reads before the failing read, or `None` if no read fails.
    fails_after: Option<u64>,
    // The number of bytes until a fault is known, or `None` if the stream has no fault.
    until_fault: Option<usize>,
}

impl<'a> Pieces<'a> {
    /// Makes pieces of at most `size` bytes. No read fails.
    pub(crate) fn new(bytes: &'a [u8], size: usize) -> Pieces<'a> {
        Pieces {
            bytes,
            first: size,
            size,
            fails_after: None,
            until_fault: None,
        }
    }

    /// Makes a first piece of at most `first` bytes, and further pieces of at most [`GREATEST_PIECE`] bytes.
    /// No read fails.
    pub(crate) fn cut_at(bytes: &'a [u8], first: usize) -> Pieces<'a> {
        Pieces {
            bytes,
            first,
            size: GREATEST_PIECE,
            fails_after: None,
            until_fault: None,
        }
    }

    /// Makes pieces of one byte. The read after the first `pieces` pieces fails.
    pub(crate) fn failing(bytes: &'a [u8], pieces: u64) -> Pieces<'a> {
        Pieces {
            bytes,
            first: 1,
            size: 1,
            fails_after: Some(pieces),
            until_fault: None,
        }
    }

    /// Returns the same pieces, for a stream whose fault is known after `known_at` bytes. `None` means a
    /// stream without a fault.
    pub(crate) fn with_fault_at(self, known_at: Option<usize>) -> Pieces<'a> {
        Pieces {
            until_fault: known_at,
            ..self
        }
    }
}

/// A reader that returns pieces to a server. A read fails if its buffer does not have [`GREATEST_PIECE`]
/// bytes, if the server has written bytes and not flushed them, or if the pieces let this read fail.
#[derive(Drop)]
pub(crate) struct Reader<'a> {
    pieces: Pieces<'a>,
    watch: &'a Watch,
}

impl<'a> Reader<'a> {
    /// Makes a reader that returns these pieces. If the server reads after a fault is known, or after a write
    /// or a flush failed, the reader notes this in `watch`.
    pub(crate) fn new(pieces: Pieces<'a>, watch: &'a Watch) -> Reader<'a> {
        Reader { pieces, watch }
    }

    // Counts the bytes that were returned. If they make a fault known, notes that the run is over.
    fn count(&mut self, given: usize) {
        if let Some(left) = self.pieces.until_fault {
            let left = left.saturating_sub(given);
            self.pieces.until_fault = Some(left);
            if left == 0 {
                self.watch.is_over.set(true);
            }
        }
    }

    // Returns true if this read fails. Counts down the reads before the failing read.
    fn is_failing(&mut self) -> bool {
        match self.pieces.fails_after {
            Some(0) => {
                self.pieces.fails_after = None;
                true
            }
            Some(reads) => {
                self.pieces.fails_after = Some(reads - 1);
                false
            }
            None => false,
        }
    }
}

impl Read for Reader<'_> {
    fn read(&mut self, buf: &mut [u8]) -> io::Result<usize> {
        if self.watch.is_over.get() {
            self.watch.has_read_on.set(true);
        }
        if !self.watch.is_flushed.get() || buf.len() != GREATEST_PIECE {
            return Err(io::Error::from(ErrorKind::Other));
        }
        if self.is_failing() {
            return Err(io::Error::from(ErrorKind::Interrupted));
        }
        let count = self
            .pieces
            .bytes
            .len()
            .min(self.pieces.first)
            .min(buf.len());
        self.pieces.first = self.pieces.size;
        let (piece, rest) = self.pieces.bytes.split_at(count);
        buf[..count].copy_from_slice(piece);
        self.pieces.bytes = rest;
        self.count(count);
        Ok(count)
    }
}

/// The trouble that a writer has at one call.
#[derive(Clone, Copy, PartialEq, Eq)]
pub(crate) enum Trouble {
    /// Nothing goes wrong.
    Never,
    /// A write fails with an error.
    Write,
    /// A write takes no bytes, and returns 0.
    Nothing,
    /// A flush fails with an error.
    Flush,
}

/// The behaviour of a writer: the greatest number of bytes that it takes in one write, and the trouble that
/// it has once.
#[derive(Clone, Copy)]
pub(crate) struct Takes {
    size: usize,
    trouble: Trouble,
    after: u64,
}

impl Takes {
    /// Makes the behaviour of a writer that takes all bytes of each write, without trouble.
    pub(crate) fn all() -> Takes {
        Takes::troubled(usize::MAX, Trouble::Never, 0)
    }

    /// Makes the behaviour of a writer that takes at most `size` bytes of each write and has the trouble
    /// once. [`Trouble::Flush`] comes after `after` flushes, and other troubles come after `after` writes.
    pub(crate) fn troubled(size: usize, trouble: Trouble, after: u64) -> Takes {
        Takes {
            size,
            trouble,
            after,
        }
    }
}

/// A writer that stores its bytes in memory.
#[derive(Drop)]
pub(crate) struct Writer<'a> {
    takes: Takes,
    bytes: Vec<u8>,
    watch: &'a Watch,
}

impl<'a> Writer<'a> {
    /// Makes a writer that has taken no bytes.
    pub(crate) fn new(alloc: Global, takes: Takes, watch: &'a Watch) -> Writer<'a> {
        Writer {
            takes,
            bytes: Vec::new(alloc),
            watch,
        }
    }

    /// Returns all bytes that the writer took, in the order in which it took them.
    pub(crate) fn into_bytes(self) -> Vec<u8> {
        self.bytes
    }

    // Returns true if the writer has this trouble at this call. If this trouble comes later, counts down the
    // calls before it.
    fn is_due(&mut self, trouble: Trouble) -> bool {
        if self.takes.trouble != trouble {
            return false;
        }
        if self.takes.after == 0 {
            self.takes.trouble = Trouble::Never;
            self.watch.is_over.set(true);
            return true;
        }
        self.takes.after -= 1;
        false
    }
}

impl Write for Writer<'_> {
    fn write(&mut self, buf: &[u8]) -> io::Result<usize> {
        if self.is_due(Trouble::Write) {
            return Err(io::Error::from(ErrorKind::Interrupted));
        }
        if self.is_due(Trouble::Nothing) {
            return Ok(0);
        }
        let count = self.takes.size.min(buf.len());
        let (taken, _) = buf.split_at(count);
        self.bytes.extend_from_slice(taken)?;
        self.watch.is_flushed.set(false);
        Ok(count)
    }

    fn flush(&mut self) -> io::Result<()> {
        if self.is_due(Trouble::Flush) {
            return Err(io::Error::from(ErrorKind::Interrupted));
        }
        self.watch.is_flushed.set(true);
        Ok(())
    }
}

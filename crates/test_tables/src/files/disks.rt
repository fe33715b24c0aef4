//! A disk with troubles, over any other disk.

ghost use Rattle.std.specs.Prelude.{◌+◌, false};
ghost use Rattle.sqlite_disk.specs.Tally.{both_counts};

use sqlite_disk::{Crash, Disk, Fuse, Memory, Tally, digest_of};
use std::io::{self, ErrorKind};

/// A wrong byte of a disk. Each read of the byte at offset `at` returns this byte with `bits` flipped.
#[derive(Clone, Copy)]
pub(crate) struct Lie {
    pub(crate) at: usize,
    pub(crate) bits: u8,
}

/// A disk that is full after a number of writes: each later write fails and changes nothing. If a [`Lie`] is
/// given, reads return a wrong byte: `read_at` returns it undetected, and `read_checked` detects it by a
/// digest.
#[derive(Drop)]
pub(crate) struct Faulty<D: Disk> {
    inner: D,
    writes_left: u64,
    refused: u64,
    lie: Option<Lie>,
    // The number of reads that a digest found wrong, and the number of other reads that failed.
    caught: u64,
    failed: u64,
}

impl<D: Disk> Faulty<D> {
    /// Makes a disk over `inner` that is full after `writes` writes. If `lie` is given, reads return the
    /// wrong byte that it describes.
    pub(crate) fn new(inner: D, writes: u64, lie: Option<Lie>) -> Faulty<D> {
        Faulty {
            inner,
            writes_left: writes,
            refused: 0,
            lie,
            caught: 0,
            failed: 0,
        }
    }
}

// If the wrong byte is in `buf`, which was read at offset `at`, flips its bits.
fn turn(lie: Option<Lie>, at: usize, buf: &mut [u8]) {
    let Some(Lie { at: place, bits }) = lie else {
        return;
    };
    if at <= place && place - at < buf.len() {
        buf[place - at] ^= bits;
    }
}

impl<D: Disk> Disk for Faulty<D> {
    ghost seen = { λ f. D.Disk.seen f.inner };

    ghost may_leave = { λ f. D.Disk.may_leave f.inner };

    ghost is_usable = { λ f. D.Disk.is_usable f.inner };

    ghost faults = { λ f. D.Disk.faults f.inner + f.refused + f.caught + f.failed };

    ghost tally_of = { λ f. both_counts (D.Disk.tally_of f.inner) (record {
      caught = f.caught;
      refused = f.refused;
    }) };

    ghost key_of = { λ f. D.Disk.key_of f.inner };

    ghost is_clean = { λ _. false };

    ghost is_fair = { λ _ _. false };

    ghost fair_if_clean = { λ _ _ clean. clean };

    ghost seen_may_stay = { λ f. D.Disk.seen_may_stay f.inner };

    ghost is_mixing = { λ f. D.Disk.is_mixing f.inner };

    fn mixes(&self) -> bool {
        self.inner.mixes()
    }

    fn key(&self) -> u64 {
        self.inner.key()
    }

    fn tally(&self) -> Tally {
        self.inner.tally().plus(Tally {
            caught: self.caught,
            refused: self.refused,
        })
    }

    fn may_be_used(&self) -> bool {
        self.inner.may_be_used()
    }

    fn len(&mut self) -> io::Result<usize> {
        self.inner.len()
    }

    fn read_at(&mut self, at: usize, buf: &mut [u8]) -> io::Result<()> {
        if let Err(error) = self.inner.read_at(at, buf) {
            self.failed = self.failed.saturating_add(1);
            return Err(error);
        }
        turn(self.lie, at, buf);
        Ok(())
    }

    fn read_checked(&mut self, key: u64, want: u64, at: usize, buf: &mut [u8]) -> io::Result<()> {
        self.read_at(at, buf)?;
        if digest_of(key, buf) != want {
            self.caught = self.caught.saturating_add(1);
            return Err(ErrorKind::InvalidData.into());
        }
        Ok(())
    }

    fn write_at(&mut self, at: usize, bytes: &[u8]) -> io::Result<()> {
        if self.writes_left == 0 {
            self.refused = self.refused.saturating_add(1);
            return Err(ErrorKind::StorageFull.into());
        }
        self.writes_left -= 1;
        self.inner.write_at(at, bytes)
    }

    fn set_len(&mut self, len: usize) -> io::Result<()> {
        self.inner.set_len(len)
    }

    fn sync(&mut self) -> io::Result<()> {
        self.inner.sync()
    }
}

impl<D: Crash> Crash for Faulty<D> {
    fn crash(&mut self) {
        self.inner.crash();
    }
}

/// A disk over a file in memory, which can stop, be full or have a wrong byte. The sections are generic over
/// this trait, so that their proofs do not look into the type of the disk.
pub(crate) trait TestDisk: Crash + Drop {
    /// Makes a disk over `file`. It stops after `calls` calls, and is full after `writes` writes. If `lie` is
    /// given, reads return the wrong byte that it describes.
    fn over(file: Memory, calls: u64, writes: u64, lie: Option<Lie>) -> Self;

    /// Returns the file in memory that the disk writes to.
    fn memory(&self) -> &Memory;

    /// Returns true if a write has failed because the disk was full.
    fn is_full(&self) -> bool;
}

impl TestDisk for Faulty<Fuse<Memory>> {
    fn over(file: Memory, calls: u64, writes: u64, lie: Option<Lie>) -> Faulty<Fuse<Memory>> {
        Faulty::new(Fuse::new(file, calls), writes, lie)
    }

    fn memory(&self) -> &Memory {
        self.inner.inner()
    }

    fn is_full(&self) -> bool {
        self.refused > 0
    }
}

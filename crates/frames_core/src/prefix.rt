//! Takes the part of a piece of bytes that belongs to the current frame.

ghost use Rattle.std.specs.Prelude.{◌≡◌, ◌≢◌, ℕ, ◌+◌, ◌<◌, ◌≤◌, ◌++◌, false, IsTrue, length};
ghost use Rattle.std.specs.Prelude.{slice_index, min, vec_len, vec_capacity};
ghost use Rattle.frames_core.specs.Prefix.{TakesPrefix, Misses};
ghost use Rattle.envelope.specs.Grammar.{IsUnbroken};
ghost use Rattle.envelope.specs.Head.{IsShort, most_frame};

use envelope::{Flaw, FrameKind, Head, Look, look_at};

/// The bytes of a piece that [`take_prefix`] took, and the result of taking them.
#[derive(Clone, Copy)]
pub(crate) struct Prefix {
    /// The number of bytes of the piece that were taken.
    pub count: usize,
    /// The rule that the last taken byte breaks, or `None` if no rule is broken. The place in the flaw is
    /// counted from the start of the held bytes.
    pub flaw: Option<Flaw>,
    /// True if the held bytes are now a complete frame.
    pub whole: bool,
}

/// Takes bytes of the piece up to the end of one frame, or up to the byte that breaks a rule of the envelope.
/// If the piece has neither, takes all of it.
///
/// First appends the bytes that may belong to the head to the buffer and looks at them. If the frame ends in
/// these bytes, or one of them breaks a rule, removes the bytes after that place. Otherwise appends the bytes
/// of the body that the piece has, in one block. The buffer must have room for the longest frame.
#[inline(always)]
pub(crate) fn take_prefix(kind: FrameKind, buffer: &mut Vec<u8>, piece: &[u8]) -> Prefix
    requires room { most_frame kind ≤ vec_capacity buffer.old }
    requires unbroken { IsUnbroken kind buffer.old.items }
    requires short { IsShort kind buffer.old.items }
    ensures room { most_frame kind ≤ vec_capacity buffer.new }
    ensures takes { TakesPrefix kind buffer.old.items piece.now buffer.new.items result }
{
    let before = buffer.len();
    let (head, rest) = piece.split_at(at_most(
        piece.len(),
        kind.most_head().saturating_sub(before),
    ));
    append(buffer, head);
    match look_at(kind, buffer.as_slice(), before) {
        Look::Broken(flaw, size) => {
            buffer.truncate(size);
            Prefix {
                count: size - before,
                flaw: Some(flaw),
                whole: false,
            }
        }
        Look::Whole(size) => {
            buffer.truncate(size);
            Prefix {
                count: size - before,
                flaw: None,
                whole: true,
            }
        }
        Look::Short => {
            let missing = missing(kind, buffer.as_slice());
            let (more, _) = rest.split_at(at_most(rest.len(), missing));
            append(buffer, more);
            Prefix {
                count: head.len() + more.len(),
                flaw: None,
                whole: are_all(more.len(), missing),
            }
        }
    }
}

/// A fact for proofs: each value of type `u8` is below 256.
pub(crate) fn each_fits(bytes: &[u8])
    ensures { (k : ℕ) → slice_index bytes.now k < 256 }
{}

fn at_most(n: usize, bound: usize) -> usize
    ensures { result ≡ min n bound }
{
    if n < bound { n } else { bound }
}

// Appends the bytes. The buffer must have room for them.
#[inline(always)]
fn append(buffer: &mut Vec<u8>, bytes: &[u8])
    requires { vec_len buffer.old + length bytes.now ≤ vec_capacity buffer.old }
    ensures items { buffer.new.items ≡ buffer.old.items ++ bytes.now }
    ensures capacity { vec_capacity buffer.old ≤ vec_capacity buffer.new }
{
    if buffer.extend_from_slice(bytes).is_err() {
        unreachable!();
    }
}

// Returns true if `count` is the number of missing bytes. The number of missing bytes is 0 until the length
// of the body is known, and then the result is false.
#[inline(always)]
fn are_all(count: usize, missing: usize) -> bool
    ensures all { IsTrue result → (0 < missing) × (count ≡ missing) }
    ensures fewer { (result ≡ false) → 0 < missing → count ≢ missing }
{
    missing > 0 && count == missing
}

// Returns the number of bytes that the body still lacks, or 0 if the length of the body is not known yet.
#[tactic(auto, unfolding(envelope::specs::Head::IsShort))]
#[inline(always)]
fn missing(kind: FrameKind, bytes: &[u8]) -> usize
    requires { IsShort kind bytes.now }
    ensures { Misses kind bytes.now result }
{
    match Head::read(kind, bytes) {
        None => 0,
        Some(head) => head.frame_bytes() - bytes.len(),
    }
}

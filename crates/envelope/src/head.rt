//! Looks for a frame at the start of bytes, and for the first rule that the bytes break.

ghost use Rattle.std.specs.Prelude.{◌≡◌, ℕ, ◌+◌, ◌-◌, ◌<◌, ◌≤◌, ◌↔◌, ◌≢◌, ◌⊎◌, length, take, slice_index, false, IsTrue, MatchOption};
ghost use Rattle.envelope.specs.declared.kind.FrameKind.TheVariants.{Calls, Replies};
ghost use Rattle.envelope.specs.Grammar.{lead, text_length, body_length, IsUnbroken};
ghost use Rattle.envelope.specs.Envelope.{IsCall, bytes_of, frame, IsReply, reply_bytes_of, reply};
ghost use Rattle.envelope.specs.Head.{item, Says, IsHead, IsWhole, Looks, AreGoodBytes, IsBadByte};

use crate::call::Call;
use crate::kind::{FrameKind, Part};
use crate::reply::Reply;

// Returns the length of the text, from the two bytes before the text.
#[tactic(auto, unfolding(crate::specs::Grammar::text_length))]
#[inline(always)]
fn text_length_of(kind: FrameKind, bytes: &[u8]) -> usize
    requires { lead kind + 2 ≤ length bytes.now }
    ensures value { result ≡ text_length kind bytes.now }
    ensures bound { result < 65536 }
{
    let at = kind.lead();
    usize::from(bytes[at]) * 256 + usize::from(bytes[at + 1])
}

// Returns the length of the body, from the four bytes after the flag.
#[tactic(auto, unfolding(crate::specs::Grammar::body_length))]
#[inline(always)]
fn body_length_of(kind: FrameKind, bytes: &[u8], from: usize) -> usize
    requires from { from ≡ lead kind + 3 + text_length kind bytes.now }
    requires there { from + 4 ≤ length bytes.now }
    ensures value { result ≡ body_length kind bytes.now }
    ensures bound { result < 4294967296 }
{
    usize::from(bytes[from]) * 16777216
        + usize::from(bytes[from + 1]) * 65536
        + usize::from(bytes[from + 2]) * 256
        + usize::from(bytes[from + 3])
}

/// The offset and the length of a frame's body, read from the bytes before the body.
#[derive(Clone, Copy)]
pub struct Head {
    /// The offset of the body in the frame, in bytes.
    pub body_at: usize,
    /// The length of the body in bytes.
    pub body_length: usize,
}

impl Head {
    /// Reads the head of a frame. Returns `None` if a byte before the body is missing.
    #[inline(always)]
    pub fn read(kind: FrameKind, bytes: &[u8]) -> Option<Head>
        ensures { MatchOption result (length bytes.now < lead kind + 7 + text_length kind bytes.now)
            (IsHead kind bytes.now) }
    {
        let lead = kind.lead();
        if bytes.len() < lead + 7 {
            return None;
        }
        let text_length = text_length_of(kind, bytes);
        if bytes.len() < lead + 7 + text_length {
            return None;
        }
        Some(Head {
            body_at: lead + 7 + text_length,
            body_length: body_length_of(kind, bytes, lead + 3 + text_length),
        })
    }

    /// Returns the length of the whole frame in bytes. The head must come from [`read`](Head::read), which
    /// bounds the two numbers in it.
    pub fn frame_bytes(self) -> usize
        requires { (self.body_at < 65544) × (self.body_length < 4294967296) }
        ensures { result ≡ self.body_at + self.body_length }
    {
        self.body_at + self.body_length
    }
}

/// Returns true if the bytes have exactly the length that the head of their frame gives. Returns false if a
/// byte of the head is missing.
///
/// If the bytes also break no rule ([`look_at`]), they are exactly one frame.
#[tactic(auto, unfolding(crate::specs::Head::IsWhole))]
#[inline(always)]
pub fn is_whole(kind: FrameKind, bytes: &[u8]) -> bool
    ensures { IsTrue result ↔ IsWhole kind bytes.now }
{
    match Head::read(kind, bytes) {
        None => false,
        Some(head) => bytes.len() == head.frame_bytes(),
    }
}

/// A rule of the envelope that a frame breaks, and the place of the break.
#[derive(Clone, Copy)]
pub struct Flaw {
    /// The part of the frame that breaks the rule.
    pub part: Part,
    /// The offset of the byte that breaks the rule, counted from the start of the frame. For a length, the
    /// offset of its first byte.
    pub at: usize,
}

/// The result of [`look_at`]: the input begins with an incomplete frame, with a complete frame, or with bytes
/// that break a rule of frames.
#[derive(Clone, Copy)]
pub enum Look {
    /// The bytes are empty, or they are the start of a frame that is not complete. They break no rule.
    Short,
    /// The bytes begin with a complete frame. The number is the length of the frame in bytes.
    Whole(usize),
    /// The bytes break a rule. The number counts the bytes up to and including the byte that shows the break.
    Broken(Flaw, usize),
}

/// Looks for a complete frame or a broken rule at the start of `bytes`. An earlier call must have looked at
/// the first `seen` bytes and found no broken rule. For a first look, `seen` is 0.
///
/// The call takes time in proportion to the number of text bytes after the first `seen` bytes. It does not
/// read the body.
#[inline(always)]
pub fn look_at(kind: FrameKind, bytes: &[u8], seen: usize) -> Look
    requires within { seen ≤ length bytes.now }
    requires prefix { IsUnbroken kind (take seen bytes.now) }
    ensures { Looks kind bytes.now result }
{
    let lead = kind.lead();
    if kind.has_bad_status(bytes) {
        return broken(Part::Status, 0, 1);
    }
    if bytes.len() < lead + 2 {
        return Look::Short;
    }
    let text_length = text_length_of(kind, bytes);
    if text_length < kind.least_text() || text_length > kind.most_text(bytes[0]) {
        return broken(Part::TextLength, lead, lead + 2);
    }
    if let Some(at) = bad_byte(kind, bytes, seen, lead + 2 + text_length) {
        return broken(Part::Text, at, at + 1);
    }
    if bytes.len() < lead + 3 + text_length {
        return Look::Short;
    }
    if bytes[lead + 2 + text_length] != 0 {
        return broken(Part::Flag, lead + 2 + text_length, lead + 3 + text_length);
    }
    let Some(head) = Head::read(kind, bytes) else {
        return Look::Short;
    };
    if head.body_length > kind.most_body(bytes[0]) {
        return broken(
            Part::BodyLength,
            lead + 3 + text_length,
            lead + 7 + text_length,
        );
    }
    if bytes.len() < head.frame_bytes() {
        return Look::Short;
    }
    Look::Whole(head.frame_bytes())
}

fn broken(part: Part, at: usize, size: usize) -> Look
    ensures { result ≡ Look.Broken (record { part = part; at = at }) size }
{
    Look::Broken(Flaw { part, at }, size)
}

// Looks at the bytes of the text from the offset `from` to below `end`. Returns the offset of the first byte
// that a text of this kind may not have, or `None` if there is no such byte.
#[inline(always)]
fn bad_byte(kind: FrameKind, bytes: &[u8], from: usize, end: usize) -> Option<usize>
    ensures { MatchOption result (AreGoodBytes kind bytes.now from end (length bytes.now))
        (λ at. IsBadByte kind bytes.now from end at) }
{
    let least = kind.least_byte();
    let first = from.max(kind.lead() + 2);
    let last = end.min(bytes.len());
    for i in first..last {
        let byte = bytes[i];
        if byte < least || byte > 126 {
            return Some(i);
        }
    }
    None
}

// Returns the text and the body of a complete frame.
#[tactic(auto, unfolding(crate::specs::Head::IsWhole))]
#[inline(always)]
fn parts(kind: FrameKind, bytes: &[u8]) -> (&[u8], &[u8])
    requires unbroken { IsUnbroken kind bytes.now }
    requires whole { IsWhole kind bytes.now }
    ensures { Says kind bytes.now (item kind (slice_index bytes.now 0) result.0.now result.1.now) }
{
    let text_length = text_length_of(kind, bytes);
    let (_, rest) = bytes.split_at(kind.lead() + 2);
    let (text, rest) = rest.split_at(text_length);
    let (_, body) = rest.split_at(5);
    (text, body)
}

/// Returns the call of a complete frame. Its path and message borrow from the bytes, which must break no rule
/// ([`look_at`]) and be complete ([`is_whole`]).
#[inline(always)]
pub fn call_of(bytes: &[u8]) -> Call<'_>
    requires { IsUnbroken Calls bytes.now × IsWhole Calls bytes.now }
    ensures { IsCall (bytes_of result) × (bytes.now ≡ frame (bytes_of result)) }
{
    let (path, message) = parts(FrameKind::Calls, bytes);
    Call { path, message }
}

/// Returns the reply of a complete frame. Its text and body borrow from the bytes, which must break no rule
/// ([`look_at`]) and be complete ([`is_whole`]).
#[tactic(auto, unfolding(crate::specs::Head::IsWhole))]
pub fn reply_of(bytes: &[u8]) -> Reply<'_>
    requires { IsUnbroken Replies bytes.now × IsWhole Replies bytes.now }
    ensures { IsReply (reply_bytes_of result) × (bytes.now ≡ reply (reply_bytes_of result)) }
{
    let (text, body) = parts(FrameKind::Replies, bytes);
    Reply {
        status: bytes[0],
        text,
        body,
    }
}

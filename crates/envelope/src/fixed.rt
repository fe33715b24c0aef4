//! Heads of replies, refusals and texts of faults, in arrays of a fixed size.

ghost use Rattle.std.specs.Prelude.{◌≡◌, ◌≢◌, true, ℕ, ◌+◌, ◌<◌, ◌≤◌, [], ◌∷◌, ◌++◌, List, length, take, decimal, All};
ghost use Rattle.envelope.specs.Envelope.{reply, is_status, IsReply, IsTextByte};
ghost use Rattle.envelope.specs.Texts.{fault_words};

use crate::fault::FrameFault;
use crate::limits::{MAX_REFUSAL_TEXT_BYTES, REPLY_HEAD_BYTES};
use itoa::Buffer;
use std::marker::Model;

/// A list of at most `N` bytes in an array. Contracts see only the list of bytes.
#[derive(Drop)]
pub struct Fixed<const N: usize> {
    array: [u8; N],
    len: usize,
}

impl<const N: usize> Model for Fixed<N> {
    ghost Value = { List ℕ };

    ghost view = { λ f. take f.len f.array };

    ghost invariant = { λ f. f.len ≤ N };
}

/// The frame of a refusal, or the head of a reply's frame: at most 168 bytes.
pub type FixedFrame = Fixed<168>;

/// One line of text, of at most 140 bytes.
pub type FixedText = Fixed<140>;

impl<const N: usize> Fixed<N> {
    fn new() -> Self
        ensures { result ≡ [] }
    {
        Fixed {
            array: [0; N],
            len: 0,
        }
    }

    fn push(&mut self, byte: u8)
        requires { length self.old < N }
        ensures { self.new ≡ self.old ++ byte ∷ [] }
    {
        self.array[self.len] = byte;
        self.len += 1;
    }

    fn extend(&mut self, bytes: &[u8])
        requires { length self.old + length bytes.now ≤ N }
        ensures { self.new ≡ self.old ++ bytes.now }
    {
        for byte in bytes {
            self.push(*byte);
        }
    }

    /// Returns the bytes of the list, at most `N`.
    pub fn bytes(&self) -> &[u8]
        ensures value { result.now ≡ self.now }
        ensures short { length result.now ≤ N }
    {
        &self.array[..self.len]
    }
}

/// Returns the head of a reply with status 0 and a body of `body_len` bytes: the [`REPLY_HEAD_BYTES`] bytes
/// of the frame before the body.
#[tactic(auto, unfolding(crate::specs::Envelope::reply))]
pub fn reply_head(body_len: u32) -> FixedFrame
    ensures spelled { (body : List ℕ) → length body ≡ body_len → result ++ body ≡ reply (record {
      status = 0;
      text = [];
      body = body;
    }) }
    ensures long { length result ≡ REPLY_HEAD_BYTES }
{
    let mut frame = FixedFrame::new();
    frame.extend(&[0, 0, 0, 0]);
    frame.extend(&body_len.to_be_bytes());
    frame
}

/// Returns the frame of the reply that refuses a call with this status code and text.
///
/// The code must not be 0. The text must have at most [`MAX_REFUSAL_TEXT_BYTES`] bytes, each from 0x20 to
/// 0x7E. If the code is also a status code of the envelope (docs/PROTOCOL.md, "Status codes"), the frame is a
/// valid reply.
#[tactic(auto, unfolding(crate::specs::Envelope::reply))]
pub fn refusal_frame(code: u8, text: &[u8]) -> FixedFrame
    requires refusal { code ≢ 0 }
    requires short { length text.now ≤ MAX_REFUSAL_TEXT_BYTES }
    requires printable { All IsTextByte text.now }
    ensures spelled { result ≡ reply (record { status = code; text = text.now; body = [] }) }
    ensures formed { is_status code ≡ true → IsReply (record { status = code; text = text.now; body = [] }) }
{
    let mut frame = FixedFrame::new();
    frame.push(code);
    frame.extend(&(text.len() as u16).to_be_bytes());
    frame.extend(text);
    frame.extend(&[0, 0, 0, 0, 0]);
    frame
}

/// Returns the text followed by the number in decimal.
///
/// The text must have at most 120 bytes, each from 0x20 to 0x7E. Each byte of the result is in this range
/// too.
pub fn text_and_number(text: &[u8], n: u64) -> FixedText
    requires short { length text.now ≤ 120 }
    requires printable { All IsTextByte text.now }
    ensures value { result ≡ text.now ++ decimal n }
    ensures short { length result ≤ length text.now + 20 }
    ensures printable { All IsTextByte result }
{
    let mut line = FixedText::new();
    line.extend(text);
    let mut buffer = Buffer::new();
    line.extend(buffer.format(n).as_bytes());
    line
}

/// Returns the text that refuses a malformed frame, such as `bad flag at byte 53`.
pub fn fault_text(fault: &FrameFault) -> FixedText
    ensures value { result ≡ fault_words fault.now.why ++ decimal fault.now.at }
    ensures short { length result ≤ 140 }
    ensures printable { All IsTextByte result }
{
    text_and_number(fault.why.text().as_bytes(), fault.at)
}

//! Answers rows about calls that are sent again.

ghost use Rattle.std.specs.Prelude.{⊤};

use crate::shown::displayed;
use csi_client::{Exchanges, Line, Received, ReceivedReply, call_again, pause_millis};
use envelope::{ReplyFault, ReplyWhy};
use std::alloc::{AllocError, Global};
use test_kit::{RowFault, number_at, word_at, words_of};

// The frame of a call. The test does not depend on its bytes.
const FRAME: &[u8] = b"the frame of a call";

/// Answers a row about tries of a call. The first word is `call` or `pause`, and the other words are its
/// arguments.
///
/// # Errors
///
/// If the row has no such form, or memory is refused.
pub(crate) fn answer(alloc: Global, row: &str) -> Result<String, RowFault> {
    let words = words_of(alloc, row)?;
    match word_at(&words, 0)? {
        "call" => call_answer(alloc, &words),
        "pause" => pause_answer(alloc, &words),
        _ => Err(RowFault::NotRow),
    }
}

// The status, the text and the body of a reply.
#[derive(Clone, Copy)]
struct Said {
    status: u8,
    text: &'static str,
    body: &'static [u8],
}

impl Said {
    fn named(word: &str) -> Option<Said> {
        let (status, text, body) = match word {
            "done" => (0, "", [].as_slice()),
            "exists" => (6, "", [].as_slice()),
            "inside" => (13, "", [].as_slice()),
            "with-text" => (5, "volume not found", [].as_slice()),
            "with-body" => (0, "", b"\x0a\x02\x08\x01".as_slice()),
            _ => return None,
        };
        Some(Said { status, text, body })
    }

    fn copied(self, alloc: Global) -> Result<ReceivedReply, AllocError> {
        Ok(ReceivedReply {
            status: self.status,
            text: Vec::from_slice(alloc, self.text.as_bytes())?,
            body: Vec::from_slice(alloc, self.body)?,
        })
    }

    fn is(self, reply: &ReceivedReply) -> bool {
        reply.status == self.status
            && reply.text.as_slice() == self.text.as_bytes()
            && reply.body.as_slice() == self.body
    }
}

// The words for the replies of scripted exchanges.
const REPLIES: [&str; 5] = ["done", "exists", "inside", "with-text", "with-body"];

// The outcome of an exchange. Its word in a row names it.
#[derive(Clone, Copy)]
enum Outcome {
    Reply(Said),
    Nothing,
    Malformed(ReplyWhy),
    Failed,
    NoMemory,
}

impl Outcome {
    fn named(word: &str) -> Option<Outcome> {
        if let Some(said) = Said::named(word) {
            return Some(Outcome::Reply(said));
        }
        Some(match word {
            "nothing" => Outcome::Nothing,
            "status" => Outcome::Malformed(ReplyWhy::BadStatus),
            "text-length" => Outcome::Malformed(ReplyWhy::BadTextLength),
            "text" => Outcome::Malformed(ReplyWhy::BadText),
            "flag" => Outcome::Malformed(ReplyWhy::BadFlag),
            "body-length" => Outcome::Malformed(ReplyWhy::BadBodyLength),
            "end" => Outcome::Malformed(ReplyWhy::EndOfInput),
            "failed" => Outcome::Failed,
            "memory" => Outcome::NoMemory,
            _ => return None,
        })
    }

    fn received(self, alloc: Global) -> Received {
        match self {
            Outcome::Reply(said) => match said.copied(alloc) {
                Ok(reply) => Received::Reply(reply),
                Err(_) => Received::NoMemory,
            },
            Outcome::Nothing => Received::Nothing,
            Outcome::Malformed(why) => Received::Malformed(ReplyFault { why, at: 0 }),
            Outcome::Failed => Received::Failed,
            Outcome::NoMemory => Received::NoMemory,
        }
    }
}

// Returns the word for a reply.
fn reply_word(reply: &ReceivedReply) -> &'static str {
    for word in REPLIES {
        if Said::named(word).is_some_and(|said| said.is(reply)) {
            return word;
        }
    }
    "another reply"
}

// Returns the word for the result of an exchange.
fn word_of(received: &Received) -> &'static str {
    match received {
        Received::Reply(reply) => reply_word(reply),
        Received::Nothing => "nothing",
        Received::Malformed(fault) => match fault.why {
            ReplyWhy::BadStatus => "status",
            ReplyWhy::BadTextLength => "text-length",
            ReplyWhy::BadText => "text",
            ReplyWhy::BadFlag => "flag",
            ReplyWhy::BadBodyLength => "body-length",
            ReplyWhy::EndOfInput => "end",
        },
        Received::Failed => "failed",
        Received::NoMemory => "memory",
    }
}

// A scripted line. The words name the outcomes of its first exchanges, one word for each. Each later exchange
// has the outcome of the last word.
#[derive(Drop)]
struct Script<'w> {
    alloc: Global,
    words: &'w [&'w str],
    exchanges: Exchanges,
    // True if each exchange was given the bytes of `FRAME`.
    is_same: bool,
}

impl Script<'_> {
    fn gives(&self) -> Option<Outcome> {
        let turn = usize::try_from(self.exchanges.made).ok()?;
        let word = self.words.get(turn).or(self.words.last())?;
        Outcome::named(word)
    }
}

impl Line for Script<'_> {
    ghost exchanges = { λ line. line.exchanges.made };

    ghost unanswered = { λ line. line.exchanges.unanswered };

    ghost exchanged = { λ old new frame received. ⊤ };

    fn exchange(&mut self, frame: &[u8]) -> Received {
        self.is_same &= frame == FRAME;
        let received = match self.gives() {
            Some(outcome) => outcome.received(self.alloc),
            None => Received::NoMemory,
        };
        self.exchanges.count(&received);
        received
    }
}

// Makes a call over a scripted line. The answer has the word for the last result, and the counts of the line.
fn call_answer(alloc: Global, words: &[&str]) -> Result<String, RowFault> {
    let tries: u32 = number_at(words, 1)?;
    if tries < 1 || tries > 10 || words.len() < 3 {
        return Err(RowFault::NotRow);
    }
    let (_, script) = words.split_at(2);
    if script.iter().any(|word| Outcome::named(word).is_none()) {
        return Err(RowFault::NotRow);
    }
    let mut line = Script {
        alloc,
        words: script,
        exchanges: Exchanges::none(),
        is_same: true,
    };
    let word = word_of(&call_again(&mut line, FRAME, tries));
    reported(alloc, &line, word)
}

// Returns the word for the last outcome, and the counts of the line.
fn reported(alloc: Global, line: &Script<'_>, word: &str) -> Result<String, RowFault> {
    let Exchanges {
        made,
        unanswered,
        ..
    } = line.exchanges;
    let frames = if line.is_same { "" } else { ", another frame" };
    Ok(format!(in alloc; "{word}, {made} made, {unanswered} unanswered{frames}")?)
}

// Returns the length of a pause in milliseconds.
fn pause_answer(alloc: Global, words: &[&str]) -> Result<String, RowFault> {
    let tried: u32 = number_at(words, 1)?;
    let chance: u32 = number_at(words, 2)?;
    displayed(alloc, &pause_millis(tried, chance))
}

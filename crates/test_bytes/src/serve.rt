//! Answers rows that put a stream of calls together and then try it. A trial serves the stream again and
//! again, each time with another part cut short or refused, and compares each outcome with the outcome that
//! the row wants.

mod again;
mod compared;
mod fakes;
mod kept;
mod server;
mod store;
mod stream;
mod through;
mod trials;

use csi_config::Config;
use server::Server;
use std::alloc::Global;
use std::mem;
use stream::Stream;
use test_kit::{AnswerRow, RowAnswer, RowFault, bytes_of};
use trials::{Trials, kept_after_each};

/// The configuration under which a stream is served, and the stream that the rows have put together so far.
#[derive(Drop)]
pub(crate) struct Streams {
    config: Config,
    stream: Stream,
}

impl Streams {
    /// Starts with the sample configuration and an empty stream.
    pub(crate) fn new(alloc: Global) -> Result<Streams, RowFault> {
        Ok(Streams {
            config: Config::sample(alloc)?,
            stream: Stream::new(alloc),
        })
    }

    fn answer(&mut self, alloc: Global, row: &str) -> Result<RowAnswer, RowFault> {
        let (word, rest) = row.split_once(' ').ok_or(RowFault::NotRow)?;
        match word {
            "asks" => self.put_call(alloc, true, rest)?,
            "apart" => self.put_call(alloc, false, rest)?,
            "fault" => {
                let (bytes, text) = wanted(rest)?;
                self.stream
                    .put_fault(alloc, text, &bytes_of(alloc, bytes)?)?;
            }
            "behind" => self.stream.put_after(&bytes_of(alloc, rest)?)?,
            "run" => {
                let stream = mem::replace(&mut self.stream, Stream::new(alloc));
                return run(alloc, Server::Volumes(&self.config), &stream);
            }
            "identity" => {
                let stream = mem::replace(&mut self.stream, Stream::new(alloc));
                return run(alloc, identity(rest)?, &stream);
            }
            _ => return Err(RowFault::NotRow),
        }
        Ok(RowAnswer::Nothing)
    }

    fn put_call(&mut self, alloc: Global, asks: bool, words: &str) -> Result<(), RowFault> {
        let (frame, reply) = wanted(words)?;
        let frame = bytes_of(alloc, frame)?;
        let reply = bytes_of(alloc, reply)?;
        Ok(self.stream.put_call(asks, &frame, &reply)?)
    }
}

impl AnswerRow for Streams {
    fn answer_row(&mut self, rt: &HostRuntime, row: &str) -> Result<RowAnswer, RowFault> {
        self.answer(rt.alloc(), row)
    }
}

// Returns the bytes to send and the wanted answer.
fn wanted(words: &str) -> Result<(&str, &str), RowFault> {
    words.split_once(" => ").ok_or(RowFault::NotRow)
}

fn identity(words: &str) -> Result<Server<'_>, RowFault> {
    let (name, version) = words.split_once(' ').ok_or(RowFault::NotRow)?;
    Ok(Server::Identity {
        name: text_of(name),
        version: text_of(version),
    })
}

// Returns the text of a word. The word `-` is an empty text.
fn text_of(word: &str) -> &str {
    if word == "-" { "" } else { word }
}

fn run(alloc: Global, server: Server<'_>, stream: &Stream) -> Result<RowAnswer, RowFault> {
    let kept = kept_after_each(alloc, server, stream)?;
    let trials = Trials {
        alloc,
        server,
        stream,
        kept: &kept,
    };
    Ok(RowAnswer::Text(String::from_str(alloc, trials.all()?)?))
}

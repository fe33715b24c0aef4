//! Answers rows about bytes and what they mean: messages, frames, values, replies, requests, streams of calls
//! that are served, and calls over a Unix socket with both of its ends in this process. The head of each
//! section in this crate's file `stdin` describes the rows of the section. If a row cannot be answered, its
//! answer is the text of the reason (`test_kit::RowFault`).
#![tactic(auto)]

mod client;
mod codec;
mod frames;
mod machine;
mod serve;
mod shown;
mod socket;
mod tries;
mod types;
mod words;

use machine::Bench;
use serve::Streams;
use socket::{Calls, PATH};
use std::fs;
use std::io::Write;
use std::os::unix::net::UnixListener;
use std::process::ExitCode;
use test_kit::{AnswerRow, AnswerSection, RowAnswer, RowFault, Rows, answer_rows};

// The exit status if the socket cannot be made, or its file cannot be removed.
const SOCKET: u8 = 7;

// A section that keeps no state from row to row.
#[derive(Clone, Copy)]
enum Plain {
    Codec,
    Frames,
    Types,
    Client,
    Tries,
}

impl AnswerRow for Plain {
    fn answer_row(&mut self, rt: &HostRuntime, row: &str) -> Result<RowAnswer, RowFault> {
        let alloc = rt.alloc();
        let text = match self {
            Plain::Codec => codec::answer(alloc, row)?,
            Plain::Frames => frames::answer(alloc, row)?,
            Plain::Types => types::answer(alloc, row)?,
            Plain::Tries => tries::answer(alloc, row)?,
            Plain::Client => return Ok(RowAnswer::Lines(client::answer(alloc, row)?)),
        };
        Ok(RowAnswer::Text(text))
    }
}

#[derive(Drop)]
struct Sections {
    listener: UnixListener,
}

impl AnswerSection for Sections {
    fn answer_section<W: Write>(
        &self,
        rt: &HostRuntime,
        name: &str,
        rows: &mut Rows<'_, W>,
    ) -> Result<(), RowFault> {
        match name {
            "codec" => rows.answer(rt, &mut Plain::Codec),
            "frames" => rows.answer(rt, &mut Plain::Frames),
            "types" => rows.answer(rt, &mut Plain::Types),
            "client" => rows.answer(rt, &mut Plain::Client),
            "tries" => rows.answer(rt, &mut Plain::Tries),
            "machine" => rows.answer(rt, &mut Bench::new(rt.alloc())?),
            "serve" => rows.answer(rt, &mut Streams::new(rt.alloc())?),
            "socket" => {
                let bench = &mut Bench::new(rt.alloc())?;
                let listener = &self.listener;
                rows.answer(rt, &mut Calls { listener, bench });
            }
            _ => return Err(RowFault::NotRow),
        }
        Ok(())
    }
}

fn main(rt: HostRuntime) -> ExitCode {
    let Ok(listener) = UnixListener::bind(&rt, PATH) else {
        return ExitCode::from(SOCKET);
    };
    let status = answer_rows(&rt, &Sections { listener });
    match fs::remove_file(&rt, PATH) {
        Ok(()) => status,
        Err(_) => ExitCode::from(SOCKET),
    }
}

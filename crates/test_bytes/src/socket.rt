//! Answers rows that are calls over a socket. Each call has a new connection to a server. All calls use one
//! keeper in memory.

use crate::client::lines_of;
use crate::machine::Bench;
use crate::words::{first_word, named};
use csi_client::{Received, put_call, receive};
use csi_server::serve;
use csi_types::Method;
use envelope::MAX_MESSAGE_BYTES;
use frames_core::send;
use std::alloc::Global;
use std::io;
use std::net::Shutdown;
use std::os::unix::net::{UnixListener, UnixStream};
use test_kit::{AnswerRow, RowAnswer, RowFault, bytes_of, number_of};

/// The path of the socket's file, relative to the working directory.
pub(crate) const PATH: &str = "rows.sock";

/// Answers rows that are calls. Each call is sent over a new connection to `listener`, and served with the
/// configuration and the keeper of `bench`.
#[derive(Drop)]
pub(crate) struct Calls<'a> {
    pub(crate) listener: &'a UnixListener,
    pub(crate) bench: &'a mut Bench,
}

impl AnswerRow for Calls<'_> {
    // Returns the lines of the reply to a row's call. A row that begins with `part N` sends only the first N
    // bytes of the call's frame.
    fn answer_row(&mut self, rt: &HostRuntime, row: &str) -> Result<RowAnswer, RowFault> {
        let alloc = rt.alloc();
        let (most, call) = match row.strip_prefix("part ") {
            Some(part) => {
                let (count, call) = first_word(part)?;
                (number_of(count)?, call)
            }
            None => (usize::MAX, row),
        };
        let (name, notation) = first_word(call)?;
        let method = named(alloc, name)?;
        let mut frame = framed(alloc, method, notation)?;
        frame.truncate(most);
        let mut client = served(rt, self.listener, self.bench, &frame).map_err(socket_fault)?;
        match receive(alloc, &mut client) {
            Received::Reply(reply) => {
                let lines = lines_of(alloc, Some(method), &reply.as_reply())?;
                Ok(RowAnswer::Lines(lines))
            }
            Received::Nothing | Received::Failed => Err(RowFault::Refused("no reply")),
            Received::Malformed(_) => Err(RowFault::Refused("malformed")),
            Received::NoMemory => Err(RowFault::NoMemory),
        }
    }
}

// Sends bytes over a new connection, ends the sending side, and serves the connection. Returns the end of the
// client, whose received bytes show how the run ended.
fn served(
    rt: &HostRuntime,
    listener: &UnixListener,
    bench: &mut Bench,
    bytes: &[u8],
) -> io::Result<UnixStream> {
    let mut client = UnixStream::connect(rt, PATH)?;
    send(&mut client, bytes)?;
    client.shutdown(Shutdown::Write)?;
    let (stream, _) = listener.accept()?;
    let mut reader = &stream;
    let mut writer = &stream;
    let _ = serve(
        rt.alloc(),
        &bench.config,
        &mut bench.keeper,
        &mut reader,
        &mut writer,
    );
    Ok(client)
}

fn socket_fault(_error: io::Error) -> RowFault {
    RowFault::Refused("the socket failed")
}

fn framed(alloc: Global, method: Method, notation: &str) -> Result<Vec<u8>, RowFault> {
    let message = bytes_of(alloc, notation)?;
    if message.len() > MAX_MESSAGE_BYTES {
        return Err(RowFault::NotRow);
    }
    let mut frame = Vec::new(alloc);
    put_call(&mut frame, method, &message)?;
    Ok(frame)
}

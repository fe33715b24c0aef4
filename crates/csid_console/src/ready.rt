//! Tests if a descriptor can be read or written without waiting.

use libc::net::{POLLIN, POLLOUT, poll};
use libc::types::pollfd;
use std::os::fd::RawFd;

/// The kind of readiness that a poll asks for.
#[derive(Clone, Copy)]
pub enum Way {
    /// Ready to read: bytes or the end of the stream have come.
    Read,
    /// Ready to write: the descriptor takes bytes.
    Write,
}

/// Returns true if a read or a write of a descriptor would end at once, even with an error. The call itself
/// does not wait. Returns false if the poll itself fails.
pub fn is_ready(fd: RawFd, way: Way) -> bool {
    let events = match way {
        Way::Read => POLLIN,
        Way::Write => POLLOUT,
    };
    let mut asked = [pollfd {
        fd,
        events,
        revents: 0,
    }];
    poll(&mut asked, 0) > 0 && asked[0].revents != 0
}

//! The program at the other end of a connection, to which frames are sent.

ghost use Rattle.std.specs.Prelude.{◌≡◌, List, ℕ};
ghost use Rattle.csi_keeper.specs.Model.{Model};
ghost use Rattle.csi_keeper.specs.State.{State};
ghost use Rattle.csi_client.specs.declared.receiving.Received.{Received};
ghost use Rattle.csi_change_store.specs.Remote.{Answers, channel_exchanges, channel_model};

use csi_client::{Received, receive};
use frames_core::send;
use std::alloc::Global;
use std::io::{Read, Write};

/// The program at the other end of a connection, which keeps the changes of a State.
///
/// The promises about the State hold while the peer's `doubt` is 0, that is, while it is certain that the
/// peer made each change that it confirmed. The doubt never falls.
pub trait Peer {
    // The model of the keeper at the other end of the connection, as used by contracts.
    ghost model: { Self → Model State };

    // The effect of one exchange: it relates the peer before, the peer after, the frame and the outcome. Only
    // the contract of `exchange` provides this relation, so a function that promises it has exchanged that
    // frame.
    ghost exchanged: { Self → Self → List ℕ → Received → Type 0 };

    /// Sends a frame and waits for the reply.
    ///
    /// If the frame requests a change, a reply with status 0 means that the peer made the change. Another
    /// status means that the peer did not make it. Without a reply, the peer may have made the change or not:
    /// a stop leaves a State that it could also have left before the exchange, or the State with the change.
    fn exchange(&mut self, alloc: Global, frame: &[u8]) -> Received
        ensures answers { Answers (model self.old) (model self.new) frame.now result }
        ensures asked { exchanged self.old self.new frame.now result };
}

/// A peer over a reader and a writer: frames are written to the writer, and replies are read from the
/// reader.
#[derive(Drop)]
pub struct Channel<R, W> {
    reader: R,
    writer: W,
    // The number of exchanges begun so far, at most 2^64 - 1.
    exchanges: u64,
}

impl<R: Read, W: Write> Channel<R, W> {
    /// Makes a channel that has made no exchange yet.
    pub fn new(reader: R, writer: W) -> Channel<R, W>
        ensures ends { (result.reader ≡ reader) × (result.writer ≡ writer) }
        ensures begins { result.exchanges ≡ 0 }
    {
        Channel {
            reader,
            writer,
            exchanges: 0,
        }
    }
}

impl<R: Read, W: Write> Peer for Channel<R, W> {
    ghost model = { channel_model };

    ghost exchanged = { channel_exchanges R.remaining W.contents };

    fn exchange(&mut self, alloc: Global, frame: &[u8]) -> Received
        ensures answers { Answers (channel_model self.old) (channel_model self.new) frame.now result }
        ensures asked { channel_exchanges R.remaining W.contents self.old self.new frame.now result }
    {
        self.exchanges = self.exchanges.saturating_add(1);
        if send(&mut self.writer, frame).is_err() {
            return Received::Failed;
        }
        receive(alloc, &mut self.reader)
    }
}

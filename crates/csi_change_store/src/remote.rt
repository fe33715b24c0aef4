//! Sends each change to a change store that another program keeps. After a failure no more changes are sent.

ghost use Rattle.std.specs.Prelude.{◌≡◌, Err, IsTrue, OnErr, false};
ghost use Rattle.csi_keeper.specs.Keeper.{Changes};
ghost use Rattle.csi_keeper.specs.State.{IsBounded};
ghost use Rattle.csi_keeper.specs.declared.change.StoreFault.TheVariants.{Down};
ghost use Rattle.csi_change_store.specs.Asking.{answer_of};
ghost use Rattle.csi_change_store.specs.Remote.{Asks, remote_model};

use crate::changes::commit_frame;
use crate::peer::Peer;
use csi_client::Received;
use csi_keeper::{Change, StoreFault};
use csi_through::ChangeStore;
use std::alloc::Global;

// Returns the outcome of a change from the reply to its frame.
fn answer_of(received: &Received) -> Result<(), StoreFault>
    ensures { result ≡ answer_of received.now }
{
    match received {
        Received::Reply(reply) if reply.status == 0 => Ok(()),
        Received::NoMemory => Err(StoreFault::NoMemory),
        _ => Err(StoreFault::Refused),
    }
}

// Sends a change to the peer and waits for its outcome.
fn ask<P: Peer>(alloc: Global, peer: &mut P, change: &Change) -> Result<(), StoreFault>
    requires { IsBounded change.now }
    ensures changes { Changes (P.model peer.old) (P.model peer.new) change.now result }
    ensures asked { Asks P.exchanged peer.old peer.new change.now result }
{
    let frame = commit_frame(alloc, change)?;
    answer_of(&peer.exchange(alloc, frame.as_slice()))
}

/// A change store that another program keeps, at the other end of a connection.
///
/// After a change has failed (it was refused, its outcome is unknown, or memory was refused), each later
/// change fails with `Down` and is not sent.
#[derive(Drop)]
pub struct RemoteChangeStore<P> {
    peer: P,
    is_down: bool,
}

impl<P: Peer> RemoteChangeStore<P> {
    /// Makes a change store over a peer. No change has failed yet, so the next change will be sent.
    pub fn new(peer: P) -> RemoteChangeStore<P>
        ensures { (result.peer ≡ peer) × (result.is_down ≡ false) }
    {
        RemoteChangeStore {
            peer,
            is_down: false,
        }
    }
}

impl<P: Peer> ChangeStore for RemoteChangeStore<P> {
    ghost model = { remote_model P.model };

    fn commit(&mut self, alloc: Global, change: &Change) -> Result<(), StoreFault>
        requires { IsBounded change.now }
        ensures changes { Changes (remote_model P.model self.old)
            (remote_model P.model self.new) change.now result }
        ensures asked { (self.old.is_down ≡ false)
            → Asks P.exchanged self.old.peer self.new.peer change.now result }
        ensures stops { OnErr result (IsTrue self.new.is_down) }
        ensures down { IsTrue self.old.is_down → (result ≡ Err Down) × (self.new ≡ self.old) }
    {
        if self.is_down {
            return Err(StoreFault::Down);
        }
        let answer = ask(alloc, &mut self.peer, change);
        if answer.is_err() {
            self.is_down = true;
        }
        answer
    }
}

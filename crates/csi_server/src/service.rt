//! The trait [`Service`]. The engine of the server passes each call to a service, which answers it.

ghost use Rattle.std.specs.Prelude.{◌≡◌, ◌≤◌, [], OnOk, OnErr};
ghost use Rattle.envelope.specs.Envelope.{bytes_of};
ghost use Rattle.csi_keeper.specs.Model.{Model};
ghost use Rattle.csi_server.specs.Machine.{Machine, Answers};
ghost use Rattle.csi_server.specs.Service.{room};

use crate::refused::CallResult;
use envelope::{Call, REPLY_HEAD_BYTES};
use std::alloc::{AllocError, Global};

/// A service that answers calls under a configuration of type `C`.
pub trait Service<C> {
    /// The type of the state that the service keeps from call to call. Only definitions use it.
    ghost State: { Type 0 };

    /// The service as a machine: the reply to a call in a state, and the next state.
    ghost machine: { C → Machine State };

    /// The facts about the service that contracts use, such as the states that it may have and the states
    /// that a stop may leave.
    ghost model: { C → Self → Model State };

    ghost use Rattle.csi_server.specs.Service.{reply_of, HoldsBody};

    /// Answers one call. `Ok` means status 0. Then `reply` has [`REPLY_HEAD_BYTES`] bytes of room for the
    /// reply's head, and after them the body, of at most [`MAX_BODY_BYTES`](envelope::MAX_BODY_BYTES) bytes.
    ///
    /// # Errors
    ///
    /// If the call is refused. The error gives the status and the text of the reply, and the content of
    /// `reply` is ignored.
    fn answer(
        &mut self,
        config: &C,
        alloc: Global,
        call: &Call<'_>,
        reply: &mut Vec<u8>,
    ) -> CallResult
        ensures clean { (model config.now self.old).doubt ≤ (model config.now self.new).doubt }
        ensures step { (model config.now self.new).doubt ≡ 0 → (s : State)
            → (model config.now self.old).holds s
            → Answers (machine config.now) (model config.now self.old) (model config.now self.new) s
            (bytes_of call.now) (reply_of result reply.new.items) }
        ensures room { HoldsBody result reply.new.items };
}

/// Clears `reply` and appends room for a reply's head. The caller then appends the body.
///
/// # Errors
///
/// If memory is refused. `reply` is then empty.
pub fn begin_body(reply: &mut Vec<u8>) -> Result<(), AllocError>
    ensures ok { OnOk result (reply.new.items ≡ room) }
    ensures err { OnErr result (reply.new.items ≡ []) }
{
    reply.clear();
    reply.extend_from_slice(&[0; REPLY_HEAD_BYTES])
}

//! Makes each keeper a service, which answers calls as the volume machine does. [`serve`] runs this service.

ghost use Rattle.std.specs.Prelude.{◌≡◌, ◌≤◌, ℕ, List, None, Ok};
ghost use Rattle.std.specs.Io.KnownBytes.{Consumes, IsAtEnd, Keeps};
ghost use Rattle.csi_keeper.specs.State.{State};
ghost use Rattle.csi_machine.specs.Step.{step};
ghost use Rattle.csi_types.specs.Checks.{checked};
ghost use Rattle.csi_server.specs.Requests.{after_check, AnswersBy, MayBe};
ghost use Rattle.csi_server.specs.Service.{reply_of, HasBody, HoldsBody};
ghost use Rattle.csi_server.specs.Serving.{Serves, Writes};
ghost use Rattle.csi_server.specs.Volumes.{asks_keeper, volumes, seen, RepliesTo};

use crate::end::RunEnd;
use crate::message::{read_message, refuse};
use crate::refused::CallResult;
use crate::running::run_service;
use crate::service::{Service, begin_body};
use csi_config::Config;
use csi_keeper::{Keeper, StoreFault};
use csi_machine::{Verdict, append_answer};
use csi_types::{Reason, Request, method_of};
use envelope::Call;
use std::alloc::Global;
use std::io::{Read, Write};

// Converts the machine's answer to the outcome of a call.
fn answer_of(verdict: Result<Verdict, StoreFault>) -> CallResult
    ensures reply { (buffer : List ℕ) → RepliesTo buffer (reply_of result buffer) verdict }
    ensures room { (buffer : List ℕ) → (verdict ≡ Ok Verdict.Done → HasBody buffer)
        → HoldsBody result buffer }
{
    match verdict {
        Ok(Verdict::Done) => Ok(()),
        Ok(Verdict::Refused(reason)) => refuse(reason),
        Err(StoreFault::NoMemory) => refuse(Reason::OutOfMemory),
        Err(StoreFault::Refused) => refuse(Reason::StoreRefused),
        Err(StoreFault::Down) => refuse(Reason::StoreDown),
    }
}

// Answers a request that has passed the checks.
#[inline(always)]
fn answer_request<K: Keeper>(
    alloc: Global,
    config: &Config,
    keeper: &mut K,
    request: &Request,
    reply: &mut Vec<u8>,
) -> CallResult
    requires { checked request.now ≡ None }
    ensures clean { (K.model keeper.old).doubt ≤ (K.model keeper.new).doubt }
    ensures step { (K.model keeper.new).doubt ≡ 0 → (s : State)
        → (seen config.now (K.model keeper.old)).holds s
        → AnswersBy (λ t. after_check (step config.now) t request.now None) (MayBe (asks_keeper request.now))
        (seen config.now (K.model keeper.old)) (seen config.now (K.model keeper.new)) s
        (reply_of result reply.new.items) }
    ensures room { HoldsBody result reply.new.items }
{
    match begin_body(reply) {
        Ok(()) => answer_of(append_answer(alloc, config, keeper, request, reply)),
        Err(_) => refuse(Reason::OutOfMemory),
    }
}

/// Each keeper is a service, which answers calls as the volume machine does under a configuration.
impl<K: Keeper> Service<Config> for K {
    ghost use Rattle.csi_keeper.specs.State.{State as MachineState};
    ghost use Rattle.csi_server.specs.Volumes.{volumes, seen};

    ghost State = { MachineState };

    ghost machine = { λ c. volumes c };

    ghost model = { λ c k. seen c (K.model k) };

    #[inline(always)]
    fn answer(
        &mut self,
        config: &Config,
        alloc: Global,
        call: &Call<'_>,
        reply: &mut Vec<u8>,
    ) -> CallResult {
        let Some(method) = method_of(call.path) else {
            return refuse(Reason::UnknownMethod);
        };
        // A `match` and not `?`, which would move the request once more.
        match read_message(alloc, method, call.message) {
            Ok(request) => answer_request(alloc, config, self, &request, reply),
            Err(refusal) => Err(refusal),
        }
    }
}

/// Serves the volume machine over a keeper, until the input ends or the run fails.
///
/// For every stream of bytes, in any pieces, the bytes written are the framed replies of the volume machine
/// to the calls in the stream. The first malformed frame is refused, and ends the run. After the run the
/// keeper has the State of the volume machine after these calls. In this State no pool is overcommitted. A
/// call that is refused for memory or by the store is answered `INTERNAL`, and the State is unchanged.
///
/// The clause `serves` says this for each way in which a run can end. It holds for each State that the keeper
/// may have had at the start, if this State meets the invariant and the keeper's `doubt` is 0 at the end. It
/// also says that the keeper's count of refusals rose by 1 for each call that was refused by the store or
/// because the store is down. The count is at most 2^64 - 1. If a stop at the start could leave only the
/// State at the start, a stop at the end leaves no other State than the State at the end and the States that
/// [`pending`](crate::laws::pending) allows.
///
/// The clause `writes` has no premise: one valid reply of the envelope is written for each call that was
/// read. If a write fails, the last reply may be incomplete. The clause also says that a fault or a failed
/// write ends the reading: the malformed frame, or the call without a reply, ends within the last 4,096 bytes
/// that are read.
///
/// # Not promised
///
/// Between a fault and its reply, the clauses allow one more read within these 4,096 bytes. Such a read would
/// wait if the peer sends nothing and keeps the connection open. Cases of `test_bytes` show that nothing is
/// read after a fault.
pub fn serve<K: Keeper, R: Read, W: Write>(
    alloc: Global,
    config: &Config,
    keeper: &mut K,
    reader: &mut R,
    writer: &mut W,
) -> RunEnd
    ensures serves { Serves (volumes config.now) (seen config.now (K.model keeper.old))
        (seen config.now (K.model keeper.new))
        (R.remaining reader.old) (R.remaining reader.new) (W.contents writer.old)
        (W.contents writer.new) result }
    ensures writes { Writes (R.remaining reader.old) (R.remaining reader.new) (W.contents writer.old)
        (W.contents writer.new) result }
    ensures clean { (K.model keeper.old).doubt ≤ (K.model keeper.new).doubt }
    ensures unread { result ≡ RunEnd.NoMemory → Keeps (R.remaining reader.old) (R.remaining reader.new) }
    ensures unwritten { result ≡ RunEnd.NoMemory → Keeps (W.contents writer.old) (W.contents writer.new) }
{
    run_service(alloc, config, keeper, reader, writer)
}

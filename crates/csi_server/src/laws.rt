//! Laws about runs of the server and about the calls that clients make. A law is a function that does
//! nothing: its caller gets what the contract of the law states.

ghost use Rattle.std.specs.Prelude.{[], ◌≡◌, ◌⊎◌, ◌↔◌, ◌≤◌, ◌<◌, ◌^◌, ◌++◌, ℕ, List, None, Some, true, false, length, decimal, map};
ghost use Rattle.std.specs.List.{AllByRecursion};
ghost use Rattle.envelope.specs.declared.fault.FrameFault.{FrameFault};
ghost use Rattle.envelope.specs.declared.limits.TheConstants.{MAX_MESSAGE_BYTES};
ghost use Rattle.envelope.specs.Envelope.{CallBytes, IsReply, ReplyBytes};
ghost use Rattle.envelope.specs.Texts.{fault_words};
ghost use Rattle.csi_types.specs.declared.code.Code.TheVariants as Code;
ghost use Rattle.csi_types.specs.Codes.{number_of};
ghost use Rattle.csi_types.specs.declared.requests.Request.{Request};
ghost use Rattle.csi_types.specs.Checks.{checked};
ghost use Rattle.csi_codec.specs.Methods.{FitsRequest};
ghost use Rattle.csi_keeper.specs.Invariant.{IsInvariant};
ghost use Rattle.csi_server.specs.Machine.{Unmarked, Event, Mark, Runs, AreReplies, may_leave, refusal, state_after};
ghost use Rattle.csi_server.specs.Identity.{identity};
ghost use Rattle.csi_server.specs.Requests.{reported};
ghost use Rattle.csi_server.specs.Tries.{Asks, Exchange, asked, spelled_call, events_of, tries_of, heard_of, IsLeft, IsLifeOfCalls, IsLifeOfTwo, IsLifeWithAnother};
ghost use Rattle.csi_server.specs.Volumes.{volumes, seen, IsPending};
ghost use Rattle.csi_machine.specs.Numbers.{NumbersRise};
ghost use Rattle.csi_machine.specs.Retry.{Leaves, AreTriesOf, all_tries, reported_of, reported_once, after_once, state_after as after_tries};
ghost use Rattle.csi_machine.specs.Step.{is_read, step};
ghost use Rattle.csi_config.specs.Values.{Has};
ghost use Rattle.csi_config.specs.declared.config.Config.{Config as AnyConfig};
ghost use Rattle.csi_machine.specs.Walk.{AreApart, AreOfVolumes, End, GoOn, Stood, listed_ids};
ghost use Rattle.csi_rules.specs.Ids.{id};
ghost use Rattle.csi_server.specs.Walks.{AreAsked, AreRead, Turn, pages};
ghost use Rattle.csi_keeper.specs.State.{State as MachineState};

use crate::service::Service;
use csi_codec::laws::{read_as_meant, reading, round_trip};
use csi_config::Config;
use csi_keeper::Keeper;
use csi_machine::laws::{
    kept as kept_by_answers, numbers as numbers_by_answers, repeat as repeat_request,
    retry as retry_requests, walk as walk_by_requests,
};
use envelope::laws::decimal_is_text;

/// If no call of a run is refused for memory or by the store, a stop after the run leaves only the state at
/// its end. The law requires that a stop before the run leaves only the state at the start. The run may have
/// calls that are refused because the store is down.
pub fn stop_leaves_state<C, S: Service<C>>(config: &C)
    ensures { (old new : S) (s : S.State) (events : List Event)
        → Runs (S.machine config.now) (S.model config.now old) (S.model config.now new) s events
        → AllByRecursion (λ e. may_leave e.mark ≡ false) events
        → ((t : S.State) → (S.model config.now old).survivors t → t ≡ s)
        → (t : S.State) → (S.model config.now new).survivors t
        → t ≡ state_after (S.machine config.now) s events }
{}

/// Each reply in a run of any service is valid in the envelope. Its status is a status code. If the status is
/// 0, the text is empty, and the body is the response, which may have no bytes. If the status is not 0, the
/// body is empty, and the text is the reason. This includes the replies to calls that are refused for memory
/// or by the store.
pub fn formed<C, S: Service<C>>(config: &C)
    ensures { (old new : S) (s : S.State) (events : List Event)
        → Runs (S.machine config.now) (S.model config.now old) (S.model config.now new) s events
        → AreReplies (S.machine config.now) s events }
{}

/// The reply that refuses a malformed frame is valid in the envelope.
pub fn formed_fault()
    ensures { (fault : FrameFault) → fault.at < 2 ^ 64
        → IsReply (refusal (number_of Code.InvalidArgument) (fault_words fault.why ++ decimal fault.at)) }
{
    decimal_is_text();
}

/// Each reply of the identity service is valid in the envelope, for any call with a message of at most
/// 1,048,576 bytes.
pub fn formed_identity()
    ensures { (name version : List ℕ) (call : CallBytes) → length call.message ≤ MAX_MESSAGE_BYTES
        → IsReply ((identity name version).respond tt call).0 }
{
    decimal_is_text();
    reading();
}

/// Each reply of the volume machine is valid in the envelope, in any State and for any call with a message of
/// at most 1,048,576 bytes.
pub fn formed_volumes()
    ensures { (config : AnyConfig) (s : MachineState) (call : CallBytes)
        → length call.message ≤ MAX_MESSAGE_BYTES
        → IsReply ((volumes config).respond s call).0 }
{
    decimal_is_text();
    reading();
}

/// If a run of the volume machine starts in a State that meets the invariant, it ends in a State that meets
/// the invariant. This holds for any calls, also if some are refused for memory or by the store. Each State
/// that a stop may leave ([`pending`]) meets the invariant too.
pub fn kept(config: &Config)
    ensures run { (s : MachineState) (events : List Event) → IsInvariant config.now s
        → IsInvariant config.now (state_after (volumes config.now) s events) }
    ensures pending { (s : MachineState) (events : List Event) (t : MachineState) → IsInvariant config.now s
        → IsPending config.now s events t
        → IsInvariant config.now t }
{
    kept_by_answers(config);
}

/// No two volumes ever get the same number. A run of the volume machine never lowers the number for the next
/// volume, and never gives a volume the number of a deleted volume. This holds for any calls, also if some
/// are refused for memory or by the store. The run must start in a State that meets the invariant. If a
/// volume exists before and after the run, only its mutable parameters may change. So an id never names
/// another volume. The same holds for each State that a stop may leave ([`pending`]).
pub fn numbers(config: &Config)
    ensures run { (s : MachineState) (events : List Event) → IsInvariant config.now s
        → NumbersRise s (state_after (volumes config.now) s events) }
    ensures pending { (s : MachineState) (events : List Event) (t : MachineState) → IsInvariant config.now s
        → IsPending config.now s events t → NumbersRise s t }
{
    kept_by_answers(config);
    numbers_by_answers(config);
}

/// The law requires that a stop before a run of the volume machine leaves only the State at the start. Then a
/// stop after the run leaves one of two kinds of States:
///
/// - the State after the run
/// - this State with the change of one call that was refused for memory or by the store. The request of this
///   call was decoded and passed the checks, and no later call changed the State.
pub fn pending<K: Keeper>(config: &Config)
    ensures { (old new : K) (s : MachineState) (events : List Event)
        → Runs (volumes config.now) (seen config.now (K.model old)) (seen config.now (K.model new)) s events
        → ((t : MachineState) → (K.model old).survivors t → t ≡ s)
        → (t : MachineState) → (K.model new).survivors t → (t ≡ state_after (volumes config.now) s events)
        ⊎ IsPending config.now s events t }
{}

/// A call with a known path, a readable message and valid arguments gets the machine's answer to its request.
/// Any other call changes nothing, and its reply does not depend on the State. Each request that can be
/// encoded and passes the checks has a call.
pub fn asking()
    ensures exact { (call : CallBytes) (r : Request) → (asked call ≡ Some r) ↔ Asks call r }
    ensures answered { (config : AnyConfig) (s : MachineState) (call : CallBytes) (r : Request)
        → asked call ≡ Some r
        → (volumes config).respond s call ≡ (reported (step config s r).0, (step config s r).1) }
    ensures no_request { (call : CallBytes) → asked call ≡ None → (reply : ReplyBytes)
        × ((config : AnyConfig) (s : MachineState) → (volumes config).respond s call ≡ (reply, s)) }
    ensures spelled { (r : Request) → FitsRequest r → checked r ≡ None → Asks (spelled_call r) r }
{
    read_as_meant();
    round_trip();
}

/// The calls of a session are tries of the requests in the calls. The State after the calls is the State
/// after the tries, and the replies that the client hears to its requests are the answers to the tries.
/// Refusals for memory, by the store or because the store is down are not among these replies. The States
/// that a stop may leave ([`pending`]) are the same for both. If a stop before a run could leave only the
/// State at the start, a stop after the run leaves only States that a stop after the tries may leave. This
/// holds over any keeper.
pub fn tries<K: Keeper>(config: &Config)
    ensures after { (s : MachineState) (session : List Exchange)
        → state_after (volumes config.now) s (events_of session)
        ≡ after_tries config.now s (tries_of session) }
    ensures heard { (s : MachineState) (session : List Exchange)
        → heard_of config.now s session ≡ map reported (reported_of config.now s (tries_of session)) }
    ensures left { (s t : MachineState) (session : List Exchange) → IsLeft config.now s (events_of session) t
        ↔ Leaves config.now s (tries_of session) t }
    ensures stopped { (old new : K) (s : MachineState) (session : List Exchange)
        → Runs (volumes config.now) (seen config.now (K.model old)) (seen config.now (K.model new)) s
        (events_of session)
        → ((t : MachineState) → (K.model old).survivors t → t ≡ s)
        → (t : MachineState) → (K.model new).survivors t → Leaves config.now s (tries_of session) t }
{}

/// If a client repeats each of its requests until it hears the reply, each request is executed once (CSI
/// specification, 'Timeouts').
///
/// The first State meets the invariant. A call may be refused for memory, by the store or because the store
/// is down; the client then repeats the request. A reply may be lost, and a stop may end the session between
/// any two calls and leave a State of [`pending`]. At any time other clients may make calls that change
/// nothing, such as Probe, ListVolumes and GetCapacity. They may also make calls that contain no request or
/// are refused for their arguments. The other replies that the client hears, and the State at the end, are
/// the same as if each request were executed once.
///
/// # Not promised
///
/// A request may never be answered, and a start may fail. The law does not say which replies two clients hear
/// if both make requests that may change something, each between the tries of the other. It assumes that a
/// new connection starts from the State that the stop left.
///
/// Contracts are about calls that return. A process that ends inside a call leaves the same files as a run
/// whose disk fails from that moment on. Cases of `test_tables` about stops show this.
pub fn retry(config: &Config)
    ensures { (s t : MachineState) (requests : List Request) (sessions : List (List Exchange))
        (heard : List ReplyBytes) → IsInvariant config.now s
        → AreTriesOf requests (all_tries (map tries_of sessions))
        → IsLifeOfCalls config.now s sessions heard t
        → (heard ≡ map reported (reported_once config.now s requests))
        × (t ≡ after_once config.now s requests) }
{
    retry_requests(config);
}

/// A walk over the pages of a listing lists each volume at most once (CSI specification, 'ListVolumes'). The
/// walk begins in a State that meets the invariant.
///
/// The first page is requested with an empty token, and each later page with the token of the page before it.
/// A call for a page may be refused for memory or by the store, and its reply may be lost. The page is then
/// requested again with the same token. Any client may make other calls at any time. No page is refused for
/// its token, each listed volume existed when its page was read, and no volume is listed twice. A walk that
/// came to its end has listed each volume that existed at all of its pages.
pub fn walk(config: &Config)
    ensures read { (s : MachineState) (turns : List Turn) → IsInvariant config.now s
        → AreAsked config.now s [] turns → AreRead config.now s [] turns }
    ensures stood { (s : MachineState) (turns : List Turn) → AreAsked config.now s [] turns
        → AllByRecursion (AreOfVolumes config.now) (pages config.now s [] turns) }
    ensures once { (s : MachineState) (turns : List Turn) → IsInvariant config.now s
        → AreAsked config.now s [] turns
        → GoOn (pages config.now s [] turns) → AreApart (listed_ids (pages config.now s [] turns)) }
    ensures each { (s : MachineState) (turns : List Turn) (n : ℕ) → IsInvariant config.now s
        → AreAsked config.now s [] turns
        → GoOn (pages config.now s [] turns) → End (pages config.now s [] turns)
        → Stood n (pages config.now s [] turns)
        → Has (listed_ids (pages config.now s [] turns)) (id n) }
{
    walk_by_requests(config);
}

/// The premises of [`retry`] can be met: for each call with a request and each State, there are sessions in
/// which the call is made twice.
///
/// Either the call is executed and its reply is lost, or the call is refused for memory or by the store and a
/// stop leaves the State with its change. In the next session the call is made again, and its reply is heard.
/// Before this second call, another client may make a call that changes nothing.
pub fn made_twice(config: &Config)
    ensures lost { (s : MachineState) (call : CallBytes) (r : Request) → Asks call r
        → IsLifeOfTwo config.now s call r Unmarked }
    ensures refused { (s : MachineState) (call : CallBytes) (r : Request) (mark : Mark) → Asks call r
        → may_leave mark ≡ true → IsLifeOfTwo config.now s call r mark }
    ensures others { (s : MachineState) (call other : CallBytes) (r q : Request) → Asks call r → Asks other q
        → is_read q ≡ true → IsLifeWithAnother config.now s call other r }
{}

/// Each call is idempotent (CSI specification, 'Timeouts'). If a call is made twice, the second directly
/// after the first, the second gets the same reply and changes nothing more. The State before the calls must
/// meet the invariant. The law includes calls that cannot be decoded or do not pass the checks.
pub fn repeat(config: &Config)
    ensures { (s : MachineState) (call : CallBytes) → IsInvariant config.now s
        → (volumes config.now).respond ((volumes config.now).respond s call).1 call
        ≡ (volumes config.now).respond s call }
{
    repeat_request(config);
}

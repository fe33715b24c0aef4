//! Laws about several clients. A law is a function that does nothing: its caller gets what the contract of
//! the law states.

ghost use Rattle.std.specs.Prelude.{◌≡◌, ℕ, List, None, Some};
ghost use Rattle.std.specs.List.{AllByRecursion};
ghost use Rattle.envelope.specs.Envelope.{ReplyBytes};
ghost use Rattle.csi_types.specs.Checks.{checked};
ghost use Rattle.csi_types.specs.declared.requests.CreateVolume.{CreateVolume};
ghost use Rattle.csi_types.specs.declared.requests.DeleteVolume.{DeleteVolume};
ghost use Rattle.csi_types.specs.declared.requests.Request.{Request};
ghost use Rattle.csi_types.specs.declared.responses.Response.TheVariants as response;
ghost use Rattle.csi_keeper.specs.Invariant.{IsInvariant};
ghost use Rattle.csi_keeper.specs.State.{State, changed};
ghost use Rattle.csi_keeper.specs.declared.change.Change.{Change};
ghost use Rattle.csi_keeper.specs.declared.change.Change.TheVariants.{RemoveVolume};
ghost use Rattle.csi_machine.specs.Plan.{make, respond};
ghost use Rattle.csi_machine.specs.Retry.{AreTriesOf, IsLife, Try, after_once, all_tries, reported_once};
ghost use Rattle.csi_machine.specs.Step.{step};
ghost use Rattle.csi_machine.specs.Verdicts.{Report};
ghost use Rattle.csi_machine.specs.Verdicts.Report.{Says};
ghost use Rattle.csi_machine.specs.calls.Create.{create};
ghost use Rattle.csi_machine.specs.calls.Delete.{delete};
ghost use Rattle.csi_rules.specs.Ids.{number_of_id};
ghost use Rattle.csi_clients.specs.Calls.{AreReplies, ClientExchange, IsHistoryOfCalls, tries_of_sessions};
ghost use Rattle.csi_clients.specs.Clients.{LeaveEachOtherAlone, start};
ghost use Rattle.csi_clients.specs.Examples.{AreTwo, IsGivenUp, given_up, given_up_refused};
ghost use Rattle.csi_clients.specs.Files.{LivesAreLinearizable};
ghost use Rattle.csi_clients.specs.Histories.{AreAnswered, IsHistory, Sessions};
ghost use Rattle.csi_clients.specs.Linearizability.{IsLinearizable, IsLinearizableInFull};
ghost use Rattle.csi_clients.specs.Objects.{AllLeaveAlone};
ghost use Rattle.csi_clients.specs.OtherVolumes.{AreOfOtherVolumes, IsPlannedAsBefore};

use csi_config::Config;
use csi_keeper::Keeper;
use csi_machine::laws::{kept, repeat};
use csi_server::laws::tries;
use csi_types::laws::{inclusions, overlays};

/// A request that took effect remains in effect while other requests leave its object alone.
///
/// The law starts in a State that meets the invariant, with requests that pass the checks of their arguments.
/// A request is answered OK (`taken`). If it also changes nothing, since its change exists already, it need
/// not pass the checks (`found`). After it, other clients make any requests that leave its object alone. If
/// the first request is then made again, it is answered with the same body and changes nothing. The client
/// need not have heard the first answer: the reply may be lost, or the call may be refused and a stop may
/// leave the State with its change.
///
/// The object of a CreateVolume is the volume with its name, including the mutable parameters that the
/// request gives. The object of a DeleteVolume is the volume id. The object of a publish or an unpublish is
/// the volume at the node. The object of a ControllerModifyVolume is the set of parameters that it sets.
pub fn stays_done(config: &Config)
    ensures taken { (s : State) (r : Request) (others : List Request) (body : List ℕ)
        → IsInvariant config.now s
        → checked r ≡ None → AllByRecursion (λ q. checked q ≡ None) others
        → (step config.now s r).0 ≡ Says body
        → AllLeaveAlone config.now (step config.now s r).1 others r
        → step config.now (after_once config.now (step config.now s r).1 others) r
        ≡ (Says body, after_once config.now (step config.now s r).1 others) }
    ensures found { (s : State) (r : Request) (others : List Request) (body : List ℕ)
        → IsInvariant config.now s
        → AllByRecursion (λ q. checked q ≡ None) others
        → step config.now s r ≡ (Says body, s)
        → AllLeaveAlone config.now s others r
        → step config.now (after_once config.now s others) r
        ≡ (Says body, after_once config.now s others) }
{
    kept(config);
    repeat(config);
    overlays();
    inclusions();
}

/// A CreateVolume may change the object of a DeleteVolume, if the DeleteVolume guesses an id that no volume
/// had yet.
///
/// The DeleteVolume is answered OK at once, since no volume has the id. If a CreateVolume then gets the
/// number in this id, the same DeleteVolume, made again, deletes the new volume.
pub fn guessed_id(config: &Config)
    ensures { (s : State) (d : DeleteVolume) (r : CreateVolume) (c : Change) → IsInvariant config.now s
        → number_of_id d.volume_id ≡ Some s.next → (create config.now s r).change ≡ Some c
        → (delete s d ≡ respond response.Delete)
        × (delete (changed s c) d ≡ make response.Delete (RemoveVolume s.next)) }
{}

/// The plan of a request does not depend on earlier requests of other clients for other volumes, with the
/// exceptions below.
///
/// The law starts in a State that meets the invariant, and other clients make requests that pass the checks
/// of their arguments. DeleteVolume, ControllerUnpublishVolume, ControllerModifyVolume and
/// ValidateVolumeCapabilities have the same plan before and after these requests. ControllerPublishVolume
/// also has the same plan, unless it is refused in one of the two States because its node has its maximum of
/// volumes. ListVolumes and GetCapacity depend on all volumes: they have the same plan if the other requests
/// only read. A CreateVolume with a new name has the same size, name and parameters, but its pool and its
/// number come from the later State. So it may be refused in one of the two States and not in the other.
pub fn made_later(config: &Config)
    ensures { (s : State) (r : Request) (others : List Request) → IsInvariant config.now s
        → AllByRecursion (λ q. checked q ≡ None) others → AreOfOtherVolumes config.now s others r
        → IsPlannedAsBefore config.now s (after_once config.now s others) r }
{
    kept(config);
}

/// A history of several clients is linearizable if no two of them work on one object at once.
///
/// The history starts in a State that meets the invariant. Each client tries its requests one after the
/// other, and tries each request until it is answered. All requests pass the checks of their arguments. A try
/// may be refused for memory or by the store, or because the store is down. An answer may be lost. Between
/// any two tries a stop may end the session, and leaves the State after its tries, or the State with the
/// change of a refused try. A client may be gone after any try, because its process ends or because it gives
/// up. At any time, requests may be made that change nothing.
///
/// The tries are *separate*. A request is unsettled from its first try until it is answered or its client is
/// gone. If it was refused for memory or by the store, it stays unsettled until the machine executes a later
/// try of it, or the session ends. While a request is unsettled, it leaves alone the object of each request
/// that another client tries, and each such request leaves alone the object of the unsettled request. The
/// object of a request that changes nothing need not be left alone.
///
/// Then there is an order of requests with these properties:
///
/// - No request occurs twice, and the requests of each client are in the client's order.
/// - Each client hears the answers that its requests get in this order, and the final State is the State
///   after all of them.
/// - A request that was answered comes before each request that was first tried later. This is the real-time
///   order.
/// - The order contains all requests that were answered and, for each client, at most one request that was
///   tried and not answered. If all requests are answered, it contains all of them.
pub fn linearizable(config: &Config)
    ensures begun { (s t : State) (todo : ℕ → List Request) (sessions : Sessions)
        (heard : ℕ → List Report) → IsInvariant config.now s
        → ((c : ℕ) → AllByRecursion (λ r. checked r ≡ None) (todo c))
        → IsHistory config.now s (start todo) sessions heard t
        → IsLinearizable config.now s todo sessions heard t }
    ensures finished { (s t : State) (todo : ℕ → List Request) (sessions : Sessions)
        (heard : ℕ → List Report) → IsInvariant config.now s
        → ((c : ℕ) → AllByRecursion (λ r. checked r ≡ None) (todo c))
        → IsHistory config.now s (start todo) sessions heard t
        → AreAnswered (start todo) sessions
        → IsLinearizableInFull config.now s todo sessions heard t }
{
    kept(config);
    repeat(config);
    overlays();
    inclusions();
}

/// A history of two clients exists in which a stop comes between two tries of one client.
///
/// One client makes a request, and its answer is lost. Another client makes a request and is answered. After
/// a stop the first client tries again and is answered. If the two requests leave each other's objects alone
/// when the second is tried, the history meets the premises of [`linearizable`].
pub fn two_clients(config: &Config)
    ensures { (s : State) (r q : Request) → LeaveEachOtherAlone (step config.now s r).1 q r
        → AreTwo config.now s r q }
{}

/// A history exists in which one client gives up and another client continues with the same object.
///
/// An attacher sends ControllerPublishVolume, hears no answer, gives up and sends ControllerUnpublishVolume
/// for the same volume and node. The law treats the attacher as two clients, and the first of the two is
/// gone. If the first request was executed, the second is executed after it (`lost`). The first request may
/// also be refused for memory or by the store, and a stop may end the session. The second is then executed in
/// the State that the stop left (`refused`). This is the State without or with the change of the first
/// request. The first request never takes effect after the second. The law has no premise about the two
/// requests.
pub fn gives_up(config: &Config)
    ensures lost { (s : State) (r q : Request)
        → IsGivenUp config.now s (step config.now s r).1 r q (given_up r q) }
    ensures refused { (s : State) (r q : Request)
        → IsGivenUp config.now s s r q (given_up_refused r q)
        × IsGivenUp config.now s (step config.now s r).1 r q (given_up_refused r q) }
{}

/// `csi_machine::laws::retry` follows from [`linearizable`]. It is the case of one client that tries its
/// requests, while all other clients only make requests that change nothing.
pub fn retry_alone(config: &Config)
    ensures { (s t : State) (requests : List Request) (sessions : List (List Try)) (reported : List Report)
        → IsInvariant config.now s
        → AllByRecursion (λ r. checked r ≡ None) requests → AreTriesOf requests (all_tries sessions)
        → IsLife config.now s sessions reported t
        → (reported ≡ reported_once config.now s requests) × (t ≡ after_once config.now s requests) }
{
    linearizable(config);
}

/// A history of calls of several clients is linearizable if no two of them work on one object at once.
///
/// This is the law [`linearizable`] for calls and replies in bytes, over any keeper. Each client repeats a
/// call until it hears the reply. A call may be refused for memory or by the store, a reply may be lost, and
/// a stop leaves a State that `csi_server::laws::pending` allows. If a call is not a request, or is refused
/// for its arguments, it does not count as a try. So any client may make such a call at any time.
///
/// # Not promised
///
/// The law does not promise that each call is answered at some time. It does not say what two clients hear
/// that work on the same object at once. It assumes that the calls of a front, a sidecar or a person are
/// separate (docs/DEPLOY.md, "Clients that share a front").
pub fn linearizable_calls<K: Keeper>(config: &Config)
    ensures begun { (s t : State) (todo : ℕ → List Request) (sessions : List (List ClientExchange))
        (heard : ℕ → List ReplyBytes) → IsInvariant config.now s
        → ((c : ℕ) → AllByRecursion (λ r. checked r ≡ None) (todo c))
        → IsHistoryOfCalls config.now s (start todo) sessions heard t
        → (answers : ℕ → List Report) × AreReplies heard answers
        × IsLinearizable config.now s todo (tries_of_sessions sessions) answers t }
    ensures finished { (s t : State) (todo : ℕ → List Request) (sessions : List (List ClientExchange))
        (heard : ℕ → List ReplyBytes) → IsInvariant config.now s
        → ((c : ℕ) → AllByRecursion (λ r. checked r ≡ None) (todo c))
        → IsHistoryOfCalls config.now s (start todo) sessions heard t
        → AreAnswered (start todo) (tries_of_sessions sessions)
        → (answers : ℕ → List Report) × AreReplies heard answers
        × IsLinearizableInFull config.now s todo (tries_of_sessions sessions) answers t }
{
    linearizable(config);
    tries::<K>(config);
}

/// If runs over two files each end in a stop, and no two clients work on one object at once, the calls of all
/// runs are a linearizable history.
///
/// The tries must be separate ([`linearizable`]) for each State that a stop may leave. After the last run,
/// the files have the State that the requests make in the order of the history. The first run may be over
/// files that hold no database yet, and each later run over any contents that a crash may leave
/// (`csi_files::laws::lived`).
pub fn linearizable_files<K: Keeper>(config: &Config)
    ensures { LivesAreLinearizable config.now }
{
    linearizable_calls::<K>(config);
}

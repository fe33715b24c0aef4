//! Laws about the answers of the volume machine and about sequences of requests. A law is a function that
//! does nothing: its caller gets what the contract of the law states.

ghost use Rattle.std.specs.Prelude.{◌≡◌, ◌<◌, ◌^◌, ℕ, List, [], ◌∷◌, None, Some, true};
ghost use Rattle.csi_rules.specs.Ids.{id, number_of_id};
ghost use Rattle.csi_keeper.specs.Texts.{Text};
ghost use Rattle.csi_keeper.specs.Invariant.{IsInvariant};
ghost use Rattle.csi_keeper.specs.State.{State, changed};
ghost use Rattle.csi_keeper.specs.declared.change.Change.TheVariants.{AddVolume};
ghost use Rattle.csi_machine.specs.Walk.{Call, pages, AreRead, AreChecked, AreOfVolumes, GoOn, End, Stood, listed_ids, AreApart};
ghost use Rattle.csi_config.specs.Values.{Has};
ghost use Rattle.std.specs.List.{AllByRecursion};
ghost use Rattle.csi_rules.specs.Choice.{choice, rooms};
ghost use Rattle.csi_machine.specs.Numbers.{NumbersRise};
ghost use Rattle.csi_machine.specs.Offer.{AsksFor, IsNew, exactly, term_of};
ghost use Rattle.csi_machine.specs.calls.Capacity.{capacity, report_capacity};
ghost use Rattle.csi_machine.specs.calls.Create.{create, made, place_in};
ghost use Rattle.csi_machine.specs.Retry.{Try, IsLife, AreTriesOf, all_tries, reported_once, after_once, Marked, Unanswered, IsLifeOfTwo, IsLifeWithAnother};
ghost use Rattle.csi_machine.specs.Step.{is_read, step};
ghost use Rattle.csi_rules.specs.Info.{info_at};
ghost use Rattle.csi_rules.specs.Size.{size};
ghost use Rattle.csi_machine.specs.Verdicts.{Report};
ghost use Rattle.csi_machine.specs.Verdicts.Report.{Says};
ghost use Rattle.csi_codec.specs.Methods.{response_bytes};
ghost use Rattle.csi_config.specs.declared.pools.Pool.{Pool};
ghost use Rattle.csi_types.specs.declared.requests.CreateVolume.{CreateVolume};
ghost use Rattle.csi_types.specs.declared.requests.GetCapacity.{GetCapacity};
ghost use Rattle.csi_types.specs.declared.requests.Request.{Request};
ghost use Rattle.csi_types.specs.declared.requests.Request.TheVariants.{Create};
ghost use Rattle.csi_types.specs.declared.responses.Response.TheVariants as response;
ghost use Rattle.csi_types.specs.Checks.{checked};

use crate::configured::configured;
use csi_config::Config;
use csi_config::laws::{pool_keys_differ, pools_named};
use csi_types::laws::{equal_topologies, inclusions, overlays};

/// The id that is made of a volume's number names this volume, and no other text names it.
#[inline(always)]
#[tactic(auto, using(csi_rules::specs::facts::Ids::id_named, csi_rules::specs::facts::Ids::named_id))]
pub fn ids()
    ensures read { (n : ℕ) → n < 2 ^ 64 → number_of_id (id n) ≡ Some n }
    ensures only { (t : Text) (n : ℕ) → number_of_id t ≡ Some n → t ≡ id n }
{}

/// If the State before a request meets the invariant, and the request passes the checks of its arguments, the
/// State after the request meets the invariant. This also holds if the request is refused.
#[inline(always)]
pub fn kept(config: &Config)
    ensures { (s : State) (r : Request) → IsInvariant config.now s → checked r ≡ None
        → IsInvariant config.now (step config.now s r).1 }
{
    configured(config);
}

/// No two volumes ever get the same number. A request never lowers the number for the next volume, and never
/// gives a volume the number of a deleted volume. If a volume exists before and after a request, only its
/// mutable parameters may change. The State before the request must meet the invariant, and the request must
/// pass the checks of its arguments. The law also holds if the request is refused.
#[inline(always)]
pub fn numbers(config: &Config)
    ensures { (s : State) (r : Request) → IsInvariant config.now s → checked r ≡ None
        → NumbersRise s (step config.now s r).1 }
{
    configured(config);
}

/// A walk over the pages of a listing lists each volume at most once (CSI specification, 'ListVolumes'). The
/// walk begins in a State that meets the invariant.
///
/// The token of the first page is empty, and the token of each later page is the token that the page before
/// returned. Between the pages, any requests that pass the checks of their arguments may come. The law
/// states:
///
/// - no page is refused for its token
/// - each listed volume existed when its page was read
/// - no volume is listed twice
/// - a walk that reached its end has listed each volume that existed at all of its pages
///
/// # Not promised
///
/// While other clients add volumes, a walk may have no end. The pages of a walk may show the State at
/// different moments. A page that is too large for a reply is refused and does not count as a page of the
/// walk. The client asks for it again, with the same token and fewer entries.
#[inline(always)]
pub fn walk(config: &Config)
    ensures read { (s : State) (calls : List Call) → IsInvariant config.now s → AreChecked calls
        → AreRead config.now s [] calls }
    ensures stood { (s : State) (calls : List Call)
        → AllByRecursion (AreOfVolumes config.now) (pages config.now s [] calls) }
    ensures once { (s : State) (calls : List Call) → IsInvariant config.now s → AreChecked calls
        → GoOn (pages config.now s [] calls)
        → AreApart (listed_ids (pages config.now s [] calls)) }
    ensures each { (s : State) (calls : List Call) (n : ℕ) → IsInvariant config.now s → AreChecked calls
        → GoOn (pages config.now s [] calls)
        → End (pages config.now s [] calls) → Stood n (pages config.now s [] calls)
        → Has (listed_ids (pages config.now s [] calls)) (id n) }
{
    configured(config);
}

/// If GetCapacity offers a size, a volume of this size can be created (CSI specification, 'GetCapacity',
/// `maximum_volume_size`).
///
/// The State must meet the invariant, and the size is the maximum in the answer, which must be above 0. Then
/// a pool of the configuration can be chosen for this size and for the topology of the GetCapacity request.
/// So a CreateVolume for this size, with this topology among its requisite or preferred topologies, is
/// answered with a volume of this size in a pool of the configuration. The volume then exists. If the
/// GetCapacity request has no topology, this holds for a CreateVolume without requisite topologies.
///
/// The CreateVolume may have any range that results in this size, such as a range whose required size and
/// limit are this size. Its name must be new. The greatest number of volumes must not be reached, and the
/// volume numbers must not be used up.
#[inline(always)]
pub fn room(config: &Config)
    ensures chosen { (s : State) (g : GetCapacity) (available n : ℕ) → IsInvariant config.now s
        → capacity config.now s g ≡ report_capacity available n → 0 < n
        → (pool : Pool) × Has config.now.pools pool
        × (choice (rooms config.now s) (term_of g.topology ∷ []) n ≡ Some pool) }
    ensures made { (s : State) (g : GetCapacity) (available n : ℕ) (r : CreateVolume)
        → IsInvariant config.now s
        → capacity config.now s g ≡ report_capacity available n → 0 < n → AsksFor config.now r g.topology n
        → IsNew config.now s r.name → (pool : Pool)
        × Has config.now.pools pool × (create config.now s r ≡ place_in r s.next n (Some pool)) }
    ensures exact { (s : State) (g : GetCapacity) (available n : ℕ) → IsInvariant config.now s
        → capacity config.now s g ≡ report_capacity available n → 0 < n
        → size config.now.sizes (Some (exactly n)) ≡ Some n }
    ensures answered { (s : State) (g : GetCapacity) (available n : ℕ) (r : CreateVolume)
        → IsInvariant config.now s
        → capacity config.now s g ≡ report_capacity available n → 0 < n → AsksFor config.now r g.topology n
        → IsNew config.now s r.name → (pool : Pool)
        × Has config.now.pools pool × (step config.now s (Create r)
        ≡ (
          Says (response_bytes (response.Create
              (Some (info_at pool.segments (made r s.next n pool))))),
          changed s
              (AddVolume (made r s.next n pool)),
        )) }
{
    configured(config);
    pools_named(config);
    pool_keys_differ(config);
}

/// Each request is idempotent (CSI specification, 'Timeouts').
///
/// If a request is made twice, one directly after the other, both get the same answer, and the second does
/// not change the State. The State before them must meet the invariant, and the request must pass the checks
/// of its arguments.
#[inline(always)]
pub fn repeat(config: &Config)
    ensures { (s : State) (r : Request) → IsInvariant config.now s → checked r ≡ None
        → step config.now (step config.now s r).1 r ≡ step config.now s r }
{
    configured(config);
    equal_topologies();
    overlays();
    inclusions();
}

/// If a client repeats each request until it is answered, the effect is the same as executing each request
/// once (CSI specification, 'Timeouts').
///
/// The first State meets the invariant. A client sends requests that pass the checks of their arguments, one
/// after the other, and tries each request again until it is answered. A try may fail with an internal error
/// or because the store is down. An answer may be lost, and a stop may end the session between any two tries.
/// Other clients may at any time make requests that change nothing: Probe, ListVolumes, GetCapacity,
/// ValidateVolumeCapabilities, and the calls about the plugin. The answers and the State at the end are the
/// same as if each request were executed once.
#[inline(always)]
pub fn retry(config: &Config)
    ensures { (s t : State) (requests : List Request) (sessions : List (List Try)) (reported : List Report)
        → IsInvariant config.now s
        → AllByRecursion (λ r. checked r ≡ None) requests → AreTriesOf requests (all_tries sessions)
        → IsLife config.now s sessions reported t
        → (reported ≡ reported_once config.now s requests) × (t ≡ after_once config.now s requests) }
{
    configured(config);
    equal_topologies();
    overlays();
    inclusions();
}

/// The premises of [`retry`] can be met: for each request and each State, there are sessions in which a
/// client tries the request twice.
///
/// Either the request is executed and its answer is lost, or the request fails with an internal error and a
/// stop leaves the State with its change. In the next session the client tries the request again, and it is
/// answered. Before this second try, another client may make a request that changes nothing.
#[inline(always)]
pub fn tried_twice(config: &Config)
    ensures lost { (s : State) (r : Request) → IsLifeOfTwo config.now s r Unanswered }
    ensures refused { (s : State) (r : Request) → IsLifeOfTwo config.now s r Marked }
    ensures others { (s : State) (r q : Request) → is_read q ≡ true → IsLifeWithAnother config.now s r q }
{}

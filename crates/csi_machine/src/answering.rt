//! Answers requests over any keeper by carrying out their plans.

ghost use Rattle.std.specs.Prelude.{◌≡◌, ◌≤◌, ◌++◌, length, [], OnOk, OnErr, IfSome, IsTrue, None};
ghost use Rattle.csi_types.specs.Checks.{checked};
ghost use Rattle.envelope.specs.declared.limits.TheConstants.{MAX_BODY_BYTES};
ghost use Rattle.csi_types.specs.declared.requests.Request.TheVariants.{Create};
ghost use Rattle.csi_machine.specs.Answering.{Carries, Performs, body_of};
ghost use Rattle.csi_keeper.specs.Invariant.{IsInvariant};
ghost use Rattle.csi_keeper.specs.State.{State, IsBounded};
ghost use Rattle.csi_machine.specs.Configured.{IsConfigured};
ghost use Rattle.csi_machine.specs.Step.{is_planned, limited, step};
ghost use Rattle.csi_machine.specs.Verdicts.{Appended, IsReported, reported_of};

use crate::body::Verdict;
use crate::calls::{append_page, create, plan_of};
use crate::configured::configured;
use crate::identity::append_ready;
use crate::outcome::Outcome;
use csi_config::Config;
use csi_keeper::{Keeper, StoreFault};
use csi_types::{CreateVolume, Map, Request};
use std::alloc::Global;

// Appends the body of a plan's response, and then makes the plan's change. If the request or memory for the
// body is refused, nothing is appended and the State is unchanged. If the keeper returns a fault, the body is
// removed from the reply.
#[inline(always)]
fn finish<K: Keeper, P: Outcome>(
    alloc: Global,
    keeper: &mut K,
    outcome: P,
    out: &mut Vec<u8>,
) -> Result<Verdict, StoreFault>
    requires { IfSome (P.plan outcome).change IsBounded }
    ensures carries { Carries (limited (P.plan outcome)) (K.model keeper.old) (K.model keeper.new) result }
    ensures body { OnOk result (out.new.items ≡ out.old.items ++ body_of (limited (P.plan outcome)).outcome) }
    ensures small { OnOk result (length (body_of (limited (P.plan outcome)).outcome) ≤ MAX_BODY_BYTES) }
    ensures err { OnErr result (out.new.items ≡ out.old.items) }
{
    let from = out.len();
    if let Verdict::Refused(reason) = outcome.append(out)? {
        return Ok(Verdict::Refused(reason));
    }
    match outcome.carry_out(alloc, keeper) {
        Ok(verdict) => Ok(verdict),
        Err(fault) => {
            out.truncate(from);
            Err(fault)
        }
    }
}

// Plans a request, appends the body of its response, and makes its change.
fn append_planned<K: Keeper>(
    alloc: Global,
    config: &Config,
    keeper: &mut K,
    request: &Request,
    out: &mut Vec<u8>,
) -> Result<Verdict, StoreFault>
    requires planned { IsTrue (is_planned request.now) }
    requires configured { IsConfigured config.now }
    requires checked { checked request.now ≡ None }
    ensures { Performs config.now request.now (K.model keeper.old)
        (K.model keeper.new) out.old.items out.new.items result }
{
    let plan = plan_of(alloc, config, keeper, request)?;
    finish(alloc, keeper, plan, out)
}

// Answers CreateVolume. The response is written from the volume, without a plan in memory.
fn append_creation<K: Keeper>(
    alloc: Global,
    config: &Config,
    keeper: &mut K,
    request: &CreateVolume,
    out: &mut Vec<u8>,
) -> Result<Verdict, StoreFault>
    requires configured { IsConfigured config.now }
    requires checked { checked (Create request.now) ≡ None }
    ensures { Performs config.now (Create request.now) (K.model keeper.old)
        (K.model keeper.new) out.old.items out.new.items result }
{
    let no_segments = Map::new(alloc);
    let creation = create(alloc, config, &no_segments, keeper, request)?;
    finish(alloc, keeper, creation, out)
}

/// Answers a request over any keeper by one step of the machine: plans the request in the keeper's State,
/// appends the body of the response to `out`, and then makes the change.
///
/// The promises about the State hold while the keeper's doubt is 0, that is, while the keeper's store returns
/// what was written to it. They hold for each State that the keeper may have, if this State meets the
/// invariant. After an answer that changed the State, a stop leaves no other State than the changed one.
///
/// # Errors
///
/// Returns the fault of the keeper, or [`StoreFault::NoMemory`] if memory is refused. The State is unchanged,
/// but a stop may then leave the State with the change. `out` is unchanged after an error and after a
/// refusal.
///
/// # Not promised
///
/// The keeper and memory may fail at any time, and an answer may take any time. If a request was answered
/// with a fault, a stop may still leave the State with its change.
#[inline(always)]
pub fn append_answer<K: Keeper>(
    alloc: Global,
    config: &Config,
    keeper: &mut K,
    request: &Request,
    out: &mut Vec<u8>,
) -> Result<Verdict, StoreFault>
    requires { checked request.now ≡ None }
    ensures performs { Performs config.now request.now (K.model keeper.old)
        (K.model keeper.new) out.old.items out.new.items result }
    ensures invariant { (s : State) → IsInvariant config.now s
        → IsInvariant config.now (step config.now s request.now).1 }
{
    configured(config);
    match request {
        Request::Probe => Ok(append_ready(out)?),
        Request::Create(request) => append_creation(alloc, config, keeper, request.get(), out),
        Request::List(listing) => append_page(alloc, config, keeper, listing.get(), out),
        _ => append_planned(alloc, config, keeper, request, out),
    }
}

/// Empties `out` and answers a request over any keeper: plans the request in the keeper's State, writes the
/// body of the response to `out`, and then makes the change. [`append_answer`] states the promises about the
/// State.
///
/// # Errors
///
/// Returns the fault of the keeper, or [`StoreFault::NoMemory`] if memory is refused. The State is unchanged,
/// but a stop may then leave the State with the change. `out` is empty after an error and after a refusal.
pub fn answer<K: Keeper>(
    alloc: Global,
    config: &Config,
    keeper: &mut K,
    request: &Request,
    out: &mut Vec<u8>,
) -> Result<Verdict, StoreFault>
    requires { checked request.now ≡ None }
    ensures performs { Performs config.now request.now (K.model keeper.old)
        (K.model keeper.new) [] out.new.items result }
    ensures invariant { (s : State) → IsInvariant config.now s
        → IsInvariant config.now (step config.now s request.now).1 }
{
    out.clear();
    append_answer(alloc, config, keeper, request, out)
}

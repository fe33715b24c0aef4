//! The plan of a request: its answer, and at most one change.

ghost use Rattle.std.specs.Prelude.{◌≡◌, IfOk};
ghost use Rattle.csi_machine.specs.Plan.{make, refuse, respond};
ghost use Rattle.csi_machine.specs.Verdicts.{verdict_of};

use crate::body::Verdict;
use crate::response::PlannedResponse;
use csi_keeper::{Change, StoreFault};
use csi_types::{Boxed, Reason};
use std::alloc::{AllocError, Global};

/// A plan, or the fault of the keeper, or [`StoreFault::NoMemory`] if memory was refused.
pub(crate) type Planning = Result<Plan, StoreFault>;

/// The answer to a request, and the change to make before the answer is sent.
pub struct Plan {
    /// The response, or the reason of a refusal. A refused request changes nothing.
    pub outcome: Result<PlannedResponse, Reason>,
    /// The change to make, or `None` if the request changes nothing.
    pub change: Option<Boxed<Change>>,
}

// Written by hand and not derived: the proof of code that drops a plan then has one call for the drop, and no
// branch for each part.
impl Drop for Plan {
    #[inline(always)]
    fn drop(self) {
        let Plan {
            outcome: _outcome,
            change: _change,
        } = self;
    }
}

fn verdict_of(outcome: &Result<PlannedResponse, Reason>) -> Verdict
    ensures { result ≡ verdict_of outcome.now }
{
    match outcome {
        Ok(_) => Verdict::Done,
        Err(reason) => Verdict::Refused(*reason),
    }
}

impl Plan {
    /// Returns the verdict and the change, and drops the response.
    pub fn into_parts(self) -> (Verdict, Option<Boxed<Change>>)
        ensures { result ≡ (verdict_of self.outcome, self.change) }
    {
        let Plan { outcome, change } = self;
        (verdict_of(&outcome), change)
    }
}

/// Returns the plan that refuses a request and changes nothing.
pub(crate) fn refuse(reason: Reason) -> Plan
    ensures { result ≡ refuse reason }
{
    Plan {
        outcome: Err(reason),
        change: None,
    }
}

/// Returns the plan that makes a change and answers with a response. The function is inlined: the caller
/// knows the kind of the change, so only the bytes of this kind are moved.
///
/// # Errors
///
/// If memory is refused.
#[inline(always)]
pub(crate) fn make(
    alloc: Global,
    answer: PlannedResponse,
    change: Change,
) -> Result<Plan, AllocError>
    ensures { IfOk result (λ plan. plan ≡ make answer change) }
{
    let change = Boxed::new(alloc, change)?;
    Ok(Plan {
        outcome: Ok(answer),
        change: Some(change),
    })
}

/// Returns the plan that answers with a response and changes nothing.
pub(crate) fn respond(answer: PlannedResponse) -> Plan
    ensures { result ≡ respond answer }
{
    Plan {
        outcome: Ok(answer),
        change: None,
    }
}

//! The outcome of a request: a body or a refusal, and at most one change. The change is made after the body
//! is written.

ghost use Rattle.std.specs.Prelude.{◌≡◌, ◌≤◌, ◌++◌, length, IfOk, OnOk, OnErr, IfSome};
ghost use Rattle.envelope.specs.declared.limits.TheConstants.{MAX_BODY_BYTES};
ghost use Rattle.csi_keeper.specs.State.{IsBounded};
ghost use Rattle.csi_machine.specs.Answering.{Carries, body_of};
ghost use Rattle.csi_machine.specs.Step.{by_verdict, limited};
ghost use Rattle.csi_machine.specs.declared.plan.Plan.{Plan as AnyPlan};

use crate::body::Verdict;
use crate::plan::Plan;
use csi_keeper::{Keeper, StoreFault};
use std::alloc::{AllocError, Global};

/// A plan that can be carried out: first its body is appended, then its change is made.
pub(crate) trait Outcome: Drop {
    /// The plan as a value, for contracts.
    ghost plan: { Self → AnyPlan };

    /// Appends the body of the plan's response. Returns the reason if the plan is a refusal or the body is
    /// too large for a reply. Nothing is then appended, and the caller must not make the change.
    fn append(&self, out: &mut Vec<u8>) -> Result<Verdict, AllocError>
        ensures value { IfOk result (λ v. limited (plan self.now) ≡ by_verdict (plan self.now) v) }
        ensures body { OnOk result (out.new.items
            ≡ out.old.items ++ body_of (limited (plan self.now)).outcome) }
        ensures small { OnOk result (length (body_of (limited (plan self.now)).outcome) ≤ MAX_BODY_BYTES) }
        ensures err { OnErr result (out.new.items ≡ out.old.items) };

    /// Makes the plan's change, if it has one, and returns the plan's verdict.
    fn carry_out<K: Keeper>(self, alloc: Global, keeper: &mut K) -> Result<Verdict, StoreFault>
        requires { IfSome (plan self).change IsBounded }
        ensures { Carries (plan self) (K.model keeper.old) (K.model keeper.new) result };
}

impl Outcome for Plan {
    ghost plan = { λ p. p };

    fn append(&self, out: &mut Vec<u8>) -> Result<Verdict, AllocError> {
        match &self.outcome {
            Ok(answer) => answer.append(out),
            Err(reason) => Ok(Verdict::Refused(*reason)),
        }
    }

    fn carry_out<K: Keeper>(self, alloc: Global, keeper: &mut K) -> Result<Verdict, StoreFault> {
        let (verdict, change) = self.into_parts();
        if let Some(change) = change {
            keeper.apply_owned(alloc, change.into_value())?;
        }
        Ok(verdict)
    }
}

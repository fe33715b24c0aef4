//! The trait of requests that are planned from the configuration and reads of the keeper.

ghost use Rattle.std.specs.Prelude.{◌≡◌, None, IfErr, IfOk, IfSome};
ghost use Rattle.csi_config.specs.declared.config.Config.{Config as AnyConfig};
ghost use Rattle.csi_keeper.specs.State.{State, IsBounded};
ghost use Rattle.csi_keeper.specs.declared.change.StoreFault.TheVariants.{NoMemory};
ghost use Rattle.csi_rules.specs.Finding.{Finds};
ghost use Rattle.csi_machine.specs.declared.plan.Plan.{Plan as AnyPlan};

use crate::plan::Planning;
use csi_config::Config;
use csi_keeper::Keeper;
use csi_types::Boxed;
use std::alloc::Global;

/// A request that can be planned: DeleteVolume, ControllerPublishVolume, ControllerUnpublishVolume or
/// GetCapacity. A box of such a request can be planned too.
pub(crate) trait Planned {
    /// The plan of the request in a State.
    ghost planned: { AnyConfig → State → Self → AnyPlan };

    /// Holds if the request has a volume id that no volume can have. Such a request needs no State.
    ghost names_none: { Self → Type 0 };

    /// Plans the request by reads of the keeper alone. For a request that needs no State, the keeper is not
    /// called.
    fn plan<K: Keeper>(&self, alloc: Global, config: &Config, keeper: &mut K) -> Planning
        ensures bounded { IfOk result (λ p. IfSome p.change IsBounded) }
        ensures asks_nothing { names_none self.now
            → (keeper.new ≡ keeper.old) × IfErr result (λ e. e ≡ NoMemory) }
        ensures changes_nothing { names_none self.now → IfOk result (λ p. p.change ≡ None) }
        ensures finds { Finds (K.model keeper.old) (K.model keeper.new) result
            (λ s p. p ≡ planned config.now s self.now) };
}

// Plans the request in the box.
impl<T: Planned> Planned for Boxed<T> {
    ghost planned = { T.planned };

    ghost names_none = { T.names_none };

    fn plan<K: Keeper>(&self, alloc: Global, config: &Config, keeper: &mut K) -> Planning {
        self.get().plan(alloc, config, keeper)
    }
}

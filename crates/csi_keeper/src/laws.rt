//! Laws about attachments that coexist, and about the first State. A law is a function that does nothing: its
//! caller gets what the contract of the law states.

ghost use Rattle.std.specs.Prelude.{◌≡◌, ◌≤◌, ℕ};
ghost use Rattle.csi_keeper.specs.Coexistence.{coexist};
ghost use Rattle.csi_keeper.specs.Invariant.{IsInvariant};
ghost use Rattle.csi_keeper.specs.State.{first_state};
ghost use Rattle.csi_keeper.specs.declared.volume.Attachment.{Attachment};
ghost use Rattle.csi_types.specs.declared.limits.TheConstants.{MAX_NUMBER};

use csi_config::Config;

/// For any two attachments, `coexist a b` and `coexist b a` are equal: the order of the two does not matter.
#[inline(always)]
#[tactic(auto, using(crate::specs::facts::Coexistence::coexist_turned))]
pub fn coexist_symmetric()
    ensures { (a b : Attachment) → coexist a b ≡ coexist b a }
{}

/// A State without volumes and attachments meets the invariant if its next number is from 1 to 2^62.
#[inline(always)]
pub fn first(config: &Config)
    ensures { (n : ℕ) → 1 ≤ n → n ≤ MAX_NUMBER → IsInvariant config.now (first_state n) }
{}

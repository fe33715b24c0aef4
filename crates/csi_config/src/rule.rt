//! Rules that each item of a list must meet, and the search for the first item that breaks a rule.

ghost use Rattle.std.specs.Prelude.{◌≡◌, ◌<◌, take, None, OnOk, IfOk, IfErr, IfSome, Some, length};
ghost use Rattle.csi_config.specs.Faults.{first_broken, place_broken};

use crate::fault::ConfigFault;

/// An item of a list in a configuration: a pool or a node. It has a name, which faults of the item contain.
pub(crate) trait Ruled: Drop {
    ghost use Rattle.std.specs.Prelude.{ℕ, Bool, List};
    ghost use Rattle.csi_config.specs.declared.fault.ConfigFault.{ConfigFault};

    type Rule: Copy;

    // `breaks_rule` says if an item breaks a rule, given the items before it. `name_of` is the item's name,
    // and `fault_of` makes the fault from a name and a rule.
    ghost breaks_rule: { Self.Rule → List Self → Self → Bool };

    ghost name_of: { Self → List ℕ };

    ghost fault_of: { List ℕ → Self.Rule → ConfigFault };

    /// Returns true if `item` breaks the rule. The first `count` of `items` are the items before it, for
    /// rules that compare an item with earlier items.
    fn breaks(rule: Self::Rule, items: &[Self], count: usize, item: &Self) -> bool
        ensures { result ≡ breaks_rule rule (take count items.now) item.now };

    /// Makes the fault that contains the item's name and the rule.
    fn fault(self, rule: Self::Rule) -> ConfigFault
        ensures { result ≡ fault_of (name_of self) rule };
}

// Returns the index of the first item that breaks a rule, counted from 0, or `None` if no item breaks it.
fn place_of<T: Ruled>(rule: T::Rule, items: &[T]) -> Option<usize>
    ensures value { result ≡ place_broken T.breaks_rule rule items.now }
    ensures within { IfSome result (λ place. place < length items.now) }
{
    items
        .iter()
        .enumerate()
        .position(|(place, item)| T::breaks(rule, items, place, item))
}

/// Checks that no item breaks the rule, and returns the items.
///
/// # Errors
///
/// Returns the fault of the first item that breaks the rule.
pub(crate) fn check_rule<T: Ruled>(rule: T::Rule, mut items: Vec<T>) -> Result<Vec<T>, ConfigFault>
    ensures unchanged { IfOk result (λ same. same.items ≡ items.items) }
    ensures passed { OnOk result (first_broken T.breaks_rule T.name_of T.fault_of rule items.items ≡ None) }
    ensures refused { IfErr result (λ fault. first_broken T.breaks_rule T.name_of T.fault_of rule items.items
        ≡ Some fault) }
{
    match place_of(rule, items.as_slice()) {
        Some(place) => Err(items.swap_remove(place).fault(rule)),
        None => Ok(items),
    }
}

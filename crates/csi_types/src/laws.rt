//! Laws about maps, pairs of list elements, and topologies. A law is a function that does nothing: its caller
//! gets what the contract of the law states.

ghost use Rattle.std.specs.Prelude.{◌≡◌, ◌↔◌, ℕ, Bool, List, false, reverse, take, true};
ghost use Rattle.std.specs.FinMap.{entries, from_entries, get};
ghost use Rattle.std.specs.List.{list_any, enumerate_from};
ghost use Rattle.std.specs.Option.{option_or};
ghost use Rattle.csi_types.specs.Maps.{TextMap};
ghost use Rattle.csi_types.specs.Overlays.{has_each, laid_over};
ghost use Rattle.csi_types.specs.Topology.{has_alike_keys, is_within, same_topology, some_two};

/// If the entries of a map are inserted into an empty map, from the first to the last, the result equals the
/// map.
#[inline(always)]
pub fn map_entries()
    ensures { (m : TextMap) → from_entries (reverse (entries m)) ≡ m }
{}

/// `some_two test xs` is true if and only if the test passes for some element of the list and an element
/// before it. The earlier element is the first argument of the test. So a loop that tests each element with
/// all earlier elements computes `some_two`.
#[inline(always)]
pub fn pairs<T>()
    ensures { (test : T → T → Bool) (xs : List T)
        → list_any (λ p. list_any (λ x. test x p.1) (take p.0 xs)) (enumerate_from 0 xs) ≡ some_two test xs }
{}

/// Two keys are alike if they differ at most in the case of ASCII letters. Let two topologies have the same
/// segments (`same_topology`), and let neither have two keys that are alike. Then `is_within` gives the same
/// result for both, as the inner topology and as the outer topology.
#[inline(always)]
pub fn equal_topologies()
    ensures inner { (m n o : TextMap) → has_alike_keys m ≡ false → has_alike_keys n ≡ false
        → same_topology m n ≡ true → is_within o m ≡ is_within o n }
    ensures outer { (m n o : TextMap) → has_alike_keys m ≡ false → has_alike_keys n ≡ false
        → same_topology m n ≡ true → is_within m o ≡ is_within n o }
{}

/// The map `given` is laid over the map `m`. In the result each key of `given` has the value of `given`, and
/// each other key has the value of `m`. If `m` already has every entry of `given`, the result is `m`. So
/// laying `given` over the result again changes nothing.
#[inline(always)]
pub fn overlays()
    ensures values { (m given : TextMap) (key : List ℕ)
        → get (laid_over m given) key ≡ option_or (get given key) (get m key) }
    ensures given { (m given : TextMap) → has_each (laid_over m given) given ≡ true }
    ensures kept { (m given : TextMap) → has_each m given ≡ true → laid_over m given ≡ m }
    ensures again { (m given : TextMap) → laid_over (laid_over m given) given ≡ laid_over m given }
{}

/// The map `m` has each entry of the map `given` if and only if `m` has the same value under each key of
/// `given`. So each map has all of its own entries.
#[inline(always)]
pub fn inclusions()
    ensures values { (m given : TextMap) → (has_each m given ≡ true)
        ↔ ((key value : List ℕ) → get given key ≡ Some value → get m key ≡ Some value) }
    ensures own { (m : TextMap) → has_each m m ≡ true }
{}

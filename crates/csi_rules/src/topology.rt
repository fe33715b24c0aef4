//! Tests if a pool serves a topology.

ghost use Rattle.std.specs.Prelude.{◌≡◌};
ghost use Rattle.std.specs.List.{list_any};
ghost use Rattle.csi_rules.specs.Topology.{serves, is_reachable};

use csi_types::{Map, Requirement, is_within};

/// Returns true if a pool with these segments serves `term`, a topology of a request. The pool serves `term`
/// if the segments contain all of `term`, or `term` contains all of the segments. The case of ASCII letters
/// in keys does not count.
pub fn serves(segments: &Map, term: &Map) -> bool
    ensures { result ≡ serves segments.now term.now }
{
    is_within(segments, term) || is_within(term, segments)
}

fn serves_one(segments: &Map, terms: &[Map]) -> bool
    ensures { result ≡ list_any (serves segments.now) terms.now }
{
    terms.iter().any(|term| serves(segments, term))
}

/// Returns true if a pool with these segments serves at least one requisite topology, or if no requisite
/// topology is given (CSI specification, 'CreateVolume', `TopologyRequirement`).
pub fn is_reachable(segments: &Map, topology: &Option<Requirement>) -> bool
    ensures { result ≡ is_reachable segments.now topology.now }
{
    match topology {
        Some(wanted) => {
            let requisite = wanted.requisite.as_slice();
            requisite.is_empty() || serves_one(segments, requisite)
        }
        None => true,
    }
}

//! Checks the arguments of each request, in the order of the table in `csi_types` (`specs/Checks.antt`).

ghost use Rattle.std.specs.Prelude.{◌≡◌, ◌++◌, ◌||◌, OnOk, IfErr, false, nat_lt};
ghost use Rattle.std.specs.List.{list_any};
ghost use Rattle.csi_types.specs.Checks.{checked, is_long_access, lines, map_bytes, prefers_another};
ghost use Rattle.csi_types.specs.Lines.{first_line};
ghost use Rattle.csi_types.specs.declared.limits.TheConstants.{MAX_MAP_BYTES, MAX_NODE_ID_BYTES, MAX_TEXT_BYTES};
ghost use Rattle.csi_types.specs.Names.{longer_than};
ghost use Rattle.csi_types.specs.Topology.{has_alike_keys};
ghost use Rattle.csi_checks.specs.Parts.{kind_lines, parts_in, size_lines, term_lines};

use crate::capabilities::{has_long_text, has_missing_access, has_unknown_mode, has_unsupported};
use crate::measures::{
    is_any_below_zero, is_any_empty, is_any_long, is_any_long_node_id, is_any_negative,
    is_any_without_entry, is_large_map,
};
use crate::parts::{Parts, parts_of};
use crate::topologies::{has_ambiguous_term, has_large_term, is_any_large, prefers_another};
use csi_types::{Reason, Request, Text, has_alike_keys, name_reason};

/// Checks the arguments of a request. Takes no memory.
///
/// # Errors
///
/// Returns the reason of the first check, in the order of the table, that the request does not pass. Each of
/// these reasons has the code `InvalidArgument`.
#[tactic(auto, unfolding(csi_types::specs::Checks::checked))]
pub fn check(request: &Request) -> Result<(), Reason>
    ensures passed { OnOk result (checked request.now ≡ None) }
    ensures refused { IfErr result (λ reason. checked request.now ≡ Some reason) }
{
    match request {
        Request::PluginInfo
        | Request::PluginCapabilities
        | Request::Probe
        | Request::ControllerCapabilities => Ok(()),
        _ => match first_reason(&parts_of(request)) {
            Some(reason) => Err(reason),
            None => Ok(()),
        },
    }
}

// Returns the reason of the first line of the table that applies. The checks are in three functions, one
// check for each line.
fn first_reason(parts: &Parts<'_>) -> Option<Reason>
    ensures { result ≡ first_line lines (parts_in parts.now) }
{
    if let Some(reason) = reason_of_kind(parts) {
        return Some(reason);
    }
    if let Some(reason) = reason_of_size(parts) {
        return Some(reason);
    }
    reason_of_term(parts)
}

fn reason_of_kind(parts: &Parts<'_>) -> Option<Reason>
    ensures { result ≡ first_line kind_lines (parts_in parts.now) }
{
    if let Some(reason) = parts.name.and_then(|name| name_reason(name.as_str())) {
        Some(reason)
    } else if parts.wants_capability && parts.capabilities.is_empty() {
        Some(Reason::CapabilityMissing)
    } else if has_missing_access(parts.capabilities) {
        Some(Reason::AccessTypeMissing)
    } else if has_unknown_mode(parts.capabilities) {
        Some(Reason::AccessModeUnknown)
    } else if parts.is_create && has_unsupported(parts.capabilities) {
        Some(Reason::CapabilityNotSupported)
    } else {
        None
    }
}

fn reason_of_size(parts: &Parts<'_>) -> Option<Reason>
    ensures { result ≡ first_line size_lines (parts_in parts.now) }
{
    if is_any_negative(parts.ranges) {
        Some(Reason::CapacityNegative)
    } else if has_large_map(parts) {
        Some(Reason::MapTooLarge)
    } else if has_long_part(parts) {
        Some(Reason::TextTooLong)
    } else if parts.has_source {
        Some(Reason::SourceNotSupported)
    } else {
        None
    }
}

fn reason_of_term(parts: &Parts<'_>) -> Option<Reason>
    ensures { result ≡ first_line term_lines (parts_in parts.now) }
{
    if has_alike_segments(parts) {
        Some(Reason::TopologyKeysAlike)
    } else if has_other_preference(parts) {
        Some(Reason::PreferredNotRequisite)
    } else if is_any_empty(parts.volume_ids) {
        Some(Reason::VolumeIdMissing)
    } else if is_any_empty(parts.required_node_ids) {
        Some(Reason::NodeIdMissing)
    } else if is_any_below_zero(parts.most_entries) {
        Some(Reason::MaxEntriesNegative)
    } else if is_any_without_entry(parts.required_maps) {
        Some(Reason::MutableMissing)
    } else {
        None
    }
}

fn has_large_map(parts: &Parts<'_>) -> bool
    ensures { result ≡ list_any (λ m. nat_lt MAX_MAP_BYTES (map_bytes m)) (parts_in parts.now).maps }
{
    is_any_large(parts.first_map)
        || is_any_large(parts.second_map)
        || is_any_large(parts.third_map)
        || parts.topology.is_some_and(is_large_map)
        || parts.requirement.is_some_and(has_large_term)
}

fn has_long_part(parts: &Parts<'_>) -> bool
    ensures { result ≡ (list_any (longer_than MAX_TEXT_BYTES)
        (parts.now.volume_ids.now ++ parts.now.tokens.now)
        || list_any (longer_than MAX_NODE_ID_BYTES) parts.now.node_ids.now
        || list_any (λ c. is_long_access c.access) parts.now.capabilities.now) }
{
    has_long_text_of(parts.volume_ids, parts.tokens)
        || is_any_long_node_id(parts.node_ids)
        || has_long_text(parts.capabilities)
}

fn has_long_text_of(ids: &[Text], tokens: &[Text]) -> bool
    ensures { result ≡ list_any (longer_than MAX_TEXT_BYTES) (ids.now ++ tokens.now) }
{
    is_any_long(ids) || is_any_long(tokens)
}

fn has_alike_segments(parts: &Parts<'_>) -> bool
    ensures { result ≡ list_any has_alike_keys (parts_in parts.now).topologies }
{
    parts
        .topology
        .is_some_and(|topology| has_alike_keys(topology))
        || parts.requirement.is_some_and(has_ambiguous_term)
}

// Returns true if requisite topologies are given and a preferred topology is not among them.
fn has_other_preference(parts: &Parts<'_>) -> bool
    requires { list_any has_alike_keys (parts_in parts.now).topologies ≡ false }
    ensures { result ≡ list_any prefers_another (parts_in parts.now).requirements }
{
    match parts.requirement {
        Some(requirement) => prefers_another(requirement),
        None => false,
    }
}

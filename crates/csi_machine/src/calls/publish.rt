//! Plans ControllerPublishVolume: attaches a volume to a node (CSI specification, 'ControllerPublishVolume').

ghost use Rattle.std.specs.Prelude.{◌≡◌, Some, None, IfOk, IfSome, find};
ghost use Rattle.std.specs.Option.{option_copied};
ghost use Rattle.csi_keeper.specs.State.{IsBounded};
ghost use Rattle.csi_rules.specs.Finding.{Finds};
ghost use Rattle.csi_rules.specs.Ids.{number_of_id};
ghost use Rattle.csi_machine.specs.calls.Publish.{is_at, publish_again, attach, borrowed_target, publish, publish_node, publish_at, requested_key};
ghost use Rattle.csi_keeper.specs.Lookup.{node_of};

use crate::plan::{Plan, Planning, make, refuse, respond};
use crate::planned::Planned;
use crate::response::PlannedResponse;
use csi_config::{Config, Node};
use csi_keeper::{Attachment, CapKey, Change, Keeper, cap_key, has_key};
use csi_rules::{caps_of, has_conflict};
use csi_types::{Capability, Publish, Reason, Text, copy_text};
use std::alloc::{AllocError, Global};

fn publish_again(key: &CapKey, readonly: bool, attachment: &Attachment) -> Plan
    ensures bounded { IfSome result.change IsBounded }
    ensures value { result ≡ publish_again key.now readonly attachment.now }
{
    if attachment.cap == *key && attachment.readonly == readonly {
        return respond(PlannedResponse::published(readonly));
    }
    refuse(Reason::PublishedOtherwise)
}

// The target of ControllerPublishVolume: the number, capabilities and attachments of the volume, the node,
// and the count of volumes that are attached to the node (`there`).
#[derive(Clone, Copy)]
struct Target<'a> {
    number: u64,
    caps: &'a [CapKey],
    attachments: &'a [Attachment],
    node: &'a Node,
    there: u64,
}

fn attach(alloc: Global, target: &Target, mine: Attachment) -> Result<Plan, AllocError>
    ensures bounded { IfOk result (λ p. IfSome p.change IsBounded) }
    ensures value { IfOk result (λ p. p ≡ attach (borrowed_target target.now) mine) }
{
    if !has_key(target.caps, &mine.cap) {
        return Ok(refuse(Reason::CapabilityNotOfVolume));
    }
    if has_conflict(&mine, target.attachments) {
        return Ok(refuse(Reason::PublishedElsewhere));
    }
    if target.there >= target.node.max_volumes {
        return Ok(refuse(Reason::NodeFull));
    }
    let answer = PlannedResponse::published(mine.readonly);
    make(alloc, answer, Change::Attach(target.number, mine))
}

/// Returns the attachment to this node, or `None` if no attachment in the list is to this node.
pub(crate) fn attachment_at<'a>(
    attachments: &'a [Attachment],
    node: &Text,
) -> Option<&'a Attachment>
    ensures { option_copied result ≡ find (is_at node.now) attachments.now }
{
    attachments
        .iter()
        .find(|attachment| attachment.node == *node)
}

fn publish_key(
    alloc: Global,
    target: &Target,
    request: &Publish,
    key: CapKey,
) -> Result<Plan, AllocError>
    ensures bounded { IfOk result (λ p. IfSome p.change IsBounded) }
    ensures value { IfOk result (λ p. p ≡ publish_at (borrowed_target target.now) request.now (Some key)) }
{
    if let Some(attachment) = attachment_at(target.attachments, &request.node_id) {
        return Ok(publish_again(&key, request.readonly, attachment));
    }
    let mine = Attachment {
        node: copy_text(alloc, request.node_id.as_str())?,
        cap: key,
        readonly: request.readonly,
    };
    attach(alloc, target, mine)
}

fn requested_key(
    alloc: Global,
    capability: &Option<Capability>,
) -> Result<Option<CapKey>, AllocError>
    ensures { IfOk result (λ k. k ≡ requested_key capability.now) }
{
    match capability {
        Some(capability) => cap_key(alloc, capability),
        None => Ok(None),
    }
}

fn publish_at(alloc: Global, target: &Target, request: &Publish) -> Result<Plan, AllocError>
    ensures bounded { IfOk result (λ p. IfSome p.change IsBounded) }
    ensures value { IfOk result (λ p.
        p ≡ publish_at (borrowed_target target.now) request.now (requested_key request.now.capability)) }
{
    match requested_key(alloc, &request.capability)? {
        Some(key) => publish_key(alloc, target, request, key),
        None => Ok(refuse(Reason::CapabilityNotOfVolume)),
    }
}

fn node_of<'a>(config: &'a Config, id: &Text) -> Option<&'a Node>
    ensures { option_copied result ≡ node_of config.now id.now }
{
    config.nodes().iter().find(|node| node.id == *id)
}

fn publish_node<K: Keeper>(
    alloc: Global,
    config: &Config,
    keeper: &mut K,
    number: u64,
    caps: &[CapKey],
    request: &Publish,
) -> Planning
    ensures bounded { IfOk result (λ p. IfSome p.change IsBounded) }
    ensures finds { Finds (K.model keeper.old) (K.model keeper.new) result
        (λ s p. p ≡ publish_node s number caps.now request.now (node_of config.now request.now.node_id)) }
{
    let Some(node) = node_of(config, &request.node_id) else {
        return Ok(refuse(Reason::NodeNotFound));
    };
    let attachments = keeper.attachments(alloc, number)?;
    let there = keeper.count_at(alloc, &request.node_id)?;
    let target = Target {
        number,
        caps,
        attachments: attachments.as_slice(),
        node,
        there,
    };
    Ok(publish_at(alloc, &target, request)?)
}

/// Plans ControllerPublishVolume. If the volume is attached to the node with the same capability key and the
/// same `readonly` flag, nothing changes, and the answer is the same as for a new publication.
///
/// The request is refused in the first of these cases that applies:
///
/// - no volume has the volume id, or no node of the configuration has the node id
/// - the capability is missing or has no key
/// - the volume is attached to the node with another key or flag
/// - the volume has neither the key nor its wider key (`csi_keeper::wider_key`)
/// - an attachment of the volume cannot coexist with the new attachment
/// - the node has its greatest number of volumes
impl Planned for Publish {
    ghost planned = { publish };

    ghost names_none = { λ r. number_of_id r.volume_id ≡ None };

    fn plan<K: Keeper>(&self, alloc: Global, config: &Config, keeper: &mut K) -> Planning {
        let Some((number, caps)) = caps_of(alloc, keeper, &self.volume_id)? else {
            return Ok(refuse(Reason::VolumeNotFound));
        };
        publish_node(alloc, config, keeper, number, caps.as_slice(), self)
    }
}

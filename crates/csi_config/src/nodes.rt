//! The nodes of a configuration, and the checks of their ids and of their greatest numbers of volumes.

ghost use Rattle.std.specs.Prelude.{◌≡◌, take, None, OnOk, IfOk, IfErr, Some};
ghost use Rattle.std.specs.List.{list_any};
ghost use Rattle.csi_types.specs.Maps.{same_text};
ghost use Rattle.csi_config.specs.Faults.{breaks_node, id_of, is_bad_byte, is_bad_id, node_ids_fault, node_volumes_fault};
ghost use Rattle.csi_config.specs.declared.fault.ConfigFault.TheVariants as Fault;

use crate::fault::{ConfigFault, NodeRule};
use crate::rule::{Ruled, check_rule};
use csi_types::{MAX_NODE_ID_BYTES, MAX_NODES, MAX_VOLUMES, Text};

/// A node to which volumes can be published (CSI specification, 'ControllerPublishVolume').
#[derive(Debug, Drop)]
pub struct Node {
    /// The id of the node (`ControllerPublishVolumeRequest.node_id`): 1 to 256 bytes, without bytes below
    /// 0x20 and without 0x7F.
    pub id: Text,
    /// The greatest number of volumes that can be published to the node at once: 1 to 100,000.
    pub max_volumes: u64,
}

#[tactic(auto, unfolding(crate::specs::Faults::is_bad_byte))]
fn is_bad_byte(byte: u8) -> bool
    ensures { result ≡ is_bad_byte byte }
{
    byte < 0x20 || byte == 0x7f
}

fn has_bad_byte(id: &[u8]) -> bool
    ensures { result ≡ list_any is_bad_byte id.now }
{
    id.iter().any(|byte| is_bad_byte(*byte))
}

fn is_bad_id(id: &[u8]) -> bool
    ensures { result ≡ is_bad_id id.now }
{
    id.is_empty() || id.len() > MAX_NODE_ID_BYTES || has_bad_byte(id)
}

// Returns true if one of the first `count` nodes has this id.
fn has_id_before(nodes: &[Node], count: usize, id: &Text) -> bool
    ensures { result ≡ list_any (λ n. same_text n.id id.now) (take count nodes.now) }
{
    nodes.iter().take(count).any(|earlier| earlier.id == *id)
}

impl Ruled for Node {
    type Rule = NodeRule;

    ghost breaks_rule = { breaks_node };

    ghost name_of = { id_of };

    ghost fault_of = { Fault.Node };

    fn breaks(rule: NodeRule, nodes: &[Node], count: usize, node: &Node) -> bool {
        match rule {
            NodeRule::Id => is_bad_id(node.id.as_bytes()),
            NodeRule::IdTwice => has_id_before(nodes, count, &node.id),
            NodeRule::Volumes => node.max_volumes == 0 || node.max_volumes > MAX_VOLUMES,
        }
    }

    fn fault(self, rule: NodeRule) -> ConfigFault {
        ConfigFault::Node { id: self.id, rule }
    }
}

/// Checks the number of the nodes and their ids, and returns the nodes.
///
/// # Errors
///
/// Returns a fault if there are more than 64 nodes, or if an id is invalid or occurs twice.
#[tactic(auto, unfolding(crate::specs::Faults::node_ids_fault))]
pub(crate) fn check_ids(nodes: Vec<Node>) -> Result<Vec<Node>, ConfigFault>
    ensures unchanged { IfOk result (λ same. same.items ≡ nodes.items) }
    ensures passed { OnOk result (node_ids_fault nodes.items ≡ None) }
    ensures refused { IfErr result (λ fault. node_ids_fault nodes.items ≡ Some fault) }
{
    if nodes.len() > MAX_NODES {
        return Err(ConfigFault::TooManyNodes);
    }
    let known = check_rule(NodeRule::Id, nodes)?;
    check_rule(NodeRule::IdTwice, known)
}

/// Checks the greatest number of volumes of each node, and returns the nodes.
///
/// # Errors
///
/// Returns a fault if the greatest number of volumes of a node is 0 or above 100,000.
#[tactic(auto, unfolding(crate::specs::Faults::node_volumes_fault))]
pub(crate) fn check_volumes(nodes: Vec<Node>) -> Result<Vec<Node>, ConfigFault>
    ensures unchanged { IfOk result (λ same. same.items ≡ nodes.items) }
    ensures passed { OnOk result (node_volumes_fault nodes.items ≡ None) }
    ensures refused { IfErr result (λ fault. node_volumes_fault nodes.items ≡ Some fault) }
{
    check_rule(NodeRule::Volumes, nodes)
}

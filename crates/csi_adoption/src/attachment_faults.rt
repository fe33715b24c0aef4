//! Finds the faults of attachments and of their nodes.

ghost use Rattle.std.specs.Prelude.{◌≡◌, IfOk, option_copied, unwrap_or, []};
ghost use Rattle.csi_adoption.specs.Faults.{Says, attachment_fault, full_node, node_fault};
ghost use Rattle.csi_adoption.specs.Seen.{sums_of};

use crate::fault::AdoptFault;
use csi_config::Node;
use csi_constraints::{AttachmentConstraint, BrokenConstraint, RowName, TextSum};
use csi_types::{Text, copy_text};
use std::alloc::{AllocError, Global};

// Copies the text that names a row, or returns an empty text if the row has no text.
fn text_of(alloc: Global, text: &Option<Text>) -> Result<Text, AllocError>
    ensures { IfOk result (λ copy. copy ≡ unwrap_or text.now []) }
{
    match text {
        Some(text) => copy_text(alloc, text.as_str()),
        None => Ok(Text::new(alloc)),
    }
}

/// Checks that no attachment broke a constraint. `found` names the first attachment that broke it, or is
/// `None`. In the fault, a missing number is 0 and a missing node is an empty text.
///
/// # Errors
///
/// If `found` names an attachment, returns the fault with its volume and node. If memory is refused, returns
/// [`AdoptFault::NoMemory`].
pub(crate) fn check_attachment(
    alloc: Global,
    found: &Option<RowName>,
    constraint: AttachmentConstraint,
) -> Result<(), AdoptFault>
    ensures { Says (attachment_fault constraint found.now) result }
{
    let Some(name) = found else {
        return Ok(());
    };
    Err(AdoptFault::Broken(BrokenConstraint::Attachment {
        number: name.number.unwrap_or(0),
        node: text_of(alloc, &name.text)?,
        constraint,
    }))
}

// Returns the first node that has more attachments than its greatest number of volumes, or `None`.
fn full_node<'a>(nodes: &'a [Node], volumes: &[TextSum]) -> Option<&'a Node>
    ensures { option_copied result ≡ full_node nodes.now (sums_of volumes.now) }
{
    for (node, volumes) in nodes.iter().zip(volumes.iter()) {
        if volumes.sum > node.max_volumes {
            return Some(node);
        }
    }
    None
}

/// Checks that no node has more attachments than its greatest number of volumes. `volumes` has the number of
/// attachments of each node, in the order of `nodes`.
///
/// # Errors
///
/// Returns the fault of the first node with too many attachments, or [`AdoptFault::NoMemory`].
pub(crate) fn check_nodes(
    alloc: Global,
    nodes: &[Node],
    volumes: &[TextSum],
) -> Result<(), AdoptFault>
    ensures { Says (node_fault nodes.now (sums_of volumes.now)) result }
{
    match full_node(nodes, volumes) {
        Some(node) => Err(AdoptFault::Broken(BrokenConstraint::Node {
            id: copy_text(alloc, node.id.as_str())?,
        })),
        None => Ok(()),
    }
}

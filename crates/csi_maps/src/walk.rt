//! A walk over the attachments in memory, for a page of volumes.

ghost use Rattle.std.specs.Prelude.{◌≡◌, [], OnOk};
ghost use Rattle.csi_maps.specs.Rows.{nodes_in};
ghost use Rattle.csi_maps.specs.Walking.{ahead, IsOver, TakesUpTo};

use crate::attachments::{nodes_of, push_node};
use csi_keeper::Attachment;
use csi_types::{Items, Text};
use std::alloc::{AllocError, Global};
use std::collections::BTreeMap;
use std::collections::btree_map::Range;
use std::ops::Bound;

/// Finds the attachments of one volume after another. If the numbers of the volumes rise, the walk passes
/// each attachment once. If a number is not greater than the number before it, its attachments are looked up
/// in the map.
#[derive(Drop)]
pub(crate) struct Walk<'a> {
    // The next attachment, and the iterator over the attachments after it.
    next: Option<(&'a (u64, Text), &'a Attachment)>,
    rest: Range<'a, (u64, Text), Attachment>,
    // The greatest number that was visited, or the start `after` if no greater number was visited. The walk
    // has not yet passed the attachments of greater numbers.
    passed: u64,
    /// The nodes of the volume number that was visited last, in byte order.
    pub(crate) nodes: Items<Text>,
}

/// Starts a walk over the attachments of the volume numbers greater than `after`.
pub(crate) fn walk_after(
    alloc: Global,
    attachments: &BTreeMap<(u64, Text), Attachment>,
    after: u64,
) -> Walk<'_>
    ensures { IsOver attachments.now.entries result }
{
    // The addition saturates, so a walk after `u64::MAX` begins at `u64::MAX`. This start does no harm: no
    // number is greater, and the attachments of other numbers are looked up in the map.
    let first = (after.saturating_add(1), Text::new(alloc));
    let mut rest = attachments.range((Bound::Included(first), Bound::Unbounded));
    Walk {
        next: rest.next(),
        rest,
        passed: after,
        nodes: Items::new(alloc),
    }
}

#[inline(always)]
fn clear(alloc: Global, nodes: &mut Items<Text>)
    ensures { nodes.new ≡ [] }
{
    if nodes.is_empty() {
        return;
    }
    *nodes = Items::new(alloc);
}

impl<'a> Walk<'a> {
    // Returns the next attachment and passes it, unless its number is greater than `number`.
    #[inline(always)]
    fn next_up_to(&mut self, number: u64) -> Option<(&'a (u64, Text), &'a Attachment)>
        ensures takes { TakesUpTo number (ahead self.old) result (ahead self.new) }
        ensures passed { self.new.passed ≡ self.old.passed }
        ensures nodes { self.new.nodes ≡ self.old.nodes }
    {
        match self.next {
            Some((place, attachment)) if place.0 <= number => {
                self.next = self.rest.next();
                Some((place, attachment))
            }
            _ => None,
        }
    }

    /// Visits a volume number: `nodes` become the nodes of the attachments of that volume.
    ///
    /// # Errors
    ///
    /// If memory is refused.
    #[inline(always)]
    pub(crate) fn go_to(
        &mut self,
        alloc: Global,
        attachments: &BTreeMap<(u64, Text), Attachment>,
        number: u64,
    ) -> Result<(), AllocError>
        requires { IsOver attachments.now.entries self.old }
        ensures nodes { OnOk result (self.new.nodes ≡ nodes_in attachments.now.entries number) }
        ensures over { IsOver attachments.now.entries self.new }
    {
        if number <= self.passed {
            self.nodes = nodes_of(alloc, attachments, number)?;
            return Ok(());
        }
        self.passed = number;
        clear(alloc, &mut self.nodes);
        while let Some((place, attachment)) = self.next_up_to(number) {
            push_node(alloc, &mut self.nodes, number, place, attachment)?;
        }
        Ok(())
    }
}

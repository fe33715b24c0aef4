//! The trait of the stores that keep the State of volumes.

ghost use Rattle.std.specs.Prelude.{◌≡◌, is_some};
ghost use Rattle.std.specs.FinMap.{get};
ghost use Rattle.std.specs.Option.{option_map};
ghost use Rattle.csi_keeper.specs.State.{State, IsBounded, named, used, sizes, attached, attached_at, count_at, page};
ghost use Rattle.csi_keeper.specs.Listing.{IsPageWithNodes, listing};
ghost use Rattle.csi_keeper.specs.Keeper.{Applies, Reads};
ghost use Rattle.csi_keeper.specs.Model.{Model};

use crate::capability::CapKey;
use crate::change::{Change, StoreFault, Usage};
use crate::listed::{PageWithNodes, listed_each};
use crate::page::{PageFold, fold_listed};
use crate::volume::{Attachment, Volume};
use csi_types::{Items, Text};
use std::alloc::Global;

/// A store of volumes and attachments. Its State is the next number, the volumes by number, and the
/// attachments by number and node.
///
/// A read returns a part of the State and changes nothing. A change is made as a whole or not at all. If a
/// change fails, the State is unchanged, but a stop of the process may then leave the State with the change.
/// While the keeper is down, each call except `refusals` returns `Down` and changes nothing. A keeper that is
/// not down never returns `Down`.
///
/// A keeper may use a disk that returns other bytes than were written to it. The promises about the State
/// hold while no such bytes were read, that is, while `doubt` is 0. The doubt never falls.
///
/// Any call except `refusals` may return `NoMemory` or `Refused`. The State is unchanged by such a call. The
/// caller owns the values that a call returns.
///
/// # Not promised
///
/// The trait does not promise:
///
/// - that a call succeeds if memory is available, or that memory was refused if a call returns `NoMemory`
/// - how much time and memory calls take. The docs of the calls state the costs of this project's keepers.
/// - what a change does if the State does not allow it
/// - that the rows of an existing file are the rows of a State. `csi_adoption::adopt` checks such a file. A
///   new keeper has a State, and each change leaves a State.
pub trait Keeper {
    // The model of the keeper, which contracts use: its State, the States that a stop may leave, and the
    // counts.
    ghost model: { Self → Model State };

    /// Returns the number of calls that returned `Refused` or `Down` since the keeper was opened, at most
    /// 2^64 - 1. The call takes O(1) time, and also works while the keeper is down.
    fn refusals(&self) -> u64
        ensures { result ≡ (model self.now).refusals };

    /// Returns the number that the next volume gets. Adding a volume uses this number, and raises the next
    /// number by 1. No other change affects the next number, so no number is used twice.
    fn next_number(&mut self) -> Result<u64, StoreFault>
        ensures { Reads (model self.old) (model self.new) result (λ s n. n ≡ s.next) };

    /// Returns the volume whose name equals `name` byte for byte, or `None` if no volume has this name.
    fn by_name(&mut self, alloc: Global, name: &str) -> Result<Option<Volume>, StoreFault>
        ensures { Reads (model self.old) (model self.new) result (λ s v. v ≡ named s name.now) };

    /// Returns the volume with this number, or `None` if no volume has it.
    fn by_number(&mut self, alloc: Global, number: u64) -> Result<Option<Volume>, StoreFault>
        ensures { Reads (model self.old) (model self.new) result (λ s v. v ≡ get s.volumes number) };

    /// Returns true if a volume has this number. The call does not copy the volume, so it needs no memory for
    /// a copy. DeleteVolume uses it.
    fn has_volume(&mut self, number: u64) -> Result<bool, StoreFault>
        ensures { Reads (model self.old) (model self.new) result
            (λ s has. has ≡ is_some (get s.volumes number)) };

    /// Returns the capability keys of the volume with this number, or `None` if no volume has it. The call
    /// costs no more than `by_number`, and less if a keeper need not copy the other fields of the volume.
    fn caps_of(&mut self, alloc: Global, number: u64) -> Result<Option<Items<CapKey>>, StoreFault>
        ensures { Reads (model self.old) (model self.new) result
            (λ s keys. keys ≡ option_map (λ v. v.caps) (get s.volumes number)) }
    {
        match self.by_number(alloc, number)? {
            Some(volume) => Ok(Some(volume.caps)),
            None => Ok(None),
        }
    }

    /// Returns the attachments of the volume with this number, in byte order of their nodes' ids.
    fn attachments(&mut self, alloc: Global, number: u64) -> Result<Items<Attachment>, StoreFault>
        ensures { Reads (model self.old) (model self.new) result (λ s xs. xs ≡ attached s number) };

    /// Returns the numbers of the volumes that are attached to a node, in rising order. The call may look
    /// through all attachments.
    fn attached_at(&mut self, alloc: Global, node: &str) -> Result<Items<u64>, StoreFault>
        ensures { Reads (model self.old) (model self.new) result (λ s xs. xs ≡ attached_at s node.now) };

    /// Returns the number of volumes that are attached to a node: the length of the list that `attached_at`
    /// returns. The call costs no more than `attached_at`, and less if a keeper stores the count.
    fn count_at(&mut self, alloc: Global, node: &Text) -> Result<u64, StoreFault>
        ensures { Reads (model self.old) (model self.new) result (λ s n. n ≡ count_at s node.now) }
    {
        let numbers = self.attached_at(alloc, node.as_str())?;
        Ok(numbers.len() as u64)
    }

    /// Returns the sizes in bytes of a pool's volumes, in rising order of the volumes' numbers. The call may
    /// look through all volumes. `used_in` returns the number and the sum of the sizes without looking
    /// through the volumes.
    fn sizes_in(&mut self, alloc: Global, pool: &str) -> Result<Items<u64>, StoreFault>
        ensures { Reads (model self.old) (model self.new) result (λ s xs. xs ≡ sizes s pool.now) };

    /// Returns the number of a pool's volumes and the sum of their bytes. These are the length and the sum of
    /// the list that `sizes_in` returns, but a value above 2^64 - 1 is returned as 2^64 - 1. A keeper stores
    /// both, so creating a volume costs no more in a pool with many volumes.
    fn used_in(&mut self, pool: &Text) -> Result<Usage, StoreFault>
        ensures { Reads (model self.old) (model self.new) result (λ s u. u ≡ used s pool.now) };

    /// Returns the first `count` volumes with numbers greater than `after`, in rising order: one page of a
    /// listing (CSI 1.x, `ListVolumes`). The call takes the time of one search for the first volume, and then
    /// a time in proportion to the size of the page.
    fn page(&mut self, alloc: Global, after: u64, count: u32) -> Result<Items<Volume>, StoreFault>
        ensures { Reads (model self.old) (model self.new) result (λ s xs. xs ≡ page s after count) };

    /// Returns the first `count` volumes with numbers greater than `after`, in rising order. For each volume,
    /// also returns the ids of the nodes that it is published to, in byte order (CSI 1.x,
    /// `ListVolumesResponse.VolumeStatus.published_node_ids`). The whole page is one read.
    fn page_with_nodes(
        &mut self,
        alloc: Global,
        after: u64,
        count: u32,
    ) -> Result<PageWithNodes, StoreFault>
        ensures { Reads (model self.old) (model self.new) result (λ s p. IsPageWithNodes s after count p) };

    /// Passes the first `count` volumes with numbers greater than `after` to a fold, in rising order. Each
    /// volume is passed with the ids of its nodes, as a listing entry. The call costs no more than
    /// `page_with_nodes`, and less if a keeper can pass references.
    ///
    /// After an error the fold may have taken some of the volumes.
    fn fold_page<F: PageFold>(
        &mut self,
        alloc: Global,
        after: u64,
        count: u32,
        fold: &mut F,
    ) -> Result<(), StoreFault>
        ensures folded { Reads (model self.old) (model self.new) result
            (λ s _. F.folds fold.old (listing s after count) fold.new) }
        ensures kept { F.keeps fold.old fold.new }
    {
        let PageWithNodes { volumes, nodes } = self.page_with_nodes(alloc, after, count)?;
        let listed = listed_each(alloc, volumes.as_slice(), nodes)?;
        Ok(fold_listed(listed.as_slice(), fold)?)
    }

    /// Makes a change. The variants of [`Change`] state when the State allows it. If the State does not allow
    /// the change, the keeper promises nothing about its State from then on.
    ///
    /// In any case, an added volume must have a number below 2^62, at most 2^62 bytes, and capability keys in
    /// rising order without duplicates. New mutable parameters must have at most 4,096 bytes.
    ///
    /// - After `Ok` the change is made, and the keeper is not down. A stop leaves the State with the change.
    /// - After `NoMemory` or `Refused` the State is unchanged. But a stop may leave the State with the
    ///   change, or a State that a stop before the call could have left.
    /// - After `Down` nothing is changed.
    fn apply(&mut self, alloc: Global, change: &Change) -> Result<(), StoreFault>
        requires { IsBounded change.now }
        ensures { Applies (model self.old) (model self.new) change.now result };

    /// Makes a change that is passed by value, with the same effect as [`apply`](Keeper::apply). The call
    /// costs no more than `apply`, and less if a keeper can use the parts of the change. For example, a
    /// keeper in memory stores an added volume without a copy.
    fn apply_owned(&mut self, alloc: Global, change: Change) -> Result<(), StoreFault>
        requires { IsBounded change }
        ensures { Applies (model self.old) (model self.new) change result }
    {
        self.apply(alloc, &change)
    }
}

//! A keeper in memory.
//!
//! The rows are in ordered maps and not in vectors: searches by number or name and removals take logarithmic
//! time. So a search among the greatest number of volumes costs little more than a search among a few.

ghost use Rattle.std.specs.Prelude.{◌≤◌, ◌<◌, ◌^◌, IfOk, OnOk, OnErr};
ghost use Rattle.csi_keeper.specs.State.{State, Allows, changed, first_state};
ghost use Rattle.csi_keeper.specs.declared.change.Change.TheVariants.{AddVolume, RemoveVolume, Attach, Detach, DetachAll, SetMutable};
ghost use Rattle.csi_memory.specs.Holding.{Holds};
ghost use Rattle.csi_memory.specs.Restoring.{CanRestore, from_number, restored};

use csi_keeper::{
    Attachment, CapKey, Change, Keeper, PageFold, PageWithNodes, StoreFault, Totals, Usage, Volume,
    copy_volume,
};
use csi_maps::{
    CompactMap, Names, StoredVolume, attached_to, caps_at, count_at, drop_name, fold_after,
    has_volume, nodes_after, numbers_at, put_attachment, put_volume, remove_attachment,
    remove_attachments, remove_volume, set_mutable, set_name, sizes_of, volume_at, volume_named,
    volumes_after,
};
use csi_types::{Items, Map, Text, copy_map, copy_text};
use std::alloc::{AllocError, Global};
use std::collections::{BTreeMap, BTreeSet};

/// A keeper in memory. It is never down. A call fails only if an allocation is refused. The State is then
/// unchanged, and later calls may succeed. The volumes end with the process, so a stop leaves nothing.
///
/// Each volume is stored once, and the values that calls return are copies. For n volumes, m attachments, p
/// pools and d nodes with attachments, calls take this time:
///
/// - a volume by its number or name: O(log n)
/// - the attachments of a volume: O(log m), and one step for each
/// - a page: O(log n), and one step for each entry; with nodes also O(log m), and one step for each node
/// - the used bytes of a pool: O(log p)
/// - the number of volumes at a node: O(log d); their numbers also take one step for each
/// - a change: O(log n + log m + log p); `DetachAll` takes O(log m) for each attachment that it removes
/// - `sizes_in`: one step for each volume
#[derive(Drop)]
pub struct MemKeeper {
    next: u64,
    volumes: BTreeMap<u64, StoredVolume>,
    names: Names,
    pools: Totals,
    attachments: BTreeMap<(u64, Text), Attachment>,
    // For each node with attachments, the numbers of the volumes that are attached to it.
    nodes: BTreeMap<Text, BTreeSet<u64>>,
}

impl MemKeeper {
    /// Returns a keeper without volumes and attachments, whose first volume gets the number `first`, from 1
    /// to 2^62. Fails only if memory is refused.
    pub fn new(alloc: Global, first: u64) -> Result<MemKeeper, AllocError>
        requires least { 1 ≤ first }
        requires most { first ≤ 2 ^ 62 }
        ensures { IfOk result (λ keeper. Holds keeper (first_state first)) }
    {
        Ok(MemKeeper {
            next: first,
            volumes: BTreeMap::new(alloc),
            names: Names::new(alloc),
            pools: Totals::new(alloc),
            attachments: BTreeMap::new(alloc),
            nodes: BTreeMap::new(alloc),
        })
    }

    /// Raises the next number to `number`, which is at most 2^62. Changes nothing if the next number is
    /// already `number` or greater.
    #[tactic(auto, using(crate::proofs::KeptLemmas::kept_next))]
    pub fn skip_to(&mut self, number: u64)
        requires { number ≤ 2 ^ 62 }
        ensures { (s : State) → Holds self.old s → Holds self.new (from_number s number) }
    {
        self.next = self.next.max(number);
    }

    /// Adds a volume that already has a number, and sets the next number to this number plus 1. The volume's
    /// number must be below 2^62 and not below the next number, and its size at most 2^62 bytes. No other
    /// volume may have its name. The volume is moved into the rows. Only the name of the volume's pool is
    /// copied, and the name of the volume if another name has the same hash.
    ///
    /// # Errors
    ///
    /// If memory is refused. The volumes are unchanged.
    ///
    /// # Not promised
    ///
    /// After an error the next number may have risen to the number of the volume.
    pub fn restore(&mut self, alloc: Global, volume: Volume) -> Result<(), AllocError>
        requires number { volume.number < 2 ^ 62 }
        requires bytes { volume.bytes ≤ 2 ^ 62 }
        ensures made { OnOk result ((s : State) → Holds self.old s → CanRestore s volume
            → Holds self.new (restored s volume)) }
        ensures unchanged { OnErr result ((s : State) → Holds self.old s → CanRestore s volume
            → Holds self.new (from_number s volume.number)) }
    {
        self.skip_to(volume.number);
        self.add(alloc, volume)
    }

    fn add(&mut self, alloc: Global, volume: Volume) -> Result<(), AllocError>
        requires number { volume.number < 2 ^ 62 }
        requires bytes { volume.bytes ≤ 2 ^ 62 }
        ensures made { OnOk result ((s : State) → Holds self.old s → Allows s (AddVolume volume)
            → Holds self.new (changed s (AddVolume volume))) }
        ensures unchanged { OnErr result ((s : State) → Holds self.old s → Allows s (AddVolume volume)
            → Holds self.new s) }
    {
        let (number, bytes) = (volume.number, volume.bytes);
        let pool = volume.pool.copy(alloc)?;
        let stored = StoredVolume::new(alloc, volume)?;
        set_name(alloc, &mut self.names, &stored.name, number)?;
        if let Err(failed) = put_volume(&mut self.volumes, number, stored) {
            let (_, stored) = failed.value;
            drop_name(&mut self.names, &stored.name, number);
            return Err(AllocError);
        }
        if let Err(refused) = self.pools.add(pool, bytes) {
            if let Some(stored) = remove_volume(&mut self.volumes, number) {
                drop_name(&mut self.names, &stored.name, number);
            }
            return Err(refused);
        }
        self.next = number + 1;
        Ok(())
    }

    fn remove(&mut self, number: u64)
        ensures { (s : State) → Holds self.old s → Allows s (RemoveVolume number)
            → Holds self.new (changed s (RemoveVolume number)) }
    {
        if let Some(stored) = remove_volume(&mut self.volumes, number) {
            self.pools.remove(&stored.pool, stored.bytes);
            drop_name(&mut self.names, &stored.name, number);
        }
    }

    fn attach(
        &mut self,
        alloc: Global,
        number: u64,
        attachment: &Attachment,
    ) -> Result<(), AllocError>
        ensures made { OnOk result ((s : State) → Holds self.old s → Allows s (Attach number attachment.now)
            → Holds self.new (changed s (Attach number attachment.now))) }
        ensures unchanged { OnErr result ((s : State) → Holds self.old s
            → Allows s (Attach number attachment.now) → Holds self.new s) }
    {
        put_attachment(
            alloc,
            &mut self.attachments,
            &mut self.nodes,
            number,
            attachment,
        )
    }

    fn detach(&mut self, alloc: Global, number: u64, node: &Text) -> Result<(), AllocError>
        ensures made { OnOk result ((s : State) → Holds self.old s → Allows s (Detach number node.now)
            → Holds self.new (changed s (Detach number node.now))) }
        ensures unchanged { OnErr result ((s : State) → Holds self.old s → Allows s (Detach number node.now)
            → Holds self.new s) }
    {
        let place = (number, copy_text(alloc, node.as_str())?);
        remove_attachment(&mut self.attachments, &mut self.nodes, place);
        Ok(())
    }

    fn detach_all(&mut self, alloc: Global, number: u64) -> Result<(), AllocError>
        ensures made { OnOk result ((s : State) → Holds self.old s → Allows s (DetachAll number)
            → Holds self.new (changed s (DetachAll number))) }
        ensures unchanged { OnErr result ((s : State) → Holds self.old s → Allows s (DetachAll number)
            → Holds self.new s) }
    {
        remove_attachments(alloc, &mut self.attachments, &mut self.nodes, number)
    }

    #[tactic(auto, using(crate::proofs::ChangeLemmas::kept_mutable))]
    fn set_mutable(&mut self, alloc: Global, number: u64, mutable: &Map) -> Result<(), AllocError>
        ensures made { OnOk result ((s : State) → Holds self.old s → Allows s (SetMutable number mutable.now)
            → Holds self.new (changed s (SetMutable number mutable.now))) }
        ensures unchanged { OnErr result ((s : State) → Holds self.old s
            → Allows s (SetMutable number mutable.now) → Holds self.new s) }
    {
        let copy = CompactMap::new(alloc, copy_map(alloc, mutable)?)?;
        set_mutable(&mut self.volumes, number, copy);
        Ok(())
    }
}

impl Keeper for MemKeeper {
    ghost use Rattle.csi_memory.specs.Holding.{mem_model};

    ghost model = { λ keeper. mem_model keeper };

    fn refusals(&self) -> u64 {
        0
    }

    #[tactic(auto, using(csi_keeper::specs::facts::Reads::quiet_same, crate::proofs::ReadLemmas::held_next))]
    fn next_number(&mut self) -> Result<u64, StoreFault> {
        Ok(self.next)
    }

    #[tactic(auto, using(csi_keeper::specs::facts::Reads::quiet_same, crate::proofs::NamesLemmas::named_kept))]
    fn by_name(&mut self, alloc: Global, name: &str) -> Result<Option<Volume>, StoreFault> {
        Ok(volume_named(alloc, &self.names, &self.volumes, name)?)
    }

    #[tactic(auto, using(csi_keeper::specs::facts::Reads::quiet_same, crate::proofs::ReadLemmas::held_number))]
    fn by_number(&mut self, alloc: Global, number: u64) -> Result<Option<Volume>, StoreFault> {
        Ok(volume_at(alloc, &self.volumes, number)?)
    }

    #[tactic(auto, using(csi_keeper::specs::facts::Reads::quiet_same, crate::proofs::ReadLemmas::held_has))]
    fn has_volume(&mut self, number: u64) -> Result<bool, StoreFault> {
        Ok(has_volume(&self.volumes, number))
    }

    #[tactic(auto, using(csi_keeper::specs::facts::Reads::quiet_same, crate::proofs::ReadLemmas::held_caps))]
    fn caps_of(&mut self, alloc: Global, number: u64) -> Result<Option<Items<CapKey>>, StoreFault> {
        Ok(caps_at(alloc, &self.volumes, number)?)
    }

    #[tactic(auto, using(csi_keeper::specs::facts::Reads::quiet_same, crate::proofs::ReadLemmas::held_places))]
    fn attachments(&mut self, alloc: Global, number: u64) -> Result<Items<Attachment>, StoreFault> {
        Ok(attached_to(alloc, &self.attachments, number)?)
    }

    #[tactic(auto, using(csi_keeper::specs::facts::Reads::quiet_same, crate::proofs::ReadLemmas::held_at))]
    fn attached_at(&mut self, alloc: Global, node: &str) -> Result<Items<u64>, StoreFault> {
        Ok(numbers_at(alloc, &self.nodes, node)?)
    }

    fn count_at(&mut self, _alloc: Global, node: &Text) -> Result<u64, StoreFault> {
        Ok(count_at(&self.nodes, node))
    }

    #[tactic(auto, using(csi_keeper::specs::facts::Reads::quiet_same, crate::proofs::ReadLemmas::held_sizes))]
    fn sizes_in(&mut self, alloc: Global, pool: &str) -> Result<Items<u64>, StoreFault> {
        Ok(Items::from_vec(sizes_of(alloc, &self.volumes, pool)?))
    }

    #[tactic(auto, using(csi_keeper::specs::facts::Reads::quiet_same, crate::proofs::ReadLemmas::held_used))]
    fn used_in(&mut self, pool: &Text) -> Result<Usage, StoreFault> {
        Ok(self.pools.usage(pool))
    }

    #[tactic(auto, using(csi_keeper::specs::facts::Reads::quiet_same, crate::proofs::ReadLemmas::held_page))]
    fn page(&mut self, alloc: Global, after: u64, count: u32) -> Result<Items<Volume>, StoreFault> {
        Ok(volumes_after(alloc, &self.volumes, after, count)?)
    }

    #[tactic(auto, using(csi_keeper::specs::facts::Reads::quiet_same, crate::proofs::ReadLemmas::held_nodes))]
    fn page_with_nodes(
        &mut self,
        alloc: Global,
        after: u64,
        count: u32,
    ) -> Result<PageWithNodes, StoreFault> {
        Ok(PageWithNodes {
            volumes: volumes_after(alloc, &self.volumes, after, count)?,
            nodes: nodes_after(alloc, &self.volumes, &self.attachments, after, count)?,
        })
    }

    #[inline(always)]
    fn fold_page<F: PageFold>(
        &mut self,
        alloc: Global,
        after: u64,
        count: u32,
        fold: &mut F,
    ) -> Result<(), StoreFault> {
        Ok(fold_after(alloc, &self.volumes, &self.attachments, after, count, fold)?)
    }

    fn apply(&mut self, alloc: Global, change: &Change) -> Result<(), StoreFault> {
        match change {
            Change::AddVolume(volume) => self.add(alloc, copy_volume(alloc, volume)?)?,
            Change::RemoveVolume(number) => self.remove(*number),
            Change::Attach(number, attachment) => self.attach(alloc, *number, attachment)?,
            Change::Detach(number, node) => self.detach(alloc, *number, node)?,
            Change::DetachAll(number) => self.detach_all(alloc, *number)?,
            Change::SetMutable(number, mutable) => self.set_mutable(alloc, *number, mutable)?,
        }
        Ok(())
    }

    fn apply_owned(&mut self, alloc: Global, change: Change) -> Result<(), StoreFault> {
        // Only `AddVolume` is taken by value. The other changes are applied by reference.
        if !matches!(&change, Change::AddVolume(_)) {
            return self.apply(alloc, &change);
        }
        match change.into_added() {
            Ok(volume) => Ok(self.add(alloc, volume)?),
            Err(change) => self.apply(alloc, &change),
        }
    }
}

//! A keeper with two parts: a keeper in memory, which answers reads, and a change store, which makes changes.

ghost use Rattle.std.specs.FinMap.{get};
ghost use Rattle.std.specs.Option.{option_map};
ghost use Rattle.std.specs.Prelude.{◌≡◌, ◌≢◌, ◌↔◌, true, false, Err, IfErr, IfOk, IsTrue, OnErr, OnOk, is_some};
ghost use Rattle.csi_memory.specs.Holding.{mem_model};
ghost use Rattle.csi_keeper.specs.Keeper.{Applies, IsQuiet, count_after};
ghost use Rattle.csi_keeper.specs.Listing.{IsPageWithNodes, listing};
ghost use Rattle.csi_keeper.specs.State.{IsBounded, attached, attached_at, count_at, named, page, sizes, used};
ghost use Rattle.csi_keeper.specs.declared.change.StoreFault.TheVariants.{Down, NoMemory};
ghost use Rattle.csi_through.specs.Copying.{IsCopy, IsWhy};
ghost use Rattle.csi_through.specs.Through.{HasMissed, Opens, ReadsThrough, through_model};

use crate::change_store::{ChangeStore, KeeperChanges};
use crate::copying::copy_of;
use csi_keeper::{
    Attachment, CapKey, Change, Health, Keeper, PageFold, PageWithNodes, StoreFault, Usage, Volume,
};
use csi_memory::MemKeeper;
use csi_types::{Items, Text};
use std::alloc::Global;

// Starts a read. Fails with `Down` if the keeper is down, and with `Refused` if the keeper in memory lacks a
// change that the change store has. The failure is counted.
fn start_call(health: &mut Health, is_current: bool) -> Result<(), StoreFault>
    ensures down { (result ≡ Err Down) ↔ IsTrue health.old.is_down }
    ensures fault { result ≢ Err NoMemory }
    ensures current { OnOk result (is_current ≡ true) }
    ensures count { health.new.refusals ≡ count_after health.old.refusals result }
    ensures stays { health.new.is_down ≡ health.old.is_down }
{
    health.start_call()?;
    if !is_current {
        return health.finish_call(Err(StoreFault::Refused));
    }
    Ok(())
}

// Starts a change. Fails as `start_call` does. After a failure here, the keeper is down, and each further
// read and change returns `Down`.
fn start_change(health: &mut Health, is_current: bool) -> Result<(), StoreFault>
    ensures down { (result ≡ Err Down) ↔ IsTrue health.old.is_down }
    ensures fault { result ≢ Err NoMemory }
    ensures current { OnOk result (is_current ≡ true) }
    ensures count { health.new.refusals ≡ count_after health.old.refusals result }
    ensures stays { OnOk result (health.new.is_down ≡ health.old.is_down) }
    ensures stops { OnErr result (health.new.is_down ≡ true) }
{
    health.start_call()?;
    if !is_current {
        return health.finish_change(Err(StoreFault::Refused));
    }
    Ok(())
}

/// A keeper that reads from a keeper in memory, and passes each change to a change store first.
///
/// Its State is the State of the change store, and a stop leaves what a stop of the change store leaves. If
/// the change store fails to make a change, also because an allocation is refused, the keeper is down: each
/// further read and change returns `Down`.
///
/// If the change store made a change but the keeper in memory did not, the call still returns `Ok`. The
/// keeper in memory is then out of date: each read before the next change returns `Refused`. The next change
/// also returns `Refused`: it is not passed to the change store, and brings the keeper down.
pub struct Through<M, D> {
    memory: M,
    change_store: D,
    health: Health,
    // True if the keeper in memory has each change that the change store has.
    is_current: bool,
}

// Written by hand and not derived. So a proof about code that drops a keeper has one call of `drop`, and no
// branch for each part.
impl<M: Drop, D: Drop> Drop for Through<M, D> {
    fn drop(self) {
        let Through {
            memory: _memory,
            change_store: _log,
            health: _health,
            is_current: _,
        } = self;
    }
}

impl<M: Keeper, D: ChangeStore> Through<M, D> {
    /// Makes a keeper from a keeper in memory and a change store that have the same State. If their States
    /// differ, the contract promises nothing.
    pub fn new(memory: M, change_store: D) -> Through<M, D>
        ensures over { (result.memory ≡ memory) × (result.change_store ≡ change_store) }
        ensures fresh { (result.health.refusals ≡ 0) × (result.is_current ≡ true)
            × (result.health.is_down ≡ false) }
    {
        Through {
            memory,
            change_store,
            health: Health::new(),
            is_current: true,
        }
    }

    /// Returns true if the keeper is down. If it is down, each further read and change returns `Down`. Only a
    /// failed change brings the keeper down.
    pub fn is_down(&self) -> bool
        ensures { result ≡ self.now.health.is_down }
    {
        self.health.is_down
    }

    /// Returns true if the keeper in memory has each change that the change store has. If a change is
    /// missing, each further read and each further change fails.
    pub fn is_current(&self) -> bool
        ensures { result ≡ self.now.is_current }
    {
        self.is_current
    }
}

/// The error of [`Through::over`]: the reason why the copy failed, and the keeper.
#[derive(Drop)]
pub struct NotCopied<K> {
    /// The reason why the copy failed: memory was refused, a read of the keeper failed, or a number or a size
    /// that was read is out of bounds (`Refused`).
    pub fault: StoreFault,
    /// The keeper, whose State is unchanged.
    pub keeper: K,
}

impl<K: Keeper> Through<MemKeeper, KeeperChanges<K>> {
    /// Makes a keeper over a copy of `keeper` in memory, with `keeper` as the change store. Reads the volumes
    /// of `keeper` in pages of 1,000, and the attachments of each volume that is published.
    ///
    /// If the State of `keeper` meets the invariant, the new keeper has the same State. A stop of the new
    /// keeper leaves only States that a stop of `keeper` may leave. The new keeper is not down, has counted
    /// no refusal, and is current ([`Through::is_current`]).
    ///
    /// # Errors
    ///
    /// - a read of `keeper` fails, or an allocation is refused
    /// - `keeper` returns a next number above 2^62, a volume with a number of 2^62 or more, or a size above
    ///   2^62 bytes. Only a store that returns other values than were written does this.
    ///
    /// The error contains `keeper`, whose State is unchanged.
    pub fn over(
        alloc: Global,
        mut keeper: K,
    ) -> Result<Through<MemKeeper, KeeperChanges<K>>, NotCopied<K>>
        ensures current { IfOk result (λ through. through.is_current ≡ true) }
        ensures opens { IfOk result (λ through. Opens (K.model keeper)
            (through_model mem_model (λ logged. K.model logged.keeper) through)) }
        ensures stays { IfErr result (λ error. IsQuiet (K.model keeper) (K.model error.keeper)) }
        ensures why { IfErr result (λ error. IsWhy (K.model keeper) (K.model error.keeper) error.fault) }
    {
        match copy_of(alloc, &mut keeper) {
            Ok(memory) => Ok(Through::new(memory, KeeperChanges::new(keeper))),
            Err(fault) => Err(NotCopied { fault, keeper }),
        }
    }
}

impl<D: ChangeStore + Drop> Through<MemKeeper, D> {
    /// Makes a keeper over a copy of `keeper` in memory, and a change store that has the same State. Reads
    /// the volumes of `keeper` in pages of 1,000, and the attachments of each volume that is published.
    ///
    /// # Errors
    ///
    /// Returns the fault of a read of `keeper`, or `NoMemory` if an allocation is refused. Returns `Refused`
    /// if `keeper` returns a next number above 2^62, a volume with a number of 2^62 or more, or a size above
    /// 2^62 bytes. Only a store that returns other values than were written does this.
    pub fn copied<K: Keeper>(
        alloc: Global,
        keeper: &mut K,
        change_store: D,
    ) -> Result<Through<MemKeeper, D>, StoreFault>
        ensures keeper_unchanged { IsQuiet (K.model keeper.old) (K.model keeper.new) }
        ensures copy { IfOk result (λ through. IsCopy (K.model keeper.old)
            (K.model keeper.new) through.memory) }
        ensures why { IfErr result (λ fault. IsWhy (K.model keeper.old) (K.model keeper.new) fault) }
        ensures change_store { IfOk result (λ through. through.change_store ≡ change_store) }
        ensures fresh { IfOk result (λ through. (through.health.refusals ≡ 0) × (through.is_current ≡ true)
            × (through.health.is_down ≡ false)) }
    {
        let memory = copy_of(alloc, keeper)?;
        Ok(Through::new(memory, change_store))
    }
}

impl<M: Drop, D> Through<M, D> {
    /// Returns the change store, which has each change that was made, and drops the keeper in memory.
    pub fn into_change_store(self) -> D
        ensures { result ≡ self.change_store }
    {
        let Through {
            memory: _memory,
            change_store,
            health: _health,
            is_current: _,
        } = self;
        change_store
    }
}

impl<M: Keeper, D: ChangeStore> Keeper for Through<M, D> {
    ghost model = { through_model M.model D.model };

    fn refusals(&self) -> u64 {
        self.health.refusals
    }

    fn next_number(&mut self) -> Result<u64, StoreFault>
        ensures { ReadsThrough M.model D.model self.old self.new result (λ s n. n ≡ s.next) }
    {
        start_call(&mut self.health, self.is_current)?;
        let answer = self.memory.next_number();
        self.health.finish_call(answer)
    }

    fn by_name(&mut self, alloc: Global, name: &str) -> Result<Option<Volume>, StoreFault>
        ensures { ReadsThrough M.model D.model self.old self.new result (λ s v. v ≡ named s name.now) }
    {
        start_call(&mut self.health, self.is_current)?;
        let answer = self.memory.by_name(alloc, name);
        self.health.finish_call(answer)
    }

    fn by_number(&mut self, alloc: Global, number: u64) -> Result<Option<Volume>, StoreFault>
        ensures { ReadsThrough M.model D.model self.old self.new result (λ s v. v ≡ get s.volumes number) }
    {
        start_call(&mut self.health, self.is_current)?;
        let answer = self.memory.by_number(alloc, number);
        self.health.finish_call(answer)
    }

    fn has_volume(&mut self, number: u64) -> Result<bool, StoreFault>
        ensures { ReadsThrough M.model D.model self.old self.new result
            (λ s has. has ≡ is_some (get s.volumes number)) }
    {
        start_call(&mut self.health, self.is_current)?;
        let answer = self.memory.has_volume(number);
        self.health.finish_call(answer)
    }

    fn caps_of(&mut self, alloc: Global, number: u64) -> Result<Option<Items<CapKey>>, StoreFault>
        ensures { ReadsThrough M.model D.model self.old self.new result
            (λ s keys. keys ≡ option_map (λ v. v.caps) (get s.volumes number)) }
    {
        start_call(&mut self.health, self.is_current)?;
        let answer = self.memory.caps_of(alloc, number);
        self.health.finish_call(answer)
    }

    fn attachments(&mut self, alloc: Global, number: u64) -> Result<Items<Attachment>, StoreFault>
        ensures { ReadsThrough M.model D.model self.old self.new result (λ s xs. xs ≡ attached s number) }
    {
        start_call(&mut self.health, self.is_current)?;
        let answer = self.memory.attachments(alloc, number);
        self.health.finish_call(answer)
    }

    fn attached_at(&mut self, alloc: Global, node: &str) -> Result<Items<u64>, StoreFault>
        ensures { ReadsThrough M.model D.model self.old self.new result
            (λ s xs. xs ≡ attached_at s node.now) }
    {
        start_call(&mut self.health, self.is_current)?;
        let answer = self.memory.attached_at(alloc, node);
        self.health.finish_call(answer)
    }

    fn count_at(&mut self, alloc: Global, node: &Text) -> Result<u64, StoreFault>
        ensures { ReadsThrough M.model D.model self.old self.new result (λ s n. n ≡ count_at s node.now) }
    {
        start_call(&mut self.health, self.is_current)?;
        let answer = self.memory.count_at(alloc, node);
        self.health.finish_call(answer)
    }

    fn sizes_in(&mut self, alloc: Global, pool: &str) -> Result<Items<u64>, StoreFault>
        ensures { ReadsThrough M.model D.model self.old self.new result (λ s xs. xs ≡ sizes s pool.now) }
    {
        start_call(&mut self.health, self.is_current)?;
        let answer = self.memory.sizes_in(alloc, pool);
        self.health.finish_call(answer)
    }

    fn used_in(&mut self, pool: &Text) -> Result<Usage, StoreFault>
        ensures { ReadsThrough M.model D.model self.old self.new result (λ s u. u ≡ used s pool.now) }
    {
        start_call(&mut self.health, self.is_current)?;
        let answer = self.memory.used_in(pool);
        self.health.finish_call(answer)
    }

    fn page(&mut self, alloc: Global, after: u64, count: u32) -> Result<Items<Volume>, StoreFault>
        ensures { ReadsThrough M.model D.model self.old self.new result (λ s xs. xs ≡ page s after count) }
    {
        start_call(&mut self.health, self.is_current)?;
        let answer = self.memory.page(alloc, after, count);
        self.health.finish_call(answer)
    }

    fn page_with_nodes(
        &mut self,
        alloc: Global,
        after: u64,
        count: u32,
    ) -> Result<PageWithNodes, StoreFault>
        ensures { ReadsThrough M.model D.model self.old self.new result
            (λ s p. IsPageWithNodes s after count p) }
    {
        start_call(&mut self.health, self.is_current)?;
        let answer = self.memory.page_with_nodes(alloc, after, count);
        self.health.finish_call(answer)
    }

    #[inline(always)]
    fn fold_page<F: PageFold>(
        &mut self,
        alloc: Global,
        after: u64,
        count: u32,
        fold: &mut F,
    ) -> Result<(), StoreFault>
        ensures folded { ReadsThrough M.model D.model self.old self.new result
            (λ s _. F.folds fold.old (listing s after count) fold.new) }
        ensures kept { F.keeps fold.old fold.new }
    {
        start_call(&mut self.health, self.is_current)?;
        let answer = self.memory.fold_page(alloc, after, count, fold);
        self.health.finish_call(answer)
    }

    fn apply(&mut self, alloc: Global, change: &Change) -> Result<(), StoreFault>
        requires { IsBounded change.now }
        ensures applies { Applies (through_model M.model D.model self.old)
            (through_model M.model D.model self.new) change.now result }
        ensures stops { OnErr result (IsTrue self.new.health.is_down) }
        ensures current { OnOk result (self.new.is_current ≡ false
            → HasMissed (M.model self.old.memory) (M.model self.new.memory) change.now) }
    {
        start_change(&mut self.health, self.is_current)?;
        let answer = self.change_store.commit(alloc, change);
        self.health.finish_change(answer)?;
        if self.memory.apply(alloc, change).is_err() {
            self.is_current = false;
        }
        Ok(())
    }

    fn apply_owned(&mut self, alloc: Global, change: Change) -> Result<(), StoreFault>
        requires { IsBounded change }
        ensures applies { Applies (through_model M.model D.model self.old)
            (through_model M.model D.model self.new) change result }
        ensures stops { OnErr result (IsTrue self.new.health.is_down) }
        ensures current { OnOk result (self.new.is_current ≡ false
            → HasMissed (M.model self.old.memory) (M.model self.new.memory) change) }
    {
        start_change(&mut self.health, self.is_current)?;
        let made = self.change_store.commit(alloc, &change);
        self.health.finish_change(made)?;
        if self.memory.apply_owned(alloc, change).is_err() {
            self.is_current = false;
        }
        Ok(())
    }
}

//! A keeper for tests, which fails at a chosen call.

ghost use Rattle.std.specs.Prelude.{◌≡◌, ◌≢◌, ◌≤◌, ◌^◌, ◌↔◌, false, Some, Err, IfOk, IsTrue, is_some};
ghost use Rattle.std.specs.FinMap.{get};
ghost use Rattle.std.specs.Option.{option_map};
ghost use Rattle.csi_memory.specs.Holding.{Holds};
ghost use Rattle.csi_memory.specs.Fakes.{burnt, calls_left, is_shut, kept, refusals_of, Burns, fused_model};
ghost use Rattle.csi_keeper.specs.Keeper.{Applies, Reads, count_after};
ghost use Rattle.csi_keeper.specs.Listing.{IsPageWithNodes, listing};
ghost use Rattle.csi_keeper.specs.State.{IsBounded, attached, attached_at, count_at, named, page, sizes, used, first_state};
ghost use Rattle.csi_keeper.specs.declared.change.StoreFault.TheVariants.{Down, Refused};

use crate::mem::MemKeeper;
use csi_keeper::{
    Attachment, CapKey, Change, Health, Keeper, PageFold, PageWithNodes, StoreFault, Usage, Volume,
};
use csi_types::{Items, Text};
use std::alloc::{AllocError, Global};

// A counter of calls that refuses one of them.
#[derive(Drop)]
struct Fuse {
    // The number of calls before the refused call, or `None` after the refusal.
    left: Option<u64>,
    health: Health,
}

impl Fuse {
    // Counts a call. Refuses it if it is the chosen call.
    fn burn(&mut self) -> Result<(), StoreFault>
        ensures counts_calls { self.old.health.is_down ≡ false → (result ≡ (burnt self.old.left).0)
            × (self.new.left ≡ (burnt self.old.left).1) }
        ensures count { self.new.health.refusals ≡ count_after self.old.health.refusals result }
        ensures down { (result ≡ Err Down) ↔ IsTrue self.old.health.is_down }
        ensures stays { self.new.health.is_down ≡ self.old.health.is_down }
    {
        self.health.start_call()?;
        match self.left {
            None => Ok(()),
            Some(0) => {
                self.left = None;
                self.health.finish_call(Err(StoreFault::Refused))
            }
            Some(left) => {
                self.left = Some(left - 1);
                Ok(())
            }
        }
    }
}

/// A keeper in memory that refuses one call, which is chosen by its number. Calls are counted from 0.
/// [`refusals`](Keeper::refusals) and [`is_down`](FusedMem::is_down) are not counted.
///
/// If the refused call is a read, no later call is refused. If the refused call is [`apply`](Keeper::apply),
/// the change is not made, and each later call fails with `Down`. The volumes end with the process, so a stop
/// leaves nothing.
#[derive(Drop)]
pub struct FusedMem {
    keeper: MemKeeper,
    fuse: Fuse,
}

impl FusedMem {
    /// Returns a keeper without volumes that refuses the call with the number `at`, counted from 0. The first
    /// volume gets the number `first`, from 1 to 2^62.
    ///
    /// # Errors
    ///
    /// If memory is refused.
    pub fn new(alloc: Global, first: u64, at: u64) -> Result<FusedMem, AllocError>
        requires least { 1 ≤ first }
        requires most { first ≤ 2 ^ 62 }
        ensures state { IfOk result (λ fused. Holds (kept fused) (first_state first)) }
        ensures fuse { IfOk result (λ fused. (calls_left fused ≡ Some at) × (is_shut fused ≡ false)
            × (refusals_of fused ≡ 0)) }
    {
        Ok(FusedMem {
            keeper: MemKeeper::new(alloc, first)?,
            fuse: Fuse {
                left: Some(at),
                health: Health::new(),
            },
        })
    }

    /// Returns true if the keeper is down. If it is down, each further call fails with `Down`.
    pub fn is_down(&self) -> bool
        ensures { result ≡ is_shut self.now }
    {
        self.fuse.health.is_down
    }

    /// Returns a keeper that has the same volumes and refuses no call.
    pub fn into_keeper(self) -> MemKeeper
        ensures { result ≡ kept self }
    {
        self.keeper
    }
}

impl Keeper for FusedMem {
    ghost use Rattle.csi_memory.specs.Fakes.{fused_model};

    ghost model = { fused_model };

    fn refusals(&self) -> u64 {
        self.fuse.health.refusals
    }

    fn next_number(&mut self) -> Result<u64, StoreFault>
        ensures reads { Reads (fused_model self.old) (fused_model self.new) result (λ s n. n ≡ s.next) }
        ensures counts_calls { Burns self.old self.new result }
    {
        self.fuse.burn()?;
        self.keeper.next_number()
    }

    fn by_name(&mut self, alloc: Global, name: &str) -> Result<Option<Volume>, StoreFault>
        ensures reads { Reads (fused_model self.old) (fused_model self.new) result
            (λ s v. v ≡ named s name.now) }
        ensures counts_calls { Burns self.old self.new result }
    {
        self.fuse.burn()?;
        self.keeper.by_name(alloc, name)
    }

    fn by_number(&mut self, alloc: Global, number: u64) -> Result<Option<Volume>, StoreFault>
        ensures reads { Reads (fused_model self.old) (fused_model self.new) result
            (λ s v. v ≡ get s.volumes number) }
        ensures counts_calls { Burns self.old self.new result }
    {
        self.fuse.burn()?;
        self.keeper.by_number(alloc, number)
    }

    fn has_volume(&mut self, number: u64) -> Result<bool, StoreFault>
        ensures reads { Reads (fused_model self.old) (fused_model self.new) result
            (λ s has. has ≡ is_some (get s.volumes number)) }
        ensures counts_calls { Burns self.old self.new result }
    {
        self.fuse.burn()?;
        self.keeper.has_volume(number)
    }

    fn caps_of(&mut self, alloc: Global, number: u64) -> Result<Option<Items<CapKey>>, StoreFault>
        ensures reads { Reads (fused_model self.old) (fused_model self.new) result
            (λ s keys. keys ≡ option_map (λ v. v.caps) (get s.volumes number)) }
        ensures counts_calls { Burns self.old self.new result }
    {
        self.fuse.burn()?;
        self.keeper.caps_of(alloc, number)
    }

    fn attachments(&mut self, alloc: Global, number: u64) -> Result<Items<Attachment>, StoreFault>
        ensures reads { Reads (fused_model self.old) (fused_model self.new) result
            (λ s xs. xs ≡ attached s number) }
        ensures counts_calls { Burns self.old self.new result }
    {
        self.fuse.burn()?;
        self.keeper.attachments(alloc, number)
    }

    fn attached_at(&mut self, alloc: Global, node: &str) -> Result<Items<u64>, StoreFault>
        ensures reads { Reads (fused_model self.old) (fused_model self.new) result
            (λ s xs. xs ≡ attached_at s node.now) }
        ensures counts_calls { Burns self.old self.new result }
    {
        self.fuse.burn()?;
        self.keeper.attached_at(alloc, node)
    }

    fn count_at(&mut self, alloc: Global, node: &Text) -> Result<u64, StoreFault>
        ensures reads { Reads (fused_model self.old) (fused_model self.new) result
            (λ s n. n ≡ count_at s node.now) }
        ensures counts_calls { Burns self.old self.new result }
    {
        self.fuse.burn()?;
        self.keeper.count_at(alloc, node)
    }

    fn sizes_in(&mut self, alloc: Global, pool: &str) -> Result<Items<u64>, StoreFault>
        ensures reads { Reads (fused_model self.old) (fused_model self.new) result
            (λ s xs. xs ≡ sizes s pool.now) }
        ensures counts_calls { Burns self.old self.new result }
    {
        self.fuse.burn()?;
        self.keeper.sizes_in(alloc, pool)
    }

    fn used_in(&mut self, pool: &Text) -> Result<Usage, StoreFault>
        ensures reads { Reads (fused_model self.old) (fused_model self.new) result
            (λ s u. u ≡ used s pool.now) }
        ensures counts_calls { Burns self.old self.new result }
    {
        self.fuse.burn()?;
        self.keeper.used_in(pool)
    }

    fn page(&mut self, alloc: Global, after: u64, count: u32) -> Result<Items<Volume>, StoreFault>
        ensures reads { Reads (fused_model self.old) (fused_model self.new) result
            (λ s xs. xs ≡ page s after count) }
        ensures counts_calls { Burns self.old self.new result }
    {
        self.fuse.burn()?;
        self.keeper.page(alloc, after, count)
    }

    fn page_with_nodes(
        &mut self,
        alloc: Global,
        after: u64,
        count: u32,
    ) -> Result<PageWithNodes, StoreFault>
        ensures reads { Reads (fused_model self.old) (fused_model self.new) result
            (λ s p. IsPageWithNodes s after count p) }
        ensures counts_calls { Burns self.old self.new result }
    {
        self.fuse.burn()?;
        self.keeper.page_with_nodes(alloc, after, count)
    }

    fn fold_page<F: PageFold>(
        &mut self,
        alloc: Global,
        after: u64,
        count: u32,
        fold: &mut F,
    ) -> Result<(), StoreFault>
        ensures folded { Reads (fused_model self.old) (fused_model self.new) result
            (λ s _. F.folds fold.old (listing s after count) fold.new) }
        ensures kept { F.keeps fold.old fold.new }
        ensures counts_calls { Burns self.old self.new result }
    {
        self.fuse.burn()?;
        self.keeper.fold_page(alloc, after, count, fold)
    }

    fn apply(&mut self, alloc: Global, change: &Change) -> Result<(), StoreFault>
        requires { IsBounded change.now }
        ensures applies { Applies (fused_model self.old) (fused_model self.new) change.now result }
        ensures counts_calls { Burns self.old self.new result }
        ensures stops { result ≡ Err Refused → IsTrue (is_shut self.new) }
        ensures goes_on { result ≢ Err Refused → is_shut self.new ≡ is_shut self.old }
    {
        if let Err(fault) = self.fuse.burn() {
            self.fuse.health.is_down = true;
            return Err(fault);
        }
        self.keeper.apply(alloc, change)
    }

    fn apply_owned(&mut self, alloc: Global, change: Change) -> Result<(), StoreFault>
        requires { IsBounded change }
        ensures applies { Applies (fused_model self.old) (fused_model self.new) change result }
        ensures counts_calls { Burns self.old self.new result }
        ensures stops { result ≡ Err Refused → IsTrue (is_shut self.new) }
        ensures goes_on { result ≢ Err Refused → is_shut self.new ≡ is_shut self.old }
    {
        self.apply(alloc, &change)
    }
}

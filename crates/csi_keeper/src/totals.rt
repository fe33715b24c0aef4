//! Running totals of each pool: the number of its volumes, and the sum of their bytes.

ghost use Rattle.std.specs.Prelude.{◌≡◌, ◌↔◌, List, ℕ, false, IsTrue, OnOk, OnErr, if◌then◌else◌};
ghost use Rattle.csi_types.specs.Maps.{same_text};
ghost use Rattle.csi_keeper.specs.Totals.{total_of, reported, more, less, zero_total, HasRoom, IsReserved};

use crate::change::Usage;
use csi_types::Text;
use std::alloc::{AllocError, Global};
use std::collections::BTreeMap;

/// The total of one pool: the number of its volumes, and the sum of their sizes.
#[derive(Clone, Copy, Debug)]
pub struct Total {
    /// The number of volumes in the pool.
    pub volumes: u64,
    /// The sum of the sizes of the pool's volumes in bytes.
    pub bytes: u128,
}

/// The total of each pool. A pool that never had a volume has a total of 0 volumes and 0 bytes.
///
/// A keeper keeps these totals next to its rows, so that it finds the usage of a pool in O(log n) time for n
/// pools. The entry of a pool is never removed.
#[derive(Drop)]
pub struct Totals {
    tree: BTreeMap<Text, Total>,
}

impl Totals {
    /// Returns totals of 0 for every pool. Takes no memory.
    pub fn new(alloc: Global) -> Totals
        ensures { (q : List ℕ) → total_of result q ≡ zero_total }
    {
        Totals {
            tree: BTreeMap::new(alloc),
        }
    }

    fn get(&self, pool: &Text) -> Total
        ensures { result ≡ total_of self.now pool.now }
    {
        match self.tree.get(pool) {
            Some(total) => *total,
            None => Total {
                volumes: 0,
                bytes: 0,
            },
        }
    }

    /// Returns the number of a pool's volumes and the sum of their bytes. A sum above 2^64 - 1 is returned as
    /// 2^64 - 1.
    pub fn usage(&self, pool: &Text) -> Usage
        ensures { result ≡ reported (total_of self.now pool.now) }
    {
        let total = self.get(pool);
        Usage {
            volumes: total.volumes,
            bytes: total.bytes.min(u64::MAX as u128) as u64,
        }
    }

    /// Sets the total of a pool. The totals of other pools are unchanged.
    ///
    /// # Errors
    ///
    /// If memory is refused. The totals are unchanged.
    #[tactic(auto, using(crate::proofs::TotalsLemmas::total_set))]
    pub fn set(&mut self, pool: Text, total: Total) -> Result<(), AllocError>
        ensures set { OnOk result ((q : List ℕ)
            → total_of self.new q ≡ (if same_text pool q then total else total_of self.old q)) }
        ensures unchanged { OnErr result ((q : List ℕ) → total_of self.new q ≡ total_of self.old q) }
    {
        self.tree.insert(pool, total)?;
        Ok(())
    }

    /// Adds a volume of `bytes` bytes to the total of a pool. The totals of other pools are unchanged. If
    /// [`has_room`](Totals::has_room) is false, the new total of the pool is unspecified.
    ///
    /// # Errors
    ///
    /// If memory is refused. The totals are unchanged.
    #[tactic(auto, using(crate::proofs::TotalsLemmas::total_set, crate::proofs::TotalsLemmas::total_other))]
    pub fn add(&mut self, pool: Text, bytes: u64) -> Result<(), AllocError>
        ensures counted { OnOk result (HasRoom (total_of self.old pool) bytes → (q : List ℕ)
            → total_of self.new q ≡ (if same_text pool q then more
            (total_of self.old pool) bytes else total_of self.old q)) }
        ensures others { OnOk result ((q : List ℕ) → same_text pool q ≡ false
            → total_of self.new q ≡ total_of self.old q) }
        ensures unchanged { OnErr result ((q : List ℕ) → total_of self.new q ≡ total_of self.old q) }
    {
        let total = more_total(self.get(&pool), bytes);
        self.tree.insert(pool, total)?;
        Ok(())
    }

    /// Returns true if the total of a pool can count one more volume of `bytes` bytes: the pool has fewer
    /// than 2^64 - 1 volumes, and the sum of bytes with this volume is below 2^128.
    pub fn has_room(&self, pool: &Text, bytes: u64) -> bool
        ensures { IsTrue result ↔ HasRoom (total_of self.now pool.now) bytes }
    {
        let total = self.get(pool);
        total.volumes < u64::MAX && total.bytes <= u128::MAX - bytes as u128
    }

    /// Allocates the memory that [`count`](Totals::count) needs for a pool. The totals are unchanged.
    ///
    /// # Errors
    ///
    /// If memory is refused.
    #[tactic(auto, using(crate::proofs::TotalsLemmas::same_set, crate::proofs::TotalsLemmas::is_set))]
    pub fn reserve(&mut self, pool: Text) -> Result<(), AllocError>
        ensures reserved { OnOk result (IsReserved self.new pool) }
        ensures unchanged { (q : List ℕ) → total_of self.new q ≡ total_of self.old q }
    {
        let total = self.get(&pool);
        self.tree.insert(pool, total)?;
        Ok(())
    }

    /// Adds a volume of `bytes` bytes to the total of a pool that has an entry, for example after
    /// [`reserve`](Totals::reserve). The totals of other pools are unchanged. Takes no memory. If
    /// [`has_room`](Totals::has_room) is false, the new total of the pool is unspecified.
    #[tactic(auto, using(crate::proofs::TotalsLemmas::total_set, crate::proofs::TotalsLemmas::total_other))]
    pub fn count(&mut self, pool: &Text, bytes: u64)
        requires { IsReserved self.old pool.now }
        ensures counted { HasRoom (total_of self.old pool.now) bytes → (q : List ℕ)
            → total_of self.new q ≡ (if same_text pool.now q then more
            (total_of self.old pool.now) bytes else total_of self.old q) }
        ensures others { (q : List ℕ) → same_text pool.now q ≡ false
            → total_of self.new q ≡ total_of self.old q }
    {
        if let Some(total) = self.tree.get_mut(pool) {
            *total = more_total(*total, bytes);
        }
    }

    /// Subtracts a volume of `bytes` bytes from the total of a pool. The totals of other pools are unchanged.
    /// Takes no memory. Neither the count nor the sum falls below 0.
    #[tactic(auto, using(crate::proofs::TotalsLemmas::total_set))]
    pub fn remove(&mut self, pool: &Text, bytes: u64)
        ensures { (q : List ℕ) → total_of self.new q
            ≡ (if same_text pool.now q then less
            (total_of self.old pool.now) bytes else total_of self.old q) }
    {
        if let Some(total) = self.tree.get_mut(pool) {
            *total = less_total(*total, bytes);
        }
    }
}

// Returns the total with one more volume of `bytes` bytes. The result is exact if the total has room.
fn more_total(total: Total, bytes: u64) -> Total
    ensures { HasRoom total bytes → result ≡ more total bytes }
{
    Total {
        volumes: total.volumes.saturating_add(1),
        bytes: total.bytes.saturating_add(bytes as u128),
    }
}

// Returns the total without one volume of `bytes` bytes. Neither number falls below 0.
fn less_total(total: Total, bytes: u64) -> Total
    ensures { result ≡ less total bytes }
{
    Total {
        volumes: total.volumes.saturating_sub(1),
        bytes: total.bytes.saturating_sub(bytes as u128),
    }
}

//! The trait of the stores that keep the changes of a State.

ghost use Rattle.std.specs.Prelude.{◌≡◌};
ghost use Rattle.csi_keeper.specs.Keeper.{Applies, Changes};
ghost use Rattle.csi_keeper.specs.Model.{Model};
ghost use Rattle.csi_keeper.specs.State.{State, IsBounded};

use csi_keeper::{Change, Keeper, StoreFault};
use std::alloc::Global;

/// A store that keeps the changes of a State, such as a database or a process at the other end of a socket.
/// It need not be readable.
///
/// The promises about the State hold while the store's `doubt` is 0, that is, while it is certain that the
/// store has each change that it made. The doubt never falls.
pub trait ChangeStore {
    // The model of the store, which contracts use: its State and the States that a stop may leave. The count
    // of refused calls is not used.
    ghost model: { Self → Model State };

    /// Makes a change. The variants of `Change` state when the State allows it. In any case, an added volume
    /// must have a number below 2^62, at most 2^62 bytes, and capability keys in rising order without
    /// duplicates. New mutable parameters must have at most 4,096 bytes.
    ///
    /// - After `Ok` the change is made, and a stop leaves the State with the change.
    /// - After `NoMemory` or `Refused` the State is unchanged. But a stop may leave the State with the
    ///   change, or a State that a stop before the call could have left.
    /// - After `Down` nothing is changed.
    fn commit(&mut self, alloc: Global, change: &Change) -> Result<(), StoreFault>
        requires { IsBounded change.now }
        ensures { Changes (model self.old) (model self.new) change.now result };
}

/// A change store that makes each change in a keeper, for keepers such as tables in a file.
#[derive(Drop)]
pub struct KeeperChanges<K> {
    keeper: K,
}

impl<K: Keeper> KeeperChanges<K> {
    /// Makes a change store over a keeper. The change store only changes the keeper, and never reads from it.
    pub fn new(keeper: K) -> KeeperChanges<K>
        ensures { result.keeper ≡ keeper }
    {
        KeeperChanges { keeper }
    }

    /// Returns the keeper with all changes that were made.
    pub fn into_keeper(self) -> K
        ensures { result ≡ self.keeper }
    {
        self.keeper
    }
}

impl<K: Keeper> ChangeStore for KeeperChanges<K> {
    ghost model = { λ logged. K.model logged.keeper };

    fn commit(&mut self, alloc: Global, change: &Change) -> Result<(), StoreFault>
        requires { IsBounded change.now }
        ensures changes { Changes (K.model self.old.keeper) (K.model self.new.keeper) change.now result }
        ensures applies { Applies (K.model self.old.keeper) (K.model self.new.keeper) change.now result }
    {
        self.keeper.apply(alloc, change)
    }
}

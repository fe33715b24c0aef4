//! The changes of the State, the usage of a pool, and the faults of a keeper's call.

ghost use Rattle.std.specs.Prelude.{◌≡◌, ◌≢◌, IfErr, IfOk};
ghost use Rattle.csi_keeper.specs.declared.change.Change.TheVariants.{AddVolume};
ghost use Rattle.csi_keeper.specs.declared.volume.Volume.{Volume as AnyVolume};

use crate::volume::{Attachment, Volume};
use csi_types::{Map, Text};
use std::alloc::{AllocError, AllocFailed};

/// One change of the State, which is made as a whole or not at all.
#[derive(Debug)]
pub enum Change {
    /// Adds a volume. The number of the volume must be the State's next number, no other volume may have its
    /// name, and its size must be at most 2^62 bytes. The next number rises by 1.
    AddVolume(Volume),
    /// Removes the volume with this number, which must have no attachments. Its number is never used again.
    /// If no volume has the number, nothing changes.
    RemoveVolume(u64),
    /// Attaches the volume with this number to the node of the attachment. The volume must exist, and must
    /// not be attached to this node already.
    Attach(u64, Attachment),
    /// Detaches the volume with this number from the node with this id. If the volume is not attached
    /// there, nothing changes.
    Detach(u64, Text),
    /// Detaches the volume with this number from every node. If the volume does not exist, nothing changes.
    DetachAll(u64),
    /// Replaces the mutable parameters of the volume with this number, which must exist. The keys and values
    /// of the new parameters must have at most 4,096 bytes together.
    SetMutable(u64, Map),
}

// Written by hand and not derived. So a proof about code that drops a change has one call of `drop`, and no
// branch for each variant.
impl Drop for Change {
    #[inline(always)]
    fn drop(self) {
        match self {
            Change::AddVolume(_volume) => {}
            Change::RemoveVolume(_) => {}
            Change::Attach(_, _attachment) => {}
            Change::Detach(_, _node) => {}
            Change::DetachAll(_) => {}
            Change::SetMutable(_, _mutable) => {}
        }
    }
}

impl Change {
    /// Returns the volume of [`Change::AddVolume`].
    ///
    /// # Errors
    ///
    /// Returns the change itself if it is not [`Change::AddVolume`].
    pub fn into_added(self) -> Result<Volume, Change>
        ensures added { IfOk result (λ volume. self ≡ AddVolume volume) }
        ensures other { IfErr result (λ change. (change ≡ self)
            × ((volume : AnyVolume) → self ≢ AddVolume volume)) }
    {
        match self {
            Change::AddVolume(volume) => Ok(volume),
            change => Err(change),
        }
    }
}

/// The usage of a pool: the number of volumes in it, and the sum of their sizes.
#[derive(Clone, Copy, Debug)]
pub struct Usage {
    /// The number of volumes in the pool.
    pub volumes: u64,
    /// The sum of the volumes' sizes in bytes, or 2^64 - 1 if the sum is greater.
    pub bytes: u64,
}

/// The reason why a keeper's call failed.
#[derive(Clone, Copy, Debug, PartialEq, Eq)]
pub enum StoreFault {
    /// Memory for the call was refused.
    NoMemory,
    /// The store below the keeper, such as a file, failed during the call or refused it.
    Refused,
    /// The keeper is down. Every call except `refusals` fails until the keeper is opened again.
    Down,
}

impl From<AllocError> for StoreFault {
    ghost use Rattle.std.specs.Prelude.{◌≡◌};
    ghost use Rattle.csi_keeper.specs.declared.change.StoreFault.TheVariants.{NoMemory};

    ghost from_gives = { λ _ e. e ≡ NoMemory };

    fn from(_: AllocError) -> StoreFault {
        StoreFault::NoMemory
    }
}

impl<T: Drop> From<AllocFailed<T>> for StoreFault {
    ghost use Rattle.std.specs.Prelude.{◌≡◌};
    ghost use Rattle.csi_keeper.specs.declared.change.StoreFault.TheVariants.{NoMemory};

    ghost from_gives = { λ _ e. e ≡ NoMemory };

    fn from(_: AllocFailed<T>) -> StoreFault {
        StoreFault::NoMemory
    }
}

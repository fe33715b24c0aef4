//! Sums the volumes of pools and nodes: their number and their bytes.

use csi_keeper::Volume;
use csi_types::{Items, Text};
use std::alloc::{AllocError, Global};
use std::collections::BTreeMap;

/// A number of volumes, and the sum of their bytes. A sum above 2^64 - 1 is kept as 2^64 - 1.
#[derive(Clone, Copy)]
pub(crate) struct Sum {
    pub(crate) volumes: u64,
    pub(crate) bytes: u64,
}

impl Sum {
    fn with(self, bytes: u64) -> Sum {
        Sum {
            volumes: self.volumes.saturating_add(1),
            bytes: self.bytes.saturating_add(bytes),
        }
    }
}

/// The sums of pools or of nodes, by name or id.
pub(crate) type Sums = BTreeMap<Text, Sum>;

// Adds a volume with this size to the sum of the pool or node with this name.
fn count(alloc: Global, sums: &mut Sums, name: &Text, bytes: u64) -> Result<(), AllocError> {
    let sum = match sums.get(name) {
        Some(sum) => *sum,
        None => Sum {
            volumes: 0,
            bytes: 0,
        },
    };
    sums.insert(name.copy(alloc)?, sum.with(bytes))?;
    Ok(())
}

/// The sums of the volumes that are listed.
#[derive(Drop)]
pub(crate) struct Counted {
    pub(crate) pools: Sums,
    pub(crate) nodes: Sums,
}

impl Counted {
    pub(crate) fn new(alloc: Global) -> Counted {
        Counted {
            pools: BTreeMap::new(alloc),
            nodes: BTreeMap::new(alloc),
        }
    }

    /// Counts a volume once in its pool, and once at each of its nodes.
    ///
    /// # Errors
    ///
    /// If memory is refused. The volume may then be counted in its pool and at some of its nodes.
    pub(crate) fn add(
        &mut self,
        alloc: Global,
        volume: &Volume,
        nodes: &Items<Text>,
    ) -> Result<(), AllocError> {
        count(alloc, &mut self.pools, &volume.pool, volume.bytes)?;
        for node in nodes {
            count(alloc, &mut self.nodes, node, volume.bytes)?;
        }
        Ok(())
    }
}

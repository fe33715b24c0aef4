//! The encoded context and topology that all volumes of a pool share.

ghost use Rattle.std.specs.Prelude.{◌≡◌, ◌++◌, IfOk, OnOk, OnErr};
ghost use Rattle.std.proofs.Props.{props};
ghost use Rattle.pbmessage.specs.Canon.{FitsMap};
ghost use Rattle.csi_codec.specs.messages.Topology.{FitsTerms};
ghost use Rattle.csi_codec.specs.messages.Volume.{no_nodes, placement_bytes};

use csi_types::{Items, Map};
use pbmessage::{put_map, put_messages};
use std::alloc::{AllocError, Global};

// The status of a volume that is published to no node: field 2 of its entry, empty.
const NO_NODES: [u8; 2] = [18, 0];

/// The context and the topology that all volumes of a pool share, with their encoding (CSI specification, the
/// fields `volume_context` and `accessible_topology` of `Volume`). So a page of a listing encodes them once
/// for each pool and not once for each volume.
#[derive(Drop)]
pub struct Placement {
    context: Map,
    topology: Items<Map>,
    // The encoded context and topology, and after them the empty status of a volume that is published to no
    // node.
    ending: Vec<u8>,
    ghost spelled: { ending.items ≡ placement_bytes context topology ++ no_nodes },
    ghost fitting: { FitsMap context × FitsTerms topology } by { Prim.hlevel props },
}

impl Placement {
    /// Encodes a context and a topology, and keeps both.
    ///
    /// # Errors
    ///
    /// If memory is refused.
    pub fn new(alloc: Global, context: Map, topology: Items<Map>) -> Result<Placement, AllocError>
        ensures { IfOk result (λ placement. (placement.context ≡ context) × (placement.topology ≡ topology)) }
    {
        let mut ending = Vec::new(alloc);
        put_map(&mut ending, 3, &context)?;
        put_messages(&mut ending, 5, &topology)?;
        ending.extend_from_slice(&NO_NODES)?;
        Ok(Placement {
            context,
            topology,
            ending,
        })
    }

    /// Returns the encoded context and topology, as fields of a `Volume`.
    #[inline(always)]
    pub(crate) fn as_bytes(&self) -> &[u8]
        ensures value { result.now ≡ placement_bytes self.now.context self.now.topology }
    {
        let len = self.ending.len() - NO_NODES.len();
        &self.ending[..len]
    }

    /// Returns the encoded context and topology, and after them the empty status of a volume that is
    /// published to no node (2 bytes).
    #[inline(always)]
    pub(crate) fn ending(&self) -> &[u8]
        ensures value { result.now ≡ placement_bytes self.now.context self.now.topology ++ no_nodes }
        ensures fitting { FitsMap self.now.context × FitsTerms self.now.topology }
    {
        self.ending.as_slice()
    }
}

/// Appends the encoded context and topology, as fields of a `Volume`. If memory is refused, the vector is
/// unchanged.
pub(crate) fn put_placement(out: &mut Vec<u8>, placement: &Placement) -> Result<(), AllocError>
    ensures ok { OnOk result (out.new.items
        ≡ out.old.items ++ placement_bytes placement.now.context placement.now.topology) }
    ensures err { OnErr result (out.new.items ≡ out.old.items) }
{
    out.extend_from_slice(placement.as_bytes())
}

//! Makes the folds that sum over the rows of each pool and of each node.

ghost use Rattle.std.specs.Prelude.{IfOk};
ghost use Rattle.std.specs.List.{AllZip};
ghost use Rattle.csi_constraints.specs.declared.sums.Weight.TheVariants.{One as Ones};
ghost use Rattle.csi_adoption.specs.Starting.{IsBegun};

use csi_config::{Node, Pool};
use csi_constraints::{FoldEach, TextSum, Weight};
use std::alloc::{AllocError, Global};

// Makes a fold that sums a weight over the rows that have this text in a column.
fn sum_of(alloc: Global, column: usize, text: &[u8], weight: Weight) -> Result<TextSum, AllocError>
    ensures { IfOk result (λ sum. IsBegun column text.now weight sum) }
{
    let mut bytes = Vec::new(alloc);
    bytes.extend_from_slice(text)?;
    Ok(TextSum {
        column,
        text: bytes,
        weight,
        sum: 0,
    })
}

/// Makes a sum for each pool, over the rows that have the pool's name in the fourth column.
pub(crate) fn pool_sums(
    alloc: Global,
    pools: &[Pool],
    weight: Weight,
) -> Result<FoldEach<TextSum>, AllocError>
    ensures { IfOk result (λ each. AllZip (λ p sum. IsBegun 3 p.name weight sum) pools.now each.parts.items) }
{
    let mut parts = Vec::new(alloc);
    for pool in pools {
        parts.push(sum_of(alloc, 3, pool.name.as_bytes(), weight)?)?;
    }
    Ok(FoldEach { parts })
}

/// Makes a count for each node, of the rows that have the node's id in the third column.
pub(crate) fn node_sums(alloc: Global, nodes: &[Node]) -> Result<FoldEach<TextSum>, AllocError>
    ensures { IfOk result (λ each. AllZip (λ m sum. IsBegun 2 m.id Ones sum) nodes.now each.parts.items) }
{
    let mut parts = Vec::new(alloc);
    for node in nodes {
        parts.push(sum_of(alloc, 2, node.id.as_bytes(), Weight::One)?)?;
    }
    Ok(FoldEach { parts })
}

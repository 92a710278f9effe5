//! In which order the lists of a gate's inputs are multiplied. The gate fails by all, or by some number, of them in any
//! order.
ghost use Rattle.std.specs.Prelude.{IfOk};
ghost use Rattle.std.specs.List.Sorted.{IsPermutation};

use crate::{NoMemory, Sets};
use fault_model::NodeNo;
use std::alloc::Global;

// How many sets the list of a node has, or 0 where there is no such list.
fn length_of(lists: &[Sets], node: NodeNo) -> usize {
    match lists.get((node.0 as usize).saturating_sub(1)) {
        Some(list) => list.len(),
        None => 0,
    }
}

/// The nodes, those with the shortest lists first: so what is multiplied stays short for as long as it can.
pub fn shortest_first(
    alloc: Global,
    lists: &[Sets],
    nodes: &[NodeNo],
) -> Result<Vec<NodeNo>, NoMemory>
    ensures { IfOk result (λ order. IsPermutation nodes.now order.items) }
{
    let mut order = Vec::from_slice(alloc, nodes)?;
    order.sort_by_key(|node| length_of(lists, *node))?;
    Ok(order)
}

//! Until when the list of each node is needed, so that its memory is given back after its last reader.
ghost use Rattle.std.specs.Prelude.{All, IfOk};
ghost use Rattle.fault_definitions.specs.Tree.{IsNodeOf};
ghost use Rattle.cutset_lists.specs.Plan.{HasEnd, Keeps, IsPlan};

use crate::NoMemory;
use fault_model::{NodeNo, Tree};
use std::alloc::Global;

// Keeps the lists of the nodes until a place, or longer.
fn keep_until(until: &mut Vec<usize>, nodes: &[NodeNo], end: usize)
    requires { All (HasEnd until.old.items) nodes.now }
    ensures { Keeps nodes.now end until.old.items until.new.items }
{
    for node in nodes {
        let place = node.index();
        if until[place] < end {
            until[place] = end;
        }
    }
}

// For each node the place, from 1, of the last reader of its list in the order, or 0 where none is needed that reads
// it.
pub fn plan(alloc: Global, tree: &Tree, order: &[NodeNo]) -> Result<Vec<usize>, NoMemory>
    requires { All (IsNodeOf tree.now) order.now }
    ensures { IfOk result (λ until. IsPlan tree.now order.now until.items) }
{
    let mut until = vec![in alloc; 0; (tree.units() + tree.gates()) as usize]?;
    until[tree.top().index()] = order.len() + 1;
    let mut place = order.len();
    while place > 0 {
        place -= 1;
        let node = order[place];
        if until[node.index()] > place {
            keep_until(&mut until, tree.below(node), place + 1);
        }
    }
    Ok(until)
}

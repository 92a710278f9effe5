//! The lists of all nodes, from below upwards.
ghost use Rattle.std.specs.Prelude.{◌≡◌, length, All, IfOk};
ghost use Rattle.fault_definitions.specs.WellFormed.{IsTree};
ghost use Rattle.cutset_lists.specs.Generation.{HasList, Generates};
ghost use Rattle.cutset_lists.specs.Plan.{Releases};

use crate::gate::node_list;
use crate::plan::plan;
use crate::{NoMemory, Room, Sets};
use fault_model::{NodeNo, Tree};
use std::mem;

// Gives back the lists of the nodes that are read no more from a place on.
fn release<'h>(
    room: Room<'h>,
    lists: &mut Vec<Sets<'h>>,
    until: &[usize],
    nodes: &[NodeNo],
    end: usize,
)
    requires nodes { All (HasList lists.old.items) nodes.now }
    requires all { length until.now ≡ length lists.old.items }
    ensures { Releases until.now end lists.old.items lists.new.items }
{
    for node in nodes {
        let place = node.index();
        if until[place] <= end {
            lists[place] = room.no_sets();
        }
    }
}

// The list of the top event.
pub fn top_list<'h>(room: Room<'h>, tree: &Tree) -> Result<Sets<'h>, NoMemory>
    ensures list { IfOk result (Generates tree.now tree.now.top) }
    ensures kept { IsTree tree.now }
{
    let nodes = (tree.units() + tree.gates()) as usize;
    let order = tree.bottom_up();
    let until = plan(room.alloc, tree, order)?;
    let mut lists = room.no_lists(nodes)?;
    for place in 0..order.len() {
        let node = order[place];
        if until[node.index()] > place {
            let mut list = room.no_sets();
            node_list(room, tree, &lists, node, &mut list)?;
            lists[node.index()] = list;
            release(room, &mut lists, &until, tree.below(node), place + 1);
        }
    }
    Ok(mem::replace(&mut lists[tree.top().index()], room.no_sets()))
}

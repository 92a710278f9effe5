//! By which nodes each node is read: the gates with it among their inputs, and the units that it triggers.
ghost use Rattle.std.specs.Prelude.{◌≡◌, ◌<◌, true, length, All, IfOk, OnOk, [], ◌∷◌};
ghost use Rattle.unit_sets.specs.UnitList.{among};
ghost use Rattle.fault_definitions.specs.Tree.{node_count};
ghost use Rattle.replay_semantics.specs.Readers.{AreReaders, MoreReaders};

use fault_model::{NoMemory, NodeList, NodeNo, Tree};
use flat_rows::{Rows, empty_lists};
use std::alloc::Global;

fn ends_with(nodes: &[NodeNo], node: NodeNo) -> bool
    ensures { result ≡ true → among nodes.now node ≡ true }
{
    match nodes {
        [.., last] => last.number() == node.number(),
        [] => false,
    }
}

// One more node reads some node. A node that reads it more than once is listed once, since its readings come one after
// another.
fn add(lists: &mut [NodeList], node: NodeNo, reader: NodeNo) -> Result<(), NoMemory>
    requires { node < length lists.old }
    ensures { OnOk result (MoreReaders lists.old lists.new (node ∷ []) reader) }
{
    let place = node.number() as usize;
    if ends_with(lists[place].as_slice(), reader) {
        return Ok(());
    }
    lists[place].push(reader)
}

// One more node reads some nodes.
fn add_each(lists: &mut [NodeList], nodes: &[NodeNo], reader: NodeNo) -> Result<(), NoMemory>
    requires { All (λ node. node < length lists.old) nodes.now }
    ensures { OnOk result (MoreReaders lists.old lists.new nodes.now reader) }
{
    for node in nodes {
        add(lists, *node, reader)?;
    }
    Ok(())
}

// The readers of each node, as a list for each number.
fn lists_of(alloc: Global, tree: &Tree, nodes: u32) -> Result<Vec<NodeList>, NoMemory>
    requires { nodes ≡ node_count tree.now }
    ensures { IfOk result (λ lists. AreReaders tree.now lists.items) }
{
    let mut lists = empty_lists(alloc, nodes as usize + 1)?;
    for index in 0..nodes {
        let reader = NodeNo(index + 1);
        add_each(lists.as_mut_slice(), tree.below(reader), reader)?;
    }
    Ok(lists)
}

// Some lists as rows.
fn rows_of(alloc: Global, lists: &[NodeList]) -> Result<Rows<NodeNo>, NoMemory>
    ensures { IfOk result (λ rows. rows ≡ lists.now) }
{
    let mut rows = Rows::new(alloc);
    for list in lists {
        rows.push(list.as_slice())?;
    }
    Ok(rows)
}

/// The readers of each node of a tree.
pub fn readers_of(alloc: Global, tree: &Tree) -> Result<Rows<NodeNo>, NoMemory>
    ensures { IfOk result (AreReaders tree.now) }
{
    let lists = lists_of(alloc, tree, tree.units() + tree.gates())?;
    rows_of(alloc, lists.as_slice())
}

//! The ranks of a tree's nodes and an order from below, by a search for cycles in the graph of what nodes read.
ghost use Rattle.std.specs.Prelude.{◌≡◌, suc, ◌^◌, ◌<◌, ◌≤◌, ◌++◌, length, map, All, IfOk, OnOk};
ghost use Rattle.fault_model.specs.Ranking.{AreRanks, places};
ghost use Rattle.fault_definitions.specs.Tree.{FaultTree};
ghost use Rattle.fault_model.specs.TreeTables.{HoldsLists, IsFromBelow};
ghost use Rattle.fault_definitions.specs.WellFormed.{IsTree};

use crate::{NoMemory, NodeList, NodeNo};
use flat_rows::Rows;
use graph_cycles::find_cycles;
use std::alloc::Global;

/// The rank of each node, and the nodes, each after what it reads.
#[derive(Drop)]
pub(crate) struct Ranking {
    pub(crate) ranks: Vec<u32>,
    pub(crate) order: Vec<NodeNo>,
}

impl Ranking {
    /// The ranking of a tree of which each list says what its node reads.
    pub(crate) fn over(alloc: Global, below: &[NodeList]) -> Result<Ranking, NoMemory>
        requires { (tree : FaultTree) × IsTree tree × HoldsLists tree below.now }
        ensures ranks { IfOk result (λ made. (tree : FaultTree) → IsTree tree → HoldsLists tree below.now
            → AreRanks tree made.ranks.items) }
        ensures order { IfOk result (λ made. (tree : FaultTree) → IsTree tree → HoldsLists tree below.now
            → IsFromBelow tree made.order.items) }
    {
        let graph = graph_of(alloc, below)?;
        let found = find_cycles(alloc, &graph)?;
        Ok(Ranking {
            ranks: ranks_of(alloc, &found.ranks)?,
            order: nodes_at(alloc, &found.order)?,
        })
    }
}

/// The graph of what nodes read, each node by its place.
fn graph_of(alloc: Global, below: &[NodeList]) -> Result<Rows<usize>, NoMemory>
    requires { All (All (λ node. 1 ≤ node)) below.now }
    ensures { IfOk result (λ graph. graph ≡ map places below.now) }
{
    let mut graph = Rows::new(alloc);
    add_rows(alloc, &mut graph, below)?;
    Ok(graph)
}

/// Adds what each node reads.
fn add_rows(alloc: Global, graph: &mut Rows<usize>, below: &[NodeList]) -> Result<(), NoMemory>
    requires { All (All (λ node. 1 ≤ node)) below.now }
    ensures { OnOk result (graph.new ≡ graph.old ++ map places below.now) }
{
    let mut row = Vec::new(alloc);
    for list in below {
        set_places(&mut row, list.as_slice())?;
        graph.push(&row)?;
    }
    Ok(())
}

/// Makes a row of the places of these nodes, in the memory that it has.
fn set_places(row: &mut Vec<usize>, nodes: &[NodeNo]) -> Result<(), NoMemory>
    requires { All (λ node. 1 ≤ node) nodes.now }
    ensures { OnOk result (row.new.items ≡ places nodes.now) }
{
    row.clear();
    for node in nodes {
        row.push(node.index())?;
    }
    Ok(())
}

/// The same ranks, each in half the memory.
fn ranks_of(alloc: Global, ranks: &[usize]) -> Result<Vec<u32>, NoMemory>
    requires { All (λ rank. rank < 2 ^ 31) ranks.now }
    ensures { IfOk result (λ made. made.items ≡ ranks.now) }
{
    let mut made = Vec::with_capacity(alloc, ranks.len())?;
    for rank in ranks {
        made.push(*rank as u32)?;
    }
    Ok(made)
}

/// The nodes at these places.
fn nodes_at(alloc: Global, places: &[usize]) -> Result<Vec<NodeNo>, NoMemory>
    requires { All (λ place. place < 2 ^ 31) places.now }
    ensures { IfOk result (λ nodes. nodes.items ≡ map suc places.now) }
{
    let mut nodes = Vec::with_capacity(alloc, places.len())?;
    for place in places {
        nodes.push(NodeNo(*place as u32 + 1))?;
    }
    Ok(nodes)
}

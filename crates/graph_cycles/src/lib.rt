//! Which nodes of a directed graph lie on a cycle, the ranks of the others, and an order of all, by one walk over its
//! edges.
//!
//! It stands on `flat_rows`, which keeps the successors of each node. Its contract gives the layer above, for each
//! node, whether the node leads back to itself, a rank for each one that doesn't, and an order in which each of those
//! stands after its successors. The walk is Gabow's path-based search for strong components (Information Processing
//! Letters 74, 2000): linear in nodes and edges, and without recursion, so that chains of any depth are walked.
#![tactic(auto)]

ghost use Rattle.std.specs.Prelude.{◌≡◌, ◌<◌, ◌≤◌, ◌↔◌, ◌^◌, ℕ, false, length, IsTrue, IfOk, slice_index};
ghost use Rattle.std.specs.Prelude.{slice_index_or, vec_len, nat_lt};
ghost use Rattle.std.specs.List.{list_all};
ghost use Rattle.graph_cycles.specs.Graph.{IsGraph, IsReverseTopological, Leads, successors, rank_over};

mod walk;

use flat_rows::Rows;
use std::alloc::{AllocError, Global};
use walk::{Stage, Walk};

/// What a walk over a graph finds out about each of its nodes.
#[derive(Drop)]
pub struct Survey {
    /// Whether the node leads back to itself over one or more edges.
    pub on_cycle: Vec<bool>,
    /// The rank of a node that lies on no cycle: 0 of one without successors, else one more than the greatest rank of
    /// those.
    pub ranks: Vec<usize>,
    /// Every node, each that lies on no cycle after all its successors.
    pub order: Vec<usize>,
}

/// Walks over the whole graph. A node's row has the numbers of its successors, from 0.
pub fn find_cycles(alloc: Global, graph: &Rows<usize>) -> Result<Survey, AllocError>
    requires { IsGraph graph.now }
    ensures marks { IfOk result (λ s. vec_len s.on_cycle ≡ length graph.now) }
    ensures all_ranks { IfOk result (λ s. vec_len s.ranks ≡ length graph.now) }
    ensures exact { IfOk result (λ s. (x : ℕ) → x < length graph.now
        → IsTrue (slice_index_or s.on_cycle.items x false) ↔ Leads graph.now x x) }
    ensures ranked { IfOk result (λ s. (x : ℕ) → x < length graph.now → slice_index_or s.on_cycle.items x false ≡ false
        → slice_index s.ranks.items x ≡ rank_over s.ranks.items (successors graph.now x)) }
    ensures order { IfOk result (λ s. IsReverseTopological graph.now s.order.items) }
{
    let mut walk = Walk::new(alloc, graph)?;
    for node in 0..graph.len() {
        walk.visit(graph, node)?;
    }
    Ok(Survey {
        on_cycle: walk.on_cycle,
        ranks: walk.ranks,
        order: walk.closed,
    })
}

/// Whether every successor is a node, which a walk asks for.
pub fn is_graph(graph: &Rows<usize>) -> bool
    ensures { IsTrue result ↔ IsGraph graph.now }
{
    for x in 0..graph.len() {
        if !all_below(graph.row(x), graph.len()) {
            return false;
        }
    }
    true
}

fn all_below(row: &[usize], nodes: usize) -> bool
    ensures { result ≡ list_all (λ node. nat_lt node nodes) row.now }
{
    row.iter().all(|node| *node < nodes)
}

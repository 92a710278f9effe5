//! The walk. Open nodes lie in pieces, each of which is strongly connected as far as it is known; an edge back into an
//! earlier piece makes one piece of all pieces from there on. A piece is closed once all its edges are explored.
ghost use Rattle.std.specs.Prelude.{◌≡◌, ◌≢◌, ◌+◌, ◌-◌, ◌<◌, ◌≤◌, ◌↔◌, ◌||◌, ◌⊎◌, ℕ, suc, true, false, [], length};
ghost use Rattle.std.specs.Prelude.{take, drop, IsTrue, IfOk, OnOk, slice_index, slice_index_or, slice_set, nat_lt};
ghost use Rattle.std.specs.Prelude.{vec_len};
ghost use Rattle.graph_cycles.specs.Graph.{IsGraph, Goes, has, successors, rank_over};
ghost use Rattle.graph_cycles.specs.Walk.{Rises, IsTop, Closes, piece_cycles, stage_at};
ghost use Rattle.graph_cycles.specs.State.{Stands, Steps, Meets, Follows, Counts, Shuts, IsRankedAlone, Walks};
ghost use Rattle.graph_cycles.specs.State.{explored_at, edges_at};

use flat_rows::Rows;
use std::alloc::{AllocError, Global};

/// How far the walk has come at a node.
#[derive(Clone, Copy, PartialEq, Eq)]
pub(crate) enum Stage {
    /// Not met yet.
    New,
    /// Met, at this position among the open nodes.
    Open(usize),
    /// Its strong component is known.
    Closed,
}

/// The state of the walk.
#[derive(Drop)]
pub(crate) struct Walk {
    stages: Vec<Stage>,
    // How many edges of each node are explored.
    explored: Vec<usize>,
    // The open nodes, in the order in which they were met.
    unclosed: Vec<usize>,
    // Where each piece begins among the open nodes.
    pieces: Vec<usize>,
    // The positions, among the open nodes, of the nodes on the path to the current one.
    path: Vec<usize>,
    // The closed nodes, each after those that it leads to and that don't lead back.
    pub(crate) closed: Vec<usize>,
    pub(crate) on_cycle: Vec<bool>,
    pub(crate) ranks: Vec<usize>,
}

/// Keeps the pieces that begin at or before a position.
fn merge(pieces: &mut Vec<usize>, at: usize)
    requires { Rises pieces.old.items }
    ensures front { pieces.new.items ≡ take (vec_len pieces.new) pieces.old.items }
    ensures shorter { vec_len pieces.new ≤ vec_len pieces.old }
    ensures kept { (c : ℕ) → c < vec_len pieces.new → slice_index pieces.new.items c ≤ at }
    ensures dropped { (c : ℕ) → vec_len pieces.new ≤ c → c < vec_len pieces.old → at < slice_index pieces.old.items c }
{
    while let Some(last) = pieces.last() {
        if *last <= at {
            break;
        }
        pieces.pop();
    }
}

/// Whether the places end with this one.
fn ends_with(places: &[usize], at: usize) -> bool
    ensures { IsTrue result ↔ IsTop places.now at }
{
    match places.last() {
        Some(last) => *last == at,
        None => false,
    }
}

fn rank_at(ranks: &[usize], node: usize) -> usize
    requires { node < length ranks.now }
    ensures { result ≡ slice_index ranks.now node }
{
    ranks[node]
}

/// One more than the greatest of the nodes' ranks.
fn rank_above(ranks: &[usize], nodes: &[usize]) -> usize
    requires nodes { (y : ℕ) → IsTrue (has nodes.now y) → y < length ranks.now }
    requires small { (y : ℕ) → slice_index ranks.now y + 1 < 18446744073709551616 }
    ensures { result ≡ rank_over ranks.now nodes.now }
{
    let mut rank = 0;
    for node in nodes {
        rank = rank.max(rank_at(ranks, *node) + 1);
    }
    rank
}

/// Closes these nodes.
fn seal(nodes: &[usize], mark: bool, stages: &mut [Stage], marks: &mut [bool])
    requires stages { (k : ℕ) → k < length nodes.now → slice_index nodes.now k < length stages.old }
    requires marks { (k : ℕ) → k < length nodes.now → slice_index nodes.now k < length marks.old }
    ensures { Closes nodes.now mark stages.old stages.new marks.old marks.new }
{
    for node in nodes {
        stages[*node] = Stage::Closed;
        marks[*node] = mark;
    }
}

impl Walk {
    /// Before the first step. The room for every list is reserved here, so that the walk itself takes none.
    pub(crate) fn new(alloc: Global, graph: &Rows<usize>) -> Result<Walk, AllocError>
        ensures stands { IfOk result (λ w. Stands graph.now w) }
        ensures begins { IfOk result (λ w. vec_len w.path ≡ 0) }
    {
        let nodes = graph.len();
        Ok(Walk {
            stages: vec![in alloc; Stage::New; nodes]?,
            explored: vec![in alloc; 0; nodes]?,
            unclosed: Vec::with_capacity(alloc, nodes)?,
            pieces: Vec::with_capacity(alloc, nodes)?,
            path: Vec::with_capacity(alloc, nodes)?,
            closed: Vec::with_capacity(alloc, nodes)?,
            on_cycle: vec![in alloc; false; nodes]?,
            ranks: vec![in alloc; 0; nodes]?,
        })
    }

    /// Meets a new node: it is open, a piece of its own, and the end of the path.
    fn meet(&mut self, node: usize) -> Result<(), AllocError>
        requires { node < length self.old.stages.items }
        ensures { OnOk result (Meets self.old self.new node) }
    {
        let position = self.unclosed.len();
        self.stages[node] = Stage::Open(position);
        self.unclosed.push(node)?;
        self.pieces.push(position)?;
        self.path.push(position)?;
        Ok(())
    }

    /// Follows an edge to a node.
    fn follow(&mut self, node: usize) -> Result<(), AllocError>
        requires within { node < length self.old.stages.items }
        requires rises { Rises self.old.pieces.items }
        ensures { OnOk result (Follows self.old self.new node) }
    {
        match self.stages[node] {
            Stage::New => self.meet(node),
            Stage::Open(position) => {
                merge(&mut self.pieces, position);
                Ok(())
            }
            Stage::Closed => Ok(()),
        }
    }

    /// The node at a position.
    fn node_at(&self, at: usize) -> usize
        requires { at < length self.now.unclosed.items }
        ensures { result ≡ slice_index self.now.unclosed.items at }
    {
        self.unclosed[at]
    }

    /// The first edge of the node at a position that is not explored.
    fn next_edge(&self, graph: &Rows<usize>, at: usize) -> usize
        requires stands { Stands graph.now self.now }
        requires within { at < length self.now.unclosed.items }
        requires more { explored_at self.now at < length (edges_at graph.now self.now at) }
        ensures edge { result ≡ slice_index (edges_at graph.now self.now at) (explored_at self.now at) }
        ensures small { explored_at self.now at + 1 < 18446744073709551616 }
    {
        let node = self.node_at(at);
        let explored = self.explored[node];
        graph.row(node)[explored]
    }

    /// Counts one more edge of the node at a position as explored.
    fn count(&mut self, at: usize)
        requires within { at < length self.old.unclosed.items }
        requires node { slice_index self.old.unclosed.items at < length self.old.explored.items }
        requires small { explored_at self.old at + 1 < 18446744073709551616 }
        ensures { Counts self.old self.new at }
    {
        let node = self.node_at(at);
        self.explored[node] += 1;
    }

    /// Whether the nodes of the explored piece that begins at a position lie on a cycle.
    fn piece_cycles(&self, graph: &Rows<usize>, at: usize) -> bool
        requires within { at < length self.now.unclosed.items }
        requires node { slice_index self.now.unclosed.items at < length graph.now }
        ensures { result ≡ piece_cycles graph.now self.now.unclosed.items at }
    {
        let node = self.unclosed[at];
        self.unclosed.len() - at > 1 || graph.row(node).contains(&node)
    }

    /// Explores one more edge of the node at the end of the path.
    fn explore(&mut self, graph: &Rows<usize>, at: usize) -> Result<(), AllocError>
        requires whole { IsGraph graph.now }
        requires stands { Stands graph.now self.old }
        requires top { IsTop self.old.path.items at }
        requires more { explored_at self.old at < length (edges_at graph.now self.old at) }
        ensures { OnOk result (Steps graph.now self.old self.new) }
    {
        let next = self.next_edge(graph, at);
        self.follow(next)?;
        self.count(at);
        Ok(())
    }

    /// Gives the node its rank, where it lies on no cycle.
    fn rank(&mut self, node: usize, edges: &[usize], cycles: bool)
        requires node { node < length self.old.ranks.items }
        requires edges { (y : ℕ) → IsTrue (has edges.now y) → y < length self.old.ranks.items }
        requires small { (y : ℕ) → slice_index self.old.ranks.items y + 1 < 18446744073709551616 }
        ensures rest { IsRankedAlone self.old self.new }
        ensures ranked { cycles ≡ false → self.new.ranks.items
            ≡ slice_set self.old.ranks.items node (rank_over self.old.ranks.items edges.now) }
        ensures unranked { cycles ≡ true → self.new.ranks.items ≡ self.old.ranks.items }
    {
        if !cycles {
            self.ranks[node] = rank_above(&self.ranks, edges);
        }
    }

    /// Closes the piece that begins at the end of the path.
    fn close(&mut self, graph: &Rows<usize>, at: usize) -> Result<(), AllocError>
        requires whole { IsGraph graph.now }
        requires stands { Stands graph.now self.old }
        requires within { at < length self.old.unclosed.items }
        ensures { OnOk result (Shuts graph.now self.old self.new at) }
    {
        let cycles = self.piece_cycles(graph, at);
        let node = self.node_at(at);
        self.rank(node, graph.row(node), cycles);
        seal(
            &self.unclosed[at..],
            cycles,
            &mut self.stages,
            &mut self.on_cycle,
        );
        self.closed.extend_from_slice(&self.unclosed[at..])?;
        self.unclosed.truncate(at);
        self.pieces.pop();
        self.path.pop();
        Ok(())
    }

    /// Goes back from the node at the end of the path, which stays open with the piece that it lies in.
    fn retreat(&mut self, _graph: &Rows<usize>, at: usize)
        requires stands { Stands _graph.now self.old }
        requires top { IsTop self.old.path.items at }
        requires full { length (edges_at _graph.now self.old at) ≤ explored_at self.old at }
        requires no_root { ¬ IsTop self.old.pieces.items at }
        ensures { Steps _graph.now self.old self.new }
    {
        self.path.pop();
    }

    /// Leaves the node at the end of the path, all of whose edges are explored.
    fn leave(&mut self, graph: &Rows<usize>, at: usize) -> Result<(), AllocError>
        requires whole { IsGraph graph.now }
        requires stands { Stands graph.now self.old }
        requires top { IsTop self.old.path.items at }
        requires full { length (edges_at graph.now self.old at) ≤ explored_at self.old at }
        ensures { OnOk result (Steps graph.now self.old self.new) }
    {
        if ends_with(&self.pieces, at) {
            self.close(graph, at)
        } else {
            self.retreat(graph, at);
            Ok(())
        }
    }

    fn step(&mut self, graph: &Rows<usize>, at: usize) -> Result<(), AllocError>
        requires whole { IsGraph graph.now }
        requires stands { Stands graph.now self.old }
        requires top { IsTop self.old.path.items at }
        ensures { OnOk result (Steps graph.now self.old self.new) }
    {
        let node = self.unclosed[at];
        if self.explored[node] < graph.row(node).len() {
            self.explore(graph, at)
        } else {
            self.leave(graph, at)
        }
    }

    /// Walks from a new node, until every node that it leads to is closed.
    fn walk_from(&mut self, graph: &Rows<usize>, root: usize) -> Result<(), AllocError>
        requires whole { IsGraph graph.now }
        requires stands { Stands graph.now self.old }
        requires rests { length self.old.path.items ≡ 0 }
        requires within { root < length graph.now }
        requires fresh { stage_at self.old.stages.items root ≡ Stage.New }
        ensures { OnOk result (Walks graph.now self.old self.new root) }
    {
        self.meet(root)?;
        while let Some(at) = self.path.last() {
            let at = *at;
            self.step(graph, at)?;
        }
        Ok(())
    }

    /// Walks from a node, where it is new.
    pub(crate) fn visit(&mut self, graph: &Rows<usize>, node: usize) -> Result<(), AllocError>
        requires whole { IsGraph graph.now }
        requires stands { Stands graph.now self.old }
        requires rests { length self.old.path.items ≡ 0 }
        requires within { node < length graph.now }
        ensures { OnOk result (Walks graph.now self.old self.new node) }
    {
        if self.stages[node] == Stage::New {
            self.walk_from(graph, node)?;
        }
        Ok(())
    }
}

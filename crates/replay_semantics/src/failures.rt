//! The steps of all nodes, and how a failure spreads and is undone.
ghost use Rattle.std.specs.Prelude.{◌≡◌, ℕ, suc, ◌<◌, ◌≤◌, true, false, [], ◌∷◌, ◌++◌, length, take, drop, All, IfOk};
ghost use Rattle.std.specs.Prelude.{vec_len, vec_capacity, slice_set, Some, None, List, ◌+◌, ◌^◌, replicate};
ghost use Rattle.unit_sets.specs.UnitList.{among};
ghost use Rattle.fault_definitions.specs.Tree.{IsNodeOf, IsUnitOf, node_count};
ghost use Rattle.fault_definitions.specs.WellFormed.{IsTree};
ghost use Rattle.replay_semantics.specs.Admission.{all_in_turn};
ghost use Rattle.replay_semantics.specs.Readers.{readers_in, AreReaders};
ghost use Rattle.replay_semantics.specs.Spread.{CanFail, HaveFailed, HaveMore, Spread, Turn, step_without};
ghost use Rattle.replay_semantics.specs.Table.{step_in, has_step, AreIn, HoldsSteps};

use crate::admission::keep_turns;
use crate::steps::{Step, has_failed, node_fails};
use fault_model::{NoMemory, NodeNo, Tree};
use flat_rows::Rows;
use std::alloc::Global;

/// The step of each node by its number, and the nodes that have failed, one after another.
#[derive(Drop)]
pub struct Failures {
    pub steps: Vec<Step>,
    pub log: Vec<NodeNo>,
}

impl Failures {
    /// No node of the tree has failed. There is room for the failure of each.
    pub fn new(alloc: Global, nodes: usize) -> Result<Failures, NoMemory>
        requires { nodes < 2 ^ 32 }
        ensures steps { IfOk result (λ failures. failures.steps.items ≡ replicate (suc nodes) None) }
        ensures log { IfOk result (λ failures. failures.log.items ≡ []) }
        ensures room { IfOk result (λ failures. nodes ≤ vec_capacity failures.log) }
    {
        Ok(Failures {
            steps: vec![in alloc; None; nodes + 1]?,
            log: Vec::with_capacity(alloc, nodes)?,
        })
    }

    // A node fails that had not failed.
    fn fail_first(&mut self, tree: &Tree, node: NodeNo, at: u16)
        requires node { IsNodeOf tree.now node }
        requires can { CanFail tree.now self.old }
        requires fresh { has_step self.old.steps.items node ≡ false }
        ensures more { HaveMore tree.now self.old self.new }
        ensures steps { self.new.steps.items ≡ slice_set self.old.steps.items node (Some at) }
        ensures log { self.new.log.items ≡ self.old.log.items ++ node ∷ [] }
    {
        self.steps[node.number() as usize] = Some(at);
        self.log.push_reserved(node);
    }

    // Lets a node fail that has not, where it does by what it reads.
    fn reach(&mut self, tree: &Tree, node: NodeNo, at: u16)
        requires node { IsNodeOf tree.now node }
        requires can { CanFail tree.now self.old }
        ensures more { HaveMore tree.now self.old self.new }
        ensures spreads { (turn : Turn) (todo : List ℕ) (next : ℕ) → turn.last ≡ at
            → Spread tree.now turn self.old (node ∷ todo) next
            → Spread tree.now turn self.new todo next }
    {
        if has_failed(&self.steps, node) {
            return;
        }
        if node_fails(tree, &self.steps, node) {
            self.fail_first(tree, node, at);
        }
    }

    // The same of several nodes.
    fn reach_each(&mut self, tree: &Tree, nodes: &[NodeNo], at: u16)
        requires nodes { All (IsNodeOf tree.now) nodes.now }
        requires can { CanFail tree.now self.old }
        ensures more { HaveMore tree.now self.old self.new }
        ensures spreads { (turn : Turn) (next : ℕ) → turn.last ≡ at
            → Spread tree.now turn self.old nodes.now next
            → Spread tree.now turn self.new [] next }
    {
        for node in nodes {
            self.reach(tree, *node, at);
        }
    }

    // Lets everything fail that fails by the nodes of the log from a place on.
    fn spread(&mut self, tree: &Tree, readers: &Rows<NodeNo>, start: usize, at: u16)
        requires readers { AreReaders tree.now readers.now }
        requires start { start ≤ length self.old.log.items }
        requires can { CanFail tree.now self.old }
        ensures more { HaveMore tree.now self.old self.new }
        ensures spreads { (turn : Turn) → turn.last ≡ at
            → Spread tree.now turn self.old [] start
            → Spread tree.now turn self.new [] (length self.new.log.items) }
    {
        let mut next = start;
        while next < self.log.len() {
            let node = self.log[next];
            next += 1;
            self.reach_each(tree, readers.row(node.number() as usize), at);
        }
    }

    /// Lets a unit fail, where it has not, and everything that fails by it.
    pub fn push(&mut self, tree: &Tree, readers: &Rows<NodeNo>, unit: NodeNo, at: u16)
        requires tree { IsTree tree.now }
        requires readers { AreReaders tree.now readers.now }
        requires unit { IsNodeOf tree.now unit }
        requires can { CanFail tree.now self.old }
        ensures more { HaveMore tree.now self.old self.new }
        ensures failed { (order : List ℕ) → IsUnitOf tree.now unit → suc (length order) ≡ at
            → HoldsSteps tree.now order self.old.steps.items
            → HaveFailed tree.now (order ++ unit ∷ []) self.old.steps.items self.new.steps.items self.old.log.items
            self.new.log.items }
    {
        let start = self.log.len();
        if has_failed(&self.steps, unit) {
            return;
        }
        self.fail_first(tree, unit, at);
        self.spread(tree, readers, start, at);
    }

    /// Whether the inputs of every gate that reads a node of the log from a place on have failed in turn, where the
    /// gate asks for that.
    pub fn keep_turns(&self, tree: &Tree, readers: &Rows<NodeNo>, start: usize) -> bool
        requires readers { AreReaders tree.now readers.now }
        requires can { CanFail tree.now self.now }
        requires start { start ≤ length self.now.log.items }
        ensures { result ≡ all_in_turn tree.now readers.now self.now.steps.items (drop start self.now.log.items) }
    {
        keep_turns(tree, readers, self.steps.as_slice(), &self.log[start..])
    }

    /// Takes the steps from the nodes of the log from a place on, and the nodes from the log.
    pub fn undo(&mut self, start: usize)
        requires start { start ≤ length self.old.log.items }
        requires nodes { AreIn self.old.steps.items self.old.log.items }
        ensures steps { (node : ℕ) → step_in self.new.steps.items node
            ≡ step_without (drop start self.old.log.items) self.old.steps.items node }
        ensures table { length self.new.steps.items ≡ length self.old.steps.items }
        ensures log { self.new.log.items ≡ take start self.old.log.items }
        ensures room { vec_capacity self.new.log ≡ vec_capacity self.old.log }
    {
        clear(self.steps.as_mut_slice(), &self.log[start..]);
        self.log.truncate(start);
    }
}

// Takes the steps from some nodes.
fn clear(steps: &mut [Step], nodes: &[NodeNo])
    requires { AreIn steps.old nodes.now }
    ensures { (node : ℕ) → step_in steps.new node ≡ step_without nodes.now steps.old node }
{
    for node in nodes {
        steps[node.number() as usize] = None;
    }
}

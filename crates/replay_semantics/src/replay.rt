//! Replay: the units of an order fail one after another, and the last one can be taken back.
ghost use Rattle.std.specs.Prelude.{◌≡◌, ℕ, suc, ◌-◌, ◌^◌, ◌<◌, ◌≤◌, ◌&&◌, true, false, List, [], ◌∷◌, ◌++◌, length};
ghost use Rattle.std.specs.Prelude.{take, All, IfOk, is_some, vec_capacity};
ghost use Rattle.unit_sets.specs.UnitList.{among};
ghost use Rattle.fault_definitions.specs.Cut.{is_cut};
ghost use Rattle.fault_definitions.specs.FailingOrder.{is_admissible, is_failing};
ghost use Rattle.fault_definitions.specs.Step.{step};
ghost use Rattle.fault_definitions.specs.Tree.{IsUnitOf, node_count};
ghost use Rattle.fault_definitions.specs.WellFormed.{IsTree};
ghost use Rattle.replay_semantics.specs.Held.{admitted_after};
ghost use Rattle.replay_semantics.specs.Readers.{AreReaders};
ghost use Rattle.replay_semantics.specs.Spread.{CanFail, HaveFailed};
ghost use Rattle.replay_semantics.specs.Table.{HoldsSteps};

use crate::admission::all_await;
use crate::failures::Failures;
use crate::readers::readers_of;
use crate::steps::has_failed;
use fault_model::{NoMemory, NodeNo, Order, Tree};
use flat_rows::Rows;
use std::alloc::Global;
use std::marker::Model;
use unit_sets::UnitNo;

/// What a unit that fails last makes of an order.
#[derive(Clone, Copy, PartialEq, Eq)]
pub struct Pushed {
    /// Whether the order can happen.
    pub admissible: bool,
    /// Whether the top event has failed.
    pub top_failed: bool,
}

/// The units of an order fail one after another. A contract sees it as its tree and its order.
///
/// The steps of all nodes are kept, and which nodes failed at which unit, so that a push and a pop touch only what
/// changes. Only `new` takes memory.
#[derive(Drop)]
pub struct Replay<'t> {
    tree: &'t Tree,
    readers: Rows<NodeNo>,
    failures: Failures,
    order: Vec<UnitNo>,
    // of each unit of the order: how many nodes had failed before it
    starts: Vec<usize>,
    // how long the longest beginning of the order is that can happen
    admitted: usize,
}

impl<'t> Model for Replay<'t> {
    ghost use Rattle.std.specs.Prelude.{◌≤◌, vec_capacity};
    ghost use Rattle.fault_definitions.specs.Tree.{node_count, unit_count};
    ghost use Rattle.replay_semantics.specs.Replayed.{Replayed};
    ghost use Rattle.replay_semantics.specs.Held.{HoldsReplay};

    ghost Value = { Replayed };

    ghost view = { λ replay. record { tree = replay.tree.now; order = replay.order.items } };

    ghost invariant = { λ replay.
        HoldsReplay replay.tree.now replay.readers replay.failures.steps.items replay.failures.log.items
        replay.order.items replay.starts.items replay.admitted
        × (node_count replay.tree.now ≤ vec_capacity replay.failures.log)
        × (unit_count replay.tree.now ≤ vec_capacity replay.order)
        × (unit_count replay.tree.now ≤ vec_capacity replay.starts) };
}

// Lets a unit fail at a place after the units of an order, and says whether the longer order can happen where the
// shorter one can.
fn fail_next(
    failures: &mut Failures,
    tree: &Tree,
    readers: &Rows<NodeNo>,
    unit: UnitNo,
    at: u16,
) -> bool
    requires tree { IsTree tree.now }
    requires readers { AreReaders tree.now readers.now }
    requires unit { IsUnitOf tree.now unit }
    requires can { CanFail tree.now failures.old }
    ensures can { CanFail tree.now failures.new }
    ensures failed { (order : List ℕ) → suc (length order) ≡ at → HoldsSteps tree.now order failures.old.steps.items
        → HaveFailed tree.now (order ++ unit ∷ []) failures.old.steps.items failures.new.steps.items
        failures.old.log.items failures.new.log.items }
    ensures fits { (order : List ℕ) → suc (length order) ≡ at → among order unit ≡ false
        → HoldsSteps tree.now order failures.old.steps.items
        → is_admissible tree.now (order ++ unit ∷ []) ≡ (is_admissible tree.now order && result) }
{
    let node = NodeNo(u32::from(unit.number()));
    let start = failures.log.len();
    let awaited = all_await(
        tree,
        failures.steps.as_slice(),
        node,
        readers.row(node.number() as usize),
    );
    failures.push(tree, readers, node, at);
    awaited && failures.keep_turns(tree, readers, start)
}

// How long the longest beginning is that can happen, once one unit more has failed.
fn admitted_after(admitted: usize, units: usize, fits: bool) -> usize
    requires { units < 2 ^ 32 }
    ensures { result ≡ admitted_after admitted units fits }
{
    if admitted == units && fits {
        units + 1
    } else {
        admitted
    }
}

impl<'t> Replay<'t> {
    /// The replay of the empty order.
    pub fn new(alloc: Global, tree: &'t Tree) -> Result<Replay<'t>, NoMemory>
        ensures tree { IfOk result (λ replay. replay.tree ≡ tree.now) }
        ensures order { IfOk result (λ replay. replay.order ≡ []) }
    {
        let units = tree.units() as usize;
        let nodes = units + tree.gates() as usize;
        Ok(Replay {
            tree,
            order: Vec::with_capacity(alloc, units)?,
            starts: Vec::with_capacity(alloc, units)?,
            failures: Failures::new(alloc, nodes)?,
            // The largest comes last, so that no failure has to let it go.
            readers: readers_of(alloc, tree)?,
            admitted: 0,
        })
    }

    /// The units that have failed, in their order.
    pub fn order(&self) -> &[UnitNo]
        ensures order { result.now ≡ self.now.order }
        ensures kept { IsTree self.now.tree }
    {
        self.order.as_slice()
    }

    /// One unit more fails, after those of the order.
    pub fn push(&mut self, unit: UnitNo) -> Pushed
        requires unit { IsUnitOf self.old.tree unit }
        requires fresh { among self.old.order unit ≡ false }

        ensures tree { self.new.tree ≡ self.old.tree }
        ensures order { self.new.order ≡ self.old.order ++ unit ∷ [] }
        ensures admissible { result.admissible ≡ is_admissible self.new.tree self.new.order }
        ensures top_failed { result.top_failed ≡ is_some (step self.new.tree self.new.order self.new.tree.top) }

        // The static bound: the units of an order under which the top event fails are a cut.
        ensures bound { result.top_failed ≡ true → is_cut self.new.tree self.new.order ≡ true }
    {
        let at = self.order.len() as u16 + 1;
        let start = self.failures.log.len();
        let fits = fail_next(&mut self.failures, self.tree, &self.readers, unit, at);
        self.admitted = admitted_after(self.admitted, self.order.len(), fits);
        self.order.push_reserved(unit);
        self.starts.push_reserved(start);
        Pushed {
            admissible: self.admitted == self.order.len(),
            top_failed: has_failed(self.failures.steps.as_slice(), self.tree.top()),
        }
    }

    /// Takes the last unit back.
    pub fn pop(&mut self)
        requires { 0 < length self.old.order }
        ensures tree { self.new.tree ≡ self.old.tree }
        ensures order { self.new.order ≡ take (length self.old.order - 1) self.old.order }
    {
        let last = self.order.len() - 1;
        self.failures.undo(self.starts[last]);
        self.order.truncate(last);
        self.starts.truncate(last);
        self.admitted = self.admitted.min(last);
    }

    /// Whether an order can happen and fails the top event. The replay has the empty order before and after.
    pub fn fails(&mut self, order: &Order) -> bool
        requires empty { self.old.order ≡ [] }
        requires units { All (IsUnitOf self.old.tree) order.now }

        ensures failing { result ≡ is_failing self.old.tree order.now }
        ensures replay { self.new ≡ self.old }
        ensures bound { is_some (step self.old.tree order.now self.old.tree.top) ≡ true
            → is_cut self.old.tree order.now ≡ true }
    {
        // Tells the proof what the tree keeps.
        let _ = &self.tree;
        let mut failing = false;
        for unit in order.as_slice() {
            let pushed = self.push(*unit);
            failing = pushed.admissible && pushed.top_failed;
        }
        self.clear();
        failing
    }

    // Takes all units back.
    fn clear(&mut self)
        ensures tree { self.new.tree ≡ self.old.tree }
        ensures order { self.new.order ≡ [] }
    {
        for _ in 0..self.order.len() {
            self.pop();
        }
    }
}

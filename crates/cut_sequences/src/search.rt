//! The search for the failing orders of a set: a unit fails, the search goes on with the units that are left, and the
//! unit is taken back.
ghost use Rattle.std.specs.Prelude.{◌≡◌, ◌<◌, ◌≤◌, [], ◌∷◌, length, IfOk, is_some};
ghost use Rattle.fault_definitions.specs.FailingOrder.{is_admissible};
ghost use Rattle.fault_definitions.specs.Step.{step};
ghost use Rattle.cut_sequences.specs.Orders.{order_limit};
ghost use Rattle.cut_sequences.specs.Going.{failing_after, Lists, IsFirst, CanSearch, Searches, due};

use crate::{ORDER_LIMIT, OrderEnd};
use fault_model::{NoMemory, Tree};
use flat_rows::Rows;
use replay_semantics::{Pushed, Replay};
use std::alloc::Global;
use unit_sets::UnitNo;

/// The units that have failed, those that are left, and the failing orders so far.
#[derive(Drop)]
pub struct Search<'t> {
    pub replay: Replay<'t>,
    pub left: Vec<UnitNo>,
    pub orders: Rows<UnitNo>,
}

// Lists one order more.
fn list(orders: &mut Rows<UnitNo>, order: &[UnitNo]) -> Result<(), OrderEnd>
    requires { length orders.old ≤ order_limit }
    ensures { Lists orders.old orders.new (order.now ∷ []) result }
{
    if orders.len() >= ORDER_LIMIT as usize {
        return Err(OrderEnd::OrderLimit);
    }
    orders.push(order)?;
    Ok(())
}

impl<'t> Search<'t> {
    /// No unit has failed, and none is left. There is room for the units of any set.
    pub fn new(alloc: Global, tree: &'t Tree) -> Result<Search<'t>, NoMemory>
        ensures { IfOk result (IsFirst tree.now) }
    {
        Ok(Search {
            left: Vec::with_capacity(alloc, tree.units() as usize)?,
            replay: Replay::new(alloc, tree)?,
            orders: Rows::new(alloc),
        })
    }

    /// Lists the failing orders that go on with the units of a set.
    pub fn list_set(&mut self, set: &[UnitNo]) -> Result<(), OrderEnd>
        requires can { CanSearch self.old set.now }
        requires some { 0 < length set.now }
        ensures { Searches self.old self.new set.now (due self.old set.now) result }
    {
        self.left.clear();
        self.left.extend_from_slice(set)?;
        self.go_through()
    }

    // Goes on with the units that are left, if any, where those that have failed can do so one after another.
    #[cycle(search)]
    fn go_on(&mut self, pushed: Pushed) -> Result<(), OrderEnd>
        requires can { CanSearch self.old self.old.left.items }
        requires admissible { pushed.admissible ≡ is_admissible self.old.replay.tree self.old.replay.order }
        requires top_failed { pushed.top_failed ≡ is_some (step self.old.replay.tree self.old.replay.order
            self.old.replay.tree.top) }
        ensures { Searches self.old self.new self.old.left.items (due self.old self.old.left.items) result }
    {
        if !pushed.admissible {
            Ok(())
        } else if !self.left.is_empty() {
            self.go_through()
        } else if pushed.top_failed {
            list(&mut self.orders, self.replay.order())
        } else {
            Ok(())
        }
    }

    // Each unit that is left fails next, one after another in rising order.
    #[cycle(search)]
    fn go_through(&mut self) -> Result<(), OrderEnd>
        requires can { CanSearch self.old self.old.left.items }
        requires some { 0 < length self.old.left.items }
        ensures { Searches self.old self.new self.old.left.items (due self.old self.old.left.items) result }
    {
        for i in 0..self.left.len() {
            self.fail_at(i)?;
        }
        Ok(())
    }

    // The unit of a place fails next, and then the units that are left.
    #[cycle(search)]
    fn fail_at(&mut self, i: usize) -> Result<(), OrderEnd>
        requires can { CanSearch self.old self.old.left.items }
        requires within { i < length self.old.left.items }
        ensures { Searches self.old self.new self.old.left.items
            (failing_after self.old.replay.tree self.old.replay.order self.old.left.items i) result }
    {
        let unit = self.left.remove(i);
        let pushed = self.replay.push(unit);
        self.go_on(pushed)?;
        self.replay.pop();
        self.left.insert(i, unit)?;
        Ok(())
    }
}

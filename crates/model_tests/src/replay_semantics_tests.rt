//! Orders over small trees, and whether they fail the top event.
ghost use Rattle.std.specs.Prelude.{All, IfOk, IfSome};
ghost use Rattle.fault_definitions.specs.Tree.{IsUnitOf};

use fault_model::{NoMemory, Order, Tree};
use replay_semantics::{Pushed, Replay};
use std::alloc::Global;
use std::test::Fail;
use unit_sets::UnitNo;
use worked_trees::tree_of;

// The order of some digits, up to the first that is no unit of the tree; `None` where one stands twice.
fn order_of(alloc: Global, tree: &Tree, digits: &str) -> Result<Option<Order>, NoMemory>
    ensures { IfOk result (λ order. IfSome order (λ o. All (IsUnitOf tree.now) o)) }
{
    let mut units = Vec::new(alloc);
    for digit in digits.as_bytes() {
        match UnitNo::new(u16::from(digit.wrapping_sub(b'0'))) {
            Some(unit) if u32::from(unit.number()) <= tree.units() => units.push(unit)?,
            _ => break,
        }
    }
    Order::new(alloc, units.as_slice())
}

// Whether the order of some digits fails the top event, or not, as the mark behind them says.
fn is_as_marked(alloc: Global, tree: &Tree, marked: &str) -> Result<bool, Fail> {
    let Some(order) = order_of(alloc, tree, marked)? else {
        return Err("a unit stands twice".into());
    };
    let mut replay = Replay::new(alloc, tree)?;
    let fails = replay.fails(&order);
    Ok(order.as_slice().len() + 1 == marked.len() && fails == marked.ends_with('+'))
}

fn are_as_marked(alloc: Global, tree: &Tree, orders: &str) -> Result<bool, Fail> {
    for marked in orders.split(' ') {
        if !is_as_marked(alloc, tree, marked)? {
            return Ok(false);
        }
    }
    Ok(true)
}

// Whether the orders of a row are as marked, over its tree.
fn is_so(alloc: Global, row: &str) -> Result<bool, Fail> {
    let (text, orders) = row.split_once('|').ok_or("a row out of form")?;
    let tree = tree_of(alloc, text.as_bytes())?;
    are_as_marked(alloc, &tree, orders)
}

// Trees, and orders by the numbers of their units: those with `+` fail the top event, and those with `-` don't. A mark
// alone stands for the order of no unit.
const ORDERS: &str = "\
toplevel T; T pand A B; F fdep X A B; A; B; X;|3+ 21- 12+ 132+ 231-
toplevel T; T csp P S; F fdep X S; P; S; X;|12+ 21- 31+ 312+ 132+ 123+ 321- 231-
toplevel T; T pand A B; S seq B A; A; B;|12- 21- -
toplevel T; T or G H; G pand A B; H and I C; I pand B A; A; B; C;|213+ 21- 12+ 321+
toplevel T; T and G B; G por A B; A; B;|12+ 21- 1-
toplevel T; T pand G A; G 2of3 A B C; A; B; C;|21+ 12- 231+ 213+";

#[test]
fn orders_over_small_trees(rt: HostRuntime) -> Result<(), Fail> {
    for row in ORDERS.lines() {
        assert!(rt; is_so(rt.alloc(), row)?, "{row}");
    }
    Ok(())
}

// What the trigger makes of an order where it fails first, the primary in its place, and the trigger behind that.
fn pushed(alloc: Global, tree: &Tree) -> Result<(Pushed, Pushed, Pushed), Fail> {
    let trigger = UnitNo::new(3).ok_or("no unit")?;
    let primary = UnitNo::new(1).ok_or("no unit")?;
    if tree.units() != 3 {
        return Err("not three units".into());
    }
    let mut replay = Replay::new(alloc, tree)?;
    let after_trigger = replay.push(trigger);
    replay.pop();
    let after_primary = replay.push(primary);
    let after_both = replay.push(trigger);
    replay.pop();
    replay.pop();
    Ok((after_trigger, after_primary, after_both))
}

fn pushed_over_a_spare(alloc: Global) -> Result<(Pushed, Pushed, Pushed), Fail> {
    let tree = tree_of(alloc, b"toplevel T; T csp P S; F fdep X S; P; S; X;")?;
    pushed(alloc, &tree)
}

// The spare fails by its trigger first, and still can't be chosen to fail before its primary.
#[test]
fn the_last_unit_is_taken_back(rt: HostRuntime) -> Result<(), Fail> {
    let (after_trigger, after_primary, after_both) = pushed_over_a_spare(rt.alloc())?;
    assert!(rt; after_trigger.admissible && !after_trigger.top_failed);
    assert!(rt; after_primary.admissible && !after_primary.top_failed);
    assert!(rt; after_both.admissible && after_both.top_failed);
    Ok(())
}

//! What each operation makes of small families, and seats that are split off and joined.
ghost use Rattle.std.specs.Prelude.{◌≡◌, ◌≤◌, IfOk, OnOk};
ghost use Rattle.zdd_families.specs.Map.{Knows, Grown};
ghost use Rattle.zdd_shared_table.specs.Seats.{map_of};

use crate::zdd_product_tests::texts::{numbers_at, part};
use std::alloc::Global;
use std::test::Fail;
use worked_families::{family_of, ops_on, single, spelled, unit};
use zdd_product::Ops;
use zdd_shared_table::NodeStore;
use zdd_words::NodeRef;

// The family of a row at a place.
fn family_at(alloc: Global, ops: &mut Ops, row: &str, place: usize) -> Result<NodeRef, Fail>
    ensures store { OnOk result (ops.new.store ≡ ops.old.store) }
    ensures keeps { OnOk result (Grown (map_of ops.old) (map_of ops.new)) }
    ensures knows { IfOk result (λ r. Knows (map_of ops.new) r) }
{
    let numbers = numbers_at(alloc, row, place)?;
    family_of(ops, numbers.as_slice())
}

// Whether a family has the sets that a row has at a place.
fn is_at(alloc: Global, ops: &mut Ops, r: NodeRef, row: &str, place: usize) -> Result<bool, Fail>
    requires { Knows (map_of ops.old) r }
{
    let numbers = spelled(alloc, ops, r)?;
    let wanted = numbers_at(alloc, row, place)?;
    Ok(numbers.as_slice() == wanted.as_slice())
}

// What an operation makes of two families.
fn made(ops: &mut Ops, operation: &str, first: NodeRef, second: NodeRef) -> Result<NodeRef, Fail>
    requires first { Knows (map_of ops.old) first }
    requires second { Knows (map_of ops.old) second }
    ensures { IfOk result (λ r. Knows (map_of ops.new) r) }
{
    match operation {
        "union" => Ok(ops.union(first, second)?),
        "product" => Ok(ops.product(first, second)?),
        "without" => Ok(ops.without(first, second)?),
        "minimal of union" => {
            let union = ops.union(first, second)?;
            Ok(ops.minimal(union)?)
        }
        _ => Err("no operation".into()),
    }
}

/// Whether an operation makes of two families what a row has.
pub(crate) fn agrees(alloc: Global, ops: &mut Ops, row: &str) -> Result<bool, Fail> {
    let first = family_at(alloc, ops, row, 2)?;
    let second = family_at(alloc, ops, row, 3)?;
    let made = made(ops, part(row, 0), first, second)?;
    is_at(alloc, ops, made, row, 4)
}

// The votes over two families and the third of a row.
fn voted(
    alloc: Global,
    ops: &mut Ops,
    votes: u32,
    first: NodeRef,
    second: NodeRef,
    row: &str,
) -> Result<NodeRef, Fail>
    requires some { 1 ≤ votes }
    requires few { votes ≤ 3 }
    requires first { Knows (map_of ops.old) first }
    requires second { Knows (map_of ops.old) second }
    ensures { IfOk result (λ r. Knows (map_of ops.new) r) }
{
    let third = family_at(alloc, ops, row, 5)?;
    let mut room = [NodeRef::EMPTY; 3];
    Ok(ops.votes(votes, &[first, second, third], &mut room)?)
}

/// Whether so many votes of three families are as a row has them.
pub(crate) fn votes_agree(alloc: Global, ops: &mut Ops, row: &str) -> Result<bool, Fail> {
    let votes = part(row, 2).parse::<u32>()?;
    if votes < 1 || votes > 3 {
        return Err("no votes of three".into());
    }
    let first = family_at(alloc, ops, row, 3)?;
    let second = family_at(alloc, ops, row, 4)?;
    let made = voted(alloc, ops, votes, first, second, row)?;
    is_at(alloc, ops, made, row, 6)
}

// Whether the first sixty units, joined from left to right, fill a store.
fn fills(ops: &mut Ops) -> Result<bool, Fail> {
    let mut all = NodeRef::EMPTY;
    for number in 1..61u16 {
        let level = unit(number)?;
        let Ok(one) = single(ops, level) else {
            return Ok(true);
        };
        let Ok(more) = ops.union(all, one) else {
            return Ok(true);
        };
        all = more;
    }
    Ok(false)
}

/// Whether they fill it or not, as a row says, and whether its family is made afterwards.
pub(crate) fn is_filled(alloc: Global, ops: &mut Ops, row: &str) -> Result<bool, Fail> {
    let full = fills(ops)?;
    let made = family_at(alloc, ops, row, 2)?;
    Ok(is_at(alloc, ops, made, row, 2)? && full == (part(row, 3) == "full"))
}

// Takes values alone that may go to another thread.
fn may_go<T: Send>(_value: &T) {}

// The family of a row, got by a seat that was split off and that is joined again.
fn by_another_seat(
    alloc: Global,
    store: &NodeStore,
    ops: &mut Ops,
    row: &str,
) -> Result<NodeRef, Fail>
    requires own { ops.old.store ≡ store.now }
    requires share { 2 ≤ ops.old.share }
    ensures { IfOk result (λ r. Knows (map_of ops.new) r) }
{
    let seat = ops.split(1);
    let mut other = ops_on(alloc, store, seat)?;
    may_go(&other);
    let made = family_at(alloc, &mut other, row, 2)?;
    ops.join(other.into_seat());
    Ok(made)
}

/// Whether a seat that was joined brought the family of a row, and it is what is made here.
pub(crate) fn is_brought(
    alloc: Global,
    store: &NodeStore,
    ops: &mut Ops,
    row: &str,
) -> Result<bool, Fail>
    requires own { ops.old.store ≡ store.now }
    requires share { 2 ≤ ops.old.share }
{
    let made = by_another_seat(alloc, store, ops, row)?;
    Ok(is_at(alloc, ops, made, row, 2)? && family_at(alloc, ops, row, 2)? == made)
}

/// Whether the sets of one unit each have the references of the example, and their union is the node of both.
pub(crate) fn is_as_in_the_example(alloc: Global, ops: &mut Ops, row: &str) -> Result<bool, Fail> {
    let first = single(ops, unit(1)?)?.number();
    let second = single(ops, unit(2)?)?.number();
    let union = family_at(alloc, ops, row, 2)?;
    if union.number() < 2 {
        return Ok(false);
    }
    let parts = ops.parts(union);
    let node = parts.level.number() == 1 && parts.lo.number() == 133 && parts.hi == NodeRef::UNIT;
    Ok(first == 384 && second == 133 && node)
}

//! Memories, and the calls that make families in them. What the library wants of its arguments is tested before each
//! call.
ghost use Rattle.std.specs.Prelude.{◌≡◌, true, All};
ghost use Rattle.family_memory.specs.Memory.{Has};

use family_memory::{FamilyMemory, Room, Spent};
use many_families::{
    product_by_splitting, product_in_order, product_of_all, union_in_order, union_of_all,
    votes_of_all,
};
use minimal_operations::{product, single, union, without};
use std::alloc::Global;
use std::test::Fail;
use unit_sets::UnitNo;
use zdd_words::NodeRef;

/// A memory with room for so many nodes and answers.
pub(crate) fn memory_of(alloc: Global, nodes: usize, answers: usize) -> Result<FamilyMemory, Fail> {
    let nodes = nodes.min(65_536);
    let room = Room {
        nodes,
        slots: nodes * 2,
        answers,
    };
    Ok(FamilyMemory::new(alloc, room)?)
}

/// An operation on two families.
#[derive(Clone, Copy)]
pub(crate) enum Two {
    Union,
    Product,
    ProductBySplitting,
    Without,
}

/// An operation on a list of families.
#[derive(Clone, Copy)]
pub(crate) enum Many {
    Union,
    UnionInOrder,
    Product,
    ProductInOrder,
    Votes(usize),
}

/// Why there is no family: no room, or no such reference or unit.
#[derive(Debug, Clone, Copy)]
pub(crate) enum End {
    Spent,
    Absent,
}

/// Whether a memory has a reference.
pub(crate) fn has(memory: &FamilyMemory, r: NodeRef) -> bool
    ensures { result ≡ true → Has memory.now r }
{
    let nodes = memory.count();
    let number = r.number() as usize;
    number < 2 || number - 2 < nodes
}

fn has_all(memory: &FamilyMemory, list: &[NodeRef]) -> bool
    ensures { result ≡ true → All (Has memory.now) list.now }
{
    for r in list {
        if !has(memory, *r) {
            return false;
        }
    }
    true
}

fn ended(made: Result<NodeRef, Spent>) -> Result<NodeRef, End> {
    match made {
        Ok(r) => Ok(r),
        Err(Spent) => Err(End::Spent),
    }
}

/// What an operation makes of two families.
pub(crate) fn both(
    memory: &mut FamilyMemory,
    call: Two,
    a: NodeRef,
    b: NodeRef,
) -> Result<NodeRef, End> {
    if !has(memory, a) || !has(memory, b) {
        return Err(End::Absent);
    }
    let made = match call {
        Two::Union => union(memory, a, b),
        Two::Product => product(memory, a, b),
        Two::ProductBySplitting => product_by_splitting(memory, a, b),
        Two::Without => without(memory, a, b),
    };
    ended(made)
}

/// What an operation makes of a list of families, with a table as long.
pub(crate) fn all_of(
    memory: &mut FamilyMemory,
    call: Many,
    list: &[NodeRef],
    table: &mut [NodeRef],
) -> Result<NodeRef, End> {
    if !has_all(memory, list) || table.len() < list.len() {
        return Err(End::Absent);
    }
    let made = match call {
        Many::Union => union_of_all(memory, list),
        Many::UnionInOrder => union_in_order(memory, list, table),
        Many::Product => product_of_all(memory, list),
        Many::ProductInOrder => product_in_order(memory, list, table),
        Many::Votes(votes) => votes_of_all(memory, votes, list, table),
    };
    ended(made)
}

/// The family of one set of one unit.
pub(crate) fn one(memory: &mut FamilyMemory, number: u16) -> Result<NodeRef, End> {
    match UnitNo::new(number) {
        Some(unit) => ended(single(memory, unit)),
        None => Err(End::Absent),
    }
}

/// The family of two sets of one unit each.
pub(crate) fn either(memory: &mut FamilyMemory, first: u16, second: u16) -> Result<NodeRef, End> {
    let a = one(memory, first)?;
    let b = one(memory, second)?;
    both(memory, Two::Union, a, b)
}

//! Families that go out of a memory into a store, and from there into another memory.
ghost use Rattle.std.specs.Prelude.{IfOk};
ghost use Rattle.zdd_families.specs.Map.{Knows};
ghost use Rattle.zdd_shared_table.specs.Seats.{map_of};

use crate::families::{has, memory_of};
use family_copies::{Copies, export, import};
use family_memory::FamilyMemory;
use std::alloc::Global;
use std::test::Fail;
use worked_families::spelled;
use zdd_product::Ops;
use zdd_words::NodeRef;

/// For how many nodes two notes and the second memory have room.
#[derive(Clone, Copy)]
pub(crate) struct Sizes {
    pub(crate) few: usize,
    pub(crate) notes: usize,
    pub(crate) nodes: usize,
}

/// What a case is made of: two memories, and notes for the copies that go out and for those that come in.
#[derive(Drop)]
pub(crate) struct Bench {
    pub(crate) few: Copies,
    pub(crate) notes: Copies,
    pub(crate) here: FamilyMemory,
    pub(crate) there: FamilyMemory,
}

/// Notes and memories of these sizes.
pub(crate) fn bench_of(alloc: Global, sizes: Sizes) -> Result<Bench, Fail> {
    let few = Copies::new(alloc, sizes.few)?;
    let notes = Copies::new(alloc, sizes.notes)?;
    let there = memory_of(alloc, sizes.nodes, 1_024)?;
    let here = memory_of(alloc, 65_536, 1_024)?;
    Ok(Bench {
        few,
        notes,
        here,
        there,
    })
}

/// What a family of a memory is in a store.
pub(crate) fn put_out(
    memory: &FamilyMemory,
    notes: &mut Copies,
    ops: &mut Ops,
    own: NodeRef,
) -> Result<NodeRef, Fail>
    ensures { IfOk result (λ r. Knows (map_of ops.new) r) }
{
    if !has(memory, own) {
        return Err("no such reference".into());
    }
    notes.forget();
    Ok(export(memory, notes, ops, own)?)
}

/// The sets of a family of a memory, by way of a store.
pub(crate) fn listed(
    alloc: Global,
    memory: &FamilyMemory,
    notes: &mut Copies,
    ops: &mut Ops,
    own: NodeRef,
) -> Result<Vec<u16>, Fail> {
    let shared = put_out(memory, notes, ops, own)?;
    spelled(alloc, ops, shared)
}

/// What a family is in a store, and its copy in a second memory, if that had room for it.
#[derive(Clone, Copy)]
pub(crate) struct Copied {
    pub(crate) shared: NodeRef,
    pub(crate) copy: Option<NodeRef>,
}

/// A family of a memory that goes by a store into another memory.
pub(crate) fn sent(
    here: &FamilyMemory,
    few: &mut Copies,
    own: NodeRef,
    ops: &mut Ops,
    there: &mut FamilyMemory,
    notes: &mut Copies,
) -> Result<Copied, Fail>
    ensures { IfOk result (λ sent. Knows (map_of ops.new) sent.shared) }
{
    if !has(here, own) {
        return Err("no such reference".into());
    }
    here.is_sound();
    few.forget();
    notes.forget();
    let shared = export(here, few, ops, own)?;
    let copy = match import(there, notes, ops, shared) {
        Ok(copy) => Some(copy),
        Err(_) => None,
    };
    Ok(Copied { shared, copy })
}

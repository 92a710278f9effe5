//! The cut family of a node, and what sets it has.
ghost use Rattle.std.specs.Prelude.{IfOk, IfSome};
ghost use Rattle.fault_definitions.specs.CutFamily.{IsCutFamily};
ghost use Rattle.fault_definitions.specs.Tree.{IsNodeOf};
ghost use Rattle.family_memory.specs.Memory.{Gave, Has, Went};

use family_memory::FamilyMemory;
use fault_model::{NodeNo, Tree};
use minimal_nodes::cut_family;
use std::alloc::Global;
use std::test::Fail;
use unit_sets::{CutList, UnitNo};
use zdd_words::NodeRef;

/// How deep a tree may be.
pub(crate) const DEPTH: u32 = 16;

/// The cut family of a node, from those of all that it reads, each made again: none, where the room is used up or the
/// tree is deeper.
pub(crate) fn family_of(
    alloc: Global,
    memory: &mut FamilyMemory,
    tree: &Tree,
    node: NodeNo,
    depth: u32,
) -> Result<Option<NodeRef>, Fail>
    requires { IsNodeOf tree.now node }
    ensures gives { IfOk result (λ found. IfSome found (Gave (IsCutFamily tree.now node) memory.old memory.new)) }
    ensures went { Went memory.old memory.new }
{
    memory.is_sound();
    if depth == 0 {
        return Ok(None);
    }
    // Tells the proof what a tree keeps.
    tree.units();
    let nodes = tree.below(node);
    let mut list = Vec::new(alloc);
    for i in 0..nodes.len() {
        let Some(one) = family_of(alloc, memory, tree, nodes[i], depth - 1)? else {
            return Ok(None);
        };
        list.push(one)?;
    }
    let mut table = vec![in alloc; NodeRef::EMPTY; nodes.len()]?;
    match cut_family(memory, tree, node, list.as_slice(), table.as_mut_slice()) {
        Ok(family) => Ok(Some(family)),
        Err(_) => Ok(None),
    }
}

// Whether a family has the set of the units from a place on.
fn has_set(memory: &FamilyMemory, r: NodeRef, set: &[UnitNo], at: usize) -> bool
    requires { Has memory.now r }
{
    if r.number() < 2 {
        return r == NodeRef::UNIT && at >= set.len();
    }
    let parts = memory.parts(r);
    if at >= set.len() {
        return has_set(memory, parts.lo, set, at);
    }
    if parts.level.number() < set[at].number() {
        return has_set(memory, parts.lo, set, at);
    }
    if parts.level == set[at] {
        return has_set(memory, parts.hi, set, at + 1);
    }
    false
}

fn set_count(memory: &FamilyMemory, r: NodeRef) -> usize
    requires { Has memory.now r }
{
    if r.number() < 2 {
        return r.number() as usize;
    }
    let parts = memory.parts(r);
    set_count(memory, parts.lo).saturating_add(set_count(memory, parts.hi))
}

/// Whether a family has the sets of a list, and no others.
pub(crate) fn has_sets(memory: &FamilyMemory, r: NodeRef, cuts: &CutList) -> bool
    requires { Has memory.now r }
{
    for i in 0..cuts.len() {
        if !has_set(memory, r, cuts.members(i), 0) {
            return false;
        }
    }
    set_count(memory, r) == cuts.len()
}

//! A room that is too small for a gate.
ghost use Rattle.std.specs.Prelude.{IfOk};
ghost use Rattle.family_memory.specs.Memory.{Went};

use crate::families::memory_of;
use crate::minimal_nodes_tests::families::{DEPTH, family_of, has_sets};
use cutset_lists::mcs_by_lists;
use family_memory::FamilyMemory;
use fault_model::Tree;
use std::alloc::Global;
use std::test::Fail;
use unit_sets::CutList;
use worked_trees::tree_of;

// Whether the top event of a text uses up the room.
fn spends(alloc: Global, memory: &mut FamilyMemory, text: &[u8]) -> Result<bool, Fail>
    ensures { IfOk result (λ _. Went memory.old memory.new) }
{
    memory.is_sound();
    let tree = tree_of(alloc, text)?;
    Ok(family_of(alloc, memory, &tree, tree.top(), DEPTH)?.is_none())
}

// Whether the cut family of a tree has these sets after that of a text used up the room.
fn stands_in(
    alloc: Global,
    memory: &mut FamilyMemory,
    tree: &Tree,
    cuts: &CutList,
    more: &[u8],
) -> Result<bool, Fail> {
    memory.is_sound();
    let Some(family) = family_of(alloc, memory, tree, tree.top(), DEPTH)? else {
        return Ok(false);
    };
    if !spends(alloc, memory, more)? {
        return Err("the room was enough".into());
    }
    Ok(has_sets(memory, family, cuts))
}

fn stands_beside(alloc: Global, tree: &Tree, more: &[u8]) -> Result<bool, Fail> {
    let cuts = mcs_by_lists(alloc, tree)?;
    let mut memory = memory_of(alloc, 16, 4_096)?;
    stands_in(alloc, &mut memory, tree, &cuts, more)
}

// Whether the cut family of one text stands after that of another used up the room.
fn stands(alloc: Global, text: &[u8], more: &[u8]) -> Result<bool, Fail> {
    let tree = tree_of(alloc, text)?;
    stands_beside(alloc, &tree, more)
}

#[test]
fn what_stood_stands_where_the_room_is_used_up(rt: HostRuntime) -> Result<(), Fail> {
    let text = b"toplevel T; T 2of3 A B C; A; B; C;";
    let more = b"toplevel T; T 4of8 A B C D E F G H; A; B; C; D; E; F; G; H;";
    assert!(rt; stands(rt.alloc(), text, more)?);
    Ok(())
}

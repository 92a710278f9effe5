//! Families of a memory, copied into the store.
ghost use Rattle.std.specs.Prelude.{◌≡◌, ◌≤◌, IfErr, IfOk, MatchResult};
ghost use Rattle.zdd_families.specs.Map.{Knows, family};
ghost use Rattle.zdd_families.specs.Nodes.{IsReached};
ghost use Rattle.family_memory.specs.Memory.{Has, family_in};
ghost use Rattle.zdd_shared_table.specs.Seats.{map_of};
ghost use Rattle.zdd_product.specs.Seats.{Gave, IsBranch, WasFull};
ghost use Rattle.family_copies.specs.Copies.{AreCopies};
ghost use Rattle.family_copies.specs.Parts.{CanMake};

use crate::copies::Copies;
use family_memory::FamilyMemory;
use unit_sets::UnitNo;
use zdd_product::Ops;
use zdd_shared_table::Full;
use zdd_words::NodeRef;

/// A reference of the store for the family of a reference of the memory. What the store is asked for are parts of
/// that family alone.
pub fn export(
    memory: &FamilyMemory,
    copies: &mut Copies,
    ops: &mut Ops,
    r: NodeRef,
) -> Result<NodeRef, Full>
    requires has { Has memory.now r }
    requires copies { AreCopies memory.now (map_of ops.old) copies.old }
    ensures gives { IfOk result (Gave (λ f. f ≡ family_in memory.now r) (IsReached (family_in memory.now r)) ops.old
        ops.new) }
    ensures full { IfErr result (λ _. WasFull (IsReached (family_in memory.now r)) ops.old ops.new) }
    ensures copies { AreCopies memory.now (map_of ops.new) copies.new }
{
    let shared = send(memory, copies, ops, r)?;
    copies.enter(r);
    Ok(shared)
}

// The same. A node that was copied before is not copied again.
#[cycle(send)]
fn send(
    memory: &FamilyMemory,
    copies: &mut Copies,
    ops: &mut Ops,
    r: NodeRef,
) -> Result<NodeRef, Full>
    requires has { Has memory.now r }
    requires copies { AreCopies memory.now (map_of ops.old) copies.old }
    ensures answer { MatchResult result (Gave (λ f. f ≡ family_in memory.now r) (IsReached (family_in memory.now r))
        ops.old ops.new) (λ _. WasFull (IsReached (family_in memory.now r)) ops.old ops.new) }
    ensures copies { AreCopies memory.now (map_of ops.new) copies.new }
{
    memory.is_sound();
    ops.is_sound();
    if r.number() < 2 {
        return Ok(r);
    }
    let noted = copies.shared_of(r);
    if noted != NodeRef::EMPTY {
        return Ok(noted);
    }
    let shared = send_node(memory, copies, ops, r)?;
    copies.note(shared, r);
    Ok(shared)
}

// The same of a node, by its parts.
#[cycle(send)]
fn send_node(
    memory: &FamilyMemory,
    copies: &mut Copies,
    ops: &mut Ops,
    r: NodeRef,
) -> Result<NodeRef, Full>
    requires has { Has memory.now r }
    requires inner { 2 ≤ r }
    requires copies { AreCopies memory.now (map_of ops.old) copies.old }
    ensures answer { MatchResult result (Gave (λ f. f ≡ family_in memory.now r) (IsReached (family_in memory.now r))
        ops.old ops.new) (λ _. WasFull (IsReached (family_in memory.now r)) ops.old ops.new) }
    ensures copies { AreCopies memory.now (map_of ops.new) copies.new }
{
    memory.is_sound();
    ops.is_sound();
    let parts = memory.parts(r);
    let lo = send(memory, copies, ops, parts.lo)?;
    let hi = send(memory, copies, ops, parts.hi)?;
    shared_node(ops, parts.level, lo, hi)
}

// The store's node of a level and two of its references.
fn shared_node(ops: &mut Ops, level: UnitNo, lo: NodeRef, hi: NodeRef) -> Result<NodeRef, Full>
    requires { CanMake (Knows (map_of ops.old)) (family (map_of ops.old)) level lo hi }
    ensures { let made = IsBranch level (family (map_of ops.old) lo) (family (map_of ops.old) hi) in
        MatchResult result (Gave made made ops.old ops.new) (λ _. WasFull made ops.old ops.new) }
{
    ops.is_sound();
    // Tells the proof that the references fit into a word.
    lo.number();
    hi.number();
    ops.node(level, lo, hi)
}

//! Families of the store, copied into a memory.
ghost use Rattle.std.specs.Prelude.{◌≡◌, ◌≤◌, IfErr, IfOk, MatchResult};
ghost use Rattle.zdd_families.specs.Family.{branch};
ghost use Rattle.zdd_families.specs.Map.{Knows, family};
ghost use Rattle.zdd_families.specs.Antichains.{IsAntichain};
ghost use Rattle.family_memory.specs.Memory.{Gave, Has, RanOut, family_in};
ghost use Rattle.zdd_shared_table.specs.Seats.{map_of};
ghost use Rattle.family_copies.specs.Copies.{AreCopies};
ghost use Rattle.family_copies.specs.Parts.{ArePartsOf, CanMake};

use crate::copies::Copies;
use family_memory::{FamilyMemory, Spent};
use unit_sets::UnitNo;
use zdd_product::Ops;
use zdd_words::{NodeRef, Parts};

/// A reference of the memory for the family of a reference of the store.
pub fn import(
    memory: &mut FamilyMemory,
    copies: &mut Copies,
    ops: &mut Ops,
    r: NodeRef,
) -> Result<NodeRef, Spent>
    requires knows { Knows (map_of ops.old) r }
    requires antichain { IsAntichain (family (map_of ops.old) r) }
    requires copies { AreCopies memory.old (map_of ops.old) copies.old }
    ensures gives { IfOk result (Gave (λ f. f ≡ family (map_of ops.old) r) memory.old memory.new) }
    ensures spent { IfErr result (λ _. RanOut memory.old memory.new) }
    ensures copies { AreCopies memory.new (map_of ops.new) copies.new }
    ensures seat { ops.new ≡ ops.old }
{
    bring(memory, copies, ops, r)
}

// The same. A node that was copied before is not copied again.
#[cycle(bring)]
fn bring(
    memory: &mut FamilyMemory,
    copies: &mut Copies,
    ops: &mut Ops,
    r: NodeRef,
) -> Result<NodeRef, Spent>
    requires knows { Knows (map_of ops.old) r }
    requires antichain { IsAntichain (family (map_of ops.old) r) }
    requires copies { AreCopies memory.old (map_of ops.old) copies.old }
    ensures answer { MatchResult result (Gave (λ f. f ≡ family (map_of ops.old) r) memory.old memory.new)
        (λ _. RanOut memory.old memory.new) }
    ensures copies { AreCopies memory.new (map_of ops.old) copies.new }
    ensures seat { ops.new ≡ ops.old }
{
    memory.is_sound();
    ops.is_sound();
    if r.number() < 2 {
        return Ok(r);
    }
    if let Some(own) = copies.own_of(r) {
        return Ok(own);
    }
    let own = bring_node(memory, copies, ops, r)?;
    copies.note(r, own);
    copies.enter(own);
    Ok(own)
}

// The same of a node, by its parts.
#[cycle(bring)]
fn bring_node(
    memory: &mut FamilyMemory,
    copies: &mut Copies,
    ops: &mut Ops,
    r: NodeRef,
) -> Result<NodeRef, Spent>
    requires knows { Knows (map_of ops.old) r }
    requires inner { 2 ≤ r }
    requires antichain { IsAntichain (family (map_of ops.old) r) }
    requires copies { AreCopies memory.old (map_of ops.old) copies.old }
    ensures answer { MatchResult result (Gave (λ f. f ≡ family (map_of ops.old) r) memory.old memory.new)
        (λ _. RanOut memory.old memory.new) }
    ensures copies { AreCopies memory.new (map_of ops.old) copies.new }
    ensures seat { ops.new ≡ ops.old }
{
    memory.is_sound();
    ops.is_sound();
    let parts = parts_of(ops, r);
    let lo = bring(memory, copies, ops, parts.lo)?;
    let hi = bring(memory, copies, ops, parts.hi)?;
    own_node(memory, parts.level, lo, hi)
}

// What the node of a reference of the store is.
fn parts_of(ops: &mut Ops, r: NodeRef) -> Parts
    requires knows { Knows (map_of ops.old) r }
    requires inner { 2 ≤ r }
    ensures parts { ArePartsOf (map_of ops.old) r result }
    ensures seat { ops.new ≡ ops.old }
{
    let parts = ops.parts(r);
    // Tells the proof that the level is a unit's number.
    parts.level.number();
    parts
}

// The memory's node of a level and two of its references.
fn own_node(
    memory: &mut FamilyMemory,
    level: UnitNo,
    lo: NodeRef,
    hi: NodeRef,
) -> Result<NodeRef, Spent>
    requires can_make { CanMake (Has memory.old) (family_in memory.old) level lo hi }
    requires antichain { IsAntichain (branch level (family_in memory.old lo) (family_in memory.old hi)) }
    ensures { MatchResult result (Gave (λ f. f ≡ branch level (family_in memory.old lo) (family_in memory.old hi))
        memory.old memory.new) (λ _. RanOut memory.old memory.new) }
{
    memory.is_sound();
    memory.node(level, lo, hi)
}

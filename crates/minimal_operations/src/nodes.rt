//! Nodes of which a part may be empty, or has sets to be taken out.
ghost use Rattle.std.specs.Prelude.{◌≡◌, ◌≤◌, [], ◌∷◌, IfErr, IfOk, MatchResult};
ghost use Rattle.zdd_families.specs.Family.{IsAbove, branch};
ghost use Rattle.zdd_families.specs.Antichains.{IsAntichain};
ghost use Rattle.family_memory.specs.Memory.{Gave, Has, RanOut, family_in};
ghost use Rattle.minimal_operations.specs.Operands.{Answers};
ghost use Rattle.minimal_operations.specs.Rests.{CanBranch, CanRid, IsRidBranch};

use crate::withouts::without;
use family_memory::{FamilyMemory, Spent};
use unit_sets::UnitNo;
use zdd_words::NodeRef;

/// The family of one set, which has one unit.
pub fn single(memory: &mut FamilyMemory, unit: UnitNo) -> Result<NodeRef, Spent>
    ensures gives { IfOk result (Gave (λ f. f ≡ (unit ∷ []) ∷ []) memory.old memory.new) }
    ensures spent { IfErr result (λ _. RanOut memory.old memory.new) }
{
    memory.is_sound();
    branch_node(memory, unit, NodeRef::EMPTY, NodeRef::UNIT)
}

/// Whether a node stands for one set of one unit.
pub(crate) fn is_single(memory: &FamilyMemory, r: NodeRef) -> bool
    requires has { Has memory.now r }
    requires inner { 2 ≤ r }
{
    let parts = memory.parts(r);
    parts.lo.number() == 0 && parts.hi.number() == 1
}

/// The node of a level below all units of two families: the sets of the one, and with the level those of the other that
/// include none of them.
pub fn rid_node(
    memory: &mut FamilyMemory,
    level: UnitNo,
    lo: NodeRef,
    all: NodeRef,
) -> Result<NodeRef, Spent>
    requires has_lo { Has memory.old lo }
    requires has_all { Has memory.old all }
    requires lo_above { IsAbove level (family_in memory.old lo) }
    requires all_above { IsAbove level (family_in memory.old all) }
    ensures gives { IfOk result (Gave (IsRidBranch level (family_in memory.old lo) (family_in memory.old all))
        memory.old memory.new) }
    ensures spent { IfErr result (λ _. RanOut memory.old memory.new) }
{
    memory.is_sound();
    make_rid(memory, level, lo, all, lo)
}

/// The node of a level below all units of lo and hi, or lo where hi has no sets.
pub fn branch_node(
    memory: &mut FamilyMemory,
    level: UnitNo,
    lo: NodeRef,
    hi: NodeRef,
) -> Result<NodeRef, Spent>
    requires has_lo { Has memory.old lo }
    requires has_hi { Has memory.old hi }
    requires lo_above { IsAbove level (family_in memory.old lo) }
    requires hi_above { IsAbove level (family_in memory.old hi) }
    requires antichain { IsAntichain (branch level (family_in memory.old lo) (family_in memory.old hi)) }
    ensures { MatchResult result (Gave (λ f. f ≡ branch level (family_in memory.old lo) (family_in memory.old hi))
        memory.old memory.new) (λ _. RanOut memory.old memory.new) }
{
    memory.is_sound();
    if hi.number() == 0 {
        return Ok(lo);
    }
    memory.node(level, lo, hi)
}

/// The same, where a node that is known may be that one: then it isn't looked for.
pub(crate) fn make_or_known(
    memory: &mut FamilyMemory,
    known: NodeRef,
    level: UnitNo,
    lo: NodeRef,
    hi: NodeRef,
) -> Result<NodeRef, Spent>
    requires has_known { Has memory.old known }
    requires inner { 2 ≤ known }
    requires node { CanBranch memory.old level lo hi }
    ensures { Answers (λ f. f ≡ branch level (family_in memory.old lo) (family_in memory.old hi)) memory.old memory.new
        result }
{
    let parts = memory.parts(known);
    if parts.level == level && parts.lo == lo && parts.hi == hi {
        return Ok(known);
    }
    branch_node(memory, level, lo, hi)
}

/// The node of lo and of what is left of all others without lo. Another family that says the same of these
/// serves in place of lo.
pub(crate) fn make_rid(
    memory: &mut FamilyMemory,
    level: UnitNo,
    lo: NodeRef,
    all: NodeRef,
    other: NodeRef,
) -> Result<NodeRef, Spent>
    requires { CanRid memory.old level lo all other }
    ensures { Answers (IsRidBranch level (family_in memory.old lo) (family_in memory.old all)) memory.old memory.new
        result }
{
    let hi = without(memory, all, other)?;
    branch_node(memory, level, lo, hi)
}

//! The minimal family of a gate or a unit, from those of what it reads.
ghost use Rattle.std.specs.Prelude.{◌≤◌, ◌||◌, All, IfErr, IfOk, length};
ghost use Rattle.std.specs.List.{list_any};
ghost use Rattle.family_memory.specs.Memory.{Gave, Has, RanOut};
ghost use Rattle.unit_sets.specs.UnitList.{some_within};
ghost use Rattle.many_families.specs.Lists.{families};
ghost use Rattle.zdd_families.specs.Least.{IsLeastFor};
ghost use Rattle.minimal_nodes.specs.Gates.{IsLeastOfGate};
ghost use Rattle.tree_families.specs.Recipe.{alone};

use family_memory::{FamilyMemory, Spent};
use fault_model::GateKind;
use many_families::{first_of, product_in_order, union_in_order, union_of_all, votes_of_all};
use minimal_operations::{single, union};
use unit_sets::UnitNo;
use zdd_words::NodeRef;

// A gate of a kind. An `fdep` counts as a gate that never fails.
pub(crate) fn make_gate(
    memory: &mut FamilyMemory,
    kind: GateKind,
    inputs: &[NodeRef],
    table: &mut [NodeRef],
) -> Result<NodeRef, Spent>
    requires table { length inputs.now ≤ length table.old }
    requires has { All (Has memory.old) inputs.now }
    ensures gives { IfOk result (Gave (IsLeastOfGate kind (families memory.old inputs.now)) memory.old memory.new) }
    ensures spent { IfErr result (λ _. RanOut memory.old memory.new) }
{
    memory.is_sound();
    match kind {
        GateKind::Or => union_in_order(memory, inputs, table),
        GateKind::Por => Ok(first_of(inputs)),
        GateKind::Fdep => Ok(NodeRef::EMPTY),
        GateKind::Votes(least, _) => votes_of_all(memory, least as usize, inputs, table),
        GateKind::And
        | GateKind::Pand
        | GateKind::Seq
        | GateKind::Csp
        | GateKind::Wsp
        | GateKind::Hsp => product_in_order(memory, inputs, table),
    }
}

// A unit: the set of the unit alone, or a set of a trigger.
pub(crate) fn make_unit(
    memory: &mut FamilyMemory,
    unit: UnitNo,
    triggers: &[NodeRef],
) -> Result<NodeRef, Spent>
    requires { All (Has memory.old) triggers.now }
    ensures gives { IfOk result (Gave (IsLeastFor
        (λ within. some_within (alone unit) within || list_any (λ family. some_within family within)
        (families memory.old triggers.now))) memory.old memory.new) }
    ensures spent { IfErr result (λ _. RanOut memory.old memory.new) }
{
    memory.is_sound();
    let others = union_of_all(memory, triggers)?;
    let own = single(memory, unit)?;
    union(memory, own, others)
}

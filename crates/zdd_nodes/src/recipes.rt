//! The recipes of gates and units, over the references of what they read.
ghost use Rattle.std.specs.Prelude.{◌≡◌, ◌≤◌, All, MatchResult, length};
ghost use Rattle.tree_families.specs.Due.{IsDueToProducts, IsDueToRecipe, IsDueToUnions};
ghost use Rattle.tree_families.specs.Recipe.{IsMadeBy, IsProductOfAll, IsUnionOfAll, alone, gate_recipe};
ghost use Rattle.zdd_families.specs.Map.{Knows, family};
ghost use Rattle.zdd_shared_table.specs.Seats.{map_of};
ghost use Rattle.zdd_product.specs.Seats.{Gave, WasFull};
ghost use Rattle.zdd_product.specs.Voting.{families};
ghost use Rattle.zdd_nodes.specs.Reading.{CanVote};
ghost use Rattle.zdd_nodes.specs.Steps.{IsDueToUnit};

use crate::steps::{multiply_least, single};
use fault_model::GateKind;
use unit_sets::UnitNo;
use zdd_product::Ops;
use zdd_shared_table::Full;
use zdd_words::NodeRef;

// The first family united with the others, from left to right.
fn unite_all(ops: &mut Ops, first: NodeRef, others: &[NodeRef]) -> Result<NodeRef, Full>
    requires first { Knows (map_of ops.old) first }
    requires others { All (Knows (map_of ops.old)) others.now }
    ensures { let f = family (map_of ops.old) first in let fs = families (map_of ops.old) others.now in
        MatchResult result (Gave (IsUnionOfAll f fs) (IsDueToUnions f fs) ops.old ops.new)
        (λ _. WasFull (IsDueToUnions f fs) ops.old ops.new) }
{
    ops.is_sound();
    let mut made = first;
    for i in 0..others.len() {
        made = ops.union(made, others[i])?;
    }
    Ok(made)
}

/// The first family multiplied with the others, from left to right, each product with its minimal sets alone.
pub fn multiply_all(ops: &mut Ops, first: NodeRef, others: &[NodeRef]) -> Result<NodeRef, Full>
    requires first { Knows (map_of ops.old) first }
    requires others { All (Knows (map_of ops.old)) others.now }
    ensures { let f = family (map_of ops.old) first in let fs = families (map_of ops.old) others.now in
        MatchResult result (Gave (IsProductOfAll f fs) (IsDueToProducts f fs) ops.old ops.new)
        (λ _. WasFull (IsDueToProducts f fs) ops.old ops.new) }
{
    ops.is_sound();
    let mut made = first;
    for i in 0..others.len() {
        made = multiply_least(ops, made, others[i])?;
    }
    Ok(made)
}

// The family of the unit alone, united with its triggers' families.
pub(crate) fn make_unit(ops: &mut Ops, unit: UnitNo, triggers: &[NodeRef]) -> Result<NodeRef, Full>
    requires { All (Knows (map_of ops.old)) triggers.now }
    ensures { let fs = families (map_of ops.old) triggers.now in
        MatchResult result (Gave (IsUnionOfAll (alone unit) fs) (IsDueToUnit unit fs) ops.old ops.new)
        (λ _. WasFull (IsDueToUnit unit fs) ops.old ops.new) }
{
    ops.is_sound();
    let own = single(ops, unit)?;
    unite_all(ops, own, triggers)
}

/// What a gate of a kind makes of the families of its inputs. An `fdep` counts as a gate that never fails. What the
/// room, which is for the votes, holds afterwards is left open.
pub fn make_gate(
    ops: &mut Ops,
    kind: GateKind,
    inputs: &[NodeRef],
    room: &mut [NodeRef],
) -> Result<NodeRef, Full>
    requires some { 1 ≤ length inputs.now }
    requires votes { CanVote kind (length room.old) }
    requires knows { All (Knows (map_of ops.old)) inputs.now }
    ensures { let recipe = gate_recipe kind (families (map_of ops.old) inputs.now) in
        MatchResult result (Gave (IsMadeBy recipe) (IsDueToRecipe recipe) ops.old ops.new)
        (λ _. WasFull (IsDueToRecipe recipe) ops.old ops.new) }
{
    ops.is_sound();
    match kind {
        GateKind::Or => unite_all(ops, inputs[0], &inputs[1..]),
        GateKind::Por => Ok(inputs[0]),
        GateKind::Fdep => Ok(NodeRef::EMPTY),
        GateKind::Votes(least, _) => ops.votes(least, inputs, room),
        GateKind::And
        | GateKind::Pand
        | GateKind::Seq
        | GateKind::Csp
        | GateKind::Wsp
        | GateKind::Hsp => { multiply_all(ops, inputs[0], &inputs[1..]) }
    }
}

//! The product of a family and one above all its units, from which nothing need be taken out.
ghost use Rattle.std.specs.Prelude.{◌≤◌, IfErr, IfOk};
ghost use Rattle.zdd_families.specs.Least.{IsLeastProduct};
ghost use Rattle.zdd_families.specs.Units.{LiesBelow};
ghost use Rattle.family_memory.specs.Memory.{Gave, Has, RanOut, family_in};
ghost use Rattle.minimal_operations.specs.Operands.{AnswersOf, HasNodes};

use crate::nodes::{branch_node, is_single};
use crate::products::product_end;
use family_memory::{FamilyMemory, Spent};
use kept_answers::{Entry, Operation, Question};
use zdd_words::NodeRef;

/// The minimal sets of the product, where the first family lies below the second. In time it is linear in the first
/// family's diagram, whose end the second takes. An end makes nothing.
#[cycle(product_below)]
pub fn product_below(memory: &mut FamilyMemory, a: NodeRef, b: NodeRef) -> Result<NodeRef, Spent>
    requires has_a { Has memory.old a }
    requires has_b { Has memory.old b }
    requires below { LiesBelow (family_in memory.old a) (family_in memory.old b) }
    ensures gives { IfOk result (Gave (IsLeastProduct (family_in memory.old a) (family_in memory.old b)) memory.old
        memory.new) }
    ensures spent { IfErr result (λ _. RanOut memory.old memory.new) }
{
    memory.is_sound();
    if let Some(end) = product_end(a, b) {
        return Ok(end);
    }
    // One node, which the index finds as soon as the kept answers would.
    if is_single(memory, a) {
        return multiply_parts(memory, a, b);
    }
    let question = Question {
        operation: Operation::Product,
        first: a,
        second: b,
    };
    if let Some(answer) = memory.recall(&question) {
        return Ok(answer);
    }
    let made = multiply_parts(memory, a, b)?;
    memory.remember(Entry {
        question,
        answer: made,
    });
    Ok(made)
}

// The same of nodes: no set with the first's level includes one without it, since none of the first family does.
#[cycle(product_below)]
fn multiply_parts(memory: &mut FamilyMemory, a: NodeRef, b: NodeRef) -> Result<NodeRef, Spent>
    requires nodes { HasNodes memory.old a b }
    requires below { LiesBelow (family_in memory.old a) (family_in memory.old b) }
    ensures { AnswersOf IsLeastProduct memory.old memory.new a b result }
{
    let one = memory.parts(a);
    let lo = product_below(memory, one.lo, b)?;
    let hi = product_below(memory, one.hi, b)?;
    branch_node(memory, one.level, lo, hi)
}

//! The minimal sets of a product.
ghost use Rattle.std.specs.Prelude.{◌≤◌, IfErr, IfOk, MatchOption};
ghost use Rattle.zdd_words.specs.declared.word.Parts.{Parts};
ghost use Rattle.zdd_families.specs.Least.{IsLeastProduct};
ghost use Rattle.zdd_families.specs.Steps.{IsLeastSides};
ghost use Rattle.family_memory.specs.Memory.{Gave, Has, RanOut, family_in};
ghost use Rattle.minimal_operations.specs.Operands.{Answers, AnswersOf, EndsAs, HasNodes, IsHigher, OfOneLevel};
ghost use Rattle.minimal_operations.specs.Halves.{ArePartsAbove};

use crate::nodes::make_rid;
use crate::unions::union;
use family_memory::{FamilyMemory, Spent};
use kept_answers::{Entry, Operation, Question};
use zdd_words::{NodeRef, Parts};

/// The product where it is known at once: 0 is the number of no sets, and 1 that of the empty set alone.
pub(crate) fn product_end(a: NodeRef, b: NodeRef) -> Option<NodeRef>
    ensures { MatchOption result ((2 ≤ a) × (2 ≤ b)) (EndsAs IsLeastProduct a b) }
{
    let first = a.number();
    let second = b.number();
    if first == 0 || second == 0 {
        return Some(NodeRef::EMPTY);
    }
    if first == 1 {
        return Some(b);
    }
    if second == 1 || first == second {
        return Some(a);
    }
    None
}

/// The minimal sets of the product, which has each union of a set of the one family and a set of the other. An end
/// makes nothing, and calls that end here are inlined.
#[inline(always)]
#[cycle(product)]
pub fn product(memory: &mut FamilyMemory, a: NodeRef, b: NodeRef) -> Result<NodeRef, Spent>
    requires has_a { Has memory.old a }
    requires has_b { Has memory.old b }
    ensures gives { IfOk result (Gave (IsLeastProduct (family_in memory.old a) (family_in memory.old b)) memory.old
        memory.new) }
    ensures spent { IfErr result (λ _. RanOut memory.old memory.new) }
{
    memory.is_sound();
    if let Some(end) = product_end(a, b) {
        return Ok(end);
    }
    let question = Question {
        operation: Operation::Product,
        first: a,
        second: b,
    };
    if let Some(answer) = memory.recall(&question) {
        return Ok(answer);
    }
    let made = multiply_levels(memory, a, b)?;
    memory.remember(Entry {
        question,
        answer: made,
    });
    Ok(made)
}

// The same of two nodes, by the order of their levels.
#[cycle(product)]
fn multiply_levels(memory: &mut FamilyMemory, a: NodeRef, b: NodeRef) -> Result<NodeRef, Spent>
    requires { HasNodes memory.old a b }
    ensures { AnswersOf IsLeastProduct memory.old memory.new a b result }
{
    let first = memory.level(a);
    let second = memory.level(b);
    if first < second {
        return multiply_above(memory, a, b);
    }
    if second < first {
        return multiply_above(memory, b, a);
    }
    multiply_both(memory, a, b)
}

// The same of two nodes of one level.
#[cycle(product)]
fn multiply_both(memory: &mut FamilyMemory, a: NodeRef, b: NodeRef) -> Result<NodeRef, Spent>
    requires { OfOneLevel memory.old a b }
    ensures { AnswersOf IsLeastProduct memory.old memory.new a b result }
{
    let one = memory.parts(a);
    let other = memory.parts(b);
    let lo = product(memory, one.lo, other.lo)?;
    let all = multiply_sides(memory, &one, &other)?;
    make_rid(memory, one.level, lo, all, lo)
}

// The sets that the level is added to: each part of either node may give one side.
#[cycle(product)]
fn multiply_sides(memory: &mut FamilyMemory, one: &Parts, other: &Parts) -> Result<NodeRef, Spent>
    requires first { ArePartsAbove memory.old one.now.level one.now }
    requires second { ArePartsAbove memory.old one.now.level other.now }
    ensures { Answers (IsLeastSides (family_in memory.old one.now.lo) (family_in memory.old one.now.hi)
        (family_in memory.old other.now.lo) (family_in memory.old other.now.hi)) memory.old memory.new result }
{
    let first = union(memory, one.lo, one.hi)?;
    let second = union(memory, other.lo, other.hi)?;
    product(memory, first, second)
}

// The same of a node and a family above its level: each set with the level includes one of the other family, so
// it need be rid of those that include one of the node's sets without the level alone.
#[cycle(product)]
fn multiply_above(memory: &mut FamilyMemory, a: NodeRef, b: NodeRef) -> Result<NodeRef, Spent>
    requires { IsHigher memory.old a b }
    ensures { AnswersOf IsLeastProduct memory.old memory.new a b result }
{
    let one = memory.parts(a);
    let lo = product(memory, one.lo, b)?;
    let all = product(memory, one.hi, b)?;
    make_rid(memory, one.level, lo, all, one.lo)
}

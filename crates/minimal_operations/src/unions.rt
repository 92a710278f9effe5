//! The minimal sets of a union.
ghost use Rattle.std.specs.Prelude.{◌≤◌, IfErr, IfOk, MatchOption};
ghost use Rattle.zdd_families.specs.Least.{IsLeastUnion};
ghost use Rattle.family_memory.specs.Memory.{Gave, Has, RanOut, family_in};
ghost use Rattle.minimal_operations.specs.Operands.{AnswersOf, EndsAs, HasNodes, IsHigher, OfOneLevel};

use crate::nodes::{is_single, make_rid};
use family_memory::{FamilyMemory, Spent};
use kept_answers::{Entry, Operation, Question};
use zdd_words::NodeRef;

// The union where it is known at once: 0 is the number of no sets, and 1 that of the empty set alone.
fn union_end(a: NodeRef, b: NodeRef) -> Option<NodeRef>
    ensures { MatchOption result ((2 ≤ a) × (2 ≤ b)) (EndsAs IsLeastUnion a b) }
{
    let first = a.number();
    let second = b.number();
    if first == 0 {
        return Some(b);
    }
    if second == 0 || first == second {
        return Some(a);
    }
    if first == 1 || second == 1 {
        return Some(NodeRef::UNIT);
    }
    None
}

/// The minimal sets of the union. An end makes nothing, and calls that end here are inlined.
#[inline(always)]
#[cycle(union)]
pub fn union(memory: &mut FamilyMemory, a: NodeRef, b: NodeRef) -> Result<NodeRef, Spent>
    requires has_a { Has memory.old a }
    requires has_b { Has memory.old b }
    ensures gives { IfOk result (Gave (IsLeastUnion (family_in memory.old a) (family_in memory.old b)) memory.old
        memory.new) }
    ensures spent { IfErr result (λ _. RanOut memory.old memory.new) }
{
    memory.is_sound();
    if let Some(end) = union_end(a, b) {
        return Ok(end);
    }
    // One set of one unit goes down the other family's lo sides alone to where it belongs: no answer serves twice.
    if is_single(memory, a) || is_single(memory, b) {
        return unite_levels(memory, a, b);
    }
    let question = Question {
        operation: Operation::Union,
        first: a,
        second: b,
    };
    if let Some(answer) = memory.recall(&question) {
        return Ok(answer);
    }
    let made = unite_levels(memory, a, b)?;
    memory.remember(Entry {
        question,
        answer: made,
    });
    Ok(made)
}

// The same of two nodes, by the order of their levels.
#[cycle(union)]
fn unite_levels(memory: &mut FamilyMemory, a: NodeRef, b: NodeRef) -> Result<NodeRef, Spent>
    requires { HasNodes memory.old a b }
    ensures { AnswersOf IsLeastUnion memory.old memory.new a b result }
{
    let first = memory.level(a);
    let second = memory.level(b);
    if first < second {
        return unite_above(memory, a, b);
    }
    if second < first {
        return unite_above(memory, b, a);
    }
    unite_both(memory, a, b)
}

// The same of two nodes of one level.
#[cycle(union)]
fn unite_both(memory: &mut FamilyMemory, a: NodeRef, b: NodeRef) -> Result<NodeRef, Spent>
    requires { OfOneLevel memory.old a b }
    ensures { AnswersOf IsLeastUnion memory.old memory.new a b result }
{
    let one = memory.parts(a);
    let other = memory.parts(b);
    let lo = union(memory, one.lo, other.lo)?;
    let all = union(memory, one.hi, other.hi)?;
    make_rid(memory, one.level, lo, all, lo)
}

// The same of a node and a family above its level: the sets with the level need be rid of those that include one
// of the other family alone.
#[cycle(union)]
fn unite_above(memory: &mut FamilyMemory, a: NodeRef, b: NodeRef) -> Result<NodeRef, Spent>
    requires { IsHigher memory.old a b }
    ensures { AnswersOf IsLeastUnion memory.old memory.new a b result }
{
    let one = memory.parts(a);
    let lo = union(memory, one.lo, b)?;
    make_rid(memory, one.level, lo, one.hi, b)
}

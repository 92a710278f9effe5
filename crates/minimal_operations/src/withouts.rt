//! What is left of a family without the sets that include one of another.
ghost use Rattle.std.specs.Prelude.{◌<◌, ◌≤◌, IfErr, IfOk, IfSome, MatchOption};
ghost use Rattle.zdd_families.specs.Map.{level_in};
ghost use Rattle.zdd_families.specs.Without.{IsWithout};
ghost use Rattle.family_memory.specs.Memory.{Gave, Has, RanOut, family_in, map_of};
ghost use Rattle.minimal_operations.specs.Operands.{AnswersOf, EndsAs, EndsIn, HasBoth, HasNodes, NoneLower};
ghost use Rattle.minimal_operations.specs.Rests.{Serves};

use crate::halves::half_at;
use crate::nodes::make_or_known;
use family_memory::{FamilyMemory, Spent};
use kept_answers::{Entry, Operation, Question};
use zdd_words::NodeRef;

// What is left where it is known at once: 0 is the number of no sets, and 1 that of the empty set alone.
fn without_end(a: NodeRef, b: NodeRef) -> Option<NodeRef>
    ensures { MatchOption result ((2 ≤ a) × (2 ≤ b)) (EndsAs IsWithout a b) }
{
    let first = a.number();
    let second = b.number();
    if first == 0 || second == 1 || first == second {
        return Some(NodeRef::EMPTY);
    }
    if second == 0 || first == 1 {
        return Some(a);
    }
    None
}

// What is left of one set of one unit where the other family has no lower unit: nothing, if it has that set.
fn single_end(memory: &FamilyMemory, a: NodeRef, b: NodeRef) -> Option<NodeRef>
    requires { NoneLower memory.now a b }
    ensures { IfSome result (EndsIn IsWithout memory.now a b) }
{
    let one = memory.parts(a);
    if one.lo.number() == 0 && one.hi.number() == 1 {
        let other = half_at(memory, one.level, b);
        if other.hi.number() == 1 {
            return Some(NodeRef::EMPTY);
        }
        return Some(a);
    }
    None
}

// The part of b that matters: a set of a includes no set with a unit below all of a's.
fn lowered(memory: &FamilyMemory, a: NodeRef, b: NodeRef) -> NodeRef
    requires { HasBoth memory.now a b }
    ensures serves { Serves memory.now a b result }
    ensures level { level_in (map_of memory.now) a ≤ level_in (map_of memory.now) result }
{
    let level = memory.level(a);
    let mut part = b;
    while memory.level(part) < level {
        part = nearer(memory, a, part);
    }
    part
}

// The same, nearer to it by a step: what is left beyond a block of units, or without the least unit alone where that
// goes too far.
#[inline(always)]
fn nearer(memory: &FamilyMemory, a: NodeRef, b: NodeRef) -> NodeRef
    requires has { HasBoth memory.now a b }
    requires lower { level_in (map_of memory.now) b < level_in (map_of memory.now) a }
    ensures serves { Serves memory.now a b result }
    ensures higher { level_in (map_of memory.now) b < level_in (map_of memory.now) result }
{
    let rest = memory.rest(b);
    if memory.level(rest) <= memory.level(a) {
        return rest;
    }
    memory.parts(b).lo
}

/// The sets of the first family that include none of the second. An end makes nothing. Most calls end at once, so they
/// are inlined.
#[inline(always)]
#[cycle(without)]
pub fn without(memory: &mut FamilyMemory, a: NodeRef, b: NodeRef) -> Result<NodeRef, Spent>
    requires has_a { Has memory.old a }
    requires has_b { Has memory.old b }
    ensures gives { IfOk result (Gave (IsWithout (family_in memory.old a) (family_in memory.old b)) memory.old
        memory.new) }
    ensures spent { IfErr result (λ _. RanOut memory.old memory.new) }
{
    memory.is_sound();
    if let Some(end) = without_end(a, b) {
        return Ok(end);
    }
    strip_lowered(memory, a, b)
}

// The same of two nodes, by the part of b that matters: as a rule b itself.
#[cycle(without)]
fn strip_lowered(memory: &mut FamilyMemory, a: NodeRef, b: NodeRef) -> Result<NodeRef, Spent>
    requires { HasNodes memory.old a b }
    ensures { AnswersOf IsWithout memory.old memory.new a b result }
{
    let mut part = b;
    if memory.level(b) < memory.level(a) {
        if memory.includes_none(a, b) {
            return Ok(a);
        }
        part = lowered(memory, a, b);
        if let Some(end) = without_end(a, part) {
            return Ok(end);
        }
    }
    strip_nodes(memory, a, part)
}

// The same of two nodes, where no unit of b is below all of a's. It is inlined in its one caller.
#[inline(always)]
#[cycle(without)]
fn strip_nodes(memory: &mut FamilyMemory, a: NodeRef, b: NodeRef) -> Result<NodeRef, Spent>
    requires { NoneLower memory.old a b }
    ensures { AnswersOf IsWithout memory.old memory.new a b result }
{
    if let Some(rest) = single_end(memory, a, b) {
        return Ok(rest);
    }
    if memory.includes_none(a, b) {
        return Ok(a);
    }
    let question = Question {
        operation: Operation::Without,
        first: a,
        second: b,
    };
    if let Some(answer) = memory.recall(&question) {
        return Ok(answer);
    }
    let left = strip_halves(memory, a, b)?;
    memory.remember(Entry {
        question,
        answer: left,
    });
    Ok(left)
}

// The same of a node, by its parts: what is left of the sets with its level includes no set of b, with the level or
// without it.
#[cycle(without)]
fn strip_halves(memory: &mut FamilyMemory, a: NodeRef, b: NodeRef) -> Result<NodeRef, Spent>
    requires { NoneLower memory.old a b }
    ensures { AnswersOf IsWithout memory.old memory.new a b result }
{
    let one = memory.parts(a);
    let other = half_at(memory, one.level, b);
    let lo = without(memory, one.lo, other.lo)?;
    let some = without(memory, one.hi, other.hi)?;
    let hi = without(memory, some, other.lo)?;
    // As a rule nothing is lost.
    make_or_known(memory, a, one.level, lo, hi)
}

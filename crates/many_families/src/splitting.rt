//! A product by splitting, for families that share units.
ghost use Rattle.std.specs.Prelude.{◌≡◌, true, IfErr, IfOk};
ghost use Rattle.zdd_families.specs.Least.{IsLeastProduct};
ghost use Rattle.zdd_families.specs.Units.{LiesBelow};
ghost use Rattle.family_memory.specs.Memory.{Gave, Has, RanOut, family_in};
ghost use Rattle.minimal_operations.specs.Operands.{AnswersOf, HasBoth};
ghost use Rattle.many_families.specs.Rests.{AreRests};

use family_memory::{FamilyMemory, Spent};
use minimal_operations::{product, product_below, union, without};
use zdd_words::NodeRef;

/// The minimal sets of the product. The sets of either family that include one of the other are taken first, and
/// only the rest is multiplied. Where one family lies below the other they share no unit, and nothing need be taken
/// out.
pub fn product_by_splitting(
    memory: &mut FamilyMemory,
    a: NodeRef,
    b: NodeRef,
) -> Result<NodeRef, Spent>
    requires has_a { Has memory.old a }
    requires has_b { Has memory.old b }
    ensures gives { IfOk result (Gave (IsLeastProduct (family_in memory.old a) (family_in memory.old b)) memory.old
        memory.new) }
    ensures spent { IfErr result (λ _. RanOut memory.old memory.new) }
{
    memory.is_sound();
    if lies_below(memory, a, b) {
        return product_below(memory, a, b);
    }
    if lies_below(memory, b, a) {
        return product_below(memory, b, a);
    }
    multiply_sharing(memory, a, b)
}

// Whether each unit of the first family is below all units of the second.
fn lies_below(memory: &FamilyMemory, a: NodeRef, b: NodeRef) -> bool
    requires { HasBoth memory.now a b }
    ensures { result ≡ true → LiesBelow (family_in memory.now a) (family_in memory.now b) }
{
    memory.last(a) < memory.level(b)
}

// The product where the families may share units. Where no set of either includes one of the other, nothing is split
// off, and the ends of the operations make nothing.
fn multiply_sharing(memory: &mut FamilyMemory, a: NodeRef, b: NodeRef) -> Result<NodeRef, Spent>
    requires { HasBoth memory.old a b }
    ensures { AnswersOf IsLeastProduct memory.old memory.new a b result }
{
    let rest = without(memory, a, b)?;
    let other = without(memory, b, a)?;
    multiply_rests(memory, a, b, rest, other)
}

// The product from what is left of either family without the other.
fn multiply_rests(
    memory: &mut FamilyMemory,
    a: NodeRef,
    b: NodeRef,
    rest: NodeRef,
    other: NodeRef,
) -> Result<NodeRef, Spent>
    requires { AreRests memory.old a b rest other }
    ensures { AnswersOf IsLeastProduct memory.old memory.new a b result }
{
    let first = without(memory, a, rest)?;
    let second = without(memory, b, other)?;
    let alone = union(memory, first, second)?;
    let joined = product(memory, rest, other)?;
    union(memory, alone, joined)
}

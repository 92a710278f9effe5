//! Unions and products of many families.
ghost use Rattle.std.specs.Prelude.{◌≡◌, All, IfErr, IfOk, length, nat_lt, slice_index, if◌then◌else◌};
ghost use Rattle.zdd_families.specs.Least.{IsLeastOfAll, IsLeastProductOfAll};
ghost use Rattle.family_memory.specs.Memory.{Gave, Has, RanOut};
ghost use Rattle.many_families.specs.Lists.{families};

use crate::splitting::product_by_splitting;
use family_memory::{FamilyMemory, Spent};
use minimal_operations::union;
use zdd_words::NodeRef;

/// The first of some references, or the one to no sets.
pub fn first_of(list: &[NodeRef]) -> NodeRef
    ensures { result ≡ (if nat_lt 0 (length list.now) then slice_index list.now 0 else 0) }
{
    if list.is_empty() {
        NodeRef::EMPTY
    } else {
        list[0]
    }
}

/// The minimal sets of the union of all families of the list: of none there are no sets. It goes by the halves of the
/// list, so that about equal numbers of families are united.
pub fn union_of_all(memory: &mut FamilyMemory, list: &[NodeRef]) -> Result<NodeRef, Spent>
    requires { All (Has memory.old) list.now }
    ensures gives { IfOk result (Gave (IsLeastOfAll (families memory.old list.now)) memory.old memory.new) }
    ensures spent { IfErr result (λ _. RanOut memory.old memory.new) }
{
    memory.is_sound();
    if list.len() < 2 {
        return Ok(first_of(list));
    }
    let middle = list.len() / 2;
    let first = union_of_all(memory, &list[..middle])?;
    let second = union_of_all(memory, &list[middle..])?;
    union(memory, first, second)
}

/// The minimal sets of the product of all families of the list, one after another: of none there is the empty set.
pub fn product_of_all(memory: &mut FamilyMemory, list: &[NodeRef]) -> Result<NodeRef, Spent>
    requires { All (Has memory.old) list.now }
    ensures gives { IfOk result (Gave (IsLeastProductOfAll (families memory.old list.now)) memory.old memory.new) }
    ensures spent { IfErr result (λ _. RanOut memory.old memory.new) }
{
    memory.is_sound();
    let mut made = NodeRef::UNIT;
    for place in 0..list.len() {
        made = product_by_splitting(memory, made, list[place])?;
    }
    Ok(made)
}

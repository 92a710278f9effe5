//! Lists of families in an order of their units, so that those whose units are near each other meet first.
ghost use Rattle.std.specs.Prelude.{◌≡◌, ◌<◌, ◌≤◌, All, IfErr, IfOk, length};
ghost use Rattle.std.specs.List.Sorted.{IsPermutation};
ghost use Rattle.zdd_families.specs.Least.{IsLeastOfAll, IsLeastProductOfAll};
ghost use Rattle.family_memory.specs.Memory.{Gave, Has, RanOut};
ghost use Rattle.many_families.specs.Lists.{families};

use crate::chains::unite_places;
use crate::many::product_of_all;
use family_memory::{FamilyMemory, Spent};
use zdd_words::{NodeRef, Parts};

// Above the number of each unit.
const NO_UNIT: u16 = 4_096;

// How many units of a set tell where a family stands.
const UNITS_TOLD: usize = 2;

const UNIT_SHIFT: u32 = 13;

// A longer list is multiplied as it stands, since each family is compared with all that are left.
const MOST_COMPARED: usize = 64;

// The node of a reference, if it has one.
fn node_of(memory: &FamilyMemory, r: NodeRef) -> Option<Parts> {
    if r.number() >= 2 && (r.number() as usize - 2) < memory.count() {
        Some(memory.parts(r))
    } else {
        None
    }
}

// A number by which families are ordered: that of the first units of one of its sets, the lowest units first.
fn first_units(memory: &FamilyMemory, r: NodeRef) -> u64 {
    let mut told = 0;
    let mut at = r;
    for _ in 0..UNITS_TOLD {
        let unit = match node_of(memory, at) {
            Some(parts) => {
                at = parts.hi;
                parts.level.number()
            }
            None => NO_UNIT,
        };
        told = told << UNIT_SHIFT | u64::from(unit);
    }
    told
}

/// Puts the references of a list into places in an order of their units.
pub(crate) fn put_in_order(memory: &FamilyMemory, list: &[NodeRef], places: &mut [NodeRef])
    requires { length list.now ≡ length places.old }
    ensures { IsPermutation list.now places.new }
{
    places.copy_from_slice(list);
    places.sort_unstable_by_key(|r| first_units(memory, *r));
}

/// The minimal sets of the union of all families of the list, which are taken in an order of their units. What the
/// table, with a place for each family, holds afterwards is left open.
pub fn union_in_order(
    memory: &mut FamilyMemory,
    list: &[NodeRef],
    table: &mut [NodeRef],
) -> Result<NodeRef, Spent>
    requires table { length list.now ≤ length table.old }
    requires has { All (Has memory.old) list.now }
    ensures gives { IfOk result (Gave (IsLeastOfAll (families memory.old list.now)) memory.old memory.new) }
    ensures spent { IfErr result (λ _. RanOut memory.old memory.new) }
{
    let places = &mut table[..list.len()];
    put_in_order(memory, list, places);
    unite_places(memory, places)
}

// How many marks of units two families share, of those that either has, in 4,096ths.
fn likeness(one: u64, other: u64) -> u64 {
    let shared = u64::from((one & other).count_ones());
    let all = u64::from((one | other).count_ones());
    shared * 4_096 / all.max(1)
}

// The place, from one on, of the family whose marks are most like these: the first of several.
fn most_alike(memory: &FamilyMemory, marks: u64, places: &[NodeRef], from: usize) -> usize
    requires has { All (Has memory.now) places.now }
    requires within { from < length places.now }
    ensures { result < length places.now }
{
    let mut best = from;
    let mut most = 0;
    for place in from..places.len() {
        let alike = likeness(marks, memory.marks(places[place]));
        if alike > most {
            best = place;
            most = alike;
        }
    }
    best
}

// Puts the references of a list into places: the first, and then each time the family that is most like those before
// it. A product of families that share many units has few sets, so what is made on the way stays small.
fn put_by_likeness(memory: &FamilyMemory, list: &[NodeRef], places: &mut [NodeRef])
    requires places { length list.now ≡ length places.old }
    requires has { All (Has memory.now) list.now }
    ensures { IsPermutation list.now places.new }
{
    places.copy_from_slice(list);
    let mut marks = 0;
    for at in 0..places.len() {
        let next = most_alike(memory, marks, places, at);
        marks |= memory.marks(places[next]);
        places.swap(at, next);
    }
}

// Puts the references of a list into places as they are to be multiplied: single units from the last unit on, so that
// each product is one node more, and a few other families by the units that they share.
fn put_for_product(memory: &FamilyMemory, list: &[NodeRef], places: &mut [NodeRef])
    requires places { length list.now ≡ length places.old }
    requires has { All (Has memory.now) list.now }
    ensures { IsPermutation list.now places.new }
{
    if are_single_units(memory, list) {
        put_in_order(memory, list, places);
        places.reverse();
    } else if list.len() <= MOST_COMPARED {
        put_by_likeness(memory, list, places);
    } else {
        places.copy_from_slice(list);
    }
}

// Whether each family of the list is one set with one unit.
fn are_single_units(memory: &FamilyMemory, list: &[NodeRef]) -> bool {
    for place in 0..list.len() {
        if !is_single_unit(memory, list[place]) {
            return false;
        }
    }
    true
}

fn is_single_unit(memory: &FamilyMemory, r: NodeRef) -> bool {
    match node_of(memory, r) {
        Some(parts) => parts.lo.number() == 0 && parts.hi.number() == 1,
        None => false,
    }
}

/// The minimal sets of the product, likewise.
pub fn product_in_order(
    memory: &mut FamilyMemory,
    list: &[NodeRef],
    table: &mut [NodeRef],
) -> Result<NodeRef, Spent>
    requires table { length list.now ≤ length table.old }
    requires has { All (Has memory.old) list.now }
    ensures gives { IfOk result (Gave (IsLeastProductOfAll (families memory.old list.now)) memory.old memory.new) }
    ensures spent { IfErr result (λ _. RanOut memory.old memory.new) }
{
    let places = &mut table[..list.len()];
    put_for_product(memory, list, places);
    product_of_all(memory, places)
}

//! Products of two lists: the unions of a set of each.
//!
//! A set of one list that has one of the other within it is its own union with that set, and all its other unions
//! include it, so it stands for them all. Where lists share units such sets are split off, and only the rest is
//! multiplied.
ghost use Rattle.std.specs.Prelude.{◌≡◌, [], true, OnOk};
ghost use Rattle.cutset_lists.specs.Sets.{AddsProduct};
ghost use Rattle.cutset_lists.specs.Waiting.{AreFilled};

use crate::combine::add_all_unions;
use crate::minimal::reduce;
use crate::split::{are_filled, split};
use crate::{NoMemory, Room, Sets};
use std::mem;

// From so many sets on in both lists, a split pays for the tables of those that wait.
const MANY: usize = 16;

// Whether a split of two lists is possible and pays.
fn are_split(left: &Sets, right: &Sets) -> bool
    ensures left { result ≡ true → AreFilled left.now }
    ensures right { result ≡ true → AreFilled right.now }
{
    left.len() >= MANY && right.len() >= MANY && are_filled(left) && are_filled(right)
}

// Adds the product by the sets that stand for themselves and the unions of the others.
fn add_split<'h>(
    room: Room<'h>,
    sets: &mut Sets<'h>,
    left: &Sets,
    right: &Sets,
) -> Result<(), NoMemory>
    requires left { AreFilled left.now }
    requires right { AreFilled right.now }
    ensures { OnOk result (AddsProduct left.now right.now sets.old sets.new) }
{
    let mut lefts = room.no_sets();
    let mut rights = room.no_sets();
    split(room.alloc, left, right, sets, &mut lefts)?;
    split(room.alloc, right, left, sets, &mut rights)?;
    add_all_unions(room.alloc, sets, &lefts, &rights)
}

// Adds the product of two lists. Where they are apart no set of one includes one of the other.
fn add_product<'h>(
    room: Room<'h>,
    sets: &mut Sets<'h>,
    left: &Sets,
    right: &Sets,
    apart: bool,
) -> Result<(), NoMemory>
    ensures { OnOk result (AddsProduct left.now right.now sets.old sets.new) }
{
    if !apart && are_split(left, right) {
        add_split(room, sets, left, right)
    } else {
        add_all_unions(room.alloc, sets, left, right)
    }
}

/// Adds the product of two lists, and then leaves the sets that have no other within them, unless all are apart.
pub fn add_reduced<'h>(
    room: Room<'h>,
    sets: &mut Sets<'h>,
    left: &Sets,
    right: &Sets,
    apart: bool,
) -> Result<(), NoMemory>
    ensures { OnOk result (AddsProduct left.now right.now sets.old sets.new) }
{
    add_product(room, sets, left, right, apart)?;
    reduce(room, sets, apart)
}

/// Puts the product of a list and another into its place.
pub fn multiply<'h>(
    room: Room<'h>,
    sets: &mut Sets<'h>,
    list: &Sets,
    apart: bool,
) -> Result<(), NoMemory>
    ensures { OnOk result (AddsProduct sets.old list.now [] sets.new) }
{
    let left = mem::replace(sets, room.no_sets());
    add_reduced(room, sets, &left, list, apart)
}

//! The list of a gate that needs some number of its inputs.
ghost use Rattle.std.specs.Prelude.{◌≤◌, ◌<◌, length, OnOk};
ghost use Rattle.cutset_lists.specs.Generation.{at_least_rule, Follows, StartsFrom};
ghost use Rattle.cutset_lists.specs.Counts.{CountsMore, CountsList};

use crate::order::shortest_first;
use crate::overlap::are_apart;
use crate::product::add_reduced;
use crate::{NoMemory, Room, Sets};
use fault_model::NodeNo;
use std::mem;

// One count is also reached from the one below where the list is true.
fn count_more<'h>(
    room: Room<'h>,
    counts: &mut Vec<Sets<'h>>,
    at: usize,
    list: &Sets,
    apart: bool,
) -> Result<(), NoMemory>
    requires above_none { 1 ≤ at }
    requires within { at < length counts.old.items }
    ensures { OnOk result (CountsMore list.now at counts.old.items counts.new.items) }
{
    let mut sets = mem::replace(&mut counts[at], room.no_sets());
    let added = add_reduced(room, &mut sets, &counts[at - 1], list, apart);
    counts[at] = sets;
    added
}

// The same for each count from the highest down to the lowest that still matters.
fn count_list<'h>(
    room: Room<'h>,
    counts: &mut Vec<Sets<'h>>,
    lowest: usize,
    list: &Sets,
    apart: bool,
) -> Result<(), NoMemory>
    requires above_none { 1 ≤ lowest }
    requires within { lowest ≤ length counts.old.items }
    ensures { OnOk result (CountsList list.now lowest counts.old.items counts.new.items) }
{
    let mut at = counts.len();
    while at > lowest {
        at -= 1;
        count_more(room, counts, at, list, apart)?;
    }
    Ok(())
}

// Puts in the unions of a set of each of `least` of the nodes' lists, one list after another. The first count, of none,
// has the empty set, and the others have no set yet.
fn at_least_in_turn<'h>(
    room: Room<'h>,
    lists: &[Sets<'h>],
    least: u32,
    nodes: &[NodeNo],
    sets: &mut Sets<'h>,
) -> Result<(), NoMemory>
    requires { StartsFrom lists.now nodes.now sets.old }
    ensures { OnOk result (Follows lists.now (at_least_rule least nodes.now) sets.new) }
{
    let least = least as usize;
    let apart = are_apart(room.alloc, lists, nodes)?;
    let mut counts = room.no_lists(least + 1)?;
    counts[0].push(&[])?;
    for i in 0..nodes.len() {
        // what has less than this can no longer get as many as are needed
        let left = nodes.len() - i - 1;
        let lowest = least.saturating_sub(left).max(1);
        if lowest <= least {
            count_list(room, &mut counts, lowest, &lists[nodes[i].index()], apart)?;
        }
    }
    mem::swap(sets, &mut counts[least]);
    Ok(())
}

/// Puts in the unions of a set of each of `least` of the nodes' lists.
pub fn at_least<'h>(
    room: Room<'h>,
    lists: &[Sets<'h>],
    least: u32,
    nodes: &[NodeNo],
    sets: &mut Sets<'h>,
) -> Result<(), NoMemory>
    requires { StartsFrom lists.now nodes.now sets.old }
    ensures { OnOk result (Follows lists.now (at_least_rule least nodes.now) sets.new) }
{
    let order = shortest_first(room.alloc, lists, nodes)?;
    at_least_in_turn(room, lists, least, order.as_slice(), sets)
}

//! The order in which the nodes are made: by rank, and in a rank by their numbers.
ghost use Rattle.std.specs.Prelude.{◌≡◌, ◌+◌, ◌<◌, ◌≤◌, length, IfOk, OnOk};
ghost use Rattle.fault_definitions.specs.Tree.{IsNodeOf, is_fdep};
ghost use Rattle.zdd_build.specs.Places.{ArePlaces, HasPlaces, HasPlacesTo, IsRunTo};

use fault_model::{GateKind, NoMemory, NodeNo, Tree};
use std::alloc::Global;

/// A node to be made, and its rank.
#[derive(Clone, Copy)]
pub(crate) struct Place {
    pub rank: u32,
    pub node: NodeNo,
}

// Whether a node is an `fdep`, which has no family.
fn is_fdep(tree: &Tree, node: NodeNo) -> bool
    requires { IsNodeOf tree.now node }
    ensures { result ≡ is_fdep tree.now node }
{
    node.number() > tree.units() && tree.kind(node) == GateKind::Fdep
}

// Adds the node of a number to those below it, if it has a family.
fn add_place(places: &mut Vec<Place>, tree: &Tree, node: NodeNo) -> Result<(), NoMemory>
    requires node { IsNodeOf tree.now node }
    requires before { HasPlacesTo tree.now node places.old.items }
    ensures { OnOk result (HasPlacesTo tree.now (node + 1) places.new.items) }
{
    if is_fdep(tree, node) {
        return Ok(());
    }
    places.push(Place {
        rank: tree.rank(node),
        node,
    })?;
    Ok(())
}

// Every node that has a family, by their numbers.
fn all_places(alloc: Global, tree: &Tree) -> Result<Vec<Place>, NoMemory>
    ensures { IfOk result (λ places. HasPlaces tree.now places.items) }
{
    let nodes = tree.units() + tree.gates();
    let mut places = Vec::new(alloc);
    for number in 1..nodes + 1 {
        add_place(&mut places, tree, NodeNo(number))?;
    }
    Ok(places)
}

/// Every node that has a family, each after all that it reads: by rank, and then by their numbers.
pub(crate) fn places_by_rank(alloc: Global, tree: &Tree) -> Result<Vec<Place>, NoMemory>
    ensures { IfOk result (λ places. ArePlaces tree.now places.items) }
{
    // Tells the proof what a tree keeps.
    tree.units();
    let mut places = all_places(alloc, tree)?;
    places.sort_by_key(
        |place| -> u32
            ensures { result ≡ place.entry.now.rank }
        { place.rank },
    )?;
    Ok(places)
}

/// Where the rank of the node at a place ends.
pub(crate) fn end_of_rank(places: &[Place], from: usize) -> usize
    requires { from < length places.now }
    ensures run { IsRunTo places.now from result }
    ensures more { from < result }
    ensures within { result ≤ length places.now }
{
    let rank = places[from].rank;
    let mut end = from + 1;
    while end < places.len() && places[end].rank == rank {
        end += 1;
    }
    end
}

/// How many places the widest rank of gates has: more workers would find nothing to do.
pub(crate) fn widest_rank(places: &[Place]) -> usize {
    let mut widest = 0;
    let mut from = 0;
    while from < places.len() {
        let to = end_of_rank(places, from);
        if places[from].rank > 0 {
            widest = (to - from).max(widest);
        }
        from = to;
    }
    widest
}

//! Two gates of one rank, each held until the other was begun, through the step of a run that finds the cut sets.
ghost use Rattle.std.specs.Prelude.{◌≡◌, ◌≤◌};
ghost use Rattle.fault_definitions.specs.Tree.{};

use edge_io::Pace;
use fault_model::Tree;
use held_pace::{Meeting, Piece};
use outage_engine::find_cuts;
use std::alloc::Global;
use std::test::Fail;
use std::thread::Threads;
use worked_trees::tree_of;
use zdd_shared_table::{NodeStore, StoreSeat, StoreStart};

// How many cut sets two workers find by the diagram, at this pace. The tree, the store and what is found are let go by
// one function each.
fn cut_count<R: Threads + Sync, P: Pace>(
    rt: &R,
    alloc: Global,
    text: &[u8],
    pace: &P,
) -> Result<usize, Fail> {
    let tree = tree_of(alloc, text)?;
    tree_cut_count(rt, alloc, &tree, pace)
}

fn tree_cut_count<R: Threads + Sync, P: Pace>(
    rt: &R,
    alloc: Global,
    tree: &Tree,
    pace: &P,
) -> Result<usize, Fail> {
    let StoreStart { store, mut seat } = NodeStore::new(alloc, 10)?;
    found_count(rt, alloc, tree, &store, &mut seat, pace)
}

fn found_count<R: Threads + Sync, P: Pace>(
    rt: &R,
    alloc: Global,
    tree: &Tree,
    store: &NodeStore,
    seat: &mut StoreSeat,
    pace: &P,
) -> Result<usize, Fail>
    requires own { seat.old.store ≡ store.now }
    requires share { 64 ≤ seat.old.share }
{
    // Tells the proof what a tree keeps.
    tree.units();
    let found = find_cuts(rt, alloc, tree, store, seat, 2, pace)?;
    let count = found.root.is_some().then_some(found.cuts.len());
    drop(found);
    Ok(count.ok_or("no diagram")?)
}

// How many cut sets of two gates are found, and whether each gate was held until the other was begun.
fn met<R: Threads + Sync>(rt: &R, alloc: Global) -> Result<(usize, bool), Fail> {
    let meeting = Meeting::of(Piece { group: 1, place: 0 }, Piece { group: 1, place: 1 });
    let text = b"toplevel T; T or G H; G and A B; H and C D; A; B; C; D;".as_slice();
    let count = cut_count(rt, alloc, text, &meeting)?;
    Ok((count, meeting.was_held()))
}

#[test]
fn two_gates_of_a_rank_are_made_at_once(rt: HostRuntime) -> Result<(), Fail> {
    assert_eq!(&rt; met(&rt, rt.alloc())?, (2, true));
    Ok(())
}

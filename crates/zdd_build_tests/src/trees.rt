//! The minimal cuts of worked trees, from the store and by lists, with several numbers of workers.
ghost use Rattle.std.specs.Prelude.{◌≡◌, ◌≤◌};
ghost use Rattle.fault_definitions.specs.Tree.{};

use cutset_listing::list;
use cutset_lists::mcs_by_lists;
use edge_io::{Free, Pace};
use fault_model::Tree;
use std::alloc::Global;
use std::process::Abort;
use std::test::Fail;
use std::thread::Threads;
use unit_sets::CutList;
use worked_trees::tree_of;
use zdd_build::build_within;
use zdd_shared_table::{NodeStore, StoreSeat, StoreStart};

/// How many workers there are, and how many nodes the memory of each takes.
#[derive(Clone, Copy)]
pub(crate) struct Team {
    pub(crate) workers: u32,
    pub(crate) own_nodes: usize,
}

// The minimal cuts from a store, made by a team at a pace.
fn cuts_in<R: Threads + Sync, P: Pace>(
    rt: &R,
    alloc: Global,
    tree: &Tree,
    store: &NodeStore,
    seat: &mut StoreSeat,
    team: Team,
    pace: &P,
) -> Result<CutList, Fail>
    requires own { seat.old.store ≡ store.now }
    requires share { 64 ≤ seat.old.share }
    requires workers { (1 ≤ team.workers) × (team.workers ≤ 16) }
    requires room { team.own_nodes ≤ 262144 }
{
    // Tells the proof what a tree keeps.
    tree.units();
    let Team { workers, own_nodes } = team;
    let top = build_within(rt, alloc, tree, store, seat, workers, own_nodes, pace)?;
    Ok(list(alloc, store, seat, top)?)
}

// The minimal cuts from a store of their own.
fn cuts_built<R: Threads + Sync, P: Pace>(
    rt: &R,
    alloc: Global,
    tree: &Tree,
    team: Team,
    pace: &P,
) -> Result<CutList, Fail>
    requires workers { (1 ≤ team.workers) × (team.workers ≤ 16) }
    requires room { team.own_nodes ≤ 262144 }
{
    let StoreStart { store, mut seat } = NodeStore::new(alloc, 16)?;
    cuts_in(rt, alloc, tree, &store, &mut seat, team, pace)
}

/// How many minimal cuts the tree of a text has from the store.
pub(crate) fn cut_count<R: Threads + Sync, P: Pace>(
    rt: &R,
    alloc: Global,
    text: &[u8],
    team: Team,
    pace: &P,
) -> Result<usize, Fail>
    requires workers { (1 ≤ team.workers) × (team.workers ≤ 16) }
    requires room { team.own_nodes ≤ 262144 }
{
    let tree = tree_of(alloc, text)?;
    let cuts = cuts_built(rt, alloc, &tree, team, pace)?;
    Ok(cuts.len())
}

fn same_cuts(a: &CutList, b: &CutList) -> bool {
    if a.len() != b.len() {
        return false;
    }
    for i in 0..a.len() {
        if a.members(i) != b.members(i) {
            return false;
        }
    }
    true
}

// Whether the cuts from the store are these.
fn builds<R: Threads + Sync>(
    rt: &R,
    alloc: Global,
    tree: &Tree,
    wanted: &CutList,
    team: Team,
) -> Result<bool, Fail>
    requires workers { (1 ≤ team.workers) × (team.workers ≤ 16) }
    requires room { team.own_nodes ≤ 262144 }
{
    let cuts = cuts_built(rt, alloc, tree, team, &Free)?;
    Ok(same_cuts(wanted, &cuts))
}

// The same with ample memory of their own.
fn builds_with<R: Threads + Sync>(
    rt: &R,
    alloc: Global,
    tree: &Tree,
    wanted: &CutList,
    workers: u32,
) -> Result<bool, Fail>
    requires workers { (1 ≤ workers) × (workers ≤ 16) }
{
    let team = Team {
        workers,
        own_nodes: 4_096,
    };
    builds(rt, alloc, tree, wanted, team)
}

// One worker and several, with ample memory of their own and with none.
fn all_build<R: Threads + Sync>(
    rt: &R,
    alloc: Global,
    tree: &Tree,
    wanted: &CutList,
) -> Result<bool, Fail> {
    let bare = Team {
        workers: 2,
        own_nodes: 0,
    };
    Ok(
        builds_with(rt, alloc, tree, wanted, 1)?
            && builds_with(rt, alloc, tree, wanted, 2)?
            && builds_with(rt, alloc, tree, wanted, 4)?
            && builds_with(rt, alloc, tree, wanted, 16)?
            && builds(rt, alloc, tree, wanted, bare)?,
    )
}

fn agrees_on<R: Threads + Sync>(rt: &R, alloc: Global, tree: &Tree) -> Result<bool, Fail> {
    let wanted = mcs_by_lists(alloc, tree)?;
    all_build(rt, alloc, tree, &wanted)
}

/// Whether the cuts of a tree are those of the list method, by each of these teams.
pub(crate) fn agrees<R: Threads + Sync>(rt: &R, alloc: Global, text: &[u8]) -> Result<bool, Fail> {
    let tree = tree_of(alloc, text)?;
    agrees_on(rt, alloc, &tree)
}

// A text in each line.
const TEXTS: &str = "\
toplevel T; T 2of3 A B C; A; B; C;
toplevel T; T and A A; A;
toplevel T; T or G H; G and A B; H and A B C; A; B; C;
toplevel T; T por A B; A; B;
toplevel T; T pand A B; F fdep A B; A; B;
toplevel A; A;
toplevel T; T or A; A;
toplevel T; T or P Q; P por A B; Q por B A C; A; B; C;
toplevel T; T or CPU MOTOR PUMPS; CPU wsp P B; F fdep Z P B; Z or CS SS; MOTOR and MA MB; PUMPS and PA PB PS; \
CS; SS; P; B; MA; MB; PA; PB; PS;";

#[test]
fn two_of_three_and_its_kin(rt: HostRuntime) -> Result<(), Fail> {
    for text in TEXTS.lines() {
        assert!(&rt; agrees(&rt, rt.alloc(), text.as_bytes())?, "{text}");
    }
    Ok(())
}

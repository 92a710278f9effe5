//! The minimal path sets of worked trees.
ghost use Rattle.std.specs.Prelude.{◌≡◌, ◌≤◌, IfOk};
ghost use Rattle.path_sets.specs.Paths.{IsPathList};

use cutset_listing::node_count;
use fault_model::Tree;
use path_sets::{path_list, path_root};
use std::alloc::Global;
use std::process::Abort;
use std::test::Fail;
use unit_sets::CutList;
use worked_trees::{sets_of, tree_of};
use zdd_shared_table::{NodeStore, StoreSeat, StoreStart};

/// A system of two processors, which need a bus, of a motor with two switches, and of two pumps with spares. Its units
/// from 1 on are P B CS SS MS MA MB PA PSA PB PSB.
pub(crate) const SYSTEM: &str =
    "toplevel SYSTEM; SYSTEM or CPU MOTOR PUMPS; CPU wsp P B; DEP fdep TRIGGER P B; \
    TRIGGER or CS SS; MOTOR or SWITCH MOTORS; SWITCH pand MS MA; MOTORS csp MA MB; PUMPS and PUMP1 PUMP2; \
    PUMP1 csp PA PSA; PUMP2 csp PB PSB; P; B; CS; SS; MS; MA; MB; PA; PSA; PB; PSB;";

/// The path list of a tree, from a store of its own.
pub(crate) fn paths_of(alloc: Global, tree: &Tree) -> Result<CutList, Fail>
    ensures { IfOk result (IsPathList tree.now) }
{
    let StoreStart { store, mut seat } = NodeStore::new(alloc, 16)?;
    let paths = path_list(alloc, tree, &store, &mut seat);
    drop(seat);
    drop(store);
    Ok(paths?)
}

fn told_paths(alloc: Global, tree: &Tree) -> Result<String, Fail> {
    let paths = paths_of(alloc, tree)?;
    let told = sets_of(alloc, &paths);
    drop(paths);
    told
}

// The path list of the tree of a text, by the numbers of the units.
fn paths(alloc: Global, text: &str) -> Result<String, Fail> {
    let tree = tree_of(alloc, text.as_bytes())?;
    let told = told_paths(alloc, &tree);
    drop(tree);
    told
}

fn nodes_in(
    alloc: Global,
    tree: &Tree,
    store: &NodeStore,
    seat: &mut StoreSeat,
) -> Result<u64, Fail>
    requires own { seat.old.store ≡ store.now }
    requires share { 64 ≤ seat.old.share }
{
    let root = path_root(alloc, tree, store, seat)?;
    Ok(node_count(alloc, store, seat, root)?)
}

fn nodes_of(alloc: Global, tree: &Tree) -> Result<u64, Fail> {
    let StoreStart { store, mut seat } = NodeStore::new(alloc, 16)?;
    let nodes = nodes_in(alloc, tree, &store, &mut seat);
    drop(seat);
    drop(store);
    nodes
}

// How many nodes the family of the minimal path sets has.
fn path_nodes(alloc: Global, text: &str) -> Result<u64, Fail> {
    let tree = tree_of(alloc, text.as_bytes())?;
    let nodes = nodes_of(alloc, &tree);
    drop(tree);
    nodes
}

#[test]
fn two_of_three_serve_with_two(rt: HostRuntime) -> Result<(), Fail> {
    let text = "toplevel T; T 2of3 A B C; A; B; C;";
    assert_eq!(&rt; paths(rt.alloc(), text)?.as_str(), "1 2, 1 3, 2 3");
    assert_eq!(&rt; path_nodes(rt.alloc(), text)?, 4);
    Ok(())
}

#[test]
fn a_unit_needs_its_trigger(rt: HostRuntime) -> Result<(), Fail> {
    let text = "toplevel T; T pand A B; F fdep X A B; A; B; X;";
    assert_eq!(&rt; paths(rt.alloc(), text)?.as_str(), "1 3, 2 3");
    Ok(())
}

#[test]
fn a_system_has_sixteen_paths(rt: HostRuntime) -> Result<(), Fail> {
    let all =
        "1 3 4 6 8, 1 3 4 6 9, 1 3 4 6 10, 1 3 4 6 11, 2 3 4 6 8, 2 3 4 6 9, 2 3 4 6 10, 2 3 4 6 11, \
        1 3 4 5 7 8, 1 3 4 5 7 9, 1 3 4 5 7 10, 1 3 4 5 7 11, 2 3 4 5 7 8, 2 3 4 5 7 9, 2 3 4 5 7 10, 2 3 4 5 7 11";
    assert_eq!(&rt; paths(rt.alloc(), SYSTEM)?.as_str(), all);
    Ok(())
}

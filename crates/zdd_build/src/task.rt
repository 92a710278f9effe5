//! What is built: the nodes of a tree at their places, into a store.
use crate::places::Place;
use fault_model::Tree;
use zdd_shared_table::NodeStore;

/// A tree whose nodes are to be made in a store, in the order of the places.
#[derive(Clone, Copy)]
pub(crate) struct Task<'t> {
    pub store: &'t NodeStore,
    pub tree: &'t Tree,
    pub places: &'t [Place],
}

/// The places of one rank, from one to another.
#[derive(Clone, Copy)]
pub(crate) struct Run<'t> {
    pub task: Task<'t>,
    pub from: usize,
    pub to: usize,
}

/// How many workers there are at most, and how many nodes the own memory of each takes.
#[derive(Clone, Copy)]
pub(crate) struct Size {
    pub workers: usize,
    pub own_nodes: usize,
}

//! What a run works with, and what may be asked of it.
use std::alloc::Global;
use zdd_shared_table::NodeStore;

/// What a run works with from its first step to its last: what starts threads, the memory, and the store of diagrams.
#[derive(Drop)]
pub(crate) struct Means<'a, R> {
    pub rt: &'a R,
    pub alloc: Global,
    pub store: &'a NodeStore,
}

/// The cut list of a tree with the failing orders of its sets of at most so many members, found by so many workers.
#[derive(Clone, Copy)]
pub(crate) struct Asked {
    pub most: u32,
    pub workers: u32,
}

/// The same, and a board that opens at this margin.
#[derive(Clone, Copy)]
pub(crate) struct BoardAsked {
    pub margin: u32,
    pub asked: Asked,
}

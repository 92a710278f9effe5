//! What is made of a tree: a reference for each node, and which places are made.
ghost use Rattle.std.specs.Prelude.{◌≡◌, ◌-◌, ◌<◌, true, ℕ, IfOk, length, set};
ghost use Rattle.zdd_build.specs.Building.{HasRoomFor, IsBuiltTo};
ghost use Rattle.zdd_build.specs.Places.{node_at};

use crate::places::Place;
use crate::task::Task;
use fault_model::NoMemory;
use std::alloc::Global;
use zdd_words::NodeRef;

/// A reference for each node, and whether the node at each place is made.
#[derive(Drop)]
pub(crate) struct Table {
    pub references: Vec<NodeRef>,
    pub made: Vec<bool>,
}

impl Table {
    /// Nothing is made yet. An `fdep` has the empty family.
    pub fn new(alloc: Global, task: Task) -> Result<Table, NoMemory>
        ensures { (known : ℕ → ℕ) → IfOk result (λ table. IsBuiltTo known task.entry table 0) }
    {
        let nodes = (task.tree.units() + task.tree.gates()) as usize;
        Ok(Table {
            references: vec![in alloc; NodeRef::EMPTY; nodes]?,
            made: vec![in alloc; false; task.places.len()]?,
        })
    }

    /// Takes the reference that was found for the node at a place.
    pub fn put(&mut self, places: &[Place], place: usize, family: NodeRef)
        requires place { place < length places.now }
        requires room { HasRoomFor places.now self.old }
        ensures references { self.new.references.items
            ≡ set self.old.references.items (node_at places.now place - 1) family }
        ensures made { self.new.made.items ≡ set self.old.made.items place true }
    {
        self.references[places[place].node.index()] = family;
        self.made[place] = true;
    }
}

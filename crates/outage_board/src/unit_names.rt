//! The units of a tree by their names.
ghost use Rattle.std.specs.Prelude.{◌≡◌, IfOk};
ghost use Rattle.outage_board.specs.Requests.{unit_of};

use fault_model::{Name, Tree};
use name_index::NameIndex;
use std::alloc::Global;
use std::marker::Model;
use unit_sets::{NoMemory, UnitNo};

/// A tree whose units are found by their names. A contract sees the tree.
#[derive(Drop)]
pub(crate) struct UnitNames<'a> {
    tree: &'a Tree,
    index: NameIndex<'a>,
}

impl<'a> Model for UnitNames<'a> {
    ghost use Rattle.std.specs.Prelude.{◌≡◌, take};
    ghost use Rattle.fault_definitions.specs.Tree.{FaultTree, unit_count};

    ghost Value = { FaultTree };

    ghost view = { λ names. names.tree.now };

    ghost invariant = { λ names. names.index ≡ take (unit_count names.tree.now) names.tree.now.names };
}

impl<'a> UnitNames<'a> {
    /// The units of a tree.
    pub fn of(alloc: Global, tree: &'a Tree) -> Result<UnitNames<'a>, NoMemory>
        ensures { IfOk result (λ names. names ≡ tree.now) }
    {
        let index = NameIndex::of(alloc, tree.unit_names())?;
        Ok(UnitNames { tree, index })
    }

    /// The unit of a name. A gate's name is no unit's.
    pub fn unit(&self, name: &Name) -> Option<UnitNo>
        ensures { result ≡ unit_of self.now name.now }
    {
        // Tells the proof what a tree keeps.
        self.tree.units();
        UnitNo::new(self.index.number(name) as u16)
    }
}

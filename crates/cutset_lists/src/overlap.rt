//! Whether lists of sets have units in common. Where they have none no set of one includes a set of another.
ghost use Rattle.std.specs.Prelude.{◌↔◌, All, IfOk, IsTrue};
ghost use Rattle.cutset_lists.specs.Generation.{HasList};
ghost use Rattle.cutset_lists.specs.Overlap.{AreAllApart, AreApart};

use crate::marks::{mark, some_marked};
use crate::{NoMemory, Sets};
use fault_model::NodeNo;
use std::alloc::Global;
use unit_sets::UnitSet;

/// Whether no unit is in the lists of two of the nodes.
pub fn are_apart(alloc: Global, lists: &[Sets], nodes: &[NodeNo]) -> Result<bool, NoMemory>
    requires { All (HasList lists.now) nodes.now }
    ensures { IfOk result (λ apart. IsTrue apart ↔ AreAllApart lists.now nodes.now) }
{
    let mut seen = UnitSet::new(alloc)?;
    for node in nodes {
        let units = lists[node.index()].items();
        if some_marked(&seen, units) {
            return Ok(false);
        }
        mark(&mut seen, units);
    }
    Ok(true)
}

/// Whether no unit is in both of two lists.
pub fn are_two_apart(alloc: Global, left: &Sets, right: &Sets) -> Result<bool, NoMemory>
    ensures { IfOk result (λ apart. IsTrue apart ↔ AreApart left.now right.now) }
{
    let mut seen = UnitSet::new(alloc)?;
    mark(&mut seen, left.items());
    Ok(!some_marked(&seen, right.items()))
}

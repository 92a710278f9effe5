//! The cut family of a node.
ghost use Rattle.std.specs.Prelude.{◌≤◌, All, IfErr, IfOk, length};
ghost use Rattle.fault_definitions.specs.CutFamily.{IsCutFamily};
ghost use Rattle.fault_definitions.specs.Tree.{IsNodeOf};
ghost use Rattle.fault_definitions.specs.Trigger.{below};
ghost use Rattle.family_memory.specs.Memory.{Gave, Has, RanOut};
ghost use Rattle.many_families.specs.Lists.{families};
ghost use Rattle.tree_families.specs.Recipe.{StandFor};

use crate::gates::{make_gate, make_unit};
use family_memory::{FamilyMemory, Spent};
use fault_model::{NodeNo, Tree};
use zdd_words::NodeRef;

/// The cut family of a node, from the references of what it reads, each to its cut family, in the order in which
/// it reads them. What the table, with a place for each of them, holds afterwards is left open.
pub fn cut_family(
    memory: &mut FamilyMemory,
    tree: &Tree,
    node: NodeNo,
    list: &[NodeRef],
    table: &mut [NodeRef],
) -> Result<NodeRef, Spent>
    requires node { IsNodeOf tree.now node }
    requires table { length list.now ≤ length table.old }
    requires has { All (Has memory.old) list.now }
    requires stand { StandFor (IsCutFamily tree.now) (below tree.now node) (families memory.old list.now) }
    ensures gives { IfOk result (Gave (IsCutFamily tree.now node) memory.old memory.new) }
    ensures spent { IfErr result (λ _. RanOut memory.old memory.new) }
{
    if node.number() > tree.units() {
        return make_gate(memory, tree.kind(node), list, table);
    }
    make_unit(memory, node.unit(), list)
}

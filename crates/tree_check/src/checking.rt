//! The check of a text whose statements are read.
ghost use Rattle.std.specs.Prelude.{IfOk, IfErr};
ghost use Rattle.tree_check.specs.Checked.{IsRefusal, Stands};

use crate::assembly::assemble;
use crate::examining::examine;
use crate::fault::CheckFault;
use fault_model::Tree;
use galileo_tree::RawTree;
use std::alloc::Global;

/// The tree that the statements of a text stand for, or the first fault.
pub fn check(alloc: Global, raw: RawTree) -> Result<Tree, CheckFault>
    ensures tree { IfOk result (Stands raw) }
    ensures fault { IfErr result (IsRefusal raw) }
{
    let deck = examine(alloc, &raw)?;
    let parts = assemble(alloc, raw.into_statements(), &deck);
    drop(deck);
    let tree = Tree::new(alloc, parts?)?;
    Ok(tree)
}

//! A made deck as its bytes.
ghost use Rattle.std.specs.Prelude.{◌≡◌, ◌≤◌, IfOk};
ghost use Rattle.fault_definitions.specs.Tree.{FaultTree};
ghost use Rattle.tree_maker.specs.MadeDeck.{made_deck};
ghost use Rattle.tree_maker.specs.WellMade.{IsWellMade};

use crate::crew::add_crew;
use crate::laws::made_decks_are_well_made;
use crate::tree::add_tree;
use deck_limits::HIGHEST_MADE;
use edge_io::{Bytes, NoMemory};
use std::alloc::Global;

/// The made deck of a number, which is a deck without a fault.
pub fn made(alloc: Global, number: u32) -> Result<Bytes, NoMemory>
    requires { number ≤ HIGHEST_MADE }
    ensures text { IfOk result (λ bytes. bytes ≡ made_deck number) }
    ensures well_formed { IfOk result (λ bytes. (tree : FaultTree) × IsWellMade number bytes tree) }
{
    made_decks_are_well_made();
    let count = 200 - number % 100;
    let mut text = Vec::new(alloc);
    add_tree(&mut text, number, count)?;
    add_crew(&mut text, number, count)?;
    Ok(Bytes::from_vec(text))
}

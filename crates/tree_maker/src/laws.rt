//! What made decks stand for. The function does nothing but call the laws that it stands on.
ghost use Rattle.std.specs.Prelude.{ℕ};
ghost use Rattle.fault_definitions.specs.Tree.{FaultTree};
ghost use Rattle.tree_maker.specs.MadeDeck.{made_deck};
ghost use Rattle.tree_maker.specs.WellMade.{IsWellMade};

use crew_script::laws::crew_part_has_one_answer;
use deck_reading::laws::{
    written_statements_are_the_tree_part, written_statements_stand_for_their_tree,
};
use tree_check::some_tree_or_some_fault;

/// The made deck of each number is a deck without a fault: it stands for a tree of so many units and gates, and for one
/// crew with its requests.
pub fn made_decks_are_well_made()
    ensures { (number : ℕ) → (tree : FaultTree) × IsWellMade number (made_deck number) tree }
{
    some_tree_or_some_fault();
    crew_part_has_one_answer();
    written_statements_are_the_tree_part();
    written_statements_stand_for_their_tree();
}

//! Laws of what is found in a deck. The functions do nothing but call the laws that they stand on.
ghost use Rattle.std.specs.Prelude.{◌≡◌, ℕ, List};
ghost use Rattle.fault_definitions.specs.Tree.{FaultTree};
ghost use Rattle.deck_reading.specs.declared.fault.DeckFault.{DeckFault};
ghost use Rattle.deck_reading.specs.Deck.{StandsFor};
ghost use Rattle.tree_maker.specs.MadeDeck.{made_deck};
ghost use Rattle.outage_engine.specs.Finding.{Faulty, Finding, Finds, Wants};
ghost use Rattle.outage_engine.specs.Texts.{IsPrintText, for_summary};

use board_report::laws::printed_trees_are_read;
use deck_reading::laws::a_deck_is_read_one_way;
use fault_model::laws::each_tree_has_one_cut_list;
use tree_maker::laws::made_decks_are_well_made;

/// A deck has exactly one finding for what a command wants of it: its first fault, a limit that is passed, or its tree,
/// cut list and crews.
pub fn a_deck_has_one_finding()
    ensures some { (wants : Wants) (bytes : List ℕ) → (finding : Finding) × Finds wants bytes finding }
    ensures one { (wants : Wants) (bytes : List ℕ) (one two : Finding) → Finds wants bytes one → Finds wants bytes two
        → one ≡ two }
{
    a_deck_is_read_one_way();
    each_tree_has_one_cut_list();
}

/// The text of `print` for a deck stands for the tree that the deck stands for.
pub fn printed_decks_stand_for_their_tree()
    ensures { (bytes text : List ℕ) → IsPrintText bytes text → (tree : FaultTree) × StandsFor bytes tree
        × StandsFor text tree }
{
    printed_trees_are_read();
}

/// A made deck has no fault, so the words that ask for its summary are never refused for one: what is found in it is a
/// limit that it passes, or all that the summary needs.
pub fn made_decks_have_no_fault()
    ensures { (number : ℕ) (fault : DeckFault) → ¬ Finds for_summary (made_deck number) (Faulty fault) }
{
    made_decks_are_well_made();
}

//! Laws of the texts. The functions do nothing, or call the laws that they stand on.
ghost use Rattle.std.specs.Prelude.{◌≡◌, ℕ, List, length};
ghost use Rattle.crew_script.specs.Dockets.{IsDockets};
ghost use Rattle.fault_definitions.specs.Tree.{FaultTree};
ghost use Rattle.fault_definitions.specs.WellFormed.{IsTree};
ghost use Rattle.outage_board.specs.declared.entry.Entry.{Entry};
ghost use Rattle.outage_board.specs.Boards.{Deck};
ghost use Rattle.outage_board.specs.Histories.{IsLegal, IsWhole};
ghost use Rattle.deck_reading.specs.Deck.{StandsFor};
ghost use Rattle.deck_reading.specs.TreeStatements.{IsNamed, statements_of};
ghost use Rattle.deck_reading.specs.Written.{written};
ghost use Rattle.board_report.specs.LogText.{log_text};
ghost use Rattle.board_report.specs.PrintText.{print_text};

use deck_reading::laws::statements_of_a_tree_stand_for_it;

/// Two histories that are legal and whole for one deck, whose crews are those of a crew part, and have the same log
/// are equal.
pub fn logs_determine_histories()
    ensures same { (deck : Deck) (history other : List Entry) → IsDockets deck.crews
        → length deck.dockets ≡ length deck.crews → IsLegal deck.opening history → IsWhole deck.dockets history
        → IsLegal deck.opening other → IsWhole deck.dockets other
        → log_text deck.crews history ≡ log_text deck.crews other → history ≡ other }
{}

/// The text of a tree is its statements, with every name in quotes, and stands for this tree: so does that of a tree
/// that a deck stands for.
pub fn printed_trees_are_read()
    ensures text { (tree : FaultTree) → print_text tree ≡ written (statements_of tree) }
    ensures read { (tree : FaultTree) → IsTree tree → IsNamed tree → StandsFor (print_text tree) tree }
    ensures again { (bytes : List ℕ) (tree : FaultTree) → StandsFor bytes tree → StandsFor (print_text tree) tree }
{
    statements_of_a_tree_stand_for_it();
}

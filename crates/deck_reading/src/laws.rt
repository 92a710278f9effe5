//! Laws of decks. The functions do nothing but call the laws that they stand on.
ghost use Rattle.std.specs.Prelude.{◌≡◌, ◌↔◌, ◌⊎◌, ℕ, ◌+◌, List, ◌++◌, Option, Result, Ok, Some, codes, length};
ghost use Rattle.fault_definitions.specs.Tree.{FaultTree};
ghost use Rattle.fault_definitions.specs.WellFormed.{IsTree};
ghost use Rattle.galileo_tree.specs.declared.fault.ParseFault.{ParseFault};
ghost use Rattle.galileo_tree.specs.Parsed.{parsed_text};
ghost use Rattle.galileo_tree.specs.ReadTree.{ReadTree};
ghost use Rattle.tree_check.specs.Checked.{Stands};
ghost use Rattle.crew_script.specs.Crews.{crews_of};
ghost use Rattle.crew_script.specs.declared.dockets.Crew.{Crew};
ghost use Rattle.crew_script.specs.declared.fault.CrewFault.{CrewFault};
ghost use Rattle.deck_reading.specs.declared.deck.CrewPart.{CrewPart};
ghost use Rattle.deck_reading.specs.declared.fault.DeckFault.{DeckFault};
ghost use Rattle.deck_reading.specs.Deck.{StandsFor, crew_part, tree_part};
ghost use Rattle.deck_reading.specs.Faults.{HasDeck, HasDeckFault, IsDeckFault, IsTreeFault, IsWellFormed};
ghost use Rattle.deck_reading.specs.Relations.{AreCrewsOf, IsFaultIn, IsReadAs, IsTreeOf};
ghost use Rattle.deck_reading.specs.TreeStatements.{IsNamed, statements_of};
ghost use Rattle.deck_reading.specs.Unplaced.{SaysAll, said_tree};
ghost use Rattle.deck_reading.specs.Written.{AreGood, WrittenStatement, written};

use crew_script::laws::{crew_part_has_one_answer, crews_or_first_fault, decks_are_divided_once};
use galileo_lexer::{reads_its_text, reads_one_way, tokens_are_spelled};
use galileo_tree::{parses_its_text, parses_one_way};
use tree_check::some_tree_or_some_fault;

/// A deck has a tree and crews, its crew part taken so, or a first fault: one of the two, and one alone.
pub fn a_deck_is_read_one_way()
    ensures some { (part : CrewPart) (bytes : List ℕ) → HasDeck part bytes ⊎ HasDeckFault part bytes }
    ensures one_deck { (part : CrewPart) (bytes : List ℕ) (one two : FaultTree) (crews others : Option (List Crew))
        → IsWellFormed part bytes one crews → IsWellFormed part bytes two others → (one ≡ two) × (crews ≡ others) }
    ensures one_fault { (part : CrewPart) (bytes : List ℕ) (one two : DeckFault) → IsDeckFault part bytes one
        → IsDeckFault part bytes two → one ≡ two }
    ensures not_both { (part : CrewPart) (bytes : List ℕ) → HasDeck part bytes → ¬ HasDeckFault part bytes }
{
    parses_its_text();
    some_tree_or_some_fault();
    crews_or_first_fault();
}

/// What the tree part of a deck is read as, the tree that a deck stands for, and the first fault of its tree part are
/// what the relations between whole lists say: of the line that divides it, of tokens, of statements, and of the tree
/// of statements. And so are the crews of its crew part, or the first line's fault.
pub fn decks_are_read_by_relations()
    ensures read { (bytes : List ℕ) (read : Result ReadTree ParseFault)
        → (parsed_text (tree_part bytes) ≡ read) ↔ IsReadAs bytes read }
    ensures tree { (bytes : List ℕ) (tree : FaultTree) → StandsFor bytes tree ↔ IsTreeOf bytes tree }
    ensures fault { (bytes : List ℕ) (fault : DeckFault) → IsTreeFault bytes fault ↔ IsFaultIn bytes fault }
    ensures crews { (bytes : List ℕ) (said : Result (List Crew) CrewFault)
        → (crew_part bytes ≡ Some said) ↔ AreCrewsOf bytes said }
{
    decks_are_divided_once();
    reads_its_text();
    reads_one_way();
    parses_its_text();
    parses_one_way();
    crews_or_first_fault();
    crew_part_has_one_answer();
}

/// Statements that are written one a line are read as these statements, in their order.
pub fn written_statements_are_read()
    ensures { (statements : List WrittenStatement) → AreGood statements
        → (read : ReadTree) × (parsed_text (written statements) ≡ Ok read) × SaysAll read.statements statements }
{
    reads_one_way();
    parses_one_way();
}

/// Whether a class of faults occurs in statements, and which tree is theirs, doesn't hang on where they stand.
pub fn trees_are_of_statements_anywhere()
    ensures { (read : ReadTree) (statements : List WrittenStatement) (tree : FaultTree)
        → SaysAll read.statements statements
        → Stands (said_tree statements) tree → Stands read tree }
{}

/// The tree part of written statements is all of them, and they stand before the first line `@crews`.
pub fn written_statements_are_the_tree_part()
    ensures whole { (statements : List WrittenStatement) → AreGood statements
        → tree_part (written statements) ≡ written statements }
    ensures before { (statements : List WrittenStatement) (lines : List ℕ) → AreGood statements
        → tree_part (written statements ++ (codes "@crews\n" ++ lines)) ≡ written statements }
    ensures behind { (statements : List WrittenStatement) (lines : List ℕ) → AreGood statements
        → crew_part (written statements ++ (codes "@crews\n" ++ lines))
        ≡ Some (crews_of (length statements + 2) lines) }
{
    decks_are_divided_once();
}

/// Written statements stand for the tree that they say, with a crew part behind them or without one.
pub fn written_statements_stand_for_their_tree()
    ensures alone { (statements : List WrittenStatement) (tree : FaultTree) → AreGood statements
        → Stands (said_tree statements) tree
        → IsTree tree → StandsFor (written statements) tree }
    ensures with_crews { (statements : List WrittenStatement) (lines : List ℕ) (tree : FaultTree) → AreGood statements
        → Stands (said_tree statements) tree → IsTree tree
        → StandsFor (written statements ++ (codes "@crews\n" ++ lines)) tree }
{
    written_statements_are_read();
    trees_are_of_statements_anywhere();
    written_statements_are_the_tree_part();
}

/// The names of a tree that a deck stands for have the form of names, and so have the words and values of its
/// attributes.
pub fn trees_of_decks_are_named()
    ensures { (bytes : List ℕ) (tree : FaultTree) → StandsFor bytes tree → IsNamed tree }
{
    tokens_are_spelled();
    parses_its_text();
}

/// The statements of a tree, its top event, its gates and its units, stand for this tree.
pub fn statements_of_a_tree_stand_for_it()
    ensures good { (tree : FaultTree) → IsTree tree → IsNamed tree → AreGood (statements_of tree) }
    ensures stands { (tree : FaultTree) → IsTree tree → Stands (said_tree (statements_of tree)) tree }
    ensures read { (tree : FaultTree) → IsTree tree → IsNamed tree → StandsFor (written (statements_of tree)) tree }
    ensures again { (bytes : List ℕ) (tree : FaultTree) → StandsFor bytes tree
        → StandsFor (written (statements_of tree)) tree }
{
    written_statements_stand_for_their_tree();
    trees_of_decks_are_named();
}

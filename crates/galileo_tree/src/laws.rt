//! The laws that say what parsing is in the grammar's own terms. Their bodies are empty: each is its clause.
ghost use Rattle.std.specs.Prelude.{◌≡◌, ℕ, List, All, Result, Ok};
ghost use Rattle.galileo_tree.specs.declared.fault.ParseFault.{ParseFault};
ghost use Rattle.galileo_tree.specs.ReadTree.{KeepsForm, ReadTree};
ghost use Rattle.galileo_tree.specs.Parsed.{lexemes_of, parsed_text};
ghost use Rattle.galileo_tree.specs.Grammar.{IsReading};

/// What a text gives is a reading of it: its lexemes are the spellings of the statements one after the other, or it
/// has a fault, and the fault is the first. That is a token that is none, a token that can't follow what stands
/// before it in any text of the grammar, or the end inside a statement, and for the last two what is expected there.
pub fn parses_its_text()
    ensures reading { (text : List ℕ) → IsReading (lexemes_of text) (parsed_text text) }

    // The numbers of a `KofN` have at most nine digits, and the word of an attribute is a bare name.
    ensures form { (text : List ℕ) (read : ReadTree) → parsed_text text ≡ Ok read → All KeepsForm read.statements }
{}

/// A text has one reading.
pub fn parses_one_way()
    ensures { (text : List ℕ) (read : Result ReadTree ParseFault) → IsReading (lexemes_of text) read
        → parsed_text text ≡ read }
{}

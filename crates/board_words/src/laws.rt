//! Laws of the definitions, each the one clause of a function that does nothing.
ghost use Rattle.std.specs.Prelude.{◌≡◌, ℕ, List, Some};
ghost use Rattle.board_words.specs.Command.{command_of};
ghost use Rattle.board_words.specs.Spellings.{Spells, IsWithinBounds};
ghost use Rattle.board_words.specs.declared.command.Command.{Command};

/// Each spelling of a command is read as this command.
pub fn spellings_are_read()
    ensures read { (command : Command) (words : List (List ℕ)) → Spells command words
        → command_of words ≡ Some command }
{}

/// Nothing else is read as a command.
pub fn only_spellings_are_read()
    ensures spelled { (command : Command) (words : List (List ℕ)) → command_of words ≡ Some command
        → Spells command words }
{}

/// The numbers of a command that is read are within their bounds.
pub fn numbers_are_within_bounds()
    ensures within { (command : Command) (words : List (List ℕ)) → command_of words ≡ Some command
        → IsWithinBounds command }
{}

//! Why a text is not in the grammar.
ghost use Rattle.std.specs.Prelude.{◌≡◌};

use fault_words::Place;
use galileo_lexer::LexFault;
use std::alloc::AllocError;

/// What the grammar expects where it finds something else.
#[derive(Clone, Copy, Debug, PartialEq, Eq)]
pub enum What {
    /// A statement, or the end of the text.
    Statement,
    /// The name of the top event.
    Name,
    /// The `;` of the top statement.
    Semicolon,
    /// A gate word or an attribute, or the `;` of a basic event.
    GateOrAttribute,
    /// The `=` behind the word of an attribute.
    Equals,
    /// An input of a gate, or its `;`.
    Input,
    /// The value of an attribute.
    Value,
    /// A further attribute, or the `;` of a basic event.
    Attribute,
}

/// Why a text was not read.
#[derive(Clone, Copy, Debug)]
pub enum ParseFault {
    /// A token that cannot be formed.
    Lex(LexFault),
    /// What the grammar wants at this place, where another token or the end of the text stands.
    Expected(What, Place),
    NoMemory,
}

impl From<AllocError> for ParseFault {
    ghost use Rattle.std.specs.Prelude.{◌≡◌};
    ghost use Rattle.galileo_tree.specs.declared.fault.ParseFault.TheVariants.{NoMemory};

    ghost from_gives = { λ _ fault. fault ≡ NoMemory };

    fn from(_error: AllocError) -> ParseFault {
        ParseFault::NoMemory
    }
}

//! Faults of a deck.
use crew_script::CrewCode;
use fault_model::Place;
use galileo_lexer::LexCode;
use galileo_tree::What;
use tree_check::CheckCode;

/// What a fault of a deck is.
#[derive(Clone, Copy, PartialEq, Eq)]
pub enum FaultCode {
    /// A token that can't be formed.
    Lex(LexCode),
    /// Something else stands where this is expected.
    Expected(What),
    /// Statements that stand for no tree.
    Check(CheckCode),
    /// Lines that stand for no crews, or no crew part at all.
    Crew(CrewCode),
}

/// A fault of a deck, and its place.
#[derive(Clone, Copy, PartialEq, Eq)]
pub struct DeckFault {
    pub code: FaultCode,
    pub place: Place,
}

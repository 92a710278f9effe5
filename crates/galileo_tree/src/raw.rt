//! Statements as they stand in a text, with the places of their tokens.
use fault_words::{Attribute, GateKind, Name, Place};
use flat_rows::GrowingList;

/// A name and the place of its token.
#[derive(Drop)]
pub struct Placed {
    pub name: Name,
    pub place: Place,
}

/// The inputs of a gate, from left to right.
pub type PlacedList = GrowingList<Placed>;

/// An attribute, and the place of its value.
#[derive(Drop)]
pub struct RawAttribute {
    pub attribute: Attribute,
    pub value_place: Place,
}

/// The attributes of a basic event, in order.
pub type RawAttributes = GrowingList<RawAttribute>;

/// `toplevel NAME;`
#[derive(Drop)]
pub struct RawTop {
    /// The place of the word `toplevel`.
    pub word: Place,
    pub name: Placed,
}

/// `NAME KIND INPUTS;`
#[derive(Drop)]
pub struct RawGate {
    pub name: Placed,
    /// The place of the gate word.
    pub word: Place,
    pub kind: GateKind,
    pub inputs: PlacedList,
}

/// `NAME ATTRIBUTES;`
#[derive(Drop)]
pub struct RawBasic {
    pub name: Placed,
    pub attributes: RawAttributes,
}

/// A statement of a text.
#[derive(Drop)]
pub enum Statement {
    Top(RawTop),
    Gate(RawGate),
    Basic(RawBasic),
}

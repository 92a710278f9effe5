//! A text by the numbers of its tree.
use fault_words::{GateKind, Place};
use galileo_tree::Statement;

/// A name that stands in the text: its number in the tree, and its place.
#[derive(Clone, Copy)]
pub(crate) struct Numbered {
    pub number: usize,
    pub place: Place,
}

/// A gate with the numbers of its inputs as they stand in the text.
#[derive(Drop)]
pub(crate) struct NumberedGate {
    pub kind: GateKind,
    /// The place of the gate word.
    pub word: Place,
    /// The place of the name.
    pub name: Place,
    pub inputs: NumberedRow,
}

/// Names by numbers, as the inputs of a gate.
pub(crate) type NumberedRow = flat_rows::GrowingList<Numbered>;

/// A text by numbers.
#[derive(Drop)]
pub(crate) struct NumberedText {
    /// How many basic events there are. The numbers of the gates are above.
    pub units: usize,
    pub gates: Vec<NumberedGate>,
    /// The names of the top statements.
    pub tops: NumberedRow,
}

/// A text in parts: its statements, and what they say by numbers.
#[derive(Clone, Copy)]
pub(crate) struct Parts<'t> {
    pub statements: &'t [Statement],
    /// The end of the text.
    pub end: Place,
    pub units: usize,
    pub gates: &'t [NumberedGate],
    pub tops: &'t [Numbered],
}

//! References to nodes.
ghost use Rattle.std.specs.Prelude.{◌≡◌, ◌+◌, ◌<◌, ◌^◌};
ghost use Rattle.zdd_words.specs.Reference.{IsReference};
ghost use Rattle.zdd_words.specs.Word.{hi_of};

use std::marker::Model;

// The bits of a word that one reference takes.
const REFERENCE_MASK: u64 = 0x3ff_ffff;

/// A reference to a node: a number below 2^26.
///
/// `EMPTY` and `UNIT` stand for the family without sets and the family of the empty set alone. They are
/// in no slot, and the slot s is the reference s + 2.
#[derive(Clone, Copy, Debug, PartialEq, Eq, Hash, PartialOrd, Ord)]
pub struct NodeRef {
    number: u32,
}

impl Model for NodeRef {
    ghost use Rattle.std.specs.Prelude.{ℕ};
    ghost use Rattle.zdd_words.specs.Reference.{IsReference};

    ghost Value = { ℕ };

    ghost view = { λ r. r.number };

    ghost invariant = { λ r. IsReference r.number };

    ghost inverse = { λ n. record { number = n } };
}

// What contracts write for the terminals.
const _: () = prove!(NodeRef::EMPTY.number == 0);

const _: () = prove!(NodeRef::UNIT.number == 1);

impl NodeRef {
    /// The family without sets.
    pub const EMPTY: NodeRef = NodeRef { number: 0 };

    /// The family of the empty set alone.
    pub const UNIT: NodeRef = NodeRef { number: 1 };

    /// The reference to the node in a slot.
    pub fn at_slot(s: u32) -> NodeRef
        requires { s < 2 ^ 25 }
        ensures { result ≡ s + 2 }
    {
        NodeRef { number: s + 2 }
    }

    // The reference that the lowest bits of a word give.
    pub(crate) fn in_lowest_bits(word: u64) -> NodeRef
        ensures { result ≡ hi_of word }
    {
        NodeRef {
            number: (word & REFERENCE_MASK) as u32,
        }
    }

    /// The number of this reference.
    pub fn number(self) -> u32
        ensures value { result ≡ self }
        ensures small { IsReference self }
    {
        self.number
    }
}

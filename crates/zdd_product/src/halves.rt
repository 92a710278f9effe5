//! Two references cut at the least unit of both.
ghost use Rattle.std.specs.Prelude.{◌≡◌, ◌≤◌, ◌⊎◌};
ghost use Rattle.zdd_families.specs.Map.{Knows};
ghost use Rattle.zdd_shared_table.specs.Seats.{map_of};
ghost use Rattle.zdd_product.specs.Halves.{HasHalves, HasSplit};
ghost use Rattle.zdd_product.specs.Seats.{KnowsBoth};

use crate::ops::Ops;
use unit_sets::UnitNo;
use zdd_words::NodeRef;

/// A reference at a unit: the sets without it, and the sets with it, it taken out.
#[derive(Clone, Copy)]
pub(crate) struct Half {
    pub lo: NodeRef,
    pub hi: NodeRef,
}

/// A reference split at its least unit.
#[derive(Clone, Copy)]
pub(crate) struct Split {
    pub level: UnitNo,
    pub half: Half,
}

/// Two references at the least unit of both.
#[derive(Clone, Copy)]
pub(crate) struct Halves {
    pub level: UnitNo,
    pub first: Half,
    pub second: Half,
}

// A reference at a unit below all its units.
fn whole(r: NodeRef) -> Half
    ensures { result ≡ record { lo = r; hi = 0 } }
{
    Half {
        lo: r,
        hi: NodeRef::EMPTY,
    }
}

impl<'s> Ops<'s> {
    /// A reference split at its least unit.
    pub(crate) fn split_node(&mut self, r: NodeRef) -> Split
        requires knows { Knows (map_of self.old) r }
        requires inner { 2 ≤ r }
        ensures { HasSplit self.old self.new r result }
    {
        let parts = self.parts(r);
        // Tells the proof that the level is a unit's number.
        parts.level.number();
        Split {
            level: parts.level,
            half: Half {
                lo: parts.lo,
                hi: parts.hi,
            },
        }
    }

    /// Two references at the least unit of both.
    pub(crate) fn halves(&mut self, a: NodeRef, b: NodeRef) -> Halves
        requires both { KnowsBoth self.old a b }
        requires some { (2 ≤ a) ⊎ (2 ≤ b) }
        ensures { HasHalves self.old self.new a b result }
    {
        if a.number() < 2 {
            let other = self.split_node(b);
            return Halves {
                level: other.level,
                first: whole(a),
                second: other.half,
            };
        }
        let one = self.split_node(a);
        if b.number() < 2 {
            return Halves {
                level: one.level,
                first: one.half,
                second: whole(b),
            };
        }
        let other = self.split_node(b);
        let first = one.level.number();
        let second = other.level.number();
        if first < second {
            return Halves {
                level: one.level,
                first: one.half,
                second: whole(b),
            };
        }
        if second < first {
            return Halves {
                level: other.level,
                first: whole(a),
                second: other.half,
            };
        }
        Halves {
            level: one.level,
            first: one.half,
            second: other.half,
        }
    }
}

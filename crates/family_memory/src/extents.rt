//! How far the sets of a family reach, and where those without its low units are.
ghost use Rattle.std.specs.Prelude.{◌≡◌, ◌≢◌, ℕ, List, [], ◌∷◌, true};
ghost use Rattle.zdd_families.specs.Family.{IsFamily, branch};
ghost use Rattle.family_memory.specs.Extents.{IncludesNone, IsExtent};

use unit_sets::UnitNo;
use zdd_words::NodeRef;

// Above the number of each unit.
const NO_UNIT: u16 = 4_096;

// More than a set has units.
const NO_SIZE: u16 = 4_096;

/// The greatest unit of a family's sets, a unit that each of them reaches or passes, and how many units each of them
/// has at least and at most. Units are marked by their numbers modulo 64, a bit for each: `units` has the marks of all
/// units of the sets, and `common` some that each of the sets has. `rest` leads to what is left of a node's sets
/// without some low units.
#[derive(Clone, Copy)]
pub(crate) struct Extent {
    pub last: u16,
    pub reach: u16,
    pub least: u16,
    pub most: u16,
    pub units: u64,
    pub common: u64,
    pub rest: NodeRef,
}

impl Extent {
    /// That of no sets.
    pub(crate) fn of_none() -> Extent
        ensures { IsExtent [] result }
    {
        Extent {
            last: 0,
            reach: NO_UNIT,
            least: NO_SIZE,
            most: 0,
            units: 0,
            common: u64::MAX,
            rest: NodeRef::EMPTY,
        }
    }

    /// That of the empty set.
    pub(crate) fn of_unit() -> Extent
        ensures { IsExtent ([] ∷ []) result }
    {
        Extent {
            last: 0,
            reach: 0,
            least: 0,
            most: 0,
            units: 0,
            common: 0,
            rest: NodeRef::UNIT,
        }
    }

    /// That of a node, by those of its parts.
    pub(crate) fn of_node(level: UnitNo, lo: Extent, hi: Extent, rest: NodeRef) -> Extent
        ensures extent { (f g : List (List ℕ)) → IsExtent f lo → IsExtent g hi → g ≢ []
            → IsExtent (branch level f g) result }
        ensures rest { result.rest ≡ rest }
    {
        let own = 1 << (level.number() % 64);
        Extent {
            last: level.number().max(lo.last).max(hi.last),
            reach: lo.reach.min(level.number().max(hi.reach)),
            least: lo.least.min(hi.least.saturating_add(1)),
            most: lo.most.max(hi.most.saturating_add(1)),
            units: lo.units | hi.units | own,
            common: lo.common & (hi.common | own),
            rest,
        }
    }

    /// Whether no set of the first family can include one of the second: each of these has a unit past all of the
    /// first family's, or more units, or a unit with a mark that none of the first family's has. Where it says no this
    /// may not be known.
    pub(crate) fn includes_none(self, other: Extent) -> bool
        ensures { (f g : List (List ℕ)) → IsFamily f → IsFamily g → IsExtent f self → IsExtent g other
            → result ≡ true → IncludesNone f g }
    {
        self.last < other.reach
            || self.most < other.least
            || other.common & self.units != other.common
    }
}

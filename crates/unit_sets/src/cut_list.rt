//! Lists of cut sets, by size and then by unit numbers.
ghost use Rattle.std.specs.Prelude.{◌≡◌, ◌<◌, ◌≤◌, ◌↔◌, [], ◌∷◌, ◌++◌, length, OnOk, All, true, false};
ghost use Rattle.std.specs.Prelude.{OnErr, IsErrOf, slice_get, Some};
ghost use Rattle.unit_sets.specs.UnitList.{IsRising};
ghost use Rattle.unit_sets.specs.CutOrder.{cut_cmp, IsInCutOrder, IsOrderedCuts, weight, weight_limit};

use crate::{PushEnd, UnitNo};
use flat_rows::Rows;
use std::alloc::Global;
use std::cmp::Ordering;
use std::marker::Model;

/// The order of a `CutList`: by size, and at one size lexicographically by unit numbers.
pub fn compare_cuts(a: &[UnitNo], b: &[UnitNo]) -> Ordering
    ensures { result ≡ cut_cmp a.now b.now }
{
    a.len().cmp(&b.len()).then(a.cmp(&b))
}

/// A list of cut sets, by size and then lexicographically by unit numbers.
///
/// Each set has some units, each once, in rising order.
#[derive(Clone, Drop)]
pub struct CutList {
    sets: Rows<UnitNo>,
}

impl Model for CutList {
    ghost use Rattle.std.specs.Prelude.{List, ℕ};
    ghost use Rattle.unit_sets.specs.CutOrder.{IsOrderedCuts};

    ghost Value = { List (List ℕ) };

    ghost view = { λ l. l.sets };

    ghost invariant = { λ l. IsOrderedCuts l.sets };
}

impl CutList {
    /// The most that a list may weigh: 1 for each set and 1 for each member.
    pub const WEIGHT_LIMIT: u64 = 16_777_216;

    /// The empty list, which takes no memory.
    pub fn new(alloc: Global) -> CutList
        ensures { result ≡ [] }
    {
        CutList {
            sets: Rows::new(alloc),
        }
    }

    /// How many sets the list has.
    pub fn len(&self) -> usize
        ensures value { result ≡ length self.now }
        ensures ordered { IsOrderedCuts self.now }
    {
        self.sets.len()
    }

    /// What the list weighs: 1 for each set and 1 for each member.
    pub fn weight(&self) -> u64
        ensures value { result ≡ weight self.now }
        ensures within { result ≤ weight_limit }
    {
        self.sets.len() as u64 + self.sets.item_count() as u64
    }

    /// The members of the set at a place, in rising order.
    pub fn members(&self, i: usize) -> &[UnitNo]
        requires { i < length self.now }
        ensures value { slice_get self.now i ≡ Some result.now }
        ensures ordered { IsOrderedCuts self.now }
    {
        self.sets.row(i)
    }

    /// Adds a set that stands after the last one.
    pub fn push(&mut self, set: &[UnitNo]) -> Result<(), PushEnd>
        requires filled { 0 < length set.now }
        requires rising { IsRising set.now }
        requires after_last { IsInCutOrder (self.old ++ set.now ∷ []) }

        ensures added { OnOk result (self.new ≡ self.old ++ set.now ∷ []) }
        ensures unchanged { OnErr result (self.new ≡ self.old) }

        // Only a list that would be too heavy is refused so, and each such list is.
        ensures limit { IsErrOf result PushEnd.ListLimit ↔ (weight_limit < weight (self.old ++ set.now ∷ [])) }
    {
        if self.weight() + 1 + set.len() as u64 > CutList::WEIGHT_LIMIT {
            return Err(PushEnd::ListLimit);
        }
        UnitNo::are_units(set);
        self.sets.push(set)?;
        Ok(())
    }

    /// Adds sets that stand after the last one. They are weighed before any of them is copied.
    pub fn append(&mut self, sets: &Rows<UnitNo>) -> Result<(), PushEnd>
        requires filled { All (λ set. 0 < length set) sets.now }
        requires rising { All IsRising sets.now }
        requires after_last { IsInCutOrder (self.old ++ sets.now) }

        ensures added { OnOk result (self.new ≡ self.old ++ sets.now) }
        ensures unchanged { OnErr result (self.new ≡ self.old) }

        // Only a list that would be too heavy is refused so, and each such list is.
        ensures limit { IsErrOf result PushEnd.ListLimit ↔ (weight_limit < weight (self.old ++ sets.now)) }
    {
        if !self.has_room(sets) {
            return Err(PushEnd::ListLimit);
        }
        UnitNo::are_units(sets.items());
        self.sets.append(sets)?;
        Ok(())
    }

    // Whether the list may weigh as much as it does with these sets. No sum of theirs is taken before it is known to
    // be small.
    fn has_room(&self, sets: &Rows<UnitNo>) -> bool
        ensures room { result ≡ true → weight (self.now ++ sets.now) ≤ weight_limit }
        ensures none { result ≡ false → weight_limit < weight (self.now ++ sets.now) }
    {
        let room = CutList::WEIGHT_LIMIT - self.weight();
        let count = sets.len() as u64;
        count <= room && sets.item_count() as u64 <= room - count
    }
}

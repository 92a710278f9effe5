//! Sets of a list that wait at their units, so that those within another set are found without a look at all.
//!
//! A set within another has all its units there, so it may wait at any one of them: it waits where the fewest do.
ghost use Rattle.std.specs.Prelude.{◌≡◌, ℕ, ◌+◌, ◌<◌, ◌≤◌, true, List, [], length, vec_len, take, All, IfOk};
ghost use Rattle.std.specs.Prelude.{OnOk};
ghost use Rattle.std.specs.List.{list_any};
ghost use Rattle.unit_sets.specs.UnitList.{among};
ghost use Rattle.cutset_lists.specs.Sets.{is_short_within, AreAlike};
ghost use Rattle.cutset_lists.specs.declared.waiting.TheConstants.{UNITS};

use crate::marks::{all_marked, mark, unmark};
use crate::{NoMemory, Sets, UnitNo};
use flat_rows::{GrowingList, empty_lists};
use std::alloc::Global;
use unit_sets::UnitSet;

// There are fewer unit numbers than this.
const UNITS: usize = UnitNo::MAX as usize + 1;

/// A set that waits, by its place in the list, and one more of its units, which tells most sets apart without a look at
/// them.
#[derive(Clone, Copy)]
pub struct Waiter {
    pub place: usize,
    pub sign: UnitNo,
}

/// The first sets of a list, each at one of its units, and the units of the set that is looked at.
#[derive(Drop)]
pub struct Waiting {
    at: Vec<GrowingList<Waiter>>,
    count: usize,
    marked: UnitSet,
    ghost all_units: { vec_len at ≡ UNITS },
}

impl Waiting {
    ghost use Rattle.cutset_lists.specs.Waiting.{AreFilled, AreReady, AreWaiting, IsWaiter, set_at, waiters_at};
    ghost use Rattle.cutset_lists.specs.declared.waiting.Waiter.{Waiter};

    pub fn new(alloc: Global) -> Result<Waiting, NoMemory>
        ensures { IfOk result (λ waiting. (sets : List (List ℕ)) → AreReady sets waiting) }
    {
        Ok(Waiting {
            at: empty_lists(alloc, UNITS)?,
            count: 0,
            marked: UnitSet::new(alloc)?,
        })
    }

    // How many wait at a unit.
    fn crowd(&self, unit: UnitNo) -> usize {
        self.at[unit.number() as usize].as_slice().len()
    }

    // A unit of the set where the fewest wait, besides one number, unless the set has no other.
    fn least_crowded(&self, set: &[UnitNo], besides: u16) -> UnitNo
        requires { 1 ≤ length set.now }
        ensures { among set.now result ≡ true }
    {
        let mut least = set[0];
        for unit in set {
            if unit.number() != besides
                && (least.number() == besides || self.crowd(*unit) < self.crowd(least))
            {
                least = *unit;
            }
        }
        least
    }

    // The next set waits too.
    fn add(&mut self, sets: &Sets) -> Result<(), NoMemory>
        requires waiting { AreReady sets.now self.old }
        requires inside { self.old.count < length sets.now }
        requires filled { AreFilled sets.now }
        ensures waiting { OnOk result (AreReady sets.now self.new) }
        ensures more { OnOk result (self.new.count ≡ self.old.count + 1) }
    {
        // The count is below this length, so its successor is a number too.
        let _length = sets.len();
        let set = sets.row(self.count);
        let home = self.least_crowded(set, 0);
        let sign = self.least_crowded(set, home.number());
        let waiter = Waiter {
            place: self.count,
            sign,
        };
        self.at[home.number() as usize].push(waiter)?;
        self.count += 1;
        Ok(())
    }

    /// All sets of fewer units than a size wait, of a list that goes by size.
    pub fn take_up(&mut self, sets: &Sets, size: usize) -> Result<(), NoMemory>
        requires waiting { AreReady sets.now self.old }
        requires filled { AreFilled sets.now }
        ensures waiting { OnOk result (AreReady sets.now self.new) }
        ensures rest { OnOk result (self.new.count < length sets.now → size ≤ length (set_at sets.now self.new.count)) }
    {
        while self.count < sets.len() && sets.row(self.count).len() < size {
            self.add(sets)?;
        }
        Ok(())
    }

    // Whether a waiter's set has fewer units than a size, and all of them are marked.
    fn is_found(sets: &Sets, marked: &UnitSet, size: usize, waiter: Waiter) -> bool
        requires { IsWaiter sets.now (length sets.now) waiter }
        ensures { result ≡ is_short_within size marked.now (set_at sets.now waiter.place) }
    {
        if !marked.contains(waiter.sign) {
            return false;
        }
        let smaller = sets.row(waiter.place);
        smaller.len() < size && all_marked(marked, smaller)
    }

    // Whether one of some waiters' sets does.
    fn is_any_found(sets: &Sets, marked: &UnitSet, size: usize, waiters: &[Waiter]) -> bool
        requires { All (IsWaiter sets.now (length sets.now)) waiters.now }
        ensures { result ≡ list_any (λ (waiter : Waiter). is_short_within size marked.now
            (set_at sets.now waiter.place)) waiters.now }
    {
        for waiter in waiters {
            if Waiting::is_found(sets, marked, size, *waiter) {
                return true;
            }
        }
        false
    }

    // Whether one of the sets that wait has fewer units than a size, and lies within a set, whose units are marked.
    fn finds_marked(&self, sets: &Sets, set: &[UnitNo], size: usize) -> bool
        requires waiting { AreWaiting sets.now self.now.count self.now.at.items }
        requires marks { AreAlike self.now.marked set.now }
        ensures { result ≡ list_any (is_short_within size set.now) (take self.now.count sets.now) }
    {
        for unit in set {
            let waiters = self.at[unit.number() as usize].as_slice();
            if Waiting::is_any_found(sets, &self.marked, size, waiters) {
                return true;
            }
        }
        false
    }

    /// Whether one of the sets that wait has fewer units than a size, and lies within a set.
    pub fn finds(&mut self, sets: &Sets, set: &[UnitNo], size: usize) -> bool
        requires { AreReady sets.now self.old }
        ensures found { result ≡ list_any (is_short_within size set.now) (take self.old.count sets.now) }
        ensures same { self.new.count ≡ self.old.count }
        ensures waiting { AreReady sets.now self.new }
    {
        mark(&mut self.marked, set);
        let found = self.finds_marked(sets, set, size);
        unmark(&mut self.marked, set);
        found
    }
}

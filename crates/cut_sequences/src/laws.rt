//! Laws of the orders of a set, each the one clause of a function that does nothing.
ghost use Rattle.std.specs.Prelude.{ℕ, List, Contains};
ghost use Rattle.std.specs.Cmp.Lexicographic.{slice_cmp};
ghost use Rattle.std.specs.List.Sorted.{IsStrictlySortedBy};
ghost use Rattle.std.specs.Ordering.{nat_cmp};
ghost use Rattle.unit_sets.specs.UnitList.{IsRising};
ghost use Rattle.cut_sequences.specs.Permutations.{permutations, IsOrderOf};

/// Each permutation of a set has the set's units, each once.
pub fn permutations_are_orders()
    ensures { (set order : List ℕ) → IsRising set → Contains (permutations set) order → IsOrderOf set order }
{}

/// Every list that has the set's units, each once, is one of the permutations.
pub fn orders_are_permutations()
    ensures { (set order : List ℕ) → IsRising set → IsOrderOf set order → Contains (permutations set) order }
{}

/// The permutations of a set rise lexicographically by unit numbers, so that each stands once.
pub fn permutations_rise()
    ensures { (set : List ℕ) → IsRising set → IsStrictlySortedBy (slice_cmp nat_cmp) (permutations set) }
{}

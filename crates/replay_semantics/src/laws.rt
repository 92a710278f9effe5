//! Laws of an order that grows by one unit, each the one clause of a function that does nothing.
ghost use Rattle.std.specs.Prelude.{◌≡◌, ℕ, suc, true, false, List, [], ◌∷◌, ◌++◌, length, Some, None, is_some};
ghost use Rattle.unit_sets.specs.UnitList.{among};
ghost use Rattle.fault_definitions.specs.FailingOrder.{is_admissible};
ghost use Rattle.fault_definitions.specs.Step.{step};
ghost use Rattle.fault_definitions.specs.Tree.{FaultTree};
ghost use Rattle.fault_definitions.specs.WellFormed.{IsTree};

/// What has failed stays failed, at the same step.
pub fn failures_stay()
    ensures { (tree : FaultTree) (order : List ℕ) (unit node number : ℕ) → step tree order node ≡ Some number
        → step tree (order ++ unit ∷ []) node ≡ Some number }
{}

/// What has not failed before and fails with one unit more fails at that unit's place.
pub fn new_failures_are_last()
    ensures { (tree : FaultTree) (order : List ℕ) (unit node : ℕ) → step tree order node ≡ None
        → is_some (step tree (order ++ unit ∷ []) node) ≡ true
        → step tree (order ++ unit ∷ []) node ≡ Some (suc (length order)) }
{}

/// The beginnings of an admissible order are admissible.
pub fn beginnings_are_admissible()
    ensures { (tree : FaultTree) → IsTree tree → (order : List ℕ) (unit : ℕ) → among order unit ≡ false
        → is_admissible tree (order ++ unit ∷ []) ≡ true → is_admissible tree order ≡ true }
{}

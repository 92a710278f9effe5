//! Laws of the definitions, each the one clause of a function that does nothing.
ghost use Rattle.std.specs.Prelude.{◌≡◌, ℕ, Bool, true, false, List, [], is_some};
ghost use Rattle.unit_sets.specs.UnitList.{among, is_within};
ghost use Rattle.fault_definitions.specs.Cut.{IsCutList, IsMinimalCut, is_cut};
ghost use Rattle.fault_definitions.specs.FailingOrder.{is_failing};
ghost use Rattle.fault_definitions.specs.Reading.{node_reads, reads};
ghost use Rattle.fault_definitions.specs.Reading.{Within};
ghost use Rattle.fault_definitions.specs.Step.{node_step, step};
ghost use Rattle.fault_definitions.specs.Tree.{FaultTree, IsNodeOf, IsUnitOf};
ghost use Rattle.fault_definitions.specs.WellFormed.{IsTree};

/// The reading of a node is by the readings of what it reads.
pub fn reading_by_inputs()
    ensures { (tree : FaultTree) → IsTree tree → (set : ℕ → Bool) (node : ℕ) → IsNodeOf tree node
        → reads tree set node ≡ node_reads tree set (reads tree set) node }
{}

/// The reading is monotone, of every kind of gate: what fails under some units fails under these and more.
pub fn reading_is_monotone()
    ensures { (tree : FaultTree) (small large : ℕ → Bool) → Within small large → (node : ℕ)
        → reads tree small node ≡ true → reads tree large node ≡ true }
{}

/// The empty set is no cut.
pub fn empty_set_is_no_cut()
    ensures { (tree : FaultTree) → IsTree tree → is_cut tree [] ≡ false }
{}

/// A set that has all units is a cut.
pub fn all_units_are_a_cut()
    ensures { (tree : FaultTree) → IsTree tree → (set : List ℕ)
        → ((unit : ℕ) → IsUnitOf tree unit → among set unit ≡ true) → is_cut tree set ≡ true }
{}

/// No proper subset of a minimal cut is a cut.
pub fn less_than_minimal_is_no_cut()
    ensures { (tree : FaultTree) (set smaller : List ℕ) (member : ℕ) → IsMinimalCut tree set
        → Within (among smaller) (among set)
        → among set member ≡ true → among smaller member ≡ false → is_cut tree smaller ≡ false }
{}

/// Each cut includes a minimal cut.
pub fn each_cut_includes_a_minimal_one()
    ensures { (tree : FaultTree) → IsTree tree → (set : List ℕ) → is_cut tree set ≡ true
        → (part : List ℕ) × IsMinimalCut tree part × (is_within set part ≡ true) }
{}

/// A tree has exactly one cut list.
pub fn each_tree_has_one_cut_list()
    ensures one { (tree : FaultTree) → (cuts : List (List ℕ)) × IsCutList tree cuts }
    ensures unique { (tree : FaultTree) (cuts others : List (List ℕ)) → IsCutList tree cuts → IsCutList tree others
        → cuts ≡ others }
{}

/// The step of a node is by the steps of what it reads.
pub fn step_by_inputs()
    ensures { (tree : FaultTree) → IsTree tree → (order : List ℕ) (node : ℕ) → IsNodeOf tree node
        → step tree order node ≡ node_step tree order (step tree order) node }
{}

/// The static bound: where the top event has a step under an order, the units of the order are a cut. So are those of
/// an order that fails the top event.
pub fn failing_order_is_a_cut()
    ensures step { (tree : FaultTree) (order : List ℕ) → is_some (step tree order tree.top) ≡ true
        → is_cut tree order ≡ true }
    ensures failing { (tree : FaultTree) (order : List ℕ) → is_failing tree order ≡ true → is_cut tree order ≡ true }
{}

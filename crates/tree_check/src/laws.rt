//! Laws of the definitions, each the one clause of a function that does nothing.
ghost use Rattle.std.specs.Prelude.{◌≡◌, ◌⊎◌, All};
ghost use Rattle.fault_definitions.specs.Tree.{FaultTree};
ghost use Rattle.fault_definitions.specs.WellFormed.{IsTree};
ghost use Rattle.fault_words.specs.declared.place.Place.{Place};
ghost use Rattle.galileo_tree.specs.ReadTree.{KeepsForm, ReadTree};
ghost use Rattle.tree_check.specs.Checked.{IsFaultless, IsFirstFault, Stands};
ghost use Rattle.tree_check.specs.declared.fault.CheckCode.{CheckCode};

/// The statements of a text stand for at most one tree.
pub fn statements_have_one_tree()
    ensures { (read : ReadTree) (tree other : FaultTree) → Stands read tree → IsTree tree → Stands read other
        → IsTree other → tree ≡ other }
{}

/// They have at most one first fault.
pub fn statements_have_one_first_fault()
    ensures { (read : ReadTree) (code other : CheckCode) (place there : Place) → IsFirstFault read code place
        → IsFirstFault read other there
        → (code ≡ other) × (place ≡ there) }
{}

/// Statements that stand for a tree have no fault.
pub fn tree_or_fault()
    ensures { (read : ReadTree) (code : CheckCode) (place : Place) → IsFaultless read → ¬ IsFirstFault read code place }
{}

/// Statements that keep the form of their spelling stand for a tree, or have a first fault.
pub fn some_tree_or_some_fault()
    ensures { (read : ReadTree) → All KeepsForm read.statements
        → ((tree : FaultTree) × Stands read tree × IsTree tree)
        ⊎ ((code : CheckCode) × (place : Place) × IsFirstFault read code place) }
{}

//! Laws of path sets, each the clause of a function that does nothing.
ghost use Rattle.std.specs.Prelude.{◌≡◌, ℕ, true, List};
ghost use Rattle.fault_definitions.specs.Cut.{is_cut};
ghost use Rattle.fault_definitions.specs.Tree.{FaultTree};
ghost use Rattle.path_sets.specs.Paths.{IsMinimalPath, IsPathList, is_path, meets};

/// Every path set has a member in common with every cut, and so has every minimal one.
pub fn paths_meet_cuts()
    ensures each { (tree : FaultTree) (path cut : List ℕ) → is_path tree path ≡ true → is_cut tree cut ≡ true
        → meets cut path ≡ true }
    ensures minimal { (tree : FaultTree) (path cut : List ℕ) → IsMinimalPath tree path → is_cut tree cut ≡ true
        → meets cut path ≡ true }
{}

/// A tree has one path list.
pub fn one_path_list()
    ensures { (tree : FaultTree) (paths others : List (List ℕ)) → IsPathList tree paths → IsPathList tree others
        → paths ≡ others }
{}

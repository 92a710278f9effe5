//! Laws of families and of the references that stand for them.
ghost use Rattle.std.specs.Prelude.{◌≡◌, ◌≢◌, ◌↔◌, ◌⊎◌, ℕ, ◌<◌, ◌≤◌, ◌^◌, List, [], ◌∷◌, Contains};
ghost use Rattle.zdd_families.specs.Family.{IsFamily, IsAbove, branch, first_unit, sets_with, sets_without};
ghost use Rattle.zdd_families.specs.Map.{Grown, IsClosed, IsInner, IsUnique, Knows, family, level_in};
ghost use Rattle.zdd_words.specs.Word.{hi_of, level_of, lo_of, packed};

/// Two families with the same sets are equal.
pub fn sets_tell_a_family()
    ensures { (f g : List (List ℕ)) → IsFamily f → IsFamily g → ((set : List ℕ) → Contains f set ↔ Contains g set)
        → f ≡ g }
{}

/// A branch has the sets of lo, the sets of hi each with x added, and no others.
pub fn sets_of_a_branch()
    ensures { (x : ℕ) (lo hi : List (List ℕ)) (set : List ℕ)
        → Contains (branch x lo hi) set ↔ (Contains lo set ⊎ ((rest : List ℕ) × (set ≡ x ∷ rest) × Contains hi rest)) }
{}

/// A branch of two families of units above x is a family.
pub fn a_branch_is_a_family()
    ensures { (x : ℕ) (lo hi : List (List ℕ)) → IsFamily lo → IsFamily hi → IsAbove x lo → IsAbove x hi
        → IsFamily (branch x lo hi) }
{}

/// A branch of families of units above x gives its parts back: lo, hi, and x where hi has sets.
pub fn parts_of_a_branch()
    ensures lo { (x : ℕ) (lo hi : List (List ℕ)) → IsAbove x lo → sets_without x (branch x lo hi) ≡ lo }
    ensures hi { (x : ℕ) (lo hi : List (List ℕ)) → IsAbove x lo → IsAbove x hi → sets_with x (branch x lo hi) ≡ hi }
    ensures level { (x : ℕ) (lo hi : List (List ℕ)) → hi ≢ [] → first_unit (branch x lo hi) ≡ x }
{}

/// What the terminals stand for: the family without sets, and the family of the empty set alone.
pub fn families_of_the_terminals()
    ensures empty { (known : ℕ → ℕ) → family known 0 ≡ [] }
    ensures unit { (known : ℕ → ℕ) → family known 1 ≡ [] ∷ [] }
{}

/// What any other reference stands for, over a map whose words have levels below 4096: the branch of
/// its lo and hi where it is an inner reference, and else the family without sets.
pub fn family_of_a_reference()
    ensures inner { (known : ℕ → ℕ) (r : ℕ) → ((q : ℕ) → level_of (known q) < 4096) → IsInner known r
        → family known r ≡ branch (level_of (known r)) (family known (lo_of (known r)))
        (family known (hi_of (known r))) }
    ensures improper { (known : ℕ → ℕ) (r : ℕ) → 2 ≤ r → ¬ (IsInner known r) → family known r ≡ [] }
{}

/// Over a closed map each known reference stands for a family of units from its level on.
pub fn references_stand_for_families()
    ensures family { (known : ℕ → ℕ) (r : ℕ) → IsClosed known → Knows known r → IsFamily (family known r) }
    ensures above { (known : ℕ → ℕ) (x r : ℕ) → IsClosed known → Knows known r → x < level_in known r
        → IsAbove x (family known r) }
    ensures filled { (known : ℕ → ℕ) (r : ℕ) → IsClosed known → Knows known r → r ≢ 0 → family known r ≢ [] }
{}

/// A closed map that has all that another has gives each reference of the other the same family.
pub fn families_stay()
    ensures { (known known' : ℕ → ℕ) (r : ℕ) → IsClosed known → IsClosed known' → Grown known known' → Knows known r
        → family known' r ≡ family known r }
{}

/// Over a closed map in which different references have different words, two known references are
/// equal exactly where their families are.
pub fn equal_references()
    ensures { (known : ℕ → ℕ) (r q : ℕ) → IsClosed known → IsUnique known → Knows known r → Knows known q
        → ((r ≡ q) ↔ (family known r ≡ family known q)) }
{}

/// An example: the node of level 1 with lo the node of the one set {2}, and hi `UNIT`, has two sets.
pub fn a_node_of_two_sets()
    ensures { (known : ℕ → ℕ) (r q : ℕ) → IsClosed known → q < 2 ^ 26 → known q ≡ packed 2 0 1 → known r ≡ packed 1 q 1
        → family known r ≡ (1 ∷ []) ∷ (2 ∷ []) ∷ [] }
{}

//! Laws of the operations on families: each has one result, and what it gives follows from the parts of its families.
ghost use Rattle.std.specs.Prelude.{◌≡◌, ◌↔◌, ℕ, length, List, [], ◌∷◌, ◌++◌, suc, Bool, false, ◌&&◌, ◌||◌, nat_le};
ghost use Rattle.std.specs.Prelude.{Contains};
ghost use Rattle.zdd_families.specs.Counting.{EachOnce};
ghost use Rattle.zdd_families.specs.Cuts.{Cuts};
ghost use Rattle.zdd_families.specs.Within.{count_within};
ghost use Rattle.zdd_families.specs.Inclusion.{Includes, includes_one};
ghost use Rattle.zdd_families.specs.Minimal.{IsMinimal};
ghost use Rattle.zdd_families.specs.Nodes.{IsNodeCount, Reaches};
ghost use Rattle.zdd_families.specs.Product.{IsProduct, IsProductOfParts};
ghost use Rattle.zdd_families.specs.Union.{IsUnion};
ghost use Rattle.zdd_families.specs.Votes.{IsVotes};
ghost use Rattle.zdd_families.specs.Without.{IsWithout};
ghost use Rattle.zdd_families.specs.Family.{IsFamily, IsAbove, branch};
ghost use Rattle.zdd_families.specs.Map.{IsClosed, IsUnique, Knows, family};
ghost use Rattle.unit_sets.specs.UnitList.{some_within};

/// Each operation has one result.
pub fn one_result()
    ensures union { (f g h h' : List (List ℕ)) → IsUnion f g h → IsUnion f g h' → h ≡ h' }
    ensures product { (f g h h' : List (List ℕ)) → IsProduct f g h → IsProduct f g h' → h ≡ h' }
    ensures without { (f g h h' : List (List ℕ)) → IsWithout f g h → IsWithout f g h' → h ≡ h' }
    ensures minimal { (f h h' : List (List ℕ)) → IsMinimal f h → IsMinimal f h' → h ≡ h' }
    ensures votes { (k : ℕ) (families : List (List (List ℕ))) (h h' : List (List ℕ)) → IsVotes k families h
        → IsVotes k families h' → h ≡ h' }
{}

/// The ends of the unions: a family with no sets, and a family with itself.
pub fn ends_of_unions()
    ensures none { (g : List (List ℕ)) → IsFamily g → IsUnion [] g g }
    ensures with_none { (f : List (List ℕ)) → IsFamily f → IsUnion f [] f }
    ensures itself { (f : List (List ℕ)) → IsFamily f → IsUnion f f f }
{}

/// Two families that are cut at one unit have as their union the branch of the unions of their parts.
pub fn unions_by_parts()
    ensures { (x : ℕ) (f f0 f1 g g0 g1 h0 h1 : List (List ℕ)) → Cuts x f f0 f1 → Cuts x g g0 g1 → IsUnion f0 g0 h0
        → IsUnion f1 g1 h1 → IsUnion f g (branch x h0 h1) }
{}

/// The ends of the products: the family without sets, and that of the empty set alone.
pub fn ends_of_products()
    ensures none { (g : List (List ℕ)) → IsProduct [] g [] }
    ensures with_none { (f : List (List ℕ)) → IsProduct f [] [] }
    ensures unit { (g : List (List ℕ)) → IsFamily g → IsProduct ([] ∷ []) g g }
    ensures with_unit { (f : List (List ℕ)) → IsFamily f → IsProduct f ([] ∷ []) f }
{}

/// Two families that are cut at one unit have as their product the branch of the product of the sets
/// without it and of the union of the other three products.
pub fn products_by_parts()
    ensures { (x : ℕ) (f f0 f1 g g0 g1 h0 h1 : List (List ℕ)) → Cuts x f f0 f1 → Cuts x g g0 g1 → IsFamily g0
        → IsFamily g1 → IsProductOfParts f0 f1 g0 g1 h0 h1 → IsProduct f g (branch x h0 h1) }
{}

/// The ends of what is left without the sets that include another: a family without sets on either
/// side, the empty set, which every set includes, and the family of the empty set alone.
pub fn ends_of_withouts()
    ensures none { (g : List (List ℕ)) → IsWithout [] g [] }
    ensures with_none { (f : List (List ℕ)) → IsFamily f → IsWithout f [] f }
    ensures with_unit { (f : List (List ℕ)) → IsWithout f ([] ∷ []) [] }
    ensures unit_there { (g : List (List ℕ)) → Contains g [] → IsWithout ([] ∷ []) g [] }
    ensures unit_left { (g : List (List ℕ)) → includes_one g [] ≡ false → IsWithout ([] ∷ []) g ([] ∷ []) }
{}

/// What is left of two families that are cut at one unit; and of a family of units above x only the
/// sets of the other without x matter.
pub fn withouts_by_parts()
    ensures both { (x : ℕ) (f f0 f1 g g0 g1 h0 w h1 : List (List ℕ)) → Cuts x f f0 f1 → Cuts x g g0 g1
        → IsWithout f0 g0 h0 → IsWithout f1 g1 w → IsWithout w g0 h1 → IsWithout f g (branch x h0 h1) }
    ensures above { (x : ℕ) (f g g0 g1 h : List (List ℕ)) → Cuts x g g0 g1 → IsAbove x f → IsWithout f g0 h
        → IsWithout f g h }
{}

/// The minimal sets of a family that is cut at a unit: those without it, and those with it whose rest
/// includes none of them. The terminals are minimal.
pub fn minimal_sets_by_parts()
    ensures none { IsMinimal [] [] }
    ensures unit { IsMinimal ([] ∷ []) ([] ∷ []) }
    ensures parts { (x : ℕ) (f f0 f1 h0 w h1 : List (List ℕ)) → Cuts x f f0 f1 → IsFamily f0 → IsMinimal f0 h0
        → IsMinimal f1 w → IsWithout w h0 h1 → IsMinimal f (branch x h0 h1) }
{}

/// Each set of a family includes a minimal one.
pub fn minimal_sets_cover()
    ensures { (f least : List (List ℕ)) → IsFamily f → IsMinimal f least → (set : List ℕ) → Contains f set
        → Includes least set }
{}

/// Votes before the first family, and with one family more: the votes that were there, and each set of
/// one vote fewer joined with a set of the family.
pub fn votes_by_members()
    ensures no_votes { IsVotes 0 [] ([] ∷ []) }
    ensures too_many { (k : ℕ) → IsVotes (suc k) [] [] }
    ensures none { (families : List (List (List ℕ))) (last h : List (List ℕ)) → IsVotes 0 families h
        → IsVotes 0 (families ++ last ∷ []) h }
    ensures one_more { (last : List (List ℕ)) → IsFamily last
        → (families : List (List (List ℕ))) (k : ℕ) (same fewer more h : List (List ℕ)) → IsVotes (suc k) families same
        → IsVotes k families fewer → IsProduct fewer last more → IsUnion same more h
        → IsVotes (suc k) (families ++ last ∷ []) h }
{}

/// Which sets of units include a set of a result: a union where of either family, a product where of
/// both, the minimal sets where of the family, and votes where of that many families.
pub fn sets_within_results()
    ensures union { (f g h : List (List ℕ)) (within : ℕ → Bool) → IsUnion f g h
        → some_within h within ≡ (some_within f within || some_within g within) }
    ensures product { (f g h : List (List ℕ)) (within : ℕ → Bool) → IsProduct f g h
        → some_within h within ≡ (some_within f within && some_within g within) }
    ensures minimal { (f least : List (List ℕ)) (within : ℕ → Bool) → IsFamily f → IsMinimal f least
        → some_within least within ≡ some_within f within }
    ensures votes { (k : ℕ) (families : List (List (List ℕ))) (h : List (List ℕ)) (within : ℕ → Bool)
        → IsVotes k families h → some_within h within ≡ nat_le k (count_within families within) }
{}

/// A family has one number of nodes.
pub fn one_node_count()
    ensures { (f : List (List ℕ)) (n m : ℕ) → IsNodeCount f n → IsNodeCount f m → n ≡ m }
{}

/// Over a closed map in which different references have different words, the nodes of a known
/// reference's family are as many as the references that it reaches.
pub fn nodes_are_references()
    ensures { (known : ℕ → ℕ) → IsClosed known → IsUnique known → (r : ℕ) → Knows known r → (references : List ℕ)
        → EachOnce references → ((q : ℕ) → Contains references q ↔ Reaches known r q)
        → IsNodeCount (family known r) (length references) }
{}

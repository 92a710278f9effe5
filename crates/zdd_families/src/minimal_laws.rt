//! Laws of minimal families, in which no set includes another. The functions do nothing.
ghost use Rattle.std.specs.Prelude.{◌≡◌, ◌↔◌, ℕ, suc, Bool, List, [], ◌∷◌, ◌++◌};
ghost use Rattle.zdd_families.specs.Cuts.{Cuts};
ghost use Rattle.unit_sets.specs.UnitList.{some_within};
ghost use Rattle.zdd_families.specs.Minimal.{IsMinimal};
ghost use Rattle.zdd_families.specs.Product.{IsProduct};
ghost use Rattle.zdd_families.specs.Union.{IsUnion};
ghost use Rattle.zdd_families.specs.Votes.{IsVotes};
ghost use Rattle.zdd_families.specs.Without.{IsWithout};
ghost use Rattle.zdd_families.specs.Antichains.{IsAntichain};
ghost use Rattle.zdd_families.specs.Least.{IsLeastFor, IsLeastOfAll, IsLeastProduct, IsLeastProductOfAll};
ghost use Rattle.zdd_families.specs.Least.{IsLeastUnion, IsLeastVotes};
ghost use Rattle.zdd_families.specs.Units.{LiesBelow, ShareNoUnit};
ghost use Rattle.zdd_families.specs.Family.{IsAbove, IsFamily, branch};

/// Two families in which no set includes another are equal where the same sets of units include a set of each.
pub fn sets_within_tell_a_minimal_family()
    ensures { (f g : List (List ℕ)) → IsAntichain f → IsAntichain g
        → ((within : ℕ → Bool) → some_within f within ≡ some_within g within) → f ≡ g }
{}

/// The minimal sets of a family are the one family in which no set includes another and which is true where it is.
pub fn minimal_sets_by_sets_within()
    ensures { (f least : List (List ℕ)) → IsFamily f → (IsLeastFor (some_within f) least ↔ IsMinimal f least) }
{}

/// What the words of this crate say, in those of the operations: the minimal sets of a union, of a product, of votes.
pub fn minimal_sets_of_results()
    ensures union { (f g h least : List (List ℕ)) → IsUnion f g h → (IsLeastUnion f g least ↔ IsMinimal h least) }
    ensures product { (f g h least : List (List ℕ)) → IsProduct f g h → (IsLeastProduct f g least ↔ IsMinimal h least) }
    ensures votes { (count : ℕ) (families : List (List (List ℕ))) (h least : List (List ℕ)) → IsVotes count families h
        → (IsLeastVotes count families least ↔ IsMinimal h least) }
{}

/// What is left of a minimal family is minimal.
pub fn what_is_left_is_minimal()
    ensures { (f g h : List (List ℕ)) → IsAntichain f → IsWithout f g h → IsAntichain h }
{}

/// The minimal sets of the union of two families that are cut at one unit; and of a minimal family that is cut
/// at a unit and one above it, where the sets with the unit are rid of the other family alone.
pub fn minimal_unions_by_parts()
    ensures both { (x : ℕ) (f f0 f1 g g0 g1 lo all hi : List (List ℕ)) → Cuts x f f0 f1 → Cuts x g g0 g1
        → IsWithout all lo hi → IsLeastUnion f0 g0 lo → IsLeastUnion f1 g1 all → IsLeastUnion f g (branch x lo hi) }
    ensures first { (x : ℕ) (f f0 f1 g lo hi : List (List ℕ)) → Cuts x f f0 f1 → IsAbove x g → IsAntichain f
        → IsFamily f1 → IsLeastUnion f0 g lo → IsWithout f1 g hi → IsLeastUnion f g (branch x lo hi) }
{}

/// The same of products. At one unit the sets with it come from all sets of both families, the unit taken out;
/// else they are rid of the first family's sets without the unit alone, and of none where the first family lies below
/// the other.
pub fn minimal_products_by_parts()
    ensures both { (x : ℕ) (f f0 f1 g g0 g1 lo all hi c d : List (List ℕ)) → Cuts x f f0 f1 → Cuts x g g0 g1
        → IsWithout all lo hi → IsLeastProduct f0 g0 lo → IsLeastUnion f0 f1 c → IsLeastUnion g0 g1 d
        → IsLeastProduct c d all → IsLeastProduct f g (branch x lo hi) }
    ensures first { (x : ℕ) (f f0 f1 g lo all hi : List (List ℕ)) → Cuts x f f0 f1 → IsAbove x g
        → IsLeastProduct f0 g lo → IsLeastProduct f1 g all → IsWithout all f0 hi → IsLeastProduct f g (branch x lo hi) }
    ensures below { (x : ℕ) (f f0 f1 g lo hi : List (List ℕ)) → Cuts x f f0 f1 → IsAntichain f → LiesBelow f g
        → IsAbove x g → IsLeastProduct f0 g lo → IsLeastProduct f1 g hi → IsLeastProduct f g (branch x lo hi) }
{}

/// In the product of two minimal families that share no unit no set includes another.
pub fn products_of_families_that_share_no_unit()
    ensures { (f g h : List (List ℕ)) → IsAntichain f → IsAntichain g → ShareNoUnit f g → IsProduct f g h
        → IsAntichain h }
{}

/// A product by splitting: the sets of either family that include one of the other are in it, beside the product
/// of the rest.
pub fn minimal_products_by_splitting()
    ensures { (f g rest rest' common common' alone joined least : List (List ℕ)) → IsWithout f g rest
        → IsWithout g f rest' → IsWithout f rest common → IsWithout g rest' common' → IsLeastUnion common common' alone
        → IsLeastProduct rest rest' joined → IsLeastUnion alone joined least → IsLeastProduct f g least }
{}

/// The minimal sets of many families, by those of fewer: unions of two lists, a product with one family more, and
/// votes with one family more in front.
pub fn minimal_sets_of_many()
    ensures unions { (fs gs : List (List (List ℕ))) (f g h : List (List ℕ)) → IsLeastOfAll fs f → IsLeastOfAll gs g
        → IsLeastUnion f g h → IsLeastOfAll (fs ++ gs) h }
    ensures products { (fs : List (List (List ℕ))) (f g h : List (List ℕ)) → IsLeastProductOfAll fs f
        → IsLeastProduct f g h → IsLeastProductOfAll (fs ++ g ∷ []) h }
    ensures votes { (count : ℕ) (f : List (List ℕ)) (fs : List (List (List ℕ))) (same fewer more h : List (List ℕ))
        → IsLeastVotes (suc count) fs same → IsLeastVotes count fs fewer → IsLeastProduct fewer f more
        → IsLeastUnion same more h → IsLeastVotes (suc count) (f ∷ fs) h }
{}

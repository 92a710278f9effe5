//! Laws of the parts of families, which splitting at least units gives. The functions do nothing.
ghost use Rattle.std.specs.Prelude.{◌≡◌, ◌≢◌, ◌⊎◌, ℕ, ◌+◌, ◌<◌, List, [], Contains, drop, get_or, length};
ghost use Rattle.zdd_families.specs.Due.{IsDueToMinimal, IsDueToProduct, IsDueToUnion, IsDueToVotes};
ghost use Rattle.zdd_families.specs.Due.{IsDueToWithout, IsInnerFamily, Splits};
ghost use Rattle.zdd_families.specs.Minimal.{IsMinimal};
ghost use Rattle.zdd_families.specs.Nodes.{IsReached};
ghost use Rattle.zdd_families.specs.Product.{IsProduct};
ghost use Rattle.zdd_families.specs.Union.{IsUnion};
ghost use Rattle.zdd_families.specs.Votes.{IsVotes};
ghost use Rattle.zdd_families.specs.Without.{IsWithout};
ghost use Rattle.zdd_families.specs.Spans.{Spans};
ghost use Rattle.zdd_families.specs.VotesParts.{PartOfOne, SpanEach};

/// Each operation on families whose units lie between two numbers has a result.
pub fn results_exist()
    ensures union { (low size : ℕ) (f g : List (List ℕ)) → Spans low size f → Spans low size g
        → (h : List (List ℕ)) × IsUnion f g h }
    ensures product { (low size : ℕ) (f g : List (List ℕ)) → Spans low size f → Spans low size g
        → (h : List (List ℕ)) × IsProduct f g h }
    ensures without { (low size : ℕ) (f g : List (List ℕ)) → Spans low size f → Spans low size g
        → (h : List (List ℕ)) × IsWithout f g h }
    ensures minimal { (low size : ℕ) (f : List (List ℕ)) → Spans low size f
        → (least : List (List ℕ)) × IsMinimal f least }
    ensures votes { (low size count : ℕ) (families : List (List (List ℕ))) → SpanEach low size families
        → (h : List (List ℕ)) × IsVotes count families h }
{}

/// Each part of an operation's result is due to the operation or a part of an operand.
pub fn parts_of_results()
    ensures union { (low size : ℕ) (f g h part : List (List ℕ)) → Spans low size f → Spans low size g → IsUnion f g h
        → IsReached h part → IsDueToUnion f g part ⊎ (IsReached f part ⊎ IsReached g part) }
    ensures product { (low size : ℕ) (f g h part : List (List ℕ)) → Spans low size f → Spans low size g
        → IsProduct f g h → IsReached h part → IsDueToProduct f g part ⊎ (IsReached f part ⊎ IsReached g part) }
    ensures without { (low size : ℕ) (f g h part : List (List ℕ)) → Spans low size f → Spans low size g
        → IsWithout f g h → IsReached h part → IsDueToWithout f g part ⊎ IsReached f part }
    ensures minimal { (low size : ℕ) (f least part : List (List ℕ)) → Spans low size f → IsMinimal f least
        → IsReached least part → IsDueToMinimal f part ⊎ IsReached f part }
    ensures votes { (low size count : ℕ) (families : List (List (List ℕ))) (h part : List (List ℕ))
        → SpanEach low size families → IsVotes count families h → IsReached h part
        → IsDueToVotes count families part ⊎ PartOfOne families part }
{}

/// A family that splits at a unit is no end of an operation.
pub fn families_that_split_are_inner()
    ensures { (x : ℕ) (f lo hi : List (List ℕ)) → Splits x f lo hi → IsInnerFamily f }
{}

//! Laws of sets and of lists of sets.
ghost use Rattle.std.specs.Prelude.{◌≡◌, ◌↔◌, ℕ, List, Contains};
ghost use Rattle.std.specs.Cmp.{IsTotalOrder};
ghost use Rattle.std.specs.declared.cmp.Ordering.TheVariants.{Equal};
ghost use Rattle.unit_sets.specs.UnitList.{among, IsRising};
ghost use Rattle.unit_sets.specs.CutOrder.{cut_cmp, IsInCutOrder};

/// Any two cut sets are ordered, the order is transitive, and only equal sets tie.
pub fn cut_order_is_total()
    ensures total { IsTotalOrder cut_cmp }
    ensures ties { (x y : List ℕ) → cut_cmp x y ≡ Equal → x ≡ y }
{}

/// Two rising lists of units with the same members are equal.
pub fn members_tell_a_set()
    ensures { (xs ys : List ℕ) → IsRising xs → IsRising ys → ((unit : ℕ) → among xs unit ≡ among ys unit) → xs ≡ ys }
{}

/// Two lists in cut order with the same sets are equal, so there is one list of given cut sets.
pub fn sets_tell_a_list()
    ensures { (xs ys : List (List ℕ)) → IsInCutOrder xs → IsInCutOrder ys
        → ((cut : List ℕ) → Contains xs cut ↔ Contains ys cut) → xs ≡ ys }
{}

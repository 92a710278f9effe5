//! Laws of residuals, each the one clause of a function that does nothing.
ghost use Rattle.std.specs.Prelude.{◌≡◌, ℕ, suc, ◌<◌, true, List, length, position, slice_get};
ghost use Rattle.std.specs.Option.{option_map};
ghost use Rattle.unit_sets.specs.UnitList.{among, IsRising};
ghost use Rattle.residual_ledger.specs.Residual.{residual, cut_at};
ghost use Rattle.residual_ledger.specs.Tight.{is_tight, tight};
ghost use Rattle.residual_ledger.specs.Holding.{holding};

/// The first number among the tight cut sets, from 1, is one more than the place of the first tight one, from 0.
pub fn tight_begins_with_the_first()
    ensures { (out : List ℕ) (most : ℕ) (cuts : List (List ℕ))
        → slice_get (tight out most cuts) 0 ≡ option_map suc (position (is_tight out most) cuts) }
{}

/// The places of the cut sets that hold a unit rise, and are exactly those of the sets with it.
pub fn holding_has_the_holders()
    ensures rising { (cuts : List (List ℕ)) (unit : ℕ) → IsRising (holding cuts unit) }
    ensures inside { (cuts : List (List ℕ)) (unit place : ℕ) → among (holding cuts unit) place ≡ true
        → place < length cuts }
    ensures members { (cuts : List (List ℕ)) (unit place : ℕ) → place < length cuts
        → among (holding cuts unit) place ≡ among (cut_at cuts place) unit }
{}

/// Two ways to write the units that are out leave the same of each cut set, where they have the same members.
pub fn residual_goes_by_members()
    ensures { (out other : List ℕ) → ((unit : ℕ) → among out unit ≡ among other unit) → (cut : List ℕ)
        → residual out cut ≡ residual other cut }
{}

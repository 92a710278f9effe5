//! Laws of the decision, each the one clause of a function that does nothing.
ghost use Rattle.std.specs.Prelude.{◌≡◌, ◌⊎◌, ℕ, ◌<◌, true, false, List, [], length, Option};
ghost use Rattle.unit_sets.specs.UnitList.{among};
ghost use Rattle.unit_sets.specs.declared.request.CrewNo.{CrewNo};
ghost use Rattle.residual_ledger.specs.Tight.{tight};
ghost use Rattle.margin_policy.specs.declared.request.Reply.TheVariants.{Granted};
ghost use Rattle.margin_policy.specs.Asked.{AskedView};
ghost use Rattle.margin_policy.specs.Held.{Held, units_out, with_all_held};
ghost use Rattle.margin_policy.specs.declared.request.Request.{Request};
ghost use Rattle.margin_policy.specs.Decide.{decide_take, decide_margin, is_granted};
ghost use Rattle.margin_policy.specs.Guard.{KeepsMore, HasAllUnits};
ghost use Rattle.margin_policy.specs.Standing.{StandingView, IsRequestFor, nothing_held, reply_of, after};

/// After a granted take every cut set keeps more than the margin in force.
pub fn a_granted_take_leaves_none_tight()
    ensures { (cuts : List (List ℕ)) (held : Held) (margin : ℕ) (crew : CrewNo) (asked : AskedView)
        → ((unit : ℕ) → among asked.units unit ≡ true → unit < length held)
        → decide_take cuts held margin asked ≡ Granted
        → tight (units_out (with_all_held crew asked.units held)) margin cuts ≡ [] }
{}

/// After a granted margin every cut set keeps more than it.
pub fn a_granted_margin_leaves_none_tight()
    ensures { (cuts : List (List ℕ)) (held : Held) (supervisor : Option CrewNo) (crew : CrewNo) (number : ℕ)
        → decide_margin cuts held supervisor crew number ≡ Granted → tight (units_out held) number cuts ≡ [] }
{}

/// Where every cut set keeps more than the margin in force, it still does after each request that was decided.
pub fn decided_requests_keep_more()
    ensures { (standing : StandingView) (crew : CrewNo) (request : Request) → HasAllUnits standing
        → IsRequestFor standing.units request → KeepsMore standing
        → KeepsMore (after standing crew request (reply_of standing crew request)) }
{}

/// Where nothing is out, a request that was decided leaves every cut set with more than the margin then in force, or
/// it was not granted and changes nothing.
pub fn first_requests_keep_more_or_change_nothing()
    ensures { (standing : StandingView) (crew : CrewNo) (request : Request)
        → standing.held ≡ nothing_held standing.units → IsRequestFor standing.units request
        → KeepsMore (after standing crew request (reply_of standing crew request))
        ⊎ ((is_granted (reply_of standing crew request) ≡ false)
        × (after standing crew request (reply_of standing crew request) ≡ standing)) }
{}

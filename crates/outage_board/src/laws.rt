//! Laws of histories, each the one clause of a function that does nothing.
ghost use Rattle.std.specs.Prelude.{◌≡◌, ◌⊎◌, ℕ, ◌<◌, List, ◌++◌, All, length};
ghost use Rattle.margin_policy.specs.Guard.{KeepsMore};
ghost use Rattle.margin_policy.specs.Standing.{StandingView, IsRequestFor, nothing_held};
ghost use Rattle.outage_board.specs.declared.entry.Entry.{Entry};
ghost use Rattle.outage_board.specs.Histories.{IsLegal, IsWhole, standing_after};
ghost use Rattle.outage_board.specs.Boards.{BoardView, IsBoard, IsUsedUp};
ghost use Rattle.outage_board.specs.Safety.{IsSafe, GrantsNothing};

/// The history of a board is whole where the docket of each crew is used up.
pub fn used_up_board_is_whole()
    ensures { (board : BoardView) → IsBoard board
        → ((crew : ℕ) → crew < length board.deck.crews → IsUsedUp board crew)
        → IsWhole board.deck.dockets board.history }
{}

/// Each beginning of a legal history is legal, and the rest is legal after what the beginning leaves.
pub fn beginnings_are_legal()
    ensures { (standing : StandingView) (history more : List Entry) → IsLegal standing (history ++ more)
        → IsLegal standing history × IsLegal (standing_after standing history) more }
{}

/// From a standing with nothing out, a legal history leaves every cut set with more than the margin in force, or the
/// margin rule has granted nothing in it, and the standing is the one at the beginning.
pub fn legal_histories_keep_more()
    ensures { (standing : StandingView) (history : List Entry) → standing.held ≡ nothing_held standing.units
        → All (λ (entry : Entry). IsRequestFor standing.units entry.request) history → IsLegal standing history
        → KeepsMore (standing_after standing history)
        ⊎ (GrantsNothing history × (standing_after standing history ≡ standing)) }
{}

/// After each granted take and each granted margin of a board, every cut set keeps more than the margin then in force.
pub fn boards_are_safe()
    ensures { (board : BoardView) → IsBoard board → IsSafe board.deck.opening board.history }
{}

//! Laws of live histories, each the one clause of a function that does nothing.
ghost use Rattle.std.specs.Prelude.{◌≡◌, ℕ, List, ◌++◌, map, length};
ghost use Rattle.margin_policy.specs.Standing.{StandingView};
ghost use Rattle.outage_board.specs.declared.entry.Entry.{Entry};
ghost use Rattle.live_board.specs.declared.entry.LiveEntry.{LiveEntry};
ghost use Rattle.live_board.specs.Histories.{IsLiveHistory, made_by};
ghost use Rattle.live_board.specs.Views.{numbers_from};

/// Each beginning of a live history is one.
pub fn beginnings_are_live()
    ensures { (opening : StandingView) (history more : List LiveEntry) → IsLiveHistory opening (history ++ more)
        → IsLiveHistory opening history }
{}

/// The entries of a live history with one pass number have the places 0, 1, 2 and so on.
pub fn places_count_up()
    ensures { (opening : StandingView) (history : List LiveEntry) (number : ℕ) → IsLiveHistory opening history
        → map (λ (entry : Entry). entry.place) (made_by number history)
        ≡ numbers_from 0 (length (made_by number history)) }
{}

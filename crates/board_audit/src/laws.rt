//! Laws of verdicts. The functions do nothing.
ghost use Rattle.std.specs.Prelude.{◌≡◌, ◌↔◌, ℕ, List};
ghost use Rattle.crew_script.specs.Dockets.{IsDockets};
ghost use Rattle.crew_script.specs.declared.dockets.Crew.{Crew};
ghost use Rattle.fault_definitions.specs.Tree.{FaultTree};
ghost use Rattle.outage_board.specs.Boards.{deck_of};
ghost use Rattle.board_audit.specs.declared.verdict.Verdict.{Verdict};
ghost use Rattle.board_audit.specs.declared.verdict.Verdict.TheVariants.{Yes};
ghost use Rattle.board_audit.specs.Verdicts.{IsVerdict, IsWholeLog};

/// Every log has exactly one verdict.
pub fn logs_have_one_verdict()
    ensures some { (tree : FaultTree) (cuts : List (List ℕ)) (crews : List Crew) (margin : ℕ) (log : List ℕ)
        → IsDockets crews → (verdict : Verdict) × IsVerdict (deck_of tree cuts crews margin) log verdict }
    ensures one { (tree : FaultTree) (cuts : List (List ℕ)) (crews : List Crew) (margin : ℕ) (log : List ℕ)
        (verdict other : Verdict) → IsDockets crews → IsVerdict (deck_of tree cuts crews margin) log verdict
        → IsVerdict (deck_of tree cuts crews margin) log other → verdict ≡ other }
{}

/// The verdict is yes exactly where the log is that of a legal and whole history of the deck.
pub fn whole_logs_are_yes()
    ensures { (tree : FaultTree) (cuts : List (List ℕ)) (crews : List Crew) (margin : ℕ) (log : List ℕ)
        → IsDockets crews → IsVerdict (deck_of tree cuts crews margin) log Yes
        ↔ IsWholeLog (deck_of tree cuts crews margin) log }
{}

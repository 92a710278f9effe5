//! Laws of waves, each the clause of a function that does nothing.
ghost use Rattle.std.specs.Prelude.{◌≡◌, ℕ, ◌<◌, ◌≤◌, false, List, All, Option, length, map};
ghost use Rattle.unit_sets.specs.declared.request.CrewNo.{CrewNo};
ghost use Rattle.fault_definitions.specs.Tree.{FaultTree, IsUnitOf, unit_count};
ghost use Rattle.fault_definitions.specs.WellFormed.{IsTree};
ghost use Rattle.margin_policy.specs.Asked.{has_repeat};
ghost use Rattle.margin_policy.specs.Standing.{nothing_held};
ghost use Rattle.outage_board.specs.declared.entry.Entry.{Entry};
ghost use Rattle.outage_board.specs.Histories.{IsLegal, IsWhole, standing_after};
ghost use Rattle.wave_planner.specs.Granted.{AreGranted, IsGrant, IsOrderOf, empty_board, planned_deck, take_one};
ghost use Rattle.wave_planner.specs.Waves.{AreFirstFit, wave_at};
ghost use Rattle.wave_planner.specs.WavesText.{HaveNames, SaysPlanner};

/// There is one list of first-fit waves of wanted units.
pub fn first_fit_waves_are_one()
    ensures { (cuts : List (List ℕ)) (margin : ℕ) (wanted : List ℕ) (waves others : List (List ℕ))
        → AreFirstFit cuts margin wanted waves → AreFirstFit cuts margin wanted others → waves ≡ others }
{}

/// From the empty board every order of taking the units of a wave, one by one, is granted throughout.
pub fn every_order_of_a_wave_is_granted()
    ensures { (cuts : List (List ℕ)) (margin : ℕ) (wanted : List ℕ) (waves : List (List ℕ)) (units : ℕ)
        (supervisor : Option CrewNo) (crew : CrewNo) (place : ℕ) (order : List ℕ)
        → AreFirstFit cuts margin wanted waves → All (λ unit. unit ≤ units) wanted → place < length waves
        → IsOrderOf (wave_at waves place) order
        → AreGranted (empty_board units cuts margin supervisor) crew (map take_one order) }
{}

/// The text of first-fit waves of units of a tree, whose names have the form of names, says one crew, `planner`, that
/// takes the units of each wave one by one and then returns them. Its lines have no fault.
pub fn written_waves_say_one_crew()
    ensures { (tree : FaultTree) (cuts : List (List ℕ)) (margin : ℕ) (wanted : List ℕ) (waves : List (List ℕ))
        → IsTree tree → All (HaveNames tree) waves → AreFirstFit cuts margin wanted waves
        → has_repeat wanted ≡ false → All (IsUnitOf tree) wanted → SaysPlanner tree waves }
{}

/// In a legal and whole history of that crew's requests, at the margin of the plan, every request is granted, and
/// nothing is out at its end.
pub fn planned_requests_are_granted()
    ensures granted { (tree : FaultTree) (cuts : List (List ℕ)) (margin : ℕ) (wanted : List ℕ) (waves : List (List ℕ))
        (history : List Entry) → IsTree tree → AreFirstFit cuts margin wanted waves → has_repeat wanted ≡ false
        → All (IsUnitOf tree) wanted → IsLegal (planned_deck tree cuts margin waves).opening history
        → IsWhole (planned_deck tree cuts margin waves).dockets history → All IsGrant history }
    ensures none_out { (tree : FaultTree) (cuts : List (List ℕ)) (margin : ℕ) (wanted : List ℕ)
        (waves : List (List ℕ)) (history : List Entry) → IsTree tree → AreFirstFit cuts margin wanted waves
        → has_repeat wanted ≡ false → All (IsUnitOf tree) wanted
        → IsLegal (planned_deck tree cuts margin waves).opening history
        → IsWhole (planned_deck tree cuts margin waves).dockets history
        → (standing_after (planned_deck tree cuts margin waves).opening history).held ≡ nothing_held (unit_count tree) }
{}

//! The rule of a board's table, and what each kind of step tells the pass that makes it.
use crate::state::BoardState;
use crate::view::View;
use atomic_table::{Join, Play, Split, TableRule};
use std::snapshot::Snapshot;

pub struct TurnRule;

impl TableRule<BoardState, View, Snapshot<BoardState>> for TurnRule {
    ghost use Rattle.outage_board.specs.Rule.{KeepsTurns};
    ghost use Rattle.outage_board.specs.Views.{first_view};

    ghost holds = { KeepsTurns };

    ghost first = { λ about. first_view about.value };
}

/// A try to take the turn.
pub struct Takes;

impl Play<BoardState, View> for Takes {
    ghost use Rattle.std.specs.Prelude.{◌≡◌, ◌==◌, MatchBool};
    ghost use Rattle.outage_board.specs.Turns.{HasTaken};

    ghost then = { λ step before found after. MatchBool (found == 0) (HasTaken before after) (after ≡ before) };
}

/// The turn is given back.
pub struct Gives;

impl Play<BoardState, View> for Gives {
    ghost use Rattle.outage_board.specs.Turns.{HasGiven};

    ghost then = { λ step before found after. HasGiven before after };
}

/// A new pass without crews looks at the board.
pub struct Enters;

impl Play<BoardState, View> for Enters {
    ghost use Rattle.std.specs.Prelude.{◌≡◌};
    ghost use Rattle.outage_board.specs.Views.{bare};

    ghost then = { λ step before found after. after.0 ≡ bare before.0 };
}

/// The first crew of a pass gets a pass of its own.
pub struct Deals;

impl Split<View> for Deals {
    ghost use Rattle.outage_board.specs.Views.{of_first, of_others};

    ghost left = { of_others };

    ghost right = { of_first };
}

/// Two passes are made one.
pub struct Gathers;

impl Join<View> for Gathers {
    ghost use Rattle.outage_board.specs.Views.{spent, together};

    ghost both = { together };

    ghost spent = { spent };
}

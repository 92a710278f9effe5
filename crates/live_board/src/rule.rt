//! The rule of a live board's table, and what each kind of step tells the pass that makes it.
use crate::state::LiveState;
use crate::view::View;
use atomic_table::{Join, Play, Split, TableRule};
use std::snapshot::Snapshot;

pub struct HistoryRule;

impl TableRule<LiveState, View, Snapshot<LiveState>> for HistoryRule {
    ghost use Rattle.live_board.specs.Rule.{KeepsHistory};
    ghost use Rattle.live_board.specs.Views.{first_view};

    ghost holds = { KeepsHistory };

    ghost first = { λ about. first_view about.value };
}

/// A try to take the turn.
pub struct Takes;

impl Play<LiveState, View> for Takes {
    ghost use Rattle.std.specs.Prelude.{◌≡◌, ◌==◌, MatchBool};
    ghost use Rattle.live_board.specs.Turns.{HasTaken};

    ghost then = { λ step before found after. MatchBool (found == 0) (HasTaken before after) (after ≡ before) };
}

/// The turn is given back.
pub struct Gives;

impl Play<LiveState, View> for Gives {
    ghost use Rattle.live_board.specs.Turns.{HasGiven};

    ghost then = { λ step before found after. HasGiven before after };
}

/// A pass finds out what the rule says of what it was told.
pub struct Looks;

impl Play<LiveState, View> for Looks {
    ghost use Rattle.live_board.specs.Turns.{HasLooked};

    ghost then = { λ step before found after. HasLooked before after };
}

/// A new pass gets the first spare number of another.
pub struct Divides;

impl Split<View> for Divides {
    ghost use Rattle.live_board.specs.Views.{of_new, of_old};

    ghost left = { of_old };

    ghost right = { of_new };
}

/// Two passes are made one.
pub struct Unites;

impl Join<View> for Unites {
    ghost use Rattle.live_board.specs.Views.{spent, together};

    ghost both = { together };

    ghost spent = { spent };
}

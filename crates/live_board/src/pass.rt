//! The passes with which threads ask a live board.
ghost use Rattle.std.specs.Prelude.{◌≡◌, length};

use crate::table::Place;
use std::marker::Model;

/// The right to ask a board. A contract sees its board, its number, its spare numbers, the history that it has seen,
/// and its own numbers, each with the entries that were made under it.
#[derive(Drop)]
pub struct Pass {
    pub(crate) seat: Place,
    pub(crate) number: u32,
    // how many entries were made under the number
    pub(crate) next: u32,
    // the spare numbers: the first, and how many there are
    pub(crate) first: u32,
    pub(crate) left: u32,
}

impl Model for Pass {
    ghost use Rattle.live_board.specs.Passes.{LivePass, pass_of, IsPass};

    ghost Value = { LivePass };

    ghost view = { λ pass. pass_of pass.seat.table_id pass.seat.me.0 };

    ghost invariant = { λ pass. IsPass pass.seat.me pass.number pass.next pass.first pass.left };
}

impl Pass {
    /// How many passes may be split off it.
    pub fn spare(&self) -> u32
        ensures { result ≡ length self.now.spare }
    {
        self.left
    }
}

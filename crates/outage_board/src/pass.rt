//! The passes with which threads serve crews.
ghost use Rattle.std.specs.Prelude.{◌≡◌, ◌<◌, ◌≤◌, [], ◌∷◌, ◌++◌, length, vec_capacity, IfSome, IfNone};

use crate::turns::Place;
use std::marker::Model;
use unit_sets::CrewNo;

/// The right to serve a crew on a board. A contract sees its board, its crew, and the entries that were made with it.
#[derive(Drop)]
pub struct CrewPass {
    pub(crate) seat: Place,
    pub(crate) crew: CrewNo,
    // the place of the crew's next request
    pub(crate) next: u32,
}

impl Model for CrewPass {
    ghost use Rattle.std.specs.Prelude.{◌≡◌, length};
    ghost use Rattle.outage_board.specs.Passes.{Pass, pass_of, entries_made, IsPass};

    ghost Value = { Pass };

    ghost view = { λ pass. pass_of pass.seat.table_id pass.seat.me.0 pass.crew };

    ghost invariant = { λ pass. IsPass pass.seat.me pass.crew
        × (pass.next ≡ length (entries_made pass.seat.me.0.crews)) };
}

impl CrewPass {
    /// The crew that is served with it.
    pub fn crew(&self) -> CrewNo
        ensures { result ≡ self.now.crew }
    {
        self.crew
    }

    /// The place of its crew's next request, which is how many entries were made with it.
    pub fn place(&self) -> u32
        ensures { result ≡ length self.now.made }
    {
        self.next
    }
}

/// Passes, with room for one of each crew. A contract sees their list and the room.
#[derive(Drop)]
pub struct Passes {
    passes: Vec<CrewPass>,
    room: usize,
}

impl Model for Passes {
    ghost use Rattle.std.specs.Prelude.{◌≤◌, length, vec_capacity};
    ghost use Rattle.outage_board.specs.Passes.{PassList};

    ghost Value = { PassList };

    ghost view = { λ list. record { passes = list.passes.items; room = list.room } };

    ghost invariant = { λ list. (length list.passes.items ≤ list.room) × (list.room ≤ vec_capacity list.passes) };
}

impl Passes {
    pub(crate) fn of(passes: Vec<CrewPass>, room: usize) -> Passes
        requires few { length passes.items ≤ room }
        requires reserved { room ≤ vec_capacity passes }
        ensures { result ≡ record { passes = passes.items; room = room } }
    {
        Passes { passes, room }
    }

    /// Takes the last pass out. None exactly where there is none.
    pub fn pop(&mut self) -> Option<CrewPass>
        ensures none { IfNone result (self.old.passes ≡ []) }
        ensures unchanged { IfNone result (self.new ≡ self.old) }
        ensures last { IfSome result (λ pass. self.old.passes ≡ self.new.passes ++ pass ∷ []) }
        ensures room { self.new.room ≡ self.old.room }
        ensures shorter { IfSome result (λ pass. length self.new.passes < self.new.room) }
    {
        self.passes.pop()
    }

    /// Adds a pass at the end.
    pub fn push(&mut self, pass: CrewPass)
        requires { length self.old.passes < self.old.room }
        ensures last { self.new.passes ≡ self.old.passes ++ pass ∷ [] }
        ensures room { self.new.room ≡ self.old.room }
    {
        self.passes.push_reserved(pass);
    }

    /// How many passes there are.
    pub fn len(&self) -> usize
        ensures { result ≡ length self.now.passes }
    {
        self.passes.len()
    }

    /// How many passes there may be.
    pub fn room(&self) -> usize
        ensures room { result ≡ self.now.room }
        ensures few { length self.now.passes ≤ result }
    {
        self.room
    }
}

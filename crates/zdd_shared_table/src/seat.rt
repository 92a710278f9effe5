//! A seat at the store: what a caller knows of its nodes.
ghost use Rattle.std.specs.Prelude.{◌≤◌};
ghost use Rattle.zdd_shared_table.specs.Seats.{IsSoundSeat};

use crate::search::Place;
use std::marker::Model;

/// What a thread knows of a store, and by which it works with it. It takes no bytes.
#[derive(Drop)]
pub struct StoreSeat {
    pub(crate) place: Place,
}

impl Model for StoreSeat {
    ghost use Rattle.zdd_shared_table.specs.Seats.{Seated, seated, IsSeat};

    ghost Value = { Seated };

    ghost view = { λ s. seated s.place.table_id s.place.me.0 };

    ghost invariant = { λ s. IsSeat s.place.table_id s.place.me };
}

impl StoreSeat {
    /// Tells a proof what every seat keeps. Nothing is computed.
    pub fn is_sound(&self)
        ensures sound { IsSoundSeat self.now }
        ensures shares { 1 ≤ self.now.share }
    {
        let _ = &self.place;
    }
}

//! Waves of units.
ghost use Rattle.std.specs.Prelude.{◌≡◌, ◌<◌, length};
ghost use Rattle.wave_planner.specs.Waves.{wave_at};

use flat_rows::Rows;
use std::marker::Model;
use unit_sets::UnitNo;

/// Units in waves, one wave after the other. A contract sees the list of the waves, each as the list of its units.
#[derive(Drop)]
pub struct Waves {
    waves: Rows<UnitNo>,
}

impl Model for Waves {
    ghost use Rattle.std.specs.Prelude.{List, ℕ};

    ghost Value = { List (List ℕ) };

    ghost view = { λ w. w.waves };
}

impl Waves {
    /// The waves of some rows.
    pub(crate) fn of(waves: Rows<UnitNo>) -> Waves
        ensures { result ≡ waves }
    {
        Waves { waves }
    }

    /// How many waves there are.
    pub fn len(&self) -> usize
        ensures { result ≡ length self.now }
    {
        self.waves.len()
    }

    /// The units of a wave, in the order wanted. The first wave has the place 0.
    pub fn wave(&self, i: usize) -> &[UnitNo]
        requires { i < length self.now }
        ensures { result.now ≡ wave_at self.now i }
    {
        self.waves.row(i)
    }
}

//! The number of a unit.
ghost use Rattle.std.specs.Prelude.{◌≡◌, ◌-◌, ◌↔◌, All, IsSome, IfSome};
ghost use Rattle.unit_sets.specs.Unit.{IsUnit};

use std::marker::Model;

/// The number of a unit, a basic event of a fault tree: 1 to 4095.
#[derive(Clone, Copy, Debug, PartialEq, Eq, PartialOrd, Ord)]
pub struct UnitNo {
    number: u16,
}

impl Model for UnitNo {
    ghost use Rattle.std.specs.Prelude.{ℕ};
    ghost use Rattle.unit_sets.specs.Unit.{IsUnit};

    ghost Value = { ℕ };

    ghost view = { λ u. u.number };

    ghost invariant = { λ u. IsUnit u.number };

    ghost inverse = { λ n. record { number = n } };
}

impl UnitNo {
    /// The greatest number of a unit, and so the most units of a tree.
    pub const MAX: u16 = 4095;

    /// The unit with this number, or `None` where no unit can have it.
    pub fn new(number: u16) -> Option<UnitNo>
        ensures valid { IsSome result ↔ IsUnit number }
        ensures value { IfSome result (λ u. u ≡ number) }
    {
        if 1 <= number && number <= UnitNo::MAX {
            Some(UnitNo { number })
        } else {
            None
        }
    }

    /// This unit's number.
    pub fn number(self) -> u16
        ensures value { result ≡ self }
        ensures unit { IsUnit self }
    {
        self.number
    }

    /// The unit's place, from 0, in a list that has an item for each unit.
    pub fn index(self) -> usize
        ensures value { result ≡ self - 1 }
        ensures unit { IsUnit self }
    {
        self.number() as usize - 1
    }

    /// Tells a proof that each unit of the slice has a unit's number. Nothing is computed.
    pub fn are_units(units: &[UnitNo])
        ensures { All IsUnit units.now }
    {
        for unit in units {
            unit.number();
        }
    }
}

//! The units that one take asks for.
ghost use Rattle.std.specs.Prelude.{◌≡◌, is_some, IfSome, true};
ghost use Rattle.margin_policy.specs.Asked.{has_repeat, can_be_asked};

use deck_limits::MOST_TAKEN;
use std::marker::Model;
use unit_sets::UnitNo;

/// The units of one take, in the order asked, and the mark that some name of it names no unit.
///
/// They stand in place, so no call takes memory.
#[derive(Clone, Copy)]
pub struct AskedUnits {
    // The places from the count on are filled with the unit 1.
    places: [UnitNo; MOST_TAKEN],
    count: u8,
    unknown: bool,
}

impl Model for AskedUnits {
    ghost use Rattle.std.specs.Prelude.{◌++◌, ◌-◌, length, take, replicate};
    ghost use Rattle.margin_policy.specs.Asked.{AskedView, HoldsAsked, padded, asked_limit};

    ghost Value = { AskedView };

    ghost view = { λ a. record { units = take a.count a.places; unknown = a.unknown } };

    ghost invariant = { λ a. HoldsAsked a.places a.count a.unknown };

    ghost inverse = { λ v. record { places = padded v.units; count = length v.units; unknown = v.unknown } };

    ghost use Rattle.margin_policy.specs.AskedInside.{given_back};

    ghost inverse_ok = { λ a h. given_back a h };
}

// Whether a unit stands twice.
fn repeats(units: &[UnitNo]) -> bool
    ensures { result ≡ has_repeat units.now }
{
    for i in 0..units.len() {
        if units[i + 1..].contains(&units[i]) {
            return true;
        }
    }
    false
}

// Whether a take may ask for these: not too many, none twice, and something at all.
fn may_be_asked(units: &[UnitNo], unknown: bool) -> bool
    ensures { result ≡ can_be_asked units.now unknown }
{
    units.len() <= AskedUnits::LIMIT && !repeats(units) && (unknown || !units.is_empty())
}

impl AskedUnits {
    /// The most units that one take may ask for.
    pub const LIMIT: usize = MOST_TAKEN;

    /// A take of these units, or `None` where there are too many, one twice, or nothing at all.
    pub fn new(units: &[UnitNo], unknown: bool) -> Option<AskedUnits>
        ensures valid { is_some result ≡ can_be_asked units.now unknown }
        ensures value { IfSome result (λ asked. asked ≡ record { units = units.now; unknown = unknown }) }
    {
        if !may_be_asked(units, unknown) {
            return None;
        }
        let mut places = [UnitNo::new(1)?; AskedUnits::LIMIT];
        for i in 0..units.len() {
            places[i] = units[i];
        }
        Some(AskedUnits {
            places,
            count: units.len() as u8,
            unknown,
        })
    }

    /// The units, in the order asked.
    pub fn units(&self) -> &[UnitNo]
        ensures value { result.now ≡ self.now.units }
        ensures asked { can_be_asked self.now.units self.now.unknown ≡ true }
    {
        &self.places[..self.count as usize]
    }

    /// Whether some name of the take names no unit.
    pub fn unknown(&self) -> bool
        ensures { result ≡ self.now.unknown }
    {
        self.unknown
    }
}

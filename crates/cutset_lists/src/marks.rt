//! Units that are marked: whether all or some units of a row are, without a look at any other row.
ghost use Rattle.std.specs.Prelude.{◌≡◌, ℕ, ◌||◌, []};
ghost use Rattle.std.specs.List.{list_any};
ghost use Rattle.unit_sets.specs.UnitList.{among, is_within};
ghost use Rattle.cutset_lists.specs.Sets.{AreAlike};

use crate::UnitNo;
use unit_sets::UnitSet;

/// Whether some unit of a row is marked.
pub fn some_marked(marked: &UnitSet, units: &[UnitNo]) -> bool
    ensures { result ≡ list_any (among marked.now) units.now }
{
    for unit in units {
        if marked.contains(*unit) {
            return true;
        }
    }
    false
}

/// Whether each unit of a row is marked.
pub fn all_marked(marked: &UnitSet, units: &[UnitNo]) -> bool
    ensures { result ≡ is_within marked.now units.now }
{
    for unit in units {
        if !marked.contains(*unit) {
            return false;
        }
    }
    true
}

/// The units of a row are marked too.
pub fn mark(marked: &mut UnitSet, units: &[UnitNo])
    ensures { (unit : ℕ) → among marked.new unit ≡ (among marked.old unit || among units.now unit) }
{
    for unit in units {
        let _fresh = marked.insert(*unit);
    }
}

/// The units of a row, which alone are marked, no longer are.
pub fn unmark(marked: &mut UnitSet, units: &[UnitNo])
    requires { AreAlike marked.old units.now }
    ensures { marked.new ≡ [] }
{
    for unit in units {
        let _there = marked.remove(*unit);
    }
}

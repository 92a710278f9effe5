//! The union of two sets of units.
ghost use Rattle.std.specs.Prelude.{OnOk};
ghost use Rattle.cutset_lists.specs.Sets.{IsUnion};

use unit_sets::{NoMemory, UnitNo};

// Puts the units of both sets into a row, in rising order.
pub fn merge(union: &mut Vec<UnitNo>, left: &[UnitNo], right: &[UnitNo]) -> Result<(), NoMemory>
    ensures { OnOk result (IsUnion left.now right.now union.new.items) }
{
    union.clear();
    let mut i = 0;
    let mut j = 0;
    while i < left.len() && j < right.len() {
        let x = left[i];
        let y = right[j];
        if x.number() < y.number() {
            union.push(x)?;
            i += 1;
        } else {
            union.push(y)?;
            j += 1;
            if x.number() == y.number() {
                i += 1;
            }
        }
    }
    union.extend_from_slice(&left[i..])?;
    union.extend_from_slice(&right[j..])
}

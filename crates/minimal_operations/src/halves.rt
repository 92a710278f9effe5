//! A reference at a unit that none of its units is below.
ghost use Rattle.std.specs.Prelude.{◌≤◌};
ghost use Rattle.unit_sets.specs.Unit.{IsUnit};
ghost use Rattle.zdd_families.specs.Map.{level_in};
ghost use Rattle.family_memory.specs.Memory.{Has, map_of};
ghost use Rattle.minimal_operations.specs.Halves.{IsHalf};

use family_memory::FamilyMemory;
use unit_sets::UnitNo;
use zdd_words::NodeRef;

/// The sets without a unit, and those with it, it taken out.
#[derive(Clone, Copy)]
pub struct Half {
    pub lo: NodeRef,
    pub hi: NodeRef,
}

/// A reference at a unit.
pub fn half_at(memory: &FamilyMemory, unit: UnitNo, r: NodeRef) -> Half
    requires has { Has memory.now r }
    requires level { unit ≤ level_in (map_of memory.now) r }
    ensures { IsHalf memory.now unit r result }
{
    memory.is_sound();
    if memory.level(r) == unit.number() {
        let parts = memory.parts(r);
        return Half {
            lo: parts.lo,
            hi: parts.hi,
        };
    }
    Half {
        lo: r,
        hi: NodeRef::EMPTY,
    }
}

//! Orders in which units fail.
ghost use Rattle.std.specs.Prelude.{◌≡◌, ◌↔◌, IsTrue, IsSome, IfSome, IfOk};
ghost use Rattle.fault_model.specs.Order.{AreDistinct};

use crate::NoMemory;
use std::alloc::Global;
use std::marker::Model;
use unit_sets::{UnitNo, UnitSet};

/// An order in which units fail, each once. A contract sees it as the list of their numbers.
#[derive(Drop)]
pub struct Order {
    units: Vec<UnitNo>,
}

impl Model for Order {
    ghost use Rattle.std.specs.Prelude.{ℕ, List};
    ghost use Rattle.fault_model.specs.Order.{AreDistinct};

    ghost Value = { List ℕ };

    ghost view = { λ order. order.units.items };

    ghost invariant = { λ order. AreDistinct order.units.items };
}

impl Order {
    /// The order of these units, or `None` where one stands twice.
    pub fn new(alloc: Global, units: &[UnitNo]) -> Result<Option<Order>, NoMemory>
        ensures some { IfOk result (λ made. IsSome made ↔ AreDistinct units.now) }
        ensures units { IfOk result (λ made. IfSome made (λ order. order ≡ units.now)) }
    {
        if !are_distinct(alloc, units)? {
            return Ok(None);
        }
        let units = Vec::from_slice(alloc, units)?;
        Ok(Some(Order { units }))
    }

    /// The units, in their order.
    pub fn as_slice(&self) -> &[UnitNo]
        ensures units { result.now ≡ self.now }
        ensures distinct { AreDistinct self.now }
    {
        self.units.as_slice()
    }
}

fn are_distinct(alloc: Global, units: &[UnitNo]) -> Result<bool, NoMemory>
    ensures { IfOk result (λ distinct. IsTrue distinct ↔ AreDistinct units.now) }
{
    let mut seen = UnitSet::new(alloc)?;
    for unit in units {
        if !seen.insert(*unit) {
            return Ok(false);
        }
    }
    Ok(true)
}

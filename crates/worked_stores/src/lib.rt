//! Stores of nodes that are nearly full, for the tests of the crates above.
//!
//! It stands on `zdd_shared_table`. The slots are filled with families of one set of one unit each, of units that no
//! worked tree has.
#![tactic(auto)]

ghost use Rattle.std.specs.Prelude.{◌≡◌, ◌^◌, IfOk, OnOk};

use std::alloc::Global;
use std::test::Fail;
use unit_sets::UnitNo;
use zdd_shared_table::{Full, NodeStore, StoreSeat, StoreStart};
use zdd_words::NodeRef;

// How many slots a store has, by its bits.
const BITS: u32 = 10;

const SLOTS: u16 = 1_024;

// The units of the families begin above this one.
const UNITS_BELOW: u16 = 1_000;

/// A store of 2^10 slots of which so many are left, and a seat that knows the others.
pub fn store_with(alloc: Global, left: u16) -> Result<StoreStart, Fail>
    ensures own { IfOk result (λ start. start.seat.store ≡ start.store) }
    ensures share { IfOk result (λ start. start.seat.share ≡ 2 ^ 32) }
{
    let StoreStart { store, mut seat } = NodeStore::new(alloc, BITS)?;
    fill(&store, &mut seat, SLOTS.saturating_sub(left))?;
    Ok(StoreStart { store, seat })
}

// The family of one set of one unit.
fn fill_one(store: &NodeStore, seat: &mut StoreSeat, level: UnitNo) -> Result<NodeRef, Full>
    requires { seat.old.store ≡ store.now }
    ensures store { seat.new.store ≡ seat.old.store }
    ensures share { seat.new.share ≡ seat.old.share }
{
    store.node(seat, level, NodeRef::EMPTY, NodeRef::UNIT)
}

// Fills so many slots of a store with such families.
fn fill(store: &NodeStore, seat: &mut StoreSeat, slots: u16) -> Result<(), Fail>
    requires { seat.old.store ≡ store.now }
    ensures store { OnOk result (seat.new.store ≡ seat.old.store) }
    ensures share { OnOk result (seat.new.share ≡ seat.old.share) }
{
    for number in 1..slots.min(SLOTS) + 1 {
        let level = UnitNo::new(UNITS_BELOW + number).ok_or("no unit")?;
        fill_one(store, seat, level)?;
    }
    Ok(())
}

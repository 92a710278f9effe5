//! Families in a store that are spelled as lists of units, for the tests of the crates above.
//!
//! It stands on `zdd_product`. A list has the units of each set, with a 0 behind them.
#![tactic(auto)]

ghost use Rattle.std.specs.Prelude.{◌≡◌, ◌<◌, ◌≤◌, [], ◌∷◌, IfOk, OnOk};
ghost use Rattle.unit_sets.specs.Unit.{IsUnit};
ghost use Rattle.zdd_families.specs.Map.{Knows, KnowsAs, Grown, level_in};
ghost use Rattle.zdd_shared_table.specs.Seats.{map_of};

use std::alloc::Global;
use std::test::Fail;
use unit_sets::UnitNo;
use zdd_product::Ops;
use zdd_shared_table::{Full, NodeStore, StoreSeat};
use zdd_words::{NodeRef, Parts};

/// A unit, by its number.
pub fn unit(number: u16) -> Result<UnitNo, Fail> {
    Ok(UnitNo::new(number).ok_or("no unit")?)
}

/// The operations on a store, with ample memory.
pub fn ops_on<'s>(alloc: Global, store: &'s NodeStore, seat: StoreSeat) -> Result<Ops<'s>, Fail>
    requires { seat.store ≡ store.now }
    ensures { IfOk result (λ ops. ops ≡ seat) }
{
    match Ops::new(alloc, store, seat) {
        Ok(ops) => Ok(ops),
        Err(_) => Err(Fail::new("no memory")),
    }
}

/// The node of one set of one unit.
pub fn single(ops: &mut Ops, level: UnitNo) -> Result<NodeRef, Full>
    ensures keeps { Grown (map_of ops.old) (map_of ops.new) }
    ensures store { ops.new.store ≡ ops.old.store }
    ensures share { ops.new.share ≡ ops.old.share }
    ensures known { IfOk result (λ r. KnowsAs (map_of ops.new) r ((level ∷ []) ∷ [])) }
{
    ops.node(level, NodeRef::EMPTY, NodeRef::UNIT)
}

/// The family of the sets that a list spells, each with a 0 behind it.
pub fn family_of(ops: &mut Ops, spelled: &[u16]) -> Result<NodeRef, Fail>
    ensures store { OnOk result (ops.new.store ≡ ops.old.store) }
    ensures keeps { OnOk result (Grown (map_of ops.old) (map_of ops.new)) }
    ensures knows { IfOk result (λ r. Knows (map_of ops.new) r) }
{
    let mut all = NodeRef::EMPTY;
    let mut set = NodeRef::UNIT;
    for number in spelled {
        if *number == 0 {
            all = ops.union(all, set)?;
            set = NodeRef::UNIT;
        } else {
            let one = single(ops, unit(*number)?)?;
            set = ops.product(set, one)?;
        }
    }
    Ok(all)
}

// What the node of a reference is, at the level of the reference and with parts of greater levels.
fn parts_of(ops: &mut Ops, r: NodeRef) -> Parts
    requires knows { Knows (map_of ops.old) r }
    requires inner { 2 ≤ r }
    ensures unit { IsUnit result.level }
    ensures level { level_in (map_of ops.old) r ≡ result.level }
    ensures knows_lo { Knows (map_of ops.old) result.lo }
    ensures knows_hi { Knows (map_of ops.old) result.hi }
    ensures lo_above { result.level < level_in (map_of ops.old) result.lo }
    ensures hi_above { result.level < level_in (map_of ops.old) result.hi }
    ensures seat { ops.new ≡ ops.old }
{
    let parts = ops.parts(r);
    // Tells the proof that the level is a unit's number.
    parts.level.number();
    parts
}

// Spells the sets of a family, those with its least unit first, after the units before.
fn spell(
    ops: &mut Ops,
    r: NodeRef,
    before: &mut Vec<u16>,
    spelled: &mut Vec<u16>,
) -> Result<(), Fail>
    requires { Knows (map_of ops.old) r }
    ensures { ops.new ≡ ops.old }
{
    if r.number() == 0 {
        return Ok(());
    }
    if r.number() == 1 {
        spelled.extend_from_slice(before.as_slice())?;
        spelled.push(0)?;
        return Ok(());
    }
    let parts = parts_of(ops, r);
    before.push(parts.level.number())?;
    spell(ops, parts.hi, before, spelled)?;
    before.pop();
    spell(ops, parts.lo, before, spelled)
}

/// The sets of a family.
pub fn spelled(alloc: Global, ops: &mut Ops, r: NodeRef) -> Result<Vec<u16>, Fail>
    requires { Knows (map_of ops.old) r }
    ensures { ops.new ≡ ops.old }
{
    let mut before = Vec::new(alloc);
    let mut spelled = Vec::new(alloc);
    spell(ops, r, &mut before, &mut spelled)?;
    Ok(spelled)
}

//! A seat asks for the nodes of some levels, each of one set of one unit.
ghost use Rattle.std.specs.Prelude.{◌≡◌, ◌∷◌, [], IfOk};
ghost use Rattle.zdd_families.specs.Map.{Grown, KnowsAs};
ghost use Rattle.zdd_shared_table.specs.Seats.{map_of};

use std::alloc::Global;
use std::test::Fail;
use unit_sets::UnitNo;
use worked_families::unit;
use zdd_shared_table::{Full, NodeStore, StoreSeat};
use zdd_words::NodeRef;

/// The node of one set of one unit.
pub(crate) fn single(
    store: &NodeStore,
    seat: &mut StoreSeat,
    level: UnitNo,
) -> Result<NodeRef, Full>
    requires { seat.old.store ≡ store.now }
    ensures store { seat.new.store ≡ seat.old.store }
    ensures keeps { Grown (map_of seat.old) (map_of seat.new) }
    ensures known { IfOk result (λ r. KnowsAs (map_of seat.new) r ((level ∷ []) ∷ [])) }
{
    store.node(seat, level, NodeRef::EMPTY, NodeRef::UNIT)
}

/// The nodes of some levels, in their order: none, where the store is full or memory is refused.
pub(crate) fn singles(
    alloc: Global,
    store: &NodeStore,
    seat: &mut StoreSeat,
    levels: &[UnitNo],
) -> Option<Vec<NodeRef>>
    requires { seat.old.store ≡ store.now }
    ensures { seat.new.store ≡ seat.old.store }
{
    let mut refs = Vec::new(alloc);
    for level in levels {
        let r = single(store, seat, *level).ok()?;
        refs.push(r).ok()?;
    }
    Some(refs)
}

/// Whether the store has no room for the node of a unit.
pub(crate) fn is_full(store: &NodeStore, seat: &mut StoreSeat, number: u16) -> Result<bool, Fail>
    requires { seat.old.store ≡ store.now }
    ensures { seat.new.store ≡ seat.old.store }
{
    let level = unit(number)?;
    Ok(single(store, seat, level) == Err(Full))
}

// Whether a level asked again gives a reference, and has the node of the level before only where both levels are one.
fn is_told(
    store: &NodeStore,
    seat: &mut StoreSeat,
    before: UnitNo,
    level: UnitNo,
    r: NodeRef,
) -> Result<bool, Full>
    requires { seat.old.store ≡ store.now }
    ensures { seat.new.store ≡ seat.old.store }
{
    let first = single(store, seat, before)?;
    let second = single(store, seat, level)?;
    let again = single(store, seat, level)?;
    let is_one = store.same(seat, first, second);
    let is_same = store.same(seat, second, again);
    Ok(again == r && is_same && is_one == (before == level))
}

/// Whether each level asked again gives its reference, and levels next to each other give one only where they are one.
pub(crate) fn are_told(
    store: &NodeStore,
    seat: &mut StoreSeat,
    levels: &[UnitNo],
    refs: &[NodeRef],
) -> Result<bool, Full>
    requires { seat.old.store ≡ store.now }
    ensures { seat.new.store ≡ seat.old.store }
{
    if levels.len() != refs.len() {
        return Ok(false);
    }
    for i in 0..levels.len() {
        let before = levels[i.saturating_sub(1)];
        if !is_told(store, seat, before, levels[i], refs[i])? {
            return Ok(false);
        }
    }
    Ok(true)
}

//! Long chains, and families whose parts are shared, with many more ways down than nodes: operations on these end in
//! time only where the answers to their questions are kept.
ghost use Rattle.std.specs.Prelude.{◌≡◌, IfOk, OnOk};
ghost use Rattle.zdd_families.specs.Map.{Knows, Grown};
ghost use Rattle.zdd_shared_table.specs.Seats.{map_of};

use crate::zdd_product_tests::texts::singles;
use std::alloc::Global;
use std::test::Fail;
use worked_families::family_of;
use zdd_product::Ops;
use zdd_shared_table::Full;
use zdd_words::NodeRef;

// How many pairs of units there are: with a pair the ways down are twice as many.
const PAIRS: u16 = 60;

// The sets of one unit of each pair, with those of a family of later units.
fn with_pairs(ops: &mut Ops, later: &[u16]) -> Result<NodeRef, Fail>
    ensures keeps { OnOk result (Grown (map_of ops.old) (map_of ops.new)) }
    ensures knows { IfOk result (λ r. Knows (map_of ops.new) r) }
{
    let mut made = family_of(ops, later)?;
    for pair in 0..PAIRS {
        let second = PAIRS.saturating_sub(pair).saturating_mul(2);
        let either = family_of(ops, &[second.saturating_sub(1), 0, second, 0])?;
        made = ops.product(either, made)?;
    }
    Ok(made)
}

/// Whether the union of the pairs with one unit and of those with another are the pairs with either, and whether these
/// without the second are the first.
pub(crate) fn pairs_agree(ops: &mut Ops) -> Result<bool, Fail> {
    let first = with_pairs(ops, &[2 * PAIRS + 1, 0])?;
    let second = with_pairs(ops, &[2 * PAIRS + 2, 0])?;
    let both = with_pairs(ops, &[2 * PAIRS + 1, 0, 2 * PAIRS + 2, 0])?;
    let all = ops.union(first, second)?;
    let left = ops.without(both, second)?;
    Ok(all == both && left == first)
}

// All units, from the odd ones and the even ones.
fn joined_halves(alloc: Global, ops: &mut Ops) -> Result<NodeRef, Fail> {
    let odd = family_of(ops, singles(alloc, 4_095, 2_048, 2)?.as_slice())?;
    let even = family_of(ops, singles(alloc, 4_094, 2_047, 2)?.as_slice())?;
    Ok(ops.union(odd, even)?)
}

// Of each union of two sets the minimal ones, which are the sets themselves, and those that include none: there are
// none. Whether this is so.
fn least_of_pairs(ops: &mut Ops, all: NodeRef) -> Result<bool, Full>
    requires { Knows (map_of ops.old) all }
{
    let pairs = ops.product(all, all)?;
    let left = ops.without(pairs, all)?;
    Ok(left == NodeRef::EMPTY && ops.minimal(pairs)? == all)
}

/// Whether each unit as a set of its own is what the odd and the even ones are together, and what is minimal of the
/// unions of two.
pub(crate) fn all_units_agree(alloc: Global, ops: &mut Ops) -> Result<bool, Fail> {
    let units = singles(alloc, 4_095, 4_095, 1)?;
    let all = family_of(ops, units.as_slice())?;
    Ok(least_of_pairs(ops, all)? && joined_halves(alloc, ops)? == all)
}

//! Cases: a row says what is asked, in a store of how many bits, and of what.
ghost use Rattle.std.specs.Prelude.{◌≡◌, ◌≤◌};

use crate::zdd_product_tests::deep::{all_units_agree, pairs_agree};
use crate::zdd_product_tests::small::{
    agrees, is_as_in_the_example, is_brought, is_filled, votes_agree,
};
use crate::zdd_product_tests::texts::part;
use std::alloc::Global;
use std::test::Fail;
use worked_families::ops_on;
use zdd_product::Ops;
use zdd_shared_table::{NodeStore, StoreStart};

// Whether what is asked is so.
fn is_so(alloc: Global, store: &NodeStore, ops: &mut Ops, row: &str) -> Result<bool, Fail>
    requires own { ops.old.store ≡ store.now }
    requires share { 2 ≤ ops.old.share }
{
    match part(row, 0) {
        "votes" => votes_agree(alloc, ops, row),
        "example" => is_as_in_the_example(alloc, ops, row),
        "another seat" => is_brought(alloc, store, ops, row),
        "sixty units" => is_filled(alloc, ops, row),
        "all units" => all_units_agree(alloc, ops),
        "many ways" => pairs_agree(ops),
        _ => agrees(alloc, ops, row),
    }
}

// The same in a store of its own.
fn is_so_by_itself(alloc: Global, row: &str) -> Result<bool, Fail> {
    let bits = part(row, 1).parse::<u32>()?;
    if bits < 10 || bits > 16 {
        return Err("no such store".into());
    }
    let StoreStart { store, seat } = NodeStore::new(alloc, bits)?;
    let mut ops = ops_on(alloc, &store, seat)?;
    is_so(alloc, &store, &mut ops, row)
}

// An operation on two families, and what it makes of them. Then how many votes there have to be, three families, and
// the votes over them; in the second of these rows a family stands twice.
const SETS: &str = "\
union|10||1.23.|1.23.
union|10|.|1.23.|1.23..
union|10|.|.23.|23..
union|10|1.2.|2.3.|1.2.3.
union|10|124.23.4.|2.34.14.|124.14.23.2.34.4.
union|10|25.3.5.|15.4.|15.25.3.4.5.
union|10|.1.12.34.|12.3.24.|12.1.24.34.3..
union|10|123.12.23.45.|34.5.|123.12.23.34.45.5.
product|10||1.23.|
product|10|.|1.23.|1.23.
product|10|.|.23.|23..
product|10|1.2.|2.3.|12.13.23.2.
product|10|124.23.4.|2.34.14.|1234.124.14.234.23.24.34.
product|10|25.3.5.|15.4.|125.135.15.245.34.45.
product|10|.1.12.34.|12.3.24.|1234.123.124.12.13.234.24.34.3.
product|10|123.12.23.45.|34.5.|1234.1235.125.234.235.345.45.
without|10||1.23.|
without|10|.|1.23.|.
without|10|.|.23.|
without|10|1.2.|2.3.|1.
without|10|124.23.4.|2.34.14.|4.
without|10|25.3.5.|15.4.|25.3.5.
without|10|.1.12.34.|12.3.24.|1..
without|10|123.12.23.45.|34.5.|123.12.23.
minimal of union|10||1.23.|1.23.
minimal of union|10|.|1.23.|.
minimal of union|10|.|.23.|.
minimal of union|10|1.2.|2.3.|1.2.3.
minimal of union|10|124.23.4.|2.34.14.|2.4.
minimal of union|10|25.3.5.|15.4.|3.4.5.
minimal of union|10|.1.12.34.|12.3.24.|.
minimal of union|10|123.12.23.45.|34.5.|12.23.34.5.
votes|10|2|1.|2.|3.|12.13.23.
votes|10|2|1.|1.|2.|12.1.
votes|10|1|12.3.|2.4.|1.5.|12.1.2.3.4.5.
votes|10|2|12.3.|2.4.|1.5.|124.125.12.13.14.23.25.34.35.45.
votes|10|3|12.3.|2.4.|1.5.|123.1245.124.125.12.134.235.345.";

#[test]
fn operations_give_their_families(rt: HostRuntime) -> Result<(), Fail> {
    for row in SETS.lines() {
        assert!(rt; is_so_by_itself(rt.alloc(), row)?, "{row}");
    }
    Ok(())
}

// What is asked of a store of so many bits, and a small family that is there afterwards.
const STORES: &str = "\
example|10|1.2.
another seat|10|12.3.
sixty units|10|1.2.3.|full
sixty units|11|1.2.3.|not full
all units|16
many ways|16";

#[test]
fn stores_are_filled_shared_and_as_deep_as_can_be(rt: HostRuntime) -> Result<(), Fail> {
    for row in STORES.lines() {
        assert!(rt; is_so_by_itself(rt.alloc(), row)?, "{row}");
    }
    Ok(())
}

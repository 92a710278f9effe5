//! Runs of `diagram`, and runs over stores that are full or nearly so.
use super::runs::{ONCE, SOUND, Trial, answer_over, check_table, check_told};
use super::tests::PAIR;
use std::alloc::Global;
use std::process::Abort;
use std::sync::Wait;
use std::test::Fail;
use std::thread::Threads;
use worked_stores::store_with;
use zdd_shared_table::StoreStart;

// Commands that find no cut sets name no method.
const SIZES: &str = r#"
$ diagram --workers 2
toplevel T; T 2of3 A B C; A; B; C;
=> 0 done by diagram
tree: 3 units, 1 gates, top T
method diagram
nodes: 4
cuts: 3
members: 6

$ diagram --workers 2
toplevel T; T and A B; A; B;
=> 0 done by diagram
tree: 2 units, 1 gates, top T
method diagram
nodes: 2
cuts: 1
members: 2

$ diagram --workers 2
toplevel A; A;
@crews
take
=> 0 done by diagram
tree: 1 units, 0 gates, top A
method diagram
nodes: 1
cuts: 1
members: 1

$ check | print | help
toplevel T; T and A B; A; B;
=> 0 done
[...]"#;

#[test]
fn prints_the_sizes_of_a_diagram(rt: HostRuntime) -> Result<(), Fail> {
    check_table(&rt, rt.alloc(), Trial::Once(10, SOUND.room), 4, SIZES)
}

const LIMITS: &str = r#"
$ diagram
(19) toplevel T; T and|* g#|;
|*g# or a# b#; a#; b#;

=> 0 done by diagram
tree: 38 units, 20 gates, top T
method diagram
nodes: 38
cuts: 524288
members: 9961472

$ diagram
(20) toplevel T; T and|* g#|;
|*g# or a# b#; a#; b#;

=> 1 list limit
refused: list limit 16777216

$ diagram
(50) toplevel T; T or|* g#|;
|*g# and a# b# c# d# e# f# h# i#;
|*a#; b#; c#; d#; e#; f#; h#; i#;

=> 0 done by diagram
tree: 400 units, 51 gates, top T
method diagram
nodes: 400
cuts: 50
members: 400
"#;

#[test]
fn limits_of_the_list_hold_for_diagrams_and_that_of_orders_does_not(
    rt: HostRuntime,
) -> Result<(), Fail> {
    check_table(&rt, rt.alloc(), ONCE, 3, LIMITS)
}

const PAIRS_BY_LISTS: &str = r#"
$ diagram
(600) toplevel T;
T or|* g#|;
|*g# and a# b#;
a#;
b#;

=> 0 done by lists
tree: 1200 units, 601 gates, top T
method lists
cuts: 600
members: 1200
"#;

const PAIRS_BY_DIAGRAM: &str = r#"
$ diagram
(600) toplevel T;
T or|* g#|;
|*g# and a# b#;
a#;
b#;

=> 0 done by diagram
tree: 1200 units, 601 gates, top T
method diagram
nodes: 1200
cuts: 600
members: 1200
"#;

#[test]
fn six_hundred_pairs_by_the_diagram_and_by_lists(rt: HostRuntime) -> Result<(), Fail> {
    check_table(
        &rt,
        rt.alloc(),
        Trial::Once(10, SOUND.room),
        1,
        PAIRS_BY_LISTS,
    )?;
    check_table(
        &rt,
        rt.alloc(),
        Trial::Once(20, SOUND.room),
        1,
        PAIRS_BY_DIAGRAM,
    )
}

// What `cuts` tells of two units over a store of 2^10 slots of which so many are left.
fn answer_with<R: Threads + Wait + Sync>(rt: &R, alloc: Global, left: u16) -> Result<String, Fail> {
    let StoreStart { store, mut seat } = store_with(alloc, left)?;
    answer_over(rt, alloc, "cuts", PAIR.as_bytes(), SOUND, &store, &mut seat)
}

const BY_LISTS: &str =
    "0 done by lists\ntree: 2 units, 1 gates, top T\ncuts: 1, orders: 2\ncut 1: A B\n  A B\n  B A\n";

const BY_DIAGRAM: &str =
    "0 done by diagram\ntree: 2 units, 1 gates, top T\ncuts: 1, orders: 2\ncut 1: A B\n  A B\n  B A\n";

// The diagram of two units needs three nodes.
fn check_left<R: Abort + Threads + Wait + Sync>(
    rt: &R,
    alloc: Global,
    left: u16,
) -> Result<(), Fail> {
    let got = answer_with(rt, alloc, left)?;
    let due = if left < 3 { BY_LISTS } else { BY_DIAGRAM };
    check_told(rt, "cuts", got.as_str(), due);
    Ok(())
}

#[test]
fn a_full_store_changes_the_method_alone(rt: HostRuntime) -> Result<(), Fail> {
    for left in 0..65u16 {
        check_left(&rt, rt.alloc(), left)?;
    }
    Ok(())
}

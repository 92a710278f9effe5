//! Decks at the limits of the cut list and of its orders, and beyond.
use super::runs::{BITS, ONCE, SOUND, Trial, answer, check_table, check_told};
use std::alloc::Global;
use std::process::Abort;
use std::sync::Wait;
use std::test::Fail;
use std::thread::Threads;

// What is told of so many blanks.
fn check_blanks<R: Abort + Threads + Wait + Sync>(
    rt: &R,
    alloc: Global,
    length: usize,
    due: &str,
) -> Result<(), Fail> {
    let blanks = vec![in alloc; b' '; length]?;
    let mut edges = SOUND;
    edges.piece = 1_000_000;
    let got = answer(rt, alloc, "cuts --most 0", blanks.as_slice(), edges)?;
    check_told(rt, "cuts --most 0", got.as_str(), due);
    Ok(())
}

#[test]
fn an_input_of_the_greatest_size_is_read(rt: HostRuntime) -> Result<(), Fail> {
    let due = "1 refused\nrefused: C1 no toplevel at 1:16777217\n";
    check_blanks(&rt, rt.alloc(), 16_777_216, due)?;
    check_blanks(
        &rt,
        rt.alloc(),
        16_777_217,
        "3 too long\nrefused: input too long\n",
    )
}

const LIMITS: &str = r#"
$ check
(4095) toplevel u0;
|*u#;

=> 0 done
well formed: 4095 units, 0 gates, top u0

$ check
(4096) toplevel u0;
|*u#;

=> 1 refused
refused: C15 too many units at 4097:1

$ cuts
(256) toplevel |*a
=> 1 refused
refused: L5 name too long at 1:10

$ check
(16383) toplevel g0;
|*g# or u;
|u;
=> 0 done
well formed: 1 units, 16383 gates, top g0

$ check
(16384) toplevel g0;
|*g# or u;
|u;
=> 1 refused
refused: C16 too many gates at 16385:1
"#;

#[test]
fn units_and_names_and_gates_have_a_limit(rt: HostRuntime) -> Result<(), Fail> {
    check_table(&rt, rt.alloc(), ONCE, 5, LIMITS)
}

const ALL_OF_MANY: &str = r#"
$ cuts --most 0
(19) toplevel T; T and|* g#|;
|*g# or a# b#; a#; b#;

=> 0 done by diagram
tree: 38 units, 20 gates, top T
cuts: 524288, orders: 0
cut 1: a0 a1 a2 a3 a4 a5 a6 a7 a8 a9 a10 a11 a12 [...] b10 b11 b12 b13 b14 b15 b16 b17 b18
  (not listed)
"#;

#[test]
fn all_cut_sets_of_many_are_printed(rt: HostRuntime) -> Result<(), Fail> {
    check_table(
        &rt,
        rt.alloc(),
        Trial::Once(BITS, 100_000_000),
        1,
        ALL_OF_MANY,
    )
}

// The list of the gate U is a thousand times as heavy as that of the top event, which absorbs all of it but A.
const HEAVY: &str = r#"
$ cuts --most 0
(10) toplevel V; V and A W; W or A U; A; U and|* g#|;
|*g# or a# b#; a#; b#;

=> 0 done by diagram
tree: 21 units, 13 gates, top V
cuts: 1, orders: 0
cut 1: A
  (not listed)

$ cuts --most 0
(20) toplevel T; T and|* g#|;
|*g# or a# b#; a#; b#;

=> 1 list limit
refused: list limit 16777216
"#;

#[test]
fn lists_on_the_way_may_be_heavy_and_the_last_has_a_limit(rt: HostRuntime) -> Result<(), Fail> {
    check_table(&rt, rt.alloc(), ONCE, 2, HEAVY)
}

const ORDERS: &str = r#"
$ cuts --most 8
(50) toplevel T; T or|* g#|;
|*g# and a# b# c# d# e# f# h# i#;
|*a#; b#; c#; d#; e#; f#; h#; i#;

=> 1 order limit
refused: order limit 2000000

$ cuts --most 6
(50) toplevel T; T or|* g#|;
|*g# and a# b# c# d# e# f# h# i#;
|*a#; b#; c#; d#; e#; f#; h#; i#;

=> 0 done by diagram
tree: 400 units, 51 gates, top T
cuts: 50, orders: 0
cut 1: a0 b0 c0 d0 e0 f0 h0 i0
  (not listed)
[...]"#;

#[test]
fn the_number_of_orders_has_a_limit(rt: HostRuntime) -> Result<(), Fail> {
    check_table(&rt, rt.alloc(), ONCE, 2, ORDERS)
}

// Six times as many orders as the limit allows: the workers stop soon after they have passed it together.
const MANY_MORE: &str = r#"
$ cuts --most 8 --workers 1 | cuts --most 8 --workers 16
(300) toplevel T; T or|* g#|;
|*g# and a# b# c# d# e# f# h# i#;
|*a#; b#; c#; d#; e#; f#; h#; i#;

=> 1 order limit
refused: order limit 2000000
"#;

#[test]
fn many_more_orders_than_the_limit_are_refused(rt: HostRuntime) -> Result<(), Fail> {
    check_table(&rt, rt.alloc(), ONCE, 1, MANY_MORE)
}

// As many as the limit allows, with the last of them; and sets of which one order each can happen.
const AS_MANY: &str = r#"
$ cuts --most 8
(49) toplevel T; T or|* g#|;
|*g# and a# b# c# d# e# f# h# i#;
|*a#; b#; c#; d#; e#; f#; h#; i#;

=> 0 done by diagram
tree: 392 units, 50 gates, top T
cuts: 49, orders: 1975680
cut 1: a0 b0[...]
  i48 h48 f48 e48 d48 c48 b48 a48

$ cuts --most 8
(60) toplevel T; T or|* g#|;
|*g# csp a# b# c# d# e# f# h# i#;
|*a#; b#; c#; d#; e#; f#; h#; i#;

=> 0 done by diagram
tree: 480 units, 61 gates, top T
cuts: 60, orders: 60
cut 1: a0 b0[...]
  a59 b59 c59 d59 e59 f59 h59 i59
"#;

#[test]
fn as_many_orders_as_the_limit_allows_are_printed(rt: HostRuntime) -> Result<(), Fail> {
    check_table(&rt, rt.alloc(), Trial::Once(BITS, 80_000_000), 2, AS_MANY)
}

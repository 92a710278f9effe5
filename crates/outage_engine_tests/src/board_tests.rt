//! Whole runs of the command `board`.
use super::runs::{BITS, ONCE, SOUND, Trial, answer, check_fronts, check_run, check_table};
use std::alloc::Global;
use std::process::Abort;
use std::sync::Wait;
use std::test::Fail;
use std::thread::Threads;

// A real system and a crew of its own.
pub(super) const SYSTEM: &[u8] = br#"toplevel "SYSTEM";
"SYSTEM" or "CPU" "MOTOR" "PUMPS";
"CPU" wsp "P" "B";
"DEP" fdep "TRIGGER" "P" "B";   // both processors need the bus
"TRIGGER" or "CS" "SS";
"MOTOR" or "SWITCH" "MOTORS";
"SWITCH" pand "MS" "MA";
"MOTORS" csp "MA" "MB";
"PUMPS" and "PUMP1" "PUMP2";
"PUMP1" csp "PA" "PSA";
"PUMP2" csp "PB" "PSB";
"P" lambda=0.0005 dorm=0;
"B" lambda=0.0005 dorm=0.5;
"CS" lambda=0.0002 dorm=0;
"SS" lambda=0.0002 dorm=0;
"MS" lambda=0.00001 dorm=0;
"MA" lambda=0.001 dorm=0;
"MB" lambda=0.001 dorm=0;
"PA" lambda=0.001 dorm=0;
"PSA" lambda=0.001 dorm=0;
"PB" lambda=0.001 dorm=0;
"PSB" lambda=0.001 dorm=0;

@crews
crew day
take MS
take MA
return MS
take MA"#;

const SYSTEM_BOARD: &str = "0 done by diagram
tree: 11 units, 10 gates, top SYSTEM
cuts: 6, orders: 12
cut 1: CS
  CS
cut 2: SS
  SS
cut 3: P B
  P B
  B P
cut 4: MS MA
  MS MA
cut 5: MA MB
  MA MB
cut 6: PA PSA PB PSB
  PA PSA PB PSB
  PA PB PSA PSB
  PA PB PSB PSA
  PB PA PSA PSB
  PB PA PSB PSA
  PB PSB PA PSA
margin: 0
log: 4
1 day take MS: granted
2 day take MA: denied, cut 4
3 day return MS: granted
4 day take MA: granted
out: 1
MA day
left 1: 1 of 1
left 2: 1 of 1
left 3: 2 of 2
left 4: 1 of 2
left 5: 1 of 2
left 6: 4 of 4
";

#[test]
fn a_real_system_with_a_crew(rt: HostRuntime) -> Result<(), Fail> {
    check_run(&rt, rt.alloc(), "board", SYSTEM, SYSTEM_BOARD)
}

#[test]
fn a_sink_that_fails_has_a_front_of_the_board(rt: HostRuntime) -> Result<(), Fail> {
    check_fronts(&rt, rt.alloc(), "board --workers 1", SYSTEM, SYSTEM_BOARD)
}

const BOARDS: &str = r#"
$ board --most 6 --margin 1
toplevel T; T or A G; G and B C; A; B; C; D;
@crews
crew c
take B
take D
=> 0 done by diagram
tree: 4 units, 2 gates, top T
cuts: 2, orders: 3
cut 1: A
  A
cut 2: B C
  B C
  C B
margin: 1
log: 2
1 c take B: denied, cut 1
2 c take D: denied, cut 1
out: 0
left 1: 1 of 1
left 2: 2 of 2

$ board --most 0 --margin 1
toplevel T; T or A G; G and B C; A; B; C; D;
@crews
crew c
take B
take D
=> 0 done by diagram
tree: 4 units, 2 gates, top T
cuts: 2, orders: 0
cut 1: A
  (not listed)
cut 2: B C
  (not listed)
margin: 1
log: 2
1 c take B: denied, cut 1
2 c take D: denied, cut 1
out: 0
left 1: 1 of 1
left 2: 2 of 2

$ board --most 0 --margin 2
toplevel T; T and A B C; A; B; C;
@crews
crew c
take A
=> 0 done by diagram
tree: 3 units, 1 gates, top T
cuts: 1, orders: 0
cut 1: A B C
  (not listed)
margin: 2
log: 1
1 c take A: denied, cut 1
out: 0
left 1: 3 of 3

$ board --most 0 --margin 1
toplevel T; T and A B C; A; B; C;
@crews
crew c
take A
=> 0 done by diagram
tree: 3 units, 1 gates, top T
cuts: 1, orders: 0
cut 1: A B C
  (not listed)
margin: 1
log: 1
1 c take A: granted
out: 1
A c
left 1: 2 of 3

$ board --most 0 --margin 0
toplevel T; T and A B; A; B;
@crews
=> 0 done by diagram
tree: 2 units, 1 gates, top T
cuts: 1, orders: 0
cut 1: A B
  (not listed)
margin: 0
log: 0
out: 0
left 1: 2 of 2
"#;

#[test]
fn boards_of_small_trees(rt: HostRuntime) -> Result<(), Fail> {
    check_table(&rt, rt.alloc(), ONCE, 5, BOARDS)
}

const SUPERVISOR: &str = r#"
$ board --most 0
toplevel T; T or G H; G and A B; H and C D; A; B; C; D;
@crews
crew supervisor
take A C
margin 1
return A
margin 1
return C
margin 1
take A
margin 0
take A B
take C A
take B Z
take B A
=> 0 done by diagram
tree: 4 units, 3 gates, top T
cuts: 2, orders: 0
cut 1: A B
  (not listed)
cut 2: C D
  (not listed)
margin: 0
log: 12
1 supervisor take A C: granted
2 supervisor margin 1: denied, cut 1
3 supervisor return A: granted
4 supervisor margin 1: denied, cut 2
5 supervisor return C: granted
6 supervisor margin 1: granted
7 supervisor take A: denied, cut 1
8 supervisor margin 0: granted
9 supervisor take A B: denied, cut 1
10 supervisor take C A: granted
11 supervisor take B Z: E1 unknown unit
12 supervisor take B A: E2 already out with supervisor
margin now: 0
out: 2
A supervisor
C supervisor
left 1: 1 of 2
left 2: 1 of 2

$ board --most 0
toplevel T; T or G H; G and A B; H and C D; A; B; C; D;
@crews
crew c
margin 1
=> 0 done by diagram
tree: 4 units, 3 gates, top T
cuts: 2, orders: 0
cut 1: A B
  (not listed)
cut 2: C D
  (not listed)
margin: 0
log: 1
1 c margin 1: E5 not supervisor
out: 0
left 1: 2 of 2
left 2: 2 of 2
"#;

#[test]
fn the_supervisor_sets_the_margin(rt: HostRuntime) -> Result<(), Fail> {
    check_table(&rt, rt.alloc(), ONCE, 2, SUPERVISOR)
}

const TWO_CREWS: &[u8] = b"toplevel T; T and A B; A; B;\n@crews\ncrew c\ntake A\ncrew d\ntake B";

const TWO_HEAD: &str = "0 done by diagram
tree: 2 units, 1 gates, top T
cuts: 1, orders: 0
cut 1: A B
  (not listed)
margin: 0
log: 2
";

const C_FIRST: &str = "1 c take A: granted
2 d take B: denied, cut 1
out: 1
A c
left 1: 1 of 2
";

const D_FIRST: &str = "1 d take B: granted
2 c take A: denied, cut 1
out: 1
B d
left 1: 1 of 2
";

// Whether the log of two crews is told with one of them first.
fn has_one_first(got: &str) -> bool {
    match got.strip_prefix(TWO_HEAD) {
        Some(log) => log == C_FIRST || log == D_FIRST,
        None => false,
    }
}

fn check_first<R: Abort + Threads + Wait + Sync>(rt: &R, alloc: Global) -> Result<(), Fail> {
    let got = answer(rt, alloc, "board --most 0", TWO_CREWS, SOUND)?;
    assert!(rt; has_one_first(got.as_str()));
    Ok(())
}

#[test]
fn one_of_two_crews_is_first(rt: HostRuntime) -> Result<(), Fail> {
    for _run in 0..20 {
        check_first(&rt, rt.alloc())?;
    }
    Ok(())
}

const BOARD_FAULTS: &str = r#"
$ board

=> 1 refused
refused: S1 no crew part at 1:1

$ board
toplevel "T
=> 1 refused
refused: S1 no crew part at 1:12

$ board
toplevel T; T and A B; A; B;


=> 1 refused
refused: S1 no crew part at 3:1

$ board
toplevel T
@crews
take
=> 1 refused
refused: P1 expected semicolon at 2:1

$ board
toplevel T; T and A A;
@crews
take
=> 1 refused
refused: C4 undefined name at 1:19

$ board
toplevel T; T and A B; A; B;
@crews
crew c
take
=> 1 refused
refused: S2 bad line at 4:1

$ board
toplevel T; T and A B; A; B;
@crews
crew c
take A A
=> 1 refused
refused: S2 bad line at 4:1

$ board
toplevel T; T and A B; A; B;
@crews

crew c
crew "c"
=> 1 refused
refused: S3 duplicate crew at 5:1

$ board
toplevel T; T and A B; A; B;
@crews
take A
crew c
=> 1 refused
refused: S4 request before crew at 3:1
"#;

#[test]
fn a_board_is_refused_with_its_first_fault(rt: HostRuntime) -> Result<(), Fail> {
    check_table(&rt, rt.alloc(), ONCE, 9, BOARD_FAULTS)
}

const TOO_MANY: &str = r#"
$ board
(65) toplevel T; T and A B; A; B;
@crews
|*crew c#

=> 1 refused
refused: S5 too many crews at 67:1

$ board
(100001) toplevel T; T and A B; A; B;
@crews
crew c
|*take A

=> 1 refused
refused: S6 too many requests at 100004:1
"#;

#[test]
fn crews_and_requests_have_a_limit(rt: HostRuntime) -> Result<(), Fail> {
    check_table(&rt, rt.alloc(), ONCE, 2, TOO_MANY)
}

const ALL_REQUESTS: &str = r#"
$ board --most 0
(100000) toplevel T; T and A B; A; B;
@crews
crew c
|*take A

=> 0 done by diagram
tree: 2 units, 1 gates, top T
cuts: 1, orders: 0
cut 1: A B
  (not listed)
margin: 0
log: 100000
1 c take A: granted
2 c take A: E2 already out with c
[...]
100000 c take A: E2 already out with c
out: 1
A c
left 1: 1 of 2
"#;

#[test]
fn as_many_requests_as_the_limit_allows_are_decided(rt: HostRuntime) -> Result<(), Fail> {
    check_table(
        &rt,
        rt.alloc(),
        Trial::Once(BITS, 8_000_000),
        1,
        ALL_REQUESTS,
    )
}

//! Whole runs of `cuts`, `check` and `print`, from words and bytes to bytes, and runs of words that are no command.
use super::board_tests::SYSTEM;
use super::runs::{ONCE, SOUND, Trial, answer, check_run, check_table, check_told};
use std::alloc::Global;
use std::process::Abort;
use std::sync::Wait;
use std::test::Fail;
use std::thread::Threads;

pub(super) const PAIR: &str = "toplevel T; T and A B; A; B;";

const CUT_SETS: &str = r#"
$ cuts --most 0
toplevel T; T and A B; A; B;
=> 0 done by diagram
tree: 2 units, 1 gates, top T
cuts: 1, orders: 0
cut 1: A B
  (not listed)

$ cuts --most 0
toplevel A; A;
=> 0 done by diagram
tree: 1 units, 0 gates, top A
cuts: 1, orders: 0
cut 1: A
  (not listed)

$ cuts --most 0
toplevel A; A lambda=0.1;
=> 0 done by diagram
tree: 1 units, 0 gates, top A
cuts: 1, orders: 0
cut 1: A
  (not listed)

$ cuts --most 0
toplevel T; T or A A; A;
=> 0 done by diagram
tree: 1 units, 1 gates, top T
cuts: 1, orders: 0
cut 1: A
  (not listed)

$ cuts --most 0
toplevel T; A; T and A;
=> 0 done by diagram
tree: 1 units, 1 gates, top T
cuts: 1, orders: 0
cut 1: A
  (not listed)

$ cuts --most 0
toplevel T; T or F A; F fdep X A; A; X;
=> 0 done by diagram
tree: 2 units, 2 gates, top T
cuts: 2, orders: 0
cut 1: A
  (not listed)
cut 2: X
  (not listed)

$ cuts --most 0
toplevel T; T and G B; G por A B; F fdep X A B; A; B; X;
=> 0 done by diagram
tree: 3 units, 3 gates, top T
cuts: 2, orders: 0
cut 1: X
  (not listed)
cut 2: A B
  (not listed)

$ cuts --most 0
toplevel "a b"; "a b" 2OF3 A "1" "+"; A; "1"; "+";
@crews
crew c
take
=> 0 done by diagram
tree: 3 units, 1 gates, top "a b"
cuts: 3, orders: 0
cut 1: A "1"
  (not listed)
cut 2: A "+"
  (not listed)
cut 3: "1" "+"
  (not listed)
"#;

#[test]
fn prints_the_cut_sets(rt: HostRuntime) -> Result<(), Fail> {
    check_table(&rt, rt.alloc(), ONCE, 8, CUT_SETS)
}

const ORDERS: &str = r#"
$ cuts
toplevel T; T or A G; G and A B; A; B;
=> 0 done by diagram
tree: 2 units, 2 gates, top T
cuts: 1, orders: 1
cut 1: A
  A

$ cuts
toplevel T; T pand A B; A; B;
=> 0 done by diagram
tree: 2 units, 1 gates, top T
cuts: 1, orders: 1
cut 1: A B
  A B

$ cuts
toplevel T; T pand A B; F fdep X A B; A; B; X;
=> 0 done by diagram
tree: 3 units, 2 gates, top T
cuts: 2, orders: 2
cut 1: X
  X
cut 2: A B
  A B

$ cuts
toplevel T; T csp P S; F fdep X S; P; S; X;
=> 0 done by diagram
tree: 3 units, 2 gates, top T
cuts: 2, orders: 3
cut 1: P S
  P S
cut 2: P X
  P X
  X P

$ cuts
toplevel T; T or G1 G2; G1 pand A B; G2 and G3 C; G3 pand B A; A; B; C;
=> 0 done by diagram
tree: 3 units, 4 gates, top T
cuts: 1, orders: 1
cut 1: A B
  A B

$ cuts
toplevel T; T pand A B; S seq B A; A; B;
=> 0 done by diagram
tree: 2 units, 2 gates, top T
cuts: 1, orders: 0
cut 1: A B
  (none)

$ cuts
toplevel T; T or F A; F fdep X A; A; X;
=> 0 done by diagram
tree: 2 units, 2 gates, top T
cuts: 2, orders: 2
cut 1: A
  A
cut 2: X
  X

$ cuts
toplevel T; T and G B; G por A B; A; B;
=> 0 done by diagram
tree: 2 units, 2 gates, top T
cuts: 1, orders: 1
cut 1: A B
  A B

$ cuts
toplevel T; T and G B; G por A B; F fdep X A B; A; B; X;
=> 0 done by diagram
tree: 3 units, 3 gates, top T
cuts: 2, orders: 2
cut 1: X
  X
cut 2: A B
  A B

$ cuts
toplevel T; T 2of3 A B C; A; B; C;
=> 0 done by diagram
tree: 3 units, 1 gates, top T
cuts: 3, orders: 6
cut 1: A B
  A B
  B A
cut 2: A C
  A C
  C A
cut 3: B C
  B C
  C B

$ cuts
toplevel T; T 2of3 A A B; A; B;
=> 0 done by diagram
tree: 2 units, 1 gates, top T
cuts: 1, orders: 1
cut 1: A
  A

$ cuts
toplevel A; A por=1;
=> 0 done by diagram
tree: 1 units, 0 gates, top A
cuts: 1, orders: 1
cut 1: A
  A
"#;

#[test]
fn prints_the_failing_orders(rt: HostRuntime) -> Result<(), Fail> {
    check_table(&rt, rt.alloc(), ONCE, 12, ORDERS)
}

// A real system, without its orders and with them, by any number of workers.
const UNLISTED: &str = "0 done by diagram
tree: 11 units, 10 gates, top SYSTEM
cuts: 6, orders: 0
cut 1: CS
  (not listed)
cut 2: SS
  (not listed)
cut 3: P B
  (not listed)
cut 4: MS MA
  (not listed)
cut 5: MA MB
  (not listed)
cut 6: PA PSA PB PSB
  (not listed)
";

const LISTED: &str = "0 done by diagram
tree: 11 units, 10 gates, top SYSTEM
cuts: 6, orders: 12
cut 1: CS
  CS
cut 2: SS
  SS
cut 3: P B
  P B
  B P
cut 4: MS MA
  MS MA
cut 5: MA MB
  MA MB
cut 6: PA PSA PB PSB
  PA PSA PB PSB
  PA PB PSA PSB
  PA PB PSB PSA
  PB PA PSA PSB
  PB PA PSB PSA
  PB PSB PA PSA
";

#[test]
fn any_number_of_workers_prints_the_same_of_a_real_system(rt: HostRuntime) -> Result<(), Fail> {
    check_run(
        &rt,
        rt.alloc(),
        "cuts --workers 16 --most 0",
        SYSTEM,
        UNLISTED,
    )?;
    check_run(&rt, rt.alloc(), "cuts --workers 1", SYSTEM, LISTED)?;
    check_run(&rt, rt.alloc(), "cuts --workers 2", SYSTEM, LISTED)?;
    check_run(&rt, rt.alloc(), "cuts --workers 16", SYSTEM, LISTED)?;
    check_run(&rt, rt.alloc(), "cuts --most 4", SYSTEM, LISTED)
}

const FAULTS: &str = r#"
$ cuts --most 0

=> 1 refused
refused: C1 no toplevel at 1:1

$ cuts --most 0

@crews
=> 1 refused
refused: C1 no toplevel at 2:1

$ cuts --most 0
toplevel "T
=> 1 refused
refused: L2 open quote at 1:10

$ cuts --most 0
toplevel T; /* x
=> 1 refused
refused: L3 open comment at 1:13

$ cuts --most 0
toplevel T; T
=> 1 refused
refused: P1 expected gate or attribute at 1:14

$ cuts --most 0
toplevel T
=> 1 refused
refused: P1 expected semicolon at 1:11

$ cuts --most 0
T pand; T
=> 1 refused
refused: P1 expected gate or attribute at 1:10

$ cuts --most 0
toplevel T; T and G H; G csp A S; H csp B S; A; B; S;
=> 1 refused
refused: C11 shared spare at 1:43

$ cuts --most 0
toplevel T; T and A B; F fdep T A; A; B;
=> 1 refused
refused: C14 cycle at 1:13

$ cuts --most 0
toplevel T; T 3of2 A B; A; B;
=> 1 refused
refused: C5 votes at 1:15

$ cuts --most 0
toplevel T; T pand F A; F fdep X A; A; X;
=> 1 refused
refused: C6 dummy input at 1:20

$ cuts --most 0
toplevel T; T por;
=> 1 refused
refused: C7 no inputs at 1:15
"#;

#[test]
fn refuses_a_deck_with_its_first_fault(rt: HostRuntime) -> Result<(), Fail> {
    check_table(&rt, rt.alloc(), ONCE, 12, FAULTS)
}

// Where a deck has a crew part, `check` reads it behind the tree part, and `print` passes over it.
const CHECKED: &str = r#"
$ check
toplevel T; T and A B; A; B;
=> 0 done
well formed: 2 units, 1 gates, top T

$ check
toplevel T; T and A B; A; B;
@crews
=> 0 done
well formed: 2 units, 1 gates, top T
crews: 0, requests: 0

$ check
toplevel T; T and A B; A; B;
@crews
crew c
take A B
return Z
crew d
margin 1
=> 0 done
well formed: 2 units, 1 gates, top T
crews: 2, requests: 3

$ check
toplevel T; T and A B; A; B;
@crews
crew c
take
=> 1 refused
refused: S2 bad line at 4:1

$ print
toplevel T; T and A B; A; B;
@crews
crew c
take
=> 0 done
toplevel "T";
"T" and "A" "B";
"A";
"B";

$ check
toplevel T; T and A B; A; B; A;
@crews
take
=> 1 refused
refused: C3 duplicate name at 1:30

$ print
toplevel T; T and A B; A; B; T
=> 1 refused
refused: P1 expected gate or attribute at 1:31
"#;

#[test]
fn checks_a_deck(rt: HostRuntime) -> Result<(), Fail> {
    check_table(&rt, rt.alloc(), ONCE, 7, CHECKED)
}

// Each deck, and what is printed of it.
const PRINTED: &str = r#"
$ print
toplevel T; T 2OF3 A "b c" C; C; A lambda = 1e-4; "b c" dorm=0.5 repl=1;
=> 0 done
toplevel "T";
"T" 2of3 "A" "b c" "C";
"C";
"A" lambda=1e-4;
"b c" dorm=0.5 repl=1;

$ print
toplevel "T";
"T" 2of3 "A" "b c" "C";
"C";
"A" lambda=1e-4;
"b c" dorm=0.5 repl=1;

=> 0 done
toplevel "T";
"T" 2of3 "A" "b c" "C";
"C";
"A" lambda=1e-4;
"b c" dorm=0.5 repl=1;

$ print
toplevel T; T and G B; G por A B; A; B;
=> 0 done
toplevel "T";
"T" and "G" "B";
"G" por "A" "B";
"A";
"B";

$ print
toplevel "T";
"T" and "G" "B";
"G" por "A" "B";
"A";
"B";

=> 0 done
toplevel "T";
"T" and "G" "B";
"G" por "A" "B";
"A";
"B";

$ print
A; toplevel T; B; T and A B;
=> 0 done
toplevel "T";
"T" and "A" "B";
"A";
"B";

$ print
toplevel "T";
"T" and "A" "B";
"A";
"B";

=> 0 done
toplevel "T";
"T" and "A" "B";
"A";
"B";
"#;

#[test]
fn prints_what_it_printed_again(rt: HostRuntime) -> Result<(), Fail> {
    check_table(&rt, rt.alloc(), ONCE, 6, PRINTED)
}

// The deck of a pair up to each of its lengths.
const FRONTS: &str = "
$ cuts --most 0

=> 1 refused
refused: C1 no toplevel at 1:1

$ cuts --most 0
t
=> 1 refused
refused: P1 expected gate or attribute at 1:2

$ cuts --most 0
to
=> 1 refused
refused: P1 expected gate or attribute at 1:3

$ cuts --most 0
top
=> 1 refused
refused: P1 expected gate or attribute at 1:4

$ cuts --most 0
topl
=> 1 refused
refused: P1 expected gate or attribute at 1:5

$ cuts --most 0
tople
=> 1 refused
refused: P1 expected gate or attribute at 1:6

$ cuts --most 0
toplev
=> 1 refused
refused: P1 expected gate or attribute at 1:7

$ cuts --most 0
topleve
=> 1 refused
refused: P1 expected gate or attribute at 1:8

$ cuts --most 0
toplevel
=> 1 refused
refused: P1 expected name at 1:9

$ cuts --most 0
toplevel\x20
=> 1 refused
refused: P1 expected name at 1:10

$ cuts --most 0
toplevel T
=> 1 refused
refused: P1 expected semicolon at 1:11

$ cuts --most 0
toplevel T;
=> 1 refused
refused: C4 undefined name at 1:10

$ cuts --most 0
toplevel T;\x20
=> 1 refused
refused: C4 undefined name at 1:10

$ cuts --most 0
toplevel T; T
=> 1 refused
refused: P1 expected gate or attribute at 1:14

$ cuts --most 0
toplevel T; T\x20
=> 1 refused
refused: P1 expected gate or attribute at 1:15

$ cuts --most 0
toplevel T; T a
=> 1 refused
refused: P1 expected equals at 1:16

$ cuts --most 0
toplevel T; T an
=> 1 refused
refused: P1 expected equals at 1:17

$ cuts --most 0
toplevel T; T and
=> 1 refused
refused: P1 expected input at 1:18

$ cuts --most 0
toplevel T; T and\x20
=> 1 refused
refused: P1 expected input at 1:19

$ cuts --most 0
toplevel T; T and A
=> 1 refused
refused: P1 expected input at 1:20

$ cuts --most 0
toplevel T; T and A\x20
=> 1 refused
refused: P1 expected input at 1:21

$ cuts --most 0
toplevel T; T and A B
=> 1 refused
refused: P1 expected input at 1:22

$ cuts --most 0
toplevel T; T and A B;
=> 1 refused
refused: C4 undefined name at 1:19

$ cuts --most 0
toplevel T; T and A B;\x20
=> 1 refused
refused: C4 undefined name at 1:19

$ cuts --most 0
toplevel T; T and A B; A
=> 1 refused
refused: P1 expected gate or attribute at 1:25

$ cuts --most 0
toplevel T; T and A B; A;
=> 1 refused
refused: C4 undefined name at 1:21

$ cuts --most 0
toplevel T; T and A B; A;\x20
=> 1 refused
refused: C4 undefined name at 1:21

$ cuts --most 0
toplevel T; T and A B; A; B
=> 1 refused
refused: P1 expected gate or attribute at 1:28
";

#[test]
fn refuses_each_front_of_a_deck(rt: HostRuntime) -> Result<(), Fail> {
    check_table(&rt, rt.alloc(), ONCE, 28, FRONTS)
}

// What is told of a pair that is read byte by byte, where a read fails.
fn check_read<R: Abort + Threads + Wait + Sync>(
    rt: &R,
    alloc: Global,
    line: &str,
    call: u64,
    due: &str,
) -> Result<(), Fail> {
    let mut edges = SOUND;
    edges.piece = 1;
    edges.failing_read = Some(call);
    let got = answer(rt, alloc, line, PAIR.as_bytes(), edges)?;
    check_told(rt, line, got.as_str(), due);
    Ok(())
}

const READ_FAULT: &str = "3 read fault\nrefused: read fault\n";

fn check_reads<R: Abort + Threads + Wait + Sync>(
    rt: &R,
    alloc: Global,
    line: &str,
    from: u64,
) -> Result<(), Fail> {
    for call in from..29 {
        check_read(rt, alloc, line, call, READ_FAULT)?;
    }
    Ok(())
}

const ORDERS_OF_PAIR: &str =
    "0 done by diagram\ntree: 2 units, 1 gates, top T\ncuts: 1, orders: 2\ncut 1: A B\n  A B\n  B A\n";

// The deck has 28 bytes, and its end is told by one more read.
#[test]
fn a_read_that_fails_is_told(rt: HostRuntime) -> Result<(), Fail> {
    for line in "cuts board".split(' ') {
        check_reads(&rt, rt.alloc(), line, 0)?;
    }
    for line in "check print".split(' ') {
        check_reads(&rt, rt.alloc(), line, 27)?;
    }
    check_read(&rt, rt.alloc(), "cuts", 29, ORDERS_OF_PAIR)
}

const WRITTEN: &str = r#"
$ cuts --workers 1
toplevel T; T and A B; A; B;
=> 0 done by diagram
tree: 2 units, 1 gates, top T
cuts: 1, orders: 2
cut 1: A B
  A B
  B A

$ diagram --workers 1
toplevel T; T and A B; A; B;
=> 0 done by diagram
tree: 2 units, 1 gates, top T
method diagram
nodes: 2
cuts: 1
members: 2

$ check
toplevel T; T and A B; A; B;
=> 0 done
well formed: 2 units, 1 gates, top T

$ print
toplevel T; T and A B; A; B;
=> 0 done
toplevel "T";
"T" and "A" "B";
"A";
"B";
"#;

#[test]
fn a_sink_that_fails_has_a_front_of_the_text(rt: HostRuntime) -> Result<(), Fail> {
    check_table(&rt, rt.alloc(), Trial::Fronts, 4, WRITTEN)
}

// What words that are no command are told.
pub(super) const USAGE_ALONE: &str =
    "2 usage\nusage: cuts [--most N] [--workers N] | board [--margin N] [--most N] [--workers N] \
    | check | print | diagram [--workers N] | make --number N [--show deck|summary] | help\n";

// Words that are no command, options out of form, and no words at all.
const USAGE: &str = "
$ Cuts --most 0 | cuts --most=0 0 | cuts --most 00 | board --margin 4096
toplevel T; T and A B; A; B;
=> 2 usage
usage: cuts [--most N] [--workers N] | board [--margin N] [--most N] [--workers N] \
     | check | print | diagram [--workers N] | make --number N [--show deck|summary] | help\n
$ make --number 1000000 --show deck | make --number 1000000 --show summary | make --number 00 --show summary \
     | make --number 0 --number 0 | make --show deck --show deck | make --number 0 --show tree \
     | cuts --most 0 --most 0 | \n
=> 2 usage
usage: cuts [--most N] [--workers N] | board [--margin N] [--most N] [--workers N] \
     | check | print | diagram [--workers N] | make --number N [--show deck|summary] | help\n
$ help

=> 0 done
usage: cuts [--most N] [--workers N] | board [--margin N] [--most N] [--workers N] \
     | check | print | diagram [--workers N] | make --number N [--show deck|summary] | help\n";

#[test]
fn words_that_are_no_command_get_the_usage_line(rt: HostRuntime) -> Result<(), Fail> {
    check_table(&rt, rt.alloc(), ONCE, 3, USAGE)
}

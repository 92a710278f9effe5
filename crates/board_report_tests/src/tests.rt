//! The texts, as a sink in memory takes them.
use crate::tables::check_table;
use std::test::Fail;

// Trees, and what is printed of them. An `or` drops the `fdep` among its inputs, and a value with other bytes than a
// word's stands in quotes.
const PRINTED: &str = r#"print
toplevel T; T 2OF3 A "b c" C; C; A lambda = 1e-4; "b c" dorm=0.5 repl=1;
=> toplevel "T";
"T" 2of3 "A" "b c" "C";
"C";
"A" lambda=1e-4;
"b c" dorm=0.5 repl=1;

$ print
toplevel T; T and G B; G por A B; A; B;
=> toplevel "T";
"T" and "G" "B";
"G" por "A" "B";
"A";
"B";

$ print
toplevel T; T OR F G H I J K; F fdep A B; G pand A B; H seq A B; I csp C D; J wsp E D2; K hsp E2 D3;
A note="a b"; B x="+1"; C; D; E; D2; E2; D3;
=> toplevel "T";
"T" or "G" "H" "I" "J" "K";
"F" fdep "A" "B";
"G" pand "A" "B";
"H" seq "A" "B";
"I" csp "C" "D";
"J" wsp "E" "D2";
"K" hsp "E2" "D3";
"A" note="a b";
"B" x=+1;
"C";
"D";
"E";
"D2";
"E2";
"D3";

$ print
toplevel T; T or A "b c"; A dorm=0.5; "b c";
=> toplevel "T";
"T" or "A" "b c";
"A" dorm=0.5;
"b c";
"#;

#[test]
fn trees_with_each_kind_of_gate_are_printed_up_to_a_fault(rt: HostRuntime) -> Result<(), Fail> {
    check_table(&rt, rt.alloc(), PRINTED)
}

const SOUND: &str = r#"check
toplevel "+T"; "+T" and A B; A; B;
=> well formed: 2 units, 1 gates, top "+T"

$ check
toplevel "+T"; "+T" and A B; A; B;
@crews
crew c
take A
return A
crew d
margin 1
=> well formed: 2 units, 1 gates, top "+T"
crews: 2, requests: 3
"#;

#[test]
fn well_formed_decks_are_told(rt: HostRuntime) -> Result<(), Fail> {
    check_table(&rt, rt.alloc(), SOUND)
}

// Sizes with so many nodes, or by lists.
const SIZES: &str = "diagram 4
toplevel T; T 2of3 A B C; A; B; C;
=> tree: 3 units, 1 gates, top T
method diagram
nodes: 4
cuts: 3
members: 6

$ diagram
toplevel T; T or G H; G and A B; H and C D; A; B; C; D;
=> tree: 4 units, 3 gates, top T
method lists
cuts: 2
members: 4
";

#[test]
fn sizes_of_diagrams_are_written(rt: HostRuntime) -> Result<(), Fail> {
    check_table(&rt, rt.alloc(), SIZES)
}

// Cut sets with the orders of those that have at most so many members. `A` alone would fail before `B`, which the `seq`
// forbids. The last tree is given no cut sets.
const CUT_SETS: &str = r#"cuts 2
toplevel "+T"; "+T" or A G; G and B "b c"; S seq B A; A; B; "b c";
=> tree: 3 units, 3 gates, top "+T"
cuts: 2, orders: 2
cut 1: A
  (none)
cut 2: B "b c"
  B "b c"
  "b c" B

$ cuts 1
toplevel "+T"; "+T" or A G; G and B "b c"; S seq B A; A; B; "b c";
=> tree: 3 units, 3 gates, top "+T"
cuts: 2, orders: 0
cut 1: A
  (none)
cut 2: B "b c"
  (not listed)

$ none 6
toplevel T; T and A; A;
=> tree: 1 units, 1 gates, top T
cuts: 0, orders: 0
"#;

#[test]
fn cut_sets_are_written_with_names_and_orders(rt: HostRuntime) -> Result<(), Fail> {
    check_table(&rt, rt.alloc(), CUT_SETS)
}

// Boards, once their crews were served in this order, each crew a digit.
const BOARDS: &str = "board 00110000
toplevel T; T and A B C; A; B; C;
@crews
crew c
take A
take A
return B
take Z
return A
take A
crew d
return A
take A
=> margin: 0
log: 8
1 c take A: granted
2 c take A: E2 already out with c
3 d return A: E4 held by c
4 d take A: E2 already out with c
5 c return B: E3 not out
6 c take Z: E1 unknown unit
7 c return A: granted
8 c take A: granted
out: 1
A c
left 1: 2 of 3

$ board 000000000000
toplevel T; T or G H; G and A B; H and C D; A; B; C; D;
@crews
crew supervisor
take A C
margin 1
return A
margin 1
return C
margin 1
take A
margin 0
take A B
take C A
take B Z
take B A
=> margin: 0
log: 12
1 supervisor take A C: granted
2 supervisor margin 1: denied, cut 1
3 supervisor return A: granted
4 supervisor margin 1: denied, cut 2
5 supervisor return C: granted
6 supervisor margin 1: granted
7 supervisor take A: denied, cut 1
8 supervisor margin 0: granted
9 supervisor take A B: denied, cut 1
10 supervisor take C A: granted
11 supervisor take B Z: E1 unknown unit
12 supervisor take B A: E2 already out with supervisor
margin now: 0
out: 2
A supervisor
C supervisor
left 1: 1 of 2
left 2: 1 of 2
";

#[test]
fn errors_and_the_margin_of_a_supervisor_are_written(rt: HostRuntime) -> Result<(), Fail> {
    check_table(&rt, rt.alloc(), BOARDS)
}

const FAULTS: &str = "fault BadByte
=> refused: L1 bad byte at 16385:7

$ fault OpenQuote
=> refused: L2 open quote at 16385:7

$ fault NameTooLong
=> refused: L5 name too long at 16385:7

$ fault Semicolon
=> refused: P1 expected semicolon at 16385:7

$ fault GateOrAttribute
=> refused: P1 expected gate or attribute at 16385:7

$ fault NoToplevel
=> refused: C1 no toplevel at 16385:7

$ fault DummyInput
=> refused: C6 dummy input at 16385:7

$ fault SpareNotBasic
=> refused: C10 spare not basic at 16385:7

$ fault TooManyGates
=> refused: C16 too many gates at 16385:7
";

#[test]
fn faults_are_written_with_their_places(rt: HostRuntime) -> Result<(), Fail> {
    check_table(&rt, rt.alloc(), FAULTS)
}

const NOTICES: &str = "notice Usage
=> usage: cuts [--most N] [--workers N] | board [--margin N] [--most N] [--workers N] \
| check | print | diagram [--workers N] | make --number N [--show deck|summary] | help

$ notice ReadFault
=> refused: read fault

$ notice TooLong
=> refused: input too long

$ notice ListLimit
=> refused: list limit 16777216

$ notice OrderLimit
=> refused: order limit 2000000
";

#[test]
fn notices_are_written(rt: HostRuntime) -> Result<(), Fail> {
    check_table(&rt, rt.alloc(), NOTICES)
}

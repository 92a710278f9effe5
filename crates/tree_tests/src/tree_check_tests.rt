//! Texts that are checked: the tree that they are, or the fault and where it stands.

use crate::rows::part;
use fault_model::{NodeNo, Place, Tree};
use galileo_tree::parse;
use std::alloc::Global;
use std::process::Abort;
use std::test::Fail;
use tree_check::{CheckFault, check};
use unit_sets::UnitNo;
use worked_trees::tree_of;

// How long a text may be, in bytes.
const LONGEST_TEXT: usize = 16_777_216;

// How many units and gates a tree has.
fn told_tree(alloc: Global, tree: &Tree) -> Result<String, Fail> {
    let units = tree.units();
    let gates = tree.gates();
    Ok(format!(in alloc; "{units} units, {gates} gates")?)
}

// A fault with its line and column.
fn told_fault(alloc: Global, fault: CheckFault) -> Result<String, Fail> {
    match fault {
        CheckFault::Fault(code, Place { line, column }) => {
            Ok(format!(in alloc; "{code:?} at {line}:{column}")?)
        }
        CheckFault::NoMemory => Err("no memory".into()),
    }
}

// What checking a text in the grammar answers.
fn checked(alloc: Global, text: &[u8]) -> Result<String, Fail> {
    if text.len() > LONGEST_TEXT {
        return Err("the text is too long".into());
    }
    let raw = parse(alloc, text)?;
    match check(alloc, raw) {
        Ok(tree) => told_tree(alloc, &tree),
        Err(fault) => told_fault(alloc, fault),
    }
}

// Trees, each with its text and how many units and gates it has.
const TREES: &str = "\
toplevel A; A lambda=0.1;>1 units, 0 gates|\
toplevel T; T or F A; F fdep X A; A; X;>2 units, 2 gates|\
toplevel T; A; T and A;>1 units, 1 gates|\
toplevel T; T and G H; G csp A S; H csp A R; A; S; R;>3 units, 3 gates|\
toplevel T; T or G H; G csp U S; H hsp U R; U and A; A; S; R;>3 units, 4 gates|\
toplevel T; T or F A; F fdep T B; A; B;>2 units, 2 gates";

// Each class of faults, with the line and column of the first.
const FAULTS: &str = "\
>NoToplevel at 1:1|\
toplevel A; toplevel A; A;>TwoToplevels at 1:13|\
toplevel A; A; \"A\";>DuplicateName at 1:16|\
toplevel A; A; T and B;>Undefined at 1:22|\
toplevel T; T 3of2 A B; A; B;>Votes at 1:15|\
toplevel T; T pand F A; F fdep X A; A; X;>DummyInput at 1:20|\
toplevel T; T por;>NoInputs at 1:15|\
toplevel A; A; F fdep A;>FdepShape at 1:18|\
toplevel T; T and A; F fdep A T; A;>DependentGate at 1:31|\
toplevel T; T csp A G; G and A; A;>SpareNotBasic at 1:21|\
toplevel T; T and G H; G csp A S; H csp B S; A; B; S;>SharedSpare at 1:43|\
toplevel T; T and G H; G csp A S; H wsp S B; A; B; S;>SharedSpare at 1:41|\
toplevel A; A REPL=\"1\" repl=01;>Replicated at 1:29|\
toplevel F; F fdep A B; A; B;>TopIsFdep at 1:10|\
toplevel T; T and A B; F fdep T A; A; B;>Cycle at 1:13|\
toplevel T; T and B; B; A; F fdep A A;>Cycle at 1:25";

// Faults of names and values.
const NAMES: &str = "\
A;\nB;\n>NoToplevel at 3:1|\
A;\ntoplevel A;\nB; toplevel B;\ntoplevel A;>TwoToplevels at 3:4|\
toplevel A;\nA; B;\nT or A; B and A; A;>DuplicateName at 3:9|\
toplevel A; A;\nG and A \"x y\" z;>Undefined at 2:9|\
toplevel A; A; F fdep A B;>Undefined at 1:25|\
toplevel T; A;>Undefined at 1:10|\
F fdep A B; A; B;\n  toplevel F;>TopIsFdep at 2:12|\
toplevel A; A x=2 repl=1; B repl=\"1\" Repl=+1;>Replicated at 1:43|\
toplevel A; A repl=\"1.0\";>Replicated at 1:20";

// Faults of gates.
const GATES: &str = "\
toplevel T; A; B;\nT or G H; G 2of2 A B; H 0of2 A B;>Votes at 2:25|\
toplevel T; A; T 1of3 A A;>Votes at 1:18|\
toplevel T; T 0of0;>Votes at 1:15|\
toplevel T; T and; G 2of1 A; A;>Votes at 1:22|\
toplevel T; T or G A; G pand F A; F fdep X A; H 2of1 A; A; X;>Votes at 1:49|\
toplevel T; T or A; F fdep A B; G fdep F A; A; B;>DummyInput at 1:40|\
toplevel T; T csp A F; F fdep X A; A; X;>DummyInput at 1:21|\
toplevel T; T 2of2 A F; F fdep X A; A; X;>DummyInput at 1:22|\
toplevel T; T or A G; G or F; F fdep X A; A; X;>NoInputs at 1:25|\
toplevel A; A; G csp;>NoInputs at 1:18|\
toplevel A; A; B; F fdep A B; G fdep;>FdepShape at 1:33";

// Faults of inputs.
const INPUTS: &str = "\
toplevel T; T and A; U or A; F fdep A B U; A; B;>DependentGate at 1:41|\
toplevel T; T wsp A B; G or A; H hsp A C G; A; B; C;>SpareNotBasic at 1:42|\
toplevel T; T csp A S S; A; S;>SharedSpare at 1:23|\
toplevel T; T csp A A; A;>SharedSpare at 1:21|\
toplevel T; T or A T; A;>Cycle at 1:13|\
toplevel T; A; T or A; F fdep T A;>Cycle at 1:13|\
toplevel T; T or G; G or H; H or I A; I and G; A;>Cycle at 1:21";

// Each row has a text and what is told of it.
fn check_rows<R: Abort>(rt: &R, alloc: Global, rows: &str) -> Result<(), Fail> {
    for row in rows.split('|') {
        let told = checked(alloc, part(row, 0).as_bytes())?;
        assert_eq!(rt; told.as_str(), part(row, 1), "{row}");
    }
    Ok(())
}

#[test]
fn texts_are_trees_or_have_a_first_fault(rt: HostRuntime) -> Result<(), Fail> {
    check_rows(&rt, rt.alloc(), TREES)?;
    check_rows(&rt, rt.alloc(), FAULTS)?;
    check_rows(&rt, rt.alloc(), NAMES)?;
    check_rows(&rt, rt.alloc(), GATES)?;
    check_rows(&rt, rt.alloc(), INPUTS)
}

// The numbers from 1 on, each between two pieces of text.
fn push_numbered(
    alloc: Global,
    text: &mut String,
    count: u32,
    before: &str,
    after: &str,
) -> Result<(), Fail> {
    for number in 1..=count {
        text.push_str(format!(in alloc; "{before}{number}{after}")?.as_str())?;
    }
    Ok(())
}

// So many basic events, each on a line of its own. The first of them is the top event.
fn events(alloc: Global, units: u32) -> Result<String, Fail> {
    let mut text = String::from_str(alloc, "toplevel B1;")?;
    push_numbered(alloc, &mut text, units, "\nB", ";")?;
    Ok(text)
}

// So many basic events under one gate: `T or u1 ..`, and each on a line of its own behind it.
fn wide(alloc: Global, units: u32) -> Result<String, Fail> {
    let mut text = String::from_str(alloc, "toplevel T;\nT or")?;
    push_numbered(alloc, &mut text, units, " u", "")?;
    text.push(';')?;
    push_numbered(alloc, &mut text, units, "\nu", ";")?;
    Ok(text)
}

// So many gates that all read one event, which comes last, each on a line of its own.
fn fan(alloc: Global, gates: u32) -> Result<String, Fail> {
    let mut text = String::from_str(alloc, "toplevel g1;")?;
    push_numbered(alloc, &mut text, gates, "\ng", " or u;")?;
    text.push_str("\nu;")?;
    Ok(text)
}

// A text of a shape with so many units or gates.
fn shaped(alloc: Global, shape: &str, count: u32) -> Result<String, Fail> {
    if shape == "events" {
        return events(alloc, count);
    }
    if shape == "wide" {
        return wide(alloc, count);
    }
    fan(alloc, count)
}

fn checked_shape(alloc: Global, row: &str) -> Result<String, Fail> {
    let count = part(row, 1).parse::<u32>()?;
    let text = shaped(alloc, part(row, 0), count)?;
    checked(alloc, text.as_bytes())
}

// A shape, how many units or gates it has, and what is told of it.
const SHAPES: &str = "\
events>4095>4095 units, 0 gates
wide>4095>4095 units, 1 gates
events>4096>TooManyUnits at 4097:1
wide>4096>TooManyUnits at 4098:1
fan>16383>1 units, 16383 gates
fan>16384>TooManyGates at 16385:1";

#[test]
fn units_and_gates_have_their_limits(rt: HostRuntime) -> Result<(), Fail> {
    for row in SHAPES.lines() {
        let told = checked_shape(rt.alloc(), row)?;
        assert_eq!(rt; told.as_str(), part(row, 2), "{row}");
    }
    Ok(())
}

// A name of four letters: the digits of a number below 1,048,576 in base 32.
fn short_name(number: u32) -> [u8; 4] {
    [
        digit(number / 32_768),
        digit(number / 1024),
        digit(number / 32),
        digit(number),
    ]
}

fn digit(number: u32) -> u8 {
    let place = (number % 32) as u8;
    if place < 26 {
        b'A' + place
    } else {
        b'a' + (place - 26)
    }
}

// A chain of so many gates below the top event, each on a line of its own behind the one that it reads. A line has 14
// bytes.
fn chain(alloc: Global, gates: u32) -> Result<Vec<u8>, Fail> {
    let mut text = Vec::from_slice(alloc, b"B;\nAAAA or B;")?;
    let mut last = short_name(0);
    for gate in 1..gates {
        let name = short_name(gate);
        text.push(b'\n')?;
        text.extend_from_slice(&name)?;
        text.extend_from_slice(b" or ")?;
        text.extend_from_slice(&last)?;
        text.push(b';')?;
        last = name;
    }
    text.extend_from_slice(b"\ntoplevel ")?;
    text.extend_from_slice(&last)?;
    text.push(b';')?;
    Ok(text)
}

fn checked_chain(alloc: Global, row: &str) -> Result<String, Fail> {
    let gates = part(row, 0).parse::<u32>()?;
    let text = chain(alloc, gates)?;
    checked(alloc, text.as_slice())
}

// How many gates a chain has, and what is told of it.
const CHAINS: &str = "\
16383>1 units, 16383 gates
16384>TooManyGates at 16385:1
1000000>TooManyGates at 16385:1";

#[test]
fn long_chains_are_walked(rt: HostRuntime) -> Result<(), Fail> {
    for row in CHAINS.lines() {
        let told = checked_chain(rt.alloc(), row)?;
        assert_eq!(rt; told.as_str(), part(row, 1), "{row}");
    }
    Ok(())
}

// The names of all nodes, in the order of their numbers, each with a comma behind it.
fn push_names(tree: &Tree, told: &mut Vec<u8>) -> Result<(), Fail> {
    let nodes = tree.units() + tree.gates();
    for index in 0..nodes {
        told.extend_from_slice(tree.name(NodeNo(index + 1)).as_slice())?;
        told.push(b',')?;
    }
    Ok(())
}

// The kind of a gate, and the numbers of its inputs.
fn told_gate(alloc: Global, tree: &Tree, gate: u32) -> Result<String, Fail> {
    if gate <= tree.units() || tree.units() + tree.gates() < gate {
        return Err("no gate".into());
    }
    let kind = tree.kind(NodeNo(gate));
    let mut told = format!(in alloc; "{kind:?}")?;
    for input in tree.inputs(NodeNo(gate)) {
        let number = input.0;
        told.push_str(format!(in alloc; " {number}")?.as_str())?;
    }
    Ok(told)
}

// The attributes of a unit, each with a comma behind it, and a colon behind all.
fn push_attributes(tree: &Tree, number: u16, told: &mut Vec<u8>) -> Result<(), Fail> {
    let unit = UnitNo::new(number).ok_or("a unit")?;
    if u32::from(unit.number()) > tree.units() {
        return Err("no unit".into());
    }
    for attribute in tree.attributes(unit) {
        told.extend_from_slice(attribute.word.as_slice())?;
        told.push(b'=')?;
        told.extend_from_slice(attribute.value.as_slice())?;
        told.push(b',')?;
    }
    told.push(b':')?;
    Ok(())
}

// The names and attributes of a tree of three units.
fn told_names(alloc: Global, tree: &Tree) -> Result<Vec<u8>, Fail> {
    let mut told = Vec::new(alloc);
    push_names(tree, &mut told)?;
    push_attributes(tree, 1, &mut told)?;
    push_attributes(tree, 2, &mut told)?;
    push_attributes(tree, 3, &mut told)?;
    Ok(told)
}

// Asserted of a tree here, where nothing is owned.
fn check_tree<R: Abort>(rt: &R, alloc: Global, tree: &Tree) -> Result<(), Fail> {
    assert_eq!(rt; told_tree(alloc, tree)?.as_str(), "3 units, 1 gates");
    assert!(rt; tree.top() == NodeNo(4));
    assert_eq!(rt; told_gate(alloc, tree, 4)?.as_str(), "Votes(2, 3) 2 3 1");
    let wanted = b"C,A,b c,T,:lambda=1e-4,:dorm=0.5,repl=1,:".as_slice();
    assert_eq!(rt; told_names(alloc, tree)?.as_slice(), wanted);
    Ok(())
}

// Units are numbered in the order of their definitions, which is not that of their uses.
#[test]
fn a_tree_has_exactly_what_its_text_says(rt: HostRuntime) -> Result<(), Fail> {
    let text = "toplevel T; T 2OF3 A \"b c\" C; C; A lambda = 1e-4; \"b c\" dorm=0.5 repl=1;";
    let tree = tree_of(rt.alloc(), text.as_bytes())?;
    check_tree(&rt, rt.alloc(), &tree)
}

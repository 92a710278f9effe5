//! Pictures, as a sink in memory takes them.
use edge_io::{CallList, KeptSink, NoMemory, Out};
use fault_model::Tree;
use std::alloc::Global;
use std::test::Fail;
use tree_picture::put_picture;
use unit_sets::UnitNo;
use worked_trees::tree_of;

// Puts a picture with these units marked into a sink: whether the sink took it.
fn put_into(
    alloc: Global,
    sink: &mut KeptSink,
    tree: &Tree,
    marked: &[UnitNo],
) -> Result<bool, NoMemory> {
    let mut out = Out::new(alloc, sink)?;
    let _ = put_picture(&mut out, tree, marked);
    Ok(out.finish().is_ok())
}

// Whether a sink with so much room, which is not more than a text needs, takes so much of the text, and fails where
// that is not all of it.
fn takes(
    alloc: Global,
    tree: &Tree,
    marked: &[UnitNo],
    room: usize,
    text: &[u8],
) -> Result<bool, NoMemory> {
    let mut sink = KeptSink::new(alloc, room, CallList::new(alloc, &[])?)?;
    let taken = put_into(alloc, &mut sink, tree, marked)?;
    let bytes = sink.bytes();
    Ok(taken == (room == text.len()) && bytes.len() == room && text.starts_with(bytes))
}

// Whether the picture of a tree with these units marked is this text, and with less room a front of it.
fn is_picture(
    alloc: Global,
    tree: &Tree,
    marked: &[UnitNo],
    text: &[u8],
) -> Result<bool, NoMemory> {
    let length = text.len();
    for room in [0, 1, length / 2, length.saturating_sub(1), length] {
        if !takes(alloc, tree, marked, room, text)? {
            return Ok(false);
        }
    }
    Ok(true)
}

// The units of some digits.
fn units_of(alloc: Global, digits: &[u8]) -> Result<Vec<UnitNo>, Fail> {
    let mut units = Vec::new(alloc);
    for digit in digits {
        let number = u16::from(digit.wrapping_sub(b'0'));
        units.push(UnitNo::new(number).ok_or("no unit")?)?;
    }
    Ok(units)
}

// Whether the tree of a deck has this picture, with the units of these digits marked.
fn has_picture(alloc: Global, deck: &str, marked: &str, text: &str) -> Result<bool, Fail> {
    let units = units_of(alloc, marked.as_bytes())?;
    let tree = tree_of(alloc, deck.as_bytes())?;
    Ok(is_picture(alloc, &tree, units.as_slice(), text.as_bytes())?)
}

// Each case has the digits of the units that are marked, a deck, and its picture. The first shows that marked units are
// filled, and the second the shape of each kind. In the third an input stands twice and has two lines. The last has
// names by the rules of labels, where a backslash and an ampersand mean something; a name has no quotation mark.
const PICTURES: &str = r#"13|toplevel "COOLING LOST"; "COOLING LOST" 2of3 A B C; A; B; C;
=> digraph {
  ordering=out;
  1 [label="A", shape=circle, style=filled];
  2 [label="B", shape=circle];
  3 [label="C", shape=circle, style=filled];
  4 [label="COOLING LOST\n2of3", shape=hexagon];
  4 -> 1;
  4 -> 2;
  4 -> 3;
}

$ |toplevel T; T and O P R S D; O or A B; P pand A B; R por B A; S seq A B; D csp A X; E wsp B Y; H hsp C Z;
F fdep C A B; A; B; C; X; Y; Z;
=> digraph {
  ordering=out;
  1 [label="A", shape=circle];
  2 [label="B", shape=circle];
  3 [label="C", shape=circle];
  4 [label="X", shape=circle];
  5 [label="Y", shape=circle];
  6 [label="Z", shape=circle];
  7 [label="T\nand", shape=trapezium];
  7 -> 8;
  7 -> 9;
  7 -> 10;
  7 -> 11;
  7 -> 12;
  8 [label="O\nor", shape=triangle];
  8 -> 1;
  8 -> 2;
  9 [label="P\npand", shape=trapezium, peripheries=2];
  9 -> 1;
  9 -> 2;
  10 [label="R\npor", shape=triangle, peripheries=2];
  10 -> 2;
  10 -> 1;
  11 [label="S\nseq", shape=box];
  11 -> 1;
  11 -> 2;
  12 [label="D\ncsp", shape=component];
  12 -> 1;
  12 -> 4;
  13 [label="E\nwsp", shape=component];
  13 -> 2;
  13 -> 5;
  14 [label="H\nhsp", shape=component];
  14 -> 3;
  14 -> 6;
  15 [label="F\nfdep", shape=box, style=dashed];
  15 -> 3 [style=dashed];
  15 -> 1 [style=dashed];
  15 -> 2 [style=dashed];
}

$ |toplevel T; T 2of3 A A B; A; B;
=> digraph {
  ordering=out;
  1 [label="A", shape=circle];
  2 [label="B", shape=circle];
  3 [label="T\n2of3", shape=hexagon];
  3 -> 1;
  3 -> 1;
  3 -> 2;
}

$ |toplevel "\N & \"; "\N & \" or "&lt;"; "&lt;";
=> digraph {
  ordering=out;
  1 [label="&amp;lt;", shape=circle];
  2 [label="\\N &amp; \\\nor", shape=triangle];
  2 -> 1;
}
"#;

#[test]
fn pictures_are_put_whole_or_a_front_of_them(rt: HostRuntime) -> Result<(), Fail> {
    for case in PICTURES.split("\n$ ") {
        let (order, text) = case.split_once("\n=> ").ok_or("a case out of form")?;
        let (marked, deck) = order.split_once('|').ok_or("an order out of form")?;
        assert!(rt; has_picture(rt.alloc(), deck, marked, text)?, "{case}");
    }
    Ok(())
}

//! Small trees and the largest: what their top events read, and the names of their units. Names, orders and lists.
use fault_model::{Name, NoMemory, NodeList, NodeNo, Order, Scratch, Tree, eval_static};
use std::alloc::Global;
use std::test::Fail;
use unit_sets::{UnitNo, UnitSet};
use worked_trees::tree_of;

// A number by its digits.
fn number(digits: &str) -> u16 {
    let mut number = 0u16;
    for digit in digits.as_bytes() {
        let value = u16::from(digit.wrapping_sub(b'0'));
        number = number.wrapping_mul(10).wrapping_add(value);
    }
    number
}

// Puts the unit of a number into a set. A 0 is no unit.
fn put(set: &mut UnitSet, number: u16) {
    if let Some(unit) = UnitNo::new(number) {
        let _changed = set.insert(unit);
    }
}

// Whether the top event fails once a unit has, or two with a `+` between their numbers.
fn top_fails(alloc: Global, tree: &Tree, units: &str) -> Result<bool, NoMemory> {
    let (first, second) = units.split_once('+').unwrap_or((units, "0"));
    let mut set = UnitSet::new(alloc)?;
    put(&mut set, number(first));
    put(&mut set, number(second));
    let mut scratch = Scratch::new(alloc, tree)?;
    Ok(eval_static(tree, &mut scratch, tree.top(), &set))
}

// The number of the unit of a name, or 0 where there is none.
fn number_named(alloc: Global, tree: &Tree, name: &str) -> Result<u16, NoMemory> {
    let Some(name) = Name::new(alloc, name.as_bytes())? else {
        return Ok(0);
    };
    match tree.unit_named(&name) {
        Some(unit) => Ok(unit.number()),
        None => Ok(0),
    }
}

// Whether the top event fails or not once these units have, or else whether a name is that of the unit of a number.
fn is_so(alloc: Global, tree: &Tree, asked: &str, wanted: &str) -> Result<bool, NoMemory> {
    match wanted {
        "y" => top_fails(alloc, tree, asked),
        "n" => Ok(!top_fails(alloc, tree, asked)?),
        _ => Ok(number_named(alloc, tree, asked)? == number(wanted)),
    }
}

// Whether each of these is so, which stand with blanks between them.
fn are_so(alloc: Global, tree: &Tree, all: &str) -> Result<bool, Fail> {
    for one in all.split(' ') {
        let (asked, wanted) = one.split_once('=').ok_or("no answer is told")?;
        if !is_so(alloc, tree, asked, wanted)? {
            return Ok(false);
        }
    }
    Ok(true)
}

// The same of the tree of a text.
fn are_so_in(alloc: Global, text: &str, all: &str) -> Result<bool, Fail> {
    let tree = tree_of(alloc, text.as_bytes())?;
    are_so(alloc, &tree, all)
}

// Whether the top event of a tree fails (`y`) or doesn't (`n`) once no unit has, 1 has, 2 has, 3 has, and 1 and 2 have.
// Then the units of names, by their numbers, or 0 where there is none.
const TREES: &str = "\
toplevel T; T or A G; G and A B; H 2of3 A B A; A; B;|0=n 1=y 2=n 3=n 1+2=y A=1 B=2 T=0 X=0
toplevel T; T and G B; G por A B; A; B;|0=n 1=n 2=n 3=n 1+2=y
toplevel T; T and G B; G por A B; F fdep X A B; A; B; X;|0=n 1=n 2=n 3=y 1+2=y
toplevel T; T pand A B; F fdep X A B; S csp A B; A; B; X;|0=n 1=n 2=n 3=y 1+2=y";

#[test]
fn trees_have_readings_and_units_by_their_names(rt: HostRuntime) -> Result<(), Fail> {
    for row in TREES.lines() {
        let (text, all) = row.split_once('|').ok_or("a row out of form")?;
        assert!(rt; are_so_in(rt.alloc(), text, all)?, "{row}");
    }
    Ok(())
}

// The digits of a number below 10,000, with zeros in front of it.
fn four_digits(number: u16) -> [u8; 4] {
    [
        b'0' + (number / 1000 % 10) as u8,
        b'0' + (number / 100 % 10) as u8,
        b'0' + (number / 10 % 10) as u8,
        b'0' + (number % 10) as u8,
    ]
}

// Adds a piece and the name of a unit, `u` and its number.
fn push_unit(text: &mut Vec<u8>, piece: &[u8], number: u16) -> Result<(), NoMemory> {
    let zeros = match number {
        0..=9 => 3,
        10..=99 => 2,
        100..=999 => 1,
        _ => 0,
    };
    text.extend_from_slice(piece)?;
    text.push(b'u')?;
    text.extend_from_slice(&four_digits(number)[zeros..])
}

fn push_units(text: &mut Vec<u8>, piece: &[u8], units: u16) -> Result<(), NoMemory> {
    for number in 1..=units {
        push_unit(text, piece, number)?;
    }
    Ok(())
}

// So many units, from `u1` on, under a gate `top or`.
fn wide(alloc: Global, units: u16) -> Result<Vec<u8>, NoMemory> {
    let mut text = Vec::from_slice(alloc, b"toplevel top; top or")?;
    push_units(&mut text, b" ", units)?;
    push_units(&mut text, b"; ", units)?;
    text.push(b';')?;
    Ok(text)
}

// Whether each of these is so of a tree with so many units.
fn are_so_of(alloc: Global, units: u16, all: &str) -> Result<bool, Fail> {
    let text = wide(alloc, units)?;
    let tree = tree_of(alloc, text.as_slice())?;
    are_so(alloc, &tree, all)
}

// As many units as a tree may have.
#[test]
fn most_units(rt: HostRuntime) -> Result<(), Fail> {
    let all = "0=n 1=y 2048=y 4095=y u1=1 u10=10 u999=999 u4095=4095 u4096=0 u0=0 u01=0 top=0";
    assert!(rt; are_so_of(rt.alloc(), 4095, all)?);
    Ok(())
}

// Whether so many letters are a name, which then has to have just these bytes.
fn is_name(alloc: Global, letters: usize) -> Result<bool, Fail> {
    let bytes = vec![in alloc; b'a'; letters]?;
    let Some(name) = Name::new(alloc, bytes.as_slice())? else {
        return Ok(false);
    };
    if name.as_slice() != bytes.as_slice() {
        return Err("a name of other bytes".into());
    }
    Ok(true)
}

#[test]
fn lengths_of_names(rt: HostRuntime) -> Result<(), Fail> {
    for letters in [1, 22, 23, 255] {
        assert!(rt; is_name(rt.alloc(), letters)?, "{letters}");
    }
    assert!(rt; !is_name(rt.alloc(), 0)?);
    assert!(rt; !is_name(rt.alloc(), 256)?);
    Ok(())
}

// Whether the order of some units has these in turn, or is there none.
fn has_in_turn(alloc: Global, units: &[UnitNo]) -> Result<Option<bool>, NoMemory> {
    match Order::new(alloc, units)? {
        Some(order) => Ok(Some(order.as_slice() == units)),
        None => Ok(None),
    }
}

#[test]
fn orders(rt: HostRuntime) -> Result<(), Fail> {
    let first = UnitNo::new(1).ok_or("1 is a unit")?;
    let second = UnitNo::new(2).ok_or("2 is a unit")?;
    let in_turn = has_in_turn(rt.alloc(), &[second, first])?;
    assert!(rt; matches!(in_turn, Some(true)));
    assert!(rt; has_in_turn(rt.alloc(), &[first, second, first])?.is_none());
    Ok(())
}

// Whether a list with room for three items has it at once, and takes one.
fn has_room(alloc: Global) -> Result<bool, NoMemory> {
    let mut nodes = NodeList::with_room(alloc, 3)?;
    let empty = nodes.as_slice().is_empty();
    nodes.push(NodeNo(7))?;
    let one = nodes.as_slice() == [NodeNo(7)].as_slice();
    Ok(empty && one && nodes.into_items().capacity() == 3)
}

fn has_none_for_no_items(alloc: Global) -> Result<bool, NoMemory> {
    let none = NodeList::with_room(alloc, 0)?;
    let empty = none.as_slice().is_empty();
    Ok(empty && none.into_items().capacity() == 0)
}

#[test]
fn lists_with_room(rt: HostRuntime) -> Result<(), Fail> {
    assert!(rt; has_room(rt.alloc())?);
    assert!(rt; has_none_for_no_items(rt.alloc())?);
    Ok(())
}

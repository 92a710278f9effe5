//! Gates and units of small trees, and a full store.
ghost use Rattle.std.specs.Prelude.{◌≡◌, IfOk, IfSome, OnOk};
ghost use Rattle.fault_definitions.specs.CutFamily.{IsCutFamily};
ghost use Rattle.fault_definitions.specs.Tree.{IsNodeOf, is_fdep};
ghost use Rattle.zdd_families.specs.Map.{Grown};
ghost use Rattle.zdd_shared_table.specs.Seats.{IsSoundSeat, map_of};
ghost use Rattle.zdd_product.specs.Seats.{KnowsOne};
ghost use Rattle.zdd_nodes.specs.Room.{HaveRoomFor};

use fault_model::{GateKind, NodeNo, Tree};
use std::alloc::Global;
use std::test::Fail;
use worked_families::{family_of, ops_on};
use worked_trees::tree_of;
use zdd_nodes::{Rooms, cut_family};
use zdd_product::Ops;
use zdd_shared_table::{NodeStore, StoreStart};
use zdd_words::NodeRef;

// How deep a tree may be.
const DEPTH: u32 = 64;

// Whether a node is an `fdep`, which has no family.
fn is_fdep(tree: &Tree, node: NodeNo) -> bool
    requires { IsNodeOf tree.now node }
    ensures { result ≡ is_fdep tree.now node }
{
    node.number() > tree.units() && matches!(tree.kind(node), GateKind::Fdep)
}

// The cut family of a node, from those of all that it reads, each made again: none, where the store is full or the tree
// is deeper.
fn node_family(
    alloc: Global,
    ops: &mut Ops,
    tree: &Tree,
    rooms: &mut Rooms,
    node: NodeNo,
    depth: u32,
) -> Result<Option<NodeRef>, Fail>
    requires node { IsNodeOf tree.now node }
    requires room { HaveRoomFor tree.now rooms.old }
    ensures gives { IfOk result (λ found. IfSome found (λ r. KnowsOne (map_of ops.new) r (IsCutFamily tree.now node))) }
    ensures keeps { OnOk result (Grown (map_of ops.old) (map_of ops.new)) }
    ensures sound { OnOk result (IsSoundSeat ops.new) }
    ensures room { OnOk result (HaveRoomFor tree.now rooms.new) }
{
    ops.is_sound();
    if depth == 0 || is_fdep(tree, node) {
        return Ok(None);
    }
    // Tells the proof what a tree keeps.
    let units = tree.units();
    let nodes = tree.below(node);
    let mut list = vec![in alloc; NodeRef::EMPTY; (units + tree.gates()) as usize]?;
    for i in 0..nodes.len() {
        let Some(one) = node_family(alloc, ops, tree, rooms, nodes[i], depth - 1)? else {
            return Ok(None);
        };
        list[nodes[i].index()] = one;
    }
    match cut_family(ops, tree, node, list.as_slice(), rooms) {
        Ok(family) => Ok(Some(family)),
        Err(_) => Ok(None),
    }
}

// The units of a text, a digit for each, with a 0 for each point.
fn numbers_of(alloc: Global, text: &[u8]) -> Result<Vec<u16>, Fail> {
    let mut numbers = Vec::new(alloc);
    for byte in text {
        let number = if *byte == b'.' {
            0
        } else {
            byte.wrapping_sub(b'0')
        };
        numbers.push(u16::from(number))?;
    }
    Ok(numbers)
}

// Whether the cut family of the top event of a tree has the sets that are spelled, or is there none: the store was
// full. Equal families have one reference.
fn told_in(
    alloc: Global,
    ops: &mut Ops,
    tree: &Tree,
    wanted: &[u16],
) -> Result<Option<bool>, Fail> {
    let mut rooms = Rooms::new(alloc, tree)?;
    let Some(top) = node_family(alloc, ops, tree, &mut rooms, tree.top(), DEPTH)? else {
        return Ok(None);
    };
    Ok(Some(top == family_of(ops, wanted)?))
}

// The same in a new store of so many bits.
fn told_with(alloc: Global, bits: u32, tree: &Tree, wanted: &[u16]) -> Result<Option<bool>, Fail> {
    if bits < 10 || bits > 11 {
        return Err("no such store".into());
    }
    let StoreStart { store, seat } = NodeStore::new(alloc, bits)?;
    let mut ops = ops_on(alloc, &store, seat)?;
    told_in(alloc, &mut ops, tree, wanted)
}

// The same of the text of a tree and that of the sets.
fn told(alloc: Global, bits: u32, tree: &[u8], sets: &[u8]) -> Result<Option<bool>, Fail> {
    let wanted = numbers_of(alloc, sets)?;
    let tree = tree_of(alloc, tree)?;
    told_with(alloc, bits, &tree, wanted.as_slice())
}

// Trees of gates of each kind, an `or` that absorbs a set, an `and` that shares a unit, and units with one trigger and
// with two. The sets of the top event's cut family have a digit for each unit, which is its place among the units of
// the tree's text, and a point behind each.
const TREES: &str = "\
toplevel T; T 2of3 A B C; A; B; C;|12.13.23.
toplevel T; T or A G H; G and A B; H and B C; A; B; C;|1.23.
toplevel T; T and G H D; G or A B; H or A C; A; B; C; D;|14.234.
toplevel T; T pand B A; A; B;|12.
toplevel T; T por G B C; G or A D; A; B; C; D;|1.4.
toplevel T; T seq C G; G or A B; A; B; C;|13.23.
toplevel T; T csp A B C; A; B; C;|123.
toplevel T; T wsp A B; A; B;|12.
toplevel T; T hsp G C; G or A B; A; B; C;|13.23.
toplevel A; F fdep B A; A; B;|1.2.
toplevel A; F fdep B A; E fdep G A; G or H D; H and B C; A; B; C; D;|1.2.4.";

// Whether the cut family of a row's tree has its sets.
fn has_its_sets(alloc: Global, row: &str) -> Result<bool, Fail> {
    let Some((tree, sets)) = row.split_once('|') else {
        return Ok(false);
    };
    let told = told(alloc, 10, tree.as_bytes(), sets.as_bytes())?;
    Ok(matches!(told, Some(true)))
}

#[test]
fn nodes_of_each_kind_have_their_cut_families(rt: HostRuntime) -> Result<(), Fail> {
    for row in TREES.lines() {
        if !has_its_sets(rt.alloc(), row)? {
            return Err(row.into());
        }
    }
    Ok(())
}

// A number below 100 by its digits.
fn digits(number: u8) -> [u8; 2] {
    [b'0' + number / 10 % 10, b'0' + number % 10]
}

// A gate that unites the one before with a unit.
fn push_gate(text: &mut Vec<u8>, before: &[u8], number: &[u8]) -> Result<(), Fail> {
    text.extend_from_slice(b" G")?;
    text.extend_from_slice(number)?;
    text.extend_from_slice(b" or G")?;
    text.extend_from_slice(before)?;
    text.extend_from_slice(b" u")?;
    text.extend_from_slice(number)?;
    text.extend_from_slice(b"; u")?;
    text.extend_from_slice(number)?;
    text.push(b';')?;
    Ok(())
}

// Gates that each unite the last one with one unit more, up to sixty units.
fn chain(alloc: Global) -> Result<Vec<u8>, Fail> {
    let mut text = Vec::new(alloc);
    text.extend_from_slice(b"toplevel G60; G01 or u01; u01;")?;
    for number in 2..61u8 {
        push_gate(&mut text, &digits(number - 1), &digits(number))?;
    }
    Ok(text)
}

#[test]
fn a_full_store_ends_a_gate_that_a_larger_one_holds(rt: HostRuntime) -> Result<(), Fail> {
    let text = chain(rt.alloc())?;
    assert!(rt; told(rt.alloc(), 10, text.as_slice(), b"")?.is_none());
    assert!(rt; told(rt.alloc(), 11, text.as_slice(), b"")?.is_some());
    Ok(())
}

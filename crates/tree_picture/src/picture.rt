//! A whole picture.
ghost use Rattle.std.specs.Prelude.{◌≡◌, false, is_err};
ghost use Rattle.std.specs.List.{flat_map};
ghost use Rattle.edge_io.specs.Out.{has_failed, Puts};
ghost use Rattle.fault_definitions.specs.Tree.{IsGateOf, IsUnitOf};
ghost use Rattle.deck_reading.specs.TreeStatements.{gate_numbers, unit_numbers};
ghost use Rattle.tree_picture.specs.PictureText.{ended, gate_line, gate_text, input_text, nodes_text, picture_text};
ghost use Rattle.tree_picture.specs.PictureText.{unit_text};

use crate::lines::{put_gate_line, put_input_line, put_unit_line};
use edge_io::{Out, Sink, WriteFault};
use fault_model::{NodeNo, Tree};
use unit_sets::UnitNo;

/// Puts the picture of a tree, in which these units are marked.
pub fn put_picture<K: Sink>(
    out: &mut Out<K>,
    tree: &Tree,
    marked: &[UnitNo],
) -> Result<(), WriteFault>
    ensures puts { Puts K.taken K.faults out.old out.new (picture_text tree.now marked.now) }
    ensures answer { is_err result ≡ has_failed out.new }
{
    out.put(b"digraph {\n  ordering=out;\n")?;
    put_nodes(out, tree, marked)?;
    out.put(b"}\n")
}

fn put_nodes<K: Sink>(out: &mut Out<K>, tree: &Tree, marked: &[UnitNo]) -> Result<(), WriteFault>
    requires fine { has_failed out.old ≡ false }
    ensures puts { Puts K.taken K.faults out.old out.new (nodes_text tree.now marked.now) }
    ensures answer { is_err result ≡ has_failed out.new }
{
    put_units(out, tree, marked)?;
    put_gates(out, tree)
}

// Puts the units by number.
fn put_units<K: Sink>(out: &mut Out<K>, tree: &Tree, marked: &[UnitNo]) -> Result<(), WriteFault>
    requires fine { has_failed out.old ≡ false }
    ensures puts { Puts K.taken K.faults out.old out.new
        (flat_map (unit_text tree.now marked.now) (unit_numbers tree.now)) }
    ensures answer { is_err result ≡ has_failed out.new }
{
    for i in 0..tree.units() {
        put_unit(out, tree, marked, i + 1)?;
    }
    Ok(())
}

fn put_unit<K: Sink>(
    out: &mut Out<K>,
    tree: &Tree,
    marked: &[UnitNo],
    unit: u32,
) -> Result<(), WriteFault>
    requires { IsUnitOf tree.now unit }
    ensures puts { Puts K.taken K.faults out.old out.new (unit_text tree.now marked.now unit) }
    ensures answer { is_err result ≡ has_failed out.new }
{
    put_unit_line(out, tree, marked, unit)?;
    out.put(b"\n")
}

// Puts the gates by number, each with its inputs.
fn put_gates<K: Sink>(out: &mut Out<K>, tree: &Tree) -> Result<(), WriteFault>
    requires fine { has_failed out.old ≡ false }
    ensures puts { Puts K.taken K.faults out.old out.new
        (flat_map (gate_text tree.now) (gate_numbers tree.now)) }
    ensures answer { is_err result ≡ has_failed out.new }
{
    let units = tree.units();
    for i in 0..tree.gates() {
        put_gate(out, tree, NodeNo(units + 1 + i))?;
    }
    Ok(())
}

// Puts a gate, and then its inputs.
fn put_gate<K: Sink>(out: &mut Out<K>, tree: &Tree, gate: NodeNo) -> Result<(), WriteFault>
    requires { IsGateOf tree.now gate }
    ensures puts { Puts K.taken K.faults out.old out.new (gate_text tree.now gate) }
    ensures answer { is_err result ≡ has_failed out.new }
{
    put_gate_alone(out, tree, gate)?;
    put_inputs(out, tree, gate, tree.inputs(gate))
}

fn put_gate_alone<K: Sink>(out: &mut Out<K>, tree: &Tree, gate: NodeNo) -> Result<(), WriteFault>
    requires { IsGateOf tree.now gate }
    ensures puts { Puts K.taken K.faults out.old out.new (ended (gate_line tree.now gate)) }
    ensures answer { is_err result ≡ has_failed out.new }
{
    put_gate_line(out, tree, gate)?;
    out.put(b"\n")
}

// Puts the inputs of a gate from left to right.
fn put_inputs<K: Sink>(
    out: &mut Out<K>,
    tree: &Tree,
    gate: NodeNo,
    inputs: &[NodeNo],
) -> Result<(), WriteFault>
    requires gate { IsGateOf tree.now gate }
    requires fine { has_failed out.old ≡ false }
    ensures puts { Puts K.taken K.faults out.old out.new (flat_map (input_text tree.now gate) inputs.now) }
    ensures answer { is_err result ≡ has_failed out.new }
{
    for input in inputs {
        put_input(out, tree, gate, *input)?;
    }
    Ok(())
}

fn put_input<K: Sink>(
    out: &mut Out<K>,
    tree: &Tree,
    gate: NodeNo,
    input: NodeNo,
) -> Result<(), WriteFault>
    requires { IsGateOf tree.now gate }
    ensures puts { Puts K.taken K.faults out.old out.new (input_text tree.now gate input) }
    ensures answer { is_err result ≡ has_failed out.new }
{
    put_input_line(out, tree, gate, input)?;
    out.put(b"\n")
}

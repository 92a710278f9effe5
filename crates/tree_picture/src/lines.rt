//! The lines of a picture.
ghost use Rattle.std.specs.Prelude.{◌≡◌, ◌++◌, codes, decimal, false, is_err};
ghost use Rattle.edge_io.specs.Out.{has_failed, Puts};
ghost use Rattle.fault_definitions.specs.Tree.{IsGateOf, IsNodeOf, IsUnitOf, kind_of, name_of};
ghost use Rattle.text_pieces.specs.GateWords.{gate_word};
ghost use Rattle.tree_picture.specs.Labels.{label_text};
ghost use Rattle.tree_picture.specs.PictureText.{gate_label, gate_line, gate_shape, input_line, unit_line};
ghost use Rattle.tree_picture.specs.PictureText.{unit_shape};

use crate::label::put_label_text;
use crate::shape::{gate_shape, input_style, unit_shape};
use edge_io::{Out, Sink, WriteFault};
use fault_model::{NodeNo, Tree};
use itoa::Buffer;
use text_pieces::{put_all, put_gate_word};
use unit_sets::UnitNo;

// Puts the line of a unit.
pub(crate) fn put_unit_line<K: Sink>(
    out: &mut Out<K>,
    tree: &Tree,
    marked: &[UnitNo],
    unit: u32,
) -> Result<(), WriteFault>
    requires { IsUnitOf tree.now unit }
    ensures puts { Puts K.taken K.faults out.old out.new (unit_line tree.now marked.now unit) }
    ensures answer { is_err result ≡ has_failed out.new }
{
    put_label_head(out, NodeNo(unit))?;
    put_name(out, tree, NodeNo(unit))?;
    put_unit_shape(out, marked, unit)
}

// Puts the line of a gate.
pub(crate) fn put_gate_line<K: Sink>(
    out: &mut Out<K>,
    tree: &Tree,
    gate: NodeNo,
) -> Result<(), WriteFault>
    requires { IsGateOf tree.now gate }
    ensures puts { Puts K.taken K.faults out.old out.new (gate_line tree.now gate) }
    ensures answer { is_err result ≡ has_failed out.new }
{
    put_label_head(out, gate)?;
    put_gate_label(out, tree, gate)?;
    put_gate_shape(out, tree, gate)
}

// Puts the line of an input of a gate.
pub(crate) fn put_input_line<K: Sink>(
    out: &mut Out<K>,
    tree: &Tree,
    gate: NodeNo,
    input: NodeNo,
) -> Result<(), WriteFault>
    requires { IsGateOf tree.now gate }
    ensures puts { Puts K.taken K.faults out.old out.new (input_line tree.now gate input) }
    ensures answer { is_err result ≡ has_failed out.new }
{
    let mut gate_digits = Buffer::new();
    let mut input_digits = Buffer::new();
    put_all(
        out,
        &[
            b"  ",
            gate_digits.format(gate.number()).as_bytes(),
            b" -> ",
            input_digits.format(input.number()).as_bytes(),
            input_style(tree.kind(gate)),
            b";",
        ],
    )
}

// Puts the beginning of a node's line, up to what its label shows.
fn put_label_head<K: Sink>(out: &mut Out<K>, node: NodeNo) -> Result<(), WriteFault>
    ensures puts { Puts K.taken K.faults out.old out.new (codes "  " ++ (decimal node ++ codes " [label=\"")) }
    ensures answer { is_err result ≡ has_failed out.new }
{
    let mut digits = Buffer::new();
    put_all(
        out,
        &[
            b"  ",
            digits.format(node.number()).as_bytes(),
            b" [label=\"",
        ],
    )
}

// Puts the end of a unit's line, behind what its label shows.
fn put_unit_shape<K: Sink>(out: &mut Out<K>, marked: &[UnitNo], unit: u32) -> Result<(), WriteFault>
    ensures puts { Puts K.taken K.faults out.old out.new
        (codes "\", shape=" ++ (unit_shape marked.now unit ++ codes "];")) }
    ensures answer { is_err result ≡ has_failed out.new }
{
    put_all(out, &[b"\", shape=", unit_shape(marked, unit), b"];"])
}

// Puts the end of a gate's line, behind what its label shows.
fn put_gate_shape<K: Sink>(out: &mut Out<K>, tree: &Tree, gate: NodeNo) -> Result<(), WriteFault>
    requires { IsGateOf tree.now gate }
    ensures puts { Puts K.taken K.faults out.old out.new
        (codes "\", shape=" ++ (gate_shape (kind_of tree.now gate) ++ codes "];")) }
    ensures answer { is_err result ≡ has_failed out.new }
{
    put_all(out, &[b"\", shape=", gate_shape(tree.kind(gate)), b"];"])
}

fn put_name<K: Sink>(out: &mut Out<K>, tree: &Tree, node: NodeNo) -> Result<(), WriteFault>
    requires node { IsNodeOf tree.now node }
    requires fine { has_failed out.old ≡ false }
    ensures puts { Puts K.taken K.faults out.old out.new (label_text (name_of tree.now node)) }
    ensures answer { is_err result ≡ has_failed out.new }
{
    put_label_text(out, tree.name(node).as_slice())
}

// Puts the name of a gate, and its word below it.
fn put_gate_label<K: Sink>(out: &mut Out<K>, tree: &Tree, gate: NodeNo) -> Result<(), WriteFault>
    requires gate { IsGateOf tree.now gate }
    requires fine { has_failed out.old ≡ false }
    ensures puts { Puts K.taken K.faults out.old out.new (gate_label tree.now gate) }
    ensures answer { is_err result ≡ has_failed out.new }
{
    put_name(out, tree, gate)?;
    out.put(b"\\n")?;
    put_word(out, tree, gate)
}

// Puts the word of a gate.
fn put_word<K: Sink>(out: &mut Out<K>, tree: &Tree, gate: NodeNo) -> Result<(), WriteFault>
    requires { IsGateOf tree.now gate }
    ensures puts { Puts K.taken K.faults out.old out.new (gate_word (kind_of tree.now gate)) }
    ensures answer { is_err result ≡ has_failed out.new }
{
    put_gate_word(out, tree.kind(gate))
}

//! A tree in its own grammar, one statement a line.
ghost use Rattle.std.specs.Prelude.{◌≡◌, ℕ, ◌<◌, ◌+◌, ◌++◌, codes, is_err, length, false, true, All, OnOk};
ghost use Rattle.std.specs.List.{flat_map, list_all, range_with_len};
ghost use Rattle.edge_io.specs.Out.{has_failed, Puts};
ghost use Rattle.fault_words.specs.Name.{is_name};
ghost use Rattle.fault_definitions.specs.Tree.{IsGateOf, IsNodeOf, IsUnitOf, attributes_of, gate_count, inputs_of};
ghost use Rattle.fault_definitions.specs.Tree.{kind_of};
ghost use Rattle.fault_definitions.specs.Tree.{name_of, unit_count};
ghost use Rattle.fault_definitions.specs.WellFormed.{IsTree};
ghost use Rattle.galileo_lexer.specs.Bytes.{is_word_byte};
ghost use Rattle.fault_words.specs.declared.kind.GateKind.TheVariants.{Votes};
ghost use Rattle.deck_reading.specs.Deck.{StandsFor};
ghost use Rattle.deck_reading.specs.TreeStatements.{HasNames};
ghost use Rattle.deck_reading.specs.Written.{attribute_text, quoted, value_text};
ghost use Rattle.text_pieces.specs.GateWords.{gate_word};
ghost use Rattle.board_report.specs.PrintText.{IsNamedUnit, gate_line, input_text, print_text, top_line, unit_line};

use crate::laws::printed_trees_are_read;
use cut_texts::top_name;
use edge_io::{Out, Sink, WriteFault};
use fault_model::{Attribute, GateKind, Name, NodeNo, Tree};
use itoa::Buffer;
use text_pieces::{put_all, put_gate_word};

/// Puts a tree as a text: the top event, then the gates and the units by number. Every name stands in quotes. Where all
/// of it is put
/// it stands for this tree again.
pub fn put_tree<K: Sink>(out: &mut Out<K>, tree: &Tree) -> Result<(), WriteFault>
    ensures puts { Puts K.taken K.faults out.old out.new (print_text tree.now) }
    ensures answer { is_err result ≡ has_failed out.new }
    ensures read { OnOk result (StandsFor (print_text tree.now) tree.now) }
{
    printed_trees_are_read();
    put_top_line(out, tree)?;
    put_gates(out, tree)?;
    put_units(out, tree)
}

fn put_top_line<K: Sink>(out: &mut Out<K>, tree: &Tree) -> Result<(), WriteFault>
    ensures puts { Puts K.taken K.faults out.old out.new (top_line tree.now) }
    ensures answer { is_err result ≡ has_failed out.new }
{
    put_all(out, &[b"toplevel \"", top_name(tree).as_slice(), b"\";\n"])
}

// Puts a name in quotes. Whether a write failed is told at the end of the line.
fn put_quoted<K: Sink>(out: &mut Out<K>, name: &Name) -> Result<(), WriteFault>
    ensures puts { Puts K.taken K.faults out.old out.new (quoted name.now) }
    ensures form { is_name name.now ≡ true }
{
    put_all(out, &[b"\"", name.as_slice(), b"\""])
}

fn node_name(tree: &Tree, node: NodeNo) -> &Name
    requires { IsNodeOf tree.now node }
    ensures { result.now ≡ name_of tree.now node }
{
    tree.name(node)
}

// Puts the gates' statements, each on a line.
fn put_gates<K: Sink>(out: &mut Out<K>, tree: &Tree) -> Result<(), WriteFault>
    requires fine { has_failed out.old ≡ false }
    ensures puts { Puts K.taken K.faults out.old out.new
        (flat_map (gate_line tree.now) (range_with_len (unit_count tree.now + 1) (gate_count tree.now))) }
    ensures answer { is_err result ≡ has_failed out.new }
    ensures named { OnOk result ((gate : ℕ) → IsGateOf tree.now gate → is_name (name_of tree.now gate) ≡ true) }
{
    let units = tree.units();
    for i in 0..tree.gates() {
        put_gate_line(out, tree, NodeNo(units + 1 + i))?;
    }
    Ok(())
}

fn put_gate_line<K: Sink>(out: &mut Out<K>, tree: &Tree, gate: NodeNo) -> Result<(), WriteFault>
    requires { IsGateOf tree.now gate }
    ensures puts { Puts K.taken K.faults out.old out.new (gate_line tree.now gate) }
    ensures answer { is_err result ≡ has_failed out.new }
    ensures named { is_name (name_of tree.now gate) ≡ true }
{
    // A write that failed fails again at the end of the line.
    let _ = put_quoted(out, node_name(tree, gate));
    let _ = out.put(b" ");
    let _ = put_gate_word(out, tree.kind(gate));
    put_inputs(out, tree, tree.inputs(gate));
    out.put(b";\n")
}

// Puts the names of inputs, each behind a blank. Whether a write failed is told at the end of the line.
fn put_inputs<K: Sink>(out: &mut Out<K>, tree: &Tree, inputs: &[NodeNo])
    requires { All (IsNodeOf tree.now) inputs.now }
    ensures { Puts K.taken K.faults out.old out.new (flat_map (input_text tree.now) inputs.now) }
{
    for input in inputs {
        let _ = put_input(out, tree, *input);
    }
}

// In the same way.
fn put_input<K: Sink>(out: &mut Out<K>, tree: &Tree, input: NodeNo) -> Result<(), WriteFault>
    requires { IsNodeOf tree.now input }
    ensures { Puts K.taken K.faults out.old out.new (input_text tree.now input) }
{
    put_all(out, &[b" \"", node_name(tree, input).as_slice(), b"\""])
}

// Puts the units' statements, each on a line.
fn put_units<K: Sink>(out: &mut Out<K>, tree: &Tree) -> Result<(), WriteFault>
    requires fine { has_failed out.old ≡ false }
    ensures puts { Puts K.taken K.faults out.old out.new
        (flat_map (unit_line tree.now) (range_with_len 1 (unit_count tree.now))) }
    ensures answer { is_err result ≡ has_failed out.new }
    ensures named { OnOk result ((unit : ℕ) → IsUnitOf tree.now unit → IsNamedUnit tree.now unit) }
    ensures kept { IsTree tree.now }
{
    for i in 0..tree.units() {
        put_unit_line(out, tree, i + 1)?;
    }
    Ok(())
}

fn put_unit_line<K: Sink>(out: &mut Out<K>, tree: &Tree, unit: u32) -> Result<(), WriteFault>
    requires { IsUnitOf tree.now unit }
    ensures puts { Puts K.taken K.faults out.old out.new (unit_line tree.now unit) }
    ensures answer { is_err result ≡ has_failed out.new }
    ensures named { IsNamedUnit tree.now unit }
{
    // A write that failed fails again at the end of the line.
    let _ = put_quoted(out, node_name(tree, NodeNo(unit)));
    put_attributes(out, attributes_at(tree, unit));
    out.put(b";\n")
}

fn attributes_at(tree: &Tree, unit: u32) -> &[Attribute]
    requires { IsUnitOf tree.now unit }
    ensures { result.now ≡ attributes_of tree.now unit }
{
    // The number of units tells the proof that each can be a `UnitNo`.
    tree.units();
    tree.attributes(NodeNo(unit).unit())
}

// Puts attributes. Whether a write failed is told at the end of the line.
fn put_attributes<K: Sink>(out: &mut Out<K>, attributes: &[Attribute])
    ensures puts { Puts K.taken K.faults out.old out.new (flat_map attribute_text attributes.now) }
    ensures named { All HasNames attributes.now }
{
    for attribute in attributes {
        put_attribute(out, attribute);
    }
}

fn put_attribute<K: Sink>(out: &mut Out<K>, attribute: &Attribute)
    ensures puts { Puts K.taken K.faults out.old out.new (attribute_text attribute.now) }
    ensures named { HasNames attribute.now }
{
    let _ = put_all(out, &[b" ", attribute.word.as_slice(), b"="]);
    let _ = put_value(out, &attribute.value);
}

// Puts a value: in quotes where it has bytes that no word has.
fn put_value<K: Sink>(out: &mut Out<K>, value: &Name) -> Result<(), WriteFault>
    ensures puts { Puts K.taken K.faults out.old out.new (value_text value.now) }
    ensures form { is_name value.now ≡ true }
{
    if has_word_bytes(value.as_slice()) {
        out.put(value.as_slice())
    } else {
        put_quoted(out, value)
    }
}

fn has_word_bytes(bytes: &[u8]) -> bool
    ensures { result ≡ list_all is_word_byte bytes.now }
{
    bytes.iter().all(|byte| is_word_byte(*byte))
}

#[tactic(auto, unfolding(galileo_lexer::specs::Bytes::is_word_byte))]
fn is_word_byte(byte: u8) -> bool
    ensures { result ≡ is_word_byte byte }
{
    byte.is_ascii_alphanumeric() || byte == b'_' || byte == b'-' || byte == b'.' || byte == b'+'
}

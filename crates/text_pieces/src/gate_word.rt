//! The word of a gate.
ghost use Rattle.std.specs.Prelude.{◌≡◌, is_err};
ghost use Rattle.edge_io.specs.Out.{has_failed, Puts};
ghost use Rattle.fault_words.specs.declared.kind.GateKind.TheVariants.{Votes};
ghost use Rattle.text_pieces.specs.GateWords.{gate_word};

use crate::put_all;
use edge_io::{Out, Sink, WriteFault};
use fault_words::GateKind;
use itoa::Buffer;

/// Puts the word of a gate's kind, as decks have it.
pub fn put_gate_word<K: Sink>(out: &mut Out<K>, kind: GateKind) -> Result<(), WriteFault>
    ensures puts { Puts K.taken K.faults out.old out.new (gate_word kind) }
    ensures answer { is_err result ≡ has_failed out.new }
{
    match kind {
        GateKind::And => out.put(b"and"),
        GateKind::Or => out.put(b"or"),
        GateKind::Votes(least, inputs) => put_votes(out, least, inputs),
        GateKind::Pand => out.put(b"pand"),
        GateKind::Por => out.put(b"por"),
        GateKind::Seq => out.put(b"seq"),
        GateKind::Fdep => out.put(b"fdep"),
        GateKind::Csp => out.put(b"csp"),
        GateKind::Wsp => out.put(b"wsp"),
        GateKind::Hsp => out.put(b"hsp"),
    }
}

fn put_votes<K: Sink>(out: &mut Out<K>, least: u32, inputs: u32) -> Result<(), WriteFault>
    ensures puts { Puts K.taken K.faults out.old out.new (gate_word (Votes least inputs)) }
    ensures answer { is_err result ≡ has_failed out.new }
{
    let mut least_digits = Buffer::new();
    let mut input_digits = Buffer::new();
    put_all(
        out,
        &[
            least_digits.format(least).as_bytes(),
            b"of",
            input_digits.format(inputs).as_bytes(),
        ],
    )
}

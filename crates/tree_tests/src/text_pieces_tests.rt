//! The words of gates, as a sink in memory takes them.
use edge_io::{CallList, KeptSink, NoMemory, Out};
use fault_words::GateKind;
use std::alloc::Global;
use std::test::Fail;
use text_pieces::put_gate_word;

// Puts the word of a kind into a sink: whether the sink took it.
fn put_word(alloc: Global, sink: &mut KeptSink, kind: GateKind) -> Result<bool, NoMemory> {
    let mut out = Out::new(alloc, sink)?;
    let _ = put_gate_word(&mut out, kind);
    Ok(out.finish().is_ok())
}

fn has_word(alloc: Global, kind: GateKind, word: &[u8]) -> Result<bool, NoMemory> {
    let mut sink = KeptSink::new(alloc, 8, CallList::new(alloc, &[])?)?;
    let taken = put_word(alloc, &mut sink, kind)?;
    Ok(taken && sink.bytes() == word)
}

#[test]
fn each_kind_has_its_word(rt: HostRuntime) -> Result<(), Fail> {
    assert!(rt; has_word(rt.alloc(), GateKind::And, b"and")?);
    assert!(rt; has_word(rt.alloc(), GateKind::Or, b"or")?);
    assert!(rt; has_word(rt.alloc(), GateKind::Votes(2, 13), b"2of13")?);
    assert!(rt; has_word(rt.alloc(), GateKind::Hsp, b"hsp")?);
    Ok(())
}

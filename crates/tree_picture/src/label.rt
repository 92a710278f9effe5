//! Texts in labels.
ghost use Rattle.std.specs.Prelude.{◌≡◌, false, is_err};
ghost use Rattle.edge_io.specs.Out.{has_failed, Puts};
ghost use Rattle.std.specs.List.{flat_map};
ghost use Rattle.tree_picture.specs.Labels.{label_byte, label_text};

use edge_io::{Out, Sink, WriteFault};

// Puts a text as it stands in a label.
pub(crate) fn put_label_text<K: Sink>(out: &mut Out<K>, text: &[u8]) -> Result<(), WriteFault>
    requires fine { has_failed out.old ≡ false }
    ensures puts { Puts K.taken K.faults out.old out.new (label_text text.now) }
    ensures answer { is_err result ≡ has_failed out.new }
{
    for byte in text {
        put_label_byte(out, *byte)?;
    }
    Ok(())
}

fn put_label_byte<K: Sink>(out: &mut Out<K>, byte: u8) -> Result<(), WriteFault>
    ensures puts { Puts K.taken K.faults out.old out.new (label_byte byte) }
    ensures answer { is_err result ≡ has_failed out.new }
{
    if byte == b'"' {
        out.put(b"\\\"")
    } else if byte == b'\\' {
        out.put(b"\\\\")
    } else if byte == b'&' {
        out.put(b"&amp;")
    } else {
        out.put(&[byte])
    }
}

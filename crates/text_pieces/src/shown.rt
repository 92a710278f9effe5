//! Names as texts show them.
ghost use Rattle.std.specs.Prelude.{◌≡◌, is_err};
ghost use Rattle.edge_io.specs.Out.{has_failed, Puts};
ghost use Rattle.text_pieces.specs.Shown.{named, show};

use crate::put_all;
use edge_io::{Out, Sink, WriteFault};
use fault_words::Name;

/// Puts a name as texts show it: in quotes where it is not bare.
pub fn put_shown<K: Sink>(out: &mut Out<K>, name: &Name) -> Result<(), WriteFault>
    ensures puts { Puts K.taken K.faults out.old out.new (show name.now) }
    ensures answer { is_err result ≡ has_failed out.new }
{
    if name.is_bare() {
        out.put(name.as_slice())
    } else {
        put_all(out, &[b"\"", name.as_slice(), b"\""])
    }
}

/// Puts a name behind a blank.
pub fn put_named<K: Sink>(out: &mut Out<K>, name: &Name) -> Result<(), WriteFault>
    ensures puts { Puts K.taken K.faults out.old out.new (named name.now) }
    ensures answer { is_err result ≡ has_failed out.new }
{
    out.put(b" ")?;
    put_shown(out, name)
}

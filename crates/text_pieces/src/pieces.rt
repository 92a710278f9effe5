//! Pieces one after another.
ghost use Rattle.std.specs.Prelude.{◌≡◌, ◌<◌, is_err, length};
ghost use Rattle.std.specs.List.{flat_map};
ghost use Rattle.edge_io.specs.Out.{has_failed, Puts};

use edge_io::{Out, Sink, WriteFault};

/// Puts pieces one after another, of which there are some.
pub fn put_all<K: Sink>(out: &mut Out<K>, pieces: &[&[u8]]) -> Result<(), WriteFault>
    requires some { 0 < length pieces.now }
    ensures puts { Puts K.taken K.faults out.old out.new (flat_map (λ piece. piece.now) pieces.now) }
    ensures answer { is_err result ≡ has_failed out.new }
{
    for piece in pieces {
        out.put(piece)?;
    }
    Ok(())
}

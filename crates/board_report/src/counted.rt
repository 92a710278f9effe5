//! A number and the words around it.
ghost use Rattle.std.specs.Prelude.{◌≡◌, ◌++◌, decimal, is_err};
ghost use Rattle.edge_io.specs.Out.{has_failed, Puts};

use edge_io::{Out, Sink, WriteFault};
use itoa::Buffer;
use text_pieces::put_all;

// Puts a number between two texts.
pub(crate) fn put_counted<K: Sink>(
    out: &mut Out<K>,
    front: &[u8],
    count: u64,
    back: &[u8],
) -> Result<(), WriteFault>
    ensures puts { Puts K.taken K.faults out.old out.new (front.now ++ (decimal count ++ back.now)) }
    ensures answer { is_err result ≡ has_failed out.new }
{
    put_all(out, &[front, Buffer::new().format(count).as_bytes(), back])
}

//! Writing a picture, or why there is none.
ghost use Rattle.std.specs.Prelude.{◌≡◌, [], is_err};
ghost use Rattle.edge_io.specs.Out.{has_failed, Puts};
ghost use Rattle.picture_engine.specs.Ends.{Notes, Tells};
ghost use Rattle.picture_engine.specs.Finding.{text_of};
ghost use Rattle.picture_engine.specs.Refusals.{refusal_line};

use crate::end::PictureEnd;
use crate::finding::Picture;
use crate::refusal::{Refusal, put_refusal};
use edge_io::{Buffer, Out, Sink, WriteFault};
use tree_picture::put_picture;

// Writes a picture, and tells how the run ends.
pub(crate) fn tell_picture<K: Sink>(sink: &mut K, buffer: Buffer, picture: &Picture) -> PictureEnd
    requires empty { buffer ≡ [] }
    ensures told { Tells K.taken K.faults sink.old sink.new (text_of picture.now) result }
{
    let mut out = Out::over(sink, buffer);
    // A failed output fails again where it is finished.
    let _ = put_marked(&mut out, picture);
    match out.finish() {
        Ok(()) => PictureEnd::Done,
        Err(_) => PictureEnd::WriteFault,
    }
}

#[tactic(auto, unfolding(crate::specs::Finding::text_of))]
fn put_marked<K: Sink>(out: &mut Out<K>, picture: &Picture) -> Result<(), WriteFault>
    ensures puts { Puts K.taken K.faults out.old out.new (text_of picture.now) }
    ensures answer { is_err result ≡ has_failed out.new }
{
    put_picture(out, &picture.tree, picture.marked.as_slice())
}

// Writes the line of a refusal to the notes. Where they fail nobody can be told, and the exit status still says why.
pub(crate) fn tell_refusal<N: Sink>(notes: &mut N, buffer: Buffer, refusal: Refusal)
    requires empty { buffer ≡ [] }
    ensures noted { Notes N.taken N.faults notes.old notes.new (refusal_line refusal) }
{
    let mut out = Out::over(notes, buffer);
    let _ = put_refusal(&mut out, &refusal);
    let _ = out.finish();
}

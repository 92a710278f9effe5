//! A whole run.
ghost use Rattle.std.specs.Prelude.{◌≡◌, ◌≤◌, ◌⊎◌, None};
ghost use Rattle.event_counts.specs.Count.{Rose};
ghost use Rattle.picture_engine.specs.Ends.{Refuses, WritesPicture, WritesPictureFront};
ghost use Rattle.picture_engine.specs.Runs.{Runs};
ghost use Rattle.picture_engine.specs.Words.{asked};
ghost use Rattle.picture_engine.specs.declared.refusal.Refusal.{Refusal};
ghost use Rattle.picture_engine.specs.declared.end.PictureEnd.TheVariants.{Done, NoMemory, Refused, WriteFault};

use crate::end::PictureEnd;
use crate::finding::find_picture;
use crate::refusal::NoPicture;
use crate::telling::{tell_picture, tell_refusal};
use board_words::Word;
use edge_io::{Buffer, Sink, Source};
use std::alloc::Global;
use std::thread::Threads;
use zdd_build::TEAM_SHARE;
use zdd_shared_table::{NodeStore, StoreSeat};

/// Writes the picture that the words ask for of the deck that the source holds. Where there is none the line that says
/// why goes to the notes.
///
/// The store is for the diagrams from which cut sets are listed. What a run leaves in it is not said.
pub fn run<R: Threads + Sync, S: Source, K: Sink, N: Sink>(
    rt: &R,
    alloc: Global,
    words: &[Word],
    source: &mut S,
    sink: &mut K,
    notes: &mut N,
    store: &NodeStore,
    seat: &mut StoreSeat,
) -> PictureEnd
    requires own { seat.old.store ≡ store.now }
    requires share { TEAM_SHARE ≤ seat.old.share }

    // A run that is done wrote exactly the picture, and one whose output failed a front of it.
    ensures picture { WritesPicture words.now (S.held source.old) (S.held source.new) K.taken sink.old sink.new result }
    ensures front { WritesPictureFront words.now (S.held source.old) (S.held source.new) K.taken K.faults sink.old
        sink.new result }

    // A refusal has its cause, its line was noted, and nothing was written. Nothing else is noted.
    ensures refused { (refusal : Refusal) → result ≡ Refused refusal → Refuses words.now (S.held source.old)
        (S.held source.new) (Rose (S.faults source.old) (S.faults source.new)) N.taken N.faults sink.old sink.new
        notes.old notes.new refusal }
    ensures no_memory { result ≡ NoMemory → (sink.new ≡ sink.old) × (notes.new ≡ notes.old) }
    ensures unnoted { (result ≡ Done) ⊎ (result ≡ WriteFault) → notes.new ≡ notes.old }
{
    find_and_tell(rt, alloc, words, source, sink, notes, store, seat)
}

// Finds the picture, and then writes it.
fn find_and_tell<R: Threads + Sync, S: Source, K: Sink, N: Sink>(
    rt: &R,
    alloc: Global,
    words: &[Word],
    source: &mut S,
    sink: &mut K,
    notes: &mut N,
    store: &NodeStore,
    seat: &mut StoreSeat,
) -> PictureEnd
    requires own { seat.old.store ≡ store.now }
    requires share { TEAM_SHARE ≤ seat.old.share }
    ensures runs { Runs words.now (S.held source.old) (S.held source.new)
        (Rose (S.faults source.old) (S.faults source.new)) K.taken K.faults N.taken N.faults sink.old sink.new notes.old
        notes.new result }
{
    let Ok(buffer) = Buffer::new(alloc) else {
        return PictureEnd::NoMemory;
    };
    match find_picture(rt, alloc, words, source, store, seat) {
        Ok(picture) => tell_picture(sink, buffer, &picture),
        Err(NoPicture::Refused(refusal)) => {
            tell_refusal(notes, buffer, refusal);
            PictureEnd::Refused(refusal)
        }
        Err(NoPicture::NoMemory) => PictureEnd::NoMemory,
    }
}

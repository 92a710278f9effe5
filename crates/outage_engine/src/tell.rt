//! Writing an answer.
ghost use Rattle.std.specs.Prelude.{◌≡◌, ℕ, List, ◌++◌, [], false, is_err};
ghost use Rattle.edge_io.specs.Out.{has_failed, sink_of, waiting, Output, Puts};
ghost use Rattle.board_report.specs.BoardText.{IsDeckOf, board_text};
ghost use Rattle.board_report.specs.CheckText.{check_text};
ghost use Rattle.outage_engine.specs.Answers.{HasOrders, IsOfUnits, IsWritable, listing_text, refusal_line};
ghost use Rattle.outage_engine.specs.Answers.{refusal_status, status_of, summed_text, text_of};
ghost use Rattle.outage_engine.specs.Runs.{Tells};
ghost use Rattle.outage_engine.specs.Store.{method_by};

use crate::Status;
use crate::answer::Answer;
use crate::listing::Listing;
use crate::refusal::Refusal;
use crate::summary::Summary;
use board_report::{
    Notice, put_board, put_check, put_cuts, put_fault, put_notice, put_sizes, put_summary, put_tree,
};
use deck_reading::DeckParts;
use edge_io::{Buffer, Out, Sink, WriteFault};
use outage_board::BoardState;

/// Writes the text of an answer, and tells how the run ends.
pub(crate) fn tell<K: Sink>(sink: &mut K, buffer: Buffer, answer: Answer) -> Status
    requires empty { buffer ≡ [] }
    requires writable { IsWritable answer }
    ensures told { Tells K.taken K.faults sink.old sink.new (status_of answer) (text_of answer) result }
{
    let mut out = Out::over(sink, buffer);
    let status = answer.status();
    // A failed output fails again where it is finished.
    let _ = put_answer(&mut out, &answer);
    drop(answer);
    finish(out, status)
}

// Finishes an output that was new before a text was put, and tells how the run ends: so, unless the sink failed.
fn finish<K: Sink>(out: Out<K>, status: Status) -> Status
    ensures told { (new : Output K) (text : List ℕ) → waiting new ≡ [] → has_failed new ≡ false
        → Puts K.taken K.faults new out.entry text
        → Tells K.taken K.faults (sink_of new) out.exit.0.now status text result }
{
    match out.finish() {
        Ok(()) => status,
        Err(_) => Status::WriteFault,
    }
}

/// Writes the line of a refusal, and tells how the run ends.
pub(crate) fn tell_refusal<K: Sink>(sink: &mut K, buffer: Buffer, refusal: Refusal) -> Status
    requires empty { buffer ≡ [] }
    ensures told { Tells K.taken K.faults sink.old sink.new (refusal_status refusal) (refusal_line refusal) result }
{
    tell(sink, buffer, Answer::Refused(refusal))
}

fn put_answer<K: Sink>(out: &mut Out<K>, answer: &Answer) -> Result<(), WriteFault>
    requires { IsWritable answer.now }
    ensures puts { Puts K.taken K.faults out.old out.new (text_of answer.now) }
    ensures answer { is_err result ≡ has_failed out.new }
{
    match answer {
        Answer::Cuts(listing) => put_listing(out, listing),
        Answer::Diagram(sizes) => {
            let counts = &sizes.counts;
            put_sizes(out, &sizes.tree, counts.cuts, counts.members, counts.nodes)
        }
        Answer::Checked(deck) => put_deck(out, deck),
        Answer::Printed(tree) => put_tree(out, tree),
        Answer::Made(deck) => out.put(deck.as_slice()),
        Answer::Summed(summary) => put_summed(out, summary),
        Answer::Help => put_notice(out, Notice::Usage),
        Answer::Refused(refusal) => put_refusal(out, refusal),
    }
}

fn put_refusal<K: Sink>(out: &mut Out<K>, refusal: &Refusal) -> Result<(), WriteFault>
    ensures puts { Puts K.taken K.faults out.old out.new (refusal_line refusal.now) }
    ensures answer { is_err result ≡ has_failed out.new }
{
    match refusal {
        Refusal::Usage => put_notice(out, Notice::Usage),
        Refusal::ReadFault => put_notice(out, Notice::ReadFault),
        Refusal::TooLong => put_notice(out, Notice::TooLong),
        Refusal::Fault(fault) => put_fault(out, fault),
        Refusal::ListLimit => put_notice(out, Notice::ListLimit),
        Refusal::OrderLimit => put_notice(out, Notice::OrderLimit),
    }
}

fn put_deck<K: Sink>(out: &mut Out<K>, deck: &DeckParts) -> Result<(), WriteFault>
    ensures puts { Puts K.taken K.faults out.old out.new (check_text deck.now.tree deck.now.crews) }
    ensures answer { is_err result ≡ has_failed out.new }
{
    put_check(out, &deck.tree, deck.crews.as_ref())
}

fn put_listing<K: Sink>(out: &mut Out<K>, listing: &Listing) -> Result<(), WriteFault>
    requires { IsOfUnits listing.now }
    ensures puts { Puts K.taken K.faults out.old out.new (listing_text listing.now) }
    ensures answer { is_err result ≡ has_failed out.new }
{
    put_cuts(
        out,
        &listing.tree,
        &listing.texts,
        &listing.cuts,
        &listing.orders,
    )
}

fn put_summed<K: Sink>(out: &mut Out<K>, summary: &Summary) -> Result<(), WriteFault>
    requires { HasOrders summary.now }
    ensures puts { Puts K.taken K.faults out.old out.new (summed_text summary.now) }
    ensures answer { is_err result ≡ has_failed out.new }
{
    let listing = &summary.listing;
    put_summary(
        out,
        summary.number,
        &listing.tree,
        &listing.orders,
        &summary.board,
    )
}

/// Writes the cut sets and the board at its end, and tells how the run ends.
pub(crate) fn tell_board<K: Sink>(
    sink: &mut K,
    buffer: Buffer,
    listing: &Listing,
    state: &BoardState,
) -> Status
    requires empty { buffer ≡ [] }
    requires units { IsOfUnits listing.now }
    requires deck { IsDeckOf listing.now.tree state.now.deck }
    ensures told { Tells K.taken K.faults sink.old sink.new (Status.Done (method_by listing.now.root))
        (listing_text listing.now ++ board_text listing.now.tree state.now) result }
{
    let mut out = Out::over(sink, buffer);
    // A failed output fails again where it is finished.
    let _ = put_listing_and_board(&mut out, listing, state);
    finish(out, Status::Done(listing.method()))
}

fn put_listing_and_board<K: Sink>(
    out: &mut Out<K>,
    listing: &Listing,
    state: &BoardState,
) -> Result<(), WriteFault>
    requires units { IsOfUnits listing.now }
    requires deck { IsDeckOf listing.now.tree state.now.deck }
    ensures puts { Puts K.taken K.faults out.old out.new
        (listing_text listing.now ++ board_text listing.now.tree state.now) }
    ensures answer { is_err result ≡ has_failed out.new }
{
    put_listing(out, listing)?;
    put_board(out, state, &listing.tree)
}

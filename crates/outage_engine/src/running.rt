//! The run of the program.
ghost use Rattle.std.specs.Prelude.{◌≡◌, ◌⊎◌, ◌≤◌, true, false, []};
ghost use Rattle.event_counts.specs.Count.{Rose};
ghost use Rattle.board_report.specs.BoardText.{IsDeckOf};
ghost use Rattle.outage_engine.specs.Answers.{IsOfUnits};
ghost use Rattle.outage_engine.specs.Openings.{HasPasses, HasRun, TellsBoard};
ghost use Rattle.outage_engine.specs.Gives.{AreReading};
ghost use Rattle.outage_engine.specs.Means.{IsSeatFor};
ghost use Rattle.outage_engine.specs.Runs.{IsBoard, IsNoBoard};
ghost use Rattle.outage_engine.specs.Runs.{IsOfCommand, PrintsBoard, PrintsCheck, PrintsCuts, PrintsDiagram};
ghost use Rattle.outage_engine.specs.Runs.{PrintsHelp, PrintsMade, PrintsSummary};
ghost use Rattle.outage_engine.specs.Runs.{PrintsSafely, PrintsTree};
ghost use Rattle.outage_engine.specs.Runs.{FailsToRead, RefusesDeck, RefusesLength, RefusesOrders, RefusesWeight};
ghost use Rattle.outage_engine.specs.Runs.{RefusesWords};
ghost use Rattle.outage_engine.specs.Runs.{AnswersDeck, AnswersLength, AnswersWords, WritesFrontOfText};
ghost use Rattle.outage_engine.specs.Store.{method_by};
ghost use Rattle.outage_engine.specs.StoreAfter.{FindsFull, GoesForDeck, LeavesDiagram};
ghost use Rattle.outage_engine.specs.declared.status.Status.TheVariants.{Done};

use crate::answer::answer_command;
use crate::listing::Listing;
use crate::means::Means;
use crate::opening::{asked_by, open_input};
use crate::refusal::{Refusal, RunEnd};
use crate::tell::{tell, tell_board, tell_refusal};
use crate::{Status, Word};
use board_words::{Command, numbers_are_within_bounds, read};
use crew_workers::serve_all;
use edge_io::{Buffer, Free, Sink, Source};
use outage_board::BoardStart;
use std::alloc::Global;
use std::sync::Wait;
use std::thread::Threads;
use zdd_build::TEAM_SHARE;
use zdd_shared_table::{NodeStore, StoreSeat};

/// Does all that the program does: the words after its name say what, the source is its input, and the sink its output.
///
/// `cuts` prints the minimal cut sets of the deck, and the orders in which the units of each fail the top event, for
/// the sets of at most as many members as `--most` says. `board` prints the same, and then one log of the requests of
/// all crews, decided one after the other at the margin, and the board at the end. `diagram` prints how large the cut
/// list and its diagram are, `check` how large a well-formed deck is, and `print` its tree. `make` reads nothing: it
/// prints the made deck of a number, or sums up what is found in it and what comes of its requests. The diagrams are
/// made in the store, through the seat. Waits where crews wait for their turn.
pub fn run<R: Threads + Wait + Sync, S: Source, K: Sink>(
    rt: &R,
    alloc: Global,
    words: &[Word],
    source: &mut S,
    sink: &mut K,
    store: &NodeStore,
    seat: &mut StoreSeat,
) -> Status
    requires own { seat.old.store ≡ store.now }
    requires share { TEAM_SHARE ≤ seat.old.share }

    // What was written, for which input, where the run ends well.
    ensures command { IsOfCommand words.now result }
    ensures cuts { PrintsCuts words.now (S.held source.old) (S.held source.new) K.taken sink.old sink.new result }
    ensures board { PrintsBoard words.now (S.held source.old) (S.held source.new) K.taken sink.old sink.new result }
    ensures safe { PrintsSafely words.now (S.held source.old) (S.held source.new) K.taken sink.old sink.new result }
    ensures check { PrintsCheck words.now (S.held source.old) (S.held source.new) K.taken sink.old sink.new result }
    ensures print { PrintsTree words.now (S.held source.old) (S.held source.new) K.taken sink.old sink.new result }
    ensures diagram { PrintsDiagram words.now (S.held source.old) (S.held source.new) K.taken sink.old sink.new result }
    ensures make { PrintsMade words.now K.taken sink.old sink.new result }
    ensures summary { PrintsSummary words.now K.taken sink.old sink.new result }
    ensures help { PrintsHelp words.now K.taken sink.old sink.new result }

    // Each refusal has its cause, and its line was written.
    ensures usage { RefusesWords words.now K.taken sink.old sink.new result }
    ensures refused { RefusesDeck words.now (S.held source.old) (S.held source.new) K.taken sink.old sink.new result }
    ensures list_limit { RefusesWeight words.now (S.held source.old) (S.held source.new) K.taken sink.old sink.new
        result }
    ensures order_limit { RefusesOrders words.now (S.held source.old) (S.held source.new) K.taken sink.old sink.new
        result }
    ensures too_long { RefusesLength words.now (S.held source.old) (S.held source.new) K.taken sink.old sink.new
        result }
    ensures read_fault { FailsToRead words.now (Rose (S.faults source.old) (S.faults source.new)) K.taken sink.old
        sink.new result }

    // Only a command that wants a deck reads the input.
    ensures unread { AreReading words.now ⊎ (source.new ≡ source.old) }

    // A failed sink took a front of the text of the status that came. Want of memory comes before the first byte.
    ensures write_fault { result ≡ Status.WriteFault → Rose (K.faults sink.old) (K.faults sink.new) }
    ensures front { WritesFrontOfText words.now (S.held source.old) (S.held source.new)
        (Rose (S.faults source.old) (S.faults source.new))
        K.taken K.faults sink.old sink.new result }
    ensures no_memory { result ≡ Status.NoMemory → sink.new ≡ sink.old }

    // The other way round: what these words and this input are due comes, as long as nothing fails and memory is found.
    ensures due_words { AnswersWords words.now result }
    ensures due_length { AnswersLength words.now (S.held source.old) result }
    ensures due { AnswersDeck words.now (S.held source.old) result }

    // A run that ends by the diagram leaves a seat that knows it. One ends by lists only where a search of its own
    // found the store full. Whatever the status is, all that was filled and missed is due to the deck's tree.
    ensures known { LeavesDiagram words.now (S.held source.old) (S.held source.new) seat.new result }
    ensures full { FindsFull seat.old seat.new result }
    ensures went { GoesForDeck words.now (S.held source.old) (S.held source.new) seat.old seat.new }
    ensures share { seat.new.share ≡ seat.old.share }
{
    if is_board(words) {
        run_board(rt, alloc, words, source, sink, store, seat)
    } else {
        run_cuts(rt, alloc, words, source, sink, store, seat)
    }
}

// Whether the words are a command `board`.
fn is_board(words: &[Word]) -> bool
    ensures yes { result ≡ true → IsBoard words.now }
    ensures no { result ≡ false → IsNoBoard words.now }
{
    matches!(read(words), Some(Command::Board { .. }))
}

/// Does what [`run`] does for words that are no command `board`. Waits for nothing.
pub fn run_cuts<R: Threads + Sync, S: Source, K: Sink>(
    rt: &R,
    alloc: Global,
    words: &[Word],
    source: &mut S,
    sink: &mut K,
    store: &NodeStore,
    seat: &mut StoreSeat,
) -> Status
    requires command { IsNoBoard words.now }
    requires own { seat.old.store ≡ store.now }
    requires share { TEAM_SHARE ≤ seat.old.share }

    // What was written, for which input, where the run ends well.
    ensures command { IsOfCommand words.now result }
    ensures cuts { PrintsCuts words.now (S.held source.old) (S.held source.new) K.taken sink.old sink.new result }
    ensures check { PrintsCheck words.now (S.held source.old) (S.held source.new) K.taken sink.old sink.new result }
    ensures print { PrintsTree words.now (S.held source.old) (S.held source.new) K.taken sink.old sink.new result }
    ensures diagram { PrintsDiagram words.now (S.held source.old) (S.held source.new) K.taken sink.old sink.new result }
    ensures make { PrintsMade words.now K.taken sink.old sink.new result }
    ensures summary { PrintsSummary words.now K.taken sink.old sink.new result }
    ensures help { PrintsHelp words.now K.taken sink.old sink.new result }

    // Each refusal has its cause, and its line was written.
    ensures usage { RefusesWords words.now K.taken sink.old sink.new result }
    ensures refused { RefusesDeck words.now (S.held source.old) (S.held source.new) K.taken sink.old sink.new result }
    ensures list_limit { RefusesWeight words.now (S.held source.old) (S.held source.new) K.taken sink.old sink.new
        result }
    ensures order_limit { RefusesOrders words.now (S.held source.old) (S.held source.new) K.taken sink.old sink.new
        result }
    ensures too_long { RefusesLength words.now (S.held source.old) (S.held source.new) K.taken sink.old sink.new
        result }
    ensures read_fault { FailsToRead words.now (Rose (S.faults source.old) (S.faults source.new)) K.taken sink.old
        sink.new result }

    // Only a command that wants a deck reads the input.
    ensures unread { AreReading words.now ⊎ (source.new ≡ source.old) }

    // A failed sink took a front of the text of the status that came. Want of memory comes before the first byte.
    ensures write_fault { result ≡ Status.WriteFault → Rose (K.faults sink.old) (K.faults sink.new) }
    ensures front { WritesFrontOfText words.now (S.held source.old) (S.held source.new)
        (Rose (S.faults source.old) (S.faults source.new))
        K.taken K.faults sink.old sink.new result }
    ensures no_memory { result ≡ Status.NoMemory → sink.new ≡ sink.old }

    // The other way round: what these words and this input are due comes, as long as nothing fails and memory is found.
    ensures due_words { AnswersWords words.now result }
    ensures due_length { AnswersLength words.now (S.held source.old) result }
    ensures due { AnswersDeck words.now (S.held source.old) result }

    // A run that ends by the diagram leaves a seat that knows it. One ends by lists only where a search of its own
    // found the store full. Whatever the status is, all that was filled and missed is due to the deck's tree.
    ensures known { LeavesDiagram words.now (S.held source.old) (S.held source.new) seat.new result }
    ensures full { FindsFull seat.old seat.new result }
    ensures went { GoesForDeck words.now (S.held source.old) (S.held source.new) seat.old seat.new }
    ensures share { seat.new.share ≡ seat.old.share }
{
    answer_and_tell(&Means { rt, alloc, store }, words, source, sink, seat)
}

// Finds the answer, and then writes it.
fn answer_and_tell<R: Threads + Sync, S: Source, K: Sink>(
    means: &Means<R>,
    words: &[Word],
    source: &mut S,
    sink: &mut K,
    seat: &mut StoreSeat,
) -> Status
    requires command { IsNoBoard words.now }
    requires seat { IsSeatFor means.now.store.now seat.old }
    ensures run { HasRun words.now (S.held source.old) (S.held source.new)
        (Rose (S.faults source.old) (S.faults source.new)) K.taken K.faults sink.old sink.new seat.old seat.new result }
    ensures unread { AreReading words.now ⊎ (source.new ≡ source.old) }
{
    let Ok(buffer) = Buffer::new(means.alloc) else {
        return Status::NoMemory;
    };
    numbers_are_within_bounds();
    let Some(command) = read(words) else {
        return tell_refusal(sink, buffer, Refusal::Usage);
    };
    match answer_command(means, command, source, seat) {
        Ok(answer) => tell(sink, buffer, answer),
        Err(RunEnd::Refused(refusal)) => tell_refusal(sink, buffer, refusal),
        Err(RunEnd::NoMemory) => Status::NoMemory,
    }
}

/// Does what [`run`] does for a command `board`. The board is open, and all memory found, before the first request is
/// served and before the first byte is written.
pub fn run_board<R: Threads + Wait + Sync, S: Source, K: Sink>(
    rt: &R,
    alloc: Global,
    words: &[Word],
    source: &mut S,
    sink: &mut K,
    store: &NodeStore,
    seat: &mut StoreSeat,
) -> Status
    requires command { IsBoard words.now }
    requires own { seat.old.store ≡ store.now }
    requires share { TEAM_SHARE ≤ seat.old.share }

    // What was written, for which input, where the run ends well.
    ensures command { IsOfCommand words.now result }
    ensures board { PrintsBoard words.now (S.held source.old) (S.held source.new) K.taken sink.old sink.new result }
    ensures safe { PrintsSafely words.now (S.held source.old) (S.held source.new) K.taken sink.old sink.new result }

    // Each refusal has its cause, and its line was written.
    ensures usage { RefusesWords words.now K.taken sink.old sink.new result }
    ensures refused { RefusesDeck words.now (S.held source.old) (S.held source.new) K.taken sink.old sink.new result }
    ensures list_limit { RefusesWeight words.now (S.held source.old) (S.held source.new) K.taken sink.old sink.new
        result }
    ensures order_limit { RefusesOrders words.now (S.held source.old) (S.held source.new) K.taken sink.old sink.new
        result }
    ensures too_long { RefusesLength words.now (S.held source.old) (S.held source.new) K.taken sink.old sink.new
        result }
    ensures read_fault { FailsToRead words.now (Rose (S.faults source.old) (S.faults source.new)) K.taken sink.old
        sink.new result }

    // Only a command that wants a deck reads the input.
    ensures unread { AreReading words.now ⊎ (source.new ≡ source.old) }

    // A failed sink took a front of the text of the status that came. Want of memory comes before the first byte.
    ensures write_fault { result ≡ Status.WriteFault → Rose (K.faults sink.old) (K.faults sink.new) }
    ensures front { WritesFrontOfText words.now (S.held source.old) (S.held source.new)
        (Rose (S.faults source.old) (S.faults source.new))
        K.taken K.faults sink.old sink.new result }
    ensures no_memory { result ≡ Status.NoMemory → sink.new ≡ sink.old }

    // The other way round: what these words and this input are due comes, as long as nothing fails and memory is found.
    ensures due_words { AnswersWords words.now result }
    ensures due_length { AnswersLength words.now (S.held source.old) result }
    ensures due { AnswersDeck words.now (S.held source.old) result }

    // A run that ends by the diagram leaves a seat that knows it. One ends by lists only where a search of its own
    // found the store full. Whatever the status is, all that was filled and missed is due to the deck's tree.
    ensures known { LeavesDiagram words.now (S.held source.old) (S.held source.new) seat.new result }
    ensures full { FindsFull seat.old seat.new result }
    ensures went { GoesForDeck words.now (S.held source.old) (S.held source.new) seat.old seat.new }
    ensures share { seat.new.share ≡ seat.old.share }
{
    serve_and_tell(&Means { rt, alloc, store }, words, source, sink, seat)
}

// Opens the board, serves the crews, and then writes what came of it.
fn serve_and_tell<R: Threads + Wait + Sync, S: Source, K: Sink>(
    means: &Means<R>,
    words: &[Word],
    source: &mut S,
    sink: &mut K,
    seat: &mut StoreSeat,
) -> Status
    requires command { IsBoard words.now }
    requires seat { IsSeatFor means.now.store.now seat.old }
    ensures run { HasRun words.now (S.held source.old) (S.held source.new)
        (Rose (S.faults source.old) (S.faults source.new)) K.taken K.faults sink.old sink.new seat.old seat.new result }
{
    let Ok(buffer) = Buffer::new(means.alloc) else {
        return Status::NoMemory;
    };
    match open_input(means, asked_by(words), source, seat) {
        Ok(opened) => serve(means.rt, opened.listing, opened.start, buffer, sink),
        Err(RunEnd::Refused(refusal)) => tell_refusal(sink, buffer, refusal),
        Err(RunEnd::NoMemory) => Status::NoMemory,
    }
}

// Serves all crews, writes what came of it, and lets the listing go.
fn serve<R: Threads + Wait + Sync, K: Sink>(
    rt: &R,
    listing: Listing,
    start: BoardStart,
    buffer: Buffer,
    sink: &mut K,
) -> Status
    requires empty { buffer ≡ [] }
    requires units { IsOfUnits listing }
    requires passes { HasPasses start }
    requires deck { IsDeckOf listing.tree start.board.deck }
    ensures told { TellsBoard listing start K.taken K.faults sink.old sink.new result }
{
    let status = serve_crews(rt, &listing, start, buffer, sink);
    drop(listing);
    status
}

// Serves all crews, and writes what came of it.
fn serve_crews<R: Threads + Wait + Sync, K: Sink>(
    rt: &R,
    listing: &Listing,
    start: BoardStart,
    buffer: Buffer,
    sink: &mut K,
) -> Status
    requires empty { buffer ≡ [] }
    requires units { IsOfUnits listing.now }
    requires passes { HasPasses start }
    requires deck { IsDeckOf listing.now.tree start.board.deck }
    ensures told { TellsBoard listing.now start K.taken K.faults sink.old sink.new result }
{
    let state = serve_all(rt, start, &Free);
    // It keeps what every board keeps, as its history tells.
    let _history = state.entries();
    let status = tell_board(sink, buffer, listing, &state);
    drop(state);
    status
}

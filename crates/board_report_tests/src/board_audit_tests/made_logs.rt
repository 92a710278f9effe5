//! The log that is printed for a made deck.
ghost use Rattle.board_report.specs.BoardText.{IsDeckOf};

use board_audit::{Verdict, audit};
use board_report::put_board;
use crew_script::{CrewsAt, Dockets, LONGEST_DECK, split_deck};
use edge_io::{CallList, KeptSink, NoMemory, Out};
use fault_model::Tree;
use outage_board::BoardState;
use std::alloc::Global;
use std::test::Fail;
use tree_maker::made;
use unit_sets::CrewNo;
use worked_trees::{cuts_of, dockets_of, tree_of};

// More room than the text of the board takes.
const AMPLE: usize = 100_000;

// Serves the first crew, so many times.
fn serve_first(board: &mut BoardState, tree: &Tree, count: u32) -> Result<(), Fail>
    requires { IsDeckOf tree.now board.old.deck }
    ensures { IsDeckOf tree.now board.new.deck }
{
    for _turn in 0..count {
        if board.crews() == 0 || board.serve(CrewNo(0)).is_none() {
            return Err("no such request".into());
        }
    }
    Ok(())
}

// Puts what a board shows into a sink.
fn put_text(
    alloc: Global,
    sink: &mut KeptSink,
    board: &BoardState,
    tree: &Tree,
) -> Result<(), NoMemory>
    requires { IsDeckOf tree.now board.now.deck }
{
    let mut out = Out::new(alloc, sink)?;
    let _ = put_board(&mut out, board, tree);
    let _ = out.finish();
    Ok(())
}

fn put_served(
    alloc: Global,
    sink: &mut KeptSink,
    board: &mut BoardState,
    tree: &Tree,
) -> Result<(), Fail>
    requires { IsDeckOf tree.now board.old.deck }
{
    let count = board.dockets().total();
    serve_first(board, tree, count)?;
    put_text(alloc, sink, board, tree)?;
    Ok(())
}

// Puts what a board of one crew shows at the margin 1 once all requests are decided.
fn put_day(alloc: Global, sink: &mut KeptSink, tree: &Tree, crews: &Dockets) -> Result<(), Fail> {
    let cuts = cuts_of(alloc, tree)?;
    let mut board = BoardState::open(alloc, tree, &cuts, crews, 1)?;
    let put = put_served(alloc, sink, &mut board, tree);
    drop(board);
    put
}

// The log in the text of a board.
fn log_of(text: &str) -> &str {
    let (front, _) = text.split_once("out: ").unwrap_or(("", text));
    let (_, log) = front.split_once('\n').unwrap_or(("", front));
    log
}

// Whether the log in the text of a board has 700 entries and is due.
fn is_due(alloc: Global, tree: &Tree, crews: &Dockets, text: &[u8]) -> Result<bool, Fail> {
    let Ok(text) = str::from_utf8(text) else {
        return Ok(false);
    };
    let log = log_of(text);
    let cuts = cuts_of(alloc, tree)?;
    let verdict = audit(alloc, tree, &cuts, crews, 1, log.as_bytes());
    drop(cuts);
    Ok(log.starts_with("log: 700\n") && matches!(verdict?, Verdict::Yes))
}

fn is_due_in(
    alloc: Global,
    sink: &mut KeptSink,
    tree: &Tree,
    crews: &Dockets,
) -> Result<bool, Fail> {
    put_day(alloc, sink, tree, crews)?;
    is_due(alloc, tree, crews, sink.bytes())
}

fn sink_of(alloc: Global) -> Result<KeptSink, NoMemory> {
    KeptSink::new(alloc, AMPLE, CallList::new(alloc, &[])?)
}

fn is_due_of_crews(alloc: Global, tree: &Tree, crews: &Dockets) -> Result<bool, Fail> {
    let mut sink = sink_of(alloc)?;
    let due = is_due_in(alloc, &mut sink, tree, crews);
    drop(sink);
    due
}

fn is_due_of_tree(alloc: Global, tree: &Tree, crews: &[u8]) -> Result<bool, Fail> {
    let crews = dockets_of(alloc, crews)?;
    let due = is_due_of_crews(alloc, tree, &crews);
    drop(crews);
    due
}

// Whether the log that is printed for a deck is due.
fn is_due_of_deck(alloc: Global, text: &[u8]) -> Result<bool, Fail> {
    if text.len() > LONGEST_DECK {
        return Ok(false);
    }
    let split = split_deck(text);
    let Some(CrewsAt { start, .. }) = split.crews else {
        return Ok(false);
    };
    if split.tree > text.len() || start > text.len() {
        return Ok(false);
    }
    let tree = tree_of(alloc, &text[..split.tree])?;
    let due = is_due_of_tree(alloc, &tree, &text[start..]);
    drop(tree);
    due
}

fn is_due_of_made(alloc: Global) -> Result<bool, Fail> {
    let deck = made(alloc, 0)?;
    let due = is_due_of_deck(alloc, deck.as_slice());
    drop(deck);
    due
}

#[test]
fn the_log_of_a_made_deck_is_due(rt: HostRuntime) -> Result<(), Fail> {
    assert!(rt; is_due_of_made(rt.alloc())?);
    Ok(())
}

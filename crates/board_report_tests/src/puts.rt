//! What an order puts: a line of words, and the deck behind it, if they want one.
ghost use Rattle.std.specs.Prelude.{All};
ghost use Rattle.fault_definitions.specs.Tree.{IsUnitOf};
ghost use Rattle.board_report.specs.BoardText.{IsDeckOf};

use board_report::{
    DeckFault, FaultCode, Notice, UnitTexts, put_board, put_check, put_cuts, put_diagram,
    put_fault, put_notice, put_tree,
};
use crew_script::Dockets;
use cut_sequences::orders;
use edge_io::{Out, Sink};
use fault_model::{Place, Tree};
use galileo_lexer::LexCode;
use galileo_tree::What;
use outage_board::BoardState;
use std::alloc::Global;
use std::test::Fail;
use std::thread::Threads;
use tree_check::CheckCode;
use unit_sets::{CrewNo, CutList};
use worked_trees::{cuts_of, dockets_of, tree_of};

/// Puts what an order names. How the sink ends tells whether it took all of it.
pub(crate) fn put_ordered<R: Threads + Sync, K: Sink>(
    rt: &R,
    alloc: Global,
    out: &mut Out<K>,
    order: &str,
) -> Result<(), Fail> {
    let (words, deck) = order.split_once('\n').unwrap_or((order, ""));
    if let Some(name) = words.strip_prefix("fault ") {
        let code = code_named(name)?;
        let place = Place {
            line: 16_385,
            column: 7,
        };
        let _ = put_fault(out, &DeckFault { code, place });
        return Ok(());
    }
    if let Some(name) = words.strip_prefix("notice ") {
        let _ = put_notice(out, notice_named(name)?);
        return Ok(());
    }
    let (text, crews) = deck.split_once("\n@crews\n").unwrap_or((deck, ""));
    let tree = tree_of(alloc, text.as_bytes())?;
    put_of_tree(rt, alloc, out, words, &tree, crews)
}

fn code_named(name: &str) -> Result<FaultCode, Fail> {
    Ok(match name {
        "BadByte" => FaultCode::Lex(LexCode::BadByte),
        "OpenQuote" => FaultCode::Lex(LexCode::OpenQuote),
        "NameTooLong" => FaultCode::Lex(LexCode::NameTooLong),
        "Semicolon" => FaultCode::Expected(What::Semicolon),
        "GateOrAttribute" => FaultCode::Expected(What::GateOrAttribute),
        "NoToplevel" => FaultCode::Check(CheckCode::NoToplevel),
        "DummyInput" => FaultCode::Check(CheckCode::DummyInput),
        "SpareNotBasic" => FaultCode::Check(CheckCode::SpareNotBasic),
        "TooManyGates" => FaultCode::Check(CheckCode::TooManyGates),
        _ => return Err("no such fault".into()),
    })
}

fn notice_named(name: &str) -> Result<Notice, Fail> {
    Ok(match name {
        "Usage" => Notice::Usage,
        "ReadFault" => Notice::ReadFault,
        "TooLong" => Notice::TooLong,
        "ListLimit" => Notice::ListLimit,
        "OrderLimit" => Notice::OrderLimit,
        _ => return Err("no such notice".into()),
    })
}

fn put_of_tree<R: Threads + Sync, K: Sink>(
    rt: &R,
    alloc: Global,
    out: &mut Out<K>,
    words: &str,
    tree: &Tree,
    crews: &str,
) -> Result<(), Fail> {
    let (word, rest) = words.split_once(' ').unwrap_or((words, ""));
    match word {
        "print" => {
            let _ = put_tree(out, tree);
            Ok(())
        }
        "check" => put_sound(alloc, out, tree, crews),
        "diagram" => put_sizes(alloc, out, tree, rest),
        "cuts" => put_own_cuts(rt, alloc, out, tree, rest),
        "none" => put_cut_sets(rt, alloc, out, tree, &CutList::new(alloc), rest),
        "board" => put_day(alloc, out, tree, crews, rest),
        _ => Err("no such words".into()),
    }
}

// That a deck is well formed, with its crews where it has a crew part.
fn put_sound<K: Sink>(
    alloc: Global,
    out: &mut Out<K>,
    tree: &Tree,
    crews: &str,
) -> Result<(), Fail> {
    if crews.is_empty() {
        let _ = put_check(out, tree, None);
        return Ok(());
    }
    let dockets = dockets_of(alloc, crews.as_bytes())?;
    let _ = put_check(out, tree, Some(&dockets));
    Ok(())
}

// The sizes of a diagram of so many nodes, or of none where no number is told.
fn put_sizes<K: Sink>(
    alloc: Global,
    out: &mut Out<K>,
    tree: &Tree,
    number: &str,
) -> Result<(), Fail> {
    let nodes = if number.is_empty() {
        None
    } else {
        Some(number.parse::<u64>()?)
    };
    let cuts = cuts_of(alloc, tree)?;
    let _ = put_diagram(out, tree, &cuts, nodes);
    Ok(())
}

// The cut sets of a tree, with the orders of those that have at most so many members.
fn put_own_cuts<R: Threads + Sync, K: Sink>(
    rt: &R,
    alloc: Global,
    out: &mut Out<K>,
    tree: &Tree,
    most: &str,
) -> Result<(), Fail> {
    let cuts = cuts_of(alloc, tree)?;
    put_cut_sets(rt, alloc, out, tree, &cuts, most)
}

fn put_cut_sets<R: Threads + Sync, K: Sink>(
    rt: &R,
    alloc: Global,
    out: &mut Out<K>,
    tree: &Tree,
    cuts: &CutList,
    most: &str,
) -> Result<(), Fail>
    requires units { All (All (IsUnitOf tree.now)) cuts.now }
{
    let most = most.parse::<u32>()?;
    if most > 8 {
        return Err("too many members".into());
    }
    let texts = UnitTexts::new(alloc, tree)?;
    let lists = orders(rt, alloc, tree, cuts, most, 4)?;
    let _ = put_cuts(out, tree, &texts, cuts, &lists);
    Ok(())
}

// A board, once its crews were served in an order.
fn put_day<K: Sink>(
    alloc: Global,
    out: &mut Out<K>,
    tree: &Tree,
    crews: &str,
    order: &str,
) -> Result<(), Fail> {
    let dockets = dockets_of(alloc, crews.as_bytes())?;
    put_crew_day(alloc, out, tree, &dockets, order)
}

fn put_crew_day<K: Sink>(
    alloc: Global,
    out: &mut Out<K>,
    tree: &Tree,
    dockets: &Dockets,
    order: &str,
) -> Result<(), Fail> {
    let cuts = cuts_of(alloc, tree)?;
    let mut board = BoardState::open(alloc, tree, &cuts, dockets, 0)?;
    let served = serve_in_order(&mut board, tree, order);
    let _ = put_board(out, &board, tree);
    drop(board);
    served
}

// Serves the crews in an order, each crew a digit.
fn serve_in_order(board: &mut BoardState, tree: &Tree, order: &str) -> Result<(), Fail>
    requires { IsDeckOf tree.now board.old.deck }
    ensures { IsDeckOf tree.now board.new.deck }
{
    for digit in order.as_bytes() {
        let crew = u32::from(digit.wrapping_sub(b'0'));
        if crew >= board.crews() || board.serve(CrewNo(crew)).is_none() {
            return Err("no such request".into());
        }
    }
    Ok(())
}

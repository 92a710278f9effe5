//! A log is gone through line by line beside a board of its deck, which makes the entry that each line has to show.
ghost use Rattle.std.specs.Prelude.{◌≡◌, ◌↔◌, ◌≤◌, ◌++◌, [], length, IfOk};
ghost use Rattle.deck_limits.specs.declared.TheConstants.{GREATEST_MARGIN};
ghost use Rattle.fault_definitions.specs.Tree.{unit_count};
ghost use Rattle.residual_ledger.specs.Residual.{HasUnitsUpTo};
ghost use Rattle.crew_script.specs.Dockets.{request_count, IsDockets};
ghost use Rattle.outage_board.specs.Boards.{IsBoard, deck_of};
ghost use Rattle.board_report.specs.LogText.{log_head};
ghost use Rattle.board_audit.specs.declared.verdict.Verdict.TheVariants.{Yes};
ghost use Rattle.board_audit.specs.Pieces.{behind, lent};
ghost use Rattle.board_audit.specs.Reading.{HasAsks, Reads};
ghost use Rattle.board_audit.specs.Verdicts.{IsVerdict, IsWholeLog, deck_head};

use crate::Verdict;
use crate::front::crew_of_line;
use crate::line::behind_line;
use crate::part::{Part, pass_number};
use crew_script::Dockets;
use fault_model::Tree;
use outage_board::BoardState;
use std::alloc::Global;
use unit_sets::{CutList, NoMemory};

/// How far a log agrees with its deck: with the tree's cut list, its crews and the opening margin. The log is what a
/// board's text has from the line `log: N` to the line of the last entry.
///
/// Each line is read once, and each request that it shows is decided once.
pub fn audit(
    alloc: Global,
    tree: &Tree,
    cuts: &CutList,
    dockets: &Dockets,
    margin: u32,
    log: &[u8],
) -> Result<Verdict, NoMemory>
    requires known { HasUnitsUpTo (unit_count tree.now) cuts.now }
    requires margin { margin ≤ GREATEST_MARGIN }
    ensures verdict { IfOk result (IsVerdict (deck_of tree.now cuts.now dockets.now margin) log.now) }
    ensures yes { IfOk result (λ verdict. (verdict ≡ Yes)
        ↔ IsWholeLog (deck_of tree.now cuts.now dockets.now margin) log.now) }
{
    // The crews tell the proof that their names differ.
    dockets.crews();
    let mut board = BoardState::open(alloc, tree, cuts, dockets, margin)?;
    let verdict = judge(&mut board, log);
    drop(board);
    Ok(verdict)
}

// The verdict on a log, beside a board on which nothing was asked yet.
fn judge(board: &mut BoardState, log: &[u8]) -> Verdict
    requires opened { board.old.history ≡ [] }
    requires asks { HasAsks board.old.deck }
    requires kept { IsDockets board.old.deck.crews }
    ensures { IsVerdict board.old.deck log.now result }
{
    match behind_head(board.dockets().total(), log) {
        Some(lines) => judge_lines(board, lines),
        None => Verdict::Header,
    }
}

// What follows the head of a log of so many entries, where the log begins with it.
fn behind_head(total: u32, log: &[u8]) -> Option<&[u8]>
    ensures { lent result ≡ behind (log_head total) log.now }
{
    let mut part = Part::new(log);
    part.pass(b"log: ");
    pass_number(&mut part, total as u64);
    part.pass(b"\n");
    part.rest()
}

// The verdict on a log with these lines behind its head.
fn judge_lines(board: &mut BoardState, lines: &[u8]) -> Verdict
    requires opened { board.old.history ≡ [] }
    requires asks { HasAsks board.old.deck }
    requires kept { IsDockets board.old.deck.crews }
    ensures { IsVerdict board.old.deck (deck_head board.old.deck ++ lines.now) result }
{
    let mut rest = lines;
    for place in 0..board.dockets().total() {
        match read_line(board, rest) {
            Some(more) => rest = more,
            None => return Verdict::Entry(place + 1),
        }
    }
    // The board tells the proof that its history is legal.
    board.entries();
    if rest.is_empty() {
        Verdict::Yes
    } else {
        Verdict::Rest
    }
}

// What follows the next line, where it is the line of the entry that is made for its crew. The board then has that
// entry too.
fn read_line<'a>(board: &mut BoardState, text: &'a [u8]) -> Option<&'a [u8]>
    requires asks { HasAsks board.old.deck }
    ensures read { Reads board.old board.new text.now result }
    ensures kept { IsBoard board.old }
{
    let number = board.entries().len() as u64 + 1;
    let crew = crew_of_line(board.dockets(), number, text)?;
    let entry = board.serve(crew)?;
    behind_line(board.dockets(), number, &entry, text)
}

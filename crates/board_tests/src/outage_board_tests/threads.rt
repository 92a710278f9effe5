//! Two threads serve a crew each.
ghost use Rattle.std.specs.Prelude.{◌≡◌, IfSome};
ghost use Rattle.std.specs.Thread.{IsSync};
ghost use Rattle.outage_board.specs.Passes.{AreOf};

use super::PAIRS;
use margin_policy::Reply;
use outage_board::{Board, BoardStart, CrewPass, Passes};
use std::alloc::Global;
use std::sync::Wait;
use std::test::Fail;
use std::thread::{Threads, join};
use worked_boards::board_of;

// The last pass of a board.
fn last_pass(board: &Board, passes: &mut Passes) -> Option<CrewPass>
    requires own { AreOf board.now passes.old.passes }
    ensures own { AreOf board.now passes.new.passes }
    ensures pass { IfSome result (λ pass. pass.board ≡ board.now) }
{
    passes.pop()
}

// The reply to the next request of a pass's crew, if one is left.
fn reply_with(rt: &impl Wait, board: &Board, pass: &mut CrewPass) -> Option<Reply>
    requires { pass.old.board ≡ board.now }
    ensures { pass.new.board ≡ board.now }
{
    match board.serve(rt, pass) {
        Some(entry) => Some(entry.reply),
        None => None,
    }
}

// The replies to the requests of one thread.
type Replies = (Option<Reply>, Option<Reply>);

// One thread serves two requests.
fn serve_two(rt: &impl Wait, board: &Board, mut pass: CrewPass) -> Replies
    requires { pass.board ≡ board.now }
{
    let first = reply_with(rt, board, &mut pass);
    let second = reply_with(rt, board, &mut pass);
    (first, second)
}

// Two threads serve two requests each.
fn serve_at_once<R: Threads + Wait + Sync>(
    rt: &R,
    board: &Board,
    one: CrewPass,
    other: CrewPass,
) -> (Replies, Replies)
    requires { (one.board ≡ board.now) × (other.board ≡ board.now) }
{
    join(
        rt,
        move || -> Replies
            requires { IsSync R.row × (one.board ≡ board.now) }
        { serve_two(rt, board, one) },
        move || -> Replies
            requires { IsSync R.row × (other.board ≡ board.now) }
        { serve_two(rt, board, other) },
    )
}

// What two threads that serve a crew each get to know: how many passes there are and how many there is room for, the
// crews of the last one and the one before it, and the replies to each.
type Told = ((usize, usize), (u32, u32), (Replies, Replies));

fn crews_of(one: &CrewPass, other: &CrewPass) -> (u32, u32) {
    (one.crew().0, other.crew().0)
}

fn served_at_once<R: Threads + Wait + Sync>(
    rt: &R,
    board: &Board,
    passes: &mut Passes,
) -> Option<Told>
    requires own { AreOf board.now passes.old.passes }
{
    let sizes = (passes.len(), passes.room());
    let one = last_pass(board, passes)?;
    let other = last_pass(board, passes)?;
    let crews = crews_of(&one, &other);
    Some((sizes, crews, serve_at_once(rt, board, one, other)))
}

// The board and its passes are let go by a call.
fn told<R: Threads + Wait + Sync>(rt: &R, alloc: Global, text: &[u8]) -> Result<Told, Fail> {
    let BoardStart { board, mut passes } = board_of(alloc, PAIRS, text)?;
    let told = served_at_once(rt, &board, &mut passes);
    drop(passes);
    drop(board);
    Ok(told.ok_or("no pass")?)
}

const GRANTED: Option<Reply> = Some(Reply::Granted);

// Whether there are two passes, for which there is room, of the crews 1 and 0, of which only the latter has a second
// request.
fn is_of_both(told: Told) -> bool {
    let (sizes, crews, (newer, older)) = told;
    sizes == (2, 2)
        && crews == (1, 0)
        && newer == (GRANTED, None)
        && older == (GRANTED, Some(Reply::NotOut))
}

#[test]
fn two_threads_serve_a_crew_each(rt: HostRuntime) -> Result<(), Fail> {
    let text = b"crew c\ntake A\nreturn B\ncrew d\ntake C\n".as_slice();
    assert!(&rt; is_of_both(told(&rt, rt.alloc(), text)?));
    Ok(())
}

// Whether a board that is closed before any crew is served has two crews, no history and the margin 0.
fn is_closed(alloc: Global, text: &[u8]) -> Result<bool, Fail> {
    let BoardStart { board, passes } = board_of(alloc, PAIRS, text)?;
    let state = board.close(passes);
    let is_so = state.crews() == 2 && state.history_len() == 0 && state.opening_margin() == 0;
    drop(state);
    Ok(is_so)
}

#[test]
fn a_board_without_entries_is_closed(rt: HostRuntime) -> Result<(), Fail> {
    let text = b"crew c\ntake A\ncrew d\ntake C\n".as_slice();
    assert!(&rt; is_closed(rt.alloc(), text)?);
    Ok(())
}

//! Workers that serve the crews of a board, by recursive fork and join: each level serves one crew beside the levels
//! below it.
ghost use Rattle.std.specs.Prelude.{◌≡◌, ◌+◌, ◌<◌, length, All, MatchBool};
ghost use Rattle.std.specs.Thread.{IsSync};
ghost use Rattle.outage_board.specs.Histories.{IsLegal, IsWhole};
ghost use Rattle.outage_board.specs.Passes.{AreOf, HaveAll, crews_of};
ghost use Rattle.crew_workers.specs.Served.{docket_size, IsServed, AreServed, StaysPass};

use edge_io::Pace;
use outage_board::{Board, BoardStart, BoardState, CrewPass, Passes};
use std::sync::Wait;
use std::thread::{Threads, join};

// Serves the next request of a pass's crew, and says whether one was left. The pace is told before the turn is asked
// for and after the answer, also where none was left.
fn serve_next<R: Wait, P: Pace>(rt: &R, board: &Board, pass: &mut CrewPass, pace: &P) -> bool
    requires { pass.old.board ≡ board.now }
    ensures pass { StaysPass pass.old pass.new }
    ensures made { MatchBool result (length pass.new.made ≡ length pass.old.made + 1) (IsServed pass.new) }
    ensures left { MatchBool result (length pass.old.made < docket_size pass.old) (pass.new ≡ pass.old) }
{
    let crew = pass.crew();
    let place = pass.place();
    pace.before(crew.0, place);
    let entry = board.serve(rt, pass);
    pace.after(crew.0, place);
    entry.is_some()
}

// Serves a crew until its docket is used up.
fn serve_crew<R: Wait, P: Pace>(rt: &R, board: &Board, pass: CrewPass, pace: &P) -> CrewPass
    requires { pass.board ≡ board.now }
    ensures board { result.board ≡ board.now }
    ensures crew { result.crew ≡ pass.crew }
    ensures served { IsServed result }
{
    let mut pass = pass;
    while serve_next(rt, board, &mut pass, pace) {}
    pass
}

// Serves the crews of some passes, each by a thread of its own. Where no thread can be made, `join` runs the work
// itself.
fn serve_each<R: Threads + Wait + Sync, P: Pace>(
    rt: &R,
    board: &Board,
    mut passes: Passes,
    pace: &P,
) -> Passes
    requires { AreOf board.now passes.passes }
    ensures own { AreOf board.now result.passes }
    ensures crews { crews_of result.passes ≡ crews_of passes.passes }
    ensures room { result.room ≡ passes.room }
    ensures served { AreServed result.passes }
{
    let Some(pass) = passes.pop() else {
        return passes;
    };
    let (mut others, pass) = join(
        rt,
        move || -> Passes
            requires { IsSync R.row × AreOf board.now passes.passes }
            ensures own { AreOf board.entry.now result.passes }
            ensures crews { crews_of result.passes ≡ crews_of passes.passes }
            ensures room { result.room ≡ passes.room }
            ensures served { AreServed result.passes }
        { serve_each(rt, board, passes, pace) },
        move || -> CrewPass
            requires { IsSync R.row × (pass.board ≡ board.now) }
            ensures board { result.board ≡ board.entry.now }
            ensures crew { result.crew ≡ pass.crew }
            ensures served { IsServed result }
        { serve_crew(rt, board, pass, pace) },
    );
    others.push(pass);
    others
}

/// Serves all crews of a board, each by a thread of its own, until every docket is used up, and closes the board. The
/// pace is told of each request of each crew before the turn is asked for and after the answer, and of the call at
/// the end of the docket that finds none left.
pub fn serve_all<R: Threads + Wait + Sync, P: Pace>(
    rt: &R,
    start: BoardStart,
    pace: &P,
) -> BoardState
    requires own { AreOf start.board start.passes.passes }
    requires all { HaveAll start.board.deck start.passes.passes }
    ensures deck { result.deck ≡ start.board.deck }
    ensures legal { IsLegal result.deck.opening result.history }
    ensures whole { IsWhole result.deck.dockets result.history }
{
    let BoardStart { board, passes } = start;
    let passes = serve_each(rt, &board, passes, pace);
    let state = board.close(passes);
    // Tells the proof that the history is legal, and whole up to what was served.
    state.entries();
    state
}

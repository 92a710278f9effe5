//! One pass of a board asks until the history is full; two ask in two threads, and in one.
//!
//! The board is of two units that must not both be out, and crew 0 asks.
ghost use Rattle.std.specs.Prelude.{◌≡◌, ◌<◌, ◌≤◌, IfOk, IfSome};
ghost use Rattle.std.specs.Thread.{IsSync};
ghost use Rattle.margin_policy.specs.Standing.{IsRequestFor};

use live_board::{Answer, LiveBoard, LiveLog, LiveStart, MOST_ENTRIES, MOST_PASSES, Pass};
use margin_policy::{AskedUnits, Reply, Request};
use std::alloc::Global;
use std::sync::Wait;
use std::test::Fail;
use std::thread::{Threads, join};
use unit_sets::{CrewNo, CutList, UnitNo};
use worked_trees::{cuts_of, tree_of};

const GRANTED: Answer = Answer::Answered(Reply::Granted);

const DENIED: Answer = Answer::Answered(Reply::Denied(1));

// The greatest number of units: so each unit is one of the board's.
const UNITS: u32 = 4095;

fn cut_list(alloc: Global) -> Result<CutList, Fail> {
    let tree = tree_of(alloc, b"toplevel T; T and A B; A; B;")?;
    let cuts = cuts_of(alloc, &tree);
    drop(tree);
    cuts
}

// A board at the margin 0 without a supervisor.
fn board_of(alloc: Global, passes: u32, room: u32) -> Result<LiveStart, Fail>
    requires some_pass { 0 < passes }
    requires few_passes { passes ≤ MOST_PASSES }
    requires some_room { 0 < room }
    requires little_room { room ≤ MOST_ENTRIES }
    ensures units { IfOk result (λ start. start.board.setup.opening.units ≡ 4095) }
    ensures own { IfOk result (λ start. start.pass.board ≡ start.board) }
{
    let cuts = cut_list(alloc)?;
    // Tells the proof that the list has units alone.
    cuts.len();
    let start = LiveBoard::open(alloc, UNITS, &cuts, 0, None, passes, room);
    drop(cuts);
    Ok(start?)
}

// The take of one unit.
fn take_of(number: u16) -> Option<Request>
    ensures { IfSome result (IsRequestFor 4095) }
{
    let asked = AskedUnits::new(&[UnitNo::new(number)?], false)?;
    UnitNo::are_units(asked.units());
    Some(Request::Take(asked))
}

// The return of one unit.
fn return_of(number: u16) -> Option<Request>
    ensures { IfSome result (IsRequestFor 4095) }
{
    let unit = UnitNo::new(number)?;
    // Tells the proof that it is a unit.
    unit.number();
    Some(Request::Return(Some(unit)))
}

// Asks what there is to ask. Another answer than the wanted one fails the test.
fn ask(
    rt: &impl Wait,
    board: &LiveBoard,
    pass: &mut Pass,
    request: &Option<Request>,
    wanted: Answer,
) -> Result<(), Fail>
    requires units { board.now.setup.opening.units ≡ 4095 }
    requires own { pass.old.board ≡ board.now }
    requires asked { IfSome request.now (IsRequestFor 4095) }
    ensures { pass.new.board ≡ board.now }
{
    let Some(request) = request else {
        return Err("nothing to ask".into());
    };
    if board.ask(rt, pass, CrewNo(0), request) != wanted {
        return Err("another answer".into());
    }
    Ok(())
}

// Whether a log has at a place an entry with this pass number, place and reply.
fn has_entry(log: &LiveLog, i: usize, pass: u32, place: u32, reply: Reply) -> bool {
    if i >= log.len() {
        return false;
    }
    let made = log.entry(i);
    made.pass == pass && made.entry.place == place && made.entry.reply == reply
}

// Asks three times, for which there is room, and once more.
fn ask_all(rt: &impl Wait, board: &LiveBoard, pass: &mut Pass) -> Result<(), Fail>
    requires units { board.now.setup.opening.units ≡ 4095 }
    requires own { pass.old.board ≡ board.now }
    ensures { pass.new.board ≡ board.now }
{
    ask(rt, board, pass, &take_of(1), GRANTED)?;
    ask(rt, board, pass, &take_of(2), DENIED)?;
    ask(rt, board, pass, &return_of(1), GRANTED)?;
    ask(rt, board, pass, &take_of(1), Answer::HistoryFull)
}

// Whether a log has the three entries, with places from 0 on.
fn is_of_three(log: &LiveLog) -> bool {
    log.len() == 3
        && has_entry(log, 0, 0, 0, Reply::Granted)
        && has_entry(log, 1, 0, 1, Reply::Denied(1))
        && has_entry(log, 2, 0, 2, Reply::Granted)
}

fn ask_and_log(
    rt: &impl Wait,
    alloc: Global,
    board: &LiveBoard,
    pass: &mut Pass,
) -> Result<bool, Fail>
    requires units { board.now.setup.opening.units ≡ 4095 }
    requires own { pass.old.board ≡ board.now }
{
    ask_all(rt, board, pass)?;
    let log = board.log(rt, alloc, pass)?;
    let is_so = is_of_three(&log);
    drop(log);
    Ok(is_so)
}

// The board and its pass are let go by a call.
fn is_full_after_three(rt: &impl Wait, alloc: Global) -> Result<bool, Fail> {
    let LiveStart { board, mut pass } = board_of(alloc, 1, 3)?;
    let end = ask_and_log(rt, alloc, &board, &mut pass);
    drop(pass);
    drop(board);
    end
}

#[test]
fn a_full_history_takes_no_further_entry(rt: HostRuntime) -> Result<(), Fail> {
    assert!(&rt; is_full_after_three(&rt, rt.alloc())?);
    Ok(())
}

// A new pass, where the old one has a number to spare.
fn split_off(board: &LiveBoard, pass: &mut Pass) -> Option<Pass>
    requires { pass.old.board ≡ board.now }
    ensures old { pass.new.board ≡ board.now }
    ensures new { IfSome result (λ other. other.board ≡ board.now) }
{
    if pass.spare() == 0 {
        return None;
    }
    Some(board.split(pass))
}

// Asks for a unit.
fn take_with(rt: &impl Wait, board: &LiveBoard, mut pass: Pass, number: u16) -> Pass
    requires units { board.now.setup.opening.units ≡ 4095 }
    requires own { pass.board ≡ board.now }
    ensures { result.board ≡ board.now }
{
    if let Some(request) = take_of(number) {
        board.ask(rt, &mut pass, CrewNo(0), &request);
    }
    pass
}

// Two threads ask for a unit each.
fn take_at_once<R: Threads + Wait + Sync>(
    rt: &R,
    board: &LiveBoard,
    one: Pass,
    other: Pass,
) -> (Pass, Pass)
    requires units { board.now.setup.opening.units ≡ 4095 }
    requires one { one.board ≡ board.now }
    requires other { other.board ≡ board.now }
    ensures { (result.0.board ≡ board.now) × (result.1.board ≡ board.now) }
{
    join(
        rt,
        move || -> Pass
            requires { IsSync R.row × (board.now.setup.opening.units ≡ 4095) × (one.board ≡ board.now) }
            ensures { result.board ≡ board.entry.now }
        { take_with(rt, board, one, 1) },
        move || -> Pass
            requires { IsSync R.row × (board.now.setup.opening.units ≡ 4095) × (other.board ≡ board.now) }
            ensures { result.board ≡ board.entry.now }
        { take_with(rt, board, other, 2) },
    )
}

// Whether a log has two entries, of which that of one pass was granted and then that of another was denied.
fn is_of_two(log: &LiveLog, earlier: u32, later: u32) -> bool {
    log.len() == 2
        && has_entry(log, 0, earlier, 0, Reply::Granted)
        && has_entry(log, 1, later, 0, Reply::Denied(1))
}

// Whether the log of the pass that is made of two which asked at once is so.
fn ask_at_once<R: Threads + Wait + Sync>(
    rt: &R,
    alloc: Global,
    board: &LiveBoard,
    mut pass: Pass,
) -> Result<bool, Fail>
    requires units { board.now.setup.opening.units ≡ 4095 }
    requires own { pass.board ≡ board.now }
{
    let Some(other) = split_off(board, &mut pass) else {
        return Err("no number to spare".into());
    };
    let (mut pass, other) = take_at_once(rt, board, pass, other);
    board.join(&mut pass, other);
    let log = board.log(rt, alloc, &mut pass)?;
    let is_so = is_of_two(&log, 0, 1) || is_of_two(&log, 1, 0);
    drop(log);
    Ok(is_so)
}

fn is_first_come_first_served<R: Threads + Wait + Sync>(
    rt: &R,
    alloc: Global,
) -> Result<bool, Fail> {
    let LiveStart { board, pass } = board_of(alloc, 2, 8)?;
    let end = ask_at_once(rt, alloc, &board, pass);
    drop(board);
    end
}

#[test]
fn the_earlier_of_two_threads_is_granted(rt: HostRuntime) -> Result<(), Fail> {
    assert!(&rt; is_first_come_first_served(&rt, rt.alloc())?);
    Ok(())
}

// Whether the log of a pass has the entry of another, of which it was not told.
fn ask_with_one(
    rt: &impl Wait,
    alloc: Global,
    board: &LiveBoard,
    pass: &mut Pass,
    other: &mut Pass,
) -> Result<bool, Fail>
    requires units { board.now.setup.opening.units ≡ 4095 }
    requires own { pass.old.board ≡ board.now }
    requires others { other.old.board ≡ board.now }
{
    ask(rt, board, pass, &take_of(1), GRANTED)?;
    let log = board.log(rt, alloc, other)?;
    let is_so = log.len() == 1 && has_entry(&log, 0, 0, 0, Reply::Granted);
    drop(log);
    Ok(is_so)
}

// The passes are split before either of them asks.
fn split_and_ask(
    rt: &impl Wait,
    alloc: Global,
    board: &LiveBoard,
    pass: &mut Pass,
) -> Result<bool, Fail>
    requires units { board.now.setup.opening.units ≡ 4095 }
    requires own { pass.old.board ≡ board.now }
{
    let Some(mut other) = split_off(board, pass) else {
        return Err("no number to spare".into());
    };
    let end = ask_with_one(rt, alloc, board, pass, &mut other);
    drop(other);
    end
}

fn is_told_of_all(rt: &impl Wait, alloc: Global) -> Result<bool, Fail> {
    let LiveStart { board, mut pass } = board_of(alloc, 2, 8)?;
    let end = split_and_ask(rt, alloc, &board, &mut pass);
    drop(pass);
    drop(board);
    end
}

#[test]
fn a_log_has_entries_of_which_its_pass_was_not_told(rt: HostRuntime) -> Result<(), Fail> {
    assert!(&rt; is_told_of_all(&rt, rt.alloc())?);
    Ok(())
}

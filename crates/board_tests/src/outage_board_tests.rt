//! Boards over small trees: what they tell once crews were served in some order.
mod threads;

use outage_board::BoardState;
use std::alloc::{AllocError, Global};
use std::process::Abort;
use std::test::Fail;
use unit_sets::CrewNo;
use worked_boards::state_of;

const THREE: &[u8] = b"toplevel T; T and A B C; A; B; C;";

const PAIRS: &[u8] = b"toplevel T; T or G H; G and A B; H and C D; A; B; C; D;";

// The margin at first, the number of all requests, and how many each crew has left.
fn tell_opening(alloc: Global, told: &mut String, board: &BoardState) -> Result<(), AllocError> {
    let margin = board.opening_margin();
    let total = board.dockets().total();
    told.push_str(format!(in alloc; "margin {margin}, {total} requests:")?.as_str())?;
    for crew in 0..board.crews() {
        let left = board.left(CrewNo(crew));
        told.push_str(format!(in alloc; " {left}")?.as_str())?;
    }
    Ok(())
}

// The reply to the next request of a crew. Where it has no request left, `-` stands.
fn tell_reply(
    alloc: Global,
    told: &mut String,
    board: &mut BoardState,
    crew: u32,
) -> Result<(), Fail> {
    if crew >= board.crews() {
        return Err("no such crew".into());
    }
    match board.serve(CrewNo(crew)) {
        Some(entry) => told.push_str(format!(in alloc; "\n{:?}", entry.reply)?.as_str())?,
        None => told.push_str("\n-")?,
    }
    Ok(())
}

// The replies to the next requests of crews, each crew a digit.
fn tell_replies(
    alloc: Global,
    told: &mut String,
    board: &mut BoardState,
    crews: &str,
) -> Result<(), Fail> {
    for digit in crews.as_bytes() {
        tell_reply(alloc, told, board, u32::from(digit.wrapping_sub(b'0')))?;
    }
    Ok(())
}

// The entries of the history, each by its crew, its place and its reply.
fn tell_entries(alloc: Global, told: &mut String, board: &BoardState) -> Result<(), AllocError> {
    let length = board.history_len();
    told.push_str(format!(in alloc; "\n{length} entries:")?.as_str())?;
    for entry in board.entries() {
        let crew = entry.crew.0;
        let place = entry.place;
        let reply = entry.reply;
        told.push_str(format!(in alloc; "\n{crew} {place} {reply:?}")?.as_str())?;
    }
    Ok(())
}

// The margin at the end, and how many members of each cut set are in service.
fn tell_standing(alloc: Global, told: &mut String, board: &BoardState) -> Result<(), AllocError> {
    let standing = board.standing();
    let margin = standing.margin();
    told.push_str(format!(in alloc; "\nmargin {margin}:")?.as_str())?;
    for count in standing.ledger().counts() {
        told.push_str(format!(in alloc; " {count}")?.as_str())?;
    }
    Ok(())
}

fn tell_board(
    alloc: Global,
    told: &mut String,
    board: &mut BoardState,
    crews: &str,
) -> Result<(), Fail> {
    tell_opening(alloc, told, board)?;
    tell_replies(alloc, told, board, crews)?;
    tell_entries(alloc, told, board)?;
    tell_standing(alloc, told, board)?;
    Ok(())
}

// Adds what a board tells before, while and after crews are served in an order. It lets the board go by a call.
fn tell_day(
    alloc: Global,
    told: &mut String,
    deck: &[u8],
    crews: &[u8],
    order: &str,
) -> Result<(), Fail> {
    let mut board = state_of(alloc, deck, crews)?;
    let end = tell_board(alloc, told, &mut board, order);
    drop(board);
    end
}

// What a board tells of such a day has to be what is due.
fn check_day<R: Abort>(
    rt: &R,
    alloc: Global,
    deck: &[u8],
    crews: &[u8],
    order: &str,
    due: &str,
) -> Result<(), Fail> {
    let mut told = String::new(alloc);
    tell_day(alloc, &mut told, deck, crews, order)?;
    assert_eq!(rt; told.as_str(), due);
    Ok(())
}

const ERRORS: &str = "margin 0, 8 requests: 6 2
Granted
AlreadyOut(CrewNo(0))
HeldBy(CrewNo(0))
AlreadyOut(CrewNo(0))
NotOut
UnknownUnit
Granted
Granted
-
-
8 entries:
0 0 Granted
0 1 AlreadyOut(CrewNo(0))
1 0 HeldBy(CrewNo(0))
1 1 AlreadyOut(CrewNo(0))
0 2 NotOut
0 3 UnknownUnit
0 4 Granted
0 5 Granted
margin 0: 2";

#[test]
fn errors_are_named(rt: HostRuntime) -> Result<(), Fail> {
    let crews =
        b"crew c\ntake A\ntake A\nreturn B\ntake Z\nreturn A\ntake A\ncrew d\nreturn A\ntake A\n";
    check_day(&rt, rt.alloc(), THREE, crews, "0011000001", ERRORS)
}

const MARGINS: &str = "margin 0, 12 requests: 12
Granted
Denied(1)
Granted
Denied(2)
Granted
Granted
Denied(1)
Granted
Denied(1)
Granted
UnknownUnit
AlreadyOut(CrewNo(0))
-
12 entries:
0 0 Granted
0 1 Denied(1)
0 2 Granted
0 3 Denied(2)
0 4 Granted
0 5 Granted
0 6 Denied(1)
0 7 Granted
0 8 Denied(1)
0 9 Granted
0 10 UnknownUnit
0 11 AlreadyOut(CrewNo(0))
margin 0: 1 1";

#[test]
fn the_supervisor_changes_the_margin(rt: HostRuntime) -> Result<(), Fail> {
    let crews =
        b"crew supervisor\ntake A C\nmargin 1\nreturn A\nmargin 1\nreturn C\nmargin 1\ntake A\n\
        margin 0\ntake A B\ntake C A\ntake B Z\ntake B A\n";
    check_day(&rt, rt.alloc(), PAIRS, crews, "0000000000000", MARGINS)
}

const READ: &str = "margin 0, 3 requests: 1 2
Granted
AlreadyOut(CrewNo(1))
2 entries:
1 0 Granted
0 0 AlreadyOut(CrewNo(1))
margin 0: 1";

#[test]
fn readers_tell_the_board(rt: HostRuntime) -> Result<(), Fail> {
    let crews = b"crew c\ntake A\ncrew d\ntake B A\nreturn Z\n";
    check_day(&rt, rt.alloc(), THREE, crews, "10", READ)
}

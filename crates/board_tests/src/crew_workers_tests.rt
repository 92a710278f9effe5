//! Crews of a tree of two units, each by a worker of its own.

use crew_workers::serve_all;
use edge_io::{Free, Pace};
use held_pace::{Meeting, Piece};
use margin_policy::Reply;
use outage_board::{BoardState, Entry};
use std::alloc::Global;
use std::sync::Wait;
use std::test::Fail;
use std::thread::Threads;
use unit_sets::CrewNo;
use worked_boards::board_of;

const DECK: &[u8] = b"toplevel T; T and A B; A; B;";

// Whether of two takes of the crews 0 and 1 the earlier was granted and the later denied by the cut set 1.
fn is_granted_first(earlier: &Entry, later: &Entry) -> bool {
    let crews = (earlier.crew.0, later.crew.0);
    (crews == (0, 1) || crews == (1, 0))
        && earlier.reply == Reply::Granted
        && later.reply == Reply::Denied(1)
}

// Whether these two are all of a history.
fn is_of_two(entries: &[Entry]) -> bool {
    match entries {
        [earlier, later] => is_granted_first(earlier, later),
        _ => false,
    }
}

// How many requests of all crews are left.
fn left(state: &BoardState) -> u32 {
    let mut left = 0u32;
    for number in 0..state.crews() {
        left = left.saturating_add(state.left(CrewNo(number)));
    }
    left
}

// What the workers leave: how long the history is, how many requests are left, and whether the history is that of two
// takes of which the earlier was granted.
type Left = (usize, u32, bool);

// Whether the workers leave this.
fn leaves<R: Threads + Wait + Sync, P: Pace>(
    rt: &R,
    alloc: Global,
    crews: &[u8],
    pace: &P,
    due: Left,
) -> Result<bool, Fail> {
    let start = board_of(alloc, DECK, crews)?;
    let state = serve_all(rt, start, pace);
    let told = (
        state.history_len(),
        left(&state),
        is_of_two(state.entries()),
    );
    drop(state);
    Ok(told == due)
}

const TWO: &[u8] = b"crew c\ntake A\ncrew d\ntake B\n";

#[test]
fn the_earlier_of_two_crews_is_granted(rt: HostRuntime) -> Result<(), Fail> {
    assert!(&rt; leaves(&rt, rt.alloc(), TWO, &Free, (2, 0, true))?);
    Ok(())
}

#[test]
fn two_crews_are_served_at_once(rt: HostRuntime) -> Result<(), Fail> {
    // The first request of each of the two crews.
    let meeting = Meeting::of(Piece { group: 0, place: 0 }, Piece { group: 1, place: 0 });
    assert!(&rt; leaves(&rt, rt.alloc(), TWO, &meeting, (2, 0, true))?);
    assert!(&rt; meeting.was_held());
    Ok(())
}

// 64 crews, of which each takes A, returns it, and takes it again.
fn many_crews(alloc: Global) -> Result<Vec<u8>, Fail> {
    let mut text = Vec::new(alloc);
    for number in 0..64u8 {
        text.extend_from_slice(b"crew c")?;
        text.extend_from_slice(&[b'0' + number / 8, b'0' + number % 8])?;
        text.extend_from_slice(b"\ntake A\nreturn A\ntake A\n")?;
    }
    Ok(text)
}

#[test]
fn sixty_four_crews_are_served(rt: HostRuntime) -> Result<(), Fail> {
    let crews = many_crews(rt.alloc())?;
    assert!(&rt; leaves(&rt, rt.alloc(), crews.as_slice(), &Free, (192, 0, false))?);
    Ok(())
}

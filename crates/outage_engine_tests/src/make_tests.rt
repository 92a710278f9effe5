//! Runs of `make`, and of `check` on what it prints.
use super::runs::{
    ONCE, SOUND, answer, check_calls, check_room, check_run, check_table, check_told,
};
use super::tests::USAGE_ALONE;
use std::alloc::Global;
use std::process::Abort;
use std::sync::Wait;
use std::test::Fail;
use std::thread::Threads;

// Of the 101 groups of the last deck the kinds 0 to 2 have 15 each and the others 14. Each kind has 3 of the 21 groups
// with a trigger.
const MADE: &str = r#"
$ make --number 0 --show deck | make --show deck --number 0
toplevel T;
=> 0 done
toplevel t;
t or g0 g1 g2 [...]return u194a
return u196a
return u198a

$ make --number 0
toplevel T;
=> 0 done by diagram
made 0: 610 units, 241 gates
cuts: 303, orders: 851
requests: 700, granted: 256, denied: 429, named errors: 15
out: 86

$ make --show summary --number 0

=> 0 done by diagram
made 0: 610 units, 241 gates
cuts: 303, orders: 851
requests: 700, granted: 256, denied: 429, named errors: 15
out: 86

$ make --number 999999

=> 0 done by diagram
made 999999: 313 units, 123 gates
cuts: 155, orders: 461
requests: 354, granted: 129, denied: 217, named errors: 8
out: 43
"#;

#[test]
fn prints_made_decks_and_sums_them_up(rt: HostRuntime) -> Result<(), Fail> {
    check_table(&rt, rt.alloc(), ONCE, 4, MADE)
}

const WELL_FORMED: &str =
    "0 done\nwell formed: 589 units, 233 gates, top t\ncrews: 1, requests: 676\n";

// The deck behind the end of its run is well formed.
fn check_deck<R: Abort + Threads + Wait + Sync>(
    rt: &R,
    alloc: Global,
    made: &str,
) -> Result<(), Fail> {
    match made.strip_prefix("0 done\n") {
        Some(deck) => check_run(rt, alloc, "check", deck.as_bytes(), WELL_FORMED),
        None => Err("another end".into()),
    }
}

#[test]
fn a_made_deck_is_well_formed(rt: HostRuntime) -> Result<(), Fail> {
    let made = answer(&rt, rt.alloc(), "make --number 7 --show deck", b"", SOUND)?;
    check_deck(&rt, rt.alloc(), made.as_str())
}

// A sink that fails has a front of what is made, wherever it fails.
fn check_made_text<R: Abort + Threads + Wait + Sync>(
    rt: &R,
    alloc: Global,
    line: &str,
    due: (&str, &str),
) -> Result<(), Fail> {
    let size = due.1.len();
    for room in [0, 1, size / 2, size.saturating_sub(1), size] {
        check_room(rt, alloc, line, b"", due, room)?;
    }
    check_calls(rt, alloc, line, b"", due)
}

fn check_made<R: Abort + Threads + Wait + Sync>(
    rt: &R,
    alloc: Global,
    line: &str,
    end: &str,
) -> Result<(), Fail> {
    let made = answer(rt, alloc, line, b"", SOUND)?;
    match made.as_str().split_once('\n') {
        Some((_, text)) => check_made_text(rt, alloc, line, (end, text)),
        None => Err("no end".into()),
    }
}

#[test]
fn a_sink_that_fails_has_a_front_of_a_made_deck(rt: HostRuntime) -> Result<(), Fail> {
    check_made(
        &rt,
        rt.alloc(),
        "make --number 999999 --show deck",
        "0 done",
    )
}

#[test]
fn a_sink_that_fails_has_a_front_of_a_summary(rt: HostRuntime) -> Result<(), Fail> {
    let line = "make --number 999999 --show summary";
    check_made(&rt, rt.alloc(), line, "0 done by diagram")
}

// What is told where the first read would fail.
fn check_unread<R: Abort + Threads + Wait + Sync>(
    rt: &R,
    alloc: Global,
    line: &str,
    due: &str,
) -> Result<(), Fail> {
    let mut edges = SOUND;
    edges.failing_read = Some(0);
    let got = answer(rt, alloc, line, b"toplevel T;", edges)?;
    check_told(rt, line, got.as_str(), due);
    Ok(())
}

const SUMMARY: &str = "0 done by diagram\nmade 0: 610 units, 241 gates\ncuts: 303, orders: 851\n\
    requests: 700, granted: 256, denied: 429, named errors: 15\nout: 86\n";

#[test]
fn nothing_is_read_for_a_made_deck(rt: HostRuntime) -> Result<(), Fail> {
    check_unread(&rt, rt.alloc(), "make --number 0 --show summary", SUMMARY)?;
    check_unread(
        &rt,
        rt.alloc(),
        "make --number 1000000 --show summary",
        USAGE_ALONE,
    )
}

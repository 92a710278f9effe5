//! Whole runs of the program that draws, from words and a deck to a picture or a refusal, each told as one text.
ghost use Rattle.std.specs.Prelude.{◌≡◌, ◌≤◌};

use super::runs::{Edges, SOUND, check_told, sink_of, source_of, words_of};
use edge_io::{HeldSource, KeptSink};
use picture_engine::run;
use std::alloc::{AllocError, Global};
use std::process::Abort;
use std::test::Fail;
use std::thread::Threads;
use zdd_shared_table::{NodeStore, StoreSeat, StoreStart};

// The exit status, what the output took, and behind `--` what the notes took.
fn told(alloc: Global, code: u8, output: &[u8], notes: &[u8]) -> Result<String, Fail> {
    let (Ok(output), Ok(notes)) = (str::from_utf8(output), str::from_utf8(notes)) else {
        return Err("what was written is no text".into());
    };
    Ok(format!(in alloc; "{code}\n{output}--\n{notes}")?)
}

fn code_over<R: Threads + Sync>(
    rt: &R,
    alloc: Global,
    line: &str,
    source: &mut HeldSource,
    sink: &mut KeptSink,
    notes: &mut KeptSink,
    store: &NodeStore,
    seat: &mut StoreSeat,
) -> Result<u8, AllocError>
    requires own { seat.old.store ≡ store.now }
    requires share { 64 ≤ seat.old.share }
{
    let words = words_of(alloc, line)?;
    Ok(run(
        rt,
        alloc,
        words.as_slice(),
        source,
        sink,
        notes,
        store,
        seat,
    )
    .code())
}

fn code_of<R: Threads + Sync>(
    rt: &R,
    alloc: Global,
    line: &str,
    source: &mut HeldSource,
    sink: &mut KeptSink,
    notes: &mut KeptSink,
) -> Result<u8, AllocError> {
    let StoreStart { store, mut seat } = NodeStore::new(alloc, 12)?;
    code_over(rt, alloc, line, source, sink, notes, &store, &mut seat)
}

fn answer_into<R: Threads + Sync>(
    rt: &R,
    alloc: Global,
    line: &str,
    source: &mut HeldSource,
    sink: &mut KeptSink,
) -> Result<String, Fail> {
    let mut notes = sink_of(alloc, SOUND)?;
    let code = code_of(rt, alloc, line, source, sink, &mut notes)?;
    told(alloc, code, sink.bytes(), notes.bytes())
}

fn answer_from<R: Threads + Sync>(
    rt: &R,
    alloc: Global,
    line: &str,
    source: &mut HeldSource,
    edges: Edges,
) -> Result<String, Fail> {
    let mut sink = sink_of(alloc, edges)?;
    answer_into(rt, alloc, line, source, &mut sink)
}

// The run of a line of words on a deck, with room for so many bytes of output.
fn answer<R: Threads + Sync>(
    rt: &R,
    alloc: Global,
    line: &str,
    deck: &str,
    room: usize,
) -> Result<String, Fail> {
    let mut edges = SOUND;
    edges.piece = 7;
    edges.room = room;
    let mut source = source_of(alloc, deck.as_bytes(), edges)?;
    answer_from(rt, alloc, line, &mut source, edges)
}

fn check_run<R: Threads + Abort + Sync>(
    rt: &R,
    alloc: Global,
    line: &str,
    deck: &str,
    room: usize,
    due: &str,
) -> Result<(), Fail> {
    let got = answer(rt, alloc, line, deck, room)?;
    check_told(rt, line, got.as_str(), due);
    Ok(())
}

// Two pumps of which one has to run, and a pipe.
const DECK: &str = "toplevel T; T or P PIPE; P and A B; A; B; PIPE;";

const ROOM: usize = 1000;

#[test]
fn nothing_is_marked_unless_it_is_asked_for(rt: HostRuntime) -> Result<(), Fail> {
    let due = r#"0
digraph {
  ordering=out;
  1 [label="A", shape=circle];
  2 [label="B", shape=circle];
  3 [label="PIPE", shape=circle];
  4 [label="T\nor", shape=triangle];
  4 -> 5;
  4 -> 3;
  5 [label="P\nand", shape=trapezium];
  5 -> 1;
  5 -> 2;
}
--
"#;
    check_run(&rt, rt.alloc(), "picture", DECK, ROOM, due)
}

#[test]
fn the_units_of_a_cut_set_are_marked(rt: HostRuntime) -> Result<(), Fail> {
    let due = r#"0
digraph {
  ordering=out;
  1 [label="A", shape=circle, style=filled];
  2 [label="B", shape=circle, style=filled];
  3 [label="PIPE", shape=circle];
  4 [label="T\nor", shape=triangle];
  4 -> 5;
  4 -> 3;
  5 [label="P\nand", shape=trapezium];
  5 -> 1;
  5 -> 2;
}
--
"#;
    check_run(&rt, rt.alloc(), "picture --cut 2", DECK, ROOM, due)
}

#[test]
fn a_cut_set_that_is_not_there_is_refused(rt: HostRuntime) -> Result<(), Fail> {
    let due = "1\n--\nrefused: cut 3 of 2\n";
    check_run(&rt, rt.alloc(), "picture --cut 3", DECK, ROOM, due)
}

#[test]
fn a_bad_deck_is_refused_as_by_check(rt: HostRuntime) -> Result<(), Fail> {
    let due = "1\n--\nrefused: C4 undefined name at 1:21\n";
    check_run(
        &rt,
        rt.alloc(),
        "picture",
        "toplevel T; T and A B; A;",
        ROOM,
        due,
    )
}

const BAD_WORDS: &str = "
pictures
picture --cut
picture --cut 0
picture --cut 1 --cut 1";

#[test]
fn bad_words_get_the_usage_line(rt: HostRuntime) -> Result<(), Fail> {
    for line in BAD_WORDS.split('\n') {
        check_run(
            &rt,
            rt.alloc(),
            line,
            DECK,
            ROOM,
            "2\n--\nusage: picture [--cut N]\n",
        )?;
    }
    Ok(())
}

#[test]
fn a_failed_output_has_a_front_of_the_picture(rt: HostRuntime) -> Result<(), Fail> {
    check_run(&rt, rt.alloc(), "picture", DECK, 10, "4\ndigraph {\n--\n")
}

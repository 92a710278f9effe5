//! Runs over streams in memory, each told as one text, and tables of runs with the texts that are due.
//!
//! A table is one text. Each of its cases begins with a line of commands behind `$`, with ` | ` between two commands
//! that are to answer alike. The deck follows, or a rule of one, up to a line of how the run ends behind `=>`, and then
//! what is written.
ghost use Rattle.std.specs.Prelude.{◌≡◌, ◌≤◌};

use edge_io::{Bytes, CallList, HeldSource, KeptSink};
use outage_engine::{Method, Status, Word, run};
use std::alloc::{AllocError, Global};
use std::process::Abort;
use std::sync::Wait;
use std::test::Fail;
use std::thread::Threads;
use zdd_shared_table::{NodeStore, StoreSeat, StoreStart};

// What a run meets at its edges.
#[derive(Clone, Copy)]
pub(super) struct Edges {
    // How many bytes a read gives at most.
    pub(super) piece: usize,
    // Which read fails.
    pub(super) failing_read: Option<u64>,
    // How many bytes the sink takes.
    pub(super) room: usize,
    // Which call of the sink fails.
    pub(super) failing_write: Option<u64>,
}

// Ample room and no fault.
pub(super) const SOUND: Edges = Edges {
    piece: 4_096,
    failing_read: None,
    room: 65_536,
    failing_write: None,
};

// How many bits of slots the store of a run has, where a test asks for no other.
pub(super) const BITS: u32 = 12;

pub(super) fn words_of(alloc: Global, line: &str) -> Result<Vec<Word>, AllocError> {
    let mut words = Vec::new(alloc);
    for word in line.split_whitespace() {
        words.push(Word::of(alloc, word.as_bytes())?)?;
    }
    Ok(words)
}

fn calls_of(alloc: Global, failing: Option<u64>) -> Result<CallList, AllocError> {
    match failing {
        Some(call) => CallList::new(alloc, &[call]),
        None => CallList::new(alloc, &[]),
    }
}

pub(super) fn source_of(
    alloc: Global,
    deck: &[u8],
    edges: Edges,
) -> Result<HeldSource, AllocError> {
    let failing = calls_of(alloc, edges.failing_read)?;
    let bytes = Bytes::of(alloc, deck)?;
    Ok(HeldSource::new(bytes, edges.piece.max(1), failing))
}

pub(super) fn sink_of(alloc: Global, edges: Edges) -> Result<KeptSink, AllocError> {
    KeptSink::new(alloc, edges.room, calls_of(alloc, edges.failing_write)?)
}

// How a run ends, in words.
fn end_of(status: Status) -> &'static str {
    match status {
        Status::Done(Method::Plain) => "done",
        Status::Done(Method::Lists) => "done by lists",
        Status::Done(Method::Diagram) => "done by diagram",
        Status::Refused(_) => "refused",
        Status::ListLimit => "list limit",
        Status::OrderLimit => "order limit",
        Status::Usage => "usage",
        Status::ReadFault => "read fault",
        Status::TooLong => "too long",
        Status::WriteFault => "write fault",
        Status::NoMemory => "no memory",
    }
}

// The exit status of the program, how the run ended in words, and on the next lines what was written.
fn told(alloc: Global, status: Status, written: &[u8]) -> Result<String, Fail> {
    let Ok(text) = str::from_utf8(written) else {
        return Err("what was written is no text".into());
    };
    let code = status.code();
    let end = end_of(status);
    Ok(format!(in alloc; "{code} {end}\n{text}")?)
}

fn status_of<R: Threads + Wait + Sync>(
    rt: &R,
    alloc: Global,
    line: &str,
    source: &mut HeldSource,
    sink: &mut KeptSink,
    store: &NodeStore,
    seat: &mut StoreSeat,
) -> Result<Status, AllocError>
    requires own { seat.old.store ≡ store.now }
    requires share { 64 ≤ seat.old.share }
{
    let words = words_of(alloc, line)?;
    Ok(run(rt, alloc, words.as_slice(), source, sink, store, seat))
}

// The run of a line of words from a source.
fn read_from<R: Threads + Wait + Sync>(
    rt: &R,
    alloc: Global,
    line: &str,
    source: &mut HeldSource,
    edges: Edges,
    store: &NodeStore,
    seat: &mut StoreSeat,
) -> Result<String, Fail>
    requires own { seat.old.store ≡ store.now }
    requires share { 64 ≤ seat.old.share }
{
    let mut sink = sink_of(alloc, edges)?;
    let status = status_of(rt, alloc, line, source, &mut sink, store, seat)?;
    told(alloc, status, sink.bytes())
}

// The run of a line of words over a store.
pub(super) fn answer_over<R: Threads + Wait + Sync>(
    rt: &R,
    alloc: Global,
    line: &str,
    deck: &[u8],
    edges: Edges,
    store: &NodeStore,
    seat: &mut StoreSeat,
) -> Result<String, Fail>
    requires own { seat.old.store ≡ store.now }
    requires share { 64 ≤ seat.old.share }
{
    let mut source = source_of(alloc, deck, edges)?;
    read_from(rt, alloc, line, &mut source, edges, store, seat)
}

// The run of a line of words over a new store of two to the power of so many slots.
fn answer_in<R: Threads + Wait + Sync>(
    rt: &R,
    alloc: Global,
    bits: u32,
    line: &str,
    deck: &[u8],
    edges: Edges,
) -> Result<String, Fail>
    requires few { 10 ≤ bits }
    requires many { bits ≤ 20 }
{
    let StoreStart { store, mut seat } = NodeStore::new(alloc, bits)?;
    answer_over(rt, alloc, line, deck, edges, &store, &mut seat)
}

// The run of a line of words.
pub(super) fn answer<R: Threads + Wait + Sync>(
    rt: &R,
    alloc: Global,
    line: &str,
    deck: &[u8],
    edges: Edges,
) -> Result<String, Fail> {
    answer_in(rt, alloc, BITS, line, deck, edges)
}

// Whether what is told is what is due, of which `[...]` may leave out the middle.
fn is_due(got: &str, due: &str) -> bool {
    match due.split_once("[...]") {
        Some((head, foot)) => got.starts_with(head) && got.ends_with(foot),
        None => got == due,
    }
}

pub(super) fn check_told(rt: &impl Abort, line: &str, got: &str, due: &str) {
    assert!(rt; is_due(got, due), "{line}, where {due} is due: {got}");
}

// A run over a store of two to the power of so many slots, into a sink with so much room, tells what is due.
fn check_run_in<R: Abort + Threads + Wait + Sync>(
    rt: &R,
    alloc: Global,
    bits: u32,
    room: usize,
    line: &str,
    deck: &[u8],
    due: &str,
) -> Result<(), Fail>
    requires few { 10 ≤ bits }
    requires many { bits ≤ 20 }
{
    let mut edges = SOUND;
    edges.room = room;
    let got = answer_in(rt, alloc, bits, line, deck, edges)?;
    check_told(rt, line, got.as_str(), due);
    Ok(())
}

// A run tells what is due.
pub(super) fn check_run<R: Abort + Threads + Wait + Sync>(
    rt: &R,
    alloc: Global,
    line: &str,
    deck: &[u8],
    due: &str,
) -> Result<(), Fail> {
    check_run_in(rt, alloc, BITS, SOUND.room, line, deck, due)
}

// ---- runs into a sink that fails

// Whether a run tells this end, and writes so many bytes of the text.
fn is_front(got: &str, (end, text): (&str, &str), length: usize) -> bool {
    match got.split_once('\n') {
        Some((ended, written)) => {
            ended == end && written.len() == length && text.starts_with(written)
        }
        None => false,
    }
}

fn check_front(rt: &impl Abort, line: &str, got: &str, due: (&str, &str), length: usize) {
    assert!(rt; is_front(got, due, length), "{line}, {length} bytes: {got}");
}

// With room for all of a text a run tells this end, and with less room a front of the text is written.
pub(super) fn check_room<R: Abort + Threads + Wait + Sync>(
    rt: &R,
    alloc: Global,
    line: &str,
    deck: &[u8],
    (end, text): (&str, &str),
    room: usize,
) -> Result<(), Fail> {
    let mut edges = SOUND;
    edges.room = room;
    let got = answer(rt, alloc, line, deck, edges)?;
    let end = if room < text.len() { FAULT } else { end };
    check_front(rt, line, got.as_str(), (end, text), room);
    Ok(())
}

const FAULT: &str = "4 write fault";

// What a run tells whose sink fails at one call.
fn check_call<R: Abort + Threads + Wait + Sync>(
    rt: &R,
    alloc: Global,
    line: &str,
    deck: &[u8],
    (end, text): (&str, &str),
    call: u64,
) -> Result<(), Fail> {
    let mut edges = SOUND;
    edges.room = text.len();
    edges.failing_write = Some(call);
    let got = answer(rt, alloc, line, deck, edges)?;
    let length = if call == 0 { 0 } else { text.len() };
    check_front(rt, line, got.as_str(), (end, text), length);
    Ok(())
}

// The text is written by one call, and flushed by another. Where one of them fails, that is the end.
pub(super) fn check_calls<R: Abort + Threads + Wait + Sync>(
    rt: &R,
    alloc: Global,
    line: &str,
    deck: &[u8],
    (end, text): (&str, &str),
) -> Result<(), Fail> {
    check_call(rt, alloc, line, deck, (FAULT, text), 0)?;
    check_call(rt, alloc, line, deck, (FAULT, text), 1)?;
    check_call(rt, alloc, line, deck, (end, text), 2)
}

// A sink that fails has a front of the text, wherever it fails.
pub(super) fn check_fronts<R: Abort + Threads + Wait + Sync>(
    rt: &R,
    alloc: Global,
    line: &str,
    deck: &[u8],
    due: &str,
) -> Result<(), Fail> {
    let due = due.split_once('\n').ok_or("no end")?;
    for room in 0..due.1.len() + 1 {
        check_room(rt, alloc, line, deck, due, room)?;
    }
    check_calls(rt, alloc, line, deck, due)
}

// ---- decks by rules

// Adds a text with a number in the place of each `#`.
fn push_numbered(
    alloc: Global,
    deck: &mut String,
    text: &str,
    number: usize,
) -> Result<(), AllocError> {
    let shown = format!(in alloc; "{number}")?;
    for (i, piece) in text.split('#').enumerate() {
        if i > 0 {
            deck.push_str(shown.as_str())?;
        }
        deck.push_str(piece)?;
    }
    Ok(())
}

// Adds a text for each number below a count.
fn push_all(alloc: Global, deck: &mut String, text: &str, count: usize) -> Result<(), AllocError> {
    for number in 0..count {
        push_numbered(alloc, deck, text, number)?;
    }
    Ok(())
}

// Adds the parts of a rule: those behind `*` for each number below a count, and the others once.
fn push_parts(
    alloc: Global,
    deck: &mut String,
    rule: &str,
    count: usize,
) -> Result<(), AllocError> {
    for part in rule.split('|') {
        match part.strip_prefix('*') {
            Some(text) => push_all(alloc, deck, text, count)?,
            None => deck.push_str(part)?,
        }
    }
    Ok(())
}

// Adds a deck, or by its rule one with so many parts alike, as `(600) toplevel T; T or|* g#|;`.
fn push_deck(alloc: Global, deck: &mut String, text: &str) -> Result<(), Fail> {
    let Some((count, rule)) = text
        .strip_prefix('(')
        .and_then(|rest| rest.split_once(") "))
    else {
        deck.push_str(text)?;
        return Ok(());
    };
    let Ok(count) = count.parse::<usize>() else {
        return Err("a rule without a count".into());
    };
    push_parts(alloc, deck, rule, count)?;
    Ok(())
}

// ---- tables

// How the runs of a table are tried.
#[derive(Clone, Copy)]
pub(super) enum Trial {
    // Over a store of two to the power of so many slots, into a sink with so much room.
    Once(u32, usize),
    // Into sinks that fail wherever they can.
    Fronts,
}

// Each run in the store of most tests, with ample room.
pub(super) const ONCE: Trial = Trial::Once(BITS, SOUND.room);

fn check_line<R: Abort + Threads + Wait + Sync>(
    rt: &R,
    alloc: Global,
    trial: Trial,
    line: &str,
    deck: &[u8],
    due: &str,
) -> Result<(), Fail> {
    match trial {
        Trial::Once(bits, room) => {
            if bits < 10 || bits > 20 {
                return Err("no such store".into());
            }
            check_run_in(rt, alloc, bits, room, line, deck, due)
        }
        Trial::Fronts => check_fronts(rt, alloc, line, deck, due),
    }
}

fn check_lines<R: Abort + Threads + Wait + Sync>(
    rt: &R,
    alloc: Global,
    trial: Trial,
    lines: &str,
    deck: &[u8],
    due: &str,
) -> Result<(), Fail> {
    for line in lines.split(" | ") {
        check_line(rt, alloc, trial, line, deck, due)?;
    }
    Ok(())
}

// What a case consists of: its commands and its deck, and what is due.
fn parts_of(case: &str) -> Option<((&str, &str), &str)> {
    let (front, due) = case.split_once("\n=> ")?;
    Some((front.split_once('\n')?, due))
}

fn check_case<R: Abort + Threads + Wait + Sync>(
    rt: &R,
    alloc: Global,
    trial: Trial,
    case: &str,
) -> Result<(), Fail> {
    let ((lines, text), due) = parts_of(case).ok_or("a case out of form")?;
    let mut deck = String::new(alloc);
    push_deck(alloc, &mut deck, text)?;
    check_lines(rt, alloc, trial, lines, deck.as_bytes(), due)
}

fn check_count(rt: &impl Abort, cases: usize, count: usize) {
    assert_eq!(rt; cases, count);
}

// Checks the runs of a table of so many cases.
pub(super) fn check_table<R: Abort + Threads + Wait + Sync>(
    rt: &R,
    alloc: Global,
    trial: Trial,
    count: usize,
    table: &str,
) -> Result<(), Fail> {
    let mut cases = 0usize;
    for case in table.split("\n$ ") {
        if !case.is_empty() {
            check_case(rt, alloc, trial, case)?;
            cases = cases.saturating_add(1);
        }
    }
    check_count(rt, cases, count);
    Ok(())
}

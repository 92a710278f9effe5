//! Tables of texts, each put into a sink in memory with ample room, with less room, and where a call of the sink fails.
//!
//! A table is one text. Each of its cases begins with an order behind `$`: a line of words, and the deck over which
//! they put something, if they want one. What is put stands behind `=>`.
use crate::puts::put_ordered;
use edge_io::{CallList, KeptSink, NoMemory, Out};
use std::alloc::Global;
use std::process::Abort;
use std::test::Fail;
use std::thread::Threads;

// More room than any text takes.
const AMPLE: usize = 2_000;

// Puts what an order names into a sink: how this ended.
fn put_into<R: Threads + Sync>(
    rt: &R,
    alloc: Global,
    sink: &mut KeptSink,
    order: &str,
) -> Result<&'static str, Fail> {
    let mut out = Out::new(alloc, sink)?;
    let put = put_ordered(rt, alloc, &mut out, order);
    let end = out.finish();
    put?;
    Ok(if end.is_ok() { "done" } else { "fault" })
}

// A sink with so much room, which fails at one call, if any.
fn sink_of(alloc: Global, room: usize, failing: Option<u64>) -> Result<KeptSink, NoMemory> {
    let failing = match failing {
        None => CallList::new(alloc, &[])?,
        Some(call) => CallList::new(alloc, &[call])?,
    };
    KeptSink::new(alloc, room, failing)
}

// How it ended that an order was put into such a sink, and behind a blank what the sink took.
fn told<R: Threads + Sync>(
    rt: &R,
    alloc: Global,
    order: &str,
    room: usize,
    failing: Option<u64>,
) -> Result<String, Fail> {
    let mut sink = sink_of(alloc, room, failing)?;
    let end = put_into(rt, alloc, &mut sink, order)?;
    let Ok(taken) = str::from_utf8(sink.bytes()) else {
        return Err("what was written is no text".into());
    };
    Ok(format!(in alloc; "{end} {taken}")?)
}

// Whether this end is told, and so many bytes of a text.
fn is_front(got: &str, end: &str, text: &str, length: usize) -> bool {
    match got.split_once(' ') {
        Some((ended, taken)) => ended == end && taken.len() == length && text.starts_with(taken),
        None => false,
    }
}

fn check_told(rt: &impl Abort, order: &str, got: &str, end: &str, text: &str, length: usize) {
    assert!(rt;
        is_front(got, end, text, length),
        "{order}, {length} bytes of {text}: {got}"
    );
}

// What is put into such a sink ends so, and the sink took so many bytes of the text.
fn check_sink<R: Abort + Threads + Sync>(
    rt: &R,
    alloc: Global,
    order: &str,
    (room, failing): (usize, Option<u64>),
    end: &str,
    text: &str,
    length: usize,
) -> Result<(), Fail> {
    let got = told(rt, alloc, order, room, failing)?;
    check_told(rt, order, got.as_str(), end, text, length);
    Ok(())
}

// An order puts this text. With less room the sink has a front of it, and nothing where the write fails. Where the
// flush fails it has all of it.
fn check_case<R: Abort + Threads + Sync>(
    rt: &R,
    alloc: Global,
    order: &str,
    text: &str,
) -> Result<(), Fail> {
    let whole = text.len();
    for room in 0..whole {
        check_sink(rt, alloc, order, (room, None), "fault", text, room)?;
    }
    check_sink(rt, alloc, order, (whole, None), "done", text, whole)?;
    check_sink(rt, alloc, order, (AMPLE, None), "done", text, whole)?;
    check_sink(rt, alloc, order, (AMPLE, Some(0)), "fault", text, 0)?;
    check_sink(rt, alloc, order, (AMPLE, Some(1)), "fault", text, whole)
}

// What is printed is printed like this again.
fn check_again<R: Abort + Threads + Sync>(rt: &R, alloc: Global, text: &str) -> Result<(), Fail> {
    let order = format!(in alloc; "print\n{text}")?;
    check_case(rt, alloc, order.as_str(), text)
}

/// Checks the cases of a table.
pub(crate) fn check_table<R: Abort + Threads + Sync>(
    rt: &R,
    alloc: Global,
    table: &str,
) -> Result<(), Fail> {
    for case in table.split("\n$ ") {
        let (order, text) = case.split_once("\n=> ").ok_or("a case out of form")?;
        check_case(rt, alloc, order, text)?;
        if order.starts_with("print\n") {
            check_again(rt, alloc, text)?;
        }
    }
    Ok(())
}

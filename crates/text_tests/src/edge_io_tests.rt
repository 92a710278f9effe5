//! What no clause says: that calls succeed with ample memory, and where short texts, short sinks and faults lead.
ghost use Rattle.std.specs.Prelude.{◌≡◌, ◌≤◌, [], ◌++◌};
ghost use Rattle.edge_io.specs.Out.{Delivers};

use edge_io::{
    Buffer, Bytes, CallList, Free, HeldSource, INPUT_LIMIT, KeptSink, Out, Pace, ReadEnd, Sink,
    Source, StdSink, StdSource, WriteFault, read_all,
};
use std::alloc::{AllocError, Global};
use std::test::Fail;

const DECK: &[u8] = b"toplevel T; T and A B; A; B;";

const TEXT: &[u8] =
    b"tree: 2 units, 1 gates, top T\ncuts: 1, orders: 2\ncut 1: A B\n  A B\n  B A\n";

// What a caller knows of a sink, to which it put two texts.
fn put_both<K: Sink>(
    sink: &mut K,
    buffer: Buffer,
    first: &[u8],
    second: &[u8],
) -> Result<(), WriteFault>
    requires { buffer ≡ [] }
    ensures delivers { Delivers K.taken K.faults sink.old sink.new (first.now ++ second.now) result }
{
    let mut out = Out::over(sink, buffer);
    let _ = out.put(first);
    let _ = out.put(second);
    out.finish()
}

fn source_of(
    alloc: Global,
    bytes: &[u8],
    most: usize,
    failing: Option<u64>,
) -> Result<HeldSource, AllocError>
    requires { 1 ≤ most }
{
    let bytes = Bytes::of(alloc, bytes)?;
    let failing = calls_of(alloc, failing)?;
    Ok(HeldSource::new(bytes, most, failing))
}

fn calls_of(alloc: Global, failing: Option<u64>) -> Result<CallList, AllocError> {
    match failing {
        Some(call) => CallList::new(alloc, &[call]),
        None => CallList::new(alloc, &[]),
    }
}

// Whether the whole deck is read from a source.
fn is_read(alloc: Global, source: &mut HeldSource) -> Result<bool, Fail> {
    match read_all(alloc, source) {
        Ok(bytes) => Ok(bytes.as_slice() == DECK),
        Err(ReadEnd::ReadFault) => Ok(false),
        Err(_) => Err("no fault of reading".into()),
    }
}

// How many bytes the next read of one byte gives.
fn next_count(source: &mut HeldSource) -> Result<usize, Fail> {
    let mut next = [0u8; 1];
    Ok(source.read(&mut next).ok().ok_or("a second fault")?)
}

// How many bytes the next read gives after the one that failed, or none where the whole deck is read.
fn count_after(alloc: Global, source: &mut HeldSource) -> Result<Option<usize>, Fail> {
    if is_read(alloc, source)? {
        return Ok(None);
    }
    Ok(Some(next_count(source)?))
}

// The same where the deck is read byte by byte and one read fails.
fn count_with(alloc: Global, failing: u64) -> Result<Option<usize>, Fail> {
    let mut source = source_of(alloc, DECK, 1, Some(failing))?;
    count_after(alloc, &mut source)
}

// What the next read gives where this read fails of the deck's 28 bytes, or that which tells their end, or a later one.
fn due_with(failing: u64) -> Option<usize> {
    match failing {
        0..=27 => Some(1),
        28 => Some(0),
        _ => None,
    }
}

// No read comes after the one that failed: the next gives the byte that it would have given.
#[test]
fn reads_to_the_end_or_to_the_first_fault(rt: HostRuntime) -> Result<(), Fail> {
    for call in 0..30 {
        assert_eq!(rt; count_with(rt.alloc(), call)?, due_with(call), "at {call}");
    }
    Ok(())
}

// How many bytes are read from a source, or none where they are too many.
fn count_read(alloc: Global, source: &mut HeldSource) -> Result<Option<usize>, Fail> {
    match read_all(alloc, source) {
        Ok(bytes) => Ok(Some(bytes.as_slice().len())),
        Err(ReadEnd::TooLong) => Ok(None),
        Err(_) => Err("not too long".into()),
    }
}

// The same of so many blanks.
fn blanks_read(alloc: Global, count: usize) -> Result<Option<usize>, Fail> {
    let blanks = vec![in alloc; b' '; count]?;
    let none = calls_of(alloc, None)?;
    let mut source = HeldSource::new(Bytes::from_vec(blanks), usize::MAX, none);
    count_read(alloc, &mut source)
}

#[test]
fn reads_an_input_of_the_greatest_size(rt: HostRuntime) -> Result<(), Fail> {
    assert_eq!(rt; blanks_read(rt.alloc(), INPUT_LIMIT)?, Some(INPUT_LIMIT));
    assert_eq!(rt; blanks_read(rt.alloc(), INPUT_LIMIT + 1)?, None);
    Ok(())
}

// How many bytes of the text a sink takes, and whether it fails nowhere. What it takes is a front of the text.
fn put_text(alloc: Global, sink: &mut KeptSink) -> Result<(usize, bool), Fail> {
    let buffer = Buffer::new(alloc)?;
    let end = put_both(sink, buffer, TEXT, b"");
    if !TEXT.starts_with(sink.bytes()) {
        return Err("no front of the text".into());
    }
    Ok((sink.bytes().len(), end.is_ok()))
}

// The same of a sink with so much room, one call of which fails.
fn written(alloc: Global, room: usize, failing: Option<u64>) -> Result<(usize, bool), Fail> {
    let failing = calls_of(alloc, failing)?;
    let mut sink = KeptSink::new(alloc, room, failing)?;
    put_text(alloc, &mut sink)
}

#[test]
fn writes_what_fits(rt: HostRuntime) -> Result<(), Fail> {
    assert_eq!(rt; TEXT.len(), 72);
    for room in 0..73 {
        assert!(rt;
            written(rt.alloc(), room, None)? == (room, room == 72),
            "at {room}"
        );
    }
    Ok(())
}

// How many bytes a sink takes, one call of which fails, and whether it fails nowhere.
fn due_of(failing: u64) -> (usize, bool) {
    match failing {
        0 => (0, false),
        1 => (72, false),
        _ => (72, true),
    }
}

#[test]
fn writes_a_short_text_by_one_write_and_one_flush(rt: HostRuntime) -> Result<(), Fail> {
    for call in 0..3 {
        assert!(rt;
            written(rt.alloc(), 72, Some(call))? == due_of(call),
            "at {call}"
        );
    }
    Ok(())
}

// The bytes of pieces, one after another.
fn joined(alloc: Global, pieces: &[&[u8]]) -> Result<Vec<u8>, AllocError> {
    let mut all = Vec::new(alloc);
    for piece in pieces {
        all.extend_from_slice(piece)?;
    }
    Ok(all)
}

// Puts pieces one after another: whether no call failed.
fn put_pieces(alloc: Global, sink: &mut KeptSink, pieces: &[&[u8]]) -> Result<bool, Fail> {
    let mut out = Out::new(alloc, sink)?;
    for piece in pieces {
        let _ = out.put(piece);
    }
    Ok(out.finish().is_ok())
}

// Whether a sink with ample room has the pieces that are put.
fn are_kept(alloc: Global, pieces: &[&[u8]]) -> Result<bool, Fail> {
    let want = joined(alloc, pieces)?;
    let mut sink = KeptSink::new(alloc, 100_000, calls_of(alloc, None)?)?;
    Ok(put_pieces(alloc, &mut sink, pieces)? && sink.bytes() == want.as_slice())
}

// The same of texts of which some are as long as a buffer, and longer.
fn long_and_short_are_kept(alloc: Global, long: &[u8]) -> Result<bool, Fail> {
    let (Some(longer), Some(shorter)) = (long.get(..8_192), long.get(..8_191)) else {
        return Err("not long enough".into());
    };
    are_kept(alloc, &[TEXT, long, TEXT, longer, shorter, TEXT])
}

#[test]
fn writes_long_and_short_texts_in_order(rt: HostRuntime) -> Result<(), Fail> {
    let long = vec![in rt.alloc(); b'x'; 20_000]?;
    assert!(rt; long_and_short_are_kept(rt.alloc(), long.as_slice())?);
    Ok(())
}

// Whether the deck is read over a reader of std.
fn is_read_over_std(alloc: Global) -> bool {
    let mut source = StdSource::new(DECK);
    match read_all(alloc, &mut source) {
        Ok(bytes) => bytes.as_slice() == DECK,
        Err(_) => false,
    }
}

// Puts two texts over a writer of std: whether no call failed.
fn put_over_std(alloc: Global, kept: &mut Vec<u8>) -> Result<bool, AllocError> {
    let buffer = Buffer::new(alloc)?;
    let mut sink = StdSink::new(kept);
    let end = put_both(&mut sink, buffer, DECK, TEXT);
    Ok(end.is_ok() && sink.flush().is_ok())
}

// Whether the writer has both then.
fn is_written_over_std(alloc: Global) -> Result<bool, AllocError> {
    let mut kept = Vec::new(alloc);
    let put = put_over_std(alloc, &mut kept)?;
    let want = joined(alloc, &[DECK, TEXT])?;
    Ok(put && kept.as_slice() == want.as_slice())
}

#[test]
fn reads_and_writes_over_std(rt: HostRuntime) -> Result<(), Fail> {
    assert!(rt; is_read_over_std(rt.alloc()));
    assert!(rt; is_written_over_std(rt.alloc())?);
    Ok(())
}

// Whether a list of two bytes has them.
fn has_bytes(alloc: Global) -> Result<bool, AllocError> {
    let mut bytes = Bytes::new(alloc);
    bytes.push(b'a')?;
    bytes.push(b'b')?;
    Ok(bytes.as_slice() == b"ab".as_slice())
}

// Whether a list of three calls has them.
fn has_calls(alloc: Global) -> Result<bool, AllocError> {
    let calls = CallList::new(alloc, &[0, 7, u64::MAX])?;
    Ok(calls.as_slice() == [0, 7, u64::MAX].as_slice())
}

#[test]
fn lists_keep_what_they_are_given(rt: HostRuntime) -> Result<(), Fail> {
    assert!(rt; has_bytes(rt.alloc())? && has_calls(rt.alloc())?);
    pass(&Free);
    Ok(())
}

// Tells a pace of one piece of work.
fn pass<P: Pace>(pace: &P) {
    pace.before(0, 1);
    pace.after(0, 1);
}

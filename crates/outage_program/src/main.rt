//! The program: the words after its name, its standard input and output, and its exit status.
//!
//! It stands on `outage_engine` for all that it does, on `zdd_shared_table` for the store of the diagrams, on
//! `board_words` for the words, and on `edge_io` for the edge over the standard streams.
#![tactic(auto)]

use board_words::spoken_words;
use edge_io::{Sink, Source, StdSink, StdSource};
use outage_engine::{STORE_BITS, Status, Word, run, store_bits};
use std::alloc::Global;
use std::process::ExitCode;
use std::sync::Wait;
use std::thread::Threads;
use zdd_shared_table::{NodeStore, StoreStart};

// With the 24 bytes by which the C library marks an array, a large page.
const LARGE_PAGE: usize = 2_097_128;

fn main(rt: HostRuntime) -> ExitCode {
    let Ok(words) = spoken_words(&rt) else {
        return ExitCode::from(Status::NoMemory.code());
    };
    let status = status_of(
        &rt,
        rt.alloc(),
        words.as_slice(),
        &mut StdSource::new(rt.stdin()),
        &mut StdSink::new(rt.stdout()),
    );
    ExitCode::from(status.code())
}

// How the run of these words ends. It owns the store, and `main` the words: what a function owns is let go on each of
// its ways out.
fn status_of<R: Threads + Wait + Sync, S: Source, K: Sink>(
    rt: &R,
    alloc: Global,
    words: &[Word],
    source: &mut S,
    sink: &mut K,
) -> Status {
    let bits = store_bits(words);
    let above = room_above(alloc, bits);
    match NodeStore::new(alloc, bits) {
        Ok(StoreStart { store, mut seat }) => {
            drop(above);
            let status = run(rt, alloc, words, source, sink, &store, &mut seat);
            drop(seat);
            drop(store);
            status
        }
        Err(_) => Status::NoMemory,
    }
}

// Room that is taken before a large store and given back behind it. Of large arrays the system lets those begin with a
// large page whose length is a multiple of such pages, and puts the next array right below: so the store's slots fill
// large pages alone, where else a quarter of them would be filled page by small page, which takes longer than the rest.
// Without this room the run is the same.
fn room_above(alloc: Global, bits: u32) -> Option<Vec<u8>> {
    if bits < STORE_BITS {
        return None;
    }
    Vec::with_capacity(alloc, LARGE_PAGE).ok()
}

//! The program that draws: a fault tree as a picture in the DOT language, which Graphviz makes visible.
//!
//! It stands on `picture_engine` for all that it does, on `zdd_shared_table` for the store of the diagrams, on
//! `board_words` for the words, and on `edge_io` for the edge over the standard streams.
#![tactic(auto)]

use board_words::spoken_words;
use edge_io::{StdSink, StdSource};
use picture_engine::{PictureEnd, run, store_bits};
use std::process::ExitCode;
use zdd_shared_table::{NodeStore, StoreStart};

fn main(rt: HostRuntime) -> ExitCode {
    let Ok(words) = spoken_words(&rt) else {
        return ExitCode::from(PictureEnd::NoMemory.code());
    };
    let end = match NodeStore::new(rt.alloc(), store_bits(words.as_slice())) {
        Ok(StoreStart { store, mut seat }) => run(
            &rt,
            rt.alloc(),
            words.as_slice(),
            &mut StdSource::new(rt.stdin()),
            &mut StdSink::new(rt.stdout()),
            &mut StdSink::new(rt.stderr()),
            &store,
            &mut seat,
        ),
        Err(_) => PictureEnd::NoMemory,
    };
    ExitCode::from(end.code())
}

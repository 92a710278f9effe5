//! Trees with gates of all kinds that are drawn by numbers that look random.
use crate::trees::agrees;
use std::alloc::Global;
use std::process::Abort;
use std::test::Fail;
use std::thread::Threads;
use worked_trees::random_text;

// How many trees are tried.
const TREES: u64 = 60;

// Whether the cuts of a drawn tree are those of the list method.
fn drawn_agrees<R: Threads + Sync>(rt: &R, alloc: Global, seed: u64) -> Result<bool, Fail> {
    let text = random_text(alloc, "t", seed)?;
    agrees(rt, alloc, text.as_bytes())
}

#[test]
fn random_trees_have_the_cuts_of_the_list_method(rt: HostRuntime) -> Result<(), Fail> {
    for seed in 0..TREES {
        assert!(&rt; drawn_agrees(&rt, rt.alloc(), seed)?, "{seed}");
    }
    Ok(())
}

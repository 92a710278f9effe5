//! Trees with gates of all kinds that are drawn by numbers that look random, and a few by hand.
use crate::families::memory_of;
use crate::minimal_nodes_tests::families::{DEPTH, family_of, has_sets};
use cutset_lists::mcs_by_lists;
use fault_model::Tree;
use std::alloc::Global;
use std::process::Abort;
use std::test::Fail;
use unit_sets::CutList;
use worked_trees::{random_text, tree_of};

// How many trees are drawn.
const TREES: u64 = 40;

// Whether the cut family of the top event of a tree has these sets.
fn has_them(alloc: Global, tree: &Tree, cuts: &CutList) -> Result<bool, Fail> {
    let mut memory = memory_of(alloc, 65_536, 4_096)?;
    match family_of(alloc, &mut memory, tree, tree.top(), DEPTH)? {
        Some(family) => Ok(has_sets(&memory, family, cuts)),
        None => Ok(false),
    }
}

// Whether it has the sets of the list method.
fn agrees_on(alloc: Global, tree: &Tree) -> Result<bool, Fail> {
    let cuts = mcs_by_lists(alloc, tree)?;
    has_them(alloc, tree, &cuts)
}

fn agrees(alloc: Global, text: &str) -> Result<bool, Fail> {
    let tree = tree_of(alloc, text.as_bytes())?;
    agrees_on(alloc, &tree)
}

fn drawn_agrees(alloc: Global, top: &str, seed: u64) -> Result<bool, Fail> {
    let text = random_text(alloc, top, seed)?;
    agrees(alloc, text.as_str())
}

// The nodes of a drawn tree of which each is the top event once.
const TOPS: &str = "u0 u7 g0 g1 g2 g3 g4 g5 s";

fn compare<R: Abort>(rt: &R, alloc: Global, seed: u64) -> Result<(), Fail> {
    for top in TOPS.split(' ') {
        assert!(rt; drawn_agrees(alloc, top, seed)?, "{top} of {seed}");
    }
    Ok(())
}

#[test]
fn nodes_of_random_trees_have_the_sets_of_the_list_method(rt: HostRuntime) -> Result<(), Fail> {
    for seed in 0..TREES {
        compare(&rt, rt.alloc(), seed)?;
    }
    Ok(())
}

// A text in each line.
const TEXTS: &str = "\
toplevel T; T or A B C; A; B; C;
toplevel T; T and C A B; A; B; C;
toplevel T; T 2of3 C B A; A; B; C;
toplevel T; T 2of4 A B A C; A; B; C;
toplevel T; T por B A; A; B;
toplevel T; T pand B A; F fdep A B; A; B;
toplevel T; T seq B A C; A; B; C;
toplevel T; T wsp A B; A; B;
toplevel T; T hsp G C; G or A B; A; B; C;";

#[test]
fn each_kind_of_gate(rt: HostRuntime) -> Result<(), Fail> {
    for text in TEXTS.lines() {
        assert!(&rt; agrees(rt.alloc(), text)?, "{text}");
    }
    Ok(())
}

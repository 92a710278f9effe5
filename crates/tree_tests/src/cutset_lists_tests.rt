//! The cut lists of small trees, each set by the numbers of its units.
use cutset_lists::{ROOM, mcs_by_lists, mcs_within};
use fault_model::Tree;
use std::alloc::Global;
use std::test::Fail;
use unit_sets::{CutList, ListEnd};
use worked_trees::{sets_of, tree_of};

// The cut list of a tree, where the lists on the way have so many bytes, or as many as they have of themselves.
fn found(alloc: Global, tree: &Tree, bytes: Option<usize>) -> Result<CutList, ListEnd> {
    match bytes {
        Some(bytes) => mcs_within(alloc, tree, bytes),
        None => mcs_by_lists(alloc, tree),
    }
}

// Whether it has these sets, or there is no memory for it, as is said.
fn gives(alloc: Global, tree: &Tree, bytes: Option<usize>, wanted: &str) -> Result<bool, Fail> {
    match found(alloc, tree, bytes) {
        Ok(cuts) => Ok(sets_of(alloc, &cuts)?.as_str() == wanted),
        Err(end) => Ok(end == ListEnd::NoMemory && wanted == "no memory"),
    }
}

// The same of the text of a tree.
fn is_so(alloc: Global, text: &str, bytes: Option<usize>, wanted: &str) -> Result<bool, Fail> {
    let tree = tree_of(alloc, text.as_bytes())?;
    gives(alloc, &tree, bytes, wanted)
}

// Trees and their cut sets. In the first a set that includes another one is absorbed, and in the third an input that
// stands twice counts twice. The gates G and H of the last have so many inputs in common that sets which include one
// of the other gate are split off: X has B within it, and Y has A.
const TREES: &str = "\
toplevel T; T or A G; G and A B; A; B;|1
toplevel T; T 2of3 A B C; G 2of3 A A B; A; B; C;|1 2, 1 3, 2 3
toplevel T; T or G; G 2of3 A A B; A; B;|1
toplevel T; T pand A B; F fdep X A B; A; B; X;|3, 1 2
toplevel T; T csp P S; F fdep X S; P; S; X;|1 2, 1 3
toplevel T; T and G B; G por A B; A; B;|1 2
toplevel T; T and G H; X and B C; Y and A D; \
G or A X s1 s2 s3 s4 s5 s6 s7 s8 s9 s10 s11 s12 s13 s14 s15; \
H or B E Y s1 s2 s3 s4 s5 s6 s7 s8 s9 s10 s11 s12 s13 s14 s15; \
A; B; C; D; E; s1; s2; s3; s4; s5; s6; s7; s8; s9; s10; s11; s12; s13; s14; s15;|\
6, 7, 8, 9, 10, 11, 12, 13, 14, 15, 16, 17, 18, 19, 20, 1 2, 1 4, 1 5, 2 3";

#[test]
fn cut_lists_of_small_trees(rt: HostRuntime) -> Result<(), Fail> {
    for row in TREES.lines() {
        let (text, wanted) = row.split_once('|').ok_or("a row out of form")?;
        assert!(rt; is_so(rt.alloc(), text, None, wanted)?, "{row}");
    }
    Ok(())
}

// One of two units of each of five gates. The list of the top event takes 576 bytes, and those of the gates some more.
const WAYS: &str = "\
toplevel T; T and G H I J K; G or a b; H or c d; I or e f; J or g h; K or i j; \
a; b; c; d; e; f; g; h; i; j;";

const SETS_OF_WAYS: &str = "\
1 3 5 7 9, 1 3 5 7 10, 1 3 5 8 9, 1 3 5 8 10, 1 3 6 7 9, 1 3 6 7 10, 1 3 6 8 9, 1 3 6 8 10, \
1 4 5 7 9, 1 4 5 7 10, 1 4 5 8 9, 1 4 5 8 10, 1 4 6 7 9, 1 4 6 7 10, 1 4 6 8 9, 1 4 6 8 10, \
2 3 5 7 9, 2 3 5 7 10, 2 3 5 8 9, 2 3 5 8 10, 2 3 6 7 9, 2 3 6 7 10, 2 3 6 8 9, 2 3 6 8 10, \
2 4 5 7 9, 2 4 5 7 10, 2 4 5 8 9, 2 4 5 8 10, 2 4 6 7 9, 2 4 6 7 10, 2 4 6 8 9, 2 4 6 8 10";

#[test]
fn lists_that_outgrow_their_room_end_for_want_of_memory(rt: HostRuntime) -> Result<(), Fail> {
    for bytes in [0, 100, 500] {
        assert!(rt;
            is_so(rt.alloc(), WAYS, Some(bytes), "no memory")?,
            "{bytes}"
        );
    }
    Ok(())
}

#[test]
fn lists_within_their_room_are_found(rt: HostRuntime) -> Result<(), Fail> {
    assert!(rt; is_so(rt.alloc(), WAYS, Some(16_384), SETS_OF_WAYS)?);
    assert!(rt; is_so(rt.alloc(), WAYS, Some(ROOM), SETS_OF_WAYS)?);
    assert!(rt; is_so(rt.alloc(), WAYS, None, SETS_OF_WAYS)?);
    Ok(())
}

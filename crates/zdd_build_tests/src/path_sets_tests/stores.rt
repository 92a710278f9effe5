//! Path lists from stores that are full.
use fault_model::Tree;
use path_sets::{PathEnd, path_list};
use std::alloc::Global;
use std::process::Abort;
use std::test::Fail;
use unit_sets::CutList;
use worked_stores::store_with;
use worked_trees::tree_of;
use zdd_shared_table::StoreStart;

// Whether a store was full: its end is that, or a list.
fn is_full(end: Result<CutList, PathEnd>) -> Result<bool, Fail> {
    match end {
        Ok(_) => Ok(false),
        Err(PathEnd::Full) => Ok(true),
        Err(PathEnd::ListLimit) => Err("the list is too heavy".into()),
        Err(PathEnd::NoMemory) => Err("no memory".into()),
    }
}

// Whether the paths of a tree fill a store of 2^10 slots of which so many are left.
fn fills(alloc: Global, tree: &Tree, left: u16) -> Result<bool, Fail> {
    let StoreStart { store, mut seat } = store_with(alloc, left)?;
    let end = path_list(alloc, tree, &store, &mut seat);
    drop(seat);
    drop(store);
    is_full(end)
}

// The same of the paths of two of three.
fn two_of_three_fill(alloc: Global, left: u16) -> Result<bool, Fail> {
    let tree = tree_of(alloc, b"toplevel T; T 2of3 A B C; A; B; C;")?;
    let end = fills(alloc, &tree, left);
    drop(tree);
    end
}

#[test]
fn a_full_store_has_no_room_for_paths(rt: HostRuntime) -> Result<(), Fail> {
    assert!(&rt; two_of_three_fill(rt.alloc(), 0)?);
    assert!(&rt; !two_of_three_fill(rt.alloc(), 100)?);
    Ok(())
}

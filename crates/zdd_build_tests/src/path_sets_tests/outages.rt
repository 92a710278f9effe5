//! Which path set is whole while units are out.
ghost use Rattle.path_sets.specs.Paths.{IsPathList};

use crate::path_sets_tests::lists::{SYSTEM, paths_of};
use fault_model::{Scratch, Tree, eval_static};
use path_sets::whole_path;
use std::alloc::Global;
use std::process::Abort;
use std::test::Fail;
use unit_sets::{CutList, UnitNo, UnitSet};
use worked_trees::tree_of;

// How many units the system has.
const UNITS: u16 = 11;

fn insert_units(set: &mut UnitSet, bits: u16) -> Result<(), Fail> {
    for place in 0..UNITS {
        if bits >> place & 1 == 1 {
            set.insert(UnitNo::new(place + 1).ok_or("no unit")?);
        }
    }
    Ok(())
}

// The set of the units whose bits a number has: the lowest bit is that of unit 1.
fn units_in(alloc: Global, bits: u16) -> Result<UnitSet, Fail> {
    let mut set = UnitSet::new(alloc)?;
    insert_units(&mut set, bits)?;
    Ok(set)
}

fn whole_in_tree(alloc: Global, tree: &Tree, out: &UnitSet) -> Result<Option<usize>, Fail> {
    let paths = paths_of(alloc, tree)?;
    let whole = whole_path(tree, &paths, out);
    drop(paths);
    Ok(whole)
}

// The place of the first path of the system that is whole while such units are out.
fn whole_in_system(alloc: Global, bits: u16) -> Result<Option<usize>, Fail> {
    let out = units_in(alloc, bits)?;
    let tree = tree_of(alloc, SYSTEM.as_bytes())?;
    let whole = whole_in_tree(alloc, &tree, &out);
    drop(tree);
    whole
}

#[test]
fn the_other_processor_and_motor_serve(rt: HostRuntime) -> Result<(), Fail> {
    // P and MA are out: B CS SS MS MB PA is the first of the last four paths.
    assert_eq!(&rt; whole_in_system(rt.alloc(), 0b100001)?, Some(12));
    // P and B are out.
    assert_eq!(&rt; whole_in_system(rt.alloc(), 0b11)?, None);
    Ok(())
}

fn fails(alloc: Global, tree: &Tree, out: &UnitSet) -> Result<bool, Fail> {
    let mut scratch = Scratch::new(alloc, tree)?;
    Ok(eval_static(tree, &mut scratch, tree.top(), out))
}

// Whether there is no whole path exactly where the top event fails.
fn agrees(alloc: Global, tree: &Tree, paths: &CutList, bits: u16) -> Result<bool, Fail>
    requires { IsPathList tree.now paths.now }
{
    let out = units_in(alloc, bits)?;
    let is_none = whole_path(tree, paths, &out).is_none();
    Ok(is_none == fails(alloc, tree, &out)?)
}

// Whether it is so for each set of units of the system.
fn all_agree(alloc: Global, tree: &Tree, paths: &CutList) -> Result<bool, Fail>
    requires { IsPathList tree.now paths.now }
{
    for bits in 0..1u16 << UNITS {
        if !agrees(alloc, tree, paths, bits)? {
            return Ok(false);
        }
    }
    Ok(true)
}

fn all_agree_in(alloc: Global, tree: &Tree) -> Result<bool, Fail> {
    let paths = paths_of(alloc, tree)?;
    let all = all_agree(alloc, tree, &paths);
    drop(paths);
    all
}

fn all_agree_in_system(alloc: Global) -> Result<bool, Fail> {
    let tree = tree_of(alloc, SYSTEM.as_bytes())?;
    let all = all_agree_in(alloc, &tree);
    drop(tree);
    all
}

#[test]
fn no_path_is_whole_exactly_where_the_system_fails(rt: HostRuntime) -> Result<(), Fail> {
    assert!(&rt; all_agree_in_system(rt.alloc())?);
    Ok(())
}

//! Units, sets and lists, each once.
ghost use Rattle.std.specs.Prelude.{◌≡◌, ◌<◌, []};

use flat_rows::Rows;
use std::alloc::Global;
use std::cmp::Ordering;
use std::test::Fail;
use unit_sets::{CutList, PushEnd, UnitNo, UnitSet, compare_cuts};

fn unit(number: u16) -> Result<UnitNo, Fail> {
    Ok(UnitNo::new(number).ok_or("no unit")?)
}

#[test]
fn only_1_to_4095_are_units(rt: HostRuntime) {
    for number in [1, 4095] {
        assert!(rt; UnitNo::new(number).is_some(), "at {number}");
    }
    for number in [0, 4096, 65535] {
        assert!(rt; UnitNo::new(number).is_none(), "at {number}");
    }
}

// Whether a unit comes into a set once, and goes out of it once. It stays in another, which has all that were in.
fn comes_and_goes(set: &mut UnitSet, other: &mut UnitSet, unit: UnitNo) -> bool {
    let comes = set.insert(unit) && !set.insert(unit) && set.contains(unit);
    let alone = !set.subset(other) && set.count_without(other) == 1;
    let both = other.insert(unit) && set.subset(other);
    let goes = set.remove(unit) && !set.remove(unit) && !set.contains(unit);
    comes && alone && both && goes && set.subset(other)
}

// How many units of these come and go, up to one that does not.
fn count_in(set: &mut UnitSet, other: &mut UnitSet, numbers: &[u16]) -> Result<usize, Fail> {
    let mut count = 0usize;
    for number in numbers {
        if !comes_and_goes(set, other, unit(*number)?) {
            break;
        }
        count = count.saturating_add(1);
    }
    Ok(count)
}

// How many units of these come and go, and how many are then in the other set alone, and in the first.
fn counted(alloc: Global, numbers: &[u16]) -> Result<(usize, u32, u32), Fail> {
    let mut set = UnitSet::new(alloc)?;
    let mut other = UnitSet::new(alloc)?;
    let count = count_in(&mut set, &mut other, numbers)?;
    Ok((count, other.count_without(&set), set.count_without(&other)))
}

#[test]
fn a_unit_set_has_what_was_put_in(rt: HostRuntime) -> Result<(), Fail> {
    assert_eq!(rt; counted(rt.alloc(), &[1, 63, 64, 65, 4095])?, (5, 5, 0));
    Ok(())
}

#[test]
fn cut_sets_go_by_size_and_then_by_units(rt: HostRuntime) -> Result<(), Fail> {
    let a = unit(1)?;
    let b = unit(2)?;
    let c = unit(3)?;
    assert_eq!(rt; compare_cuts(&[c], &[a, b]), Ordering::Less);
    assert_eq!(rt; compare_cuts(&[a, c], &[a, b]), Ordering::Greater);
    assert_eq!(rt; compare_cuts(&[a, c], &[b, c]), Ordering::Less);
    assert_eq!(rt; compare_cuts(&[a, c], &[a, c]), Ordering::Equal);
    Ok(())
}

// Pushes the set of one unit, and that of two.
fn push_two(cuts: &mut CutList, a: UnitNo, b: UnitNo) -> Result<(), PushEnd>
    requires none { cuts.old ≡ [] }
    requires rising { a < b }
{
    cuts.push(&[a])?;
    cuts.push(&[a, b])
}

// Pushes the first set, and appends the second.
fn append_second(
    cuts: &mut CutList,
    pair: &mut Rows<UnitNo>,
    a: UnitNo,
    b: UnitNo,
) -> Result<(), Fail>
    requires none { cuts.old ≡ [] }
    requires empty { pair.old ≡ [] }
    requires rising { a < b }
{
    pair.push(&[a, b])?;
    cuts.push(&[a])?;
    cuts.append(pair)?;
    Ok(())
}

// Whether a list has both sets.
fn has_both(cuts: &CutList, a: UnitNo, b: UnitNo) -> bool {
    cuts.len() == 2
        && cuts.weight() == 5
        && cuts.members(0) == [a].as_slice()
        && cuts.members(1) == [a, b].as_slice()
}

// Whether a copy of a list has both sets.
fn copy_has_both(cuts: &CutList, a: UnitNo, b: UnitNo) -> Result<bool, Fail> {
    let copy = cuts.clone()?;
    Ok(has_both(&copy, a, b))
}

// Whether a list is empty at first, and a copy of it has both sets that are then pushed.
fn pushed(alloc: Global, a: UnitNo, b: UnitNo) -> Result<bool, Fail>
    requires { a < b }
{
    let mut cuts = CutList::new(alloc);
    let empty = cuts.len() == 0 && cuts.weight() == 0;
    push_two(&mut cuts, a, b)?;
    Ok(empty && copy_has_both(&cuts, a, b)?)
}

fn appended(alloc: Global, a: UnitNo, b: UnitNo) -> Result<bool, Fail>
    requires { a < b }
{
    let mut cuts = CutList::new(alloc);
    let mut pair = Rows::new(alloc);
    append_second(&mut cuts, &mut pair, a, b)?;
    Ok(has_both(&cuts, a, b))
}

#[test]
fn a_cut_list_gives_back_its_sets(rt: HostRuntime) -> Result<(), Fail> {
    let a = unit(1)?;
    let b = unit(2)?;
    if a < b {
        assert!(rt; pushed(rt.alloc(), a, b)?);
        assert!(rt; appended(rt.alloc(), a, b)?);
        return Ok(());
    }
    Err("units fall".into())
}

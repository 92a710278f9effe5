//! The orders of the cut sets of small trees, by the numbers of the units.
ghost use Rattle.std.specs.Prelude.{◌<◌, length};

use cut_sequences::{OrderLists, orders};
use fault_model::Tree;
use std::alloc::Global;
use std::test::Fail;
use std::thread::Threads;
use worked_trees::{cuts_of, numbers_of, tree_of};

// The part of a row at a place.
fn part(row: &str, place: usize) -> &str {
    row.split('|').nth(place).unwrap_or("")
}

// The orders of the cut sets of a tree, of those with at most `most` members.
fn orders_over<R: Threads + Sync>(
    rt: &R,
    alloc: Global,
    tree: &Tree,
    most: u32,
    workers: u32,
) -> Result<OrderLists, Fail> {
    if most > 8 || workers < 1 || workers > 16 {
        return Err("a number out of bounds".into());
    }
    let cuts = cuts_of(alloc, tree)?;
    Ok(orders(rt, alloc, tree, &cuts, most, workers)?)
}

// The orders of the set at a place, each in brackets, or that it is not listed.
fn write_set(alloc: Global, text: &mut String, lists: &OrderLists, i: usize) -> Result<(), Fail>
    requires { i < length lists.now }
{
    if !lists.listed(i) {
        text.push_str(" not listed")?;
        return Ok(());
    }
    for j in 0..lists.count(i) {
        let order = numbers_of(alloc, lists.order(i, j))?;
        text.push_str(format!(in alloc; " ({order})")?.as_str())?;
    }
    Ok(())
}

// How many orders there are, and then the orders of each set.
fn shown(alloc: Global, lists: &OrderLists) -> Result<String, Fail> {
    let total = lists.total();
    let mut text = format!(in alloc; "{total}")?;
    for i in 0..lists.sets() {
        text.push(';')?;
        write_set(alloc, &mut text, lists, i)?;
    }
    Ok(text)
}

// What is shown of the orders of a tree, with the numbers of a row.
fn shown_over<R: Threads + Sync>(
    rt: &R,
    alloc: Global,
    tree: &Tree,
    row: &str,
) -> Result<String, Fail> {
    let most = part(row, 1).parse::<u32>()?;
    let workers = part(row, 2).parse::<u32>()?;
    let lists = orders_over(rt, alloc, tree, most, workers)?;
    shown(alloc, &lists)
}

fn told<R: Threads + Sync>(rt: &R, alloc: Global, row: &str) -> Result<String, Fail> {
    let tree = tree_of(alloc, part(row, 0).as_bytes())?;
    shown_over(rt, alloc, &tree, row)
}

// A tree, how many members a set may have, how many workers there are, and what is shown. A spare that a trigger fails
// still cannot be chosen to fail before its primary.
const ROWS: &str = "\
toplevel T; T pand A B; F or A B; A; B;|2|1|1; (1 2)
toplevel T; T pand A B; F or A B; A; B;|1|1|0; not listed
toplevel T; T pand A B; S seq B A; A; B;|2|1|0;
toplevel T; T csp P S; F fdep X S; P; S; X;|8|1|3; (1 2); (1 3) (3 1)
toplevel T; T csp P S; F fdep X S; P; S; X;|8|2|3; (1 2); (1 3) (3 1)
toplevel T; T csp P S; F fdep X S; P; S; X;|8|16|3; (1 2); (1 3) (3 1)";

#[test]
fn orders_of_cut_sets(rt: HostRuntime) -> Result<(), Fail> {
    for row in ROWS.lines() {
        assert_eq!(&rt; told(&rt, rt.alloc(), row)?.as_str(), part(row, 3), "{row}");
    }
    Ok(())
}

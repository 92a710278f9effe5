//! Graphs with cycles and without.
use flat_rows::Rows;
use graph_cycles::{Survey, find_cycles, is_graph};
use std::alloc::{AllocError, Global};
use std::test::Fail;

// Adds the digits of a text as a row.
fn push_row(alloc: Global, graph: &mut Rows<usize>, digits: &str) -> Result<(), AllocError> {
    let mut row = Vec::new(alloc);
    for digit in digits.as_bytes() {
        row.push(usize::from(digit.wrapping_sub(b'0')))?;
    }
    graph.push(row.as_slice())
}

fn push_rows(alloc: Global, graph: &mut Rows<usize>, rows: &str) -> Result<(), AllocError> {
    for digits in rows.split('|') {
        push_row(alloc, graph, digits)?;
    }
    Ok(())
}

fn push_marks(told: &mut String, marks: &[bool]) -> Result<(), AllocError> {
    for mark in marks {
        told.push(if *mark { 'c' } else { '-' })?;
    }
    Ok(())
}

fn push_numbers(alloc: Global, told: &mut String, numbers: &[usize]) -> Result<(), AllocError> {
    for number in numbers {
        told.push_str(format!(in alloc; " {number}")?.as_str())?;
    }
    Ok(())
}

// For each node `c` where it lies on a cycle and `-` where not, and then the ranks and the order.
fn told(alloc: Global, found: &Survey) -> Result<String, AllocError> {
    let mut told = String::new(alloc);
    push_marks(&mut told, found.on_cycle.as_slice())?;
    push_numbers(alloc, &mut told, found.ranks.as_slice())?;
    told.push_str(" in the order")?;
    push_numbers(alloc, &mut told, found.order.as_slice())?;
    Ok(told)
}

fn told_of(alloc: Global, graph: &Rows<usize>) -> Result<String, Fail> {
    if !is_graph(graph) {
        return Err("a successor is no node".into());
    }
    let found = find_cycles(alloc, graph)?;
    Ok(told(alloc, &found)?)
}

fn told_of_rows(alloc: Global, rows: &str) -> Result<String, Fail> {
    let mut graph = Rows::new(alloc);
    push_rows(alloc, &mut graph, rows)?;
    told_of(alloc, &graph)
}

// The successors of each node, and how what is told begins: a chain, and two cycles with a bridge between them, which
// lies on none.
const GRAPHS: &str = "\
12|2|>--- 2 1 0 in the order 2 1 0
1|02|3|4|3|5>cc-ccc ";

#[test]
fn graphs_have_their_cycles_ranks_and_order(rt: HostRuntime) -> Result<(), Fail> {
    for graph in GRAPHS.lines() {
        let (rows, due) = graph.split_once('>').ok_or("a graph out of form")?;
        let told = told_of_rows(rt.alloc(), rows)?;
        assert!(rt; told.as_str().starts_with(due), "{rows}: {told}");
    }
    Ok(())
}

//! Definitions that lead to themselves.
ghost use Rattle.std.specs.Prelude.{◌≡◌, ◌+◌, ◌<◌, ◌++◌, [], length, map, false, All, IfOk, IfErr, OnOk};
ghost use Rattle.std.specs.Prelude.{slice_index_or};
ghost use Rattle.tree_check.specs.Said.{definitions, names};
ghost use Rattle.tree_check.specs.Found.{IsCycleFault};
ghost use Rattle.tree_check.specs.Checked.{places};
ghost use Rattle.tree_check.specs.Classes.{first};
ghost use Rattle.tree_check.specs.Examined.{AreParts, read_of};
ghost use Rattle.tree_check.specs.Marked.{marked_places};
ghost use Rattle.tree_check.specs.TreeOf.{numbers, input_lists, HasNoCycle, HasRanks, IsSurveyed};
ghost use Rattle.tree_check.specs.Numbered.{kinds, kept_inputs};
ghost use Rattle.tree_check.specs.Triggers.{Notes, AddsTriggers, HasTriggers, HasUnitDependents, IsGraphOf};
ghost use Rattle.tree_check.specs.Triggers.{dependents_of, written_gate};

use crate::gates::{drops_fdeps, is_fdep};
use crate::naming::definition;
use crate::numbered::{Numbered, NumberedGate, Parts};
use crate::{CheckCode, CheckFault};
use fault_words::{GateKind, Place};
use flat_rows::{GrowingList, Rows, empty_lists};
use galileo_tree::Statement;
use graph_cycles::{Survey, find_cycles};
use name_index::NameIndex;
use std::alloc::{AllocError, Global};

/// Numbers of nodes.
type NumberRow = GrowingList<usize>;

/// Notes a trigger at each of its dependents.
fn note(
    table: &mut Vec<NumberRow>,
    trigger: usize,
    dependents: &[Numbered],
) -> Result<(), AllocError>
    requires { All (λ dependent. dependent.number < length table.old.items) dependents.now }
    ensures { OnOk result (Notes trigger (numbers dependents.now) table.old.items table.new.items) }
{
    for dependent in dependents {
        table[dependent.number].push(trigger)?;
    }
    Ok(())
}

/// Notes what a gate triggers.
fn note_gate(table: &mut Vec<NumberRow>, gate: &NumberedGate) -> Result<(), AllocError>
    requires { All (λ dependent. dependent.number < length table.old.items) (dependents_of gate.now) }
    ensures { OnOk result (AddsTriggers (written_gate gate.now) table.old.items table.new.items) }
{
    match (gate.kind, gate.inputs.as_slice()) {
        (GateKind::Fdep, [trigger, dependents @ ..]) => note(table, trigger.number, dependents),
        _ => Ok(()),
    }
}

/// The triggers of each unit, in the row of its number.
fn trigger_table(
    alloc: Global,
    units: usize,
    gates: &[NumberedGate],
) -> Result<Vec<NumberRow>, AllocError>
    requires units { HasUnitDependents units gates.now }
    requires small { units + 1 < 18446744073709551616 }
    ensures { IfOk result (λ table. HasTriggers units (map written_gate gates.now) table.items) }
{
    let mut table = empty_lists(alloc, units + 1)?;
    for gate in gates {
        note_gate(&mut table, gate)?;
    }
    Ok(table)
}

/// The numbers of the inputs of a gate that are left after dropping, in a buffer.
fn keep_inputs(
    row: &mut Vec<usize>,
    units: usize,
    gates: &[NumberedGate],
    gate: &NumberedGate,
) -> Result<(), AllocError>
    ensures { OnOk result (row.new.items ≡ numbers (kept_inputs units (kinds gates.now) gate.now)) }
{
    row.clear();
    let drops = drops_fdeps(gate.kind);
    for input in gate.inputs.as_slice() {
        if !(drops && is_fdep(units, gates, input.number)) {
            row.push(input.number)?;
        }
    }
    Ok(())
}

fn add_units(graph: &mut Rows<usize>, table: &[NumberRow]) -> Result<(), AllocError>
    ensures { OnOk result (graph.new ≡ graph.old ++ table.now) }
{
    for row in table {
        graph.push(row.as_slice())?;
    }
    Ok(())
}

fn add_gates(
    alloc: Global,
    graph: &mut Rows<usize>,
    units: usize,
    gates: &[NumberedGate],
) -> Result<(), AllocError>
    ensures { OnOk result (graph.new ≡ graph.old ++ input_lists units gates.now) }
{
    let mut row = Vec::new(alloc);
    for gate in gates {
        keep_inputs(&mut row, units, gates, gate)?;
        graph.push(&row)?;
    }
    Ok(())
}

/// What each node reads, in the row of its number.
fn graph_of(alloc: Global, units: usize, gates: &[NumberedGate]) -> Result<Rows<usize>, AllocError>
    requires units { HasUnitDependents units gates.now }
    requires small { units + 1 < 18446744073709551616 }
    ensures { IfOk result (IsGraphOf units gates.now) }
{
    let table = trigger_table(alloc, units, gates)?;
    let mut graph = Rows::new(alloc);
    add_units(&mut graph, &table)?;
    add_gates(alloc, &mut graph, units, gates)?;
    Ok(graph)
}

/// The first definition of the text whose number is marked. Mostly none is, and then no name is looked up.
fn first_marked(index: &NameIndex<'_>, marks: &[bool], statements: &[Statement]) -> Option<Place>
    ensures { result ≡ first (marked_places marks.now index.now (definitions statements.now)) }
{
    if !marks.contains(&true) {
        return None;
    }
    for statement in statements {
        if let Some(definition) = definition(statement) {
            if is_marked(marks, index.number(&definition.name)) {
                return Some(definition.place);
            }
        }
    }
    None
}

fn is_marked(marks: &[bool], number: usize) -> bool
    ensures { result ≡ slice_index_or marks.now number false }
{
    marks.get(number).copied().unwrap_or(false)
}

/// Which nodes lead to themselves, and the ranks of the nodes where none does.
fn survey(alloc: Global, parts: Parts<'_>) -> Result<Survey, AllocError>
    requires parts { AreParts parts }
    requires dependents { places (read_of parts) CheckCode.DependentGate ≡ [] }
    ensures { IfOk result (λ s. IsSurveyed parts.entry.statements.now s.on_cycle.items s.ranks.items) }
{
    let graph = graph_of(alloc, parts.units, parts.gates)?;
    let survey = find_cycles(alloc, &graph);
    drop(graph);
    survey
}

/// The class of definitions that lead to themselves. Where there is none the nodes have ranks.
pub(crate) fn check_cycles(
    alloc: Global,
    index: &NameIndex<'_>,
    parts: Parts<'_>,
) -> Result<(), CheckFault>
    requires names { index.now ≡ names parts.statements.now }
    requires parts { AreParts parts }
    requires dependents { places (read_of parts) CheckCode.DependentGate ≡ [] }
    ensures acyclic { OnOk result (HasNoCycle parts.entry.statements.now) }
    ensures ranks { OnOk result (HasRanks parts.entry.statements.now) }
    ensures fault { IfErr result (IsCycleFault parts.entry.statements.now) }
{
    let survey = survey(alloc, parts)?;
    let marked = first_marked(index, &survey.on_cycle, parts.statements);
    drop(survey);
    match marked {
        Some(place) => Err(CheckFault::Fault(CheckCode::Cycle, place)),
        None => Ok(()),
    }
}

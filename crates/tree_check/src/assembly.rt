//! The parts of the tree that statements stand for, once no fault is found.
ghost use Rattle.std.specs.Prelude.{◌≡◌, ◌+◌, ◌≤◌, ◌++◌, ℕ, List, length, All, IfOk, OnOk};
ghost use Rattle.unit_sets.specs.Unit.{most_units};
ghost use Rattle.fault_definitions.specs.Tree.{ranked};
ghost use Rattle.tree_check.specs.Said.{names};
ghost use Rattle.tree_check.specs.Numbered.{kinds, kept_inputs};
ghost use Rattle.tree_check.specs.Numbering.{IsDeckOf};
ghost use Rattle.tree_check.specs.SpareTable.{AreWithin};
ghost use Rattle.tree_check.specs.TreeOf.{tree_of, numbers, input_lists, first_number};
ghost use Rattle.tree_check.specs.Assembling.{attributes_in, Takes, IsTakenOf};

use crate::gates::{drops_fdeps, is_fdep};
use crate::numbered::{Numbered, NumberedGate, NumberedText};
use fault_model::{
    AttributeList, AttributeLists, InputLists, KindList, MOST_GATES, Name, NameTable, NoMemory,
    NodeList, NodeNo, TreeParts,
};
use galileo_tree::{RawAttributes, RawBasic, RawGate, Statement};
use std::alloc::Global;

/// What is moved out of statements: the names of the basic events and of the gates, and the attributes.
#[derive(Drop)]
struct Taken {
    units: Vec<Name>,
    gates: Vec<Name>,
    attributes: Vec<AttributeList>,
}

fn attributes_of(alloc: Global, raws: RawAttributes) -> Result<AttributeList, NoMemory>
    ensures { IfOk result (λ list. list ≡ attributes_in raws) }
{
    let mut list = AttributeList::new(alloc);
    for raw in raws.into_items() {
        list.push(raw.attribute)?;
    }
    Ok(list)
}

impl Taken {
    /// Takes what one statement holds.
    fn take(&mut self, alloc: Global, statement: Statement) -> Result<(), NoMemory>
        ensures { OnOk result (Takes statement self.old self.new) }
    {
        match statement {
            Statement::Top(_top) => Ok(()),
            Statement::Gate(gate) => self.take_gate(gate),
            Statement::Basic(basic) => self.take_basic(alloc, basic),
        }
    }

    fn take_gate(&mut self, gate: RawGate) -> Result<(), NoMemory>
        ensures { OnOk result (Takes (Statement.Gate gate) self.old self.new) }
    {
        self.gates.push(gate.name.name)?;
        Ok(())
    }

    fn take_basic(&mut self, alloc: Global, basic: RawBasic) -> Result<(), NoMemory>
        ensures { OnOk result (Takes (Statement.Basic basic) self.old self.new) }
    {
        self.units.push(basic.name.name)?;
        let attributes = attributes_of(alloc, basic.attributes)?;
        self.attributes.push(attributes)?;
        Ok(())
    }
}

fn take_all(alloc: Global, statements: Vec<Statement>) -> Result<Taken, NoMemory>
    ensures { IfOk result (IsTakenOf statements.items) }
{
    let mut taken = Taken {
        units: Vec::new(alloc),
        gates: Vec::new(alloc),
        attributes: Vec::new(alloc),
    };
    for statement in statements {
        taken.take(alloc, statement)?;
    }
    Ok(taken)
}

/// The names of the units, then those of the gates.
fn joined(units: Vec<Name>, gates: Vec<Name>) -> Result<NameTable, NoMemory>
    ensures { IfOk result (λ table. table ≡ units.items ++ gates.items) }
{
    let mut names = units;
    let mut gates = gates;
    names.append(&mut gates)?;
    Ok(NameTable::from_items(names))
}

fn kinds_of(alloc: Global, gates: &[NumberedGate]) -> Result<KindList, NoMemory>
    ensures { IfOk result (λ list. list ≡ kinds gates.now) }
{
    let mut list = KindList::new(alloc);
    for gate in gates {
        list.push(gate.kind)?;
    }
    Ok(list)
}

/// The inputs of a gate that are left after dropping.
fn kept_inputs(
    alloc: Global,
    units: usize,
    gates: &[NumberedGate],
    gate: &NumberedGate,
) -> Result<NodeList, NoMemory>
    requires { All (λ input. input.number ≤ u32.MAX) gate.now.inputs }
    ensures { IfOk result (λ list. list ≡ numbers (kept_inputs units (kinds gates.now) gate.now)) }
{
    let drops = drops_fdeps(gate.kind);
    let mut list = NodeList::new(alloc);
    for input in gate.inputs.as_slice() {
        if !(drops && is_fdep(units, gates, input.number)) {
            list.push(NodeNo(input.number as u32))?;
        }
    }
    Ok(list)
}

fn input_lists(alloc: Global, units: usize, gates: &[NumberedGate]) -> Result<InputLists, NoMemory>
    requires { AreWithin u32.MAX gates.now }
    ensures { IfOk result (λ lists. lists ≡ input_lists units gates.now) }
{
    let mut lists = InputLists::new(alloc);
    for gate in gates {
        lists.push(kept_inputs(alloc, units, gates, gate)?)?;
    }
    Ok(lists)
}

fn first_top(tops: &[Numbered]) -> NodeNo
    requires some { 1 ≤ length tops.now }
    requires small { first_number tops.now ≤ u32.MAX }
    ensures { result ≡ first_number tops.now }
{
    match tops {
        [first, ..] => NodeNo(first.number as u32),
        [] => unreachable!(),
    }
}

/// The parts of the tree of these statements. Names and attributes are moved out of them.
pub(crate) fn assemble(
    alloc: Global,
    statements: Vec<Statement>,
    deck: &NumberedText,
) -> Result<TreeParts, NoMemory>
    requires deck { IsDeckOf (names statements.items) statements.items deck.now }
    requires inputs { AreWithin (deck.now.units + length deck.now.gates.items) deck.now.gates.items }
    requires top { first_number deck.now.tops ≤ deck.now.units + length deck.now.gates.items }
    requires some_top { 1 ≤ length deck.now.tops }
    requires few_units { deck.now.units ≤ most_units }
    requires few_gates { length deck.now.gates.items ≤ MOST_GATES }
    ensures { IfOk result (λ parts. (ranks : List ℕ) → ranked parts ranks ≡ tree_of statements.items ranks) }
{
    let taken = take_all(alloc, statements)?;
    let names = joined(taken.units, taken.gates)?;
    let kinds = kinds_of(alloc, &deck.gates)?;
    Ok(TreeParts {
        names,
        kinds,
        inputs: input_lists(alloc, deck.units, &deck.gates)?,
        attributes: AttributeLists::from_items(taken.attributes),
        top: first_top(deck.tops.as_slice()),
    })
}

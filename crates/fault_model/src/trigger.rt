//! The table of triggers: one pass over the inputs of the `fdep` gates.
ghost use Rattle.std.specs.Prelude.{◌≡◌, ◌≢◌, suc, ◌-◌, ◌^◌, ◌<◌, [], ◌∷◌, ◌++◌, length, drop, zip, All, IfOk, OnOk};
ghost use Rattle.std.specs.Prelude.{slice_set};
ghost use Rattle.fault_definitions.specs.Trigger.{dependents_in};
ghost use Rattle.fault_model.specs.TriggerTable.{IsUnitBelow, IsTableOf, AddsTriggers, AreMarks, at_unit, noted};

use crate::{GateKind, NoMemory, NodeList, NodeNo};
use flat_rows::empty_lists;
use std::alloc::Global;

/// The triggers of each unit, and by which `fdep`, from 1, each unit was noted last.
#[derive(Drop)]
pub(crate) struct TriggerTable {
    pub(crate) lists: Vec<NodeList>,
    marks: Vec<u32>,
}

impl TriggerTable {
    fn new(alloc: Global, units: usize) -> Result<TriggerTable, NoMemory>
        ensures lists { IfOk result (IsTableOf units []) }
        ensures marks { IfOk result (AreMarks units 1) }
    {
        Ok(TriggerTable {
            marks: vec![in alloc; 0; units]?,
            lists: empty_lists(alloc, units)?,
        })
    }

    // Notes a trigger of one unit, unless its mark says that this was done.
    fn note_one(
        &mut self,
        units: usize,
        mark: u32,
        trigger: NodeNo,
        unit: NodeNo,
    ) -> Result<(), NoMemory>
        requires lists { length self.old.lists.items ≡ units }
        requires marks { length self.old.marks.items ≡ units }
        requires unit { IsUnitBelow units unit }
        ensures known { OnOk result (at_unit self.old.marks.items unit ≡ mark → self.new ≡ self.old) }
        ensures lists { OnOk result (at_unit self.old.marks.items unit ≢ mark
            → self.new.lists.items ≡ slice_set self.old.lists.items (unit - 1) (noted self.old unit ++ trigger ∷ [])) }
        ensures marks { OnOk result (at_unit self.old.marks.items unit ≢ mark
            → self.new.marks.items ≡ slice_set self.old.marks.items (unit - 1) mark) }
    {
        if self.marks[unit.index()] == mark {
            return Ok(());
        }
        self.marks[unit.index()] = mark;
        self.lists[unit.index()].push(trigger)
    }

    // Notes a trigger of each of its dependents, once.
    fn note_each(
        &mut self,
        units: usize,
        mark: u32,
        trigger: NodeNo,
        dependents: &[NodeNo],
    ) -> Result<(), NoMemory>
        requires lists { length self.old.lists.items ≡ units }
        requires marks { AreMarks units mark self.old }
        requires units { All (IsUnitBelow units) dependents.now }
        ensures lists { OnOk result (AddsTriggers units (GateKind.Fdep, trigger ∷ dependents.now) self.old self.new) }
        ensures marks { OnOk result (AreMarks units (suc mark) self.new) }
    {
        for unit in dependents {
            self.note_one(units, mark, trigger, *unit)?;
        }
        Ok(())
    }

    // Notes the trigger of each unit among the dependents of an `fdep`.
    fn note_fdep(&mut self, units: usize, mark: u32, inputs: &[NodeNo]) -> Result<(), NoMemory>
        requires lists { length self.old.lists.items ≡ units }
        requires marks { AreMarks units mark self.old }
        requires inputs { All (IsUnitBelow units) (drop 1 inputs.now) }
        ensures lists { OnOk result (AddsTriggers units (GateKind.Fdep, inputs.now) self.old self.new) }
        ensures marks { OnOk result (AreMarks units (suc mark) self.new) }
    {
        match inputs {
            [trigger, dependents @ ..] => self.note_each(units, mark, *trigger, dependents),
            [] => Ok(()),
        }
    }

    // Notes what the gate number `mark` triggers.
    fn note_gate(
        &mut self,
        units: usize,
        mark: u32,
        kind: GateKind,
        inputs: &[NodeNo],
    ) -> Result<(), NoMemory>
        requires lists { length self.old.lists.items ≡ units }
        requires marks { AreMarks units mark self.old }
        requires dependents { All (IsUnitBelow units) (dependents_in (kind, inputs.now)) }
        ensures lists { OnOk result (AddsTriggers units (kind, inputs.now) self.old self.new) }
        ensures marks { OnOk result (AreMarks units (suc mark) self.new) }
    {
        match kind {
            GateKind::Fdep => self.note_fdep(units, mark, inputs),
            _ => Ok(()),
        }
    }

    /// The triggers of the units, by the gates of a tree.
    pub(crate) fn over(
        alloc: Global,
        units: usize,
        kinds: &[GateKind],
        inputs: &[NodeList],
    ) -> Result<TriggerTable, NoMemory>
        requires inputs { length inputs.now ≡ length kinds.now }
        requires few { length kinds.now < 2 ^ 31 }
        requires dependents { All (λ gate. All (IsUnitBelow units) (dependents_in gate)) (zip kinds.now inputs.now) }
        ensures { IfOk result (IsTableOf units (zip kinds.now inputs.now)) }
    {
        let mut table = TriggerTable::new(alloc, units)?;
        for index in 0..kinds.len() {
            table.note_gate(
                units,
                index as u32 + 1,
                kinds[index],
                inputs[index].as_slice(),
            )?;
        }
        Ok(table)
    }
}

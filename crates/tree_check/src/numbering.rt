//! A text by numbers, where every name that it uses is defined.
ghost use Rattle.std.specs.Prelude.{◌≡◌, ◌+◌, ◌++◌, ◌∷◌, ◌<◌, ◌≤◌, ℕ, [], length, map, IfOk, IfErr, OnOk};
ghost use Rattle.tree_check.specs.Said.{names, uses, uses_in, basics, gates, top_in, gate_in, basic_in};
ghost use Rattle.tree_check.specs.Numbered.{numbered, numbered_gate};
ghost use Rattle.tree_check.specs.Classes.{undefined};
ghost use Rattle.tree_check.specs.Found.{IsFoundAs};
ghost use Rattle.tree_check.specs.Numbering.{IsDeckOf, AddsStatement};

use crate::numbered::{Numbered, NumberedGate, NumberedRow, NumberedText};
use crate::{CheckCode, CheckFault};
use galileo_tree::{Placed, RawGate, Statement};
use name_index::NameIndex;
use std::alloc::Global;

/// Adds a name that is used, by its number. `last` is that of the name used before it, behind which it may well stand.
fn number(
    row: &mut NumberedRow,
    index: &NameIndex<'_>,
    used: &Placed,
    last: &mut usize,
) -> Result<(), CheckFault>
    ensures row { OnOk result (row.new ≡ row.old ++ numbered index.now used.now ∷ []) }
    ensures known { OnOk result (undefined index.now (used.now ∷ []) ≡ []) }
    ensures fault { IfErr result (IsFoundAs CheckCode.Undefined (undefined index.now (used.now ∷ []))) }
{
    let number = index.number_near(&used.name, *last);
    if number == 0 {
        return Err(CheckFault::Fault(CheckCode::Undefined, used.place));
    }
    *last = number;
    row.push(Numbered {
        number,
        place: used.place,
    })?;
    Ok(())
}

/// Adds the numbers of the inputs of a gate.
fn number_inputs(
    row: &mut NumberedRow,
    index: &NameIndex<'_>,
    inputs: &[Placed],
    last: &mut usize,
) -> Result<(), CheckFault>
    ensures row { OnOk result (row.new ≡ row.old ++ map (numbered index.now) inputs.now) }
    ensures known { OnOk result (undefined index.now inputs.now ≡ []) }
    ensures fault { IfErr result (IsFoundAs CheckCode.Undefined (undefined index.now inputs.now)) }
{
    for input in inputs {
        number(row, index, input, last)?;
    }
    Ok(())
}

/// Adds a gate with the numbers of its inputs.
fn number_gate(
    gates: &mut Vec<NumberedGate>,
    alloc: Global,
    index: &NameIndex<'_>,
    gate: &RawGate,
    last: &mut usize,
) -> Result<(), CheckFault>
    ensures gate { OnOk result (gates.new.items ≡ gates.old.items ++ numbered_gate index.now gate.now ∷ []) }
    ensures known { OnOk result (undefined index.now gate.now.inputs ≡ []) }
    ensures fault { IfErr result (IsFoundAs CheckCode.Undefined (undefined index.now gate.now.inputs)) }
{
    let inputs = gate.inputs.as_slice();
    let mut row = NumberedRow::with_room(alloc, inputs.len())?;
    match number_inputs(&mut row, index, inputs, last) {
        Ok(()) => {
            gates.push(NumberedGate {
                kind: gate.kind,
                word: gate.word,
                name: gate.name.place,
                inputs: row,
            })?;
            Ok(())
        }
        Err(fault) => {
            drop(row);
            Err(fault)
        }
    }
}

impl NumberedText {
    /// Adds what one statement says.
    fn add(
        &mut self,
        alloc: Global,
        index: &NameIndex<'_>,
        statement: &Statement,
        last: &mut usize,
    ) -> Result<(), CheckFault>
        requires { self.old.units + 1 < 18446744073709551616 }
        ensures adds { OnOk result (AddsStatement index.now statement.now self.old self.new) }
        ensures known { OnOk result (undefined index.now (uses_in statement.now) ≡ []) }
        ensures fault { IfErr result (IsFoundAs CheckCode.Undefined (undefined index.now (uses_in statement.now))) }
    {
        match statement {
            Statement::Top(top) => number(&mut self.tops, index, &top.name, last),
            Statement::Gate(gate) => number_gate(&mut self.gates, alloc, index, gate, last),
            Statement::Basic(_) => {
                self.units += 1;
                Ok(())
            }
        }
    }

    /// Adds what each statement says, to a text that says nothing yet.
    fn add_all(
        &mut self,
        alloc: Global,
        index: &NameIndex<'_>,
        statements: &[Statement],
    ) -> Result<(), CheckFault>
        requires units { self.old.units ≡ 0 }
        requires gates { self.old.gates.items ≡ [] }
        requires tops { self.old.tops ≡ [] }
        ensures deck { OnOk result (IsDeckOf index.now statements.now self.new) }
        ensures few { OnOk result (self.new.units ≤ length statements.now) }
        ensures known { OnOk result (undefined index.now (uses statements.now) ≡ []) }
        ensures fault { IfErr result (IsFoundAs CheckCode.Undefined (undefined index.now (uses statements.now))) }
    {
        let mut last = 0;
        for statement in statements {
            self.add(alloc, index, statement, &mut last)?;
        }
        Ok(())
    }
}

/// The statements by numbers.
pub(crate) fn number_all(
    alloc: Global,
    index: &NameIndex<'_>,
    statements: &[Statement],
) -> Result<NumberedText, CheckFault>
    ensures deck { IfOk result (IsDeckOf index.now statements.now) }
    ensures few { IfOk result (λ deck. deck.units ≤ length statements.now) }
    ensures known { OnOk result (undefined index.now (uses statements.now) ≡ []) }
    ensures fault { IfErr result (IsFoundAs CheckCode.Undefined (undefined index.now (uses statements.now))) }
{
    let mut deck = NumberedText {
        units: 0,
        gates: Vec::new(alloc),
        tops: NumberedRow::new(alloc),
    };
    match deck.add_all(alloc, index, statements) {
        Ok(()) => Ok(deck),
        Err(fault) => {
            drop(deck);
            Err(fault)
        }
    }
}

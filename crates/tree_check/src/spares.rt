//! Spares that serve two gates, or one gate twice.
ghost use Rattle.std.specs.Prelude.{◌≡◌, ◌+◌, ◌<◌, [], length, replicate, All, IfOk, IfErr, OnOk};
ghost use Rattle.tree_check.specs.Classes.{first, uses_of, spare_uses_in, shared_spares};
ghost use Rattle.tree_check.specs.Examined.{AreParts};
ghost use Rattle.tree_check.specs.Numbered.{numbered_gates};
ghost use Rattle.tree_check.specs.Found.{IsFoundAs};
ghost use Rattle.tree_check.specs.SpareTable.{AreWithin, noted, clashes_with, clashes_by, earlier_uses};
ghost use Rattle.tree_check.specs.SpareTable.{table_with, table_after};

use crate::gates::is_spare_kind;
use crate::numbered::{Numbered, NumberedGate, Parts};
use crate::{CheckCode, CheckFault};
use fault_words::Place;
use std::alloc::{AllocError, Global};

/// How spare gates have used an event so far.
#[derive(Clone, Copy)]
pub(crate) enum EarlierUses {
    Unused,
    /// As a first input alone, however often.
    FirstOnly,
    /// As a later input too.
    Otherwise,
}

impl EarlierUses {
    fn clashes_with(self, is_first: bool) -> bool
        ensures { result ≡ clashes_with self is_first }
    {
        match self {
            EarlierUses::Unused => false,
            EarlierUses::FirstOnly => !is_first,
            EarlierUses::Otherwise => true,
        }
    }

    // With one use more.
    fn noted(self, is_first: bool) -> EarlierUses
        ensures { result ≡ noted self is_first }
    {
        match self {
            EarlierUses::Unused | EarlierUses::FirstOnly if is_first => EarlierUses::FirstOnly,
            _ => EarlierUses::Otherwise,
        }
    }
}

/// The earlier uses of each event, by its number.
#[derive(Drop)]
struct SpareTable {
    uses: Vec<EarlierUses>,
}

impl SpareTable {
    fn new(alloc: Global, nodes: usize) -> Result<SpareTable, AllocError>
        requires { nodes < usize.MAX }
        ensures { IfOk result (λ table. table.uses.items ≡ replicate (nodes + 1) EarlierUses.Unused) }
    {
        Ok(SpareTable {
            uses: vec![in alloc; EarlierUses::Unused; nodes + 1]?,
        })
    }

    // Notes a use; the answer says whether it clashes with an earlier one.
    fn note(&mut self, input: Numbered, is_first: bool) -> bool
        requires { input.number < length self.old.uses.items }
        ensures clash { result ≡ clashes_with (earlier_uses self.old.uses.items input.number) is_first }
        ensures table { self.new.uses.items ≡ table_with self.old.uses.items
            (record { input = input; is_first = is_first }) }
        ensures room { length self.new.uses.items ≡ length self.old.uses.items }
    {
        let earlier = self.uses[input.number];
        self.uses[input.number] = earlier.noted(is_first);
        earlier.clashes_with(is_first)
    }

    // The first clash of the inputs of a spare gate, which are noted up to there.
    fn clash_among(&mut self, inputs: &[Numbered]) -> Option<Place>
        requires { All (λ input. input.number < length self.old.uses.items) inputs.now }
        ensures clash { result ≡ first (clashes_by self.old.uses.items (uses_of inputs.now)) }
        ensures table { result ≡ None → self.new.uses.items ≡ table_after self.old.uses.items (uses_of inputs.now) }
        ensures room { length self.new.uses.items ≡ length self.old.uses.items }
    {
        let mut is_first = true;
        for input in inputs {
            if self.note(*input, is_first) {
                return Some(input.place);
            }
            is_first = false;
        }
        None
    }

    // The first clash at a gate, whose uses are noted up to there.
    fn clash_at(&mut self, gate: &NumberedGate) -> Option<Place>
        requires { All (λ input. input.number < length self.old.uses.items) gate.now.inputs }
        ensures clash { result ≡ first (clashes_by self.old.uses.items (spare_uses_in gate.now)) }
        ensures table { result ≡ None → self.new.uses.items ≡ table_after self.old.uses.items (spare_uses_in gate.now) }
        ensures room { length self.new.uses.items ≡ length self.old.uses.items }
    {
        if is_spare_kind(gate.kind) {
            self.clash_among(gate.inputs.as_slice())
        } else {
            None
        }
    }

    // The first clash at any of the gates, for a table that has no use yet.
    fn shared(&mut self, nodes: usize, gates: &[NumberedGate]) -> Option<Place>
        requires numbers { AreWithin nodes gates.now }
        requires fresh { self.old.uses.items ≡ replicate (nodes + 1) EarlierUses.Unused }
        ensures { result ≡ first (shared_spares gates.now) }
    {
        for gate in gates {
            if let Some(place) = self.clash_at(gate) {
                return Some(place);
            }
        }
        None
    }
}

/// The class of spares that serve two gates, or one gate twice.
pub(crate) fn check_spares(alloc: Global, parts: Parts<'_>) -> Result<(), CheckFault>
    requires { AreParts parts }
    ensures none { OnOk result (shared_spares (numbered_gates parts.entry.statements.now) ≡ []) }
    ensures fault { IfErr result (IsFoundAs CheckCode.SharedSpare
        (shared_spares (numbered_gates parts.entry.statements.now))) }
{
    let nodes = parts.units + parts.gates.len();
    let mut table = SpareTable::new(alloc, nodes)?;
    match table.shared(nodes, parts.gates) {
        Some(place) => Err(CheckFault::Fault(CheckCode::SharedSpare, place)),
        None => Ok(()),
    }
}

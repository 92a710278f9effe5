//! Faults that show at one gate after another.
ghost use Rattle.std.specs.Prelude.{◌≡◌, [], true, drop, map, if◌then◌else◌};
ghost use Rattle.std.specs.List.{flat_map};
ghost use Rattle.fault_definitions.specs.Tree.{is_fdep_kind};
ghost use Rattle.tree_check.specs.Numbered.{is_fdep_in, is_gate, is_spare_kind, drops_fdeps, kept_by, kinds};
ghost use Rattle.tree_check.specs.Classes.{first, is_empty, wrong_vote, places_where, dummies_in, reads_nothing};
ghost use Rattle.tree_check.specs.Tried.{places_at};

use crate::CheckCode;
use crate::numbered::{Numbered, NumberedGate};
use fault_words::{GateKind, Place};

/// The first place of a class that shows at one gate after another.
pub(crate) fn first_at_gates(code: CheckCode, units: usize, gates: &[NumberedGate]) -> Option<Place>
    ensures { result ≡ first (flat_map (places_at code units (kinds gates.now)) gates.now) }
{
    for gate in gates {
        if let Some(place) = place_at(code, units, gates, gate) {
            return Some(place);
        }
    }
    None
}

/// The first place of such a class at one gate.
fn place_at(
    code: CheckCode,
    units: usize,
    gates: &[NumberedGate],
    gate: &NumberedGate,
) -> Option<Place>
    ensures { result ≡ first (places_at code units (kinds gates.now) gate.now) }
{
    let inputs = gate.inputs.as_slice();
    match code {
        CheckCode::Votes => is_wrong_vote(gate.kind, inputs.len()).then_some(gate.word),
        CheckCode::DummyInput => fdep_read(units, gates, gate),
        CheckCode::NoInputs => reads_nothing(units, gates, gate).then_some(gate.word),
        CheckCode::FdepShape => {
            (is_fdep_kind(gate.kind) && inputs.len() < 2).then_some(gate.word)
        }
        CheckCode::DependentGate => gate_after_first(is_fdep_kind(gate.kind), units, inputs),
        CheckCode::SpareNotBasic => gate_after_first(is_spare_kind(gate.kind), units, inputs),
        _ => None,
    }
}

/// Whether a gate is one K of N of which K is 0 or above N, or that has not N inputs.
fn is_wrong_vote(kind: GateKind, inputs: usize) -> bool
    ensures { result ≡ wrong_vote kind inputs }
{
    match kind {
        GateKind::Votes(least, of) => least == 0 || of < least || of as usize != inputs,
        _ => false,
    }
}

/// The name of the gate after so many.
pub(crate) fn name_after(gates: &[NumberedGate], number: usize) -> Option<Place>
    ensures { result ≡ first (map (λ gate. gate.name) (drop number gates.now)) }
{
    if gates.len() > number {
        Some(gates[number].name)
    } else {
        None
    }
}

/// The first input of a gate other than `and` or `or` that is an `fdep`.
fn fdep_read(units: usize, gates: &[NumberedGate], gate: &NumberedGate) -> Option<Place>
    ensures { result ≡ first (dummies_in (is_fdep_in units (kinds gates.now)) gate.now) }
{
    if drops_fdeps(gate.kind) {
        None
    } else {
        fdep_among(units, gates, gate.inputs.as_slice())
    }
}

/// Whether a gate other than `fdep` reads nothing, once an `and` and an `or` have passed over each `fdep`.
fn reads_nothing(units: usize, gates: &[NumberedGate], gate: &NumberedGate) -> bool
    ensures { result ≡ reads_nothing units (kinds gates.now) gate.now }
{
    let inputs = gate.inputs.as_slice();
    if is_fdep_kind(gate.kind) {
        false
    } else if drops_fdeps(gate.kind) {
        are_fdeps(units, gates, inputs)
    } else {
        inputs.is_empty()
    }
}

// Whether no input is left once each `fdep` is dropped.
fn are_fdeps(units: usize, gates: &[NumberedGate], inputs: &[Numbered]) -> bool
    ensures { result ≡ is_empty (kept_by true (is_fdep_in units (kinds gates.now)) inputs.now) }
{
    for input in inputs {
        if !is_fdep(units, gates, input.number) {
            return false;
        }
    }
    true
}

/// The first input after the first that is a gate, at a gate whose kind has to do with it.
fn gate_after_first(applies: bool, units: usize, inputs: &[Numbered]) -> Option<Place>
    ensures { result ≡ first (if applies then places_where (is_gate units) (drop 1 inputs.now) else []) }
{
    match inputs {
        [_first, rest @ ..] if applies => gate_among(units, rest),
        _ => None,
    }
}

fn gate_among(units: usize, inputs: &[Numbered]) -> Option<Place>
    ensures { result ≡ first (places_where (is_gate units) inputs.now) }
{
    for input in inputs {
        if units < input.number {
            return Some(input.place);
        }
    }
    None
}

/// The first of some names that is that of an `fdep`.
pub(crate) fn fdep_among(units: usize, gates: &[NumberedGate], inputs: &[Numbered]) -> Option<Place>
    ensures { result ≡ first (places_where (is_fdep_in units (kinds gates.now)) inputs.now) }
{
    for input in inputs {
        if is_fdep(units, gates, input.number) {
            return Some(input.place);
        }
    }
    None
}

// A number above all nodes counts as that of an `fdep`.
pub(crate) fn is_fdep(units: usize, gates: &[NumberedGate], number: usize) -> bool
    ensures { result ≡ is_fdep_in units (kinds gates.now) number }
{
    if number <= units {
        return false;
    }
    match gates.get(number - units - 1) {
        Some(gate) => is_fdep_kind(gate.kind),
        None => true,
    }
}

fn is_fdep_kind(kind: GateKind) -> bool
    ensures { result ≡ is_fdep_kind kind }
{
    match kind {
        GateKind::Fdep => true,
        _ => false,
    }
}

pub(crate) fn drops_fdeps(kind: GateKind) -> bool
    ensures { result ≡ drops_fdeps kind }
{
    match kind {
        GateKind::And | GateKind::Or => true,
        _ => false,
    }
}

pub(crate) fn is_spare_kind(kind: GateKind) -> bool
    ensures { result ≡ is_spare_kind kind }
{
    match kind {
        GateKind::Csp | GateKind::Wsp | GateKind::Hsp => true,
        _ => false,
    }
}

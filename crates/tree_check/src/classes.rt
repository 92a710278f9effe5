//! The classes of faults that a look at each statement or gate tells.
ghost use Rattle.std.specs.Prelude.{◌≡◌, take, IfErr, OnOk};
ghost use Rattle.tree_check.specs.Checked.{before_cycles, IsRefusal, NoneOf};
ghost use Rattle.tree_check.specs.Classes.{first};
ghost use Rattle.tree_check.specs.Examined.{AreParts, read_of};
ghost use Rattle.tree_check.specs.Tried.{told, NoneTold, FirstTold};

use crate::gates::{fdep_among, first_at_gates, name_after};
use crate::numbered::Parts;
use crate::statements::{replication, top_after, unit_after};
use crate::{CheckCode, CheckFault};
use fault_definitions::MOST_GATES;
use fault_words::Place;
use galileo_tree::RawTree;
use unit_sets::UnitNo;

/// The most basic events of a tree.
const MOST_UNITS: usize = UnitNo::MAX as usize;

/// The classes of the top statements.
pub(crate) fn check_tops(raw: &RawTree) -> Result<(), CheckFault>
    ensures none { OnOk result (NoneOf raw.now (take 2 before_cycles)) }
    ensures fault { IfErr result (IsRefusal raw.now) }
{
    let statements = raw.statements();
    if top_after(statements, 0).is_none() {
        return Err(CheckFault::Fault(CheckCode::NoToplevel, raw.end()));
    }
    match top_after(statements, 1) {
        Some(word) => Err(CheckFault::Fault(CheckCode::TwoToplevels, word)),
        None => Ok(()),
    }
}

/// The first place of a class.
fn first_place(code: CheckCode, parts: Parts<'_>) -> Option<Place>
    requires { AreParts parts }
    ensures { result ≡ first (told (read_of parts.entry) code) }
{
    match code {
        CheckCode::Votes
        | CheckCode::DummyInput
        | CheckCode::NoInputs
        | CheckCode::FdepShape
        | CheckCode::DependentGate
        | CheckCode::SpareNotBasic => first_at_gates(code, parts.units, parts.gates),
        CheckCode::Replicated => replication(parts.statements),
        CheckCode::TopIsFdep => fdep_among(parts.units, parts.gates, parts.tops),
        CheckCode::TooManyUnits => unit_after(parts.statements, MOST_UNITS),
        CheckCode::TooManyGates => name_after(parts.gates, MOST_GATES),
        _ => None,
    }
}

/// Tries some classes in their order.
pub(crate) fn try_classes(codes: &[CheckCode], parts: Parts<'_>) -> Result<(), CheckFault>
    requires { AreParts parts }
    ensures none { OnOk result (NoneTold (read_of parts.entry) codes.now) }
    ensures fault { IfErr result (FirstTold (read_of parts.entry) codes.now) }
{
    for code in codes {
        if let Some(place) = first_place(*code, parts) {
            return Err(CheckFault::Fault(*code, place));
        }
    }
    Ok(())
}

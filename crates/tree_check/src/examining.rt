//! The classes of faults, one after another.
ghost use Rattle.std.specs.Prelude.{◌≡◌, true, take, IfOk, IfErr, OnOk};
ghost use Rattle.fault_words.specs.Names.{all_differ};
ghost use Rattle.tree_check.specs.Checked.{before_cycles, IsRefusal, NoneOf};
ghost use Rattle.tree_check.specs.Examined.{AreParts, HasPassed, IsExamined, read_of};
ghost use Rattle.tree_check.specs.Said.{names};

use crate::classes::{check_tops, try_classes};
use crate::cycles::check_cycles;
use crate::naming::name_all;
use crate::numbered::{NumberedText, Parts};
use crate::numbering::number_all;
use crate::spares::check_spares;
use crate::{CheckCode, CheckFault};
use galileo_tree::RawTree;
use name_index::NameIndex;
use std::alloc::Global;

/// The classes that show at one gate.
const CLASSES_OF_GATES: [CheckCode; 6] = [
    CheckCode::Votes,
    CheckCode::DummyInput,
    CheckCode::NoInputs,
    CheckCode::FdepShape,
    CheckCode::DependentGate,
    CheckCode::SpareNotBasic,
];

/// The text by numbers, where no class of faults occurs, or the first fault. The classes are tried in their order, each
/// once the ones before it don't occur.
pub(crate) fn examine(alloc: Global, raw: &RawTree) -> Result<NumberedText, CheckFault>
    ensures examined { IfOk result (IsExamined raw.now) }
    ensures fault { IfErr result (IsRefusal raw.now) }
{
    check_tops(raw)?;
    let index = name_all(alloc, raw.statements())?;
    let examined = examine_named(alloc, &index, raw);
    drop(index);
    examined
}

/// The same, once the names are in an index.
fn examine_named(
    alloc: Global,
    index: &NameIndex<'_>,
    raw: &RawTree,
) -> Result<NumberedText, CheckFault>
    requires names { index.now ≡ names raw.now.statements }
    requires once { all_differ (names raw.now.statements) ≡ true }
    requires none { NoneOf raw.now (take 2 before_cycles) }
    ensures examined { IfOk result (IsExamined raw.now) }
    ensures fault { IfErr result (IsRefusal raw.now) }
{
    let statements = raw.statements();
    let deck = number_all(alloc, index, statements)?;
    let parts = Parts {
        statements,
        end: raw.end(),
        units: deck.units,
        gates: &deck.gates,
        tops: deck.tops.as_slice(),
    };
    match examine_parts(alloc, index, parts) {
        Ok(()) => Ok(deck),
        Err(fault) => {
            drop(deck);
            Err(fault)
        }
    }
}

/// The classes that are told by numbers.
fn examine_parts(alloc: Global, index: &NameIndex<'_>, parts: Parts<'_>) -> Result<(), CheckFault>
    requires names { index.now ≡ names parts.statements.now }
    requires parts { AreParts parts }
    ensures passed { OnOk result (HasPassed (read_of parts.entry)) }
    ensures fault { IfErr result (IsRefusal (read_of parts.entry)) }
{
    try_classes(&CLASSES_OF_GATES, parts)?;
    check_spares(alloc, parts)?;
    try_classes(&[CheckCode::Replicated, CheckCode::TopIsFdep], parts)?;
    check_cycles(alloc, index, parts)?;
    try_classes(&[CheckCode::TooManyUnits, CheckCode::TooManyGates], parts)
}

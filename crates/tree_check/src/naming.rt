//! Names into numbers: each name is defined once, and each name that is used is defined.
ghost use Rattle.std.specs.Prelude.{◌≡◌, ◌++◌, ◌∷◌, [], true, false, IfOk, IfErr, OnOk, IsTrue};
ghost use Rattle.tree_check.specs.Said.{names, definition_in};
ghost use Rattle.tree_check.specs.Marked.{placed_list};
ghost use Rattle.tree_check.specs.Classes.{first, repeats};
ghost use Rattle.fault_words.specs.Names.{all_differ};
ghost use Rattle.tree_check.specs.Naming.{Adds, name_list, names_of};
ghost use Rattle.tree_check.specs.Found.{IsFoundAs};

use crate::{CheckCode, CheckFault};
use fault_words::{Name, Place};
use galileo_tree::{Placed, Statement};
use name_index::NameIndex;
use std::alloc::{AllocError, Global};

/// What names stand for.
#[derive(Clone, Copy)]
pub(crate) enum Named {
    BasicEvents,
    Gates,
}

/// The name that a statement defines, where it stands for such.
fn name_of(statement: &Statement, named: Named) -> Option<&Name>
    ensures { names_of named (statement.now ∷ []) ≡ name_list result }
{
    match (named, statement) {
        (Named::BasicEvents, Statement::Basic(basic)) => Some(&basic.name.name),
        (Named::Gates, Statement::Gate(gate)) => Some(&gate.name.name),
        _ => None,
    }
}

/// Adds a name, where there is one, and says whether it was new.
fn add<'a>(index: &mut NameIndex<'a>, name: Option<&'a Name>) -> Result<bool, AllocError>
    ensures { IfOk result (λ fresh. Adds name.entry fresh index.old index.new) }
{
    match name {
        Some(name) => index.insert(name),
        None => Ok(true),
    }
}

/// Adds the names that stand for such, and says whether they all were new.
fn add_all<'a>(
    index: &mut NameIndex<'a>,
    statements: &'a [Statement],
    named: Named,
) -> Result<bool, AllocError>
    requires { all_differ index.old ≡ true }
    ensures fresh { IfOk result (λ fresh. IsTrue fresh → index.new ≡ index.old ++ names_of named statements.now) }
    ensures differ { IfOk result (λ fresh. fresh ≡ all_differ (index.old ++ names_of named statements.now)) }
{
    for statement in statements {
        if !add(index, name_of(statement, named))? {
            return Ok(false);
        }
    }
    Ok(true)
}

/// Adds the names of a text, and says whether they all were new.
fn add_names<'a>(index: &mut NameIndex<'a>, statements: &'a [Statement]) -> Result<bool, AllocError>
    requires { index.old ≡ [] }
    ensures fresh { IfOk result (λ fresh. IsTrue fresh → index.new ≡ names statements.now) }
    ensures differ { IfOk result (λ fresh. fresh ≡ all_differ (names statements.now)) }
{
    if !add_all(index, statements, Named::BasicEvents)? {
        return Ok(false);
    }
    add_all(index, statements, Named::Gates)
}

/// The name that a statement defines.
pub(crate) fn definition(statement: &Statement) -> Option<&Placed>
    ensures { definition_in statement.now ≡ placed_list result }
{
    match statement {
        Statement::Top(_) => None,
        Statement::Gate(gate) => Some(&gate.name),
        Statement::Basic(basic) => Some(&basic.name),
    }
}

/// The first definition of a name that an earlier one defines, by an index that has no name yet.
fn repeat_in<'a>(
    index: &mut NameIndex<'a>,
    statements: &'a [Statement],
) -> Result<Option<Place>, AllocError>
    requires { index.old ≡ [] }
    ensures { IfOk result (λ found. found ≡ first (repeats statements.now)) }
{
    for statement in statements {
        if let Some(definition) = definition(statement) {
            if !index.insert(&definition.name)? {
                return Ok(Some(definition.place));
            }
        }
    }
    Ok(None)
}

/// The first definition of a name that an earlier one defines.
fn repeat(alloc: Global, statements: &[Statement]) -> Result<Option<Place>, AllocError>
    ensures { IfOk result (λ found. found ≡ first (repeats statements.now)) }
{
    let mut index = NameIndex::with_room(alloc, statements.len())?;
    let found = repeat_in(&mut index, statements);
    drop(index);
    found
}

/// The fault of a text in which some name is defined twice.
fn repetition(alloc: Global, statements: &[Statement]) -> Result<CheckFault, AllocError>
    requires { all_differ (names statements.now) ≡ false }
    ensures { IfOk result (IsFoundAs CheckCode.DuplicateName (repeats statements.now)) }
{
    match repeat(alloc, statements)? {
        Some(place) => Ok(CheckFault::Fault(CheckCode::DuplicateName, place)),
        None => unreachable!(),
    }
}

/// The index of the names, each of which is defined once.
pub(crate) fn name_all<'a>(
    alloc: Global,
    statements: &'a [Statement],
) -> Result<NameIndex<'a>, CheckFault>
    ensures names { IfOk result (λ index. index ≡ names statements.now) }
    ensures differ { OnOk result (all_differ (names statements.now) ≡ true) }
    ensures fault { IfErr result (IsFoundAs CheckCode.DuplicateName (repeats statements.now)) }
{
    let mut index = NameIndex::with_room(alloc, statements.len())?;
    let added = add_names(&mut index, statements);
    if let Ok(true) = added {
        return Ok(index);
    }
    drop(index);
    added?;
    Err(repetition(alloc, statements)?)
}

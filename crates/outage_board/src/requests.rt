//! What crews ask, by the units of a tree.
ghost use Rattle.std.specs.Prelude.{◌≡◌, ◌<◌, ◌≤◌, length, map, IfOk, OnOk, IsTrue, codes};
ghost use Rattle.fault_words.specs.Names.{same_name};
ghost use Rattle.crew_script.specs.Names.{are_taken};
ghost use Rattle.crew_script.specs.Dockets.{crew_at};
ghost use Rattle.crew_script.specs.declared.dockets.Ask.TheVariants.{Take};
ghost use Rattle.outage_board.specs.Requests.{units_of, some_unknown, request_of, requests_of, supervisor_of};

use crate::docket::Docket;
use crate::unit_names::UnitNames;
use crew_script::{Ask, Dockets, NameList};
use fault_model::{Name, Tree};
use margin_policy::{AskedUnits, Request};
use std::alloc::Global;
use unit_sets::{CrewNo, NoMemory, UnitNo};

// Puts the units that names name into a buffer, in the order of the names.
fn gather(tree: &UnitNames<'_>, names: &[Name], units: &mut Vec<UnitNo>) -> Result<(), NoMemory>
    ensures { OnOk result (units.new.items ≡ units_of tree.now names.now) }
{
    units.clear();
    for name in names {
        if let Some(unit) = tree.unit(name) {
            units.push(unit)?;
        }
    }
    Ok(())
}

// The take of some names. A buffer serves all takes.
fn take(
    tree: &UnitNames<'_>,
    names: &NameList,
    units: &mut Vec<UnitNo>,
) -> Result<Request, NoMemory>
    ensures { IfOk result (λ request. request ≡ request_of tree.now (Take names.now)) }
{
    let names = names.as_slice();
    gather(tree, names, units)?;
    match AskedUnits::new(units.as_slice(), units.len() < names.len()) {
        Some(asked) => Ok(Request::Take(asked)),
        None => unreachable!(),
    }
}

fn request_of(tree: &UnitNames<'_>, ask: &Ask, units: &mut Vec<UnitNo>) -> Result<Request, NoMemory>
    ensures { IfOk result (λ request. request ≡ request_of tree.now ask.now) }
{
    match ask {
        Ask::Take(names) => take(tree, names, units),
        Ask::Return(name) => Ok(Request::Return(tree.unit(name))),
        Ask::Margin(number) => Ok(Request::Margin(*number)),
    }
}

fn requests_of(
    alloc: Global,
    tree: &UnitNames<'_>,
    dockets: &Dockets,
    crew: CrewNo,
    units: &mut Vec<UnitNo>,
) -> Result<Docket, NoMemory>
    requires { crew.0 < length dockets.now }
    ensures { IfOk result (λ requests. requests ≡ requests_of tree.now (crew_at dockets.now crew.0)) }
{
    let count = dockets.len(crew);
    let mut requests = Vec::with_capacity(alloc, count as usize)?;
    for place in 0..count {
        requests.push_reserved(request_of(tree, dockets.ask(crew, place), units)?);
    }
    Ok(Docket::of(requests))
}

// What each crew asks, by an index of the tree's units.
fn requests_by(
    alloc: Global,
    tree: &UnitNames<'_>,
    dockets: &Dockets,
) -> Result<Vec<Docket>, NoMemory>
    ensures { IfOk result (λ all. all.items ≡ map (requests_of tree.now) dockets.now) }
{
    let mut units = Vec::with_capacity(alloc, AskedUnits::LIMIT)?;
    let mut all = Vec::with_capacity(alloc, dockets.crews() as usize)?;
    for crew in 0..dockets.crews() {
        all.push_reserved(requests_of(alloc, tree, dockets, CrewNo(crew), &mut units)?);
    }
    Ok(all)
}

/// What each crew asks.
pub(crate) fn all_requests(
    alloc: Global,
    tree: &Tree,
    dockets: &Dockets,
) -> Result<Vec<Docket>, NoMemory>
    ensures { IfOk result (λ all. all.items ≡ map (requests_of tree.now) dockets.now) }
{
    let tree = UnitNames::of(alloc, tree)?;
    requests_by(alloc, &tree, dockets)
}

fn is_supervisor(name: &Name) -> bool
    ensures { result ≡ same_name name.now (codes "supervisor") }
{
    name.as_slice() == b"supervisor".as_slice()
}

/// The crew that is named `supervisor`.
pub(crate) fn supervisor_of(dockets: &Dockets) -> Option<CrewNo>
    ensures { result ≡ supervisor_of dockets.now }
{
    for crew in 0..dockets.crews() {
        if is_supervisor(dockets.crew_name(CrewNo(crew))) {
            return Some(CrewNo(crew));
        }
    }
    None
}

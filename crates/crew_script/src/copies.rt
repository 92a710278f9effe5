//! Copies of dockets.
ghost use Rattle.std.specs.Prelude.{◌≡◌, IfOk};

use crate::dockets::{Ask, AskList, Crew};
use crate::names::NameList;
use fault_words::Name;
use flat_rows::GrowingList;
use std::alloc::Global;
use unit_sets::NoMemory;

fn copy_of_name(alloc: Global, name: &Name) -> Result<Name, NoMemory>
    ensures { IfOk result (λ copy. copy ≡ name.now) }
{
    Name::of(alloc, name.as_slice())
}

fn copy_of_names(alloc: Global, names: &NameList) -> Result<NameList, NoMemory>
    ensures { IfOk result (λ copy. copy ≡ names.now) }
{
    let names = names.as_slice();
    let mut copies = Vec::with_capacity(alloc, names.len())?;
    for name in names {
        copies.push(copy_of_name(alloc, name)?)?;
    }
    Ok(NameList::of(copies))
}

fn copy_of_ask(alloc: Global, ask: &Ask) -> Result<Ask, NoMemory>
    ensures { IfOk result (λ copy. copy ≡ ask.now) }
{
    match ask {
        Ask::Take(names) => Ok(Ask::Take(copy_of_names(alloc, names)?)),
        Ask::Return(name) => Ok(Ask::Return(copy_of_name(alloc, name)?)),
        Ask::Margin(number) => Ok(Ask::Margin(*number)),
    }
}

fn copy_of_asks(alloc: Global, asks: &AskList) -> Result<AskList, NoMemory>
    ensures { IfOk result (λ copy. copy ≡ asks.now) }
{
    let asks = asks.as_slice();
    let mut copies = GrowingList::with_room(alloc, asks.len())?;
    for ask in asks {
        copies.push(copy_of_ask(alloc, ask)?)?;
    }
    Ok(copies)
}

fn copy_of_crew(alloc: Global, crew: &Crew) -> Result<Crew, NoMemory>
    ensures { IfOk result (λ copy. copy ≡ crew.now) }
{
    Ok(Crew {
        name: copy_of_name(alloc, &crew.name)?,
        docket: copy_of_asks(alloc, &crew.docket)?,
    })
}

/// A copy of crews.
pub(crate) fn copy_of_crews(alloc: Global, crews: &[Crew]) -> Result<Vec<Crew>, NoMemory>
    ensures { IfOk result (λ copy. copy.items ≡ crews.now) }
{
    let mut copies = Vec::with_capacity(alloc, crews.len())?;
    for crew in crews {
        copies.push(copy_of_crew(alloc, crew)?)?;
    }
    Ok(copies)
}

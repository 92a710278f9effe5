//! The crews of a deck and what they ask.
ghost use Rattle.std.specs.Prelude.{◌≡◌, ◌<◌, ◌≤◌, [], None, length, IfOk, OnOk};
ghost use Rattle.fault_words.specs.Names.{has_name};
ghost use Rattle.crew_script.specs.Dockets.{HasMargin, crew_at, ask_at, names_of, request_count, IsDockets};
ghost use Rattle.crew_script.specs.Lines.{SaysMargin};
ghost use Rattle.crew_script.specs.Crews.{fault_behind, crew_fault, request_fault, after, with_ask};
ghost use Rattle.crew_script.specs.declared.line.Line.TheVariants.{Crew as CrewLine};

use crate::copies::copy_of_crews;
use crate::fault::CrewCode;
use crate::line::Line;
use crate::names::NameList;
use fault_words::Name;
use flat_rows::GrowingList;
use std::alloc::{AllocError, Global};
use std::marker::Model;
use unit_sets::{CrewNo, NoMemory};

/// The most crews of a deck.
pub const MOST_CREWS: usize = 64;

/// The most requests of all crews of a deck together.
pub const MOST_REQUESTS: u32 = 100_000;

/// One request of a crew.
#[derive(Drop)]
pub enum Ask {
    /// To take these units out of service.
    Take(NameList),
    /// To return this unit.
    Return(Name),
    /// To change the margin in force.
    Margin(u32),
}

/// The requests of a crew, in order.
pub type AskList = GrowingList<Ask>;

/// A crew with its requests.
#[derive(Drop)]
pub struct Crew {
    pub name: Name,
    pub docket: AskList,
}

/// The crews of a deck with their requests. A contract sees the list of crews, in the order of their numbers from 0.
#[derive(Drop)]
pub struct Dockets {
    crews: Vec<Crew>,
    total: u32,
}

impl Model for Dockets {
    ghost use Rattle.std.specs.Prelude.{List, ◌≡◌};
    ghost use Rattle.crew_script.specs.declared.dockets.Crew.{Crew as Kept};
    ghost use Rattle.crew_script.specs.Dockets.{IsDockets, request_count};

    ghost Value = { List Kept };

    ghost view = { λ dockets. dockets.crews.items };

    ghost invariant = { λ dockets. IsDockets dockets.crews.items
        × (dockets.total ≡ request_count dockets.crews.items) };
}

impl Dockets {
    /// No crews.
    pub(crate) fn new(alloc: Global) -> Dockets
        ensures { result ≡ [] }
    {
        let crews = Vec::new(alloc);
        Dockets { crews, total: 0 }
    }

    /// How many crews there are.
    pub fn crews(&self) -> u32
        ensures count { result ≡ length self.now }
        ensures kept { IsDockets self.now }
    {
        self.crews.len() as u32
    }

    fn crew(&self, crew: CrewNo) -> &Crew
        requires { crew.0 < length self.now }
        ensures crew { result.now ≡ crew_at self.now crew.0 }
        ensures few { length result.now.docket ≤ MOST_REQUESTS }
        ensures kept { IsDockets self.now }
    {
        &self.crews[crew.0 as usize]
    }

    /// The name of a crew.
    pub fn crew_name(&self, crew: CrewNo) -> &Name
        requires { crew.0 < length self.now }
        ensures { result.now ≡ (crew_at self.now crew.0).name }
    {
        &self.crew(crew).name
    }

    /// How many requests a crew has.
    pub fn len(&self, crew: CrewNo) -> u32
        requires { crew.0 < length self.now }
        ensures { result ≡ length (crew_at self.now crew.0).docket }
    {
        self.crew(crew).docket.as_slice().len() as u32
    }

    /// The request of a crew at a place, from 0.
    pub fn ask(&self, crew: CrewNo, place: u32) -> &Ask
        requires crew { crew.0 < length self.now }
        requires place { place < length (crew_at self.now crew.0).docket }
        ensures ask { result.now ≡ ask_at self.now crew.0 place }
        ensures margin { HasMargin result.now }
    {
        &self.crew(crew).docket.as_slice()[place as usize]
    }

    /// How many requests all crews have.
    pub fn total(&self) -> u32
        ensures count { result ≡ request_count self.now }
        ensures limit { result ≤ MOST_REQUESTS }
    {
        self.total
    }

    /// A copy.
    pub fn copied(&self, alloc: Global) -> Result<Dockets, NoMemory>
        ensures { IfOk result (λ copy. copy ≡ self.now) }
    {
        Ok(Dockets {
            crews: copy_of_crews(alloc, &self.crews)?,
            total: self.total,
        })
    }

    /// The fault that a line has behind these crews, if it has one.
    pub(crate) fn fault_of(&self, line: &Line) -> Option<CrewCode>
        ensures { result ≡ fault_behind self.now line.now }
    {
        match line {
            Line::Nothing => None,
            Line::Bad => Some(CrewCode::BadLine),
            Line::Crew(name) => self.crew_fault(name),
            Line::Request(_) => self.request_fault(),
        }
    }

    fn crew_fault(&self, name: &Name) -> Option<CrewCode>
        ensures { result ≡ crew_fault self.now name.now }
    {
        if has_crew(&self.crews, name) {
            Some(CrewCode::DuplicateCrew)
        } else if self.crews.len() >= MOST_CREWS {
            Some(CrewCode::TooManyCrews)
        } else {
            None
        }
    }

    fn request_fault(&self) -> Option<CrewCode>
        ensures { result ≡ request_fault self.now }
    {
        if self.crews.is_empty() {
            Some(CrewCode::RequestBeforeCrew)
        } else if self.total >= MOST_REQUESTS {
            Some(CrewCode::TooManyRequests)
        } else {
            None
        }
    }

    /// Adds what a line says that has no fault.
    pub(crate) fn add(&mut self, alloc: Global, line: Line) -> Result<(), AllocError>
        requires faultless { fault_behind self.old line ≡ None }
        requires margin { SaysMargin line }
        ensures { OnOk result (self.new ≡ after self.old line) }
    {
        match line {
            Line::Crew(name) => self.add_crew(alloc, name),
            Line::Request(ask) => self.add_request(ask),
            Line::Nothing | Line::Bad => Ok(()),
        }
    }

    fn add_crew(&mut self, alloc: Global, name: Name) -> Result<(), AllocError>
        requires faultless { crew_fault self.old name ≡ None }
        ensures { OnOk result (self.new ≡ after self.old (CrewLine name)) }
    {
        // A name has the form of one.
        name.as_slice();
        let docket = GrowingList::new(alloc);
        self.crews.push(Crew { name, docket })?;
        Ok(())
    }

    // The last crew asks this too.
    fn add_request(&mut self, ask: Ask) -> Result<(), AllocError>
        requires faultless { request_fault self.old ≡ None }
        requires margin { HasMargin ask }
        ensures { OnOk result (self.new ≡ with_ask ask self.old) }
    {
        let last = self.crews.len() - 1;
        self.crews[last].docket.push(ask)?;
        self.total += 1;
        Ok(())
    }
}

// Whether a crew has this name. The crews are few, so no index finds it sooner.
fn has_crew(crews: &[Crew], name: &Name) -> bool
    ensures { result ≡ has_name (names_of crews.now) name.now }
{
    for crew in crews {
        if *name == crew.name {
            return true;
        }
    }
    false
}

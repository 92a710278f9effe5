//! What crews ask, and what they are told.
use crate::AskedUnits;
use unit_sets::{CrewNo, UnitNo};

/// What a crew asks for.
#[derive(Clone, Copy)]
pub enum Request {
    /// All of these units out of service.
    Take(AskedUnits),
    /// A unit back into service, or a name that names none.
    Return(Option<UnitNo>),
    /// Another margin.
    Margin(u32),
}

/// The reply to a request.
#[derive(Clone, Copy, Debug, PartialEq, Eq)]
pub enum Reply {
    Granted,
    /// The cut set of this number, from 1, would have too few members in service.
    Denied(u32),
    /// E1: a name names no unit.
    UnknownUnit,
    /// E2: a unit is out already, and this crew holds it.
    AlreadyOut(CrewNo),
    /// E3: the unit is in service.
    NotOut,
    /// E4: another crew holds the unit.
    HeldBy(CrewNo),
    /// E5: only the supervisor may change the margin.
    NotSupervisor,
}

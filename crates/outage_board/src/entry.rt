//! What a history is made of.
use margin_policy::{Reply, Request};
use unit_sets::CrewNo;

/// A request of a crew that was decided.
#[derive(Clone, Copy)]
pub struct Entry {
    pub crew: CrewNo,
    /// The place of the request, from 0, in the crew's docket.
    pub place: u32,
    pub request: Request,
    pub reply: Reply,
}

//! What a worker tells of its pieces of work.

/// Is told before and after each piece of work that a worker does. A test holds a worker back by its own.
pub trait Pace: Sync {
    /// The piece `place` of the group `group` begins.
    fn before(&self, group: u32, place: u32);

    /// The piece `place` of the group `group` is done.
    fn after(&self, group: u32, place: u32);
}

/// Holds no worker back.
#[derive(Clone, Copy, Default)]
pub struct Free;

impl Pace for Free {
    fn before(&self, _group: u32, _place: u32) {}

    fn after(&self, _group: u32, _place: u32) {}
}

//! The attributes of units.
use crate::Name;

/// An attribute of a unit, as `lambda` = `0.2`. No attribute has a meaning here.
#[derive(Drop)]
pub struct Attribute {
    pub word: Name,
    pub value: Name,
}

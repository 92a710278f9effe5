//! The words of a fault tree: the names of its nodes, the kinds of its gates, the attributes of its units, and places
//! in its text.
//!
//! It stands on the library alone, so that what reads a text need not wait for what says when a tree fails. A layer
//! above gets names that keep their form, each seen as the list of its bytes, with the exact form of a name and of a
//! bare one; and kinds, attributes and places as plain values.
#![tactic(auto)]

mod attribute;
mod kind;
mod name;
mod name_bytes;
mod place;

pub use attribute::Attribute;
pub use kind::GateKind;
pub use name::{Name, is_bare_name};
pub use name_bytes::SHORT_NAME;
pub use place::Place;

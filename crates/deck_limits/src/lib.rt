//! Limits that stand alone at the bottom: crates name them that have no other crate below them in common.
//!
//! Whoever raises one changes it here. A limit that is one layer's own, as that of units or of requests, is a constant
//! of that layer.
#![tactic(auto)]

/// The most bytes of a deck, and so of any part of it and of any text.
pub const MOST_BYTES: usize = 16_777_216;

/// The most bytes of a name, of an attribute's word and of its value.
pub const LONGEST_NAME: usize = 255;

/// The most units that one request may take.
pub const MOST_TAKEN: usize = 16;

/// The greatest margin that may be asked for, in units.
pub const GREATEST_MARGIN: u32 = 4095;

/// The most units that may be asked for of a cut set whose orders are listed.
pub const MOST_ORDERED: u32 = 8;

/// The most threads that may be asked for.
pub const MOST_WORKERS: u32 = 16;

/// The highest number of a cut set that may be asked to be marked in a picture.
pub const HIGHEST_CUT: u32 = 999_999;

/// The highest number of a deck that is made by a rule.
pub const HIGHEST_MADE: u32 = 999_999;

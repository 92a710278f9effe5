//! Names that all differ, each found by its bytes.
//!
//! It stands on `fault_words` for the names and on `indexmap` for the table. A layer above gets a list of names that
//! stay where they are, which grows name by name while a text is read, or is made of all at once, and tells the number
//! of each.
#![tactic(auto)]

mod name_index;

pub use name_index::NameIndex;

//! The names of a take.
ghost use Rattle.std.specs.Prelude.{◌≡◌, true};
ghost use Rattle.crew_script.specs.Names.{are_taken};

use fault_words::Name;
use std::marker::Model;

/// The names of the units that a crew asks to take: 1 to 16, all different. A contract sees their list.
#[derive(Drop)]
pub struct NameList {
    names: Vec<Name>,
}

impl Model for NameList {
    ghost use Rattle.std.specs.Prelude.{ℕ, List, ◌≡◌, true};
    ghost use Rattle.crew_script.specs.Names.{are_taken};

    ghost Value = { List (List ℕ) };

    ghost view = { λ list. list.names.items };

    ghost invariant = { λ list. are_taken list.names.items ≡ true };
}

impl NameList {
    pub(crate) fn of(names: Vec<Name>) -> NameList
        requires { are_taken names.items ≡ true }
        ensures { result ≡ names.items }
    {
        NameList { names }
    }

    /// The names, in the order asked.
    pub fn as_slice(&self) -> &[Name]
        ensures names { result.now ≡ self.now }
        ensures form { are_taken self.now ≡ true }
    {
        self.names.as_slice()
    }
}

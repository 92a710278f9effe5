//! The numbers of names that stay where they are.
ghost use Rattle.std.specs.Prelude.{◌≡◌, ◌+◌, ◌≤◌, ◌<◌, [], ◌∷◌, ◌++◌, length, not, true, IfOk, if◌then◌else◌};
ghost use Rattle.std.specs.Prelude.{◌≢◌, AllPairs, slice_index_or};
ghost use Rattle.fault_words.specs.Names.{has_name, number_in};

use fault_words::Name;
use indexmap::IndexSet;
use std::alloc::{AllocError, Global};
use std::marker::Model;

/// Names that all differ, each of which has its place from 1 as its number. A contract sees their list.
#[derive(Drop)]
pub struct NameIndex<'a> {
    names: IndexSet<&'a [u8]>,
}

impl<'a> Model for NameIndex<'a> {
    ghost use Rattle.std.specs.Prelude.{List, ℕ, map};
    ghost use Rattle.std.specs.Borrow.{Bor};

    ghost Value = { List (List ℕ) };

    ghost view = { λ index. map (λ (name : Bor (List ℕ)). name.now) index.names.keys };
}

impl<'a> NameIndex<'a> {
    /// No names. The room for some is reserved.
    pub fn with_room(alloc: Global, names: usize) -> Result<NameIndex<'a>, AllocError>
        ensures { IfOk result (λ index. index ≡ []) }
    {
        Ok(NameIndex {
            names: IndexSet::with_capacity(alloc, names)?,
        })
    }

    /// These names, which all differ.
    pub fn of(alloc: Global, names: &'a [Name]) -> Result<NameIndex<'a>, AllocError>
        requires { AllPairs (λ earlier later. earlier ≢ later) names.now }
        ensures { IfOk result (λ index. index ≡ names.now) }
    {
        let mut index = NameIndex::with_room(alloc, names.len())?;
        for name in names {
            index.insert(name)?;
        }
        Ok(index)
    }

    /// Adds a name at the end, unless it is there; the answer says whether it was new.
    pub fn insert(&mut self, name: &'a Name) -> Result<bool, AllocError>
        ensures new { IfOk result (λ added. added ≡ not (has_name self.old name.now)) }
        ensures names { IfOk result (λ added. self.new ≡ (if added then self.old ++ name.now ∷ [] else self.old)) }
    {
        let (_place, added) = self.names.insert_full(name.as_slice())?;
        Ok(added)
    }

    /// The number of a name, or 0 of a name that isn't there.
    pub fn number(&self, name: &Name) -> usize
        ensures { result ≡ number_in self.now name.now }
    {
        // A place is below the length, so its successor is a number too.
        let _length = self.names.len();
        match self.names.get_index_of(name.as_slice()) {
            Some(place) => place + 1,
            None => 0,
        }
    }

    // Whether a name stands at a place, from 0.
    fn is_at(&self, name: &Name, place: usize) -> bool
        ensures within { result ≡ true → place < length self.now }
        ensures there { result ≡ true → slice_index_or self.now place [] ≡ name.now }
    {
        match self.names.get_index(place) {
            Some(there) => *there == name.as_slice(),
            None => false,
        }
    }

    /// The same. The name at a place, from 0, is looked at first: names are often used as they were defined, one after
    /// another.
    pub fn number_near(&self, name: &Name, place: usize) -> usize
        ensures { result ≡ number_in self.now name.now }
    {
        // A place is below the length, so its successor is a number too.
        let _length = self.names.len();
        if self.is_at(name, place) {
            place + 1
        } else {
            self.number(name)
        }
    }
}

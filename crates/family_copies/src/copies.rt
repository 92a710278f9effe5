//! The notes of which references are copies of one another.
ghost use Rattle.std.specs.Prelude.{◌≡◌, ℕ, [], IfOk, IfSome, slice_index};
ghost use Rattle.family_memory.specs.Memory.{Held};
ghost use Rattle.family_copies.specs.Copies.{AreCopies, IsCopy};

use crate::slots::{Slots, shared_at};
use std::alloc::Global;
use std::marker::Model;
use unit_sets::NoMemory;
use zdd_words::NodeRef;

// By how many places the list of notes grows at a time.
const PLACES_AT_ONCE: usize = 1_024;

/// Which references of a store are copies of which of a memory. Contracts see it as the list of those of the store:
/// each stands at the place of its copy's reference, and 0 where none is noted.
#[derive(Drop)]
pub struct Copies {
    shared: Vec<NodeRef>,
    by_shared: Slots,
}

impl Model for Copies {
    ghost use Rattle.std.specs.Prelude.{ℕ, List};

    ghost Value = { List ℕ };

    ghost view = { λ c. c.shared.items };
}

impl Copies {
    /// No notes yet, with room for those of a memory that has so many nodes.
    pub fn new(alloc: Global, room: usize) -> Result<Copies, NoMemory>
        ensures { IfOk result (λ copies. copies ≡ []) }
    {
        Ok(Copies {
            shared: Vec::with_capacity(alloc, room.saturating_add(2))?,
            by_shared: Slots::new(alloc, room)?,
        })
    }

    /// Forgets all notes, for a memory that was cleared.
    pub fn forget(&mut self)
        ensures { self.new ≡ [] }
    {
        if self.shared.is_empty() {
            return;
        }
        self.shared.clear();
        self.by_shared.clear();
    }

    /// The copy of a reference of the store, if one is noted.
    pub(crate) fn own_of(&self, shared: NodeRef) -> Option<NodeRef>
        ensures { IfSome result (λ own. slice_index self.now own ≡ shared) }
    {
        self.by_shared.own_of(&self.shared, shared)
    }

    /// The reference of the store whose copy is one of the memory, or `EMPTY` where none is noted.
    pub(crate) fn shared_of(&self, own: NodeRef) -> NodeRef
        ensures { result ≡ slice_index self.now own }
    {
        shared_at(&self.shared, own)
    }

    /// Notes a copy, if there is room for it. Without a note its node may be copied again.
    pub(crate) fn note(&mut self, shared: NodeRef, own: NodeRef)
        ensures { (held : Held) (known : ℕ → ℕ) → IsCopy held known shared own → AreCopies held known self.old
            → AreCopies held known self.new }
    {
        let place = own.number() as usize;
        self.reach(place);
        if place < self.shared.len() {
            self.shared[place] = shared;
        }
    }

    /// Lets the note of a reference of the memory be found by the store's. It costs more than the note, so it is for
    /// references that are likely to be asked for: those of whole families, and not of their parts.
    pub(crate) fn enter(&mut self, own: NodeRef)
        ensures { self.new ≡ self.old }
    {
        if self.shared_of(own) != NodeRef::EMPTY {
            self.by_shared.put(self.shared.as_slice(), own);
        }
    }

    // Makes the list reach a place that it has room for.
    fn reach(&mut self, place: usize)
        ensures { (k : ℕ) → slice_index self.new k ≡ slice_index self.old k }
    {
        let most = self.shared.capacity();
        if place < self.shared.len() || place >= most {
            return;
        }
        let more = place.saturating_add(PLACES_AT_ONCE).min(most);
        // Within the room this takes no memory.
        let _ = self.shared.resize(more, NodeRef::EMPTY);
    }
}

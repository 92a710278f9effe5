//! An index of notes by the store's references: slots with references of the memory. Each is tried against the list
//! of notes, so that a wrong one is as good as none.
ghost use Rattle.std.specs.Prelude.{◌≡◌, ◌<◌, IfSome, length, slice_index};

use std::alloc::Global;
use unit_sets::NoMemory;
use zdd_words::{NodeRef, SPREAD};

// How many slots there are at first.
const FIRST_SLOTS: usize = 1_024;

/// Slots with references, where `EMPTY` means that the slot is free. A search begins at the place of the store's
/// reference and goes on from slot to slot. How many are taken tells when there should be more of them.
#[derive(Drop)]
pub(crate) struct Slots {
    slots: Vec<NodeRef>,
    taken: usize,
}

// Where the search for a reference begins among so many slots.
fn place_of(shared: NodeRef, slots: usize) -> usize {
    let spread = u64::from(shared.number()).wrapping_mul(SPREAD) >> 32;
    (spread.wrapping_mul(slots as u64) >> 32) as usize
}

/// The store's reference that a list of notes has for one of the memory, or `EMPTY`.
pub(crate) fn shared_at(notes: &[NodeRef], own: NodeRef) -> NodeRef
    ensures { result ≡ slice_index notes.now own }
{
    let place = own.number() as usize;
    if place < notes.len() {
        notes[place]
    } else {
        NodeRef::EMPTY
    }
}

impl Slots {
    /// Room for twice as many slots as notes. It touches few of them at first.
    pub(crate) fn new(alloc: Global, room: usize) -> Result<Slots, NoMemory> {
        let most = room.saturating_mul(2);
        let mut slots = Vec::with_capacity(alloc, most)?;
        slots.resize(most.min(FIRST_SLOTS), NodeRef::EMPTY)?;
        Ok(Slots { slots, taken: 0 })
    }

    /// The memory's reference for which one of the store is noted, if a slot has it.
    pub(crate) fn own_of(&self, notes: &[NodeRef], shared: NodeRef) -> Option<NodeRef>
        ensures { IfSome result (λ own. slice_index notes.now own ≡ shared) }
    {
        let slot = self.slot_of(notes, shared)?;
        let own = self.slots[slot];
        if shared_at(notes, own) == shared {
            Some(own)
        } else {
            None
        }
    }

    /// Takes in the memory's reference of a note that the list has.
    pub(crate) fn put(&mut self, notes: &[NodeRef], own: NodeRef) {
        self.follow(notes);
        self.put_one(notes, own);
    }

    /// Takes all references out.
    pub(crate) fn clear(&mut self) {
        let few = self.slots.capacity().min(FIRST_SLOTS);
        self.taken = 0;
        self.slots.clear();
        // Within the room this takes no memory. With fewer slots fewer notes are found.
        let _ = self.slots.resize(few, NodeRef::EMPTY);
    }

    // The slot where the search for a reference of the store ends: it has the memory's reference, or is free.
    fn slot_of(&self, notes: &[NodeRef], shared: NodeRef) -> Option<usize>
        ensures { IfSome result (λ slot. slot < length self.now.slots.items) }
    {
        let size = self.slots.len();
        let mut place = place_of(shared, size);
        for _ in 0..size {
            if place >= size {
                place = 0;
            }
            let own = self.slots[place];
            if own == NodeRef::EMPTY || shared_at(notes, own) == shared {
                return Some(place);
            }
            place += 1;
        }
        None
    }

    // Puts a reference of the memory where the search for its note ends.
    fn put_one(&mut self, notes: &[NodeRef], own: NodeRef) {
        if let Some(slot) = self.slot_of(notes, shared_at(notes, own)) {
            if self.slots[slot] == NodeRef::EMPTY {
                self.taken = self.taken.saturating_add(1);
            }
            self.slots[slot] = own;
        }
    }

    // Makes the slots four times as many within their room, once half of them are taken. The last reference moves
    // first: its new place is hardly ever before its old one, where others still wait.
    fn follow(&mut self, notes: &[NodeRef]) {
        let size = self.slots.len();
        if self.taken < size / 2 || size == self.slots.capacity() {
            return;
        }
        let more = size.saturating_mul(4).min(self.slots.capacity());
        // Within the room this takes no memory. With fewer slots fewer notes are found.
        let _ = self.slots.resize(more, NodeRef::EMPTY);
        self.taken = 0;
        for passed in 0..size {
            self.move_one(notes, size - 1 - passed);
        }
    }

    // Puts the reference of a slot where the search for its note ends now.
    fn move_one(&mut self, notes: &[NodeRef], slot: usize) {
        if slot >= self.slots.len() {
            return;
        }
        let own = self.slots[slot];
        if own != NodeRef::EMPTY {
            self.slots[slot] = NodeRef::EMPTY;
            self.put_one(notes, own);
        }
    }
}

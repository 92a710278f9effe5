//! An index of nodes: from the word of a node to its reference.
ghost use Rattle.std.specs.Prelude.{◌+◌, ◌≤◌, ◌^◌, length};
ghost use Rattle.family_memory.specs.Search.{IsSearched};

use std::alloc::Global;
use unit_sets::NoMemory;
use zdd_words::{NodeRef, SPREAD};

// How many slots an index begins with.
const FIRST_SLOTS: usize = 2_048;

/// How a search ended: at a node with the word, at a free slot, or past every slot.
#[derive(Clone, Copy)]
pub(crate) enum Search {
    Found(NodeRef),
    Free(usize),
    Nowhere,
}

/// Slots with references, where `EMPTY` means that the slot is free. A search begins at the word's place
/// and goes on from slot to slot.
#[derive(Drop)]
pub(crate) struct Index {
    slots: Vec<NodeRef>,
}

// Where the search for a word begins among so many slots. The level, which is highest, must reach the place too.
fn place_of(word: u64, slots: usize) -> usize {
    let folded = word ^ word >> 32;
    (folded.wrapping_mul(SPREAD) >> 32) as usize & slots.saturating_sub(1)
}

impl Index {
    /// An index with room for so many slots, a power of two. It touches few of them at first.
    pub(crate) fn new(alloc: Global, room: usize) -> Result<Index, NoMemory> {
        let mut slots = Vec::with_capacity(alloc, room)?;
        slots.resize(room.min(FIRST_SLOTS), NodeRef::EMPTY)?;
        Ok(Index { slots })
    }

    /// Looks for the node of a word. `words` has the word of each reference.
    pub(crate) fn search(&self, words: &[u64], word: u64) -> Search
        ensures { IsSearched words.now word result }
    {
        let size = self.slots.len();
        let mut place = place_of(word, size);
        for _ in 0..size {
            if place >= size {
                place = 0;
            }
            let r = self.slots[place];
            if r == NodeRef::EMPTY {
                return Search::Free(place);
            }
            let at = r.number() as usize;
            if at < words.len() && words[at] == word {
                return Search::Found(r);
            }
            place += 1;
        }
        Search::Nowhere
    }

    /// Puts a reference at the free slot where the search for its word ended, if it found one.
    pub(crate) fn put(&mut self, place: Option<usize>, r: NodeRef) {
        if let Some(place) = place {
            if place < self.slots.len() {
                self.slots[place] = r;
            }
        }
    }

    /// Makes the slots four times as many within their room, once half of them are taken.
    pub(crate) fn follow(&mut self, words: &[u64])
        requires { length words.now ≤ 2 ^ 25 + 2 }
    {
        let size = self.slots.len();
        if words.len() <= size / 2 || size == self.slots.capacity() {
            return;
        }
        let more = size.saturating_mul(4).min(self.slots.capacity());
        self.begin(more);
        for at in 2..words.len() {
            if let Search::Free(place) = self.search(words, words[at]) {
                self.put(Some(place), NodeRef::at_slot((at - 2) as u32));
            }
        }
    }

    /// Takes all references out.
    pub(crate) fn clear(&mut self) {
        let few = self.slots.capacity().min(FIRST_SLOTS);
        self.begin(few);
    }

    // So many free slots, no more than there is room for.
    fn begin(&mut self, size: usize) {
        self.slots.clear();
        // Within the room this takes no memory. A shorter index finds fewer nodes.
        let _ = self.slots.resize(size, NodeRef::EMPTY);
    }
}

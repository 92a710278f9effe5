//! A table of answers that grows within its room.
ghost use Rattle.std.specs.Prelude.{[], ◌∷◌, Contains, IfOk, IfSome};
ghost use Rattle.kept_answers.specs.Kept.{AreKept};

use std::alloc::Global;
use std::marker::Model;
use unit_sets::NoMemory;
use zdd_words::{NodeRef, SPREAD};

const FIRST_SHIFT: u32 = 26;

const OPERATION_SHIFT: u32 = 52;

// How many places there are at first.
const FIRST_PLACES: usize = 1_024;

/// An operation whose answers are kept.
#[derive(Clone, Copy, PartialEq, Eq)]
pub enum Operation {
    /// The sets of the first family that include none of the second.
    Without,
    /// The union, or its minimal sets.
    Union,
    /// The product, or its minimal sets.
    Product,
    /// The minimal sets of the first family. The second is `EMPTY`.
    Minimal,
}

/// An operation and its operands.
#[derive(Clone, Copy, PartialEq, Eq)]
pub struct Question {
    pub operation: Operation,
    pub first: NodeRef,
    pub second: NodeRef,
}

/// A question with its answer.
#[derive(Clone, Copy)]
pub struct Entry {
    pub question: Question,
    pub answer: NodeRef,
}

// What stands in a place before the first answer: it is true of any families.
const FIRST_ENTRY: Entry = Entry {
    question: Question {
        operation: Operation::Without,
        first: NodeRef::EMPTY,
        second: NodeRef::EMPTY,
    },
    answer: NodeRef::EMPTY,
};

/// A table of entries. Contracts see it as the list of these.
#[derive(Drop)]
pub struct Answers {
    entries: Vec<Entry>,
    told: usize,
}

impl Model for Answers {
    ghost use Rattle.std.specs.Prelude.{List};
    ghost use Rattle.kept_answers.specs.declared.answers.Entry.{Entry};

    ghost Value = { List Entry };

    ghost view = { λ answers. answers.entries.items };
}

// Where the answer to a question stands among so many places. The operation, which is highest, must reach it too.
fn place_of(question: &Question, places: usize) -> usize {
    let operation = question.operation as u64;
    let first = u64::from(question.first.number());
    let second = u64::from(question.second.number());
    let key = operation << OPERATION_SHIFT | first << FIRST_SHIFT | second;
    let folded = key ^ key >> 32;
    (folded.wrapping_mul(SPREAD) >> 32) as usize & places.saturating_sub(1)
}

impl Answers {
    /// A table with room for so many entries, a power of two. It touches few of them at first.
    pub fn new(alloc: Global, room: usize) -> Result<Answers, NoMemory>
        ensures { IfOk result (AreKept []) }
    {
        let mut entries = Vec::with_capacity(alloc, room)?;
        entries.resize(room.min(FIRST_PLACES), FIRST_ENTRY)?;
        Ok(Answers { entries, told: 0 })
    }

    /// The answer to a question, if it is kept.
    #[inline(always)]
    pub fn answer(&self, question: &Question) -> Option<NodeRef>
        ensures { IfSome result (λ answer. Contains self.now (record { question = question.now; answer = answer })) }
    {
        let place = place_of(question, self.entries.len());
        if place < self.entries.len() {
            let entry = self.entries[place];
            if entry.question == *question {
                return Some(entry.answer);
            }
        }
        None
    }

    /// Keeps the answer to a question. Most steps of an operation end with it, so it is inlined.
    #[inline(always)]
    pub fn keep(&mut self, entry: Entry)
        ensures { AreKept (entry ∷ self.old) self.new }
    {
        self.make_room();
        self.told = self.told.saturating_add(1);
        let place = place_of(&entry.question, self.entries.len());
        if place < self.entries.len() {
            self.entries[place] = entry;
        }
    }

    // Grows once as many answers were told as there are places. A table with its whole room tries that once more,
    // and not at each answer.
    #[inline(always)]
    fn make_room(&mut self)
        ensures { AreKept self.old self.new }
    {
        if self.told == self.entries.len() {
            self.grow();
        }
    }

    // Makes the places four times as many within their room.
    #[cold]
    #[inline(never)]
    fn grow(&mut self)
        ensures { AreKept self.old self.new }
    {
        let more = self
            .entries
            .len()
            .saturating_mul(4)
            .min(self.entries.capacity());
        // Within the room this takes no memory. A shorter table keeps fewer answers.
        let _ = self.entries.resize(more, FIRST_ENTRY);
    }

    /// Forgets all answers.
    pub fn clear(&mut self)
        ensures { AreKept [] self.new }
    {
        let few = self.entries.capacity().min(FIRST_PLACES);
        self.told = 0;
        self.entries.clear();
        let _ = self.entries.resize(few, FIRST_ENTRY);
    }
}

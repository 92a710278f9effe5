//! The memory: node words with the extents of their families, an index of them, and answers.
ghost use Rattle.std.specs.Prelude.{◌≡◌, ◌≢◌, ◌⊎◌, ◌+◌, ◌≤◌, ◌<◌, ◌^◌, [], ◌∷◌, ◌++◌, length, IfOk, IfErr, IfSome};
ghost use Rattle.std.specs.Prelude.{ℕ, List, MatchResult, true};
ghost use Rattle.event_counts.specs.Count.{next_count};
ghost use Rattle.zdd_words.specs.Word.{level_of, packed};
ghost use Rattle.zdd_families.specs.Family.{IsAbove, branch};
ghost use Rattle.zdd_families.specs.Map.{Grown, IsNode, level_in};
ghost use Rattle.zdd_families.specs.Antichains.{IsAntichain};
ghost use Rattle.zdd_families.specs.Units.{IsLastUnit};
ghost use Rattle.family_memory.specs.Answers.{IsTold};
ghost use Rattle.family_memory.specs.Extents.{HaveMarks, IncludesNone, IsExtent};
ghost use Rattle.family_memory.specs.Memory.{Has, IsNodeOf, IsSound, IsUsedUp, family_in, map_of, word_family};
ghost use Rattle.family_memory.specs.Kept.{IsAdded, refusing};
ghost use Rattle.family_memory.specs.Rests.{IsRest};

use crate::extents::Extent;
use crate::index::{Index, Search};
use event_counts::Count;
use kept_answers::{Answers, Entry, Question};
use std::alloc::Global;
use std::marker::Model;
use unit_sets::{NoMemory, UnitNo};
use zdd_words::{NodeRef, Parts, pack, unpack};

// The level of the terminals, above that of each unit.
const NO_LEVEL: u16 = 4_096;

const LEVEL_SHIFT: u32 = 52;

// So many units, from a multiple of it on, are a block: whoever looks for a higher level takes a step for each block
// on the way, and for each unit of the last one.
const BLOCK: u16 = 32;

/// How much a memory takes: at most so many nodes, slots of the index (a power of two, twice the nodes is
/// enough), and answers (a power of two).
#[derive(Clone, Copy)]
pub struct Room {
    pub nodes: usize,
    pub slots: usize,
    pub answers: usize,
}

/// A node was refused in this call, as the room for nodes is used up.
#[derive(Clone, Copy, Debug, PartialEq, Eq, Drop)]
pub struct Spent;

/// A memory of diagrams. Contracts see it as the words of its nodes, its room, and how often it had no room for a
/// node.
#[derive(Drop)]
pub struct FamilyMemory {
    words: Vec<u64>,
    extents: Vec<Extent>,
    room: usize,
    refused: Count,
    index: Index,
    answers: Answers,
}

impl Model for FamilyMemory {
    ghost use Rattle.std.specs.Prelude.{vec_capacity};
    ghost use Rattle.family_memory.specs.Kept.{KeepsNodes};
    ghost use Rattle.family_memory.specs.Memory.{Held};

    ghost Value = { Held };

    ghost view = { λ m. record { words = m.words.items; room = m.room; refused = m.refused } };

    ghost invariant = { λ m. KeepsNodes (record { words = m.words.items; room = m.room; refused = m.refused })
        (vec_capacity m.words) m.answers m.extents.items (vec_capacity m.extents) };
}

impl FamilyMemory {
    /// A memory with no nodes, with all its room.
    pub fn new(alloc: Global, room: Room) -> Result<FamilyMemory, NoMemory>
        requires { room.nodes ≤ 2 ^ 25 }
        ensures { IfOk result (λ memory. memory ≡ record { words = 0 ∷ 0 ∷ []; room = room.nodes; refused = 0 }) }
    {
        let mut words = Vec::with_capacity(alloc, room.nodes + 2)?;
        words.push_reserved(0);
        words.push_reserved(0);
        let mut extents = Vec::with_capacity(alloc, room.nodes + 2)?;
        extents.push_reserved(Extent::of_none());
        extents.push_reserved(Extent::of_unit());
        Ok(FamilyMemory {
            words,
            extents,
            room: room.nodes,
            refused: Count::new(),
            index: Index::new(alloc, room.slots)?,
            answers: Answers::new(alloc, room.answers)?,
        })
    }

    /// Tells a proof what the memory keeps. Nothing is computed.
    pub fn is_sound(&self)
        ensures { IsSound self.now }
    {
        let _words = &self.words;
    }

    /// How many nodes there are.
    pub fn count(&self) -> usize
        ensures { result + 2 ≡ length self.now.words }
    {
        self.words.len() - 2
    }

    /// How many nodes were refused since the memory was made.
    pub fn refused(&self) -> u64
        ensures { result ≡ self.now.refused }
    {
        self.refused.number()
    }

    /// The least unit of a reference's sets, or 4,096 for a terminal.
    pub fn level(&self, r: NodeRef) -> u16
        requires { Has self.now r }
        ensures { result ≡ level_in (map_of self.now) r }
    {
        if r.number() < 2 {
            return NO_LEVEL;
        }
        (self.words[r.number() as usize] >> LEVEL_SHIFT) as u16
    }

    /// The greatest unit of a reference's sets, or 0 for a terminal.
    pub fn last(&self, r: NodeRef) -> u16
        requires { Has self.now r }
        ensures { IsLastUnit (family_in self.now r) result }
    {
        self.extent(r).last
    }

    /// The marks of the units of a reference's sets: of each unit the bit whose number is the unit's modulo 64.
    pub fn marks(&self, r: NodeRef) -> u64
        requires { Has self.now r }
        ensures { HaveMarks (family_in self.now r) result }
    {
        self.extent(r).units
    }

    /// Whether no set of the first family can include one of the second, as the units or the sizes of their sets tell.
    /// Where it says no this may not be known.
    pub fn includes_none(&self, a: NodeRef, b: NodeRef) -> bool
        requires has_a { Has self.now a }
        requires has_b { Has self.now b }
        ensures { result ≡ true → IncludesNone (family_in self.now a) (family_in self.now b) }
    {
        self.is_sound();
        self.extent(a).includes_none(self.extent(b))
    }

    // The extent of a reference's family.
    fn extent(&self, r: NodeRef) -> Extent
        requires { Has self.now r }
        ensures { IsExtent (family_in self.now r) result }
    {
        self.extents[r.number() as usize]
    }

    // The extent of the family of a node that is yet to be added.
    fn extent_of(&self, word: u64) -> Extent
        requires { IsNode (map_of self.now) word }
        ensures extent { IsExtent (word_family self.now word) result }
        ensures rest { IsRest self.now (level_of word) (word_family self.now word) result.rest }
    {
        self.is_sound();
        let parts = unpack(word);
        let lo = self.extent(parts.lo);
        let hi = self.extent(parts.hi);
        let rest = self.rest_of(parts.level, parts.lo);
        Extent::of_node(parts.level, lo, hi, rest)
    }

    // What is left of the sets of such a node: those without its level, or, where their level is in the same block of
    // units, what is left of these.
    fn rest_of(&self, level: UnitNo, lo: NodeRef) -> NodeRef
        requires has { Has self.now lo }
        requires above { level < level_in (map_of self.now) lo }
        ensures { (hi : List (List ℕ)) → IsRest self.now level (branch level (family_in self.now lo) hi) result }
    {
        if lo.number() < 2 || self.level(lo) / BLOCK != level.number() / BLOCK {
            return lo;
        }
        self.rest(lo)
    }

    /// What is left of a node's sets where some that have a low unit are passed over, mostly all that have one of the
    /// node's block of units.
    pub fn rest(&self, r: NodeRef) -> NodeRef
        requires has { Has self.now r }
        requires inner { 2 ≤ r }
        ensures { IsRest self.now (level_in (map_of self.now) r) (family_in self.now r) result }
    {
        self.extents[r.number() as usize].rest
    }

    /// What the node of a reference is: the least unit of its sets, the sets without that unit, and the sets with it.
    pub fn parts(&self, r: NodeRef) -> Parts
        requires has { Has self.now r }
        requires inner { 2 ≤ r }
        ensures { IsNodeOf self.now r result }
    {
        unpack(self.words[r.number() as usize])
    }

    /// A reference to a node: the sets of lo, and those of hi each with the level.
    pub fn node(&mut self, level: UnitNo, lo: NodeRef, hi: NodeRef) -> Result<NodeRef, Spent>
        requires has_lo { Has self.old lo }
        requires has_hi { Has self.old hi }
        requires filled { hi ≢ 0 }
        requires lo_above { IsAbove level (family_in self.old lo) }
        requires hi_above { IsAbove level (family_in self.old hi) }
        requires antichain { IsAntichain (branch level (family_in self.old lo) (family_in self.old hi)) }

        ensures has { IfOk result (λ r. Has self.new r) }
        ensures family { IfOk result (λ r. family_in self.new r
            ≡ branch level (family_in self.old lo) (family_in self.old hi)) }
        ensures used_up { IfErr result (λ _. IsUsedUp self.old) }

        // At most the one node is added.
        ensures words { MatchResult result (λ _. (self.new.words ≡ self.old.words)
            ⊎ (self.new.words ≡ self.old.words ++ packed level lo hi ∷ [])) (λ _. self.new.words ≡ self.old.words) }
        ensures keeps { Grown (map_of self.old) (map_of self.new) }
        ensures room { self.new.room ≡ self.old.room }
        ensures refused { MatchResult result (λ _. self.new.refused ≡ self.old.refused)
            (λ _. self.new.refused ≡ next_count self.old.refused) }
        ensures sound { IsSound self.new }
    {
        // Tells the proof that the level is a unit's number.
        level.number();
        let word = pack(level, lo, hi);
        match self.index.search(self.words.as_slice(), word) {
            Search::Found(r) => Ok(r),
            Search::Free(place) => self.add(word, Some(place)),
            Search::Nowhere => self.add(word, None),
        }
    }

    // A node that the index lacks, at the slot where its search ended.
    fn add(&mut self, word: u64, place: Option<usize>) -> Result<NodeRef, Spent>
        requires node { IsNode (map_of self.old) word }
        requires antichain { IsAntichain (word_family self.old word) }
        ensures { MatchResult result (λ r. IsAdded self.old word self.new r)
            (λ _. (self.new ≡ refusing self.old) × IsUsedUp self.old) }
    {
        let at = self.words.len();
        if at - 2 >= self.room {
            self.refused.add_one();
            return Err(Spent);
        }
        let extent = self.extent_of(word);
        match self.words.push(word) {
            Ok(()) => {}
            Err(_) => unreachable!(),
        }
        match self.extents.push(extent) {
            Ok(()) => {}
            Err(_) => unreachable!(),
        }
        let r = NodeRef::at_slot((at - 2) as u32);
        self.index.put(place, r);
        self.index.follow(self.words.as_slice());
        Ok(r)
    }

    /// The answer to a question, if it is kept.
    pub fn recall(&self, question: &Question) -> Option<NodeRef>
        ensures { IfSome result (λ answer. IsTold self.now (record { question = question.now; answer = answer })) }
    {
        self.answers.answer(question)
    }

    /// Keeps the answer to a question.
    pub fn remember(&mut self, entry: Entry)
        requires { IsTold self.old entry }
        ensures { self.new ≡ self.old }
    {
        self.answers.keep(entry);
    }

    /// Forgets all nodes. Their references stand for nothing any more.
    pub fn clear(&mut self)
        ensures { self.new ≡ record { words = 0 ∷ 0 ∷ []; room = self.old.room; refused = self.old.refused } }
    {
        self.words.truncate(2);
        self.extents.truncate(2);
        self.index.clear();
        self.answers.clear();
    }
}

//! The operations' seat and their answers, and the store's calls on that seat.
ghost use Rattle.std.specs.Prelude.{◌≡◌, ◌≢◌, ◌+◌, ◌-◌, ◌<◌, ◌≤◌, [], ◌++◌, IfSome, MatchResult};
ghost use Rattle.zdd_words.specs.Word.{packed};
ghost use Rattle.zdd_families.specs.Family.{IsAbove, branch, first_unit, sets_with, sets_without};
ghost use Rattle.zdd_families.specs.Map.{Knows, KnowsAs, Grown, family};
ghost use Rattle.zdd_shared_table.specs.Making.{KnowsBranch, LearnsWord, CountsRefused, NotesRefused, PassesSlots};
ghost use Rattle.zdd_shared_table.specs.Making.{FillsAtMostOne};
ghost use Rattle.zdd_shared_table.specs.Seats.{IsSoundSeat, map_of};
ghost use Rattle.zdd_shared_table.specs.Views.{no_probe};
ghost use Rattle.zdd_product.specs.Seats.{CanMake, Gave, IsBranch, WasFull};
ghost use Rattle.zdd_product.specs.Told.{Tells};

use kept_answers::{Answers, Entry, Operation, Question};
use std::alloc::Global;
use std::marker::Model;
use unit_sets::{NoMemory, UnitNo};
use zdd_shared_table::{Full, NodeStore, StoreSeat};
use zdd_words::{NodeRef, Parts};

// How many answers are kept.
const PLACES: usize = 65_536;

/// The operations on a store, for one thread: they work by a seat of their own and keep their answers.
#[derive(Drop)]
pub struct Ops<'s> {
    store: &'s NodeStore,
    seat: StoreSeat,
    answers: Answers,
}

impl<'s> Model for Ops<'s> {
    ghost use Rattle.zdd_shared_table.specs.Seats.{Seated};
    ghost use Rattle.zdd_product.specs.Held.{HoldsOps};

    ghost Value = { Seated };

    ghost view = { λ ops. ops.seat };

    ghost invariant = { λ ops. HoldsOps ops.store.now ops.seat ops.answers };
}

/// Memory was refused. The seat is the one that was given, and the cause may be handed on.
#[derive(Drop)]
pub struct OpsRefused {
    pub seat: StoreSeat,
    pub cause: NoMemory,
}

impl<'s> Ops<'s> {
    /// The operations on a store by a seat of it, with memory for the answers.
    pub fn new(alloc: Global, store: &'s NodeStore, seat: StoreSeat) -> Result<Ops<'s>, OpsRefused>
        requires { seat.store ≡ store.now }
        ensures seat { MatchResult result (λ ops. ops ≡ seat) (λ refused. refused.seat ≡ seat) }
        ensures sound { IsSoundSeat seat }
    {
        seat.is_sound();
        match Answers::new(alloc, PLACES) {
            Ok(answers) => Ok(Ops {
                store,
                seat,
                answers,
            }),
            Err(cause) => Err(OpsRefused { seat, cause }),
        }
    }

    /// The seat.
    pub fn into_seat(self) -> StoreSeat
        ensures { result ≡ self.entry }
    {
        let Ops {
            store: _,
            seat,
            answers: _,
        } = self;
        seat
    }

    /// Tells a proof what the seat keeps. Nothing is computed.
    pub fn is_sound(&self)
        ensures sound { IsSoundSeat self.now }
        ensures shares { 1 ≤ self.now.share }
    {
        self.seat.is_sound();
    }

    /// The reference of a node, as the store gives it to the seat.
    pub fn node(&mut self, level: UnitNo, lo: NodeRef, hi: NodeRef) -> Result<NodeRef, Full>
        requires knows_lo { Knows (map_of self.old) lo }
        requires knows_hi { Knows (map_of self.old) hi }
        requires filled { hi ≢ 0 }
        requires lo_above { IsAbove level (family (map_of self.old) lo) }
        requires hi_above { IsAbove level (family (map_of self.old) hi) }

        ensures family { KnowsBranch level lo hi result self.old self.new }
        ensures keeps { Grown (map_of self.old) (map_of self.new) }
        ensures known { LearnsWord (packed level lo hi) result self.old self.new }

        // A refused search passed every slot of the store and is counted, and no other is.
        ensures fulls { CountsRefused result self.old self.new }
        ensures missed { NotesRefused (packed level lo hi) result self.old self.new }
        ensures passed { PassesSlots self.old.store.words (packed level lo hi) result self.new }
        ensures fills { FillsAtMostOne result self.old self.new }
        ensures share { self.new.share ≡ self.old.share }
        ensures store { self.new.store ≡ self.old.store }
        ensures sound { IsSoundSeat self.new }
    {
        self.store.node(&mut self.seat, level, lo, hi)
    }

    /// What the node of a reference is: the least unit of its sets, the sets without that unit, and the sets with it.
    pub fn parts(&mut self, r: NodeRef) -> Parts
        requires knows { Knows (map_of self.old) r }
        requires inner { 2 ≤ r }
        ensures level { result.level ≡ first_unit (family (map_of self.old) r) }
        ensures lo { KnowsAs (map_of self.new) result.lo (sets_without result.level (family (map_of self.old) r)) }
        ensures hi { KnowsAs (map_of self.new) result.hi (sets_with result.level (family (map_of self.old) r)) }

        // What an operation needs to make such a node again.
        ensures branch { family (map_of self.new) r ≡ branch result.level (family (map_of self.new) result.lo)
            (family (map_of self.new) result.hi) }
        ensures filled { result.hi ≢ 0 }
        ensures lo_above { IsAbove result.level (family (map_of self.new) result.lo) }
        ensures hi_above { IsAbove result.level (family (map_of self.new) result.hi) }
        ensures word { map_of self.old r ≡ packed result.level result.lo result.hi }
        ensures seat { self.new ≡ self.old }
        ensures sound { IsSoundSeat self.new }
    {
        self.store.parts(&mut self.seat, r)
    }

    /// A seat for another thread, which knows what this one knows and takes a part of its share.
    pub fn split(&mut self, share: u64) -> StoreSeat
        requires some { 1 ≤ share }
        requires less { share < self.old.share }
        ensures known { result.known ≡ self.old.known }
        ensures fulls { (result.fulls ≡ 0) × (result.missed ≡ []) }
        ensures fills { result.fills ≡ [] }
        ensures share { result.share ≡ share }
        ensures store { result.store ≡ self.old.store }
        ensures probe { result.probe ≡ no_probe }
        ensures seat { self.new ≡ record self.old { share = self.old.share - share } }
        ensures sound { IsSoundSeat result × IsSoundSeat self.new }
    {
        self.store.split(&mut self.seat, share)
    }

    /// Takes in another seat of the store: all that it knows and has counted.
    pub fn join(&mut self, other: StoreSeat)
        requires { other.store ≡ self.old.store }
        ensures known { self.new.known ≡ self.old.known ++ other.known }
        ensures keeps { Grown (map_of self.old) (map_of self.new) }
        ensures gains { Grown (map_of other) (map_of self.new) }
        ensures fulls { self.new.fulls ≡ self.old.fulls + other.fulls }
        ensures missed { self.new.missed ≡ self.old.missed ++ other.missed }
        ensures fills { self.new.fills ≡ self.old.fills ++ other.fills }
        ensures share { self.new.share ≡ self.old.share + other.share }
        ensures store { self.new.store ≡ self.old.store }
        ensures probe { self.new.probe ≡ self.old.probe }
        ensures sound { IsSoundSeat self.new }
    {
        self.store.join(&mut self.seat, other)
    }

    // What an operation gives of two references, if it is kept.
    pub(crate) fn recall(&self, operation: Operation, a: NodeRef, b: NodeRef) -> Option<NodeRef>
        ensures { IfSome result (Tells (map_of self.now) operation a b) }
    {
        self.answers.answer(&Question {
            operation,
            first: a,
            second: b,
        })
    }

    // Keeps what an operation gives of two references.
    pub(crate) fn remember(&mut self, operation: Operation, a: NodeRef, b: NodeRef, answer: NodeRef)
        requires { Tells (map_of self.old) operation a b answer }
        ensures { self.new ≡ self.old }
    {
        let question = Question {
            operation,
            first: a,
            second: b,
        };
        self.answers.keep(Entry { question, answer });
    }

    // The node of a level above which all units of lo and hi are, or lo where hi has no sets.
    pub(crate) fn make(&mut self, level: UnitNo, lo: NodeRef, hi: NodeRef) -> Result<NodeRef, Full>
        requires { CanMake self.old level lo hi }
        ensures { let made = IsBranch level (family (map_of self.old) lo) (family (map_of self.old) hi) in
            MatchResult result (Gave made made self.old self.new) (λ _. WasFull made self.old self.new) }
    {
        // Tells the proof that the reference fits into a word, as the next call does of the other.
        lo.number();
        if hi.number() == 0 {
            return Ok(lo);
        }
        self.node(level, lo, hi)
    }
}

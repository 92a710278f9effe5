//! The store of nodes that threads share.
ghost use Rattle.std.specs.Prelude.{◌≡◌, ◌≢◌, ◌+◌, ◌-◌, ◌<◌, ◌≤◌, ◌^◌, ◌↔◌, [], ◌++◌, IfOk};
ghost use Rattle.std.specs.Prelude.{IsTrue};
ghost use Rattle.zdd_words.specs.Word.{packed};
ghost use Rattle.zdd_families.specs.Family.{IsAbove, branch, first_unit, sets_with, sets_without};
ghost use Rattle.zdd_families.specs.Map.{Knows, KnowsAs, Grown, family};
ghost use Rattle.zdd_shared_table.specs.Making.{KnowsBranch, LearnsWord, CountsRefused, NotesRefused, PassesSlots};
ghost use Rattle.zdd_shared_table.specs.Making.{FillsAtMostOne};
ghost use Rattle.zdd_shared_table.specs.Seats.{IsSoundSeat, map_of};
ghost use Rattle.zdd_shared_table.specs.Views.{no_probe, kept_back, split_off};

use crate::rule::{Cuts, Given, Looks, Merges, NodeRule, Reads};
use crate::search::{Place, Words, search};
use crate::seat::StoreSeat;
use crate::view::View;
use crate::zeros::zeros;
use atomic_table::Table;
use std::alloc::{AllocError, Global};
use std::marker::{Brand, Model};
use unit_sets::{NoMemory, UnitNo};
use zdd_words::{NodeRef, Parts, pack, unpack};

/// Every slot of the store is filled with a word other than the asked one.
#[derive(Clone, Copy, Debug, PartialEq, Eq)]
pub struct Full;

/// A table of nodes that threads fill at once.
#[derive(Drop)]
pub struct NodeStore {
    table: Table<(), View, u32, NodeRule, Global>,
    bits: u32,
}

impl Model for NodeStore {
    ghost use Rattle.std.specs.Prelude.{◌≡◌, ◌≤◌, ◌^◌};
    ghost use Rattle.atomic_table.specs.Seated.{TableId, table_id_coded};

    ghost Value = { TableId };

    ghost coded = { table_id_coded };

    ghost view = { λ s. s.table.shared.table_id };

    ghost invariant = { λ s. (10 ≤ s.bits) × (s.bits ≤ 25) × (s.table.shared.key ≡ s.bits)
        × (s.table.shared.table_id.words ≡ 2 ^ s.bits) };
}

/// An empty store, and its first seat.
#[derive(Drop)]
pub struct StoreStart {
    pub store: NodeStore,
    pub seat: StoreSeat,
}

impl NodeStore {
    /// A store of 2^bits empty slots, and a seat that knows the terminals alone.
    pub fn new(alloc: Global, bits: u32) -> Result<StoreStart, NoMemory>
        requires few { 10 ≤ bits }
        requires many { bits ≤ 25 }
        ensures slots { IfOk result (λ start. start.store.words ≡ 2 ^ bits) }
        ensures own { IfOk result (λ start. start.seat.store ≡ start.store) }
        ensures known { IfOk result (λ start. start.seat.known ≡ []) }
        ensures fulls { IfOk result (λ start. (start.seat.fulls ≡ 0) × (start.seat.missed ≡ [])) }
        ensures fills { IfOk result (λ start. start.seat.fills ≡ []) }
        ensures share { IfOk result (λ start. start.seat.share ≡ 2 ^ 32) }
        ensures sound { IfOk result (λ start. IsSoundSeat start.seat) }
    {
        let mut heap = Vec::new(alloc);
        let zeros = zeros(&mut heap, 1usize << bits)?;
        let (table, place) = Table::of_words(alloc, zeros, &bits)?;
        Ok(StoreStart {
            store: NodeStore { table, bits },
            seat: StoreSeat { place },
        })
    }

    /// The reference of a node. The seat then knows it as the sets of lo, and those of hi each with the level added.
    pub fn node(
        &self,
        seat: &mut StoreSeat,
        level: UnitNo,
        lo: NodeRef,
        hi: NodeRef,
    ) -> Result<NodeRef, Full>
        requires own { seat.old.store ≡ self.now }
        requires knows_lo { Knows (map_of seat.old) lo }
        requires knows_hi { Knows (map_of seat.old) hi }
        requires filled { hi ≢ 0 }
        requires lo_above { IsAbove level (family (map_of seat.old) lo) }
        requires hi_above { IsAbove level (family (map_of seat.old) hi) }

        ensures family { KnowsBranch level lo hi result seat.old seat.new }
        ensures keeps { Grown (map_of seat.old) (map_of seat.new) }
        ensures known { LearnsWord (packed level lo hi) result seat.old seat.new }

        // A refused search passed every slot of the store and is counted, and no other is.
        ensures fulls { CountsRefused result seat.old seat.new }
        ensures missed { NotesRefused (packed level lo hi) result seat.old seat.new }
        ensures passed { PassesSlots self.now.words (packed level lo hi) result seat.new }
        ensures fills { FillsAtMostOne result seat.old seat.new }
        ensures share { seat.new.share ≡ seat.old.share }
        ensures store { seat.new.store ≡ seat.old.store }
        ensures sound { IsSoundSeat seat.new }
    {
        // Tells the proof that the level is a unit's number.
        level.number();
        let word = pack(level, lo, hi);
        let size = self.table.word_count();
        let found = search(&self.table.shared, &mut seat.place, self.bits, size, word);
        match found {
            Some(slot) => Ok(NodeRef::at_slot(slot as u32)),
            None => Err(Full),
        }
    }

    /// What the node of a reference is: the least unit of its sets, the sets without that unit, and the sets with it.
    pub fn parts(&self, seat: &mut StoreSeat, r: NodeRef) -> Parts
        requires own { seat.old.store ≡ self.now }
        requires knows { Knows (map_of seat.old) r }
        requires inner { 2 ≤ r }
        ensures level { result.level ≡ first_unit (family (map_of seat.old) r) }
        ensures lo { KnowsAs (map_of seat.new) result.lo (sets_without result.level (family (map_of seat.old) r)) }
        ensures hi { KnowsAs (map_of seat.new) result.hi (sets_with result.level (family (map_of seat.old) r)) }

        // What an operation needs to make such a node again.
        ensures branch { family (map_of seat.new) r ≡ branch result.level (family (map_of seat.new) result.lo)
            (family (map_of seat.new) result.hi) }
        ensures filled { result.hi ≢ 0 }
        ensures lo_above { IsAbove result.level (family (map_of seat.new) result.lo) }
        ensures hi_above { IsAbove result.level (family (map_of seat.new) result.hi) }
        ensures word { map_of seat.old r ≡ packed result.level result.lo result.hi }
        ensures seat { seat.new ≡ seat.old }
        ensures sound { IsSoundSeat seat.new }
    {
        let slot = (r.number() - 2) as usize;
        let word = self.table.shared.load::<Reads>(&mut seat.place, slot);
        unpack(word)
    }

    /// Whether two references stand for one family.
    pub fn same(&self, seat: &mut StoreSeat, a: NodeRef, b: NodeRef) -> bool
        requires own { seat.old.store ≡ self.now }
        requires knows_a { Knows (map_of seat.old) a }
        requires knows_b { Knows (map_of seat.old) b }
        ensures families { IsTrue result ↔ (family (map_of seat.old) a ≡ family (map_of seat.old) b) }
        ensures references { IsTrue result ↔ (a ≡ b) }
        ensures seat { seat.new ≡ seat.old }
        ensures sound { IsSoundSeat seat.new }
    {
        // The rule tells at this step that different known references have different words.
        self.table.shared.load::<Looks>(&mut seat.place, 0);
        a == b
    }

    /// A seat for another thread, which knows what this one knows and takes a part of its share.
    pub fn split(&self, seat: &mut StoreSeat, share: u64) -> StoreSeat
        requires own { seat.old.store ≡ self.now }
        requires some { 1 ≤ share }
        requires less { share < seat.old.share }
        ensures known { result.known ≡ seat.old.known }
        ensures fulls { (result.fulls ≡ 0) × (result.missed ≡ []) }
        ensures fills { result.fills ≡ [] }
        ensures share { result.share ≡ share }
        ensures store { result.store ≡ seat.old.store }
        ensures probe { result.probe ≡ no_probe }
        ensures seat { seat.new ≡ record seat.old { share = seat.old.share - share } }
        ensures sound { IsSoundSeat result × IsSoundSeat seat.new }
    {
        StoreSeat {
            place: cut::<Brand>(&self.table.shared, &mut seat.place, share),
        }
    }

    /// Takes in a seat that was split off: all that it knows and has counted.
    pub fn join(&self, seat: &mut StoreSeat, other: StoreSeat)
        requires own { seat.old.store ≡ self.now }
        requires others { other.store ≡ self.now }
        ensures known { seat.new.known ≡ seat.old.known ++ other.known }
        ensures keeps { Grown (map_of seat.old) (map_of seat.new) }
        ensures gains { Grown (map_of other) (map_of seat.new) }
        ensures fulls { seat.new.fulls ≡ seat.old.fulls + other.fulls }
        ensures missed { seat.new.missed ≡ seat.old.missed ++ other.missed }
        ensures fills { seat.new.fills ≡ seat.old.fills ++ other.fills }
        ensures share { seat.new.share ≡ seat.old.share + other.share }
        ensures store { seat.new.store ≡ seat.old.store }
        ensures probe { seat.new.probe ≡ seat.old.probe }
        ensures sound { IsSoundSeat seat.new }
    {
        let StoreSeat { place } = other;
        self.table
            .shared
            .join_seat::<Merges>(&mut seat.place, place);
        // Only the rule tells that what both seats knew agrees.
        self.table.shared.load::<Looks>(&mut seat.place, 0);
    }
}

// Cuts a share off a seat's view.
fn cut<G: Given>(words: &Words, seat: &mut Place, share: u64) -> Place
    requires given { share ≡ G.share }
    requires own { seat.old.table_id ≡ words.now.table_id }
    requires some { 0 < words.now.table_id.words }
    ensures left { seat.new.me ≡ (kept_back share seat.old.me.0, seat.old.me.1) }
    ensures stays { (seat.new.table_id ≡ seat.old.table_id) × (seat.new.id ≡ seat.old.id) }
    ensures right { result.me ≡ (split_off share seat.old.me.0, []) }
    ensures at { result.table_id ≡ seat.old.table_id }
{
    words.split_seat::<Cuts<G>>(seat)
}

//! What the rule of the store says, for readers.
ghost use Rattle.std.specs.Prelude.{◌≡◌, ◌≢◌, ℕ, ◌+◌, ◌<◌, List, slice_index};
ghost use Rattle.atomic_table.specs.Table.{State};
ghost use Rattle.zdd_families.specs.Map.{Knows, family};
ghost use Rattle.zdd_shared_table.specs.declared.view.View.{View};
ghost use Rattle.zdd_shared_table.specs.Known.{find, placed};
ghost use Rattle.zdd_shared_table.specs.Rule.{round, HoldsNodes, Fits, ForgetsNothing, IsStore};

/// From any slot on, the places round the end meet each slot once.
pub fn places_meet_each_slot_once()
    ensures each { (size home slot : ℕ) → home < size → slot < size
        → (place : ℕ) × (place < size) × (round size (home + place) ≡ slot) }
    ensures once { (size home a b : ℕ) → home < size → a < size → b < size
        → round size (home + a) ≡ round size (home + b) → a ≡ b }
{}

/// Where a search has passed as many slots as there are, each slot holds a word, and none the asked one.
pub fn full_search_passed_every_slot()
    ensures { (home : ℕ → ℕ) (size : ℕ) (words : List ℕ) (v : View) → Fits home size words v → home v.probe.word < size
        → v.probe.passed ≡ size → (slot : ℕ) → slot < size
        → (slice_index words slot ≢ 0) × (slice_index words slot ≢ v.probe.word) }
{}

/// No two filled slots of a store stand for one family.
pub fn no_two_slots_have_one_family()
    ensures { (home : ℕ → ℕ) (size : ℕ) (words : List ℕ) → HoldsNodes home size words → (r q : ℕ) → placed words r ≢ 0
        → placed words q ≢ 0 → family (placed words) r ≡ family (placed words) q → r ≡ q }
{}

/// The family as which a seat knows a reference is its family in the whole store.
pub fn knowledge_is_of_the_store()
    ensures { (home : ℕ → ℕ) (size : ℕ) (words : List ℕ) (v : View) → HoldsNodes home size words
        → Fits home size words v → (r : ℕ) → Knows (find v.known) r
        → family (find v.known) r ≡ family (placed words) r }
{}

/// A word that stands in a slot stays there, as long as what each seat knew is known to some seat. No kind of step
/// forgets anything: a search adds to what its seat knows, a split leaves it to both, and a join has what both knew.
pub fn filled_words_stay()
    ensures { (bits : ℕ) (before after : State (Unit {0}) View) → IsStore bits before → IsStore bits after
        → ForgetsNothing before.views after.views
        → (slot : ℕ) → slice_index before.words slot ≢ 0
        → slice_index after.words slot ≡ slice_index before.words slot }
{}

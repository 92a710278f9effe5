//! The turn of a board: one step takes it, and one gives it back.
ghost use Rattle.std.specs.Prelude.{◌≡◌, ◌↔◌, ◌<◌, [], ◌∷◌, length, slice_get, Some, MatchBool, IfSome, IsNone};
ghost use Rattle.outage_board.specs.Histories.{docket_of};
ghost use Rattle.outage_board.specs.Boards.{next_entry, with_entry, IsUsedUp};
ghost use Rattle.outage_board.specs.Passes.{IsPass, entries_made};
ghost use Rattle.outage_board.specs.Turns.{MayTake, HasTaken, MayGive, HasGiven, StaysPass, held, made_with};

use crate::Entry;
use crate::rule::{Gives, Takes, TurnRule};
use crate::state::BoardState;
use crate::view::View;
use atomic_table::{Seat, Shared};
use crew_script::MOST_REQUESTS;
use std::snapshot::Snapshot;
use std::sync::Wait;
use std::thread;
use unit_sets::CrewNo;

/// The word and the slot of a board, as threads share them.
pub(crate) type Words = Shared<BoardState, View, Snapshot<BoardState>, TurnRule>;

/// What a thread steps with.
pub(crate) type Place = Seat<BoardState, View>;

// The value of the word while nobody has the turn, and while somebody has it.
pub(crate) const FREE: u64 = 0;

const TAKEN: u64 = 1;

// Takes the turn if nobody has it, and says whether it did.
fn try_take(words: &Words, place: &mut Place) -> bool
    requires own { place.old.table_id ≡ words.now.table_id }
    requires word { 0 < words.now.table_id.words }
    requires may { MayTake words.now.key.value.deck place.old.me }
    ensures stays { StaysPass place.old place.new }
    ensures taken { MatchBool result (HasTaken place.old.me place.new.me) (place.new.me ≡ place.old.me) }
{
    words.compare_exchange::<Takes>(place, 0, FREE, TAKEN) == FREE
}

// Takes the turn, however long others have it.
fn take<W: Wait>(rt: &W, words: &Words, place: &mut Place)
    requires own { place.old.table_id ≡ words.now.table_id }
    requires word { 0 < words.now.table_id.words }
    requires may { MayTake words.now.key.value.deck place.old.me }
    ensures stays { StaysPass place.old place.new }
    ensures taken { HasTaken place.old.me place.new.me }
{
    for _ in rt.forever() {
        if try_take(words, place) {
            break;
        }
        thread::yield_now();
    }
}

// Gives the turn back with the state.
fn give(words: &Words, place: &mut Place)
    requires own { place.old.table_id ≡ words.now.table_id }
    requires word { 0 < words.now.table_id.words }
    requires may { MayGive words.now.key.value.deck place.old.me }
    ensures stays { StaysPass place.old place.new }
    ensures given { HasGiven place.old.me place.new.me }
{
    words.swap::<Gives>(place, 0, FREE);
}

// Serves a crew on the state that the place holds.
fn serve_held(words: &Words, place: &mut Place, crew: CrewNo) -> Option<Entry>
    requires own { place.old.table_id ≡ words.now.table_id }
    requires holds { place.old.me.1 ≡ (0, held place.old.me.1) ∷ [] }
    requires crew { crew.0 < length (held place.old.me.1).deck.crews }
    ensures entry { result ≡ next_entry (held place.old.me.1) crew }
    ensures used_up { IsNone result ↔ IsUsedUp (held place.old.me.1) crew.0 }
    ensures place { IfSome result (λ entry. entry.place < MOST_REQUESTS) }
    ensures holds { place.new.me ≡ (place.old.me.0, (0, with_entry (held place.old.me.1) result) ∷ []) }
    ensures stays { StaysPass place.old place.new }
{
    place.slot_mut(words, 0).serve(crew)
}

/// Waits for the turn, serves the next request of the place's crew, and gives the turn back.
pub(crate) fn serve_in_turn<W: Wait>(
    rt: &W,
    words: &Words,
    place: &mut Place,
    crew: CrewNo,
) -> Option<Entry>
    requires own { place.old.table_id ≡ words.now.table_id }
    requires word { 0 < words.now.table_id.words }
    requires deck { place.old.me.0.opened.deck ≡ words.now.key.value.deck }
    requires pass { IsPass place.old.me crew }
    ensures none { IsNone result ↔ (length (entries_made place.old.me.0.crews)
        ≡ length (docket_of place.old.me.0.opened.deck.dockets crew.0)) }
    ensures crew { IfSome result (λ entry. entry.crew ≡ crew) }
    ensures place { IfSome result (λ entry. entry.place ≡ length (entries_made place.old.me.0.crews)) }
    ensures request { IfSome result (λ entry.
        slice_get (docket_of place.old.me.0.opened.deck.dockets crew.0) entry.place ≡ Some entry.request) }
    ensures low { IfSome result (λ entry. entry.place < MOST_REQUESTS) }
    ensures made { entries_made place.new.me.0.crews ≡ made_with result (entries_made place.old.me.0.crews) }
    ensures opened { place.new.me.0.opened ≡ place.old.me.0.opened }
    ensures pass { IsPass place.new.me crew }
    ensures stays { StaysPass place.old place.new }
{
    take(rt, words, place);
    let entry = serve_held(words, place, crew);
    give(words, place);
    entry
}

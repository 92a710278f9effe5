//! The turn of a live board: one step takes it, and one gives it back. What stands between is plain memory.
ghost use Rattle.std.specs.Prelude.{◌≡◌, ◌<◌, ◌≤◌, [], ◌∷◌, length, vec_capacity, MatchBool};
ghost use Rattle.margin_policy.specs.Standing.{IsRequestFor};
ghost use Rattle.live_board.specs.Histories.{made_by};
ghost use Rattle.live_board.specs.Boards.{IsLive, IsAnswer, after_answer, IfAnswered};
ghost use Rattle.live_board.specs.Passes.{IsFirst};
ghost use Rattle.live_board.specs.Turns.{IsIdle, HasTaken, MayGive, HasGiven, StaysPlace, held, state_of};
ghost use Rattle.live_board.specs.Turns.{HasHadTurn, HasAsked};

use crate::entry::{Answer, Call, LiveEntry, MOST_ENTRIES};
use crate::rule::{Gives, Takes};
use crate::table::{FREE, Place, TAKEN, Words};
use std::sync::Wait;
use std::thread;

// Takes the turn if nobody has it, and says whether it did.
fn try_take(words: &Words, place: &mut Place) -> bool
    requires own { place.old.table_id ≡ words.now.table_id }
    requires word { 0 < words.now.table_id.words }
    requires may { IsIdle words.now.key.value.setup place.old.me }
    ensures stays { StaysPlace place.old place.new }
    ensures taken { MatchBool result (HasTaken place.old.me place.new.me) (place.new.me ≡ place.old.me) }
{
    words.compare_exchange::<Takes>(place, 0, FREE, TAKEN) == FREE
}

// Takes the turn, however long others have it.
fn take<W: Wait>(rt: &W, words: &Words, place: &mut Place)
    requires own { place.old.table_id ≡ words.now.table_id }
    requires word { 0 < words.now.table_id.words }
    requires may { IsIdle words.now.key.value.setup place.old.me }
    ensures stays { StaysPlace place.old place.new }
    ensures taken { HasTaken place.old.me place.new.me }
{
    for _ in rt.forever() {
        if try_take(words, place) {
            break;
        }
        thread::yield_now();
    }
}

// Gives the turn back with the state.
fn give(words: &Words, place: &mut Place)
    requires own { place.old.table_id ≡ words.now.table_id }
    requires word { 0 < words.now.table_id.words }
    requires may { MayGive words.now.key.value.setup place.old.me }
    ensures stays { StaysPlace place.old place.new }
    ensures given { HasGiven place.old.me place.new.me }
{
    words.swap::<Gives>(place, 0, FREE);
}

// Answers a call on the state that the place holds.
fn answer_held(words: &Words, place: &mut Place, call: &Call) -> Answer
    requires own { place.old.table_id ≡ words.now.table_id }
    requires holds { place.old.me.1 ≡ (0, held place.old.me.1) ∷ [] }
    requires asked { IsRequestFor (held place.old.me.1).setup.opening.units call.now.request }
    requires place { call.now.place ≡ length (made_by call.now.pass (held place.old.me.1).history) }
    ensures right { IsAnswer (held place.old.me.1) call.now result }
    ensures live { IsLive (after_answer (held place.old.me.1) call.now result) }
    ensures low { IfAnswered result (λ reply. call.now.place < MOST_ENTRIES) }
    ensures holds { place.new.me
        ≡ (place.old.me.0, (0, after_answer (held place.old.me.1) call.now result) ∷ []) }
    ensures stays { StaysPlace place.old place.new }
{
    place.slot_mut(words, 0).answer(call)
}

// Copies the history of the state that the place holds.
fn copy_held(words: &Words, place: &mut Place, entries: &mut Vec<LiveEntry>)
    requires own { place.old.table_id ≡ words.now.table_id }
    requires holds { place.old.me.1 ≡ (0, held place.old.me.1) ∷ [] }
    requires empty { entries.old.items ≡ [] }
    requires room { (held place.old.me.1).setup.room ≤ vec_capacity entries.old }
    ensures entries { entries.new.items ≡ (held place.old.me.1).history }
    ensures live { IsLive (held place.old.me.1) }
    ensures same { place.new.me ≡ place.old.me }
    ensures stays { StaysPlace place.old place.new }
{
    place.slot_mut(words, 0).copy_into(entries);
}

/// Waits for the turn, answers a call with the place's pass, and gives the turn back.
pub(crate) fn ask_in_turn<W: Wait>(rt: &W, words: &Words, place: &mut Place, call: &Call) -> Answer
    requires own { place.old.table_id ≡ words.now.table_id }
    requires word { 0 < words.now.table_id.words }
    requires may { IsIdle words.now.key.value.setup place.old.me }
    requires number { call.now.pass ≡ place.old.me.0.number }
    requires first { IsFirst place.old.me.0.own call.now.pass call.now.place }
    requires asked { IsRequestFor place.old.me.0.opened.setup.opening.units call.now.request }
    ensures turn { HasAsked place.old.me call.now result place.new.me }
    ensures low { IfAnswered result (λ reply. call.now.place < MOST_ENTRIES) }
    ensures stays { StaysPlace place.old place.new }
{
    take(rt, words, place);
    let answer = answer_held(words, place, call);
    give(words, place);
    answer
}

/// Waits for the turn, copies the history into a list that has room for it, and gives the turn back.
pub(crate) fn copy_in_turn<W: Wait>(
    rt: &W,
    words: &Words,
    place: &mut Place,
    entries: &mut Vec<LiveEntry>,
)
    requires own { place.old.table_id ≡ words.now.table_id }
    requires word { 0 < words.now.table_id.words }
    requires may { IsIdle words.now.key.value.setup place.old.me }
    requires empty { entries.old.items ≡ [] }
    requires room { place.old.me.0.opened.setup.room ≤ vec_capacity entries.old }
    ensures turn { HasHadTurn place.old.me entries.new.items entries.new.items place.new.me }
    ensures live { IsLive (state_of place.old.me.0 entries.new.items) }
    ensures stays { StaysPlace place.old place.new }
{
    take(rt, words, place);
    copy_held(words, place, entries);
    give(words, place);
}

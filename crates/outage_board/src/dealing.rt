//! Passes are dealt when a board is opened, and gathered when it is closed.
ghost use Rattle.std.specs.Prelude.{◌≡◌, ◌+◌, ◌-◌, ◌<◌, ◌≤◌, [], ◌∷◌, ◌++◌, length, vec_capacity};
ghost use Rattle.outage_board.specs.Views.{first_view};
ghost use Rattle.outage_board.specs.Passes.{new_pass, new_passes, AreOf};
ghost use Rattle.outage_board.specs.Dealing.{board_of, undealt, IsGathered, made_back};

use crate::pass::{CrewPass, Passes};
use crate::rule::{Deals, Enters, Gathers};
use crate::turns::{Place, Words};
use unit_sets::CrewNo;

// The pass of the first crew that has none yet.
fn deal(words: &Words, place: &mut Place, crew: CrewNo, left: u32) -> CrewPass
    requires own { place.old.table_id ≡ words.now.table_id }
    requires word { 0 < words.now.table_id.words }
    requires some { 0 < left }
    requires place { place.old.me ≡ (undealt words.now.key crew.0 left, []) }
    ensures pass { result ≡ new_pass (board_of words.now.table_id words.now.key) crew.0 }
    ensures own { place.new.table_id ≡ words.now.table_id }
    ensures place { place.new.me ≡ (undealt words.now.key (crew.0 + 1) (left - 1), []) }
{
    CrewPass {
        seat: words.split_seat::<Deals>(place),
        crew,
        next: 0,
    }
}

/// A pass for each crew, in the order of the crews.
pub(crate) fn dealt(
    words: &Words,
    place: Place,
    crews: u32,
    mut passes: Vec<CrewPass>,
) -> Vec<CrewPass>
    requires own { place.table_id ≡ words.now.table_id }
    requires word { 0 < words.now.table_id.words }
    requires place { place.me ≡ (first_view words.now.key.value, []) }
    requires crews { crews ≡ length words.now.key.value.deck.crews }
    requires empty { passes.items ≡ [] }
    requires room { crews ≤ vec_capacity passes }
    ensures passes { result.items ≡ new_passes (board_of words.now.table_id words.now.key) 0 crews }
    ensures room { crews ≤ vec_capacity result }
{
    let mut place = place;
    for number in 0..crews {
        let pass = deal(words, &mut place, CrewNo(number), crews - number);
        passes.push_reserved(pass);
    }
    passes
}

// A place without crews.
fn enter(words: &Words) -> Place
    requires word { 0 < words.now.table_id.words }
    ensures own { result.table_id ≡ words.now.table_id }
    ensures place { IsGathered words.now.key.value.deck result.me }
    ensures none { result.me.0.crews ≡ [] }
{
    let (_, place) = words.load_new_seat::<Enters>(0);
    place
}

// Takes in a pass.
fn gather(words: &Words, place: &mut Place, pass: CrewPass)
    requires own { place.old.table_id ≡ words.now.table_id }
    requires word { 0 < words.now.table_id.words }
    requires place { IsGathered words.now.key.value.deck place.old.me }
    requires pass { pass.board ≡ board_of words.now.table_id words.now.key }
    ensures own { place.new.table_id ≡ words.now.table_id }
    ensures place { IsGathered words.now.key.value.deck place.new.me }
    ensures crews { place.new.me.0.crews ≡ place.old.me.0.crews ++ made_back (pass ∷ []) }
{
    let CrewPass { seat, .. } = pass;
    words.join_seat::<Gathers>(place, seat);
}

/// One place with the crews of all passes.
pub(crate) fn gathered(words: &Words, mut passes: Passes) -> Place
    requires word { 0 < words.now.table_id.words }
    requires own { AreOf (board_of words.now.table_id words.now.key) passes.passes }
    ensures own { result.table_id ≡ words.now.table_id }
    ensures place { IsGathered words.now.key.value.deck result.me }
    ensures crews { result.me.0.crews ≡ made_back passes.passes }
{
    let mut place = enter(words);
    while let Some(pass) = passes.pop() {
        gather(words, &mut place, pass);
    }
    place
}

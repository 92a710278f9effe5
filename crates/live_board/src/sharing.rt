//! Places at a live board's table are divided and united, so that each thread has one of its own.
ghost use Rattle.std.specs.Prelude.{◌≡◌, ◌<◌, [], length};
ghost use Rattle.live_board.specs.Views.{of_new, of_old};
ghost use Rattle.live_board.specs.Turns.{IsIdle, HasLooked, HasJoined, StaysPlace};

use crate::rule::{Divides, Looks, Unites};
use crate::table::{Place, Words};

/// A new place, which gets the first spare number of another.
pub(crate) fn divide(words: &Words, place: &mut Place) -> Place
    requires own { place.old.table_id ≡ words.now.table_id }
    requires word { 0 < words.now.table_id.words }
    requires may { IsIdle words.now.key.value.setup place.old.me }
    requires spare { 0 < length place.old.me.0.spare }
    ensures stays { StaysPlace place.old place.new }
    ensures old { place.new.me ≡ (of_old place.old.me.0, []) }
    ensures own { result.table_id ≡ words.now.table_id }
    ensures new { result.me ≡ (of_new place.old.me.0, []) }
{
    words.split_seat::<Divides>(place)
}

// Finds out what the board's rule says of a place.
fn look(words: &Words, place: &mut Place)
    requires own { place.old.table_id ≡ words.now.table_id }
    requires word { 0 < words.now.table_id.words }
    requires may { IsIdle words.now.key.value.setup place.old.me }
    ensures stays { StaysPlace place.old place.new }
    ensures looked { HasLooked place.old.me place.new.me }
{
    words.load::<Looks>(place, 0);
}

/// Takes another place in, and finds out which of both has seen more.
pub(crate) fn unite(words: &Words, place: &mut Place, other: Place)
    requires own { place.old.table_id ≡ words.now.table_id }
    requires its { other.table_id ≡ words.now.table_id }
    requires word { 0 < words.now.table_id.words }
    requires may { IsIdle words.now.key.value.setup place.old.me }
    requires may_it { IsIdle words.now.key.value.setup other.me }
    ensures stays { StaysPlace place.old place.new }
    ensures joined { HasJoined place.old.me other.me place.new.me }
{
    words.join_seat::<Unites>(place, other);
    look(words, place);
}

//! The summary of a made deck: what is found in it, and what comes of its requests on a board.
ghost use Rattle.std.specs.Prelude.{◌≡◌, ◌<◌, ◌≤◌, ◌∷◌, [], length, Some, None, IfOk, IfErr, MatchBool};
ghost use Rattle.outage_board.specs.Boards.{IsUsedUp};
ghost use Rattle.outage_board.specs.Histories.{IsLegal, IsWhole};
ghost use Rattle.tree_maker.specs.MadeDeck.{made_deck};
ghost use Rattle.tree_maker.specs.WellMade.{made_crew};
ghost use Rattle.outage_engine.specs.Answers.{HasOrders, IfRefused, IsFaultOfDeck, IsLimitOf, IsOfUnits, IsRefusalFor};
ghost use Rattle.outage_engine.specs.Answers.{summed_text};
ghost use Rattle.deck_reading.specs.Faults.{IsWellFormed};
ghost use Rattle.outage_engine.specs.Means.{IsSeatFor};
ghost use Rattle.outage_engine.specs.Store.{IsFoundBy, IsLeftFor, method_by};
ghost use Rattle.outage_engine.specs.StoreAfter.{BearsOut, IsLeftBy};
ghost use Rattle.outage_engine.specs.Summaries.{IsServedFor, IsSummaryOf, left_of_first};
ghost use Rattle.outage_engine.specs.Texts.{IsSummaryText, for_summary, summed_margin, summed_most};
ghost use Rattle.deck_reading.specs.declared.deck.CrewPart.TheVariants.{Needed};
ghost use Rattle.outage_engine.specs.declared.status.Status.TheVariants.{Done};

use crate::input::deck_of;
use crate::listing::{Listing, list_tree};
use crate::means::{Asked, Means};
use crate::refusal::RunEnd;
use crew_script::Dockets;
use deck_limits::HIGHEST_MADE;
use deck_reading::{CrewPart, DeckParts};
use fault_model::Tree;
use outage_board::BoardState;
use std::alloc::Global;
use std::thread::Threads;
use tree_maker::made;
use unit_sets::CrewNo;
use zdd_shared_table::StoreSeat;

/// Orders are listed for sets of at most six members, and four threads search for cut sets and orders.
const ASKED: Asked = Asked {
    most: 6,
    workers: 4,
};

/// The opening margin of the board.
const MARGIN: u32 = 1;

/// A made deck in sum: its number, the cut list of its tree with the failing orders, and a board on which all requests
/// of its crew were decided.
#[derive(Drop)]
pub(crate) struct Summary {
    pub number: u32,
    pub listing: Listing,
    pub board: BoardState,
}

/// The made deck of a number in sum. No input is read.
pub(crate) fn sum_made<R: Threads + Sync>(
    means: &Means<R>,
    number: u32,
    seat: &mut StoreSeat,
) -> Result<Summary, RunEnd>
    requires number { number ≤ HIGHEST_MADE }
    requires seat { IsSeatFor means.now.store.now seat.old }
    ensures text { IfOk result (λ summary. IsSummaryText number (summed_text summary)) }
    ensures writable { IfOk result HasOrders }
    ensures bears { IfOk result (λ summary. BearsOut (Some (made_deck number)) None None seat.old seat.new
        (Done (method_by summary.listing.root))) }
    ensures refused { IfErr result (IfRefused (IsRefusalFor (Some (made_deck number)) for_summary None None ⊥)) }
    ensures left { IsLeftBy (Some (made_deck number)) None None seat.old seat.new }
{
    match read_made(means.alloc, number) {
        Ok(deck) => {
            let summed = sum_deck(means, number, deck.tree, &deck.crews, seat);
            drop(deck.crews);
            summed
        }
        Err(end) => Err(end),
    }
}

// The tree and the crew of the made deck of a number, read as any deck is.
fn read_made(alloc: Global, number: u32) -> Result<DeckParts, RunEnd>
    requires { number ≤ HIGHEST_MADE }
    ensures deck { IfOk result (λ deck. IsWellFormed Needed (made_deck number) deck.tree deck.crews) }
    ensures crew { IfOk result (λ deck. deck.crews ≡ Some (made_crew number ∷ [])) }
    ensures refused { IfErr result (IfRefused (IsFaultOfDeck Needed (made_deck number))) }
{
    let bytes = made(alloc, number)?;
    deck_of(alloc, CrewPart::Needed, bytes)
}

// What is found in a tree, and what comes of the requests of its one crew. The crew is only read, so that no way out
// of here lets it go.
fn sum_deck<R: Threads + Sync>(
    means: &Means<R>,
    number: u32,
    tree: Tree,
    crews: &Option<Dockets>,
    seat: &mut StoreSeat,
) -> Result<Summary, RunEnd>
    requires crew { crews.now ≡ Some (made_crew number ∷ []) }
    requires seat { IsSeatFor means.now.store.now seat.old }
    ensures summed { IfOk result (IsSummaryOf number tree (made_crew number ∷ [])) }
    ensures found { IfOk result (λ summary. IsFoundBy seat.old seat.new tree (method_by summary.listing.root)) }
    ensures limit { IfErr result (IfRefused (IsLimitOf summed_most tree)) }
    ensures left { IsLeftFor tree seat.old seat.new }
{
    let Some(dockets) = crews else { unreachable!() };
    match list_tree(means, ASKED, tree, seat) {
        Ok(listing) => serve_listing(means.alloc, number, listing, dockets),
        Err(end) => Err(end),
    }
}

// A board of a cut list and one crew, on which all its requests were decided.
fn serve_listing(
    alloc: Global,
    number: u32,
    listing: Listing,
    dockets: &Dockets,
) -> Result<Summary, RunEnd>
    requires units { IsOfUnits listing }
    requires one { length dockets.now ≡ 1 }
    ensures summed { IfOk result (λ summary. IsServedFor number listing dockets.now summary) }
    ensures free { IfErr result (λ end. end ≡ RunEnd.NoMemory) }
{
    match BoardState::open(alloc, &listing.tree, &listing.cuts, dockets, MARGIN) {
        Ok(mut board) => {
            serve_crew(&mut board);
            Ok(Summary {
                number,
                listing,
                board,
            })
        }
        Err(end) => {
            drop(listing);
            Err(RunEnd::from(end))
        }
    }
}

// Decides all requests of the one crew of a board.
fn serve_crew(board: &mut BoardState)
    requires one { length board.old.deck.crews ≡ 1 }
    ensures deck { board.new.deck ≡ board.old.deck }
    ensures legal { IsLegal board.new.deck.opening board.new.history }
    ensures whole { IsWhole board.new.deck.dockets board.new.history }
{
    while serve_next(board) {}
    // Tells the proof what every board keeps.
    board.entries();
}

// Decides the next request of the one crew of a board, and says whether one was left.
fn serve_next(board: &mut BoardState) -> bool
    requires one { length board.old.deck.crews ≡ 1 }
    ensures deck { board.new.deck ≡ board.old.deck }
    ensures left { MatchBool result (left_of_first board.new < left_of_first board.old) (IsUsedUp board.new 0) }
{
    board.serve(CrewNo(0)).is_some()
}

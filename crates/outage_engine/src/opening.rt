//! A board for the deck that the source holds, before anything is written and any crew is served.
ghost use Rattle.std.specs.Prelude.{◌≡◌, ◌≤◌, IsSome, Some, None, IfOk, IfErr};
ghost use Rattle.event_counts.specs.Count.{Rose};
ghost use Rattle.outage_engine.specs.Answers.{IfRefused, IsLimitOf, IsOfUnits, IsRefusalFor};
ghost use Rattle.outage_engine.specs.Gives.{OfInput};
ghost use Rattle.outage_engine.specs.Means.{IsBoardAskable, IsSeatFor, SaysBoard};
ghost use Rattle.outage_engine.specs.Openings.{IsOpened, IsOpenedFor, IsOpenedWith, IsReady};
ghost use Rattle.outage_engine.specs.Runs.{IsBoard};
ghost use Rattle.outage_engine.specs.Store.{IsFoundBy, IsLeftFor, method_by};
ghost use Rattle.outage_engine.specs.StoreAfter.{BearsOut, IsLeftBy};
ghost use Rattle.outage_engine.specs.Texts.{for_board};
ghost use Rattle.outage_engine.specs.declared.status.Status.TheVariants.{Done};

use crate::input::read_input;
use crate::listing::{Listing, list_tree};
use crate::means::{Asked, BoardAsked, Means};
use crate::refusal::RunEnd;
use board_words::{Command, Word, numbers_are_within_bounds, read};
use crew_script::Dockets;
use deck_limits::GREATEST_MARGIN;
use deck_reading::CrewPart;
use edge_io::Source;
use fault_model::Tree;
use outage_board::{Board, BoardStart};
use std::alloc::Global;
use std::thread::Threads;
use zdd_shared_table::StoreSeat;

/// A board that is open, with what is printed before its log.
#[derive(Drop)]
pub(crate) struct Opened {
    pub listing: Listing,
    pub start: BoardStart,
}

/// The command `board` that the words say.
pub(crate) fn asked_by(words: &[Word]) -> BoardAsked
    requires command { IsBoard words.now }
    ensures said { SaysBoard words.now result }
    ensures asked { IsBoardAskable result }
{
    numbers_are_within_bounds();
    match read(words) {
        Some(
            Command::Board {
                margin,
                most,
                workers,
            },
        ) => BoardAsked {
            margin,
            asked: Asked { most, workers },
        },
        _ => unreachable!(),
    }
}

/// The board of the deck that the source holds, as it is asked for.
pub(crate) fn open_input<R: Threads + Sync, S: Source>(
    means: &Means<R>,
    board: BoardAsked,
    source: &mut S,
    seat: &mut StoreSeat,
) -> Result<Opened, RunEnd>
    requires asked { IsBoardAskable board }
    requires seat { IsSeatFor means.now.store.now seat.old }
    ensures opened { IfOk result (λ opened. OfInput (S.held source.old) (S.held source.new)
        (λ bytes. IsOpened board.margin board.asked.most bytes opened)) }
    ensures ready { IfOk result IsReady }
    ensures bears { IfOk result (λ opened. BearsOut None (S.held source.old) (S.held source.new) seat.old seat.new
        (Done (method_by opened.listing.root))) }
    ensures refused { IfErr result (IfRefused (IsRefusalFor None (for_board board.asked.most) (S.held source.old)
        (S.held source.new) (Rose (S.faults source.old) (S.faults source.new)))) }
    ensures left { IsLeftBy None (S.held source.old) (S.held source.new) seat.old seat.new }
{
    match read_input(means.alloc, CrewPart::Needed, source) {
        Ok(deck) => {
            let opened = open_deck(means, board, deck.tree, &deck.crews, seat);
            drop(deck.crews);
            opened
        }
        Err(end) => Err(end),
    }
}

// The board of a tree and its crews. They are only read, so that no way out of here lets them go.
fn open_deck<R: Threads + Sync>(
    means: &Means<R>,
    board: BoardAsked,
    tree: Tree,
    crews: &Option<Dockets>,
    seat: &mut StoreSeat,
) -> Result<Opened, RunEnd>
    requires asked { IsBoardAskable board }
    requires crews { IsSome crews.now }
    requires seat { IsSeatFor means.now.store.now seat.old }
    ensures opened { IfOk result (IsOpenedFor board.margin board.asked.most tree crews.now) }
    ensures ready { IfOk result IsReady }
    ensures found { IfOk result (λ opened. IsFoundBy seat.old seat.new tree (method_by opened.listing.root)) }
    ensures limit { IfErr result (IfRefused (IsLimitOf board.asked.most tree)) }
    ensures left { IsLeftFor tree seat.old seat.new }
{
    let Some(dockets) = crews else { unreachable!() };
    match list_tree(means, board.asked, tree, seat) {
        Ok(listing) => open_listing(means.alloc, board.margin, listing, dockets),
        Err(end) => Err(end),
    }
}

// The board of a cut list and crews.
fn open_listing(
    alloc: Global,
    margin: u32,
    listing: Listing,
    dockets: &Dockets,
) -> Result<Opened, RunEnd>
    requires margin { margin ≤ GREATEST_MARGIN }
    requires units { IsOfUnits listing }
    ensures opened { IfOk result (IsOpenedWith margin listing (Some dockets.now)) }
    ensures free { IfErr result (λ end. end ≡ RunEnd.NoMemory) }
{
    match Board::open(alloc, &listing.tree, &listing.cuts, dockets, margin) {
        Ok(start) => Ok(Opened { listing, start }),
        Err(end) => {
            drop(listing);
            Err(RunEnd::from(end))
        }
    }
}

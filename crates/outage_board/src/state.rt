//! The state of a board: a deck and the history so far.
ghost use Rattle.std.specs.Prelude.{◌≡◌, ◌↔◌, ◌-◌, ◌<◌, ◌≤◌, [], ◌∷◌, ◌++◌, length, slice_get, Some, IfOk, IfSome};
ghost use Rattle.std.specs.Prelude.{IsNone};
ghost use Rattle.residual_ledger.specs.Residual.{HasUnitsUpTo};
ghost use Rattle.fault_definitions.specs.Tree.{unit_count};
ghost use Rattle.outage_board.specs.Histories.{served, docket_of};

use crate::Entry;
use crate::docket::Docket;
use crate::requests::{all_requests, supervisor_of};
use crew_script::{Dockets, MOST_REQUESTS};
use deck_limits::GREATEST_MARGIN;
use fault_model::Tree;
use margin_policy::Standing;
use std::alloc::Global;
use std::marker::{Model, PhantomData};
use unit_sets::{CrewNo, CutList, NoMemory, UnitNo};

/// The deck of a board and its history. Every board keeps that its history is legal, and that the entries of each
/// crew are the first requests of its docket, each once and in order.
///
/// Only `open` takes memory.
#[derive(Drop)]
pub struct BoardState {
    dockets: Dockets,
    opening_margin: u32,
    // what each crew asks, and the place of its next request
    requests: Vec<Docket>,
    places: Vec<u32>,
    standing: Standing,
    history: Vec<Entry>,
    // Takes no bytes: a call that moves an entry has to be told of the types inside its request.
    inside: PhantomData<UnitNo>,
}

impl Model for BoardState {
    ghost use Rattle.std.specs.Prelude.{vec_capacity};
    ghost use Rattle.outage_board.specs.Boards.{BoardView};
    ghost use Rattle.outage_board.specs.Kept.{emptied, KeepsBoard};

    ghost Value = { BoardView };

    ghost view = { λ s. record {
      deck = record {
        opening = emptied s.opening_margin s.standing;
        crews = s.dockets;
        dockets = s.requests.items;
      };
      history = s.history.items;
    } };

    ghost invariant = { λ s. KeepsBoard (record {
      deck = record {
        opening = emptied s.opening_margin s.standing;
        crews = s.dockets;
        dockets = s.requests.items;
      };
      history = s.history.items;
    }) s.standing s.places.items (vec_capacity s.history) };
}

impl BoardState {
    ghost use Rattle.outage_board.specs.Boards.{deck_of, standing_of, next_entry, with_entry, IsUsedUp, IsBoard};

    /// A board with the empty history, at the opening margin. Its supervisor is the crew that is named `supervisor`.
    pub fn open(
        alloc: Global,
        tree: &Tree,
        cuts: &CutList,
        dockets: &Dockets,
        margin: u32,
    ) -> Result<BoardState, NoMemory>
        requires known { HasUnitsUpTo (unit_count tree.now) cuts.now }
        requires margin { margin ≤ GREATEST_MARGIN }
        ensures { IfOk result (λ board. board ≡ record {
          deck = deck_of tree.now cuts.now dockets.now margin;
          history = [];
        }) }
    {
        let places = vec![in alloc; 0; dockets.crews() as usize]?;
        let history = Vec::with_capacity(alloc, dockets.total() as usize)?;
        let requests = all_requests(alloc, tree, dockets)?;
        let supervisor = supervisor_of(dockets);
        // The largest parts come last, so that they are let go on few ways out.
        let kept = dockets.copied(alloc)?;
        match Standing::new(alloc, tree.units(), cuts, margin, supervisor) {
            Ok(standing) => Ok(BoardState {
                dockets: kept,
                opening_margin: margin,
                requests,
                places,
                standing,
                history,
                inside: PhantomData,
            }),
            Err(end) => {
                drop(kept);
                drop(requests);
                Err(end)
            }
        }
    }

    // The entry of a crew's next request.
    fn next_entry(&self, crew: CrewNo) -> Option<Entry>
        requires { crew.0 < length self.now.deck.crews }
        ensures entry { result ≡ next_entry self.now crew }
        ensures place { IfSome result (λ entry. entry.place < MOST_REQUESTS) }
        ensures kept { IsBoard self.now }
    {
        let place = self.places[crew.0 as usize];
        let request = self.requests[crew.0 as usize]
            .as_slice()
            .get(place as usize)?;
        Some(Entry {
            crew,
            place,
            request: *request,
            reply: self.standing.decide(crew, request),
        })
    }

    // Applies the entry of a crew's next request, and keeps it.
    fn keep(&mut self, entry: &Entry)
        requires crew { entry.now.crew.0 < length self.old.deck.crews }
        requires next { next_entry self.old entry.now.crew ≡ Some entry.now }
        ensures { self.new ≡ record self.old { history = self.old.history ++ entry.now ∷ [] } }
    {
        self.standing.apply(entry.crew, &entry.request, entry.reply);
        self.places[entry.crew.0 as usize] += 1;
        self.history.push_reserved(*entry);
    }

    /// Decides a crew's next request, applies the reply and adds the entry to the history. None exactly where the
    /// crew's docket is used up, and then nothing changes.
    pub fn serve(&mut self, crew: CrewNo) -> Option<Entry>
        requires crew { crew.0 < length self.old.deck.crews }
        ensures entry { result ≡ next_entry self.old crew }
        ensures board { self.new ≡ with_entry self.old result }
        ensures used_up { IsNone result ↔ IsUsedUp self.old crew.0 }
        ensures place { IfSome result (λ entry. entry.place < MOST_REQUESTS) }
    {
        let entry = self.next_entry(crew)?;
        self.keep(&entry);
        Some(entry)
    }

    /// How many crews there are.
    pub fn crews(&self) -> u32
        ensures { result ≡ length self.now.deck.crews }
    {
        self.places.len() as u32
    }

    /// How many requests of a crew are left.
    pub fn left(&self, crew: CrewNo) -> u32
        requires { crew.0 < length self.now.deck.crews }
        ensures { result ≡ length (docket_of self.now.deck.dockets crew.0) - served crew.0 self.now.history }
    {
        let docket = self.requests[crew.0 as usize].as_slice();
        docket.len() as u32 - self.places[crew.0 as usize]
    }

    /// The crews and what they ask.
    pub fn dockets(&self) -> &Dockets
        ensures { result.now ≡ self.now.deck.crews }
    {
        &self.dockets
    }

    /// The standing that the history leaves.
    pub fn standing(&self) -> &Standing
        ensures { result.now ≡ standing_of self.now }
    {
        &self.standing
    }

    /// The margin that the board was opened with.
    pub fn opening_margin(&self) -> u32
        ensures { result ≡ self.now.deck.opening.margin }
    {
        self.opening_margin
    }

    /// How many entries the history has.
    pub fn history_len(&self) -> usize
        ensures { result ≡ length self.now.history }
    {
        self.history.len()
    }

    /// The entry at a place of the history, from 0.
    pub fn entry(&self, i: usize) -> &Entry
        requires { i < length self.now.history }
        ensures { slice_get self.now.history i ≡ Some result.now }
    {
        &self.history[i]
    }

    /// The history, which is legal, and whole up to what was served.
    pub fn entries(&self) -> &[Entry]
        ensures entries { result.now ≡ self.now.history }
        ensures kept { IsBoard self.now }
    {
        self.history.as_slice()
    }
}

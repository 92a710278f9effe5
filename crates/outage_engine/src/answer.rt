//! The answer to a command that asks for no board, before anything is written.
ghost use Rattle.std.specs.Prelude.{◌≡◌, ◌⊎◌};
ghost use Rattle.event_counts.specs.Count.{Rose};
ghost use Rattle.board_words.specs.Spellings.{IsWithinBounds};
ghost use Rattle.board_words.specs.declared.command.Command.TheVariants.{Cuts, Diagram};
ghost use Rattle.outage_engine.specs.Answers.{HasCome, IsReading, status_of};
ghost use Rattle.outage_engine.specs.Means.{AreWorkers, IsAskable, IsSeatFor};
ghost use Rattle.outage_engine.specs.Runs.{IsOther};

use crate::input::{read_input, read_tree};
use crate::listing::{Listing, list_tree};
use crate::means::{Asked, Means};
use crate::refusal::{Refusal, RunEnd};
use crate::sizes::{Sizes, count_cuts};
use crate::summary::{Summary, sum_made};
use crate::{Method, Status};
use board_words::{Command, Show};
use deck_reading::{CrewPart, DeckParts};
use edge_io::{Bytes, Source};
use fault_model::Tree;
use std::thread::Threads;
use tree_maker::made;
use zdd_shared_table::StoreSeat;

/// What is to be written.
#[derive(Drop)]
pub(crate) enum Answer {
    /// The cut list of the deck's tree, and its failing orders.
    Cuts(Listing),
    /// How large the cut list of the deck's tree and its diagram are.
    Diagram(Sizes),
    /// That the deck is well formed.
    Checked(DeckParts),
    /// The deck's tree.
    Printed(Tree),
    /// The made deck of a number.
    Made(Bytes),
    /// The same in sum.
    Summed(Summary),
    /// How the program is called, as it was asked.
    Help,
    /// Why there is no text of a command.
    Refused(Refusal),
}

impl Answer {
    /// How a run with this answer ends, once it is written.
    pub(crate) fn status(&self) -> Status
        ensures { result ≡ status_of self.now }
    {
        match self {
            Answer::Cuts(listing) => Status::Done(listing.method()),
            Answer::Diagram(sizes) => Status::Done(sizes.method()),
            Answer::Summed(summary) => Status::Done(summary.listing.method()),
            Answer::Checked(_) | Answer::Printed(_) | Answer::Made(_) | Answer::Help => {
                Status::Done(Method::Plain)
            }
            Answer::Refused(refusal) => refusal.status(),
        }
    }
}

/// The answer to a command other than `board`. The input is read only where the command does.
pub(crate) fn answer_command<R: Threads + Sync, S: Source>(
    means: &Means<R>,
    command: Command,
    source: &mut S,
    seat: &mut StoreSeat,
) -> Result<Answer, RunEnd>
    requires no_board { IsOther command }
    requires within { IsWithinBounds command }
    requires seat { IsSeatFor means.now.store.now seat.old }
    ensures came { HasCome command (S.held source.old) (S.held source.new)
        (Rose (S.faults source.old) (S.faults source.new)) seat.old seat.new result }
    ensures unread { IsReading command ⊎ (source.new ≡ source.old) }
{
    match command {
        Command::Cuts { most, workers } => {
            answer_cuts(means, Asked { most, workers }, source, seat)
        }
        Command::Check => match read_input(means.alloc, CrewPart::IfAny, source) {
            Ok(deck) => Ok(Answer::Checked(deck)),
            Err(end) => Err(end),
        },
        Command::Print => match read_tree(means.alloc, source) {
            Ok(tree) => Ok(Answer::Printed(tree)),
            Err(end) => Err(end),
        },
        Command::Help => Ok(Answer::Help),
        Command::Diagram { workers } => answer_sizes(means, workers, source, seat),
        Command::Board { .. } => unreachable!(),
        Command::Make { number, show } => match show {
            Show::Deck => Ok(Answer::Made(made(means.alloc, number)?)),
            Show::Summary => match sum_made(means, number, seat) {
                Ok(summary) => Ok(Answer::Summed(summary)),
                Err(end) => Err(end),
            },
        },
    }
}

// The cut list of the deck that the source holds.
fn answer_cuts<R: Threads + Sync, S: Source>(
    means: &Means<R>,
    asked: Asked,
    source: &mut S,
    seat: &mut StoreSeat,
) -> Result<Answer, RunEnd>
    requires asked { IsAskable asked }
    requires seat { IsSeatFor means.now.store.now seat.old }
    ensures came { HasCome (Cuts asked.most asked.workers) (S.held source.old) (S.held source.new)
        (Rose (S.faults source.old) (S.faults source.new)) seat.old seat.new result }
{
    match read_tree(means.alloc, source) {
        Ok(tree) => match list_tree(means, asked, tree, seat) {
            Ok(listing) => Ok(Answer::Cuts(listing)),
            Err(end) => Err(end),
        },
        Err(end) => Err(end),
    }
}

// How large the cut list of the deck that the source holds is.
fn answer_sizes<R: Threads + Sync, S: Source>(
    means: &Means<R>,
    workers: u32,
    source: &mut S,
    seat: &mut StoreSeat,
) -> Result<Answer, RunEnd>
    requires workers { AreWorkers workers }
    requires seat { IsSeatFor means.now.store.now seat.old }
    ensures came { HasCome (Diagram workers) (S.held source.old) (S.held source.new)
        (Rose (S.faults source.old) (S.faults source.new)) seat.old seat.new result }
{
    match read_tree(means.alloc, source) {
        Ok(tree) => match count_cuts(means, workers, &tree, seat) {
            Ok(counts) => Ok(Answer::Diagram(Sizes { tree, counts })),
            Err(end) => {
                drop(tree);
                Err(end)
            }
        },
        Err(end) => Err(end),
    }
}

//! From the source to the deck that it holds.
ghost use Rattle.std.specs.Prelude.{◌≡◌, ◌≤◌, length, IsSome, None, IfOk, IfErr};
ghost use Rattle.event_counts.specs.Count.{Rose};
ghost use Rattle.outage_engine.specs.Answers.{IfRefused, IsFaultOfDeck, IsReadRefusal};
ghost use Rattle.deck_reading.specs.Faults.{IsWellFormed};
ghost use Rattle.outage_engine.specs.Gives.{OfInput};
ghost use Rattle.deck_reading.specs.declared.deck.CrewPart.TheVariants.{Needed, Unread};

use crate::refusal::{Refusal, RunEnd};
use deck_reading::{CrewPart, DeckEnd, DeckParts, read_deck};
use edge_io::{Bytes, INPUT_LIMIT, ReadEnd, Source, read_all};
use fault_model::Tree;
use std::alloc::Global;

/// The deck that the source holds, with its crew part as far as it is wanted, or why it is refused. Every command
/// that wants a deck begins with this.
pub(crate) fn read_input<S: Source>(
    alloc: Global,
    part: CrewPart,
    source: &mut S,
) -> Result<DeckParts, RunEnd>
    ensures deck { IfOk result (λ deck. OfInput (S.held source.old) (S.held source.new)
        (λ bytes. IsWellFormed part bytes deck.tree deck.crews)) }
    ensures crews { IfOk result (λ deck. part ≡ Needed → IsSome deck.crews) }
    ensures refused { IfErr result (IfRefused (IsReadRefusal part (S.held source.old) (S.held source.new)
        (Rose (S.faults source.old) (S.faults source.new)))) }
{
    match read_all(alloc, source) {
        Ok(bytes) => deck_of(alloc, part, bytes),
        Err(ReadEnd::ReadFault) => Err(RunEnd::Refused(Refusal::ReadFault)),
        Err(ReadEnd::TooLong) => Err(RunEnd::Refused(Refusal::TooLong)),
        Err(ReadEnd::NoMemory) => Err(RunEnd::NoMemory),
    }
}

/// The tree of the deck that the source holds, whose crew part is passed over, or why it is refused.
pub(crate) fn read_tree<S: Source>(alloc: Global, source: &mut S) -> Result<Tree, RunEnd>
    ensures tree { IfOk result (λ tree. OfInput (S.held source.old) (S.held source.new)
        (λ bytes. IsWellFormed Unread bytes tree None)) }
    ensures refused { IfErr result (IfRefused (IsReadRefusal Unread (S.held source.old) (S.held source.new)
        (Rose (S.faults source.old) (S.faults source.new)))) }
{
    match read_input(alloc, CrewPart::Unread, source) {
        Ok(deck) => {
            drop(deck.crews);
            Ok(deck.tree)
        }
        Err(end) => Err(end),
    }
}

/// The deck of these bytes, which are let go.
pub(crate) fn deck_of(alloc: Global, part: CrewPart, bytes: Bytes) -> Result<DeckParts, RunEnd>
    requires { length bytes ≤ INPUT_LIMIT }
    ensures deck { IfOk result (λ deck. IsWellFormed part bytes deck.tree deck.crews) }
    ensures refused { IfErr result (IfRefused (IsFaultOfDeck part bytes)) }
{
    match read_deck(alloc, part, bytes.as_slice()) {
        Ok(deck) => Ok(deck),
        Err(DeckEnd::Fault(fault)) => Err(RunEnd::Refused(Refusal::Fault(fault))),
        Err(DeckEnd::NoMemory) => Err(RunEnd::NoMemory),
    }
}

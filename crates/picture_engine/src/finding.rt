//! The picture that the words and the input ask for.
ghost use Rattle.std.specs.Prelude.{◌≡◌, ◌-◌, ◌≤◌, IfOk, IfErr, Some, length, slice_get};
ghost use Rattle.event_counts.specs.Count.{Rose};
ghost use Rattle.deck_reading.specs.Deck.{StandsFor};
ghost use Rattle.outage_engine.specs.Gives.{OfInput};
ghost use Rattle.picture_engine.specs.Finding.{IfRefused, IsCutRefusal, IsMarkRefusal, IsMarkedTree, IsNumberRefusal};
ghost use Rattle.picture_engine.specs.Finding.{IsPictureOf, IsReadRefusal};
ghost use Rattle.picture_engine.specs.Pictures.{IsCutNumbered};
ghost use Rattle.picture_engine.specs.Refusals.{HasCause};
ghost use Rattle.picture_engine.specs.Words.{IsNumbered};

use crate::refusal::{NoPicture, Refusal};
use crate::words::{Mark, read_words};
use board_words::Word;
use deck_reading::{CrewPart, read_deck};
use edge_io::{Free, ReadEnd, Source, read_all};
use fault_model::Tree;
use outage_engine::find_cuts;
use std::alloc::Global;
use std::thread::Threads;
use unit_sets::{CutList, ListEnd, UnitNo};
use zdd_build::TEAM_SHARE;
use zdd_shared_table::{NodeStore, StoreSeat};

// How many threads make the diagrams from which cut sets are listed.
const WORKERS: u32 = 4;

/// A tree, and the units that are marked in its picture.
#[derive(Drop)]
pub(crate) struct Picture {
    pub tree: Tree,
    pub marked: Vec<UnitNo>,
}

/// The picture that the words and the input ask for, or why there is none. The input is read only where the words ask
/// for a picture.
pub(crate) fn find_picture<R: Threads + Sync, S: Source>(
    rt: &R,
    alloc: Global,
    words: &[Word],
    source: &mut S,
    store: &NodeStore,
    seat: &mut StoreSeat,
) -> Result<Picture, NoPicture>
    requires own { seat.old.store ≡ store.now }
    requires share { TEAM_SHARE ≤ seat.old.share }
    ensures picture { IfOk result (IsPictureOf words.now (S.held source.old) (S.held source.new)) }
    ensures refused { IfErr result (IfRefused (HasCause words.now (S.held source.old) (S.held source.new)
        (Rose (S.faults source.old) (S.faults source.new)))) }
{
    let Some(mark) = read_words(words) else {
        return Err(NoPicture::Refused(Refusal::Usage));
    };
    let tree = read_tree(alloc, source)?;
    mark_tree(rt, alloc, mark, tree, store, seat)
}

// The tree of the deck that the source holds. A crew part is read too, so that the same decks are refused as by
// `check`.
fn read_tree<S: Source>(alloc: Global, source: &mut S) -> Result<Tree, NoPicture>
    ensures tree { IfOk result (λ tree. OfInput (S.held source.old) (S.held source.new)
        (λ bytes. StandsFor bytes tree)) }
    ensures refused { IfErr result (IfRefused (IsReadRefusal (S.held source.old) (S.held source.new)
        (Rose (S.faults source.old) (S.faults source.new)))) }
{
    match read_all(alloc, source) {
        Ok(bytes) => Ok(read_deck(alloc, CrewPart::IfAny, bytes.as_slice())?.tree),
        Err(ReadEnd::ReadFault) => Err(NoPicture::Refused(Refusal::ReadFault)),
        Err(ReadEnd::TooLong) => Err(NoPicture::Refused(Refusal::TooLong)),
        Err(ReadEnd::NoMemory) => Err(NoPicture::NoMemory),
    }
}

// The picture of a tree in which this is marked.
fn mark_tree<R: Threads + Sync>(
    rt: &R,
    alloc: Global,
    mark: Mark,
    tree: Tree,
    store: &NodeStore,
    seat: &mut StoreSeat,
) -> Result<Picture, NoPicture>
    requires own { seat.old.store ≡ store.now }
    requires share { TEAM_SHARE ≤ seat.old.share }
    requires numbered { IsNumbered mark }
    ensures picture { IfOk result (IsMarkedTree mark tree) }
    ensures refused { IfErr result (IfRefused (IsMarkRefusal mark tree)) }
{
    match mark {
        Mark::Nothing => Ok(Picture {
            tree,
            marked: Vec::new(alloc),
        }),
        Mark::Cut(number) => {
            let marked = find_cut(rt, alloc, &tree, number, store, seat)?;
            Ok(Picture { tree, marked })
        }
    }
}

// The units of the minimal cut set of this number.
fn find_cut<R: Threads + Sync>(
    rt: &R,
    alloc: Global,
    tree: &Tree,
    number: u32,
    store: &NodeStore,
    seat: &mut StoreSeat,
) -> Result<Vec<UnitNo>, NoPicture>
    requires own { seat.old.store ≡ store.now }
    requires share { TEAM_SHARE ≤ seat.old.share }
    requires some { 1 ≤ number }
    ensures units { IfOk result (λ units. IsCutNumbered tree.now number units.items) }
    ensures refused { IfErr result (IfRefused (IsCutRefusal number tree.now)) }
{
    match find_cuts(rt, alloc, tree, store, seat, WORKERS, &Free) {
        Ok(found) => cut_numbered(alloc, &found.cuts, number),
        Err(ListEnd::ListLimit) => Err(NoPicture::Refused(Refusal::ListLimit)),
        Err(ListEnd::NoMemory) => Err(NoPicture::NoMemory),
    }
}

// The set of this number, from 1, in a list.
fn cut_numbered(alloc: Global, cuts: &CutList, number: u32) -> Result<Vec<UnitNo>, NoPicture>
    requires { 1 ≤ number }
    ensures units { IfOk result (λ units. slice_get cuts.now (number - 1) ≡ Some units.items) }
    ensures refused { IfErr result (IfRefused (IsNumberRefusal number (length cuts.now))) }
{
    let count = cuts.len();
    let place = number as usize - 1;
    if count <= place {
        return Err(NoPicture::Refused(Refusal::NoSuchCut(number, count as u32)));
    }
    Ok(Vec::from_slice(alloc, cuts.members(place))?)
}

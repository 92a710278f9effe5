//! From the bytes of a deck to its tree and its crews.
ghost use Rattle.std.specs.Prelude.{◌≡◌, ◌+◌, ◌≤◌, length, drop, take, Ok, IfOk, IfErr, IfSome};
ghost use Rattle.fault_definitions.specs.WellFormed.{IsTree};
ghost use Rattle.galileo_lexer.specs.Spot.{place_behind};
ghost use Rattle.galileo_tree.specs.Lexeme.{place_at};
ghost use Rattle.galileo_tree.specs.Parsed.{parsed_text};
ghost use Rattle.galileo_tree.specs.Reads.{FailsAs};
ghost use Rattle.tree_check.specs.Checked.{Stands};
ghost use Rattle.crew_script.specs.Crews.{crews_of};
ghost use Rattle.crew_script.specs.Deck.{split_of};
ghost use Rattle.deck_reading.specs.Deck.{StandsFor, crews_behind};
ghost use Rattle.deck_reading.specs.Ends.{IsCheckEnd, IsCrewEnd, IsDeckEnd, IsPartsEnd, IsTreeEnd, end_of};
ghost use Rattle.deck_reading.specs.Faults.{IsWellFormed, crews_said, no_crew_part};

use crate::fault::{DeckFault, FaultCode};
use crew_script::{CrewCode, CrewFault, CrewsAt, Dockets, read_crews, split_deck};
use edge_io::INPUT_LIMIT;
use fault_model::{Place, Tree};
use galileo_tree::{ParseFault, RawTree, parse};
use std::alloc::Global;
use tree_check::{CheckFault, check};

/// Why a deck has no tree, or no crews.
#[derive(Clone, Copy)]
pub enum DeckEnd {
    /// The first fault of the part.
    Fault(DeckFault),
    /// There was not enough memory.
    NoMemory,
}

/// How a command takes the crew part of a deck.
#[derive(Clone, Copy)]
pub enum CrewPart {
    /// It is passed over.
    Unread,
    /// It is read where there is one.
    IfAny,
    /// It has to be there.
    Needed,
}

/// What was read of a deck.
#[derive(Drop)]
pub struct DeckParts {
    /// The tree of the tree part.
    pub tree: Tree,
    /// The crews, where a crew part was read.
    pub crews: Option<Dockets>,
}

/// The tree and the crews of a deck, its crew part taken so, or its first fault. That a crew part is needed and is not
/// there is found before the tree part is read.
pub fn read_deck(alloc: Global, part: CrewPart, bytes: &[u8]) -> Result<DeckParts, DeckEnd>
    requires { length bytes.now ≤ INPUT_LIMIT }
    ensures deck { IfOk result (λ deck. IsWellFormed part bytes.now deck.tree deck.crews) }
    ensures end { IfErr result (IsDeckEnd part bytes.now) }
{
    let split = split_deck(bytes);
    match part {
        CrewPart::Unread => read_parts(alloc, bytes, split.tree, None),
        CrewPart::IfAny => read_parts(alloc, bytes, split.tree, split.crews),
        CrewPart::Needed => {
            let Some(at) = split.crews else {
                return Err(DeckEnd::Fault(no_crew_part(bytes)));
            };
            read_parts(alloc, bytes, split.tree, Some(at))
        }
    }
}

// The tree of the tree part, which has so many bytes, and the crews of the crew part that begins there, if any is read.
fn read_parts(
    alloc: Global,
    bytes: &[u8],
    size: usize,
    at: Option<CrewsAt>,
) -> Result<DeckParts, DeckEnd>
    requires short { length bytes.now ≤ INPUT_LIMIT }
    requires part { size ≡ (split_of bytes.now).tree }
    requires within { size ≤ length bytes.now }
    requires start { IfSome at (λ crews. crews.start ≤ length bytes.now) }
    requires line { IfSome at (λ crews. crews.line ≤ INPUT_LIMIT + 1) }
    ensures tree { IfOk result (λ deck. StandsFor bytes.now deck.tree) }
    ensures crews { IfOk result (λ deck. crews_said (crews_behind bytes.now at) ≡ Ok deck.crews) }
    ensures end { IfErr result (IsPartsEnd bytes.now (crews_said (crews_behind bytes.now at))) }
{
    let tree = tree_in(alloc, bytes, size)?;
    match crews_at(alloc, bytes, at) {
        Ok(crews) => Ok(DeckParts { tree, crews }),
        Err(end) => {
            drop(tree);
            Err(end)
        }
    }
}

// The tree that a deck stands for, whose tree part has so many bytes, or why there is none.
fn tree_in(alloc: Global, bytes: &[u8], size: usize) -> Result<Tree, DeckEnd>
    requires short { length bytes.now ≤ INPUT_LIMIT }
    requires part { size ≡ (split_of bytes.now).tree }
    requires within { size ≤ length bytes.now }
    ensures tree { IfOk result (StandsFor bytes.now) }
    ensures end { IfErr result (IsTreeEnd bytes.now) }
{
    match read_part(alloc, &bytes[..size]) {
        Ok(raw) => check_part(alloc, raw),
        Err(fault) => Err(end_of(fault)),
    }
}

// The statements of the tree part.
fn read_part(alloc: Global, part: &[u8]) -> Result<RawTree, ParseFault>
    requires { length part.now ≤ INPUT_LIMIT }
    ensures read { IfOk result (λ raw. parsed_text part.now ≡ Ok raw) }
    ensures fault { IfErr result (λ fault. FailsAs fault (parsed_text part.now)) }
{
    parse(alloc, part)
}

// The tree of the statements.
fn check_part(alloc: Global, raw: RawTree) -> Result<Tree, DeckEnd>
    ensures tree { IfOk result (λ tree. Stands raw tree × IsTree tree) }
    ensures end { IfErr result (IsCheckEnd raw) }
{
    match check(alloc, raw) {
        Ok(tree) => {
            // It keeps what every tree keeps, as each of its readers tells.
            let _units = tree.units();
            Ok(tree)
        }
        Err(CheckFault::Fault(code, place)) => Err(DeckEnd::Fault(DeckFault {
            code: FaultCode::Check(code),
            place,
        })),
        Err(CheckFault::NoMemory) => Err(DeckEnd::NoMemory),
    }
}

// A fault of tokens or of the grammar.
fn end_of(fault: ParseFault) -> DeckEnd
    ensures { result ≡ end_of fault }
{
    match fault {
        ParseFault::Lex(fault) => DeckEnd::Fault(DeckFault {
            code: FaultCode::Lex(fault.code),
            place: Place {
                line: fault.place.line,
                column: fault.place.column,
            },
        }),
        ParseFault::Expected(what, place) => DeckEnd::Fault(DeckFault {
            code: FaultCode::Expected(what),
            place,
        }),
        ParseFault::NoMemory => DeckEnd::NoMemory,
    }
}

// The crews of the crew part that begins there, where one is read, or why there are none.
fn crews_at(alloc: Global, bytes: &[u8], at: Option<CrewsAt>) -> Result<Option<Dockets>, DeckEnd>
    requires short { length bytes.now ≤ INPUT_LIMIT }
    requires start { IfSome at (λ crews. crews.start ≤ length bytes.now) }
    requires line { IfSome at (λ crews. crews.line ≤ INPUT_LIMIT + 1) }
    ensures crews { IfOk result (λ crews. crews_said (crews_behind bytes.now at) ≡ Ok crews) }
    ensures end { IfErr result (IsCrewEnd (crews_said (crews_behind bytes.now at))) }
{
    match at {
        Some(at) => Ok(Some(crews_in(alloc, bytes, at)?)),
        None => Ok(None),
    }
}

// The crews of the crew part that begins there, or why there are none.
fn crews_in(alloc: Global, bytes: &[u8], at: CrewsAt) -> Result<Dockets, DeckEnd>
    requires short { length bytes.now ≤ INPUT_LIMIT }
    requires start { at.start ≤ length bytes.now }
    requires line { at.line ≤ INPUT_LIMIT + 1 }
    ensures crews { IfOk result (λ dockets. crews_of at.line (drop at.start bytes.now) ≡ Ok dockets) }
    ensures end { IfErr result (IsCrewEnd (crews_of at.line (drop at.start bytes.now))) }
{
    match read_crews(alloc, &bytes[at.start..], at.line) {
        Ok(dockets) => Ok(dockets),
        Err(CrewFault::Fault(code, place)) => Err(DeckEnd::Fault(DeckFault {
            code: FaultCode::Crew(code),
            place,
        })),
        Err(CrewFault::NoMemory) => Err(DeckEnd::NoMemory),
    }
}

// The fault of a deck without a crew part, told at its end.
fn no_crew_part(bytes: &[u8]) -> DeckFault
    requires { length bytes.now ≤ INPUT_LIMIT }
    ensures { result ≡ no_crew_part bytes.now }
{
    DeckFault {
        code: FaultCode::Crew(CrewCode::NoCrewPart),
        place: end_of_text(bytes),
    }
}

// The place behind the last byte.
fn end_of_text(bytes: &[u8]) -> Place
    requires { length bytes.now ≤ INPUT_LIMIT }
    ensures { result ≡ place_at (place_behind bytes.now) }
{
    let mut line: u32 = 1;
    let mut start = 0;
    for i in 0..bytes.len() {
        if bytes[i] == b'\n' {
            line += 1;
            start = i + 1;
        }
    }
    Place {
        line,
        column: (bytes.len() - start) as u32 + 1,
    }
}

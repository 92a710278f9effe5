//! The crew that a line is of, told by the name behind the line's number: no two crews have one name, and what stands
//! there tells where the name ends.
ghost use Rattle.std.specs.Prelude.{◌≡◌, ◌<◌, ◌==◌, length, IfSome};
ghost use Rattle.std.specs.List.{before_first};
ghost use Rattle.fault_words.specs.Names.{same_name};
ghost use Rattle.crew_script.specs.Dockets.{IsDockets};
ghost use Rattle.outage_board.specs.Requests.{crew_from};
ghost use Rattle.board_audit.specs.Front.{crew_of_line, front_name};

use crate::part::{Part, pass_number};
use crew_script::{Dockets, place_of};
use fault_model::Name;
use unit_sets::CrewNo;

/// The crew whose name stands behind this number and a blank at the front of a text.
pub(crate) fn crew_of_line(dockets: &Dockets, number: u64, text: &[u8]) -> Option<CrewNo>
    ensures crew { result ≡ crew_of_line dockets.now number text.now }
    ensures low { IfSome result (λ crew. crew.0 < length dockets.now) }
    ensures kept { IsDockets dockets.now }
{
    // The crews tell the proof that their names differ.
    dockets.crews();
    let mut part = Part::new(text);
    pass_number(&mut part, number);
    part.pass(b" ");
    crew_named(dockets, front_name(part.rest()?))
}

// The first crew with this name.
fn crew_named(dockets: &Dockets, name: &[u8]) -> Option<CrewNo>
    ensures crew { result ≡ crew_from 0 dockets.now name.now }
    ensures low { IfSome result (λ crew. crew.0 < length dockets.now) }
{
    for crew in 0..dockets.crews() {
        if is_named(dockets.crew_name(CrewNo(crew)), name) {
            return Some(CrewNo(crew));
        }
    }
    None
}

fn is_named(name: &Name, bytes: &[u8]) -> bool
    ensures { result ≡ same_name name.now bytes.now }
{
    name.as_slice() == bytes
}

// The name that a text begins with, as texts show names.
fn front_name(text: &[u8]) -> &[u8]
    ensures { result.now ≡ front_name text.now }
{
    match text {
        [first, rest @ ..] if *first == b'"' => before(b'"', rest),
        _ => before(b' ', text),
    }
}

// What stands in front of the first such byte.
fn before(mark: u8, bytes: &[u8]) -> &[u8]
    ensures { result.now ≡ before_first (λ byte. byte == mark) bytes.now }
{
    &bytes[..place_of(mark, bytes)]
}

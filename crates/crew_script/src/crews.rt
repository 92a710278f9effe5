//! The crews that a crew part says.
ghost use Rattle.std.specs.Prelude.{◌≡◌, ℕ, ◌+◌, ◌≤◌, List, ◌∷◌, length, Ok, IfOk, IfErr, OnOk};
ghost use Rattle.crew_script.specs.Crews.{crews_of, crews_from, FailsAs};
ghost use Rattle.crew_script.specs.Deck.{lines_of};
ghost use Rattle.crew_script.specs.Dockets.{IsDockets};

use crate::deck::LONGEST_DECK;
use crate::dockets::Dockets;
use crate::fault::CrewFault;
use crate::line::read_line;
use crate::text_lines::TextLines;
use fault_words::Place;
use std::alloc::Global;

/// The crews that the lines of a crew part say, each with its requests, else the fault of the first line that has
/// one. The first line has the number that is given.
pub fn read_crews(alloc: Global, bytes: &[u8], line: u32) -> Result<Dockets, CrewFault>
    requires short { length bytes.now ≤ LONGEST_DECK }
    requires numbers { line ≤ LONGEST_DECK + 1 }
    ensures crews { IfOk result (λ dockets. crews_of line bytes.now ≡ Ok dockets) }
    ensures kept { IfOk result IsDockets }
    ensures fault { IfErr result (λ fault. FailsAs fault (crews_of line bytes.now)) }
{
    let mut dockets = Dockets::new(alloc);
    add_lines(&mut dockets, alloc, bytes, line)?;
    // Crews are kept as the clause says.
    dockets.crews();
    Ok(dockets)
}

// Adds what the lines of a text say.
fn add_lines(crews: &mut Dockets, alloc: Global, bytes: &[u8], line: u32) -> Result<(), CrewFault>
    requires short { length bytes.now ≤ LONGEST_DECK }
    requires numbers { line ≤ LONGEST_DECK + 1 }
    ensures crews { OnOk result (crews_from line crews.old (lines_of bytes.now) ≡ Ok crews.new) }
    ensures fault { IfErr result (λ fault. FailsAs fault (crews_from line crews.old (lines_of bytes.now))) }
{
    let mut number = line;
    let mut lines = TextLines::new(bytes);
    while let Some(row) = lines.next() {
        add_line(crews, alloc, row, number)?;
        number += 1;
    }
    Ok(())
}

// Adds what one more line says.
fn add_line(crews: &mut Dockets, alloc: Global, row: &[u8], line: u32) -> Result<(), CrewFault>
    ensures crews { OnOk result ((rows : List (List ℕ)) → crews_from line crews.old (row.now ∷ rows)
        ≡ crews_from (line + 1) crews.new rows) }
    ensures fault { IfErr result (λ fault. (rows : List (List ℕ))
        → FailsAs fault (crews_from line crews.old (row.now ∷ rows))) }
{
    let said = read_line(alloc, row)?;
    match crews.fault_of(&said) {
        None => Ok(crews.add(alloc, said)?),
        Some(code) => {
            drop(said);
            let column = 1;
            Err(CrewFault::Fault(code, Place { line, column }))
        }
    }
}

//! The units that are out, with their holders.
ghost use Rattle.std.specs.Prelude.{◌≡◌, ◌<◌, ◌+◌, ◌≤◌, [], ◌∷◌, is_err, length, false, None};
ghost use Rattle.std.specs.Prelude.{is_some, if◌then◌else◌};
ghost use Rattle.std.specs.List.{flat_map};
ghost use Rattle.unit_sets.specs.Unit.{most_units};
ghost use Rattle.edge_io.specs.Out.{has_failed, Puts};
ghost use Rattle.fault_definitions.specs.Tree.{unit_count};
ghost use Rattle.margin_policy.specs.Held.{holder_of, units_out};
ghost use Rattle.margin_policy.specs.Holders.{HoldersBelow};
ghost use Rattle.board_report.specs.BoardText.{out_head, out_line, out_text};
ghost use Rattle.board_report.specs.Ends.{IsEnd};

use crate::at_end::AtEnd;
use crate::counted::put_counted;
use crate::log::put_with_crew;
use edge_io::{Out, Sink, WriteFault};
use fault_model::{NodeNo, Tree};
use margin_policy::Standing;
use text_pieces::put_shown;
use unit_sets::{CrewNo, UnitNo};

// Puts how many units are out, and then each with its holder.
pub(crate) fn put_out<K: Sink>(out: &mut Out<K>, end: &AtEnd) -> Result<(), WriteFault>
    requires holders { HoldersBelow (length end.now.dockets.now) end.now.standing.now.held }
    requires units { end.now.standing.now.units ≡ unit_count end.now.tree.now }
    ensures puts { Puts K.taken K.faults out.old out.new
        (out_text end.now.tree.now end.now.dockets.now end.now.standing.now.held) }
    ensures answer { is_err result ≡ has_failed out.new }
{
    put_out_head(out, count_out(end.standing, last_unit(end.tree)))?;
    put_out_lines(out, end)
}

// The greatest number of a unit.
fn last_unit(tree: &Tree) -> u16
    ensures last { result ≡ unit_count tree.now }
    ensures limit { result ≤ most_units }
{
    tree.units() as u16
}

// No unit has the number 0, so nobody holds it. A look at some unit tells the proof so.
fn holds_units_alone(standing: &Standing)
    ensures none { holder_of standing.now.held 0 ≡ None }
    ensures all { length standing.now.held ≡ standing.now.units + 1 }
{
    if let Some(unit) = UnitNo::new(1) {
        standing.ledger().is_out(unit);
        standing.holder(unit);
    }
}

// The holder of the unit of a number, if it is out.
fn holder_at(standing: &Standing, number: u16) -> Option<CrewNo>
    requires some { 1 ≤ number }
    requires limit { number ≤ most_units }
    ensures { result ≡ holder_of standing.now.held number }
{
    let unit = UnitNo::new(number)?;
    standing.holder(unit)
}

/// How many units are out. No unit has a number above the last one.
pub(crate) fn count_out(standing: &Standing, last: u16) -> u32
    requires units { standing.now.units ≤ last }
    requires limit { last ≤ most_units }
    ensures { result ≡ length (units_out standing.now.held) }
{
    holds_units_alone(standing);
    let mut count = 0;
    for number in 1..last + 1 {
        count += count_at(standing, number);
    }
    count
}

// 1 where the unit of a number is out, else 0.
fn count_at(standing: &Standing, number: u16) -> u32
    requires some { 1 ≤ number }
    requires limit { number ≤ most_units }
    ensures { result ≡ (if is_some (holder_of standing.now.held number) then 1 else 0) }
{
    if holder_at(standing, number).is_some() {
        1
    } else {
        0
    }
}

/// Puts how many units are out.
pub(crate) fn put_out_head<K: Sink>(out: &mut Out<K>, count: u32) -> Result<(), WriteFault>
    ensures puts { Puts K.taken K.faults out.old out.new (out_head count) }
    ensures answer { is_err result ≡ has_failed out.new }
{
    put_counted(out, b"out: ", count as u64, b"\n")
}

fn put_out_lines<K: Sink>(out: &mut Out<K>, end: &AtEnd) -> Result<(), WriteFault>
    requires end { IsEnd end.now }
    requires fine { has_failed out.old ≡ false }
    ensures puts { Puts K.taken K.faults out.old out.new
        (flat_map (out_line end.now.tree.now end.now.dockets.now end.now.standing.now.held)
        (units_out end.now.standing.now.held)) }
    ensures answer { is_err result ≡ has_failed out.new }
{
    holds_units_alone(end.standing);
    for number in 1..last_unit(end.tree) + 1 {
        put_if_out(out, end, number)?;
    }
    Ok(())
}

// Puts the line of the unit of a number, if it is out.
fn put_if_out<K: Sink>(out: &mut Out<K>, end: &AtEnd, number: u16) -> Result<(), WriteFault>
    requires some { 1 ≤ number }
    requires unit { number ≤ unit_count end.now.tree.now }
    requires end { IsEnd end.now }
    requires fine { has_failed out.old ≡ false }
    ensures puts { Puts K.taken K.faults out.old out.new
        (flat_map (out_line end.now.tree.now end.now.dockets.now end.now.standing.now.held)
        (if is_some (holder_of end.now.standing.now.held number) then number ∷ [] else [])) }
    ensures answer { is_err result ≡ has_failed out.new }
{
    // The number of units tells the proof that each can be a `UnitNo`.
    end.tree.units();
    match holder_at(end.standing, number) {
        Some(holder) => {
            // A write that failed fails again at the end of the line.
            let _ = put_shown(out, end.tree.name(NodeNo(number as u32)));
            let _ = put_with_crew(out, b" ", end.dockets, holder);
            out.put(b"\n")
        }
        None => Ok(()),
    }
}

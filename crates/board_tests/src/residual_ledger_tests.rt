//! Counts after units went out and came back, beside a count of all members anew.
ghost use Rattle.std.specs.Prelude.{◌≡◌, IfOk};

use residual_ledger::Ledger;
use std::alloc::Global;
use std::test::Fail;
use unit_sets::UnitNo;
use worked_trees::{cuts_of, tree_of};

// The part of a row at a place.
fn part(row: &str, place: usize) -> &str {
    row.split('|').nth(place).unwrap_or("")
}

// A ledger over all units that there can be, with the cut list of a text.
fn ledger_of(alloc: Global, text: &str) -> Result<Ledger, Fail>
    ensures { IfOk result (λ ledger. ledger.units ≡ 4095) }
{
    let tree = tree_of(alloc, text.as_bytes())?;
    let cuts = cuts_of(alloc, &tree);
    drop(tree);
    let cuts = cuts?;
    cuts.len();
    Ok(Ledger::new(alloc, 4095, &cuts)?)
}

// Takes a unit out, or puts it back where it is out.
fn turn(ledger: &mut Ledger, unit: UnitNo)
    requires { ledger.old.units ≡ 4095 }
    ensures { ledger.new.units ≡ 4095 }
{
    unit.number();
    if ledger.is_out(unit) {
        ledger.back(unit);
    } else {
        ledger.out(unit);
    }
}

// The same for the number of a unit, if there is one.
fn turn_number(ledger: &mut Ledger, number: &str) -> Result<(), Fail>
    requires { ledger.old.units ≡ 4095 }
    ensures { ledger.new.units ≡ 4095 }
{
    if !number.is_empty() {
        let unit = UnitNo::new(number.parse::<u16>()?).ok_or("no unit")?;
        turn(ledger, unit);
    }
    Ok(())
}

// Numbers, each with a point behind it.
fn push_numbers(alloc: Global, told: &mut String, numbers: &[u32]) -> Result<(), Fail> {
    for number in numbers {
        told.push_str(format!(in alloc; "{number}.")?.as_str())?;
    }
    Ok(())
}

// The counts of all cut sets, the least of each block, and the places of the cut sets that hold a unit.
fn told(alloc: Global, ledger: &Ledger, number: u16) -> Result<String, Fail>
    requires { ledger.now.units ≡ 4095 }
{
    let unit = UnitNo::new(number).ok_or("no unit")?;
    unit.number();
    let mut told = String::new(alloc);
    push_numbers(alloc, &mut told, ledger.counts())?;
    told.push(' ')?;
    push_numbers(alloc, &mut told, ledger.least())?;
    told.push(' ')?;
    push_numbers(alloc, &mut told, ledger.holding(unit))?;
    Ok(told)
}

// The same of unit 6, after the turns of a row.
fn told_turned(alloc: Global, ledger: &mut Ledger, row: &str) -> Result<String, Fail>
    requires { ledger.old.units ≡ 4095 }
{
    turn_number(ledger, part(row, 0))?;
    turn_number(ledger, part(row, 1))?;
    turn_number(ledger, part(row, 2))?;
    told(alloc, ledger, 6)
}

// Whether the rest of the row is told of the ledger of a text.
fn is_told_after(alloc: Global, text: &str, row: &str) -> Result<bool, Fail> {
    let mut ledger = ledger_of(alloc, text)?;
    let told = told_turned(alloc, &mut ledger, row);
    drop(ledger);
    Ok(told?.as_str() == part(row, 3))
}

const DECK: &str = "toplevel T; T or C D G H I J; G and A B; H and E F; I and F K; J and L M N O; \
A; B; C; D; E; F; K; L; M; N; O;";

// Which units go out and come back, and what is told then.
const TURNS: &str = "\
|||1.1.2.2.2.4. 1. 3.4.
6|||1.1.2.1.1.4. 1. 3.4.
6|10||1.1.2.1.1.3. 1. 3.4.
6|10|6|1.1.2.2.2.3. 1. 3.4.";

#[test]
fn counts_follow_units_out_and_back(rt: HostRuntime) -> Result<(), Fail> {
    for row in TURNS.lines() {
        assert!(rt; is_told_after(rt.alloc(), DECK, row)?, "{row}");
    }
    Ok(())
}

// The first tight cut set with a unit out too, where that is in service.
fn first_tight(ledger: &Ledger, number: u16, most: u32) -> Result<Option<usize>, Fail>
    requires { ledger.now.units ≡ 4095 }
{
    let unit = UnitNo::new(number).ok_or("no unit")?;
    unit.number();
    if ledger.is_out(unit) {
        return Err("out already".into());
    }
    Ok(ledger.first_tight_after(unit, most))
}

// The first tight cut set with the unit of a row out too, or as it is.
fn first_tight_in(ledger: &Ledger, row: &str) -> Result<Option<usize>, Fail>
    requires { ledger.now.units ≡ 4095 }
{
    let most = part(row, 2).parse::<u32>()?;
    if part(row, 1).is_empty() {
        return Ok(ledger.first_tight_after_all(&[], most));
    }
    first_tight(ledger, part(row, 1).parse::<u16>()?, most)
}

fn first_tight_of(alloc: Global, row: &str) -> Result<Option<usize>, Fail> {
    let ledger = ledger_of(alloc, part(row, 0))?;
    let first = first_tight_in(&ledger, row);
    drop(ledger);
    first
}

// Whether the first cut set is tight, or none, as a row tells.
fn is_first_tight(alloc: Global, row: &str) -> Result<bool, Fail> {
    let first = first_tight_of(alloc, row)?;
    Ok(match part(row, 3) {
        "first" => first == Some(0),
        _ => first.is_none(),
    })
}

// A deck, a unit, how many members may be left, and whether the first cut set is tight then. A set may keep one more
// than the margin, and a set without the unit may be the first tight one.
const TIGHT: &str = "\
toplevel T; T or A G; G and B C; A; B; C; D;|2|1|first
toplevel T; T or A G; G and B C; A; B; C; D;|4|1|first
toplevel T; T or A G; G and B C; A; B; C; D;|2|0|none
toplevel T; T and A B C; A; B; C;|1|2|first
toplevel T; T and A B C; A; B; C;|1|1|none
toplevel T; T or A G; G and B C; A; B; C; D;||0|none
toplevel T; T or A G; G and B C; A; B; C; D;||1|first";

#[test]
fn the_first_tight_set_is_found(rt: HostRuntime) -> Result<(), Fail> {
    for row in TIGHT.lines() {
        assert!(rt; is_first_tight(rt.alloc(), row)?, "{row}");
    }
    Ok(())
}

// The units from a number up to another, each between two pieces of text.
fn push_units(
    alloc: Global,
    text: &mut String,
    from: u16,
    to: u16,
    before: &str,
    after: &str,
) -> Result<(), Fail> {
    for number in from..=to {
        text.push_str(format!(in alloc; "{before}u{number}{after}")?.as_str())?;
    }
    Ok(())
}

// A tree with the 780 pairs of 40 units and the 560 triples of 16 as its cut sets, in several blocks.
fn many_sets(alloc: Global) -> Result<String, Fail> {
    let mut text = String::from_str(alloc, "toplevel T; T or P Q; P 2of40")?;
    push_units(alloc, &mut text, 1, 40, " ", "")?;
    text.push_str("; Q 3of16")?;
    push_units(alloc, &mut text, 40, 55, " ", "")?;
    text.push_str(";")?;
    push_units(alloc, &mut text, 1, 55, " ", ";")?;
    Ok(text)
}

// How many of these units are not out, but for one.
fn left_of(ledger: &Ledger, members: &[UnitNo], but: Option<UnitNo>) -> u32 {
    let mut left = 0u32;
    for unit in members {
        if !ledger.is_out(*unit) && Some(*unit) != but {
            left = left.saturating_add(1);
        }
    }
    left
}

// Whether each count is what counting its members anew gives.
fn is_recounted(ledger: &Ledger) -> bool {
    let cuts = ledger.cuts();
    let counts = ledger.counts();
    for i in 0..cuts.len() {
        let left = left_of(ledger, cuts.members(i), None);
        if ledger.residual(i) != left || counts.get(i).copied() != Some(left) {
            return false;
        }
    }
    true
}

// Whether each block's number is the least of its counts.
fn has_least(ledger: &Ledger) -> bool {
    let counts = ledger.counts();
    for (block, least) in ledger.least().iter().enumerate() {
        let rest = counts.iter().skip(block.saturating_mul(256));
        if rest.take(256).copied().min() != Some(*least) {
            return false;
        }
    }
    true
}

// The first tight cut set, by going through all of them.
fn first_by_hand(ledger: &Ledger, unit: UnitNo, most: u32) -> Option<usize> {
    let cuts = ledger.cuts();
    for i in 0..cuts.len() {
        if left_of(ledger, cuts.members(i), Some(unit)) <= most {
            return Some(i);
        }
    }
    None
}

// Whether the first tight cut set with a unit out too is the one that is found by hand.
fn is_found(ledger: &Ledger, unit: UnitNo) -> bool
    requires { ledger.now.units ≡ 4095 }
{
    unit.number();
    for most in 0..4u32 {
        if ledger.is_out(unit)
            || ledger.first_tight_after(unit, most) != first_by_hand(ledger, unit, most)
        {
            return false;
        }
    }
    true
}

// Turns a unit: whether what the ledger says is what a count anew gives.
fn step_holds(ledger: &mut Ledger, unit: UnitNo) -> bool
    requires { ledger.old.units ≡ 4095 }
    ensures { ledger.new.units ≡ 4095 }
{
    let found = ledger.is_out(unit) || is_found(ledger, unit);
    turn(ledger, unit);
    found && is_recounted(ledger) && has_least(ledger)
}

// How many of so many steps hold, up to the first that doesn't.
fn steps_held(ledger: &mut Ledger, steps: u16) -> Result<u16, Fail>
    requires { ledger.old.units ≡ 4095 }
{
    for step in 0..steps {
        let number = step.wrapping_mul(37) % 55 + 1;
        let unit = UnitNo::new(number).ok_or("no unit")?;
        if !step_holds(ledger, unit) {
            return Ok(step);
        }
    }
    Ok(steps)
}

// How many cut sets and blocks a ledger has, and how many of 120 steps hold.
fn counted(ledger: &mut Ledger) -> Result<(usize, usize, u16), Fail>
    requires { ledger.old.units ≡ 4095 }
{
    let sets = ledger.cuts().len();
    let blocks = ledger.least().len();
    let held = steps_held(ledger, 120)?;
    Ok((sets, blocks, held))
}

fn counted_of(alloc: Global) -> Result<(usize, usize, u16), Fail> {
    let text = many_sets(alloc)?;
    let mut ledger = ledger_of(alloc, text.as_str())?;
    let counts = counted(&mut ledger);
    drop(ledger);
    counts
}

#[test]
fn a_made_list_is_recounted(rt: HostRuntime) -> Result<(), Fail> {
    assert!(rt; counted_of(rt.alloc())? == (1340, 6, 120));
    Ok(())
}

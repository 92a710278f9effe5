//! Requests to small standings, each with the reply that it is to get.
//!
//! A unit is a letter. A question mark stands for a name that names no unit.
ghost use Rattle.std.specs.Prelude.{◌≡◌, ◌++◌, ◌∷◌, [], true, IfOk};
ghost use Rattle.unit_sets.specs.UnitList.{IsRising};
ghost use Rattle.unit_sets.specs.CutOrder.{IsInCutOrder};
ghost use Rattle.margin_policy.specs.Standing.{IsRequestFor};

use crate::letters::units_of;
use deck_limits::GREATEST_MARGIN;
use margin_policy::{AskedUnits, Reply, Request, Standing};
use std::alloc::Global;
use std::test::Fail;
use unit_sets::{CrewNo, CutList, UnitNo, compare_cuts};

// Takes by their letters, and whether there is such a take: of at most 16 units, of each once, and of something at all.
const TAKES: &str = "\
abcdefghijklmnopq|none
abcdefghijklmnop|asked
bab|none
gc?|asked
|none
?|asked";

// Whether the take of a row is there where the row says so, and asks for its units.
fn is_asked_so(alloc: Global, row: &str) -> Result<bool, Fail> {
    let (letters, wanted) = row.split_once('|').ok_or("a row out of form")?;
    let unknown = letters.contains('?');
    let units = units_of(alloc, letters)?;
    Ok(match AskedUnits::new(units.as_slice(), unknown) {
        Some(asked) => {
            wanted == "asked" && asked.units() == units.as_slice() && asked.unknown() == unknown
        }
        None => wanted == "none",
    })
}

#[test]
fn a_take_asks_for_some_units_each_once(rt: HostRuntime) -> Result<(), Fail> {
    for row in TAKES.lines() {
        assert!(rt; is_asked_so(rt.alloc(), row)?, "{row}");
    }
    Ok(())
}

// Whether units stand in rising order.
fn rises(units: &[UnitNo]) -> bool
    ensures { result ≡ true → IsRising units.now }
{
    for i in 1..units.len() {
        if units[i - 1].number() >= units[i].number() {
            return false;
        }
    }
    true
}

// Whether a set stands after the last one of a list.
fn is_next(cuts: &CutList, set: &[UnitNo]) -> bool
    ensures { result ≡ true → IsInCutOrder (cuts.now ++ set.now ∷ []) }
{
    let sets = cuts.len();
    sets == 0 || compare_cuts(cuts.members(sets - 1), set).is_lt()
}

fn push_set(cuts: &mut CutList, set: &[UnitNo]) -> Result<(), Fail> {
    if set.is_empty() || !rises(set) || !is_next(cuts, set) {
        return Err("not the next set".into());
    }
    cuts.push(set)?;
    Ok(())
}

fn push_word(alloc: Global, cuts: &mut CutList, word: &str) -> Result<(), Fail> {
    let set = units_of(alloc, word)?;
    push_set(cuts, set.as_slice())
}

fn push_words(alloc: Global, cuts: &mut CutList, words: &str) -> Result<(), Fail> {
    for word in words.split(' ') {
        push_word(alloc, cuts, word)?;
    }
    Ok(())
}

// The cut sets of some words, each of which is to stand after the one before.
fn list_of(alloc: Global, words: &str) -> Result<CutList, Fail> {
    let mut cuts = CutList::new(alloc);
    push_words(alloc, &mut cuts, words)?;
    Ok(cuts)
}

// A standing over all units that there can be, with the cut sets, the margin and the supervisor of a row.
fn standing_of(alloc: Global, row: &str) -> Result<Standing, Fail>
    ensures { IfOk result (λ standing. standing.units ≡ 4095) }
{
    let (sets, rest) = row.split_once('|').ok_or("no margin")?;
    let (margin, supervisor) = rest.split_once('|').ok_or("no supervisor")?;
    let margin = margin.parse::<u32>()?;
    if margin > GREATEST_MARGIN {
        return Err("no margin".into());
    }
    let supervisor = supervisor.parse::<u32>().ok().map(CrewNo);
    let cuts = list_of(alloc, sets)?;
    cuts.len();
    Ok(Standing::new(alloc, 4095, &cuts, margin, supervisor)?)
}

// A request by its word, its units, and the text of these or of its margin.
fn request_of(word: &str, units: &[UnitNo], of: &str) -> Result<Request, Fail> {
    Ok(match word {
        "take" => Request::Take(AskedUnits::new(units, of.contains('?')).ok_or("no take")?),
        "return" => Request::Return(units.first().copied()),
        _ => Request::Margin(of.parse::<u32>()?),
    })
}

// Whether a request's margin is one that there can be. A unit always is.
fn is_in_range(request: &Request) -> bool
    ensures { result ≡ true → IsRequestFor 4095 request.now }
{
    match request {
        Request::Take(asked) => {
            UnitNo::are_units(asked.units());
            true
        }
        Request::Return(None) => true,
        Request::Return(Some(unit)) => unit.number() <= UnitNo::MAX,
        Request::Margin(number) => *number <= GREATEST_MARGIN,
    }
}

// The reply to a crew's request, which is then applied.
fn serve(standing: &mut Standing, crew: u32, request: &Request) -> Result<Reply, Fail>
    requires { standing.old.units ≡ 4095 }
    ensures { standing.new.units ≡ 4095 }
{
    if !is_in_range(request) {
        return Err("out of range".into());
    }
    let reply = standing.decide(CrewNo(crew), request);
    standing.apply(CrewNo(crew), request, reply);
    Ok(reply)
}

// The reply to what a crew asks.
fn reply_to(alloc: Global, standing: &mut Standing, crew: u32, asked: &str) -> Result<Reply, Fail>
    requires { standing.old.units ≡ 4095 }
    ensures { standing.new.units ≡ 4095 }
{
    let (word, of) = asked.split_once(' ').ok_or("a request out of form")?;
    let units = units_of(alloc, of)?;
    let request = request_of(word, units.as_slice(), of)?;
    serve(standing, crew, &request)
}

// The margin, what each cut set has left, and who holds a unit.
fn told_of_unit(alloc: Global, standing: &Standing, letter: &str) -> Result<String, Fail> {
    let unit = *units_of(alloc, letter)?.first().ok_or("no unit")?;
    let margin = standing.margin();
    let counts = standing.ledger().counts();
    let holder = standing.holder(unit);
    Ok(format!(in alloc; "{margin} {counts:?} {holder:?}")?)
}

// What is told of a unit, or the reply to what a crew asks.
fn told(alloc: Global, standing: &mut Standing, row: &str) -> Result<String, Fail>
    requires { standing.old.units ≡ 4095 }
    ensures { standing.new.units ≡ 4095 }
{
    let (first, rest) = row.split_once(' ').ok_or("a row out of form")?;
    if first == "unit" {
        return told_of_unit(alloc, standing, rest);
    }
    let reply = reply_to(alloc, standing, first.parse::<u32>()?, rest)?;
    Ok(format!(in alloc; "{reply:?}")?)
}

// Goes through rows, up to the first after which something else is told.
fn play_rows(alloc: Global, standing: &mut Standing, rows: &str) -> Result<(), Fail>
    requires { standing.old.units ≡ 4095 }
{
    for row in rows.lines() {
        let (asked, wanted) = row.split_once('>').ok_or("a row out of form")?;
        if told(alloc, standing, asked)?.as_str() != wanted {
            return Err(row.into());
        }
    }
    Ok(())
}

fn play_case(alloc: Global, case: &str) -> Result<(), Fail> {
    let (first, rows) = case.split_once('\n').ok_or("a case out of form")?;
    let mut standing = standing_of(alloc, first)?;
    let end = play_rows(alloc, &mut standing, rows);
    drop(standing);
    end
}

// Plays the cases of a text. The first row of a case has the cut sets of a standing, its margin, and its supervisor, if
// there is one. Each other row has what a crew asks and its reply, or a unit and what is told of it.
fn play(alloc: Global, cases: &str) -> Result<(), Fail> {
    for case in cases.split("\n\n") {
        play_case(alloc, case)?;
    }
    Ok(())
}

// Takes after which a cut set would fail, and where that unit has come back. Units of no tight set at a tight opening.
// A set that keeps one more than the margin, and one that doesn't.
const TIGHT: &str = "\
c d ab ef fg hijk|0|
0 take e>Granted
0 take f>Denied(4)
0 return e>Granted
0 take f>Granted
unit f>0 [1, 1, 2, 1, 1, 4] Some(CrewNo(0))
unit e>0 [1, 1, 2, 1, 1, 4] None

a bc|1|
0 take b>Denied(1)
0 take d>Denied(1)

abc|2|
0 take a>Denied(1)

abc|1|
0 take a>Granted";

#[test]
fn a_take_is_denied_where_a_cut_set_would_be_tight(rt: HostRuntime) -> Result<(), Fail> {
    play(rt.alloc(), TIGHT)
}

const ERRORS: &str = "\
abc|0|
0 take a>Granted
0 take a>AlreadyOut(CrewNo(0))
1 return a>HeldBy(CrewNo(0))
1 take a>AlreadyOut(CrewNo(0))
0 return b>NotOut
0 take ?>UnknownUnit
0 return ?>UnknownUnit
0 return a>Granted
0 take a>Granted";

#[test]
fn errors_have_their_names(rt: HostRuntime) -> Result<(), Fail> {
    play(rt.alloc(), ERRORS)
}

// With a supervisor, and without.
const MARGINS: &str = "\
ab cd|0|0
0 take ac>Granted
0 margin 1>Denied(1)
0 return a>Granted
0 margin 1>Denied(2)
0 return c>Granted
0 margin 1>Granted
0 take a>Denied(1)
0 margin 0>Granted
0 take ab>Denied(1)
0 take ca>Granted
0 take b?>UnknownUnit
0 take ba>AlreadyOut(CrewNo(0))
1 margin 1>NotSupervisor
unit a>0 [1, 1] Some(CrewNo(0))

ab|0|
0 margin 1>NotSupervisor";

#[test]
fn only_a_supervisor_changes_the_margin(rt: HostRuntime) -> Result<(), Fail> {
    play(rt.alloc(), MARGINS)
}

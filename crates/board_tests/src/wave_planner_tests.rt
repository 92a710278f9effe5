//! Plans of worked trees, each as the crew part that serves it.
ghost use Rattle.std.specs.Prelude.{◌≡◌, ◌≤◌, true, false, All};
ghost use Rattle.fault_definitions.specs.Tree.{IsUnitOf, unit_count};
ghost use Rattle.residual_ledger.specs.Residual.{HasUnitsUpTo};
ghost use Rattle.margin_policy.specs.Asked.{has_repeat};

use crate::letters::units_of;
use deck_limits::GREATEST_MARGIN;
use edge_io::{CallList, KeptSink, Out};
use fault_model::Tree;
use margin_policy::AskedUnits;
use std::alloc::Global;
use std::test::Fail;
use unit_sets::{CutList, UnitNo};
use wave_planner::{PlanEnd, Stuck, Waves, plan, put_waves};
use worked_trees::{cuts_of, tree_of};

// Whether no unit stands twice among a few.
fn differ(units: &[UnitNo]) -> bool
    ensures { result ≡ true → has_repeat units.now ≡ false }
{
    AskedUnits::new(units, true).is_some()
}

fn is_unit_of(tree: &Tree, unit: UnitNo) -> bool
    ensures { result ≡ true → IsUnitOf tree.now unit }
{
    u32::from(unit.number()) <= tree.units()
}

// Whether these are units of a tree.
fn are_of(tree: &Tree, units: &[UnitNo]) -> bool
    ensures { result ≡ true → All (IsUnitOf tree.now) units.now }
{
    for unit in units {
        if !is_unit_of(tree, *unit) {
            return false;
        }
    }
    true
}

// Puts waves into a sink: whether all of it was put.
fn put_into(alloc: Global, sink: &mut KeptSink, tree: &Tree, waves: &Waves) -> Result<bool, Fail>
    requires { All (All (IsUnitOf tree.now)) waves.now }
{
    let mut out = Out::new(alloc, sink)?;
    let put = put_waves(&mut out, tree, waves).is_ok();
    Ok(out.finish().is_ok() && put)
}

// Whether this is the text of waves.
fn are_written(alloc: Global, tree: &Tree, waves: &Waves, text: &str) -> Result<bool, Fail>
    requires { All (All (IsUnitOf tree.now)) waves.now }
{
    let mut sink = KeptSink::new(alloc, 2_000, CallList::new(alloc, &[])?)?;
    Ok(put_into(alloc, &mut sink, tree, waves)? && sink.bytes() == text.as_bytes())
}

fn is_stuck(alloc: Global, stuck: Stuck, text: &str) -> Result<bool, Fail> {
    let unit = stuck.unit.number();
    let cut = stuck.cut;
    Ok(format!(in alloc; "unit {unit} alone, cut {cut}")?.as_str() == text)
}

// Whether this comes of the plan for some units.
fn holds(
    alloc: Global,
    tree: &Tree,
    cuts: &CutList,
    margin: u32,
    wanted: &[UnitNo],
    text: &str,
) -> Result<bool, Fail>
    requires cuts { HasUnitsUpTo (unit_count tree.now) cuts.now }
    requires margin { margin ≤ GREATEST_MARGIN }
    requires units { All (IsUnitOf tree.now) wanted.now }
    requires differ { has_repeat wanted.now ≡ false }
{
    match plan(alloc, tree.units(), cuts, margin, wanted) {
        Ok(waves) => are_written(alloc, tree, &waves, text),
        Err(PlanEnd::Impossible(stuck)) => is_stuck(alloc, stuck, text),
        Err(PlanEnd::NoMemory) => Err("no memory".into()),
    }
}

fn holds_of(
    alloc: Global,
    tree: &Tree,
    margin: u32,
    wanted: &[UnitNo],
    text: &str,
) -> Result<bool, Fail> {
    if margin > GREATEST_MARGIN || !differ(wanted) || !are_of(tree, wanted) {
        return Err("no such plan".into());
    }
    let cuts = cuts_of(alloc, tree)?;
    holds(alloc, tree, &cuts, margin, wanted, text)
}

// Whether a case holds: the deck of a tree, a line with the margin and the letters of the wanted units, and what comes
// of them.
fn case_holds(alloc: Global, case: &str) -> Result<bool, Fail> {
    let (deck, rest) = case.split_once('\n').ok_or("no units")?;
    let (asked, text) = rest.split_once('\n').ok_or("no text")?;
    let (margin, wanted) = asked.split_once('|').ok_or("no margin")?;
    let margin = margin.parse::<u32>()?;
    let wanted = units_of(alloc, wanted)?;
    let tree = tree_of(alloc, deck.as_bytes())?;
    let held = holds_of(alloc, &tree, margin, wanted.as_slice(), text);
    drop(tree);
    held
}

// Waves of one unit and of two, greater margins, a unit that no cut set has, and no units. The last tree is a system
// whose units `a` to `k` are P, B, CS, SS, MS, MA, MB, PA, PSA, PB and PSB.
const CASES: &str = "\
toplevel T; T 2of3 A B C; A; B; C;
0|abc
crew planner
take A
return A
take B
return B
take C
return C

$ toplevel T; T and \"a b\" B C; \"a b\"; B; C;
0|cab
crew planner
take C
take \"a b\"
return C
return \"a b\"
take B
return B

$ toplevel T; T and A B C; A; B; C; D;
1|ab
crew planner
take A
return A
take B
return B

$ toplevel T; T and A B C; A; B; C; D;
2|db
unit 2 alone, cut 1
$ toplevel T; T and A B C; A; B; C; D;
3|db
unit 4 alone, cut 1
$ toplevel T; T and A B; A; B;
0|
crew planner

$ toplevel SYSTEM; SYSTEM or CPU MOTOR PUMPS; CPU wsp P B; DEP fdep TRIGGER P B; TRIGGER or CS SS; \
MOTOR or SWITCH MOTORS; SWITCH pand MS MA; MOTORS csp MA MB; PUMPS and PUMP1 PUMP2; \
PUMP1 csp PA PSA; PUMP2 csp PB PSB; P; B; CS; SS; MS; MA; MB; PA; PSA; PB; PSB;
0|ahebfg
crew planner
take P
take PA
take MS
take MB
return P
return PA
return MS
return MB
take B
take MA
return B
return MA

$ toplevel SYSTEM; SYSTEM or CPU MOTOR PUMPS; CPU wsp P B; DEP fdep TRIGGER P B; TRIGGER or CS SS; \
MOTOR or SWITCH MOTORS; SWITCH pand MS MA; MOTORS csp MA MB; PUMPS and PUMP1 PUMP2; \
PUMP1 csp PA PSA; PUMP2 csp PB PSB; P; B; CS; SS; MS; MA; MB; PA; PSA; PB; PSB;
0|ac
unit 3 alone, cut 1";

#[test]
fn units_go_into_the_first_wave_that_takes_them(rt: HostRuntime) -> Result<(), Fail> {
    for case in CASES.split("\n$ ") {
        assert!(rt; case_holds(rt.alloc(), case)?, "{case}");
    }
    Ok(())
}

//! Verdicts on the logs of small decks.
//!
//! A table is one text. Each of its cases begins with the verdict that is due, on a line of its own, and the log
//! follows up to the next `$`, to the byte.
ghost use Rattle.fault_definitions.specs.Tree.{unit_count};
ghost use Rattle.residual_ledger.specs.Residual.{HasUnitsUpTo};

use board_audit::{NoMemory, Verdict, audit};
use crew_script::Dockets;
use fault_model::Tree;
use std::alloc::Global;
use std::process::Abort;
use std::test::Fail;
use unit_sets::CutList;
use worked_trees::{cuts_of, dockets_of, tree_of};

fn in_words(verdict: Verdict) -> &'static str {
    match verdict {
        Verdict::Yes => "Yes",
        Verdict::Header => "Header",
        Verdict::Rest => "Rest",
        Verdict::Entry(1) => "Entry 1",
        Verdict::Entry(2) => "Entry 2",
        Verdict::Entry(3) => "Entry 3",
        Verdict::Entry(4) => "Entry 4",
        Verdict::Entry(_) => "a later entry",
    }
}

// Whether each log of a table has the verdict that is due.
fn all_named(
    alloc: Global,
    tree: &Tree,
    cuts: &CutList,
    dockets: &Dockets,
    table: &str,
) -> Result<bool, NoMemory>
    requires { HasUnitsUpTo (unit_count tree.now) cuts.now }
{
    for case in table.split("$ ") {
        let (due, log) = case.split_once('\n').unwrap_or((case, ""));
        let verdict = audit(alloc, tree, cuts, dockets, 0, log.as_bytes())?;
        if in_words(verdict) != due {
            return Ok(false);
        }
    }
    Ok(true)
}

fn all_due_of_crews(
    alloc: Global,
    tree: &Tree,
    crews: &Dockets,
    table: &str,
) -> Result<bool, Fail> {
    let cuts = cuts_of(alloc, tree)?;
    let all = all_named(alloc, tree, &cuts, crews, table);
    drop(cuts);
    Ok(all?)
}

fn all_due_of_tree(alloc: Global, tree: &Tree, crews: &str, table: &str) -> Result<bool, Fail> {
    let dockets = dockets_of(alloc, crews.as_bytes())?;
    let all = all_due_of_crews(alloc, tree, &dockets, table);
    drop(dockets);
    all
}

// The same of the logs of a tree's crews, at the margin 0.
fn all_due(alloc: Global, text: &str, crews: &str, table: &str) -> Result<bool, Fail> {
    let tree = tree_of(alloc, text.as_bytes())?;
    let all = all_due_of_tree(alloc, &tree, crews, table);
    drop(tree);
    all
}

fn check_table(
    rt: &impl Abort,
    alloc: Global,
    text: &str,
    crews: &str,
    table: &str,
) -> Result<(), Fail> {
    let all = all_due(alloc, text, crews, table)?;
    assert!(rt; all);
    Ok(())
}

const SYSTEM: &str = "\
toplevel \"SYSTEM\";
\"SYSTEM\" or \"CPU\" \"MOTOR\" \"PUMPS\";
\"CPU\" wsp \"P\" \"B\";
\"DEP\" fdep \"TRIGGER\" \"P\" \"B\";   // both processors need the bus
\"TRIGGER\" or \"CS\" \"SS\";
\"MOTOR\" or \"SWITCH\" \"MOTORS\";
\"SWITCH\" pand \"MS\" \"MA\";
\"MOTORS\" csp \"MA\" \"MB\";
\"PUMPS\" and \"PUMP1\" \"PUMP2\";
\"PUMP1\" csp \"PA\" \"PSA\";
\"PUMP2\" csp \"PB\" \"PSB\";
\"P\"; \"B\"; \"CS\"; \"SS\"; \"MS\"; \"MA\"; \"MB\"; \"PA\"; \"PSA\"; \"PB\"; \"PSB\";";

const DAY_CREW: &str = "\
crew day
take MS
take MA
return MS
take MA";

const DAY: &str = "\
Yes
log: 4
1 day take MS: granted
2 day take MA: denied, cut 4
3 day return MS: granted
4 day take MA: granted
$ Entry 2
log: 4
1 day take MS: granted
2 day take MA: denied, cut 5
3 day return MS: granted
4 day take MA: granted
$ Entry 4
log: 4
1 day take MS: granted
2 day take MA: denied, cut 4
3 day return MS: granted
$ Entry 4
log: 4
1 day take MS: granted
2 day take MA: denied, cut 4
3 day return MS: granted
4 day take MA: granted$ Header
log: 3
1 day take MS: granted
2 day take MA: denied, cut 4
3 day return MS: granted
4 day take MA: granted
$ Rest
log: 4
1 day take MS: granted
2 day take MA: denied, cut 4
3 day return MS: granted
4 day take MA: granted

$ Header
$ Header
log: 4$ Entry 1
log: 4
$ Entry 1
log: 4
2 day take MS: granted
$ Entry 1
log: 4
1 night take MS: granted
$ Entry 1
log: 4
1 day take MA: granted
$ Entry 3
log: 4
1 day take MS: granted
2 day take MA: denied, cut 4
3 day take MA: denied, cut 4
";

#[test]
fn logs_of_one_crew_are_judged(rt: HostRuntime) -> Result<(), Fail> {
    check_table(&rt, rt.alloc(), SYSTEM, DAY_CREW, DAY)
}

const PAIR: &str = "toplevel T; T and A B; A; B;";

const TWO_CREWS: &str = "\
crew c
take A
crew d
take B";

const EITHER_FIRST: &str = "\
Entry 2
log: 2
1 c take A: granted
2 d take B: granted
$ Yes
log: 2
1 c take A: granted
2 d take B: denied, cut 1
$ Yes
log: 2
1 d take B: granted
2 c take A: denied, cut 1
$ Entry 2
log: 2
1 c take A: granted
2 c take A: E2 already out with c
";

#[test]
fn either_crew_may_be_first(rt: HostRuntime) -> Result<(), Fail> {
    check_table(&rt, rt.alloc(), PAIR, TWO_CREWS, EITHER_FIRST)
}

const PAIRS: &str = "toplevel T; T or G H; G and A B; H and C D; A; B; C; D;";

// Names that begin one another, in quotes and without, and each kind of reply.
const LIKE_NAMES: &str = "\
crew a
take A
return B
margin 1
crew \"a b\"
return A
take A Z
crew ab
take A
crew supervisor
margin 0";

const ALL_REPLIES: &str = "\
Yes
log: 7
1 a take A: granted
2 \"a b\" return A: E4 held by a
3 ab take A: E2 already out with a
4 a return B: E3 not out
5 \"a b\" take A Z: E1 unknown unit
6 supervisor margin 0: granted
7 a margin 1: E5 not supervisor
$ Entry 2
log: 7
1 a take A: granted
2 a b return A: E4 held by a
$ Entry 3
log: 7
1 ab take A: granted
2 \"a b\" return A: E4 held by ab
3 a take A: E2 already out with a
";

#[test]
fn crews_are_told_by_their_whole_names(rt: HostRuntime) -> Result<(), Fail> {
    check_table(&rt, rt.alloc(), PAIRS, LIKE_NAMES, ALL_REPLIES)
}

const NOTHING: &str = "\
Yes
log: 0
$ Rest
log: 0
1 c take A: granted
$ Header
log: 1
";

#[test]
fn a_log_may_have_no_entries(rt: HostRuntime) -> Result<(), Fail> {
    check_table(&rt, rt.alloc(), PAIR, "crew c", NOTHING)
}

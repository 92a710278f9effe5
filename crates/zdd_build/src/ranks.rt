//! All nodes of a tree, rank by rank.
ghost use Rattle.std.specs.Prelude.{◌≡◌, IfErr, IfOk, OnOk, None, length, true, false};
ghost use Rattle.zdd_shared_table.specs.Seats.{map_of};
ghost use Rattle.zdd_build.specs.Building.{IsBuiltTo, IsStop};
ghost use Rattle.zdd_build.specs.Places.{IsRun, IsTask};
ghost use Rattle.zdd_build.specs.Workers.{CanWork, FindsFull, GoesOn, HasLed, IsTeam};

use crate::places::end_of_rank;
use crate::rounds::{make_at, spread};
use crate::table::Table;
use crate::task::{Run, Task};
use crate::teams::meet;
use crate::worker::Worker;
use edge_io::Pace;
use std::thread::Threads;
use zdd_shared_table::{Full, StoreSeat};

// A rank is heavy once the first worker has made so many nodes of diagrams for it, and so many for each of its places:
// fewer are copied between workers as slowly as they are made.
const HEAVY: usize = 3_000;

const HEAVY_PLACE: usize = 16;

// Makes the nodes of a run that are not made yet, by the first worker. It stops before a place once it has made as
// many nodes of diagrams as the limit says, where at least two places are left. Answers where it stopped.
fn make_rest<P: Pace>(
    worker: &mut Worker,
    run: Run,
    table: &mut Table,
    limit: Option<usize>,
    pace: &P,
) -> Result<usize, Full>
    requires run { IsRun run }
    requires can { CanWork run.task worker.old }
    requires built { IsBuiltTo (map_of worker.old.ops) run.task table.old run.from }
    ensures stop { IfOk result (IsStop run.entry limit) }
    ensures built { IfOk result (IsBuiltTo (map_of worker.new.ops) run.entry.task table.new) }
    ensures full { IfErr result (λ _. worker.new.full ≡ true) }
    ensures goes_on { GoesOn run.entry.task worker.old worker.new }
{
    for place in run.from..run.to {
        if is_heavy(worker, limit) && place + 2 <= run.to {
            return Ok(place);
        }
        if table.made[place] {
            continue;
        }
        let family = make_at(worker, run, table.references.as_slice(), place, pace)?;
        table.put(run.task.places, place, family);
    }
    Ok(run.to)
}

// Whether a worker has made as many nodes of diagrams as the limit says.
fn is_heavy(worker: &Worker, limit: Option<usize>) -> bool
    ensures { limit ≡ None → result ≡ false }
{
    match limit {
        Some(limit) => worker.work >= limit,
        None => false,
    }
}

// Where the first worker stops in a rank, if the rest is spread: once the rank has shown itself to be heavy. Nodes that
// read units alone are spread at once where there are no more of them than workers: each worker then makes one, and
// none waits for the first to be made. A team of one has nobody to spread to.
fn limit_of(team: &[Worker], run: Run) -> Option<usize>
    requires { IsRun run }
{
    if team.len() < 2 {
        return None;
    }
    let count = run.to - run.from;
    if run.task.places[run.from].rank == 1 && count <= team.len() {
        return Some(0);
    }
    let heavy = count.saturating_mul(HEAVY_PLACE).max(HEAVY);
    Some(team[0].work.saturating_add(heavy))
}

// The first worker, as far as it gets. The seat and the worker know the same before and afterwards.
fn make_first<P: Pace>(
    run: Run,
    seat: &mut StoreSeat,
    team: &mut [Worker],
    table: &mut Table,
    limit: Option<usize>,
    pace: &P,
) -> Result<usize, Full>
    requires run { IsRun run }
    requires team { IsTeam run.task seat.old team.old }
    requires built { IsBuiltTo (map_of seat.old) run.task table.old run.from }
    ensures led { HasLed run.entry.task seat.old team.old seat.new team.new }
    ensures full { IfErr result (λ _. FindsFull team.new) }
    ensures stop { IfOk result (IsStop run.entry limit) }
    ensures built { IfOk result (IsBuiltTo (map_of seat.new) run.entry.task table.new) }
{
    let first = &mut team[0];
    meet(run.task, seat, first);
    let place = make_rest(first, run, table, limit, pace)?;
    meet(run.task, seat, first);
    Ok(place)
}

// All nodes of one rank.
fn make_rank<R: Threads + Sync, P: Pace>(
    rt: &R,
    run: Run,
    seat: &mut StoreSeat,
    team: &mut [Worker],
    table: &mut Table,
    pace: &P,
) -> Result<(), Full>
    requires run { IsRun run }
    requires team { IsTeam run.task seat.old team.old }
    requires built { IsBuiltTo (map_of seat.old) run.task table.old run.from }
    ensures led { HasLed run.entry.task seat.old team.old seat.new team.new }
    ensures full { IfErr result (λ _. FindsFull team.new) }
    ensures built { OnOk result (IsBuiltTo (map_of seat.new) run.entry.task table.new run.entry.to) }
{
    let limit = limit_of(team, run);
    let place = make_first(run, seat, team, table, limit, pace)?;
    if place == run.to {
        return Ok(());
    }
    spread(rt, run, seat, team, table, place, pace);
    make_first(run, seat, team, table, None, pace)?;
    Ok(())
}

/// All nodes at the places, rank by rank.
pub(crate) fn make_ranks<R: Threads + Sync, P: Pace>(
    rt: &R,
    task: Task,
    seat: &mut StoreSeat,
    team: &mut [Worker],
    table: &mut Table,
    pace: &P,
) -> Result<(), Full>
    requires task { IsTask task }
    requires team { IsTeam task seat.old team.old }
    requires built { IsBuiltTo (map_of seat.old) task table.old 0 }
    ensures led { HasLed task.entry seat.old team.old seat.new team.new }
    ensures full { IfErr result (λ _. FindsFull team.new) }
    ensures built { OnOk result (IsBuiltTo (map_of seat.new) task.entry table.new (length task.entry.places.now)) }
{
    let mut from = 0;
    while from < task.places.len() {
        let to = end_of_rank(task.places, from);
        make_rank(rt, Run { task, from, to }, seat, team, table, pace)?;
        from = to;
    }
    Ok(())
}

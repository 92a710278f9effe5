//! Places of one rank that are spread over the workers: each draws the next place until none is left.
ghost use Rattle.std.specs.Prelude.{◌≡◌, ◌≤◌, ◌<◌, All, IfErr, IfOk, IfSome, length, true};
ghost use Rattle.std.specs.Thread.{IsSync};
ghost use Rattle.fault_definitions.specs.CutFamily.{IsCutFamily};
ghost use Rattle.zdd_families.specs.Map.{Grown};
ghost use Rattle.zdd_shared_table.specs.Seats.{map_of};
ghost use Rattle.zdd_product.specs.Seats.{KnowsOne};
ghost use Rattle.zdd_build.specs.Building.{CanMake, IsBuiltTo};
ghost use Rattle.zdd_build.specs.Places.{IsRun, node_at};
ghost use Rattle.zdd_build.specs.Workers.{CanPart, CanWork, GoesOn, HasLed, IsAtRun, IsAtWork, IsReady, IsTeam};

use crate::places::Place;
use crate::table::Table;
use crate::task::{Run, Task};
use crate::teams::meet;
use crate::worker::{Finding, Worker, make, make_own};
use edge_io::Pace;
use std::sync::atomic::{AtomicUsize, Ordering};
use std::thread;
use std::thread::Threads;
use zdd_shared_table::{Full, StoreSeat};
use zdd_words::NodeRef;

/// Makes the node at a place, and tells the pace of it.
pub(crate) fn make_at<P: Pace>(
    worker: &mut Worker,
    run: Run,
    references: &[NodeRef],
    place: usize,
    pace: &P,
) -> Result<NodeRef, Full>
    requires can_make { CanMake (map_of worker.old.ops) run references.now }
    requires from { run.from ≤ place }
    requires within { place < run.to }
    requires can { CanWork run.task worker.old }
    ensures gives { IfOk result (λ r. KnowsOne (map_of worker.new.ops) r
        (IsCutFamily run.entry.task.tree.now (node_at run.entry.task.places.now place))) }
    ensures full { IfErr result (λ _. worker.new.full ≡ true) }
    ensures goes_on { GoesOn run.entry.task worker.old worker.new }
{
    let Place { rank, node } = run.task.places[place];
    let number = (place - run.from).min(u32::MAX as usize) as u32;
    pace.before(rank, number);
    let made = make(worker, run.task, node, references);
    pace.after(rank, number);
    made
}

// The same in the worker's own memory alone, which may be too small.
fn make_own_at<P: Pace>(
    worker: &mut Worker,
    run: Run,
    references: &[NodeRef],
    place: usize,
    pace: &P,
) -> Option<NodeRef>
    requires can_make { CanMake (map_of worker.old.ops) run references.now }
    requires from { run.from ≤ place }
    requires within { place < run.to }
    requires can { CanWork run.task worker.old }
    ensures gives { IfSome result (λ r. KnowsOne (map_of worker.new.ops) r
        (IsCutFamily run.entry.task.tree.now (node_at run.entry.task.places.now place))) }
    ensures goes_on { GoesOn run.entry.task worker.old worker.new }
{
    let Place { rank, node } = run.task.places[place];
    let number = (place - run.from).min(u32::MAX as usize) as u32;
    pace.before(rank, number);
    let made = make_own(worker, run.task, node, references);
    pace.after(rank, number);
    made
}

// Draws a place, makes the node there and keeps what was found. Whether there may be a next one.
fn make_next<P: Pace>(
    worker: &mut Worker,
    run: Run,
    references: &[NodeRef],
    next: &AtomicUsize,
    pace: &P,
) -> bool
    requires { IsAtRun run references.now worker.old }
    ensures { IsAtRun run.entry references.now worker.new }
{
    let place = next.fetch_add(1, Ordering::Relaxed);
    if place < run.from || place >= run.to {
        return false;
    }
    match make_own_at(worker, run, references, place, pace) {
        Some(family) => worker.found.push(Finding { place, family }).is_ok(),
        None => !worker.full,
    }
}

// Makes nodes until no place of the run is left.
fn make_some<P: Pace>(
    worker: &mut Worker,
    run: Run,
    references: &[NodeRef],
    next: &AtomicUsize,
    pace: &P,
)
    requires { IsAtRun run references.now worker.old }
    ensures { IsAtRun run.entry references.now worker.new }
{
    for _ in run.from..run.to {
        if !make_next(worker, run, references, next, pace) {
            return;
        }
    }
}

// Tells all workers what the seat knows.
fn brief(task: Task, seat: &mut StoreSeat, team: &mut [Worker])
    requires team { IsTeam task seat.old team.old }
    ensures led { HasLed task.entry seat.old team.old seat.new team.new }
    ensures learns { All (λ worker. Grown (map_of seat.old) (map_of worker.ops)) team.new }
{
    for i in 0..team.len() {
        meet(task, seat, &mut team[i]);
    }
}

// All workers make nodes, each in a thread of its own where one can be made.
fn make_all<R: Threads + Sync, P: Pace>(
    rt: &R,
    run: Run,
    team: &mut [Worker],
    references: &[NodeRef],
    next: &AtomicUsize,
    pace: &P,
)
    requires some { 1 ≤ length team.old }
    requires at_run { All (IsAtRun run references.now) team.old }
    ensures size { length team.new ≡ length team.old }
    ensures at_work { All (IsAtWork run.entry.task) team.new }
{
    let threads = team.len();
    thread::for_each_mut(
        rt,
        team,
        threads,
        &|_i: usize, worker: &mut Worker|
            requires { IsAtRun run references.now worker.now }
            ensures { IsAtWork run.entry.task worker.exit.now }
        { make_some(worker, run, references, next, pace) },
    );
}

// Takes what a worker has found.
fn take_found(worker: &mut Worker, run: Run, table: &mut Table)
    requires run { IsRun run }
    requires at_work { IsAtWork run.task worker.old }
    requires built { IsBuiltTo (map_of worker.old.ops) run.task table.old run.from }
    ensures built { IsBuiltTo (map_of worker.new.ops) run.entry.task table.new run.entry.from }
    ensures ready { IsReady run.entry.task worker.new }
    ensures ops { worker.new.ops ≡ worker.old.ops }
{
    for i in 0..worker.found.len() {
        let Finding { place, family } = worker.found[i];
        table.put(run.task.places, place, family);
    }
    worker.found.clear();
}

// The seat learns what all workers know, and the table takes what they have found.
fn collect(run: Run, seat: &mut StoreSeat, team: &mut [Worker], table: &mut Table)
    requires run { IsRun run }
    requires seat { CanPart run.task seat.old }
    requires some { 1 ≤ length team.old }
    requires at_work { All (IsAtWork run.task) team.old }
    requires built { IsBuiltTo (map_of seat.old) run.task table.old run.from }
    ensures led { HasLed run.entry.task seat.old team.old seat.new team.new }
    ensures built { IsBuiltTo (map_of seat.new) run.entry.task table.new run.entry.from }
{
    for i in 0..team.len() {
        let worker = &mut team[i];
        meet(run.task, seat, worker);
        take_found(worker, run, table);
    }
}

/// Spreads the places of a run from one on over all workers. What they leave is not made yet.
pub(crate) fn spread<R: Threads + Sync, P: Pace>(
    rt: &R,
    run: Run,
    seat: &mut StoreSeat,
    team: &mut [Worker],
    table: &mut Table,
    start: usize,
    pace: &P,
)
    requires run { IsRun run }
    requires team { IsTeam run.task seat.old team.old }
    requires built { IsBuiltTo (map_of seat.old) run.task table.old run.from }
    ensures led { HasLed run.entry.task seat.old team.old seat.new team.new }
    ensures built { IsBuiltTo (map_of seat.new) run.entry.task table.new run.entry.from }
{
    brief(run.task, seat, team);
    let next = AtomicUsize::new(start);
    make_all(rt, run, team, table.references.as_slice(), &next, pace);
    collect(run, seat, team, table);
}

//! The workers as a team over one seat: they are split off it, learn from it and tell it, and join it at the end.
ghost use Rattle.std.specs.Prelude.{◌≡◌, ◌+◌, ◌*◌, ◌<◌, ◌≤◌, [], length, All, IfErr, IfOk, vec_capacity};
ghost use Rattle.tree_families.specs.Due.{IsDueToTree};
ghost use Rattle.zdd_product.specs.Seats.{WentAll};
ghost use Rattle.zdd_build.specs.Workers.{CanPart, CanWork, CountsAsBefore, FindsFull, HasSplit, HaveMet, IsNew};
ghost use Rattle.zdd_build.specs.Workers.{IsReady};

use crate::task::{Size, Task};
use crate::worker::{Tools, Worker};
use fault_model::NoMemory;
use std::alloc::Global;
use zdd_product::{Ops, OpsRefused};
use zdd_shared_table::StoreSeat;

// The share that a worker gets.
const SHARE: u64 = 2;

/// The seat and the worker tell each other all that they know.
pub(crate) fn meet(task: Task, seat: &mut StoreSeat, worker: &mut Worker)
    requires seat { CanPart task seat.old }
    requires worker { CanWork task worker.old }
    ensures { HaveMet task.entry seat.old worker.old seat.new worker.new }
{
    let told = task.store.split(seat, 1);
    worker.ops.join(told);
    let told = worker.ops.split(1);
    task.store.join(seat, told);
}

// A worker whose seat is split off. Where memory is refused, its share is given back.
fn open_one<'t>(
    alloc: Global,
    task: Task<'t>,
    seat: &mut StoreSeat,
    own_nodes: usize,
) -> Result<Worker<'t>, NoMemory>
    requires own { seat.old.store ≡ task.store.now }
    requires share { 2 < seat.old.share }
    requires room { own_nodes ≤ 262144 }
    ensures refused { IfErr result (λ _. HasSplit 0 seat.old seat.new) }
    ensures split { IfOk result (λ _. HasSplit 1 seat.old seat.new) }
    ensures ready { IfOk result (IsReady task.entry) }
    ensures new { IfOk result IsNew }
{
    let ops = match Ops::new(alloc, task.store, task.store.split(seat, SHARE)) {
        Ok(ops) => ops,
        Err(refused) => {
            let OpsRefused { seat: back, cause } = refused;
            task.store.join(seat, back);
            return Err(cause);
        }
    };
    // The tools come last, so that no failure has to let them go.
    match Tools::new(alloc, task, own_nodes) {
        Ok(tools) => {
            let Tools {
                memory,
                copies,
                rooms,
                found,
            } = tools;
            Ok(Worker {
                ops,
                memory,
                copies,
                rooms,
                found,
                work: 0,
                full: false,
            })
        }
        Err(cause) => {
            let back = ops.into_seat();
            task.store.join(seat, back);
            Err(cause)
        }
    }
}

/// Opens the workers, within the room of the team. Where memory is refused, it has those before.
pub(crate) fn open<'t>(
    alloc: Global,
    task: Task<'t>,
    seat: &mut StoreSeat,
    size: Size,
    team: &mut Vec<Worker<'t>>,
) -> Result<(), NoMemory>
    requires own { seat.old.store ≡ task.store.now }
    requires share { 2 * size.workers < seat.old.share }
    requires room { size.own_nodes ≤ 262144 }
    requires none { team.old.items ≡ [] }
    requires reserved { size.workers ≤ vec_capacity team.old }
    ensures all { IfOk result (λ _. length team.new.items ≡ size.workers) }
    ensures split { HasSplit (length team.new.items) seat.old seat.new }
    ensures ready { All (IsReady task.entry) team.new.items }
    ensures new { All IsNew team.new.items }
{
    seat.is_sound();
    for _number in 0..size.workers {
        let worker = open_one(alloc, task, seat, size.own_nodes)?;
        team.push_reserved(worker);
    }
    Ok(())
}

/// Takes in the workers: all that they know and have counted, and their shares.
pub(crate) fn close(task: Task, seat: &mut StoreSeat, team: Vec<Worker>)
    requires own { seat.old.store ≡ task.store.now }
    requires ready { All (IsReady task) team.items }
    ensures went { WentAll (IsDueToTree task.entry.tree.now) seat.old seat.new }
    ensures share { seat.new.share ≡ seat.old.share + 2 * length team.entry.items }
    ensures full { FindsFull team.entry.items → seat.old.fulls < seat.new.fulls }
    ensures new { All IsNew team.entry.items → CountsAsBefore seat.old seat.new }
{
    seat.is_sound();
    let mut team = team;
    let Some(worker) = team.pop() else {
        return;
    };
    let Worker { ops, .. } = worker;
    task.store.join(seat, ops.into_seat());
    close(task, seat, team);
}

//! The cut families of all nodes of a tree, from the lowest rank to the highest.
ghost use Rattle.std.specs.Prelude.{◌≡◌, ◌+◌, ◌*◌, ◌≤◌, ◌<◌, ℕ, IfOk, IsErrOf, OnOk, false, length};
ghost use Rattle.fault_definitions.specs.CutFamily.{IsCutFamily};
ghost use Rattle.tree_families.specs.Due.{IsDueToTree};
ghost use Rattle.zdd_shared_table.specs.Seats.{map_of};
ghost use Rattle.zdd_product.specs.Seats.{KnowsOne, WentAll};
ghost use Rattle.zdd_build.specs.Building.{IsBuiltTo, KnowsCutFamilies};
ghost use Rattle.zdd_build.specs.Places.{IsTask};
ghost use Rattle.zdd_build.specs.Workers.{CountsAsBefore};

use crate::places::{places_by_rank, widest_rank};
use crate::ranks::make_ranks;
use crate::table::Table;
use crate::task::{Size, Task};
use crate::teams::{close, open};
use crate::worker::OWN_NODES;
use deck_limits::MOST_WORKERS;
use edge_io::Pace;
use fault_model::Tree;
use std::alloc::{AllocError, Global};
use std::thread::Threads;
use zdd_shared_table::{Full, NodeStore, StoreSeat};
use zdd_words::NodeRef;

/// The share that a seat needs to build: as many workers as may be asked for are split off it, and one more while two
/// tell each other what they know.
pub const TEAM_SHARE: u64 = 64;

/// Why the families were not all made.
#[derive(Clone, Copy, Debug, PartialEq, Eq)]
pub enum BuildEnd {
    /// Memory was refused, before any node was made.
    NoMemory,
    /// Every slot of the store is filled.
    Full,
}

impl From<AllocError> for BuildEnd {
    ghost use Rattle.std.specs.Prelude.{◌≡◌};
    ghost use Rattle.zdd_build.specs.declared.building.BuildEnd.TheVariants.{NoMemory};

    ghost from_gives = { λ _ end. end ≡ NoMemory };

    fn from(_e: AllocError) -> BuildEnd {
        BuildEnd::NoMemory
    }
}

impl From<Full> for BuildEnd {
    ghost use Rattle.std.specs.Prelude.{◌≡◌};
    ghost use Rattle.zdd_build.specs.declared.building.BuildEnd.TheVariants.{Full};

    ghost from_gives = { λ _ end. end ≡ Full };

    fn from(_e: Full) -> BuildEnd {
        BuildEnd::Full
    }
}

/// The reference of the minimal cuts of a tree, made by so many workers. The seat then knows one for each node that
/// is no `fdep`. The pace is told of each node, by its rank and its place among the nodes of that rank.
pub fn build<R: Threads + Sync, P: Pace>(
    rt: &R,
    alloc: Global,
    tree: &Tree,
    store: &NodeStore,
    seat: &mut StoreSeat,
    workers: u32,
    pace: &P,
) -> Result<NodeRef, BuildEnd>
    requires own { seat.old.store ≡ store.now }
    requires some { 1 ≤ workers }
    requires few { workers ≤ MOST_WORKERS }
    requires share { TEAM_SHARE ≤ seat.old.share }
    ensures top { IfOk result (λ r. KnowsOne (map_of seat.new) r (IsCutFamily tree.now tree.now.top)) }
    ensures nodes { OnOk result (KnowsCutFamilies (map_of seat.new) tree.now) }

    // What the seat knew it knows, and whatever the answer is, it has filled and missed only what is due to the tree.
    ensures went { WentAll (IsDueToTree tree.now) seat.old seat.new }
    ensures share { seat.new.share ≡ seat.old.share }
    ensures full { IsErrOf result BuildEnd.Full → seat.old.fulls < seat.new.fulls }
    ensures no_memory { IsErrOf result BuildEnd.NoMemory → CountsAsBefore seat.old seat.new }
{
    build_within(rt, alloc, tree, store, seat, workers, OWN_NODES, pace)
}

/// The same, where a worker's own memory takes so many nodes.
pub fn build_within<R: Threads + Sync, P: Pace>(
    rt: &R,
    alloc: Global,
    tree: &Tree,
    store: &NodeStore,
    seat: &mut StoreSeat,
    workers: u32,
    own_nodes: usize,
    pace: &P,
) -> Result<NodeRef, BuildEnd>
    requires own { seat.old.store ≡ store.now }
    requires some { 1 ≤ workers }
    requires few { workers ≤ MOST_WORKERS }
    requires share { TEAM_SHARE ≤ seat.old.share }
    requires room { own_nodes ≤ 262144 }
    ensures top { IfOk result (λ r. KnowsOne (map_of seat.new) r (IsCutFamily tree.now tree.now.top)) }
    ensures nodes { OnOk result (KnowsCutFamilies (map_of seat.new) tree.now) }
    ensures went { WentAll (IsDueToTree tree.now) seat.old seat.new }
    ensures share { seat.new.share ≡ seat.old.share }
    ensures full { IsErrOf result BuildEnd.Full → seat.old.fulls < seat.new.fulls }
    ensures no_memory { IsErrOf result BuildEnd.NoMemory → CountsAsBefore seat.old seat.new }
{
    seat.is_sound();
    let places = places_by_rank(alloc, tree)?;
    let task = Task {
        store,
        tree,
        places: places.as_slice(),
    };
    let mut table = Table::new(alloc, task)?;
    let size = Size {
        workers: (workers as usize).min(widest_rank(task.places).max(1)),
        own_nodes,
    };
    build_by_team(rt, alloc, task, seat, &mut table, size, pace)?;
    Ok(table.references[tree.top().index()])
}

// Makes all nodes by a team that is split off the seat, and joins it again.
fn build_by_team<R: Threads + Sync, P: Pace>(
    rt: &R,
    alloc: Global,
    task: Task,
    seat: &mut StoreSeat,
    table: &mut Table,
    size: Size,
    pace: &P,
) -> Result<(), BuildEnd>
    requires task { IsTask task }
    requires own { seat.old.store ≡ task.store.now }
    requires some { 1 ≤ size.workers }
    requires share { 2 * size.workers + 2 ≤ seat.old.share }
    requires room { size.own_nodes ≤ 262144 }
    requires built { (known : ℕ → ℕ) → IsBuiltTo known task table.old 0 }
    ensures built { OnOk result (IsBuiltTo (map_of seat.new) task.entry table.new (length task.entry.places.now)) }
    ensures went { WentAll (IsDueToTree task.entry.tree.now) seat.old seat.new }
    ensures share { seat.new.share ≡ seat.old.share }
    ensures full { IsErrOf result BuildEnd.Full → seat.old.fulls < seat.new.fulls }
    ensures no_memory { IsErrOf result BuildEnd.NoMemory → CountsAsBefore seat.old seat.new }
{
    seat.is_sound();
    let mut team = Vec::with_capacity(alloc, size.workers)?;
    if let Err(cause) = open(alloc, task, seat, size, &mut team) {
        close(task, seat, team);
        return Err(BuildEnd::from(cause));
    }
    let ended = make_ranks(rt, task, seat, team.as_mut_slice(), table, pace);
    close(task, seat, team);
    ended?;
    Ok(())
}

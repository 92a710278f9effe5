//! The cut sets of a tree, from the diagrams of its nodes or, where the store is full, by lists.
ghost use Rattle.std.specs.Prelude.{◌≡◌, ◌≤◌, ◌<◌, None, IfOk, IfSome, IsErrOf};
ghost use Rattle.unit_sets.specs.CutOrder.{weight, weight_limit};
ghost use Rattle.fault_definitions.specs.Cut.{IsCutList};
ghost use Rattle.cutset_lists.specs.Generation.{HasHeavyCutList};
ghost use Rattle.tree_families.specs.Due.{IsDueToTree};
ghost use Rattle.zdd_product.specs.Seats.{WentAll};
ghost use Rattle.outage_engine.specs.Store.{IsDiagramOf, IsRootOf};

use cutset_listing::list;
use cutset_lists::mcs_by_lists;
use deck_limits::MOST_WORKERS;
use edge_io::Pace;
use fault_model::Tree;
use std::alloc::Global;
use std::thread::Threads;
use unit_sets::{CutList, ListEnd};
use zdd_build::{BuildEnd, TEAM_SHARE, build};
use zdd_shared_table::{NodeStore, StoreSeat};
use zdd_words::NodeRef;

/// The cut list of a tree, and the reference of its family where the diagrams of the tree gave it.
#[derive(Drop)]
pub struct Found {
    pub cuts: CutList,
    pub root: Option<NodeRef>,
}

/// The cut list of a tree: listed from the diagram of the top event, which so many workers make with that of each
/// node, or, where every slot of the store is filled, found by lists. The pace is told as `zdd_build::build` says.
pub fn find_cuts<R: Threads + Sync, P: Pace>(
    rt: &R,
    alloc: Global,
    tree: &Tree,
    store: &NodeStore,
    seat: &mut StoreSeat,
    workers: u32,
    pace: &P,
) -> Result<Found, ListEnd>
    requires own { seat.old.store ≡ store.now }
    requires some { 1 ≤ workers }
    requires few { workers ≤ MOST_WORKERS }
    requires share { TEAM_SHARE ≤ seat.old.share }
    ensures cuts { IfOk result (λ found. IsCutList tree.now found.cuts) }
    ensures within { IfOk result (λ found. weight found.cuts ≤ weight_limit) }

    // With a root the seat knows the cut family of the top event and of each node. Without one a search of this call
    // found the store full.
    ensures root { IfOk result (λ found. IfSome found.root (IsDiagramOf seat.new tree.now)) }
    ensures full { IfOk result (λ found. found.root ≡ None → seat.old.fulls < seat.new.fulls) }

    // By either method, only the weight of the cut list itself counts.
    ensures limit { IsErrOf result ListEnd.ListLimit → HasHeavyCutList tree.now }

    // What the seat knew it knows, and whatever the answer is, it has filled and missed only what is due to the tree.
    ensures went { WentAll (IsDueToTree tree.now) seat.old seat.new }
    ensures share { seat.new.share ≡ seat.old.share }
{
    match build(rt, alloc, tree, store, seat, workers, pace) {
        Ok(root) => match list_root(alloc, tree, store, seat, root) {
            Ok(cuts) => Ok(Found {
                cuts,
                root: Some(root),
            }),
            Err(end) => Err(end),
        },
        Err(BuildEnd::Full) => match mcs_by_lists(alloc, tree) {
            Ok(cuts) => Ok(Found { cuts, root: None }),
            Err(end) => Err(end),
        },
        Err(BuildEnd::NoMemory) => Err(ListEnd::NoMemory),
    }
}

// The cut list of a tree from the family of its minimal cuts.
fn list_root(
    alloc: Global,
    tree: &Tree,
    store: &NodeStore,
    seat: &mut StoreSeat,
    root: NodeRef,
) -> Result<CutList, ListEnd>
    requires own { seat.old.store ≡ store.now }
    requires root { IsRootOf seat.old tree.now root }
    ensures cuts { IfOk result (IsCutList tree.now) }
    ensures within { IfOk result (λ cuts. weight cuts ≤ weight_limit) }
    ensures limit { IsErrOf result ListEnd.ListLimit → HasHeavyCutList tree.now }
    ensures seat { seat.new ≡ seat.old }
{
    // Tells the proof what a tree keeps.
    tree.units();
    match list(alloc, store, seat, root) {
        Ok(cuts) => {
            // Tells the proof that a cut list is in order.
            cuts.len();
            Ok(cuts)
        }
        Err(end) => Err(end),
    }
}

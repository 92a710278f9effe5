//! How large the cut list of a tree is, and the diagram of its family. Where the diagrams were made no list is: the
//! sets are counted.
ghost use Rattle.std.specs.Prelude.{◌≡◌, ◌-◌, ◌<◌, ◌≤◌, IfOk, IfErr};
ghost use Rattle.outage_engine.specs.Answers.{AreCountsOf, IfRefused, IsWeightLimitOf, end_without};
ghost use Rattle.outage_engine.specs.Means.{AreWorkers, IsSeatFor};
ghost use Rattle.outage_engine.specs.Store.{IsFoundBy, IsLeftFor, IsRootOf, method_by};
ghost use Rattle.outage_engine.specs.declared.status.Method.TheVariants.{Diagram, Lists};

use crate::Method;
use crate::means::Means;
use crate::refusal::{Refusal, RunEnd};
use cutset_listing::{FamilySize, node_count, size};
use cutset_lists::mcs_by_lists;
use edge_io::Free;
use fault_model::Tree;
use std::alloc::Global;
use std::thread::Threads;
use unit_sets::ListEnd;
use zdd_build::{BuildEnd, build};
use zdd_shared_table::{NodeStore, StoreSeat};
use zdd_words::NodeRef;

/// How many cut sets a tree has and how many members they have in all, and how many nodes their family has where the
/// diagrams of the tree were made.
#[derive(Drop)]
pub(crate) struct Counts {
    pub cuts: u64,
    pub members: u64,
    pub nodes: Option<u64>,
}

/// A tree with its counts.
#[derive(Drop)]
pub(crate) struct Sizes {
    pub tree: Tree,
    pub counts: Counts,
}

impl Sizes {
    /// How the cut sets were found.
    pub(crate) fn method(&self) -> Method
        ensures { result ≡ method_by self.now.counts.nodes }
    {
        match self.counts.nodes {
            Some(_) => Method::Diagram,
            None => Method::Lists,
        }
    }
}

/// The counts of a tree that is only read, so that no way out of here lets a tree go.
pub(crate) fn count_cuts<R: Threads + Sync>(
    means: &Means<R>,
    workers: u32,
    tree: &Tree,
    seat: &mut StoreSeat,
) -> Result<Counts, RunEnd>
    requires workers { AreWorkers workers }
    requires seat { IsSeatFor means.now.store.now seat.old }
    ensures counts { IfOk result (AreCountsOf tree.now) }
    ensures found { IfOk result (λ counts. IsFoundBy seat.old seat.new tree.now (method_by counts.nodes)) }
    ensures limit { IfErr result (IfRefused (IsWeightLimitOf tree.now)) }
    ensures left { IsLeftFor tree.now seat.old seat.new }
{
    match build(
        means.rt,
        means.alloc,
        tree,
        means.store,
        seat,
        workers,
        &Free,
    ) {
        Ok(root) => count_family(means.alloc, tree, means.store, seat, root),
        Err(BuildEnd::Full) => count_listed(means.alloc, tree),
        Err(BuildEnd::NoMemory) => Err(RunEnd::NoMemory),
    }
}

// The counts of a tree from the family of its minimal cuts.
fn count_family(
    alloc: Global,
    tree: &Tree,
    store: &NodeStore,
    seat: &mut StoreSeat,
    root: NodeRef,
) -> Result<Counts, RunEnd>
    requires own { seat.old.store ≡ store.now }
    requires root { IsRootOf seat.old tree.now root }
    ensures counts { IfOk result (AreCountsOf tree.now) }
    ensures method { IfOk result (λ counts. method_by counts.nodes ≡ Diagram) }
    ensures limit { IfErr result (IfRefused (IsWeightLimitOf tree.now)) }
    ensures seat { seat.new ≡ seat.old }
{
    match size(alloc, store, seat, root) {
        Ok(FamilySize { sets, weight }) => {
            let nodes = node_count(alloc, store, seat, root)?;
            Ok(Counts {
                cuts: sets,
                members: weight - sets,
                nodes: Some(nodes),
            })
        }
        Err(end) => Err(end_of(end)),
    }
}

// The counts of a tree by lists.
fn count_listed(alloc: Global, tree: &Tree) -> Result<Counts, RunEnd>
    ensures counts { IfOk result (AreCountsOf tree.now) }
    ensures method { IfOk result (λ counts. method_by counts.nodes ≡ Lists) }
    ensures limit { IfErr result (IfRefused (IsWeightLimitOf tree.now)) }
{
    match mcs_by_lists(alloc, tree) {
        Ok(cuts) => {
            let sets = cuts.len() as u64;
            Ok(Counts {
                cuts: sets,
                members: cuts.weight() - sets,
                nodes: None,
            })
        }
        Err(end) => Err(end_of(end)),
    }
}

/// How a run ends whose cut list is not to be had.
pub(crate) fn end_of(end: ListEnd) -> RunEnd
    ensures { result ≡ end_without end }
{
    match end {
        ListEnd::ListLimit => RunEnd::Refused(Refusal::ListLimit),
        ListEnd::NoMemory => RunEnd::NoMemory,
    }
}

//! The cut list of a tree and its failing orders.
ghost use Rattle.std.specs.Prelude.{◌≡◌, ◌≤◌, IfOk, IfErr};
ghost use Rattle.cut_sequences.specs.Orders.{order_limit, order_lists, order_total};
ghost use Rattle.outage_engine.specs.Answers.{IfRefused, IsLimitOf, IsListWithin, IsListingOf};
ghost use Rattle.outage_engine.specs.Means.{IsAskable, IsSeatFor};
ghost use Rattle.outage_engine.specs.Store.{IsFoundBy, IsLeftFor, method_by};

use crate::Method;
use crate::found::{Found, find_cuts};
use crate::means::{Asked, Means};
use crate::refusal::{Refusal, RunEnd};
use crate::sizes::end_of;
use board_report::UnitTexts;
use cut_sequences::{OrderEnd, OrderLists, orders};
use edge_io::Free;
use fault_model::Tree;
use std::thread::Threads;
use unit_sets::CutList;
use zdd_shared_table::StoreSeat;
use zdd_words::NodeRef;

/// A tree, its cut list, the failing orders of the sets that are small enough, the text of each of its units, and the
/// reference of the cut list's family where the diagrams of the tree gave it.
#[derive(Drop)]
pub(crate) struct Listing {
    pub tree: Tree,
    pub cuts: CutList,
    pub orders: OrderLists,
    pub texts: UnitTexts,
    pub root: Option<NodeRef>,
}

impl Listing {
    /// How the cut sets were found.
    pub(crate) fn method(&self) -> Method
        ensures { result ≡ method_by self.now.root }
    {
        match self.root {
            Some(_) => Method::Diagram,
            None => Method::Lists,
        }
    }
}

/// The cut list of a tree, with the failing orders of its sets of at most so many members.
pub(crate) fn list_tree<R: Threads + Sync>(
    means: &Means<R>,
    asked: Asked,
    tree: Tree,
    seat: &mut StoreSeat,
) -> Result<Listing, RunEnd>
    requires asked { IsAskable asked }
    requires seat { IsSeatFor means.now.store.now seat.old }
    ensures listed { IfOk result (IsListingOf asked.most tree) }
    ensures found { IfOk result (λ listing. IsFoundBy seat.old seat.new tree (method_by listing.root)) }
    ensures limit { IfErr result (IfRefused (IsLimitOf asked.most tree)) }
    ensures left { IsLeftFor tree seat.old seat.new }
{
    match find_cuts(
        means.rt,
        means.alloc,
        &tree,
        means.store,
        seat,
        asked.workers,
        &Free,
    ) {
        Ok(found) => list_found(means, asked, tree, found),
        Err(end) => {
            drop(tree);
            Err(end_of(end))
        }
    }
}

// The listing of a tree whose cut list was found.
fn list_found<R: Threads + Sync>(
    means: &Means<R>,
    asked: Asked,
    tree: Tree,
    found: Found,
) -> Result<Listing, RunEnd>
    requires asked { IsAskable asked }
    requires list { IsListWithin tree found.cuts }
    ensures listed { IfOk result (IsListingOf asked.most tree) }
    ensures root { IfOk result (λ listing. listing.root ≡ found.root) }
    ensures limit { IfErr result (IfRefused (IsLimitOf asked.most tree)) }
{
    let Found { cuts, root } = found;
    let texts = match UnitTexts::new(means.alloc, &tree) {
        Ok(texts) => texts,
        Err(end) => {
            drop(cuts);
            drop(tree);
            return Err(RunEnd::from(end));
        }
    };
    match orders_of(means, asked, &tree, &cuts) {
        Ok(orders) => Ok(Listing {
            tree,
            cuts,
            orders,
            texts,
            root,
        }),
        Err(end) => {
            drop(texts);
            drop(cuts);
            drop(tree);
            Err(end)
        }
    }
}

// The failing orders alone.
fn orders_of<R: Threads + Sync>(
    means: &Means<R>,
    asked: Asked,
    tree: &Tree,
    cuts: &CutList,
) -> Result<OrderLists, RunEnd>
    requires asked { IsAskable asked }
    requires list { IsListWithin tree.now cuts.now }
    ensures orders { IfOk result (λ orders. orders ≡ order_lists tree.now cuts.now asked.most) }
    ensures few { IfOk result (λ orders. order_total orders ≤ order_limit) }
    ensures limit { IfErr result (IfRefused (IsLimitOf asked.most tree.now)) }
{
    match orders(means.rt, means.alloc, tree, cuts, asked.most, asked.workers) {
        Ok(orders) => Ok(orders),
        Err(OrderEnd::OrderLimit) => Err(RunEnd::Refused(Refusal::OrderLimit)),
        Err(OrderEnd::NoMemory) => Err(RunEnd::NoMemory),
    }
}

//! Boards of worked trees at the margin 0, for the tests of the crates above.
//!
//! It stands on `worked_trees` for the tree, the cut list and the crews that texts say, and on `outage_board`.
#![tactic(auto)]

ghost use Rattle.std.specs.Prelude.{IfOk};
ghost use Rattle.fault_definitions.specs.Tree.{unit_count};
ghost use Rattle.residual_ledger.specs.Residual.{HasUnitsUpTo};
ghost use Rattle.outage_board.specs.Passes.{AreOf, HaveAll};

use crew_script::Dockets;
use fault_model::Tree;
use outage_board::{Board, BoardStart, BoardState};
use std::alloc::Global;
use std::test::Fail;
use unit_sets::CutList;
use worked_trees::{cuts_of, dockets_of, tree_of};

// What a board is made of.
#[derive(Drop)]
struct Parts {
    dockets: Dockets,
    tree: Tree,
    cuts: CutList,
}

// The tree of a deck, and its cut list. The tree is let go by a call: the proof of each way out is short then.
fn tree_and_cuts(alloc: Global, deck: &[u8]) -> Result<(Tree, CutList), Fail>
    ensures { IfOk result (λ made. HasUnitsUpTo (unit_count made.0) made.1) }
{
    let tree = tree_of(alloc, deck)?;
    match cuts_of(alloc, &tree) {
        Ok(cuts) => Ok((tree, cuts)),
        Err(fail) => {
            drop(tree);
            Err(fail)
        }
    }
}

fn parts_of(alloc: Global, deck: &[u8], crews: &[u8]) -> Result<Parts, Fail>
    ensures { IfOk result (λ parts. HasUnitsUpTo (unit_count parts.tree) parts.cuts) }
{
    let dockets = dockets_of(alloc, crews)?;
    match tree_and_cuts(alloc, deck) {
        Ok((tree, cuts)) => Ok(Parts {
            dockets,
            tree,
            cuts,
        }),
        Err(fail) => {
            drop(dockets);
            Err(fail)
        }
    }
}

/// A board for one thread, of the tree that a deck says and the crews of a crew part.
pub fn state_of(alloc: Global, deck: &[u8], crews: &[u8]) -> Result<BoardState, Fail> {
    let parts = parts_of(alloc, deck, crews)?;
    let state = BoardState::open(alloc, &parts.tree, &parts.cuts, &parts.dockets, 0);
    drop(parts);
    Ok(state?)
}

/// A board for several threads, and the passes of its crews.
pub fn board_of(alloc: Global, deck: &[u8], crews: &[u8]) -> Result<BoardStart, Fail>
    ensures own { IfOk result (λ start. AreOf start.board start.passes.passes) }
    ensures all { IfOk result (λ start. HaveAll start.board.deck start.passes.passes) }
{
    let parts = parts_of(alloc, deck, crews)?;
    let start = Board::open(alloc, &parts.tree, &parts.cuts, &parts.dockets, 0);
    drop(parts);
    Ok(start?)
}

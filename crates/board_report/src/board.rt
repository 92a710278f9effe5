//! What follows the text of cut sets for a board: its log, and the board at its end.
ghost use Rattle.std.specs.Prelude.{◌≡◌, is_err};
ghost use Rattle.std.specs.List.{list_any};
ghost use Rattle.edge_io.specs.Out.{has_failed, Puts};
ghost use Rattle.board_report.specs.BoardText.{IsDeckOf, board_text, grants_margin, margin_now};

use crate::at_end::AtEnd;
use crate::counted::put_counted;
use crate::holders::put_out;
use crate::left::put_left;
use crate::log::put_log;
use edge_io::{Out, Sink, WriteFault};
use fault_model::Tree;
use margin_policy::{Reply, Request};
use outage_board::{BoardState, Entry};

/// Puts what follows the text of cut sets for a board over this tree: the opening margin, the log, the margin in
/// force where some margin request was granted, the units that are out with their holders, and what is left of each
/// cut set.
pub fn put_board<K: Sink>(
    out: &mut Out<K>,
    state: &BoardState,
    tree: &Tree,
) -> Result<(), WriteFault>
    requires opened { IsDeckOf tree.now state.now.deck }
    ensures puts { Puts K.taken K.faults out.old out.new (board_text tree.now state.now) }
    ensures answer { is_err result ≡ has_failed out.new }
{
    let history = state.entries();
    let dockets = state.dockets();
    let standing = state.standing();
    // A write that failed fails again at the next.
    let _ = put_counted(out, b"margin: ", state.opening_margin() as u64, b"\n");
    let _ = put_log(out, dockets, history);
    put_margin_now(out, history, standing.margin());
    put_out(
        out,
        &AtEnd {
            tree,
            dockets,
            standing,
        },
    )?;
    put_left(out, standing.ledger())
}

fn grants_margin(entry: &Entry) -> bool
    ensures { result ≡ grants_margin entry.now }
{
    match &entry.request {
        Request::Take(_) | Request::Return(_) => false,
        Request::Margin(_) => entry.reply == Reply::Granted,
    }
}

fn has_granted_margin(history: &[Entry]) -> bool
    ensures { result ≡ list_any grants_margin history.now }
{
    history.iter().any(|entry| grants_margin(entry))
}

// Puts the margin in force, where some margin request was granted.
fn put_margin_now<K: Sink>(out: &mut Out<K>, history: &[Entry], margin: u32)
    ensures { Puts K.taken K.faults out.old out.new (margin_now history.now margin) }
{
    if !has_granted_margin(history) {
        return;
    }
    let _ = put_counted(out, b"margin now: ", margin as u64, b"\n");
}

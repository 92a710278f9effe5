//! The summary of a made deck.
ghost use Rattle.std.specs.Prelude.{◌≡◌, ◌<◌, ◌≤◌, ◌+◌, is_err, length, if◌then◌else◌};
ghost use Rattle.edge_io.specs.Out.{has_failed, Puts};
ghost use Rattle.margin_policy.specs.Decide.{is_granted};
ghost use Rattle.margin_policy.specs.Held.{units_out};
ghost use Rattle.outage_board.specs.Boards.{standing_of};
ghost use Rattle.cut_texts.specs.OrdersOfUnits.{AreOrdersOf};
ghost use Rattle.board_report.specs.SummaryText.{decided_line, is_denied, is_error, made_line};
ghost use Rattle.board_report.specs.SummaryText.{reply_count, summary_text};

use crate::holders::{count_out, put_out_head};
use cut_sequences::OrderLists;
use cut_texts::put_count_line;
use edge_io::{Out, Sink, WriteFault};
use fault_model::Tree;
use itoa::Buffer;
use margin_policy::Reply;
use outage_board::{BoardState, Entry};
use text_pieces::put_all;
use unit_sets::UnitNo;

/// Puts the summary of the made deck of a number: how large its tree is, how many cut sets and failing orders it has,
/// how its requests were decided on the board, and how many units are out at the end.
pub fn put_summary<K: Sink>(
    out: &mut Out<K>,
    number: u32,
    tree: &Tree,
    orders: &OrderLists,
    state: &BoardState,
) -> Result<(), WriteFault>
    requires made { AreOrdersOf tree.now state.now.deck.opening.cuts orders.now }
    ensures puts { Puts K.taken K.faults out.old out.new (summary_text number tree.now orders.now state.now) }
    ensures answer { is_err result ≡ has_failed out.new }
{
    // A write that failed fails again at the next.
    let _ = put_made_line(out, number, tree.units(), tree.gates());
    let _ = put_count_line(out, orders.sets(), orders.total());
    let _ = put_decided(out, state.entries());
    put_out_head(out, units_out(state))
}

// Whether a write of this line or the next failed is told by what is put behind them.
fn put_made_line<K: Sink>(
    out: &mut Out<K>,
    number: u32,
    units: u32,
    gates: u32,
) -> Result<(), WriteFault>
    ensures { Puts K.taken K.faults out.old out.new (made_line number units gates) }
{
    let mut number_digits = Buffer::new();
    let mut unit_digits = Buffer::new();
    let mut gate_digits = Buffer::new();
    put_all(
        out,
        &[
            b"made ",
            number_digits.format(number).as_bytes(),
            b": ",
            unit_digits.format(units).as_bytes(),
            b" units, ",
            gate_digits.format(gates).as_bytes(),
            b" gates\n",
        ],
    )
}

// How many requests got a reply of each kind.
#[derive(Clone, Copy)]
struct Replies {
    granted: u64,
    denied: u64,
    errors: u64,
}

impl Replies {
    // With one reply more.
    fn with(self, reply: Reply) -> Replies
        requires granted { self.granted < u64.MAX }
        requires denied { self.denied < u64.MAX }
        requires errors { self.errors < u64.MAX }
        ensures granted { result.granted ≡ self.granted + (if is_granted reply then 1 else 0) }
        ensures denied { result.denied ≡ self.denied + (if is_denied reply then 1 else 0) }
        ensures errors { result.errors ≡ self.errors + (if is_error reply then 1 else 0) }
    {
        match reply {
            Reply::Granted => Replies {
                granted: self.granted + 1,
                ..self
            },
            Reply::Denied(_) => Replies {
                denied: self.denied + 1,
                ..self
            },
            Reply::UnknownUnit
            | Reply::AlreadyOut(_)
            | Reply::NotOut
            | Reply::HeldBy(_)
            | Reply::NotSupervisor => Replies {
                errors: self.errors + 1,
                ..self
            },
        }
    }
}

fn count_replies(history: &[Entry]) -> Replies
    ensures granted { result.granted ≡ reply_count is_granted history.now }
    ensures denied { result.denied ≡ reply_count is_denied history.now }
    ensures errors { result.errors ≡ reply_count is_error history.now }
{
    let mut replies = Replies {
        granted: 0,
        denied: 0,
        errors: 0,
    };
    for entry in history {
        replies = replies.with(entry.reply);
    }
    replies
}

// Puts how the requests of a history were decided, in the same way.
fn put_decided<K: Sink>(out: &mut Out<K>, history: &[Entry]) -> Result<(), WriteFault>
    ensures { Puts K.taken K.faults out.old out.new (decided_line history.now) }
{
    let replies = count_replies(history);
    let mut request_count = Buffer::new();
    let mut granted_count = Buffer::new();
    let mut denied_count = Buffer::new();
    let mut error_count = Buffer::new();
    put_all(
        out,
        &[
            b"requests: ",
            request_count.format(history.len()).as_bytes(),
            b", granted: ",
            granted_count.format(replies.granted).as_bytes(),
            b", denied: ",
            denied_count.format(replies.denied).as_bytes(),
            b", named errors: ",
            error_count.format(replies.errors).as_bytes(),
            b"\n",
        ],
    )
}

// How many units are out on a board.
fn units_out(state: &BoardState) -> u32
    ensures { result ≡ length (units_out (standing_of state.now).held) }
{
    let standing = state.standing();
    // The cut sets tell the proof that the units are within their limit.
    standing.ledger().cuts();
    count_out(standing, UnitNo::MAX)
}

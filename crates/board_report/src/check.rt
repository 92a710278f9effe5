//! That a deck is well formed.
ghost use Rattle.std.specs.Prelude.{◌≡◌, is_err, length, None, Some, MatchOption, false};
ghost use Rattle.edge_io.specs.Out.{has_failed, Puts};
ghost use Rattle.board_report.specs.CheckText.{check_text, crews_line};

use crew_script::Dockets;
use cut_texts::put_titled_line;
use edge_io::{Out, Sink, WriteFault};
use fault_model::Tree;
use itoa::Buffer;
use text_pieces::put_all;

/// Puts the text of `check` over a tree, and over the crews of the deck where it has a crew part.
pub fn put_check<K: Sink>(
    out: &mut Out<K>,
    tree: &Tree,
    dockets: Option<&Dockets>,
) -> Result<(), WriteFault>
    ensures puts { MatchOption dockets.entry (Puts K.taken K.faults out.old out.new (check_text tree.now None))
        (λ crews. Puts K.taken K.faults out.old out.new (check_text tree.now (Some crews.now))) }
    ensures answer { is_err result ≡ has_failed out.new }
{
    match dockets {
        None => put_titled_line(out, b"well formed: ", tree),
        Some(dockets) => put_tree_and_crews(out, tree, dockets),
    }
}

fn put_tree_and_crews<K: Sink>(
    out: &mut Out<K>,
    tree: &Tree,
    dockets: &Dockets,
) -> Result<(), WriteFault>
    ensures puts { Puts K.taken K.faults out.old out.new (check_text tree.now (Some dockets.now)) }
    ensures answer { is_err result ≡ has_failed out.new }
{
    // A write that failed fails again at the next.
    let _ = put_titled_line(out, b"well formed: ", tree);
    put_crews_line(out, dockets)
}

fn put_crews_line<K: Sink>(out: &mut Out<K>, dockets: &Dockets) -> Result<(), WriteFault>
    ensures puts { Puts K.taken K.faults out.old out.new (crews_line (Some dockets.now)) }
    ensures answer { is_err result ≡ has_failed out.new }
{
    let mut crews = Buffer::new();
    let mut requests = Buffer::new();
    put_all(
        out,
        &[
            b"crews: ",
            crews.format(dockets.crews()).as_bytes(),
            b", requests: ",
            requests.format(dockets.total()).as_bytes(),
            b"\n",
        ],
    )
}

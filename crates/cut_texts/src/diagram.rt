//! The sizes of cut sets and of their diagram.
ghost use Rattle.std.specs.Prelude.{◌≡◌, is_err};
ghost use Rattle.edge_io.specs.Out.{has_failed, Puts};
ghost use Rattle.cut_texts.specs.DiagramText.{diagram_text, member_count, method_text, sizes_text};

use crate::cuts::{put_titled_line, put_two};
use edge_io::{Out, Sink, WriteFault};
use fault_model::Tree;
use itoa::Buffer;
use text_pieces::put_all;
use unit_sets::CutList;

/// Puts the text of `diagram` over a tree and its cut sets. `nodes` is how many nodes their diagram has, and `None`
/// where they were found by lists.
pub fn put_diagram<K: Sink>(
    out: &mut Out<K>,
    tree: &Tree,
    cuts: &CutList,
    nodes: Option<u64>,
) -> Result<(), WriteFault>
    ensures puts { Puts K.taken K.faults out.old out.new (diagram_text tree.now cuts.now nodes) }
    ensures answer { is_err result ≡ has_failed out.new }
{
    put_sizes(out, tree, cuts.len() as u64, members_of(cuts), nodes)
}

/// Puts the text of `diagram` over a tree that has so many cut sets with so many members in all. `nodes` is as above.
pub fn put_sizes<K: Sink>(
    out: &mut Out<K>,
    tree: &Tree,
    cuts: u64,
    members: u64,
    nodes: Option<u64>,
) -> Result<(), WriteFault>
    ensures puts { Puts K.taken K.faults out.old out.new (sizes_text tree.now cuts members nodes) }
    ensures answer { is_err result ≡ has_failed out.new }
{
    // A write that failed fails again at the counts.
    let _ = put_titled_line(out, b"tree: ", tree);
    let _ = put_method(out, nodes);
    put_two(out, b"cuts: ", cuts, b"\nmembers: ", members, b"\n")
}

fn put_method<K: Sink>(out: &mut Out<K>, nodes: Option<u64>) -> Result<(), WriteFault>
    ensures puts { Puts K.taken K.faults out.old out.new (method_text nodes) }
    ensures answer { is_err result ≡ has_failed out.new }
{
    match nodes {
        None => out.put(b"method lists\n"),
        Some(count) => put_all(
            out,
            &[
                b"method diagram\nnodes: ",
                Buffer::new().format(count).as_bytes(),
                b"\n",
            ],
        ),
    }
}

// The sum of the sizes of the sets.
fn members_of(cuts: &CutList) -> u64
    ensures { result ≡ member_count cuts.now }
{
    cuts.weight() - cuts.len() as u64
}

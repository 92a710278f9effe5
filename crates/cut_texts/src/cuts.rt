//! The text of cut sets.
ghost use Rattle.std.specs.Prelude.{◌≡◌, ◌<◌, ◌+◌, ◌++◌, [], is_err, length, false, All, None, codes};
ghost use Rattle.std.specs.Prelude.{decimal, slice_index_or};
ghost use Rattle.edge_io.specs.Out.{has_failed, Puts};
ghost use Rattle.fault_definitions.specs.Tree.{IsUnitOf, name_of};
ghost use Rattle.cut_texts.specs.CutsText.{count_line, cut_block, cut_blocks, cut_number, cuts_text};
ghost use Rattle.cut_texts.specs.CutsText.{listed_with, titled_line};
ghost use Rattle.cut_texts.specs.OrdersOfUnits.{AreOrdersOf};
ghost use Rattle.cut_texts.specs.Lines.{IsLine};
ghost use Rattle.cut_texts.specs.Spelling.{CanList};
ghost use Rattle.cut_texts.specs.UnitTexts.{AreTextsOf};

use crate::line::Line;
use crate::lines::{put_cut_line, put_orders};
use crate::spelled::{Listing, Spelled};
use crate::unit_texts::UnitTexts;
use cut_sequences::OrderLists;
use edge_io::{Out, Sink, WriteFault};
use fault_model::{Name, Tree};
use itoa::Buffer;
use text_pieces::{put_all, put_shown};
use unit_sets::CutList;

/// Puts the text of `cuts` over cut sets of units of the tree and the orders that are listed for them. `texts` are
/// those of the tree's units.
pub fn put_cuts<K: Sink>(
    out: &mut Out<K>,
    tree: &Tree,
    texts: &UnitTexts,
    cuts: &CutList,
    orders: &OrderLists,
) -> Result<(), WriteFault>
    requires texts { AreTextsOf tree.now texts.now }
    requires units { All (All (IsUnitOf tree.now)) cuts.now }
    requires made { AreOrdersOf tree.now cuts.now orders.now }
    ensures puts { Puts K.taken K.faults out.old out.new (cuts_text tree.now (listed_with cuts.now orders.now)) }
    ensures answer { is_err result ≡ has_failed out.new }
{
    // A write that failed fails again at the next.
    let _ = put_titled_line(out, b"tree: ", tree);
    put_count_line(out, cuts.len(), orders.total())?;
    let names = Spelled { tree, texts };
    put_blocks(
        out,
        &Listing {
            names,
            cuts,
            orders,
        },
    )
}

/// Puts the size of a tree and its top event behind a title.
pub fn put_titled_line<K: Sink>(
    out: &mut Out<K>,
    title: &[u8],
    tree: &Tree,
) -> Result<(), WriteFault>
    ensures puts { Puts K.taken K.faults out.old out.new (titled_line title.now tree.now) }
    ensures answer { is_err result ≡ has_failed out.new }
{
    // A write that failed fails again at the end of the line.
    let _ = put_two(
        out,
        title,
        tree.units() as u64,
        b" units, ",
        tree.gates() as u64,
        b" gates, top ",
    );
    let _ = put_shown(out, top_name(tree));
    out.put(b"\n")
}

/// The name of the top event.
pub fn top_name(tree: &Tree) -> &Name
    ensures { result.now ≡ name_of tree.now tree.now.top }
{
    tree.name(tree.top())
}

/// Puts how many cut sets and failing orders there are.
pub fn put_count_line<K: Sink>(out: &mut Out<K>, cuts: usize, orders: u64) -> Result<(), WriteFault>
    ensures puts { Puts K.taken K.faults out.old out.new (count_line cuts orders) }
    ensures answer { is_err result ≡ has_failed out.new }
{
    put_two(out, b"cuts: ", cuts as u64, b", orders: ", orders, b"\n")
}

// Puts two numbers, with texts before, between and behind them.
pub(crate) fn put_two<'a, K: Sink>(
    out: &mut Out<K>,
    front: &'a [u8],
    one: u64,
    middle: &'a [u8],
    two: u64,
    back: &'a [u8],
) -> Result<(), WriteFault>
    ensures puts { Puts K.taken K.faults out.old out.new
        (front.now ++ decimal one ++ middle.now ++ decimal two ++ back.now) }
    ensures answer { is_err result ≡ has_failed out.new }
{
    let mut first = Buffer::new();
    let mut second = Buffer::new();
    put_all(
        out,
        &[
            front,
            first.format(one).as_bytes(),
            middle,
            second.format(two).as_bytes(),
            back,
        ],
    )
}

fn put_blocks<K: Sink>(out: &mut Out<K>, listing: &Listing) -> Result<(), WriteFault>
    requires listing { CanList listing.now }
    requires fine { has_failed out.old ≡ false }
    ensures puts { Puts K.taken K.faults out.old out.new
        (cut_blocks listing.now.names.tree.now 1 (listed_with listing.now.cuts.now listing.now.orders.now)) }
    ensures answer { is_err result ≡ has_failed out.new }
{
    let mut line = listing.names.texts.line();
    let mut order_line = listing.names.texts.line();
    for i in 0..listing.cuts.len() {
        put_block(out, &mut line, &mut order_line, listing, i)?;
    }
    Ok(())
}

// The cut set of a place and its orders. The lines are those of the set before, and of an order before.
fn put_block<K: Sink>(
    out: &mut Out<K>,
    line: &mut Line,
    order_line: &mut Line,
    listing: &Listing,
    i: usize,
) -> Result<(), WriteFault>
    requires within { i < length listing.now.cuts.now }
    requires countable { i < usize.MAX }
    requires listing { CanList listing.now }
    requires line { IsLine listing.now.names.tree.now (cut_number i) line.old }
    requires order_line { IsLine listing.now.names.tree.now (codes " ") order_line.old }
    ensures line { IsLine listing.now.names.tree.now (cut_number (i + 1)) line.new }
    ensures order_line { IsLine listing.now.names.tree.now (codes " ") order_line.new }
    ensures puts { Puts K.taken K.faults out.old out.new
        (cut_block listing.now.names.tree.now (i + 1) (slice_index_or listing.now.cuts.now i [])
        (slice_index_or listing.now.orders.now i None)) }
    ensures answer { is_err result ≡ has_failed out.new }
{
    let set = listing.cuts.members(i);
    if !listing.orders.listed(i) {
        return put_cut_line(out, line, &listing.names, i, set, b"\n  (not listed)\n");
    }
    if listing.orders.count(i) == 0 {
        return put_cut_line(out, line, &listing.names, i, set, b"\n  (none)\n");
    }
    put_cut_line(out, line, &listing.names, i, set, b"\n")?;
    put_orders(out, order_line, listing, i)
}

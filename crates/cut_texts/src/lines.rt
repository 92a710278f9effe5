//! The lines of cut sets and of their orders.
ghost use Rattle.std.specs.Prelude.{◌≡◌, ◌<◌, ◌+◌, ◌++◌, is_err, length, true, false, codes};
ghost use Rattle.std.specs.List.{flat_map};
ghost use Rattle.cut_sequences.specs.Orders.{is_listed, orders_at};
ghost use Rattle.edge_io.specs.Out.{has_failed, Puts};
ghost use Rattle.cut_texts.specs.CutsText.{cut_number, order_line};
ghost use Rattle.cut_texts.specs.Lines.{IsLine};
ghost use Rattle.cut_texts.specs.Spelling.{CanList, CanSpell};
ghost use Rattle.cut_texts.specs.UnitTexts.{spaced};

use crate::line::{CUT, Line};
use crate::spelled::{Listing, Spelled};
use edge_io::{Out, Sink, WriteFault};
use itoa::Buffer;
use text_pieces::put_all;
use unit_sets::UnitNo;

// The line of a cut set, with what stands behind its names.
#[inline(always)]
pub(crate) fn put_cut_line<K: Sink>(
    out: &mut Out<K>,
    line: &mut Line,
    names: &Spelled,
    i: usize,
    set: &[UnitNo],
    tail: &[u8],
) -> Result<(), WriteFault>
    requires countable { i < usize.MAX }
    requires spelled { CanSpell names.now set.now }
    requires line { IsLine names.now.tree.now (cut_number i) line.old }
    ensures line { IsLine names.now.tree.now (cut_number (i + 1)) line.new }
    ensures puts { Puts K.taken K.faults out.old out.new
        (cut_number (i + 1) ++ (spaced names.now.tree.now set.now ++ tail.now)) }
    ensures answer { is_err result ≡ has_failed out.new }
{
    let counted = line.count_to(i);
    let turned = line.turn_to(names, set, tail);
    if counted && turned {
        return out.put(line.text.as_slice());
    }
    put_pieces(
        out,
        &[CUT, Buffer::new().format(i + 1).as_bytes(), b":"],
        names,
        set,
        tail,
    )
}

// Puts the orders of a listed set, each on a line of its own.
pub(crate) fn put_orders<K: Sink>(
    out: &mut Out<K>,
    line: &mut Line,
    listing: &Listing,
    i: usize,
) -> Result<(), WriteFault>
    requires within { i < length listing.now.orders.now }
    requires listed { is_listed listing.now.orders.now i ≡ true }
    requires listing { CanList listing.now }
    requires line { IsLine listing.now.names.tree.now (codes " ") line.old }
    requires fine { has_failed out.old ≡ false }
    ensures line { IsLine listing.now.names.tree.now (codes " ") line.new }
    ensures puts { Puts K.taken K.faults out.old out.new
        (flat_map (order_line listing.now.names.tree.now) (orders_at listing.now.orders.now i)) }
    ensures answer { is_err result ≡ has_failed out.new }
{
    for j in 0..listing.orders.count(i) {
        put_order(out, line, &listing.names, listing.orders.order(i, j))?;
    }
    Ok(())
}

// Puts the names of an order behind two blanks.
fn put_order<K: Sink>(
    out: &mut Out<K>,
    line: &mut Line,
    names: &Spelled,
    order: &[UnitNo],
) -> Result<(), WriteFault>
    requires spelled { CanSpell names.now order.now }
    requires line { IsLine names.now.tree.now (codes " ") line.old }
    ensures line { IsLine names.now.tree.now (codes " ") line.new }
    ensures puts { Puts K.taken K.faults out.old out.new (order_line names.now.tree.now order.now) }
    ensures answer { is_err result ≡ has_failed out.new }
{
    let begun = line.begin_once();
    let turned = line.turn_to(names, order, b"\n");
    if begun && turned {
        return out.put(line.text.as_slice());
    }
    put_pieces(out, &[b" "], names, order, b"\n")
}

// Puts such a line where there is no memory for it: the pieces of its head, the names and the tail.
fn put_pieces<K: Sink>(
    out: &mut Out<K>,
    head: &[&[u8]],
    names: &Spelled,
    units: &[UnitNo],
    tail: &[u8],
) -> Result<(), WriteFault>
    requires some { 0 < length head.now }
    requires spelled { CanSpell names.now units.now }
    ensures puts { Puts K.taken K.faults out.old out.new
        (flat_map (λ piece. piece.now) head.now ++ (spaced names.now.tree.now units.now ++ tail.now)) }
    ensures answer { is_err result ≡ has_failed out.new }
{
    // A write that failed fails again where the tail is put.
    let _ = put_all(out, head);
    for unit in units {
        let _ = out.put(names.texts.text(*unit));
    }
    out.put(tail)
}

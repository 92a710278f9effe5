//! What is left of each cut set.
ghost use Rattle.std.specs.Prelude.{◌≡◌, ◌<◌, ◌+◌, is_err, length, false};
ghost use Rattle.edge_io.specs.Out.{has_failed, Puts};
ghost use Rattle.residual_ledger.specs.Residual.{cut_at, residual};
ghost use Rattle.board_report.specs.BoardText.{left_line, left_lines};

use edge_io::{Out, Sink, WriteFault};
use itoa::Buffer;
use residual_ledger::Ledger;
use text_pieces::put_all;

// Puts a line for each cut set: how many of its members are not out, and how many it has.
pub(crate) fn put_left<K: Sink>(out: &mut Out<K>, ledger: &Ledger) -> Result<(), WriteFault>
    requires fine { has_failed out.old ≡ false }
    ensures puts { Puts K.taken K.faults out.old out.new (left_lines ledger.now.out 1 ledger.now.cuts) }
    ensures answer { is_err result ≡ has_failed out.new }
{
    for i in 0..ledger.cuts().len() {
        put_left_of(out, ledger, i)?;
    }
    Ok(())
}

fn put_left_of<K: Sink>(out: &mut Out<K>, ledger: &Ledger, i: usize) -> Result<(), WriteFault>
    requires within { i < length ledger.now.cuts }
    requires countable { i < usize.MAX }
    ensures puts { Puts K.taken K.faults out.old out.new
        (left_line (i + 1) (residual ledger.now.out (cut_at ledger.now.cuts i)) (length (cut_at ledger.now.cuts i))) }
    ensures answer { is_err result ≡ has_failed out.new }
{
    let left = ledger.residual(i);
    let size = size_of_cut(ledger, i);
    let mut number_digits = Buffer::new();
    let mut left_digits = Buffer::new();
    let mut size_digits = Buffer::new();
    put_all(
        out,
        &[
            b"left ",
            number_digits.format(i as u64 + 1).as_bytes(),
            b": ",
            left_digits.format(left).as_bytes(),
            b" of ",
            size_digits.format(size).as_bytes(),
            b"\n",
        ],
    )
}

fn size_of_cut(ledger: &Ledger, i: usize) -> usize
    requires { i < length ledger.now.cuts }
    ensures { result ≡ length (cut_at ledger.now.cuts i) }
{
    ledger.cuts().members(i).len()
}

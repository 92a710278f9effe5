//! Lines that are the same each time.
ghost use Rattle.std.specs.Prelude.{◌≡◌, is_err};
ghost use Rattle.edge_io.specs.Out.{has_failed, Puts};
ghost use Rattle.board_report.specs.Refusals.{notice_line};

use edge_io::{Out, Sink, WriteFault};

/// A line that says always the same.
#[derive(Clone, Copy, PartialEq, Eq)]
pub enum Notice {
    /// How the program is called.
    Usage,
    /// The input could not be read.
    ReadFault,
    /// The input has more bytes than it may have.
    TooLong,
    /// The cut list weighs more than it may weigh.
    ListLimit,
    /// The cut sets have more failing orders than are listed.
    OrderLimit,
}

/// Puts the line.
pub fn put_notice<K: Sink>(out: &mut Out<K>, notice: Notice) -> Result<(), WriteFault>
    ensures puts { Puts K.taken K.faults out.old out.new (notice_line notice) }
    ensures answer { is_err result ≡ has_failed out.new }
{
    out.put(line_of(notice))
}

fn line_of(notice: Notice) -> &'static [u8]
    ensures { result.now ≡ notice_line notice }
{
    match notice {
        Notice::Usage =>
            b"usage: cuts [--most N] [--workers N] | board [--margin N] [--most N] [--workers N] \
              | check | print | diagram [--workers N] | make --number N [--show deck|summary] | help\n",
        Notice::ReadFault => b"refused: read fault\n",
        Notice::TooLong => b"refused: input too long\n",
        Notice::ListLimit => b"refused: list limit 16777216\n",
        Notice::OrderLimit => b"refused: order limit 2000000\n",
    }
}

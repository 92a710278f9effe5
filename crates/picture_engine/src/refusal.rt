//! Why there is no picture.
ghost use Rattle.std.specs.Prelude.{◌≡◌, is_err};
ghost use Rattle.edge_io.specs.Out.{has_failed, Puts};
ghost use Rattle.picture_engine.specs.Ends.{refusal_code};
ghost use Rattle.picture_engine.specs.Refusals.{no_cut_line, refusal_line};

use board_report::{DeckFault, Notice, put_fault, put_notice};
use deck_reading::DeckEnd;
use edge_io::{Out, Sink, WriteFault};
use itoa::Buffer;
use std::alloc::AllocError;
use text_pieces::put_all;

/// Why there is no picture.
#[derive(Clone, Copy, PartialEq, Eq)]
pub enum Refusal {
    /// The words ask for no picture.
    Usage,
    /// The source failed.
    ReadFault,
    /// The input is too long.
    TooLong,
    /// The deck has this fault first.
    Fault(DeckFault),
    /// The cut list is too heavy.
    ListLimit,
    /// A cut set of this number was asked for, and there are only so many.
    NoSuchCut(u32, u32),
}

/// Why a run ends without a picture.
#[derive(Clone, Copy)]
pub(crate) enum NoPicture {
    /// For this cause, which is told.
    Refused(Refusal),
    /// There was not enough memory.
    NoMemory,
}

impl From<AllocError> for NoPicture {
    ghost use Rattle.std.specs.Prelude.{◌≡◌};
    ghost use Rattle.picture_engine.specs.declared.refusal.NoPicture.TheVariants.{NoMemory};

    ghost from_gives = { λ _ end. end ≡ NoMemory };

    fn from(_e: AllocError) -> NoPicture {
        NoPicture::NoMemory
    }
}

impl From<DeckEnd> for NoPicture {
    ghost use Rattle.std.specs.Prelude.{◌≡◌};
    ghost use Rattle.picture_engine.specs.Finding.{no_picture};

    ghost from_gives = { λ deck end. end ≡ no_picture deck };

    fn from(end: DeckEnd) -> NoPicture {
        match end {
            DeckEnd::Fault(fault) => NoPicture::Refused(Refusal::Fault(fault)),
            DeckEnd::NoMemory => NoPicture::NoMemory,
        }
    }
}

impl Refusal {
    ghost use Rattle.picture_engine.specs.Ends.{refusal_code};

    /// The exit status of a run that is refused so.
    pub fn code(&self) -> u8
        ensures { result ≡ refusal_code self.now }
    {
        match self {
            Refusal::Usage => 2,
            Refusal::ReadFault | Refusal::TooLong => 3,
            Refusal::Fault(_) | Refusal::ListLimit | Refusal::NoSuchCut(_, _) => 1,
        }
    }
}

// Puts the line of a refusal.
pub(crate) fn put_refusal<K: Sink>(out: &mut Out<K>, refusal: &Refusal) -> Result<(), WriteFault>
    ensures puts { Puts K.taken K.faults out.old out.new (refusal_line refusal.now) }
    ensures answer { is_err result ≡ has_failed out.new }
{
    match refusal {
        Refusal::Usage => out.put(b"usage: picture [--cut N]\n"),
        Refusal::ReadFault => put_notice(out, Notice::ReadFault),
        Refusal::TooLong => put_notice(out, Notice::TooLong),
        Refusal::Fault(fault) => put_fault(out, fault),
        Refusal::ListLimit => put_notice(out, Notice::ListLimit),
        Refusal::NoSuchCut(number, count) => put_no_cut(out, *number, *count),
    }
}

fn put_no_cut<K: Sink>(out: &mut Out<K>, number: u32, count: u32) -> Result<(), WriteFault>
    ensures puts { Puts K.taken K.faults out.old out.new (no_cut_line number count) }
    ensures answer { is_err result ≡ has_failed out.new }
{
    let mut number_digits = Buffer::new();
    let mut count_digits = Buffer::new();
    put_all(
        out,
        &[
            b"refused: cut ",
            number_digits.format(number).as_bytes(),
            b" of ",
            count_digits.format(count).as_bytes(),
            b"\n",
        ],
    )
}

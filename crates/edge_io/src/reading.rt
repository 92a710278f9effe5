//! Reading an input to its end.
ghost use Rattle.std.specs.Prelude.{◌≡◌, ◌+◌, ◌<◌, ◌≤◌, ◌^◌, ◌↔◌, length, IfOk, OnOk, IsErrOf};
ghost use Rattle.std.specs.Io.KnownBytes.{Consumes, IsAtEnd};
ghost use Rattle.event_counts.specs.Count.{Rose};
ghost use Rattle.edge_io.specs.Reading.{IfTold, ReadsAll};

use crate::{Bytes, Source};
use deck_limits::MOST_BYTES;
use std::alloc::{AllocError, Global};

/// The most bytes that an input may have: those of a deck.
pub const INPUT_LIMIT: usize = MOST_BYTES;

// How many bytes are asked for at a time.
const PIECE: usize = 65_536;

/// Why an input was not read to its end.
#[derive(Clone, Copy, Debug, PartialEq, Eq)]
pub enum ReadEnd {
    /// A read failed.
    ReadFault,
    /// The input has more than [`INPUT_LIMIT`] bytes.
    TooLong,
    /// There is no memory for the bytes.
    NoMemory,
}

impl From<AllocError> for ReadEnd {
    ghost use Rattle.std.specs.Prelude.{◌≡◌};
    ghost use Rattle.edge_io.specs.declared.reading.ReadEnd.TheVariants.{NoMemory};

    ghost from_gives = { λ _ end. end ≡ NoMemory };

    fn from(_e: AllocError) -> ReadEnd {
        ReadEnd::NoMemory
    }
}

/// Reads all bytes up to the end of the input. After an error what was read is lost.
pub fn read_all<S: Source>(alloc: Global, source: &mut S) -> Result<Bytes, ReadEnd>
    ensures whole { IfOk result (λ bytes. Consumes (S.held source.old) (S.held source.new) bytes) }
    ensures at_end { OnOk result (IsAtEnd (S.held source.new)) }
    ensures within { IfOk result (λ bytes. length bytes ≤ INPUT_LIMIT) }

    ensures read_fault { IsErrOf result ReadEnd.ReadFault → Rose (S.faults source.old) (S.faults source.new) }
    ensures too_long { IfTold (S.held source.old) (S.held source.new) (λ before after.
        IsErrOf result ReadEnd.TooLong ↔ (INPUT_LIMIT + length after < length before)) }

    // One read after another, and none after the first that fails.
    ensures reads { ReadsAll S.reads source.old result source.new }
    ensures never_falls { S.faults source.old ≤ S.faults source.new }
    ensures fits { S.faults source.new < 2 ^ 64 }
{
    read_by(alloc, source, &mut piece())
}

// Room for the bytes that one read gives.
fn piece() -> [u8; PIECE]
    ensures { PIECE ≡ length result }
{
    [0; PIECE]
}

// Reads all bytes, each time into `piece`.
fn read_by<S: Source>(alloc: Global, source: &mut S, piece: &mut [u8]) -> Result<Bytes, ReadEnd>
    requires { 0 < length piece.old }
    ensures whole { IfOk result (λ bytes. Consumes (S.held source.old) (S.held source.new) bytes) }
    ensures at_end { OnOk result (IsAtEnd (S.held source.new)) }
    ensures within { IfOk result (λ bytes. length bytes ≤ INPUT_LIMIT) }
    ensures read_fault { IsErrOf result ReadEnd.ReadFault → Rose (S.faults source.old) (S.faults source.new) }
    ensures too_long { IfTold (S.held source.old) (S.held source.new) (λ before after.
        IsErrOf result ReadEnd.TooLong ↔ (INPUT_LIMIT + length after < length before)) }
    ensures reads { ReadsAll S.reads source.old result source.new }
    ensures never_falls { S.faults source.old ≤ S.faults source.new }
    ensures fits { S.faults source.new < 2 ^ 64 }
{
    let mut bytes = Vec::new(alloc);
    'reading: loop {
        let Ok(count) = source.read(piece) else {
            return Err(ReadEnd::ReadFault);
        };
        if count == 0 {
            return Ok(Bytes::from_vec(bytes));
        }
        if INPUT_LIMIT - bytes.len() < count {
            return Err(ReadEnd::TooLong);
        }
        bytes.extend_from_slice(&piece[..count])?;
    }
}

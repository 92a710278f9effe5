//! A source in memory, which fails where it is told to.
ghost use Rattle.std.specs.Prelude.{◌≡◌, ◌≤◌, Some};

use crate::{Bytes, CallList, Failed, Source};
use std::marker::Model;

/// A source of bytes in memory. It gives at most so many at a call, and fails the calls that its list has, by their
/// number from 0. That number stays at the last value of a `u64`, where no call fails by the list.
#[derive(Drop)]
pub struct HeldSource {
    bytes: Bytes,
    at: usize,
    most: usize,
    failing: CallList,
    calls: u64,
    faults: u64,
}

impl Model for HeldSource {
    ghost use Rattle.std.specs.Prelude.{drop, length, ◌≤◌};
    ghost use Rattle.edge_io.specs.HeldSource.{Held};

    ghost Value = { Held };

    ghost view = { λ s. record {
      bytes = drop s.at s.bytes;
      most = s.most;
      failing = s.failing;
      calls = s.calls;
      faults =
          s.faults;
    } };

    ghost invariant = { λ s. (s.at ≤ length s.bytes) × (1 ≤ s.most) };
}

impl HeldSource {
    /// Gives these bytes, at most `most` at a call, and fails the calls in `failing`.
    pub fn new(bytes: Bytes, most: usize, failing: CallList) -> HeldSource
        requires gives { 1 ≤ most }
        ensures made { result ≡ record { bytes = bytes; most = most; failing = failing; calls = 0; faults = 0 } }
    {
        HeldSource {
            bytes,
            at: 0,
            most,
            failing,
            calls: 0,
            faults: 0,
        }
    }
}

impl Source for HeldSource {
    ghost use Rattle.edge_io.specs.HeldSource.{HeldReads};

    ghost held = { λ s. Some s.bytes };

    ghost faults = { λ s. s.faults };

    ghost reads = { HeldReads };

    fn read(&mut self, into: &mut [u8]) -> Result<usize, Failed> {
        let call = self.calls;
        self.calls = call.saturating_add(1);
        if self.failing.has(call) {
            self.faults = self.faults.saturating_add(1);
            return Err(Failed);
        }
        let rest = &self.bytes.as_slice()[self.at..];
        let count = rest.len().min(into.len()).min(self.most);
        into[..count].copy_from_slice(&rest[..count]);
        self.at += count;
        Ok(count)
    }
}

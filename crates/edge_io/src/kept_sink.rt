//! A sink in memory, which fails where it is told to.
ghost use Rattle.std.specs.Prelude.{◌≡◌, ◌≤◌, [], Some, IfOk, length};
ghost use Rattle.edge_io.specs.KeptSink.{fitting, is_refused};

use crate::{CallList, Failed, NoMemory, Sink};
use std::alloc::Global;
use std::marker::Model;

/// A sink that keeps what it takes, as far as there is room. It fails the calls of `write` and `flush` that its list
/// has, by their number from 0. That number stays at the last value of a `u64`, where no call fails by the list.
#[derive(Drop)]
pub struct KeptSink {
    bytes: Vec<u8>,
    room: usize,
    failing: CallList,
    calls: u64,
    faults: u64,
}

impl Model for KeptSink {
    ghost use Rattle.std.specs.Prelude.{◌≤◌, vec_len, vec_capacity};
    ghost use Rattle.edge_io.specs.KeptSink.{Kept};

    ghost Value = { Kept };

    ghost view = { λ s. record {
      bytes = s.bytes.items;
      room = s.room;
      failing = s.failing;
      calls = s.calls;
      faults =
          s.faults;
    } };

    ghost invariant = { λ s. (vec_len s.bytes ≤ s.room) × (s.room ≤ vec_capacity s.bytes) };
}

impl KeptSink {
    /// Keeps up to `room` bytes, for which it takes memory now, and fails the calls in `failing`.
    pub fn new(alloc: Global, room: usize, failing: CallList) -> Result<KeptSink, NoMemory>
        ensures made { IfOk result (λ sink. sink ≡ record {
          bytes = [];
          room = room;
          failing = failing;
          calls = 0;
          faults = 0;
        }) }
    {
        Ok(KeptSink {
            bytes: Vec::with_capacity(alloc, room)?,
            room,
            failing,
            calls: 0,
            faults: 0,
        })
    }

    /// All that was taken.
    pub fn bytes(&self) -> &[u8]
        ensures taken { result.now ≡ self.now.bytes }
    {
        self.bytes.as_slice()
    }

    // How many bytes of a piece fit.
    fn fitting(&self, piece: &[u8]) -> usize
        ensures count { result ≡ fitting self.now piece.now }
        ensures within { result ≤ length piece.now }
    {
        piece.len().min(self.room - self.bytes.len())
    }

    // Does a write of this piece fail?
    fn refuses(&self, piece: &[u8]) -> bool
        ensures { result ≡ is_refused self.now piece.now }
    {
        self.failing.has(self.calls) || (!piece.is_empty() && self.fitting(piece) == 0)
    }
}

impl Sink for KeptSink {
    ghost use Rattle.edge_io.specs.KeptSink.{KeptWrites, KeptFlushes};

    ghost taken = { λ s. Some s.bytes };

    ghost faults = { λ s. s.faults };

    ghost writes = { KeptWrites };

    ghost flushes = { KeptFlushes };

    fn write(&mut self, bytes: &[u8]) -> Result<usize, Failed> {
        let count = self.fitting(bytes);
        let is_refused = self.refuses(bytes);
        self.calls = self.calls.saturating_add(1);
        if is_refused {
            self.faults = self.faults.saturating_add(1);
            return Err(Failed);
        }
        match self.bytes.extend_from_slice(&bytes[..count]) {
            Ok(()) => Ok(count),
            Err(_) => unreachable!(),
        }
    }

    fn flush(&mut self) -> Result<(), Failed> {
        let call = self.calls;
        self.calls = call.saturating_add(1);
        if self.failing.has(call) {
            self.faults = self.faults.saturating_add(1);
            return Err(Failed);
        }
        Ok(())
    }
}

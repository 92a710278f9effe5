//! Output through a buffer.
ghost use Rattle.std.specs.Prelude.{◌≡◌, ℕ, ◌+◌, ◌≤◌, ◌↔◌, List, [], ◌++◌, length, false, true, IsTrue, is_err, IsOk};
ghost use Rattle.std.specs.Prelude.{IsErr, IfOk, OnOk, OnErr};
ghost use Rattle.std.specs.Io.KnownBytes.{Appends};
ghost use Rattle.event_counts.specs.Count.{Rose};
ghost use Rattle.edge_io.specs.Writing.{TakesFront, Finishes};

use crate::buffer::{BUFFER_ROOM, Buffer};
use crate::writing::{WriteFault, write_all};
use crate::{NoMemory, Sink};
use std::alloc::Global;

/// Output to a sink through a buffer, which has to be finished. Once a write has failed nothing more is written. `B` is
/// always [`Buffer`]: as a parameter it lets the contract of [`Out::finish`] say what is left of the sink.
pub struct Out<'a, K: Sink, B = Buffer> {
    sink: &'a mut K,
    waiting: B,
    has_failed: bool,
}

impl<'a, K: Sink> Out<'a, K> {
    ghost use Rattle.edge_io.specs.Out.{sink_of, waiting, has_failed, Puts};

    /// Output to `sink` through this buffer, which is empty.
    pub fn over(sink: &'a mut K, buffer: Buffer) -> Out<'a, K>
        requires empty { buffer ≡ [] }
        ensures same_sink { result.sink.ghost_name ≡ sink.entry.ghost_name }
        ensures sink { sink_of result ≡ sink.old }
        ensures nothing_waits { waiting result ≡ [] }
        ensures fine { has_failed result ≡ false }
    {
        Out {
            sink,
            waiting: buffer,
            has_failed: false,
        }
    }

    /// Output to `sink` through a buffer of its own. Nothing is written: a caller that goes on with the sink after want
    /// of memory makes the buffer first, and then calls [`Out::over`].
    pub fn new(alloc: Global, sink: &'a mut K) -> Result<Out<'a, K>, NoMemory>
        ensures same_sink { IfOk result (λ out. out.sink.ghost_name ≡ sink.entry.ghost_name) }
        ensures sink { IfOk result (λ out. sink_of out ≡ sink.old) }
        ensures nothing_waits { IfOk result (λ out. waiting out ≡ []) }
        ensures fine { IfOk result (λ out. has_failed out ≡ false) }
    {
        let buffer = Buffer::new(alloc)?;
        Ok(Out::over(sink, buffer))
    }

    /// Puts these bytes behind those that were put.
    #[inline(always)]
    pub fn put(&mut self, bytes: &[u8]) -> Result<(), WriteFault>
        ensures puts { Puts K.taken K.faults self.old self.new bytes.now }
        ensures answer { is_err result ≡ has_failed self.new }
        ensures held_back { has_failed self.old ≡ false → length (waiting self.old) + length bytes.now ≤ BUFFER_ROOM
            → sink_of self.new ≡ sink_of self.old }
    {
        if self.has_failed {
            return Err(WriteFault);
        }
        if self.waiting.has_room(bytes.len()) {
            self.waiting.add(bytes);
            return Ok(());
        }
        self.put_long(bytes)
    }

    // Puts bytes for which the buffer has no room.
    #[inline(never)]
    fn put_long(&mut self, bytes: &[u8]) -> Result<(), WriteFault>
        requires fine { has_failed self.old ≡ false }
        ensures puts { Puts K.taken K.faults self.old self.new bytes.now }
        ensures answer { is_err result ≡ has_failed self.new }
    {
        self.write_waiting()?;
        if bytes.len() < BUFFER_ROOM {
            self.waiting.add(bytes);
            return Ok(());
        }
        self.write_now(bytes)
    }

    // Writes what waits.
    fn write_waiting(&mut self) -> Result<(), WriteFault>
        requires fine { has_failed self.old ≡ false }
        ensures puts { Puts K.taken K.faults self.old self.new [] }
        ensures answer { is_err result ≡ has_failed self.new }
        ensures written { OnOk result (waiting self.new ≡ []) }
    {
        if write_all(self.sink, self.waiting.as_slice()).is_err() {
            self.has_failed = true;
            return Err(WriteFault);
        }
        self.waiting.clear();
        Ok(())
    }

    // Writes these bytes, where none wait.
    fn write_now(&mut self, bytes: &[u8]) -> Result<(), WriteFault>
        requires fine { has_failed self.old ≡ false }
        requires none { waiting self.old ≡ [] }
        ensures puts { Puts K.taken K.faults self.old self.new bytes.now }
        ensures answer { is_err result ≡ has_failed self.new }
    {
        if write_all(self.sink, bytes).is_err() {
            self.has_failed = true;
            return Err(WriteFault);
        }
        Ok(())
    }

    /// Writes what waits, and then flushes the sink once.
    pub fn finish(self) -> Result<(), WriteFault>
        // The sink took all that was put, or a front of it.
        ensures all { OnOk result (Appends (K.taken (sink_of self.entry)) (K.taken self.exit.0.now)
            (waiting self.entry)) }
        ensures front { (left : List ℕ) × TakesFront K.taken (sink_of self.entry) self.exit.0.now (waiting self.entry)
            left }

        // A fault of the sink in this call is the only cause, unless a write had failed before.
        ensures rose { has_failed self.entry ≡ false → OnErr result
            (Rose (K.faults (sink_of self.entry)) (K.faults self.exit.0.now)) }
        ensures stopped { has_failed self.entry ≡ true → IsErr result × (self.exit.0.now ≡ sink_of self.entry) }
        ensures never_falls { K.faults (sink_of self.entry) ≤ K.faults self.exit.0.now }

        ensures flushed { has_failed self.entry ≡ false
            → Finishes K.writes K.flushes (sink_of self.entry) (waiting self.entry) result self.exit.0.now }
    {
        let Out {
            sink,
            waiting,
            has_failed,
        } = self;
        if has_failed {
            return Err(WriteFault);
        }
        write_all(sink, waiting.as_slice())?;
        match sink.flush() {
            Ok(()) => Ok(()),
            Err(_) => Err(WriteFault),
        }
    }
}

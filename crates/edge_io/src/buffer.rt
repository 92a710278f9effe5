//! What is put and not yet written.
ghost use Rattle.std.specs.Prelude.{◌≡◌, ◌+◌, ◌≤◌, ◌↔◌, [], ◌++◌, length, IsTrue, IfOk};

use crate::NoMemory;
use std::alloc::Global;
use std::marker::Model;

/// How many bytes a buffer holds at most.
pub const BUFFER_ROOM: usize = 8_192;

/// Room for the bytes that wait to be written, taken at once.
#[derive(Drop)]
pub struct Buffer {
    bytes: Vec<u8>,
}

impl Model for Buffer {
    ghost use Rattle.std.specs.Prelude.{ℕ, List, ◌≤◌, vec_len, vec_capacity};
    ghost use Rattle.edge_io.specs.declared.buffer.TheConstants.{BUFFER_ROOM};

    ghost Value = { List ℕ };

    ghost view = { λ b. b.bytes.items };

    ghost invariant = { λ b. (vec_len b.bytes ≤ BUFFER_ROOM) × (BUFFER_ROOM ≤ vec_capacity b.bytes) };
}

impl Buffer {
    /// A buffer with nothing in it, with all its room.
    pub fn new(alloc: Global) -> Result<Buffer, NoMemory>
        ensures empty { IfOk result (λ buffer. buffer ≡ []) }
    {
        Ok(Buffer {
            bytes: Vec::with_capacity(alloc, BUFFER_ROOM)?,
        })
    }

    // Is there room for so many bytes more?
    pub(crate) fn has_room(&self, count: usize) -> bool
        ensures { IsTrue result ↔ (length self.now + count ≤ BUFFER_ROOM) }
    {
        count <= BUFFER_ROOM - self.bytes.len()
    }

    // Adds these bytes.
    pub(crate) fn add(&mut self, bytes: &[u8])
        requires { length self.old + length bytes.now ≤ BUFFER_ROOM }
        ensures { self.new ≡ self.old ++ bytes.now }
    {
        match self.bytes.extend_from_slice(bytes) {
            Ok(()) => {}
            Err(_) => unreachable!(),
        }
    }

    pub(crate) fn clear(&mut self)
        ensures { self.new ≡ [] }
    {
        self.bytes.clear();
    }

    pub(crate) fn as_slice(&self) -> &[u8]
        ensures { result.now ≡ self.now }
    {
        self.bytes.as_slice()
    }
}

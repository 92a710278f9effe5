//! Writing all of some bytes.
ghost use Rattle.std.specs.Prelude.{◌≡◌, ℕ, ◌<◌, ◌≤◌, ◌^◌, List, [], OnOk, OnErr};
ghost use Rattle.std.specs.Io.KnownBytes.{Appends};
ghost use Rattle.event_counts.specs.Count.{Rose};
ghost use Rattle.edge_io.specs.Writing.{TakesFront, WritesAll};

use crate::Sink;

/// Not all bytes could be written.
#[derive(Clone, Copy, PartialEq, Eq)]
pub struct WriteFault;

// Writes all of `bytes`, in as many writes as the sink wants.
pub(crate) fn write_all<K: Sink>(sink: &mut K, bytes: &[u8]) -> Result<(), WriteFault>
    ensures all { OnOk result (Appends (K.taken sink.old) (K.taken sink.new) bytes.now) }
    ensures front { (left : List ℕ) × TakesFront K.taken sink.old sink.new bytes.now left }
    ensures rose { OnErr result (Rose (K.faults sink.old) (K.faults sink.new)) }
    ensures never_falls { K.faults sink.old ≤ K.faults sink.new }
    ensures writes { WritesAll K.writes sink.old bytes.now result sink.new }
{
    let mut done = 0;
    while done < bytes.len() {
        match sink.write(&bytes[done..]) {
            Ok(0) => return Err(WriteFault),
            Ok(count) => done += count,
            Err(_) => return Err(WriteFault),
        }
    }
    Ok(())
}

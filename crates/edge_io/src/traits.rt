//! What bytes are read from, and what they are written to.
ghost use Rattle.std.specs.Prelude.{◌≡◌, ℕ, ◌^◌, ◌<◌, ◌≤◌, Bool, List, Option, length, take, ⊤, is_ok, IfOk, OnOk};
ghost use Rattle.std.specs.Prelude.{OnErr};
ghost use Rattle.std.specs.Result.{result_ok};
ghost use Rattle.std.specs.Io.KnownBytes.{Keeps, Consumes, Appends, IsAtEnd};
ghost use Rattle.event_counts.specs.Count.{Rose};
ghost use Rattle.edge_io.specs.Reading.{given};

/// A read, a write or a flush failed.
#[derive(Clone, Copy, PartialEq, Eq)]
pub struct Failed;

/// Where bytes come from.
pub trait Source {
    /// The bytes still to come, where the source tells them.
    ghost held: { Self → Option (List ℕ) };

    /// How many faults there were: a `u64` that never falls, and stays at its last value.
    ghost faults: { Self → ℕ };

    /// What one read may do, from a state, with a buffer of this length, giving these bytes (`None`: it failed), to a
    /// state. A source may leave it open.
    ghost reads: { Self → ℕ → Option (List ℕ) → Self → Type 0 } = { λ _ _ _ _. ⊤ };

    /// Puts the next bytes into the front of `into`, and says how many. 0 of a buffer that isn't empty is the end.
    fn read(&mut self, into: &mut [u8]) -> Result<usize, Failed>
        ensures bound { IfOk result (λ n. n ≤ length into.new) }
        ensures next { IfOk result (λ n. Consumes (held self.old) (held self.new) (take n into.new)) }
        ensures end { IfOk result (λ n. n ≡ 0 → 0 < length into.new → IsAtEnd (held self.new)) }
        ensures kept { OnErr result (Keeps (held self.old) (held self.new)) }

        // Only a fault fails, and faults are counted up to the end of a `u64`.
        ensures rose { OnErr result (Rose (faults self.old) (faults self.new)) }
        ensures never_falls { faults self.old ≤ faults self.new }
        ensures fits { faults self.new < 2 ^ 64 }

        ensures step { reads self.old (length into.new) (given result into.new) self.new };
}

/// Where bytes go.
pub trait Sink {
    /// The bytes taken so far, where the sink tells them.
    ghost taken: { Self → Option (List ℕ) };

    /// How many faults there were: a `u64` that never falls, and stays at its last value.
    ghost faults: { Self → ℕ };

    /// What one write of these bytes may do, from a state, taking so many (`None`: it failed), to a state. A sink may
    /// leave it open.
    ghost writes: { Self → List ℕ → Option ℕ → Self → Type 0 } = { λ _ _ _ _. ⊤ };

    /// What one flush may do, from a state, with this success, to a state. A sink may leave it open.
    ghost flushes: { Self → Bool → Self → Type 0 } = { λ _ _ _. ⊤ };

    /// Takes bytes from the front of `bytes`, and says how many.
    fn write(&mut self, bytes: &[u8]) -> Result<usize, Failed>
        ensures bound { IfOk result (λ n. n ≤ length bytes.now) }
        ensures added { IfOk result (λ n. Appends (taken self.old) (taken self.new) (take n bytes.now)) }
        ensures kept { OnErr result (Keeps (taken self.old) (taken self.new)) }

        // Only a fault fails or takes nothing, and faults are counted up to the end of a `u64`.
        ensures none { IfOk result (λ n. n ≡ 0 → 0 < length bytes.now → Rose (faults self.old) (faults self.new)) }
        ensures rose { OnErr result (Rose (faults self.old) (faults self.new)) }
        ensures never_falls { faults self.old ≤ faults self.new }
        ensures fits { faults self.new < 2 ^ 64 }

        ensures step { writes self.old bytes.now (result_ok result) self.new };

    /// Passes on what was taken, as far as the sink holds it back.
    fn flush(&mut self) -> Result<(), Failed>
        ensures kept { Keeps (taken self.old) (taken self.new) }
        ensures rose { OnErr result (Rose (faults self.old) (faults self.new)) }
        ensures never_falls { faults self.old ≤ faults self.new }
        ensures fits { faults self.new < 2 ^ 64 }
        ensures step { flushes self.old (is_ok result) self.new };
}

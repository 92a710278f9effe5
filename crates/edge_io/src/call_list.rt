//! The numbers of the calls that are to fail.
ghost use Rattle.std.specs.Prelude.{◌≡◌, IfOk};
ghost use Rattle.std.specs.List.Sorted.{IsStrictlyIncreasing};
ghost use Rattle.edge_io.specs.Faults.{is_listed};

use crate::NoMemory;
use std::alloc::Global;
use std::marker::Model;

/// Numbers of calls, counted from 0, that strictly rise.
#[derive(Drop)]
pub struct CallList {
    calls: Vec<u64>,
}

impl Model for CallList {
    ghost use Rattle.std.specs.Prelude.{ℕ, List};
    ghost use Rattle.std.specs.List.Sorted.{IsStrictlyIncreasing};

    ghost Value = { List ℕ };

    ghost view = { λ list. list.calls.items };

    ghost invariant = { λ list. IsStrictlyIncreasing list.calls.items };
}

impl CallList {
    /// A copy of these numbers.
    pub fn new(alloc: Global, calls: &[u64]) -> Result<CallList, NoMemory>
        requires rising { IsStrictlyIncreasing calls.now }
        ensures copied { IfOk result (λ list. list ≡ calls.now) }
    {
        Ok(CallList {
            calls: Vec::from_slice(alloc, calls)?,
        })
    }

    /// The numbers in order.
    pub fn as_slice(&self) -> &[u64]
        ensures value { result.now ≡ self.now }
        ensures rising { IsStrictlyIncreasing self.now }
    {
        self.calls.as_slice()
    }

    /// Does the call of this number fail? One of the last number a `u64` has never does.
    pub(crate) fn has(&self, call: u64) -> bool
        ensures { result ≡ is_listed self.now call }
    {
        call < u64::MAX && self.calls.contains(&call)
    }
}

//! Where the lists on the way have their memory.
ghost use Rattle.std.specs.Prelude.{◌≡◌, [], replicate, IfOk};

use crate::{NoMemory, Sets};
use flat_rows::Rows;
use linked_list_allocator::LocalHeap;
use std::alloc::Global;

/// The heap of the lists, which ends where the lists together would be larger, and the allocator of all else.
#[derive(Clone, Copy)]
pub struct Room<'h> {
    pub heap: &'h LocalHeap,
    pub alloc: Global,
}

impl<'h> Room<'h> {
    /// A list without sets.
    pub fn no_sets(self) -> Sets<'h>
        ensures { result ≡ [] }
    {
        Rows::new(self.heap)
    }

    /// So many lists without sets.
    pub fn no_lists(self, count: usize) -> Result<Vec<Sets<'h>>, NoMemory>
        ensures { IfOk result (λ lists. lists.items ≡ replicate count []) }
    {
        let mut lists = Vec::with_capacity(self.alloc, count)?;
        for _i in 0..count {
            lists.push(self.no_sets())?;
        }
        Ok(lists)
    }
}

//! Lists that grow at their end.
ghost use Rattle.std.specs.Prelude.{◌≡◌, ◌^◌, ◌<◌, [], ◌∷◌, ◌++◌, length, replicate, IfOk, OnOk, OnErr};

use std::alloc::{AllocError, Global};
use std::marker::Model;

/// A list that grows at its end. A contract sees it as the list of its items.
#[derive(Drop)]
pub struct GrowingList<T> {
    items: Vec<T>,
}

impl<T> Model for GrowingList<T> {
    ghost use Rattle.std.specs.Prelude.{List};

    ghost Value = { List T };

    ghost view = { λ list. list.items.items };
}

impl<T> GrowingList<T> {
    /// The empty list, which takes no memory.
    pub fn new(alloc: Global) -> Self
        ensures { result ≡ [] }
    {
        GrowingList {
            items: Vec::new(alloc),
        }
    }

    /// The empty list, with room for some items.
    pub fn with_room(alloc: Global, items: usize) -> Result<Self, AllocError>
        ensures { IfOk result (λ list. list ≡ []) }
    {
        Ok(GrowingList {
            items: Vec::with_capacity(alloc, items)?,
        })
    }

    /// Adds an item at the end. For want of memory the list stays, and the item is dropped.
    pub fn push(&mut self, item: T) -> Result<(), AllocError>
    where
        T: Drop,
        ensures added { OnOk result (self.new ≡ self.old ++ item ∷ []) }
        ensures unchanged { OnErr result (self.new ≡ self.old) }
    {
        self.items.push(item)?;
        Ok(())
    }

    /// The list of a vector's items, in the same memory.
    pub fn from_items(items: Vec<T>) -> Self
        ensures { result ≡ items.items }
    {
        GrowingList { items }
    }

    /// The items in a vector, in the same memory.
    pub fn into_items(self) -> Vec<T>
        ensures { result.items ≡ self }
    {
        self.items
    }

    /// The items, in order.
    pub fn as_slice(&self) -> &[T]
        ensures items { result.now ≡ self.now }
        ensures short { length self.now < 2 ^ 63 }
    {
        self.items.as_slice()
    }
}

/// So many lists, all of them empty.
pub fn empty_lists<T: Drop>(alloc: Global, count: usize) -> Result<Vec<GrowingList<T>>, AllocError>
    ensures { IfOk result (λ lists. lists.items ≡ replicate count []) }
{
    let mut lists = Vec::with_capacity(alloc, count)?;
    for _ in 0..count {
        lists.push(GrowingList::new(alloc))?;
    }
    Ok(lists)
}

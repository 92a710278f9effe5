//! The sets that a walk has found, apart by their size.
ghost use Rattle.std.specs.Prelude.{◌≡◌, ◌<◌, ℕ, [], ◌∷◌, ◌++◌, length, IfOk, OnOk, IsErrOf};
ghost use Rattle.std.specs.List.{AllByRecursion};
ghost use Rattle.unit_sets.specs.CutOrder.{IsInCutOrder, weight, weight_limit};
ghost use Rattle.unit_sets.specs.UnitList.{IsRising};
ghost use Rattle.cutset_listing.specs.BySize.{of_size, at_size, joined};

use flat_rows::Rows;
use std::alloc::Global;
use std::marker::Model;
use unit_sets::{CutList, ListEnd, NoMemory, UnitNo};

/// Lists of sets, one for each size from 0 on. A contract sees it as these lists.
#[derive(Drop)]
pub(crate) struct Found {
    lists: Vec<Rows<UnitNo>>,
}

impl Model for Found {
    ghost use Rattle.std.specs.Prelude.{ℕ, List};

    ghost Value = { List (List (List ℕ)) };

    ghost view = { λ found. found.lists.items };
}

impl Found {
    /// Nothing found.
    pub(crate) fn new(alloc: Global) -> Found
        ensures { result ≡ [] }
    {
        Found {
            lists: Vec::new(alloc),
        }
    }

    /// Puts a set behind those of its size.
    pub(crate) fn add(&mut self, alloc: Global, set: &[UnitNo]) -> Result<(), NoMemory>
        ensures { OnOk result ((size : ℕ) → at_size self.new size
            ≡ at_size self.old size ++ of_size size (set.now ∷ [])) }
    {
        let size = set.len();
        self.make_room(alloc, size)?;
        self.lists[size].push(set)
    }

    // Lists up to this size.
    fn make_room(&mut self, alloc: Global, size: usize) -> Result<(), NoMemory>
        ensures long { OnOk result (size < length self.new) }
        ensures same { OnOk result ((other : ℕ) → at_size self.new other ≡ at_size self.old other) }
    {
        while self.lists.len() <= size {
            self.lists.push(Rows::new(alloc))?;
        }
        Ok(())
    }

    /// All sets, the smaller ones first.
    pub(crate) fn cut_list(&self, alloc: Global) -> Result<CutList, ListEnd>
        requires filled { AllByRecursion (λ set. 0 < length set) (joined self.now) }
        requires rising { AllByRecursion IsRising (joined self.now) }
        requires ordered { IsInCutOrder (joined self.now) }
        ensures cuts { IfOk result (λ cuts. cuts ≡ joined self.now) }
        ensures limit { IsErrOf result ListEnd.ListLimit → weight_limit < weight (joined self.now) }
    {
        let mut cuts = CutList::new(alloc);
        for size in 0..self.lists.len() {
            cuts.append(&self.lists[size])?;
        }
        Ok(cuts)
    }
}

//! For each unit the cut sets that hold it: one row of their places after another, in one buffer.
ghost use Rattle.std.specs.Prelude.{◌≡◌, ◌≤◌, ◌<◌, ◌-◌, ◌+◌, length, slice_index, vec_len, IfOk, All};
ghost use Rattle.unit_sets.specs.CutOrder.{weight_limit};
ghost use Rattle.unit_sets.specs.Unit.{most_units};
ghost use Rattle.unit_sets.specs.UnitList.{IsRising};
ghost use Rattle.residual_ledger.specs.Residual.{cut_at, HasUnitsBelow};
ghost use Rattle.residual_ledger.specs.Kept.{IsOneMore};
ghost use Rattle.residual_ledger.specs.Holding.{between, start_of, HasSizes, HasStarts, HoldsFirst, HasRows};
ghost use Rattle.residual_ledger.specs.Ledger.{IsLedgerFor};

use std::alloc::Global;
use unit_sets::{CutList, NoMemory, UnitNo};

/// The rows of all units.
#[derive(Drop)]
pub struct Holding {
    /// Where the row of each number ends. It begins where the row before it ends.
    pub ends: Vec<usize>,
    /// The places of cut sets.
    pub rows: Vec<u32>,
}

// One cut set more for each of its members.
fn count_members(sizes: &mut [usize], members: &[UnitNo])
    requires rising { IsRising members.now }
    requires known { All (λ unit. unit < length sizes.old) members.now }
    requires room { All (λ size. size ≤ weight_limit) sizes.old }
    ensures { IsOneMore members.now sizes.old sizes.new }
{
    for unit in members {
        sizes[unit.number() as usize] += 1;
    }
}

// How many cut sets hold each number.
fn count_sets(alloc: Global, units: u32, cuts: &CutList) -> Result<Vec<usize>, NoMemory>
    requires { IsLedgerFor units cuts.now }
    ensures { IfOk result (λ sizes. HasSizes units cuts.now sizes.items) }
{
    let mut sizes = vec![in alloc; 0; units as usize + 1]?;
    for place in 0..cuts.len() {
        count_members(sizes.as_mut_slice(), cuts.members(place));
    }
    Ok(sizes)
}

// Puts in place of each size where its row begins, and says where the last row ends.
fn begin_rows(ends: &mut [usize]) -> usize
    requires few { length ends.old ≤ most_units + 1 }
    requires small { All (λ size. size ≤ weight_limit) ends.old }
    ensures total { result ≡ start_of (slice_index ends.old) (length ends.old) }
    ensures begins { HasStarts (slice_index ends.old) ends.new }
{
    let mut start = 0;
    for number in 0..ends.len() {
        let size = ends[number];
        ends[number] = start;
        start += size;
    }
    start
}

// Puts the place of one more cut set at the end of the row of each of its members.
fn put_set(rows: &mut [u32], ends: &mut [usize], cuts: &CutList, place: u32)
    requires there { place < length cuts.now }
    requires known { All (λ unit. unit < length ends.old) (cut_at cuts.now place) }
    requires first { HoldsFirst cuts.now place ends.old rows.old }
    ensures { HoldsFirst cuts.now (place + 1) ends.new rows.new }
{
    for unit in cuts.members(place as usize) {
        let number = unit.number() as usize;
        let end = ends[number];
        rows[end] = place;
        ends[number] = end + 1;
    }
}

// Puts each cut set into the rows of its members.
fn put_sets(rows: &mut [u32], ends: &mut [usize], cuts: &CutList)
    requires known { HasUnitsBelow (length ends.old) cuts.now }
    requires first { HoldsFirst cuts.now 0 ends.old rows.old }
    ensures { HoldsFirst cuts.now (length cuts.now) ends.new rows.new }
{
    let sets = cuts.len() as u32;
    for place in 0..sets {
        put_set(rows, ends, cuts, place);
    }
}

impl Holding {
    /// The rows of the units up to a number.
    pub fn new(alloc: Global, units: u32, cuts: &CutList) -> Result<Holding, NoMemory>
        requires { IsLedgerFor units cuts.now }
        ensures { IfOk result (λ holding. HasRows units cuts.now holding.ends.items holding.rows.items) }
    {
        let mut ends = count_sets(alloc, units, cuts)?;
        let total = begin_rows(ends.as_mut_slice());
        let mut rows = vec![in alloc; 0; total]?;
        put_sets(rows.as_mut_slice(), ends.as_mut_slice(), cuts);
        Ok(Holding { ends, rows })
    }

    /// The row of a unit.
    pub fn row(&self, unit: UnitNo) -> &[u32]
        requires unit { 1 ≤ unit }
        requires there { unit < vec_len self.now.ends }
        requires order { slice_index self.now.ends.items (unit - 1) ≤ slice_index self.now.ends.items unit }
        requires inside { slice_index self.now.ends.items unit ≤ vec_len self.now.rows }
        ensures { result.now ≡ between (slice_index self.now.ends.items (unit - 1))
            (slice_index self.now.ends.items unit) self.now.rows.items }
    {
        let number = unit.number() as usize;
        &self.rows[self.ends[number - 1]..self.ends[number]]
    }
}

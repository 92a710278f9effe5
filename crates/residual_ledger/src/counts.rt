//! How much each cut set has left.
ghost use Rattle.std.specs.Prelude.{◌≡◌, ◌<◌, ◌^◌, [], length, slice_index, IfOk, All};
ghost use Rattle.unit_sets.specs.UnitList.{IsRising};
ghost use Rattle.residual_ledger.specs.Kept.{residuals, HasLowest, IsOneMore};

use crate::blocks::{BLOCK, Blocks};
use std::alloc::Global;
use unit_sets::{CutList, NoMemory};

/// What each cut set has left while no unit is out: all its members.
pub fn sizes(alloc: Global, cuts: &CutList) -> Result<Vec<u32>, NoMemory>
    ensures { IfOk result (λ counts. counts.items ≡ residuals [] cuts.now) }
{
    let mut counts = Vec::with_capacity(alloc, cuts.len())?;
    for place in 0..cuts.len() {
        counts.push(cuts.members(place).len() as u32)?;
    }
    Ok(counts)
}

/// Each cut set of a row has one member less in service.
pub fn lower(counts: &mut [u32], blocks: &mut Blocks, row: &[u32])
    requires rising { IsRising row.now }
    requires within { All (λ place. place < length counts.old) row.now }
    requires positive { All (λ place. 0 < slice_index counts.old place) row.now }
    requires least { HasLowest counts.old blocks.old.least.items blocks.old.lowest.items }
    ensures lowered { IsOneMore row.now counts.new counts.old }
    ensures least { HasLowest counts.new blocks.new.least.items blocks.new.lowest.items }
{
    for place in row {
        let place = *place as usize;
        let left = counts[place] - 1;
        counts[place] = left;
        let block = place / BLOCK;
        if left < blocks.least[block] {
            blocks.least[block] = left;
            blocks.lowest[block] = place;
        }
    }
}

/// Each cut set of a row has one member more in service.
pub fn raise(counts: &mut [u32], row: &[u32])
    requires rising { IsRising row.now }
    requires within { All (λ place. place < length counts.old) row.now }
    requires room { All (λ place. slice_index counts.old place < 2 ^ 31) row.now }
    ensures { IsOneMore row.now counts.old counts.new }
{
    for place in row {
        counts[*place as usize] += 1;
    }
}

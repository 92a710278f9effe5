//! The least count of each block of cut sets, and a place where it stands.
//!
//! A count that falls is compared with the least of its block. Where counts rise, a block is looked through only if
//! the place of its least has risen, and mostly another place with the same count is found soon.
ghost use Rattle.std.specs.Prelude.{◌≡◌, ◌≤◌, ◌<◌, ◌*◌, length, slice_index, IfOk, All};
ghost use Rattle.unit_sets.specs.UnitList.{IsRising};
ghost use Rattle.residual_ledger.specs.Kept.{block_size, IsFirstBetween, IsFirstAtMost, IsLowest, IsNearLowest};
ghost use Rattle.residual_ledger.specs.Kept.{HasLowest, HasLowestOutside, HasLowestApart};

use std::alloc::Global;
use unit_sets::NoMemory;

/// How many cut sets stand in one block.
pub const BLOCK: usize = 256;

/// What is kept of each block.
#[derive(Drop)]
pub struct Blocks {
    /// The least count.
    pub least: Vec<u32>,
    /// A place with that count.
    pub lowest: Vec<usize>,
}

// The first place from one on, and before another, with a number that is at most this, or that other place.
fn first_between(numbers: &[u32], from: usize, end: usize, most: u32) -> usize
    requires order { from ≤ end }
    requires inside { end ≤ length numbers.now }
    ensures { IsFirstBetween numbers.now from end most result }
{
    for place in from..end {
        if numbers[place] <= most {
            return place;
        }
    }
    end
}

// The place of the least count of a block.
fn lowest_of_block(counts: &[u32], block: usize) -> usize
    requires { block * block_size < length counts.now }
    ensures { IsLowest counts.now block (slice_index counts.now result) result }
{
    let from = block * BLOCK;
    let end = counts.len().min(from + BLOCK);
    let mut lowest = from;
    for place in from..end {
        if counts[place] < counts[lowest] {
            lowest = place;
        }
    }
    lowest
}

// The same for a block in which some counts have risen by one, with the least before and its place.
fn lowest_again(counts: &[u32], block: usize, least: u32, place: usize) -> usize
    requires { IsNearLowest counts.now block least place }
    ensures { IsLowest counts.now block (slice_index counts.now result) result }
{
    let from = block * BLOCK;
    let end = counts.len().min(from + BLOCK);
    let same = first_between(counts, from, end, least);
    if same < end {
        return same;
    }
    first_between(counts, from, end, counts[place])
}

impl Blocks {
    /// The blocks of some counts.
    pub fn new(alloc: Global, counts: &[u32]) -> Result<Blocks, NoMemory>
        ensures { IfOk result (λ blocks. HasLowest counts.now blocks.least.items blocks.lowest.items) }
    {
        let count = counts.len().div_ceil(BLOCK);
        let mut least = Vec::with_capacity(alloc, count)?;
        let mut lowest = Vec::with_capacity(alloc, count)?;
        for block in 0..count {
            let place = lowest_of_block(counts, block);
            least.push(counts[place])?;
            lowest.push(place)?;
        }
        Ok(Blocks { least, lowest })
    }

    // Looks through the blocks from one on and before another, where the place of the least has risen.
    fn refresh_between(&mut self, counts: &[u32], from: usize, end: usize)
        requires order { from ≤ end }
        requires inside { end ≤ length self.old.least.items }
        requires least { HasLowestOutside from end counts.now self.old.least.items self.old.lowest.items }
        ensures { HasLowest counts.now self.new.least.items self.new.lowest.items }
    {
        for block in from..end {
            let place = self.lowest[block];
            let least = self.least[block];
            if counts[place] > least {
                let place = lowest_again(counts, block, least, place);
                self.lowest[block] = place;
                self.least[block] = counts[place];
            }
        }
    }

    /// What is kept anew, after the counts at the places of a row have risen.
    pub fn refresh(&mut self, counts: &[u32], row: &[u32])
        requires rising { IsRising row.now }
        requires within { All (λ place. place < length counts.now) row.now }
        requires least { HasLowestApart row.now counts.now self.old.least.items self.old.lowest.items }
        ensures { HasLowest counts.now self.new.least.items self.new.lowest.items }
    {
        if !row.is_empty() {
            let from = row[0] as usize / BLOCK;
            let end = row[row.len() - 1] as usize / BLOCK + 1;
            self.refresh_between(counts, from, end);
        }
    }

    /// The first place with a count that is at most this, or the number of places. Blocks without one are passed over.
    pub fn first_at_most(&self, counts: &[u32], most: u32) -> usize
        requires { HasLowest counts.now self.now.least.items self.now.lowest.items }
        ensures { IsFirstAtMost counts.now most result }
    {
        let least = self.least.as_slice();
        let block = first_between(least, 0, least.len(), most);
        let from = counts.len().min(block * BLOCK);
        first_between(counts, from, counts.len(), most)
    }
}

//! Rows of items, kept end to end in one buffer: a list of lists that takes two allocations and no more.
//! And lists that grow at their end.
//!
//! It stands on std alone. A contract sees a `Rows` as the list of its rows and a `GrowingList` as the list of its
//! items, so the layers above speak of lists and never of a buffer.
#![tactic(auto)]

ghost use Rattle.std.specs.Prelude.{◌≡◌, ◌<◌, ◌≤◌, [], ◌∷◌, ◌++◌, length, OnOk, OnErr, slice_index_or, ◌==◌, sum_by};
ghost use Rattle.std.specs.Prelude.{◌+◌, ◌^◌, vec_len, vec_capacity, flat_map};
ghost use Rattle.flat_rows.specs.Rows.{start_of, rows_from, Rise, between, raised};

mod growing;

pub use growing::{GrowingList, empty_lists};
use std::alloc::{AllocError, Allocator, Global};
use std::marker::Model;

/// A list of rows, whose memory comes from an allocator.
#[derive(Clone, Drop)]
pub struct Rows<T, A: Allocator = Global> {
    items: Vec<T, A>,
    // Where each row ends among the items; it begins where the row before it ends.
    ends: Vec<usize, A>,
}

impl<T, A: Allocator> Model for Rows<T, A> {
    ghost use Rattle.std.specs.Prelude.{List, length};
    ghost use Rattle.flat_rows.specs.Rows.{rows_from, Rise};

    ghost Value = { List (List T) };

    ghost view = { λ r. rows_from 0 r.ends.items r.items.items };

    ghost invariant = { λ r. Rise 0 r.ends.items (length r.items.items) };
}

impl<T: Copy, A: Allocator + Copy> Rows<T, A> {
    /// No rows. Takes no memory.
    pub fn new(alloc: A) -> Self
        ensures { result ≡ [] }
    {
        Rows {
            items: Vec::new(alloc),
            ends: Vec::new(alloc),
        }
    }

    /// The number of rows.
    pub fn len(&self) -> usize
        ensures { result ≡ length self.now }
    {
        self.ends.len()
    }

    /// Whether there is no row.
    pub fn is_empty(&self) -> bool
        ensures { result ≡ (length self.now == 0) }
    {
        self.ends.is_empty()
    }

    /// How many items all rows have together.
    pub fn item_count(&self) -> usize
        ensures { result ≡ sum_by length self.now }
    {
        self.items.len()
    }

    /// The row of a number, from 0.
    pub fn row(&self, i: usize) -> &[T]
        requires { i < length self.now }
        ensures { result.now ≡ slice_index_or self.now i [] }
    {
        part(&self.items, &self.ends, i)
    }

    /// The items of all rows, one row after the other.
    pub fn items(&self) -> &[T]
        ensures { result.now ≡ flat_map (λ row. row) self.now }
    {
        &self.items
    }

    /// One more row at the end. Where memory is wanting the rows are as before.
    pub fn push(&mut self, row: &[T]) -> Result<(), AllocError>
        ensures ok { OnOk result (self.new ≡ self.old ++ row.now ∷ []) }
        ensures err { OnErr result (self.new ≡ self.old) }
    {
        self.ends.reserve(1)?;
        self.items.extend_from_slice(row)?;
        self.ends.push_reserved(self.items.len());
        Ok(())
    }

    /// All rows of another list behind these. Where memory is wanting the rows are as before.
    pub fn append(&mut self, other: &Rows<T, A>) -> Result<(), AllocError>
        ensures ok { OnOk result (self.new ≡ self.old ++ other.now) }
        ensures err { OnErr result (self.new ≡ self.old) }
    {
        let before = self.items.len();
        self.ends.reserve(other.ends.len())?;
        self.items.extend_from_slice(&other.items)?;
        push_raised(&mut self.ends, &other.ends, before, other.items.len());
        Ok(())
    }
}

// Puts ends behind the others, each raised by the items that stand before its row.
fn push_raised<A: Allocator>(ends: &mut Vec<usize, A>, more: &[usize], before: usize, total: usize)
    requires room { vec_len ends.old + length more.now ≤ vec_capacity ends.old }
    requires rise { Rise 0 more.now total }
    requires fits { before + total < 2 ^ 64 }
    ensures { ends.new.items ≡ ends.old.items ++ raised before more.now }
{
    for end in more {
        ends.push_reserved(before + *end);
    }
}

// The row of a number among items kept end to end.
fn part<'a, T>(items: &'a [T], ends: &[usize], i: usize) -> &'a [T]
    requires rise { Rise 0 ends.now (length items.now) }
    requires within { i < length ends.now }
    ensures { result.now ≡ slice_index_or (rows_from 0 ends.now items.now) i [] }
{
    cut(items, start(ends, i), ends[i])
}

fn cut<T>(items: &[T], from: usize, to: usize) -> &[T]
    requires order { from ≤ to }
    requires within { to ≤ length items.now }
    ensures { result.now ≡ between from to items.now }
{
    &items[from..to]
}

// Where the row of a number begins: at the end of the one before it.
fn start(ends: &[usize], i: usize) -> usize
    requires { i ≤ length ends.now }
    ensures { result ≡ start_of 0 ends.now i }
{
    if i == 0 { 0 } else { ends[i - 1] }
}

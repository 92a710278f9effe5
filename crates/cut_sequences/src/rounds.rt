//! The rounds of the workers: each worker goes on with its sets, and then the orders of all are counted.
//!
//! No worker runs far ahead of the others, so that all stop soon after they have too many orders together.
ghost use Rattle.std.specs.Prelude.{◌≡◌, ◌<◌, ◌≤◌, ℕ, true, false, length, map, slice_index_or, All, IfOk, IsErrOf};
ghost use Rattle.std.specs.Prelude.{Contains, Ok, Err, None, IfSome, sum_by, ◌+◌, ◌-◌};
ghost use Rattle.cut_sequences.specs.declared.share.Sets.{Sets};
ghost use Rattle.cut_sequences.specs.Dealing.{AreShares};
ghost use Rattle.cut_sequences.specs.Orders.{order_limit, order_total};
ghost use Rattle.cut_sequences.specs.Working.{AreOfTree, CanWork, WentOn, AreAtWork, HasStopped, HaveWorked};
ghost use Rattle.cut_sequences.specs.Working.{IsEndOfListed, lists_due, orders_of_work};

use crate::share::{Sets, Share, Stop, Work, go_on};
use crate::{ORDER_LIMIT, OrderEnd};
use deck_limits::MOST_WORKERS;
use std::alloc::{AllocError, Global};
use std::thread;
use std::thread::Threads;

// The sets before the first stop; each later stop stands about four times as far.
const FIRST_SETS: usize = 256;

// How many orders more a worker may have from one round to the next.
const ORDERS_A_ROUND: usize = 125_000;

// What each of the workers answers, one after another.
fn answers_of<R: Threads + Sync>(
    rt: &R,
    alloc: Global,
    sets: Sets,
    stop: Stop,
    works: Vec<Work>,
) -> Result<Vec<Result<Work, OrderEnd>>, AllocError>
    requires { CanWork sets (length works.items) stop }
    ensures all { IfOk result (λ answers. length answers.items ≡ length works.items) }
    ensures each { IfOk result (λ answers. (worker : ℕ) (work : _) (d : _) → worker < length works.items
        → WentOn (lists_due sets.entry) (length works.items) stop (slice_index_or works.items worker work)
        (slice_index_or answers.items worker d)) }
{
    let workers = works.len();
    thread::map_vec(
        rt,
        works,
        &|work| { go_on(alloc, sets, workers, stop, work) },
    )
}

// The work that the workers answered, or why one of them has none.
fn works_of(alloc: Global, answers: Vec<Result<Work, OrderEnd>>) -> Result<Vec<Work>, OrderEnd>
    ensures works { IfOk result (λ works. answers.items ≡ map Ok works.items) }
    ensures limit { IsErrOf result OrderEnd.OrderLimit → Contains answers.items (Err OrderEnd.OrderLimit) }
{
    let mut works = Vec::new(alloc);
    for answer in answers {
        works.push(answer?)?;
    }
    Ok(works)
}

// The number of orders that the workers have together.
fn orders_so_far(works: &[Work]) -> u64
    requires { length works.now ≤ MOST_WORKERS }
    ensures { result ≡ sum_by orders_of_work works.now }
{
    let mut total = 0;
    for work in works {
        total += work.share.total() as u64;
    }
    total
}

// Each worker goes on until it has to stop.
fn round<R: Threads + Sync>(
    rt: &R,
    alloc: Global,
    sets: Sets,
    stop: Stop,
    works: Vec<Work>,
) -> Result<Vec<Work>, OrderEnd>
    requires at_work { AreAtWork sets works.items }
    requires place { stop.place ≤ length sets.cuts.now }
    ensures worked { IfOk result (λ later. HaveWorked (HasStopped stop) sets.entry works.items later.items) }
    ensures limit { IsErrOf result OrderEnd.OrderLimit → order_limit < order_total (lists_due sets.entry) }
{
    let works = works_of(alloc, answers_of(rt, alloc, sets, stop, works)?)?;
    if orders_so_far(works.as_slice()) > ORDER_LIMIT {
        return Err(OrderEnd::OrderLimit);
    }
    Ok(works)
}

// Whether a worker has stopped below the place, since it has enough orders.
fn has_enough(works: &[Work], stop: Stop) -> bool
    requires { All (HasStopped stop) works.now }
    ensures some { result ≡ true → stop.orders < order_limit }
    ensures none { result ≡ false → All (λ work. stop.place ≤ work.next) works.now }
{
    for work in works {
        if work.next < stop.place && work.share.total() > stop.orders {
            return true;
        }
    }
    false
}

// Where the workers stop next, unless none lacks a set before the end: some orders later where one of them has enough,
// and else some sets further.
fn next_stop(works: &[Work], end: usize, stop: Stop) -> Option<Stop>
    requires place { stop.place ≤ end }
    requires stopped { All (HasStopped stop) works.now }
    ensures place { IfSome result (λ next. next.place ≤ end) }
    ensures later { IfSome result (λ next. (end - next.place) + (order_limit - next.orders)
        < (end - stop.place) + (order_limit - stop.orders)) }
    ensures done { result ≡ None → All (λ work. end ≤ work.next) works.now }
{
    if has_enough(works, stop) {
        return Some(Stop {
            orders: stop.orders + ORDERS_A_ROUND,
            ..stop
        });
    }
    if stop.place >= end {
        return None;
    }
    let further = stop.place.saturating_mul(4);
    Some(Stop {
        place: further.saturating_add(FIRST_SETS).min(end),
        ..stop
    })
}

// The rounds from a stop on, until no worker lacks a set before the end.
fn all_rounds<R: Threads + Sync>(
    rt: &R,
    alloc: Global,
    sets: Sets,
    end: usize,
    stop: Stop,
    works: Vec<Work>,
) -> Result<Vec<Work>, OrderEnd>
    requires at_work { AreAtWork sets works.items }
    requires end { end ≤ length sets.cuts.now }
    requires place { stop.place ≤ end }
    ensures worked { IfOk result (λ later.
        HaveWorked (λ work. end ≤ work.next) sets.entry works.items later.items) }
    ensures limit { IsErrOf result OrderEnd.OrderLimit → order_limit < order_total (lists_due sets.entry) }
{
    let works = round(rt, alloc, sets, stop, works)?;
    match next_stop(works.as_slice(), end, stop) {
        Some(next) => all_rounds(rt, alloc, sets, end, next, works),
        None => Ok(works),
    }
}

// No worker has listed a set: each begins with the set of its number.
fn starts(alloc: Global, workers: usize) -> Result<Vec<Work>, OrderEnd>
    requires some { 0 < workers }
    requires few { workers ≤ MOST_WORKERS }
    ensures at_work { IfOk result (λ works. (sets : Sets) → AreOfTree sets → AreAtWork sets works.items) }
    ensures workers { IfOk result (λ works. length works.items ≡ workers) }
    ensures memory { IsErrOf result OrderEnd.OrderLimit → ⊥ }
{
    let mut works = Vec::new(alloc);
    for next in 0..workers {
        works.push(Work {
            share: Share::new(alloc),
            next,
        })?;
    }
    Ok(works)
}

// What the workers have listed.
fn shares_of(alloc: Global, works: Vec<Work>) -> Result<Vec<Share>, OrderEnd>
    ensures shares { IfOk result (λ shares. shares.items ≡ map (λ work. work.share) works.items) }
    ensures memory { IsErrOf result OrderEnd.OrderLimit → ⊥ }
{
    let mut shares = Vec::new(alloc);
    for work in works {
        shares.push(work.share)?;
    }
    Ok(shares)
}

/// The shares of all workers, each of which lists the orders of the sets that are dealt to it. From the end on no set
/// is listed, and none is looked at.
pub fn all_shares<R: Threads + Sync>(
    rt: &R,
    alloc: Global,
    sets: Sets,
    end: usize,
    workers: usize,
) -> Result<Vec<Share>, OrderEnd>
    requires end { IsEndOfListed sets.cuts.now sets.most end }
    requires some { 0 < workers }
    requires few { workers ≤ MOST_WORKERS }
    requires units { AreOfTree sets }
    ensures shares { IfOk result (λ shares. AreShares (lists_due sets.entry) shares.items) }
    ensures workers { IfOk result (λ shares. length shares.items ≡ workers) }
    ensures limit { IsErrOf result OrderEnd.OrderLimit → order_limit < order_total (lists_due sets.entry) }
{
    let stop = Stop {
        place: FIRST_SETS.min(end),
        orders: ORDERS_A_ROUND,
    };
    let works = starts(alloc, workers)?;
    shares_of(alloc, all_rounds(rt, alloc, sets, end, stop, works)?)
}

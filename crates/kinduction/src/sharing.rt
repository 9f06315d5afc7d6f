//! All obligations, in shares that are decided at once.

ghost use Rattle.std.specs.Prelude.{◌≡◌, ◌<◌, ◌≤◌, ℕ, length, All, IfOk, OnOk, IsOk};
ghost use Rattle.std.specs.List.{flat_map};
ghost use Rattle.kinduction.specs.Rounds.{DecidesAll};
ghost use Rattle.kinduction.specs.Shares.{share_start, ok_items, IsShare};
ghost use Rattle.kinduction.specs.Sizes.{RoundsFit};

use crate::{Found, decide};
use lll_core::Lll;
use sqlite_items::Items;
use std::alloc::{AllocError, Global};
use std::thread;
use std::thread::Threads;

/// Where the share of a worker begins among so many obligations.
fn start_of(count: usize, workers: usize, worker: usize) -> usize
    requires some { 1 ≤ workers }
    requires within { worker ≤ workers }
    ensures value { result ≡ share_start count workers worker }
    ensures bound { result ≤ count }
{
    (worker as u128 * count as u128 / workers as u128) as usize
}

/// The answers for the share of one worker.
fn decide_share(
    alloc: Global,
    l: &Lll,
    depth: u32,
    budget: u32,
    workers: usize,
    worker: usize,
) -> Result<Items<Found>, AllocError>
    requires some_depth { 1 ≤ depth }
    requires depth_bound { depth ≤ 64 }
    requires some_budget { 1 ≤ budget }
    requires budget_bound { budget ≤ 1000000 }
    requires size { (p : ℕ) → p < length l.now.obligations → RoundsFit l.now p depth }
    requires worker { worker < workers }
    ensures { IfOk result (IsShare l.now depth budget workers worker) }
{
    let count = l.obligations.len();
    let first = start_of(count, workers, worker);
    let mut answers = Items::new(alloc);
    for p in first..start_of(count, workers, worker + 1) {
        answers.push(decide(alloc, l, p, depth, budget)?)?;
    }
    Ok(answers)
}

/// The answers of the shares, one after the other.
fn joined(
    alloc: Global,
    shares: Vec<Result<Items<Found>, AllocError>>,
) -> Result<Items<Found>, AllocError>
    ensures answers { IfOk result (λ answers. answers ≡ flat_map ok_items shares.items) }
    ensures complete { OnOk result (All IsOk shares.items) }
{
    let mut answers = Items::new(alloc);
    for share in shares {
        answers.append(share?)?;
    }
    Ok(answers)
}

/// The answers for each obligation, in their order: each is what `decide` may answer for it. The obligations are parted
/// into shares of neighbours, as equal as can be, one for each worker.
pub fn decide_all<R: Threads + Sync>(
    rt: &R,
    alloc: Global,
    l: &Lll,
    depth: u32,
    budget: u32,
    workers: u32,
) -> Result<Items<Found>, AllocError>
    requires some_depth { 1 ≤ depth }
    requires depth_bound { depth ≤ 64 }
    requires some_budget { 1 ≤ budget }
    requires budget_bound { budget ≤ 1000000 }
    requires size { (p : ℕ) → p < length l.now.obligations → RoundsFit l.now p depth }
    requires some_workers { 1 ≤ workers }
    requires workers_bound { workers ≤ 4 }
    ensures { IfOk result (DecidesAll l.now depth budget) }
{
    let workers = workers as usize;
    let share = |worker: usize| decide_share(alloc, l, depth, budget, workers, worker);
    let shares = thread::map_indices(rt, alloc, workers, &share)?;
    joined(alloc, shares)
}

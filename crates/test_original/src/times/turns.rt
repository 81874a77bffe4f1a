//! The turns of each work, on any pool.
ghost use Rattle.std.specs.Prelude.{◌≡◌, IfOk, vec_len};

use super::pulls::Pulls;
use lockfree_object_pool::PullError;
use std::alloc::Global;

/// A sum of what items were, or why a pull had none.
pub type Sum = Result<u64, PullError>;

/// Pulls an item in each turn, adds the turn's number to it, and drops it. Returns the sum of what
/// the items were then.
pub fn pull_and_drop<R, P: Pulls<R>>(rt: &R, pool: &P, thread: usize, turns: u64) -> Sum {
    let mut sum = 0u64;
    for turn in 0..turns {
        let mut item = pool.pull_one(rt, thread)?;
        *item = item.wrapping_add(turn);
        sum = sum.wrapping_add(*item);
    }
    Ok(sum)
}

/// Pulls so many items, one after the other.
pub fn hold<R, P: Pulls<R>>(
    rt: &R,
    alloc: Global,
    pool: &P,
    count: usize,
) -> Result<Vec<P::Item>, PullError>
    ensures { IfOk result (λ items. vec_len items ≡ count) }
{
    let mut items = Vec::with_capacity(alloc, count)?;
    for _ in 0..count {
        items.push(pool.pull_one(rt, 0)?)?;
    }
    Ok(items)
}

/// Counts how many of so many pulls were refused. An item that one of them gives is dropped.
pub fn be_refused<R, P: Pulls<R>>(rt: &R, pool: &P, turns: u64) -> u64 {
    let mut refused = 0u64;
    for _ in 0..turns {
        if pool.pull_one(rt, 0).is_err() {
            refused = refused.wrapping_add(1);
        }
    }
    refused
}

/// Returns the sum of sums, or the first refusal.
pub fn total(sums: Vec<Sum>) -> Sum {
    let mut total = 0u64;
    for sum in sums {
        total = total.wrapping_add(sum?);
    }
    Ok(total)
}

//! Rounds in which each item of a pool is out at one moment.
use crate::numbers::SeenNumbers;
use crate::pulls::Pulls;
use crate::wrong::Wrong;
use lockfree_object_pool::PullError;
use std::alloc::Global;

/// How many rounds there are: in the second one each item comes again.
const ROUNDS: u64 = 2;

/// Pulls so many items in each round, holds them together, and drops them. Each comes once, with
/// what was written to it in the round before. A pool that has no more refuses a further pull so.
///
/// # Errors
///
/// `Wrong` names what was seen and may not be.
pub fn come_back<P: Pulls<W>, W>(
    rt: &W,
    alloc: Global,
    items: u64,
    refusal: Option<PullError>,
    pool: &P,
) -> Result<(), Wrong> {
    for round in 0..ROUNDS {
        let _held = hold(rt, alloc, items, round, pool)?;
        if refusal.is_some() && pool.pull_one(rt).err() != refusal {
            return Err(Wrong::NotRefused);
        }
    }
    Ok(())
}

/// So many items. Each has its number and the round, and is written with the next round.
fn hold<P: Pulls<W>, W>(
    rt: &W,
    alloc: Global,
    items: u64,
    round: u64,
    pool: &P,
) -> Result<Vec<P::Item>, Wrong> {
    let mut seen = SeenNumbers::none(alloc, items)?;
    let mut held = Vec::with_capacity(alloc, items as usize)?;
    for _ in 0..items {
        let mut item = pool.pull_one(rt)?;
        seen.see(item.wrapping_sub(round.wrapping_mul(items)))?;
        *item = item.wrapping_add(items);
        held.push(item)?;
    }
    Ok(held)
}

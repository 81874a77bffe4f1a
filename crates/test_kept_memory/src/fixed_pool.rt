//! Turns on fixed pools.
ghost use Rattle.std.specs.Prelude.{◌≤◌};

use crate::observer::Turns;
use crate::supply::{Buffer, Supply, refused};
use lockfree_object_pool::closures::Keep;
use lockfree_object_pool::{FixedObjectPool, PullError, Worker};
use std::alloc::Global;
use std::sync::{Arc, Wait};

type Pool = FixedObjectPool<Buffer, Supply, Keep>;

/// How many items a pool has: a word of them and one more.
const ITEMS: usize = 33;

/// What is done in a turn.
#[derive(Drop)]
pub enum Kind {
    RefusedPools,
    RefusedPulls,
    Returns,
    OwnerReturns,
    Ends,
}

/// Each kind, and how its line begins.
pub const KINDS: [(&str, Kind); 5] = [
    ("fixed pools that are refused", Kind::RefusedPools),
    ("refused pulls of a fixed pool", Kind::RefusedPulls),
    ("items of a fixed pool", Kind::Returns),
    ("owners of a fixed pool", Kind::OwnerReturns),
    ("fixed pools", Kind::Ends),
];

impl Turns for Kind {
    fn take<W: Wait + Copy>(&self, _rt: &W, alloc: Global, turns: usize) -> Option<()> {
        match self {
            Kind::RefusedPools => refused_pools(alloc, turns),
            Kind::RefusedPulls => refused_pulls(alloc, turns),
            Kind::Returns => returns(alloc, turns),
            Kind::OwnerReturns => owner_returns(alloc, turns),
            Kind::Ends => ends(alloc, turns),
        }
    }
}

fn new_pool(alloc: Global, supply: &Supply, items: usize) -> Option<Arc<Pool>>
    requires { 1 ≤ items }
{
    let pool: Pool = FixedObjectPool::new(alloc, supply.share()?, Keep, items).ok()?;
    Arc::new(alloc, pool).ok()
}

/// A pool is refused, after any number of its items.
fn refused_pools(alloc: Global, turns: usize) -> Option<()> {
    let supply = Supply::endless(alloc)?;
    for turn in 0..turns {
        supply.end_after(turn % ITEMS);
        let pool = Pool::new(alloc, supply.share()?, Keep, ITEMS);
        refused(pool, PullError::Init)?;
    }
    Some(())
}

/// Pulls are refused while each item is held.
fn refused_pulls(alloc: Global, turns: usize) -> Option<()> {
    let pool = new_pool(alloc, &Supply::endless(alloc)?, ITEMS)?;
    let mut held = Vec::with_capacity(alloc, ITEMS).ok()?;
    for _ in 0..ITEMS {
        held.push(pool.pull().ok()?).ok()?;
    }
    all_are_held(&pool, turns)
}

/// Pulls of a pool are refused, since each item is held.
fn all_are_held(pool: &Arc<Pool>, turns: usize) -> Option<()> {
    for turn in 0..turns {
        refused(pool.pull_near(turn), PullError::Limit)?;
        refused(pool.pull_owned(), PullError::Limit)?;
    }
    Some(())
}

/// Items are pulled and returned, one of them by a worker with room, which ends then.
fn returns(alloc: Global, turns: usize) -> Option<()> {
    let pool = new_pool(alloc, &Supply::endless(alloc)?, ITEMS)?;
    for turn in 0..turns {
        let _borrowed = pool.pull().ok()?;
        let _near = pool.pull_near(turn).ok()?;
        let _owned = pool.pull_owned().ok()?;
        let item = pool.pull_item(turn).ok()?;
        pool.give(item.holding, item.value);
        let worker = Worker::with_room(alloc, pool.near(), 8).ok()?;
        drop(worker.pull().ok()?);
    }
    Some(())
}

/// The only owner of a pool goes into an item, comes back from it, and ends.
fn owner_returns(alloc: Global, turns: usize) -> Option<()> {
    let supply = Supply::endless(alloc)?;
    for turn in 0..turns {
        let owner = new_pool(alloc, &supply, ITEMS)?;
        let note = owner.note();
        let Ok(item) = owner.pull_by_owner(turn, note) else {
            return None;
        };
        drop(item.give_back_with_owner());
    }
    Some(())
}

/// A pool ends with the last of its items, after a pull that was refused.
fn ends(alloc: Global, turns: usize) -> Option<()> {
    let supply = Supply::endless(alloc)?;
    for _ in 0..turns {
        let pool = new_pool(alloc, &supply, 2)?;
        let _first = pool.pull_owned().ok()?;
        let _second = pool.pull_owned().ok()?;
        refused(pool.pull_owned(), PullError::Limit)?;
        drop(pool);
    }
    Some(())
}

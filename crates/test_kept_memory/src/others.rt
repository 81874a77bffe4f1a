//! Turns on the pool that keeps nothing, and on spin locks.
use crate::observer::Turns;
use crate::supply::{Supply, refused};
use lockfree_object_pool::spin_lock::SpinLock;
use lockfree_object_pool::{NoneObjectPool, PullError};
use std::alloc::Global;
use std::sync::{Arc, Wait};

/// What is done in a turn.
#[derive(Drop)]
pub enum Kind {
    NonePoolPulls,
    Locks,
}

/// Each kind, and how its line begins.
pub const KINDS: [(&str, Kind); 2] = [
    ("items of the none pool", Kind::NonePoolPulls),
    ("spin locks", Kind::Locks),
];

impl Turns for Kind {
    fn take<W: Wait + Copy>(&self, rt: &W, alloc: Global, turns: usize) -> Option<()> {
        match self {
            Kind::NonePoolPulls => none_pool_pulls(alloc, turns),
            Kind::Locks => locks(rt, alloc, turns),
        }
    }
}

/// Items are pulled and dropped, and a pull is refused.
fn none_pool_pulls(alloc: Global, turns: usize) -> Option<()> {
    let supply = Supply::endless(alloc)?;
    let pool = NoneObjectPool::new(|| supply.buffer());
    let pool = Arc::new(alloc, pool).ok()?;
    for _ in 0..turns {
        supply.end_after(2);
        let _borrowed = pool.pull().ok()?;
        let _owned = pool.pull_owned().ok()?;
        refused(pool.pull(), PullError::Init)?;
    }
    Some(())
}

/// A lock is taken, and ends.
fn locks<W: Wait>(rt: &W, alloc: Global, turns: usize) -> Option<()> {
    let supply = Supply::endless(alloc)?;
    for _ in 0..turns {
        let lock = SpinLock::new(alloc, supply.buffer()?).ok()?;
        lock.lock(rt).push(1).ok()?;
    }
    Some(())
}

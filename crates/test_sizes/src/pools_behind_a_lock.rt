//! The mutex pool and the spin lock pool, where many values are kept.
use crate::numbers::{Numbers, PAGE_ITEMS};
use crate::pulls::{Stack, Stacked};
use crate::rounds::come_back;
use crate::wrong::Wrong;
use lockfree_object_pool::closures::Keep;
use lockfree_object_pool::free_list::FreeList;
use lockfree_object_pool::{MutexObjectPool, SpinLockObjectPool};
use std::alloc::Global;
use std::sync::{Arc, Wait};

/// Plays the mutex pool, by borrowed items.
///
/// # Errors
///
/// `Wrong` names what was seen and may not be.
pub fn mutex<W: Wait + Copy>(rt: &W, alloc: Global, pages: u16) -> Result<(), Wrong> {
    let numbers = Numbers::new(alloc)?;
    let items = u64::from(pages) * PAGE_ITEMS;
    borrowed_come_back(
        rt,
        alloc,
        items,
        MutexObjectPool::new(alloc, numbers.share()?, Keep),
    )?;
    numbers.expect_made(items)
}

/// Plays a pool by borrowed items.
fn borrowed_come_back<F: FreeList<u64, Stacked>, W: Wait + Copy>(
    rt: &W,
    alloc: Global,
    items: u64,
    pool: Stack<F>,
) -> Result<(), Wrong> {
    come_back(rt, alloc, items, None, &&pool)
}

/// Plays the spin lock pool, by owned items.
///
/// # Errors
///
/// `Wrong` names what was seen and may not be.
pub fn spin_lock<W: Wait + Copy>(rt: &W, alloc: Global, pages: u16) -> Result<(), Wrong> {
    let numbers = Numbers::new(alloc)?;
    let pool = SpinLockObjectPool::new(alloc, numbers.share()?, Keep)?;
    let pool = Arc::new(alloc, pool)?;
    let items = u64::from(pages) * PAGE_ITEMS;
    come_back(rt, alloc, items, None, &pool)?;
    numbers.expect_made(items)
}
